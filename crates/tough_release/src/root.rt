//! An editor stands on a root.

ghost use Rattle.std.specs.Prelude.{◌≡◌, None, Some, IfOk, IfErr, option_map};
ghost use Rattle.tough_roles.specs.Root.{root_doc};
ghost use Rattle.tough_roles.specs.Signature.{signed_doc};
ghost use Rattle.tough_schema.specs.Whole.{tree_doc};
ghost use Rattle.tough_signed.specs.Roles.{signed_of, buffer_of};
ghost use Rattle.tough_edit.specs.Edits.{edits_doc};
ghost use Rattle.tough_release.specs.Edits.{release_doc, begun, begun_editor};
ghost use Rattle.tough_release.specs.Roots.{IsRootOf, root_in, first_unstable, IsUnstable};

use crate::edits::RepositoryEdits;
use crate::heading::Heading;
use std::alloc::{AllocError, Global};
use std::num::NonZeroU64;
use tough_edit::TargetEdits;
use tough_roles::{Root, Signed};
use tough_schema::{KeyHolder, Targets};
use tough_signed::{EditError, SignedRole};

// Whether each role of the root lists as many identifiers as its threshold; else the first that doesn't.
fn check_thresholds(root: &Root) -> Result<(), EditError>
    ensures stable { IfOk result (λ u. first_unstable (root_doc root.now).roles ≡ None) }
    ensures refused { IfErr result (IsUnstable (root_doc root.now).roles) }
{
    for (role, keys) in root.roles.iter() {
        let threshold = keys.threshold.get();
        let actual = keys.keyids.len();
        if (actual as u64) < threshold {
            return Err(EditError::UnstableRoot {
                role: *role,
                actual,
                threshold,
            });
        }
    }
    Ok(())
}

// An editor of new targets, which the root's keys sign. It takes over neither the version nor the expiry of the empty targets.
fn new_editor(alloc: Global, root: &Root) -> Result<TargetEdits, AllocError>
    ensures { IfOk result (λ e. edits_doc e ≡ begun_editor (root_doc root.now)) }
{
    let spec_version = String::from_str(alloc, "1.0.0")?;
    let targets = Targets::new(
        alloc,
        spec_version,
        NonZeroU64::MIN,
        jiff::Timestamp::UNIX_EPOCH,
    );
    let root = root.clone()?;
    let holder = KeyHolder::Root(root);
    TargetEdits::from_targets(alloc, "targets", targets, holder)
}

impl RepositoryEdits {
    /// An editor that stands on this root, whose file has these bytes: an editor of new targets is open, which the root's keys sign, and nothing is
    /// set. `UnstableRoot` for the first role, in the order of `RoleType`, that lists fewer identifiers than its threshold (TUF specification 1.0,
    /// section 4.3).
    pub fn new(
        alloc: Global,
        root: Signed<Root>,
        bytes: Vec<u8>,
    ) -> Result<RepositoryEdits, EditError>
        requires { IsRootOf root bytes.items }
        ensures begun { IfOk result (λ e. release_doc e
            ≡ begun (signed_doc root_doc root) bytes.items) }
        ensures stable { IfOk result
            (λ e. first_unstable (root_doc root.signed).roles ≡ None) }
        ensures refused { IfErr result (IsUnstable (root_doc root.signed).roles) }
    {
        if let Err(error) = check_thresholds(&root.signed) {
            return Err(error);
        }
        let editor = new_editor(alloc, &root.signed)?;
        Ok(RepositoryEdits {
            root: SignedRole::with_file(root, bytes),
            targets: None,
            editor: Some(editor),
            snapshot: Heading::new(alloc),
            timestamp: Heading::new(alloc),
        })
    }

    /// The root.
    pub fn root(&self) -> &SignedRole<Root>
        ensures root { signed_doc root_doc (signed_of result.now)
            ≡ (release_doc self.now).root }
        ensures file { buffer_of result.now ≡ (release_doc self.now).root_file }
        ensures read { root_in (buffer_of result.now)
            ≡ Some (signed_doc root_doc (signed_of result.now)) }
    {
        &self.root
    }

    /// The signed targets, with the documents of the roles below them.
    pub fn signed_targets(&self) -> Option<&Signed<Targets>>
        ensures { option_map (λ s. signed_doc tree_doc s.now) result
            ≡ (release_doc self.now).targets }
    {
        self.targets.as_ref()
    }

    /// The editor that is open, if any.
    pub fn editor(&self) -> Option<&TargetEdits>
        ensures { option_map (λ e. edits_doc e.now) result ≡ (release_doc self.now).editor }
    {
        self.editor.as_ref()
    }
}
