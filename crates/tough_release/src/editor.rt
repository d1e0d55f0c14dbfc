//! Calls of the targets editor that is open.

ghost use Rattle.std.specs.Prelude.{◌≡◌, ◌⊎◌, true, is_some, IfOk, IfErr, OnOk, OnErr, IsTrue};
ghost use Rattle.std.specs.Int.NonZero.{non_zero_u64_get};
ghost use Rattle.tough_files.specs.Contents.{Same};
ghost use Rattle.tough_roles.specs.Root.{keys_doc};
ghost use Rattle.tough_schema.specs.FileDigest.{there};
ghost use Rattle.tough_schema.specs.Paths.{paths_doc};
ghost use Rattle.tough_schema.specs.Target.{target_doc};
ghost use Rattle.tough_schema.specs.Whole.{held_doc};
ghost use Rattle.tough_signed.specs.declared.error.EditError.TheVariants as errors;
ghost use Rattle.tough_edit.specs.Edits.{with_target, without_target, without_targets, with_version, with_expiry};
ghost use Rattle.tough_edit.specs.Roles.{delegated_to, with_role};
ghost use Rattle.tough_edit.specs.Signed.{IsCreated, IsUncreated};
ghost use Rattle.tough_release.specs.Edits.{release_doc, at_editor, IsUnopened};
ghost use Rattle.tough_release.specs.Changes.{IsAdded, IsAddedOf, IsUnadded, AreAdded, AreAddedOf, SomeAdded, IsStopped, NewRole, HasDelegations, IsUndelegating, new_document, IsDelegated, IsUndelegatable};

use crate::edits::RepositoryEdits;
use std::alloc::Global;
use std::collections::BTreeMap;
use std::num::NonZeroU64;
use tough_decoded::{Decoded, Hex};
use tough_edit::{SignersKeys, TargetEdits, build_target, signers_keys};
use tough_files::Files;
use tough_keys::{Key, Sign};
use tough_names::TargetName;
use tough_roles::Signed;
use tough_schema::{DelegatedTargets, PathSet, Target};
use tough_signed::EditError;

impl RepositoryEdits {
    /// Sets the version of the document that is edited; `NoTargets` if no editor is open.
    pub fn targets_version(&mut self, version: NonZeroU64) -> Result<(), EditError>
        ensures set { OnOk result (release_doc self.new
            ≡ at_editor (with_version (non_zero_u64_get version)) (release_doc self.old)) }
        ensures there { OnOk result (IsTrue (is_some (release_doc self.old).editor)) }
        ensures refused { IfErr result (IsUnopened (release_doc self.old)) }
        ensures unchanged { OnErr result (release_doc self.new ≡ release_doc self.old) }
    {
        let Some(editor) = &mut self.editor else {
            return Err(EditError::NoTargets);
        };
        editor.version(version);
        Ok(())
    }

    /// Sets when the document that is edited expires; `NoTargets` if no editor is open.
    pub fn targets_expires(&mut self, expires: jiff::Timestamp) -> Result<(), EditError>
        ensures set { OnOk result (release_doc self.new
            ≡ at_editor (with_expiry expires.nanosecond) (release_doc self.old)) }
        ensures there { OnOk result (IsTrue (is_some (release_doc self.old).editor)) }
        ensures refused { IfErr result (IsUnopened (release_doc self.old)) }
        ensures unchanged { OnErr result (release_doc self.new ≡ release_doc self.old) }
    {
        let Some(editor) = &mut self.editor else {
            return Err(EditError::NoTargets);
        };
        editor.expires(expires);
        Ok(())
    }

    /// Adds the target to the document that is edited, in the place of one of the name; `NoTargets` if no editor is open.
    pub fn add_target(&mut self, name: TargetName, target: Target) -> Result<(), EditError>
        ensures added { OnOk result (release_doc self.new
            ≡ at_editor (with_target name (target_doc target)) (release_doc self.old)) }
        ensures there { OnOk result (IsTrue (is_some (release_doc self.old).editor)) }
        ensures refused { IfErr result
            (λ e. (e ≡ errors.Memory) ⊎ IsUnopened (release_doc self.old) e) }
        ensures unchanged { OnErr result (release_doc self.new ≡ release_doc self.old) }
    {
        let Some(editor) = &mut self.editor else {
            return Err(EditError::NoTargets);
        };
        editor.add_target(name, target)?;
        Ok(())
    }

    /// Removes the name from the targets of the document that is edited; `NoTargets` if no editor is open.
    pub fn remove_target(&mut self, name: &TargetName) -> Result<(), EditError>
        ensures removed { OnOk result (release_doc self.new
            ≡ at_editor (without_target name.now) (release_doc self.old)) }
        ensures there { OnOk result (IsTrue (is_some (release_doc self.old).editor)) }
        ensures refused { IfErr result (IsUnopened (release_doc self.old)) }
        ensures unchanged { OnErr result (release_doc self.new ≡ release_doc self.old) }
    {
        let Some(editor) = &mut self.editor else {
            return Err(EditError::NoTargets);
        };
        editor.remove_target(name);
        Ok(())
    }

    /// Removes all targets of the document that is edited; `NoTargets` if no editor is open.
    pub fn clear_targets(&mut self) -> Result<(), EditError>
        ensures cleared { OnOk result (release_doc self.new
            ≡ at_editor without_targets (release_doc self.old)) }
        ensures there { OnOk result (IsTrue (is_some (release_doc self.old).editor)) }
        ensures refused { IfErr result (IsUnopened (release_doc self.old)) }
        ensures unchanged { OnErr result (release_doc self.new ≡ release_doc self.old) }
    {
        let Some(editor) = &mut self.editor else {
            return Err(EditError::NoTargets);
        };
        editor.clear_targets();
        Ok(())
    }

    /// Adds what `build_target` makes of the path, as `add_target` does. The refusals, in this order: those of `build_target`, and `NoTargets` if no
    /// editor is open.
    pub fn add_target_path<F: Files>(
        &mut self,
        alloc: Global,
        files: &mut F,
        path: &str,
    ) -> Result<(), EditError>
        ensures added { OnOk result
            (IsAdded path.now (release_doc self.old) (release_doc self.new)) }
        ensures target { F.tells ≡ true → OnOk result (IsAddedOf path.now
            (there path.now (F.contents files.old)) (release_doc self.old) (release_doc self.new)) }
        ensures refused { F.tells ≡ true → IfErr result (IsUnadded path.now
            (there path.now (F.contents files.old)) (release_doc self.old)) }
        ensures unchanged { OnErr result (release_doc self.new ≡ release_doc self.old) }
        ensures kept { F.tells ≡ true → Same (F.contents files.old) (F.contents files.new) }
    {
        let (name, target) = build_target(alloc, files, path)?;
        self.add_target(name, target)
    }

    /// Adds each path as `add_target_path` does, in order; its refusals, by which the paths before it stay added.
    pub fn add_target_paths<F: Files>(
        &mut self,
        alloc: Global,
        files: &mut F,
        paths: &[&str],
    ) -> Result<(), EditError>
        ensures added { OnOk result
            (AreAdded paths.now (release_doc self.old) (release_doc self.new)) }
        ensures targets { F.tells ≡ true → OnOk result (AreAddedOf (F.contents files.old) paths.now
            (release_doc self.old) (release_doc self.new)) }
        ensures refused { F.tells ≡ true → IfErr result (IsStopped (F.contents files.old) paths.now
            (release_doc self.old) (release_doc self.new)) }
        ensures some { OnErr result
            (SomeAdded paths.now (release_doc self.old) (release_doc self.new)) }
        ensures kept { F.tells ≡ true → Same (F.contents files.old) (F.contents files.new) }
    {
        for path in paths {
            self.add_target_path(alloc, files, path)?;
        }
        Ok(())
    }

    /// Delegates a new role with that document, under its name, as `TargetEdits::delegate_role` does (TUF specification 1.0, section 4.5). The
    /// refusals, in this order: `NoTargets` if no editor is open; `NoDelegations` where the document that is edited has none.
    pub fn delegate_document(
        &mut self,
        document: Signed<DelegatedTargets>,
        paths: PathSet,
        terminating: bool,
        keys: BTreeMap<Decoded<Hex>, Key>,
        keyids: Vec<Decoded<Hex>>,
        threshold: NonZeroU64,
    ) -> Result<(), EditError>
        ensures delegated { OnOk result (release_doc self.new
            ≡ at_editor (with_role (keys_doc keys.entries) (delegated_to (held_doc document)
            (paths_doc paths) terminating keyids.items (non_zero_u64_get threshold)))
            (release_doc self.old)) }
        ensures there { OnOk result (HasDelegations (release_doc self.old)) }
        ensures refused { IfErr result (IsUndelegating (release_doc self.old)) }
        ensures unchanged { OnErr result (release_doc self.new ≡ release_doc self.old) }
    {
        let Some(editor) = &mut self.editor else {
            return Err(EditError::NoTargets);
        };
        editor.delegate_role(document, paths, terminating, keys, keyids, threshold)
    }

    /// Delegates a new role to the signers' keys, in their order, with a new document that lists nothing and that they sign (TUF specification 1.0,
    /// section 4.5). The refusals, in this order: those of `TargetEdits::create_signed` without a holder; `NoTargets` if no editor is open;
    /// `NoDelegations` where the document that is edited has none.
    pub fn delegate_role<S: Sign>(
        &mut self,
        alloc: Global,
        name: &str,
        signers: &[S],
        paths: PathSet,
        terminating: bool,
        threshold: NonZeroU64,
        expires: jiff::Timestamp,
        version: NonZeroU64,
    ) -> Result<(), EditError>
        ensures delegated { OnOk result (IsDelegated S.key S.signs (record {
          name = name.now;
          paths = paths_doc paths;
          terminating = terminating;
          threshold = non_zero_u64_get threshold;
          expires = expires.nanosecond;
          version = non_zero_u64_get version;
        }) signers.now (release_doc self.old) (release_doc self.new)) }
        ensures refused { IfErr result (IsUndelegatable S.key S.signs S.fails (record {
          name = name.now;
          paths = paths_doc paths;
          terminating = terminating;
          threshold = non_zero_u64_get threshold;
          expires = expires.nanosecond;
          version = non_zero_u64_get version;
        }) signers.now (release_doc self.old)) }
        ensures unchanged { OnErr result (release_doc self.new ≡ release_doc self.old) }
    {
        let document = new_document(alloc, name, signers, expires, version)?;
        let told = signers_keys(alloc, signers)?;
        let SignersKeys { keyids, keys } = told;
        self.delegate_document(document, paths, terminating, keys, keyids, threshold)
    }
}

// A new role's document, which lists nothing.
fn new_document<S: Sign>(
    alloc: Global,
    name: &str,
    signers: &[S],
    expires: jiff::Timestamp,
    version: NonZeroU64,
) -> Result<Signed<DelegatedTargets>, EditError>
    ensures signed { IfOk result (IsCreated S.key S.signs
        (new_document name.now (non_zero_u64_get version) expires.nanosecond) signers.now) }
    ensures refused { IfErr result (IsUncreated S.key S.fails
        (new_document name.now (non_zero_u64_get version) expires.nanosecond) signers.now) }
{
    let mut editor = TargetEdits::new(alloc, name)?;
    editor.version(version);
    editor.expires(expires);
    editor.create_signed(alloc, signers)
}
