//! The editor of a targets document.

ghost use Rattle.std.specs.Prelude.{◌≡◌, Some, true, false, IfOk, IfErr, option_copied};
ghost use Rattle.std.specs.Int.NonZero.{non_zero_u64_get};
ghost use Rattle.tough_files.specs.Contents.{Same};
ghost use Rattle.tough_roles.specs.Root.{keys_doc};
ghost use Rattle.tough_schema.specs.FileDigest.{there};
ghost use Rattle.tough_schema.specs.Paths.{paths_doc};
ghost use Rattle.tough_schema.specs.Target.{target_doc};
ghost use Rattle.tough_schema.specs.Whole.{tree_doc, held_doc};
ghost use Rattle.tough_signed.specs.Holders.{holder_doc};
ghost use Rattle.tough_signed.specs.Standing.{roles_of, is_consistent};
ghost use Rattle.tough_edit.specs.Edits.{edits_doc, fresh, opened, with_target, without_target, without_targets, with_version, with_expiry};
ghost use Rattle.tough_edit.specs.Keys.{key_added, key_removed, IsUndelegated};
ghost use Rattle.tough_edit.specs.Roles.{delegated_to, with_role, without_role};
ghost use Rattle.tough_edit.specs.Files.{IsAdded, IsAddedOf, AreAdded, AreAddedOf, AreRefused, IsNoTarget};
ghost use Rattle.tough_edit.specs.Built.{IsBuilt, IsIncomplete};
ghost use Rattle.tough_edit.specs.Signed.{IsCreated, IsUncreated, AreSigned, IsSigningRefused};
ghost use Rattle.tough_editor.specs.Wide.{Told};
ghost use Rattle.tough_editor.specs.Editors.{editor_doc, alone, changed, IsChanged, with_limits, with_transport, IsMemory};

use crate::error::wide;
use std::alloc::Global;
use std::collections::BTreeMap;
use std::num::NonZeroU64;
use tough_decoded::{Decoded, Hex};
use tough_edit::TargetEdits;
use tough_error::Error;
use tough_files::Files;
use tough_keys::{Key, Sign};
use tough_names::TargetName;
use tough_net::Limits;
use tough_roles::Signed;
use tough_schema::{DelegatedTargets, KeyHolder, PathSet, Target, Targets};
use tough_signed::SignedDelegatedTargets;

/// An editor of a targets document (TUF specification 1.0, section 4.5), with the limits and the transport by which it fetches roles.
///
/// A call that refuses changes nothing, but that `add_target_paths` keeps the paths that it has added.
#[derive(Drop)]
pub struct TargetsEditor<T> {
    pub(crate) alloc: Global,
    pub(crate) edits: TargetEdits,
    pub(crate) limits: Option<Limits>,
    pub(crate) transport: Option<T>,
}

impl<T> TargetsEditor<T> {
    // An editor with these edits, without limits and without a transport.
    fn alone(alloc: Global, edits: TargetEdits) -> TargetsEditor<T>
        ensures { editor_doc result ≡ alone (edits_doc edits) }
    {
        TargetsEditor {
            alloc,
            edits,
            limits: None,
            transport: None,
        }
    }

    /// An editor of a new document of the role, with empty delegations and no holder of its keys.
    pub fn new(alloc: Global, name: &str) -> Result<TargetsEditor<T>, Error>
        ensures made { IfOk result (λ e. editor_doc e ≡ alone (fresh name.now)) }
        ensures refused { IfErr result IsMemory }
    {
        match TargetEdits::new(alloc, name) {
            Ok(edits) => Ok(TargetsEditor::alone(alloc, edits)),
            Err(_) => Err(Error::Memory),
        }
    }

    /// An editor of the role's document, which the holder's keys sign: with its targets, its delegations and its extras. Its version and its expiry are
    /// to be set anew.
    pub fn from_targets(
        alloc: Global,
        name: &str,
        targets: Targets,
        holder: KeyHolder,
    ) -> Result<TargetsEditor<T>, Error>
        ensures made { IfOk result (λ e. editor_doc e
            ≡ alone (opened name.now (Some (holder_doc holder)) (tree_doc targets))) }
        ensures refused { IfErr result IsMemory }
    {
        match TargetEdits::from_targets(alloc, name, targets, holder) {
            Ok(edits) => Ok(TargetsEditor::alone(alloc, edits)),
            Err(_) => Err(Error::Memory),
        }
    }

    /// The edits so far.
    pub fn edits(&self) -> &TargetEdits
        ensures { edits_doc result.now ≡ (editor_doc self.now).edits }
    {
        &self.edits
    }

    /// Sets the limits under which roles are fetched.
    pub fn limits(&mut self, limits: Limits) -> &mut Self
        ensures set { editor_doc result.now ≡ with_limits (editor_doc self.old) limits }
        ensures lent { result.ghost_name ≡ self.entry.ghost_name }
    {
        self.limits = Some(limits);
        self
    }

    /// Sets the transport by which roles are fetched.
    pub fn transport(&mut self, transport: T) -> &mut Self
    where
        T: Drop,
        ensures set { editor_doc result.now ≡ with_transport (editor_doc self.old) transport }
        ensures lent { result.ghost_name ≡ self.entry.ghost_name }
    {
        self.transport = Some(transport);
        self
    }

    /// Sets the document's version.
    pub fn version(&mut self, version: NonZeroU64) -> &mut Self
        ensures set { editor_doc result.now
            ≡ changed (with_version (non_zero_u64_get version)) (editor_doc self.old) }
        ensures lent { result.ghost_name ≡ self.entry.ghost_name }
    {
        self.edits.version(version);
        self
    }

    /// Sets when the document expires.
    pub fn expires(&mut self, expires: jiff::Timestamp) -> &mut Self
        ensures set { editor_doc result.now
            ≡ changed (with_expiry expires.nanosecond) (editor_doc self.old) }
        ensures lent { result.ghost_name ≡ self.entry.ghost_name }
    {
        self.edits.expires(expires);
        self
    }

    /// Adds a target, in the place of one that was added under its name.
    pub fn add_target(&mut self, name: TargetName, target: Target) -> Result<&mut Self, Error>
        ensures added { IfOk result (λ e. editor_doc e.now
            ≡ changed (with_target name (target_doc target)) (editor_doc self.old)) }
        ensures lent { IfOk result (λ e. e.ghost_name ≡ self.entry.ghost_name) }
        ensures refused { IfErr result IsMemory }
    {
        match self.edits.add_target(name, target) {
            Ok(()) => Ok(self),
            Err(_) => Err(Error::Memory),
        }
    }

    /// Removes the target of the name, also one that was added.
    pub fn remove_target(&mut self, name: &TargetName) -> &mut Self
        ensures removed { editor_doc result.now
            ≡ changed (without_target name.now) (editor_doc self.old) }
        ensures lent { result.ghost_name ≡ self.entry.ghost_name }
    {
        self.edits.remove_target(name);
        self
    }

    /// Removes all targets, also those that were added.
    pub fn clear_targets(&mut self) -> &mut Self
        ensures removed { editor_doc result.now ≡ changed without_targets (editor_doc self.old) }
        ensures lent { result.ghost_name ≡ self.entry.ghost_name }
    {
        self.edits.clear_targets();
        self
    }

    /// Adds the file at the path as a target, under the last component of the path. The errors, in this order: `NoFileName`, those of the name,
    /// `TargetFromPath`.
    pub fn add_target_path<F: Files>(
        &mut self,
        files: &mut F,
        path: &str,
    ) -> Result<&mut Self, Error>
        ensures added { IfOk result (λ e. IsChanged (IsAdded path.now) (editor_doc self.old)
            (editor_doc e.now)) }
        ensures target { F.tells ≡ true → IfOk result (λ e. IsChanged
            (IsAddedOf path.now (there path.now (F.contents files.old))) (editor_doc self.old)
            (editor_doc e.now)) }
        ensures lent { IfOk result (λ e. e.ghost_name ≡ self.entry.ghost_name) }
        ensures refused { F.tells ≡ true → IfErr result
            (Told (IsNoTarget path.now (there path.now (F.contents files.old)))) }
        ensures kept { F.tells ≡ true → Same (F.contents files.old) (F.contents files.new) }
    {
        match self.edits.add_target_path(self.alloc, files, path) {
            Ok(()) => Ok(self),
            Err(error) => Err(wide(self.alloc, error)),
        }
    }

    /// Adds the file at each path, in their order. The errors of `add_target_path`, for the first path that has one; the targets of the paths before it stay.
    pub fn add_target_paths<F: Files>(
        &mut self,
        files: &mut F,
        paths: &[&str],
    ) -> Result<&mut Self, Error>
        ensures added { IfOk result (λ e. IsChanged (AreAdded paths.now) (editor_doc self.old)
            (editor_doc e.now)) }
        ensures targets { F.tells ≡ true → IfOk result (λ e. IsChanged
            (AreAddedOf (F.contents files.old) paths.now) (editor_doc self.old)
            (editor_doc e.now)) }
        ensures lent { IfOk result (λ e. e.ghost_name ≡ self.entry.ghost_name) }
        ensures refused { F.tells ≡ true → IfErr result
            (Told (AreRefused (F.contents files.old) paths.now (editor_doc self.old).edits)) }
        ensures kept { F.tells ≡ true → Same (F.contents files.old) (F.contents files.new) }
    {
        match self.edits.add_target_paths(self.alloc, files, paths) {
            Ok(()) => Ok(self),
            Err(error) => Err(wide(self.alloc, error)),
        }
    }

    /// Adds each key that no key there equals. Where a role is named, each old and new role of the name lists the keys' identifiers too. `NoDelegations`
    /// if the document has none.
    pub fn add_key(
        &mut self,
        keys: BTreeMap<Decoded<Hex>, Key>,
        role: Option<&str>,
    ) -> Result<&mut Self, Error>
        ensures added { IfOk result (λ e. editor_doc e.now
            ≡ changed (key_added (keys_doc keys.entries) (option_copied role.entry))
            (editor_doc self.old)) }
        ensures lent { IfOk result (λ e. e.ghost_name ≡ self.entry.ghost_name) }
        ensures refused { IfErr result (Told (IsUndelegated (editor_doc self.old).edits)) }
    {
        match self.edits.add_key(self.alloc, keys, role) {
            Ok(()) => Ok(self),
            Err(error) => Err(wide(self.alloc, error)),
        }
    }

    /// Removes the identifier from each old role of the name, or, where none is named, the key from the keys. `NoDelegations` if the document has none.
    pub fn remove_key(
        &mut self,
        keyid: &Decoded<Hex>,
        role: Option<&str>,
    ) -> Result<&mut Self, Error>
        ensures removed { IfOk result (λ e. editor_doc e.now
            ≡ changed (key_removed keyid.now (option_copied role.entry)) (editor_doc self.old)) }
        ensures lent { IfOk result (λ e. e.ghost_name ≡ self.entry.ghost_name) }
        ensures refused { IfErr result (Told (IsUndelegated (editor_doc self.old).edits)) }
    {
        match self.edits.remove_key(keyid, role) {
            Ok(()) => Ok(self),
            Err(error) => Err(wide(self.alloc, error)),
        }
    }

    /// Delegates to the role of the document: adds each key that no key there equals, and a new role that lists these identifiers and may list these
    /// paths. `NoDelegations` if the document has none.
    pub fn delegate_role(
        &mut self,
        document: Signed<DelegatedTargets>,
        paths: PathSet,
        terminating: bool,
        keys: BTreeMap<Decoded<Hex>, Key>,
        keyids: Vec<Decoded<Hex>>,
        threshold: NonZeroU64,
    ) -> Result<&mut Self, Error>
        ensures delegated { IfOk result (λ e. editor_doc e.now
            ≡ changed (with_role (keys_doc keys.entries) (delegated_to (held_doc document)
            (paths_doc paths) terminating keyids.items (non_zero_u64_get threshold)))
            (editor_doc self.old)) }
        ensures lent { IfOk result (λ e. e.ghost_name ≡ self.entry.ghost_name) }
        ensures refused { IfErr result (Told (IsUndelegated (editor_doc self.old).edits)) }
    {
        match self
            .edits
            .delegate_role(document, paths, terminating, keys, keyids, threshold)
        {
            Ok(()) => Ok(self),
            Err(error) => Err(wide(self.alloc, error)),
        }
    }

    /// Removes the old roles of the name; where it is recursive, also the old roles below which the name is delegated to. `NoDelegations` if the
    /// document has none.
    pub fn remove_role(&mut self, name: &str, recursive: bool) -> Result<&mut Self, Error>
        ensures removed { IfOk result (λ e. editor_doc e.now
            ≡ changed (without_role name.now recursive) (editor_doc self.old)) }
        ensures lent { IfOk result (λ e. e.ghost_name ≡ self.entry.ghost_name) }
        ensures refused { IfErr result (Told (IsUndelegated (editor_doc self.old).edits)) }
    {
        match self.edits.remove_role(self.alloc, name, recursive) {
            Ok(()) => Ok(self),
            Err(error) => Err(wide(self.alloc, error)),
        }
    }

    /// The document: the old targets and the added ones, which take the place of old ones, the delegations with the new roles last, and the extras.
    /// `Missing` for `targets version`, then for `targets expiration`.
    pub fn build_targets(&self) -> Result<DelegatedTargets, Error>
        ensures built { IfOk result (IsBuilt (editor_doc self.now).edits) }
        ensures refused { IfErr result (Told (IsIncomplete (editor_doc self.now).edits)) }
    {
        match self.edits.build_targets(self.alloc) {
            Ok(document) => Ok(document),
            Err(error) => Err(wide(self.alloc, error)),
        }
    }

    /// The document, signed for the holder of its keys, or, without one, for the signers' keys with threshold 1 (section 4.2). The errors, in this order:
    /// without a holder `SignMessage` and `JsonSerialization`; `Missing`; those of `SignedRole::new`.
    pub fn create_signed<S: Sign>(&self, signers: &[S]) -> Result<Signed<DelegatedTargets>, Error>
        ensures signed { IfOk result
            (IsCreated S.key S.signs (editor_doc self.now).edits signers.now) }
        ensures refused { IfErr result
            (Told (IsUncreated S.key S.fails (editor_doc self.now).edits signers.now)) }
    {
        match self.edits.create_signed(self.alloc, signers) {
            Ok(document) => Ok(document),
            Err(error) => Err(wide(self.alloc, error)),
        }
    }

    /// The signed document with its file, and after it the documents of the new roles as they stand. The names of their files have no versions. The
    /// errors, in this order: those of `create_signed`; `SerializeSignedRole`; for each new role `NoTargets` and `SerializeSignedRole`.
    pub fn sign<S: Sign>(&self, signers: &[S]) -> Result<SignedDelegatedTargets, Error>
        ensures signed { IfOk result (λ s. AreSigned S.key S.signs (editor_doc self.now).edits
            signers.now (roles_of s)) }
        ensures plain { IfOk result (λ s. is_consistent s ≡ false) }
        ensures refused { IfErr result
            (Told (IsSigningRefused S.key S.signs S.fails (editor_doc self.now).edits
            signers.now)) }
    {
        match self.edits.sign(self.alloc, signers) {
            Ok(signed) => Ok(signed),
            Err(error) => Err(wide(self.alloc, error)),
        }
    }
}
