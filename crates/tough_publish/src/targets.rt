//! Calls of the targets editor that is open.

ghost use Rattle.std.specs.Prelude.{◌≡◌, ◌⊎◌, Ok, true, IfOk, IfErr};
ghost use Rattle.std.specs.Int.NonZero.{non_zero_u64_get};
ghost use Rattle.tough_files.specs.Contents.{Same};
ghost use Rattle.tough_schema.specs.FileDigest.{there};
ghost use Rattle.tough_schema.specs.FromPath.{IsTargetOf};
ghost use Rattle.tough_schema.specs.Paths.{paths_doc};
ghost use Rattle.tough_schema.specs.Target.{target_doc};
ghost use Rattle.tough_signed.specs.declared.error.EditError.TheVariants as errors;
ghost use Rattle.tough_edit.specs.Edits.{with_target, without_target, without_targets, with_version, with_expiry};
ghost use Rattle.tough_edit.specs.Files.{IsNamed, IsNoTarget};
ghost use Rattle.tough_release.specs.Edits.{at_editor, IsUnopened};
ghost use Rattle.tough_release.specs.Changes.{IsAdded, IsAddedOf, IsUnadded, AreAdded, AreAddedOf, AreRefused, IsDelegated, IsUndelegatable};
ghost use Rattle.tough_editor.specs.Wide.{Told};
ghost use Rattle.tough_editor.specs.Editors.{changed, IsChanged};
ghost use Rattle.tough_publish.specs.Editors.{editor_doc};

use crate::repository::RepositoryEditor;
use std::alloc::Global;
use std::num::NonZeroU64;
use tough_edit::build_target;
use tough_editor::wide;
use tough_error::Error;
use tough_files::Files;
use tough_keys::Sign;
use tough_names::TargetName;
use tough_schema::{PathSet, Target};

impl<T> RepositoryEditor<T> {
    /// The last component of the path as a target's name, and the target that the file there is. The errors, in this order: `NoFileName`, those of the
    /// name, `TargetFromPath`.
    pub fn build_target<F: Files>(
        alloc: Global,
        files: &mut F,
        path: &str,
    ) -> Result<(TargetName, Target), Error>
        ensures name { IfOk result (λ p. IsNamed path.now p.0) }
        ensures target { F.tells ≡ true → IfOk result
            (λ p. IsTargetOf (there path.now (F.contents files.old)) (Ok p.1)) }
        ensures refused { F.tells ≡ true → IfErr result
            (Told (IsNoTarget path.now (there path.now (F.contents files.old)))) }
        ensures kept { F.tells ≡ true → Same (F.contents files.old) (F.contents files.new) }
    {
        match build_target(alloc, files, path) {
            Ok(named) => Ok(named),
            Err(error) => Err(wide(alloc, error)),
        }
    }

    /// Sets the version of the document that is edited; `NoTargets` if no editor is open.
    pub fn targets_version(&mut self, version: NonZeroU64) -> Result<&mut Self, Error>
        ensures set { IfOk result (λ e. editor_doc e.now
            ≡ changed (at_editor (with_version (non_zero_u64_get version))) (editor_doc self.old)) }
        ensures lent { IfOk result (λ e. e.ghost_name ≡ self.entry.ghost_name) }
        ensures refused { IfErr result (Told (IsUnopened (editor_doc self.old).edits)) }
    {
        match self.edits.targets_version(version) {
            Ok(()) => Ok(self),
            Err(error) => Err(wide(self.alloc, error)),
        }
    }

    /// Sets when the document that is edited expires; `NoTargets` if no editor is open.
    pub fn targets_expires(&mut self, expires: jiff::Timestamp) -> Result<&mut Self, Error>
        ensures set { IfOk result (λ e. editor_doc e.now
            ≡ changed (at_editor (with_expiry expires.nanosecond)) (editor_doc self.old)) }
        ensures lent { IfOk result (λ e. e.ghost_name ≡ self.entry.ghost_name) }
        ensures refused { IfErr result (Told (IsUnopened (editor_doc self.old).edits)) }
    {
        match self.edits.targets_expires(expires) {
            Ok(()) => Ok(self),
            Err(error) => Err(wide(self.alloc, error)),
        }
    }

    /// Adds the target to the document that is edited, in the place of one of the name; `NoTargets` if no editor is open.
    pub fn add_target(&mut self, name: TargetName, target: Target) -> Result<&mut Self, Error>
        ensures added { IfOk result (λ e. editor_doc e.now
            ≡ changed (at_editor (with_target name (target_doc target))) (editor_doc self.old)) }
        ensures lent { IfOk result (λ e. e.ghost_name ≡ self.entry.ghost_name) }
        ensures refused { IfErr result
            (Told (λ e. (e ≡ errors.Memory) ⊎ IsUnopened (editor_doc self.old).edits e)) }
    {
        match self.edits.add_target(name, target) {
            Ok(()) => Ok(self),
            Err(error) => Err(wide(self.alloc, error)),
        }
    }

    /// Removes the name from the targets of the document that is edited; `NoTargets` if no editor is open.
    pub fn remove_target(&mut self, name: &TargetName) -> Result<&mut Self, Error>
        ensures removed { IfOk result (λ e. editor_doc e.now
            ≡ changed (at_editor (without_target name.now)) (editor_doc self.old)) }
        ensures lent { IfOk result (λ e. e.ghost_name ≡ self.entry.ghost_name) }
        ensures refused { IfErr result (Told (IsUnopened (editor_doc self.old).edits)) }
    {
        match self.edits.remove_target(name) {
            Ok(()) => Ok(self),
            Err(error) => Err(wide(self.alloc, error)),
        }
    }

    /// Removes all targets of the document that is edited; `NoTargets` if no editor is open.
    pub fn clear_targets(&mut self) -> Result<&mut Self, Error>
        ensures cleared { IfOk result (λ e. editor_doc e.now
            ≡ changed (at_editor without_targets) (editor_doc self.old)) }
        ensures lent { IfOk result (λ e. e.ghost_name ≡ self.entry.ghost_name) }
        ensures refused { IfErr result (Told (IsUnopened (editor_doc self.old).edits)) }
    {
        match self.edits.clear_targets() {
            Ok(()) => Ok(self),
            Err(error) => Err(wide(self.alloc, error)),
        }
    }

    /// Adds what `build_target` makes of the path, as `add_target` does. The errors, in this order: those of `build_target`, and `NoTargets` if no
    /// editor is open.
    pub fn add_target_path<F: Files>(
        &mut self,
        files: &mut F,
        path: &str,
    ) -> Result<&mut Self, Error>
        ensures added { IfOk result (λ e. IsChanged (IsAdded path.now) (editor_doc self.old)
            (editor_doc e.now)) }
        ensures target { F.tells ≡ true → IfOk result (λ e. IsChanged
            (IsAddedOf path.now (there path.now (F.contents files.old))) (editor_doc self.old)
            (editor_doc e.now)) }
        ensures lent { IfOk result (λ e. e.ghost_name ≡ self.entry.ghost_name) }
        ensures refused { F.tells ≡ true → IfErr result (Told (IsUnadded path.now
            (there path.now (F.contents files.old)) (editor_doc self.old).edits)) }
        ensures kept { F.tells ≡ true → Same (F.contents files.old) (F.contents files.new) }
    {
        match self.edits.add_target_path(self.alloc, files, path) {
            Ok(()) => Ok(self),
            Err(error) => Err(wide(self.alloc, error)),
        }
    }

    /// Adds each path as `add_target_path` does, in their order. Its errors, for the first path that has one; the targets of the paths before it stay.
    pub fn add_target_paths<F: Files>(
        &mut self,
        files: &mut F,
        paths: &[&str],
    ) -> Result<&mut Self, Error>
        ensures added { IfOk result (λ e. IsChanged (AreAdded paths.now) (editor_doc self.old)
            (editor_doc e.now)) }
        ensures targets { F.tells ≡ true → IfOk result (λ e. IsChanged
            (AreAddedOf (F.contents files.old) paths.now) (editor_doc self.old)
            (editor_doc e.now)) }
        ensures lent { IfOk result (λ e. e.ghost_name ≡ self.entry.ghost_name) }
        ensures refused { F.tells ≡ true → IfErr result (Told (AreRefused
            (F.contents files.old) paths.now (editor_doc self.old).edits)) }
        ensures kept { F.tells ≡ true → Same (F.contents files.old) (F.contents files.new) }
    {
        match self.edits.add_target_paths(self.alloc, files, paths) {
            Ok(()) => Ok(self),
            Err(error) => Err(wide(self.alloc, error)),
        }
    }

    /// Delegates a new role to the signers' keys, in their order, with a new document that lists nothing and that they sign (TUF specification 1.0,
    /// section 4.5). The errors, in this order: those of `TargetsEditor::create_signed` without a holder; `NoTargets` if no editor is open;
    /// `NoDelegations` where the document that is edited has none.
    pub fn delegate_role<S: Sign>(
        &mut self,
        name: &str,
        signers: &[S],
        paths: PathSet,
        terminating: bool,
        threshold: NonZeroU64,
        expires: jiff::Timestamp,
        version: NonZeroU64,
    ) -> Result<&mut Self, Error>
        ensures delegated { IfOk result (λ e. IsChanged (IsDelegated S.key S.signs (record {
          name = name.now;
          paths = paths_doc paths;
          terminating = terminating;
          threshold = non_zero_u64_get threshold;
          expires = expires.nanosecond;
          version = non_zero_u64_get version;
        }) signers.now) (editor_doc self.old) (editor_doc e.now)) }
        ensures lent { IfOk result (λ e. e.ghost_name ≡ self.entry.ghost_name) }
        ensures refused { IfErr result (Told (IsUndelegatable S.key S.signs S.fails (record {
          name = name.now;
          paths = paths_doc paths;
          terminating = terminating;
          threshold = non_zero_u64_get threshold;
          expires = expires.nanosecond;
          version = non_zero_u64_get version;
        }) signers.now (editor_doc self.old).edits)) }
    {
        match self.edits.delegate_role(
            self.alloc,
            name,
            signers,
            paths,
            terminating,
            threshold,
            expires,
            version,
        ) {
            Ok(()) => Ok(self),
            Err(error) => Err(wide(self.alloc, error)),
        }
    }
}
