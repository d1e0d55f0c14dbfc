//! The open editor is signed and closed, one over another document is opened, and the repository is signed.

ghost use Rattle.std.specs.Prelude.{◌≡◌, IfOk, IfErr};
ghost use Rattle.tough_release.specs.Closing.{IsClosed, IsUnclosed, IsChanged as IsOpened, IsUnchangeable};
ghost use Rattle.tough_release.specs.Release.{IsReleased, IsReleaseRefused};
ghost use Rattle.tough_editor.specs.Wide.{Told};
ghost use Rattle.tough_editor.specs.Editors.{IsChanged};
ghost use Rattle.tough_publish.specs.Editors.{editor_doc};

use crate::repository::RepositoryEditor;
use tough_editor::wide;
use tough_error::Error;
use tough_keys::Sign;
use tough_release::SignedRepository;

impl<T> RepositoryEditor<T> {
    /// Signs what the open editor makes, if one is open, for who holds the keys of its role, and closes it. The document becomes the signed targets,
    /// or that of the role of the editor's name (TUF specification 1.0, section 4.5). The errors, in this order: for a delegated role `NoTargets`
    /// without signed targets, and `DelegateMissing` where they have no such role; those of `TargetsEditor::create_signed`.
    pub fn sign_targets_editor<S: Sign>(&mut self, signers: &[S]) -> Result<&mut Self, Error>
        ensures signed { IfOk result (λ e. IsChanged (IsClosed S.key S.signs signers.now)
            (editor_doc self.old) (editor_doc e.now)) }
        ensures lent { IfOk result (λ e. e.ghost_name ≡ self.entry.ghost_name) }
        ensures refused { IfErr result (Told
            (IsUnclosed S.key S.signs S.fails signers.now (editor_doc self.old).edits)) }
    {
        match self.edits.sign_targets_editor(self.alloc, signers) {
            Ok(()) => Ok(self),
            Err(error) => Err(wide(self.alloc, error)),
        }
    }

    /// Opens an editor over the role's document, which the keys of the delegations sign in which the role stands; of the role `targets`, over the
    /// signed targets, which the root's keys sign. The errors, in this order: `TargetsEditorSome` if an editor is open; `NoTargets` without signed
    /// targets; `DelegateMissing` where no entry has the name, or there is no document of it.
    pub fn change_delegated_targets(&mut self, role: &str) -> Result<&mut Self, Error>
        ensures changed { IfOk result (λ e. IsChanged (IsOpened role.now) (editor_doc self.old)
            (editor_doc e.now)) }
        ensures lent { IfOk result (λ e. e.ghost_name ≡ self.entry.ghost_name) }
        ensures refused { IfErr result
            (Told (IsUnchangeable role.now (editor_doc self.old).edits)) }
    {
        match self.edits.change_delegated_targets(self.alloc, role) {
            Ok(()) => Ok(self),
            Err(error) => Err(wide(self.alloc, error)),
        }
    }

    /// The signed repository. The open editor, if any, is signed and closed; each document gets its file; the snapshot lists exactly the targets and
    /// the documents of the delegated roles, and the timestamp exactly the snapshot, each with its digest, length and version, and the root's keys
    /// sign both (sections 4.4 and 4.6). The errors, in this order: those of `sign_targets_editor`; `NoTargets` without signed targets;
    /// `SerializeSignedRole` where a document has no text; `Missing` with `snapshot version` and `snapshot expiration`; those of `SignedRole::new` for
    /// the snapshot; the same for the timestamp; `InvalidPath` where a listed name isn't found by the search for it. The editor is gone in each case.
    pub fn sign<S: Sign>(self, signers: &[S]) -> Result<SignedRepository, Error>
    where
        T: Drop,
        ensures released { IfOk result
            (IsReleased S.key S.signs signers.now (editor_doc self).edits) }
        ensures refused { IfErr result (Told
            (IsReleaseRefused S.key S.signs S.fails signers.now (editor_doc self).edits)) }
    {
        let RepositoryEditor { alloc, edits, .. } = self;
        match edits.sign(alloc, signers) {
            Ok(repository) => Ok(repository),
            Err(error) => Err(wide(alloc, error)),
        }
    }
}
