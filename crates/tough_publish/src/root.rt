//! The edits that begin with a root's file.

ghost use Rattle.std.specs.Prelude.{◌≡◌, ◌⊎◌, Some, true, IfOk, IfErr, OnOk};
ghost use Rattle.tough_files.specs.Contents.{Same, file};
ghost use Rattle.tough_schema.specs.FileDigest.{there};
ghost use Rattle.tough_release.specs.Edits.{ReleaseDoc, release_doc};
ghost use Rattle.tough_release.specs.Roots.{IsRootOf};
ghost use Rattle.tough_publish.specs.Roots.{IsBegun, IsRootAt, IsUnrooted, IsRootless, with_documents, IsOtherDocument, IsUntaken};

use crate::file::read_file;
use std::alloc::Global;
use tough_files::{Files, FilesError};
use tough_release::RepositoryEdits;
use tough_roles::{ReadError, Root, Signed, Snapshot, Timestamp};
use tough_schema::Targets;
use tough_signed::EditError;

// The bytes of the file; else `FileRead`.
fn root_bytes<F: Files>(alloc: Global, files: &mut F, path: &str) -> Result<Vec<u8>, EditError>
    ensures content { F.tells ≡ true → IfOk result
        (λ v. there path.now (F.contents files.old) ≡ Some (file v.items)) }
    ensures refused { F.tells ≡ true → IfErr result
        (IsUnrooted path.now (there path.now (F.contents files.old))) }
    ensures kept { F.tells ≡ true → Same (F.contents files.old) (F.contents files.new) }
{
    match read_file(alloc, files, path) {
        Ok(bytes) => Ok(bytes),
        Err(FilesError::Memory) => Err(EditError::Memory),
        Err(source) => {
            let path = String::from_str(alloc, path)?;
            Err(EditError::FileRead { path, source })
        }
    }
}

// The signed root that the file's bytes are; else `FileParseJson`.
fn root_of(alloc: Global, path: &str, bytes: &[u8]) -> Result<Signed<Root>, EditError>
    ensures read { IfOk result (λ s. IsRootOf s bytes.now) }
    ensures refused { IfErr result (IsUnrooted path.now (Some (file bytes.now))) }
{
    match Signed::<Root>::read(alloc, bytes) {
        Ok(root) => Ok(root),
        Err(ReadError::Memory) => Err(EditError::Memory),
        Err(source) => {
            let path = String::from_str(alloc, path)?;
            Err(EditError::FileParseJson { path, source })
        }
    }
}

/// The edits that stand on the root whose file is at the path. The refusals, in this order: `FileRead`, `FileParseJson`, `UnstableRoot`.
pub(crate) fn begin<F: Files>(
    alloc: Global,
    files: &mut F,
    path: &str,
) -> Result<RepositoryEdits, EditError>
    ensures begun { IfOk result (λ e. IsBegun (release_doc e)) }
    ensures file { F.tells ≡ true → IfOk result
        (λ e. IsRootAt (there path.now (F.contents files.old)) (release_doc e)) }
    ensures refused { F.tells ≡ true → IfErr result
        (IsRootless path.now (there path.now (F.contents files.old))) }
    ensures kept { F.tells ≡ true → Same (F.contents files.old) (F.contents files.new) }
{
    let bytes = match root_bytes(alloc, files, path) {
        Ok(bytes) => bytes,
        Err(error) => return Err(error),
    };
    let root = match root_of(alloc, path, bytes.as_slice()) {
        Ok(root) => root,
        Err(error) => return Err(error),
    };
    tough_roles::laws::signed_root();
    match RepositoryEdits::new(alloc, root, bytes) {
        Ok(edits) => Ok(edits),
        Err(error) => Err(error),
    }
}

// Takes the targets over, and the extras of the snapshot and of the timestamp; `SpecVersion` for the first that is of another version.
fn take_over(
    alloc: Global,
    edits: &mut RepositoryEdits,
    targets: Signed<Targets>,
    snapshot: Snapshot,
    timestamp: Timestamp,
) -> Result<(), EditError>
    ensures taken { OnOk result (release_doc edits.new
        ≡ with_documents targets snapshot timestamp (release_doc edits.old)) }
    ensures refused { IfErr result (IsOtherDocument targets snapshot timestamp) }
{
    if let Err(error) = edits.targets(alloc, targets) {
        return Err(error);
    }
    if let Err(error) = edits.snapshot(snapshot) {
        return Err(error);
    }
    match edits.timestamp(timestamp) {
        Ok(()) => Ok(()),
        Err(error) => Err(error),
    }
}

/// The same edits, with these documents taken over. The refusals, in this order: those of `begin`; `SpecVersion` for the first document that is of
/// another version of the specification than `1.0.0`.
pub(crate) fn begin_with<F: Files>(
    alloc: Global,
    files: &mut F,
    path: &str,
    targets: Signed<Targets>,
    snapshot: Snapshot,
    timestamp: Timestamp,
) -> Result<RepositoryEdits, EditError>
    ensures taken { IfOk result (λ e. (d : ReleaseDoc) × IsBegun d
        × (release_doc e ≡ with_documents targets snapshot timestamp d)) }
    ensures file { F.tells ≡ true → IfOk result
        (λ e. IsRootAt (there path.now (F.contents files.old)) (release_doc e)) }
    ensures refused { F.tells ≡ true → IfErr result (λ e.
        IsRootless path.now (there path.now (F.contents files.old)) e
        ⊎ IsUntaken (there path.now (F.contents files.old)) targets snapshot timestamp e) }
    ensures kept { F.tells ≡ true → Same (F.contents files.old) (F.contents files.new) }
{
    let mut edits = match begin(alloc, files, path) {
        Ok(edits) => edits,
        Err(error) => return Err(error),
    };
    match take_over(alloc, &mut edits, targets, snapshot, timestamp) {
        Ok(()) => Ok(edits),
        Err(error) => Err(error),
    }
}
