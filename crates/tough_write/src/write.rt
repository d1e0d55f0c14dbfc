//! Signed roles are written into a folder.

ghost use Rattle.std.specs.Prelude.{◌≡◌, ℕ, List, [], ◌∷◌, Bool, true, IfOk, map, string_bytes};
ghost use Rattle.tough_files.specs.Calls.{create_at, append_to, done};
ghost use Rattle.tough_files.specs.Changes as changes;
ghost use Rattle.tough_files.specs.Contents.{Same, followed};
ghost use Rattle.tough_signed.specs.Standing.{roles_of};
ghost use Rattle.tough_write.specs.Filling as fill;
ghost use Rattle.tough_write.specs.Steps.{Does, IfMemory, MakesFolders, Resolves};
ghost use Rattle.tough_write.specs.declared.error.OutputError.TheVariants as error;
ghost use Rattle.tough_write.specs.Writing.{FileDoc, file_doc, Writes, WritesRole, WritesAll, role_file, role_files, roles_file, repository_files};

use crate::error::{OutputError, Step, refusal};
use std::alloc::{AllocError, Global};
use std::path::Path;
use tough_files::Files;
use tough_release::SignedRepository;
use tough_roles::Role;
use tough_signed::{SignedDelegatedTargets, SignedRole};

/// A file to be written: its name, and its bytes.
#[derive(Drop)]
pub struct NamedFile<'a> {
    pub name: String,
    pub bytes: &'a [u8],
}

// Makes a folder, and those above it.
pub(crate) fn make_folders<F: Files>(
    alloc: Global,
    files: &mut F,
    path: &str,
) -> Result<(), OutputError>
    ensures calls { F.tells ≡ true
        → MakesFolders path.now result (F.calls files.old) (F.calls files.new) }
    ensures contents { F.tells ≡ true → IfOk result (λ u. changes.MakesFolders path.now
        (F.contents files.old) done (F.contents files.new)) }
{
    match files.make_folders(path) {
        Ok(()) => Ok(()),
        Err(error) => Err(refusal(alloc, Step::MakeFolders, path, error)),
    }
}

// The path of what stands there, links followed.
pub(crate) fn resolve<F: Files>(
    alloc: Global,
    files: &mut F,
    path: &str,
) -> Result<String, OutputError>
    ensures calls { F.tells ≡ true
        → Resolves path.now result (F.calls files.old) (F.calls files.new) }
    ensures contents { F.tells ≡ true
        → IfOk result (λ real. (string_bytes real ≡ followed (F.contents files.old) path.now)
        × Same (F.contents files.old) (F.contents files.new)) }
{
    match files.canonical(path) {
        Ok(path) => Ok(path),
        Err(error) => Err(refusal(alloc, Step::Resolve, path, error)),
    }
}

// Makes an empty file, or empties the one that is there.
fn create<F: Files>(alloc: Global, files: &mut F, path: &str) -> Result<(), OutputError>
    ensures calls { F.tells ≡ true → Does (create_at path.now) error.FileWrite path.now result
        (F.calls files.old) (F.calls files.new) }
    ensures contents { F.tells ≡ true → IfOk result (λ u. changes.Gives
        (changes.create_outcome path.now (F.contents files.old)) (F.contents files.old) done
        (F.contents files.new)) }
{
    match files.create(path) {
        Ok(()) => Ok(()),
        Err(error) => Err(refusal(alloc, Step::Write, path, error)),
    }
}

// Appends the bytes to the file.
fn append<F: Files>(
    alloc: Global,
    files: &mut F,
    path: &str,
    bytes: &[u8],
) -> Result<(), OutputError>
    ensures calls { F.tells ≡ true → Does (append_to path.now bytes.now) error.FileWrite path.now
        result (F.calls files.old) (F.calls files.new) }
    ensures contents { F.tells ≡ true → IfOk result (λ u. changes.Gives
        (changes.append_outcome path.now bytes.now (F.contents files.old)) (F.contents files.old)
        done (F.contents files.new)) }
{
    match files.append(path, bytes) {
        Ok(()) => Ok(()),
        Err(error) => Err(refusal(alloc, Step::Write, path, error)),
    }
}

// Makes the file, or empties the one that is there, and then appends the bytes.
fn write<F: Files>(
    alloc: Global,
    files: &mut F,
    path: &str,
    bytes: &[u8],
) -> Result<(), OutputError>
    ensures calls { F.tells ≡ true
        → Writes path.now bytes.now result (F.calls files.old) (F.calls files.new) }
    ensures contents { F.tells ≡ true → IfOk result (λ u. fill.IsPut path.now bytes.now
        (F.contents files.old) (F.contents files.new)) }
{
    create(alloc, files, path)?;
    append(alloc, files, path, bytes)
}

/// Writes the file of a signed role into the folder, under this name. On files that tell their contents the file then holds the buffer, and
/// nothing else is changed but that the folder and those above it are there. The refusals, in this order: `DirCreate` where the folder can't
/// be made; `AbsolutePath` where its canonical path can't be found; `FileWrite`.
pub fn write_role<F: Files>(
    alloc: Global,
    files: &mut F,
    outdir: &str,
    name: &str,
    buffer: &[u8],
) -> Result<(), OutputError>
    ensures calls { F.tells ≡ true
        → WritesRole outdir.now (name.now, buffer.now) result (F.calls files.old)
        (F.calls files.new) }
    ensures contents { F.tells ≡ true → IfOk result (λ u. fill.IsPutIn outdir.now
        (name.now, buffer.now) (F.contents files.old) (F.contents files.new)) }
{
    make_folders(alloc, files, outdir)?;
    let folder = resolve(alloc, files, outdir)?;
    let path = Path::new(folder.as_str()).join(alloc, name)?.into_string();
    write(alloc, files, path.as_str(), buffer)
}

/// Writes each file as `write_role` does, in order, up to the first refusal; the files before it stay.
pub fn write_roles<F: Files>(
    alloc: Global,
    files: &mut F,
    outdir: &str,
    roles: &[NamedFile<'_>],
) -> Result<(), OutputError>
    ensures calls { F.tells ≡ true
        → WritesAll outdir.now (map file_doc roles.now) result (F.calls files.old)
        (F.calls files.new) }
    ensures contents { F.tells ≡ true → IfOk result (λ u. fill.Fills outdir.now
        (map file_doc roles.now) (F.contents files.old) (F.contents files.new)) }
{
    for role in roles {
        write_role(alloc, files, outdir, role.name.as_str(), role.bytes)?;
    }
    Ok(())
}

/// What has signed roles that are written into a folder.
pub trait WriteSigned {
    /// The files in the order in which they are written, by whether snapshots are consistent.
    ghost written: { Self → Bool → List FileDoc };

    /// The files in the order in which they are written. Where snapshots are consistent, each name but that of the timestamp begins with the
    /// version (TUF specification 1.0, section 6.2).
    fn named_files(
        &self,
        alloc: Global,
        consistent_snapshot: bool,
    ) -> Result<Vec<NamedFile<'_>>, AllocError>
        ensures { IfOk result (λ v. map file_doc v.items ≡ written self.now consistent_snapshot) };

    /// Writes the files into the folder, as `write_roles` does; its refusals.
    fn write<F: Files>(
        &self,
        alloc: Global,
        files: &mut F,
        outdir: &str,
        consistent_snapshot: bool,
    ) -> Result<(), OutputError>
        ensures calls { F.tells ≡ true
            → IfMemory (WritesAll outdir.now (written self.now consistent_snapshot)) result
            (F.calls files.old) (F.calls files.new) }
        ensures contents { F.tells ≡ true
            → IfOk result (λ u. fill.Fills outdir.now (written self.now consistent_snapshot)
            (F.contents files.old) (F.contents files.new)) }
    {
        let roles = self.named_files(alloc, consistent_snapshot)?;
        write_roles(alloc, files, outdir, &roles)
    }
}

// The file of a signed role.
fn named_file<T: Role + Drop>(
    role: &SignedRole<T>,
    alloc: Global,
    consistent_snapshot: bool,
) -> Result<NamedFile<'_>, AllocError>
    ensures { IfOk result (λ f. file_doc f ≡ role_file T.file consistent_snapshot role.now) }
{
    Ok(NamedFile {
        name: role.signed().signed.filename(alloc, consistent_snapshot)?,
        bytes: role.buffer().as_slice(),
    })
}

impl<T: Role + Drop> WriteSigned for SignedRole<T> {
    ghost written = { λ r consistent. role_file T.file consistent r ∷ [] };

    fn named_files(
        &self,
        alloc: Global,
        consistent_snapshot: bool,
    ) -> Result<Vec<NamedFile<'_>>, AllocError> {
        let mut files = Vec::new(alloc);
        files.push(named_file(self, alloc, consistent_snapshot)?)?;
        Ok(files)
    }
}

impl WriteSigned for SignedDelegatedTargets {
    ghost written = { λ s consistent. role_files roles_file consistent (roles_of s) };

    fn named_files(
        &self,
        alloc: Global,
        consistent_snapshot: bool,
    ) -> Result<Vec<NamedFile<'_>>, AllocError> {
        let mut files = Vec::new(alloc);
        let roles = self.roles();
        for role in roles {
            let file = named_file(role, alloc, consistent_snapshot)?;
            files.push(file)?;
        }
        Ok(files)
    }
}

impl WriteSigned for SignedRepository {
    ghost written = { λ r consistent. repository_files consistent r };

    fn named_files(
        &self,
        alloc: Global,
        consistent_snapshot: bool,
    ) -> Result<Vec<NamedFile<'_>>, AllocError> {
        let mut files = Vec::new(alloc);
        files.push(named_file(self.root(), alloc, consistent_snapshot)?)?;
        files.push(named_file(self.targets(), alloc, consistent_snapshot)?)?;
        files.push(named_file(self.snapshot(), alloc, consistent_snapshot)?)?;
        files.push(named_file(self.timestamp(), alloc, consistent_snapshot)?)?;
        let mut delegated = self
            .delegated_targets()
            .named_files(alloc, consistent_snapshot)?;
        files.append(&mut delegated)?;
        Ok(files)
    }
}
