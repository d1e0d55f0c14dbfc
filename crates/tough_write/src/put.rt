//! The file of a target is copied or linked into a folder.

ghost use Rattle.std.specs.Prelude.{◌≡◌, ℕ, List, Ok, true, option_map, string_bytes};
ghost use Rattle.tough_roles.specs.Timestamp.{hashes_doc};
ghost use Rattle.tough_names.specs.Named.{Named};
ghost use Rattle.tough_files.specs.Calls as call;
ghost use Rattle.tough_write.specs.declared.error.OutputError.TheVariants as error;
ghost use Rattle.tough_write.specs.declared.path_exists.PathExists.TheVariants as exist;
ghost use Rattle.tough_write.specs.Errors.{Tells, TellsKind, TellsMismatch, TellsUnsafe};
ghost use Rattle.tough_write.specs.Putting.{manner_of, given, is_kind, has_digests, chosen_digests, listed_digests, second_of, AreListed, HasContent, TellsUnmeasured, Agrees, Chooses, FindsFile, IsKind, IsListed, IsNamed, IsPlaced, IsWithin, Lays, LooksFor, Makes, MakesOver, Measures, Puts, PutsChosen, PutsIn, Replaces, Settles};

use crate::error::{OutputError, Step, refusal};
use crate::path_exists::PathExists;
use crate::target_files::TargetFiles;
use crate::write::{make_folders, resolve};
use std::alloc::Global;
use std::path::Path;
use tough_files::{FileKind, Files, FilesError};
use tough_names::{NameError, TargetName};
use tough_roles::Hashes;
use tough_save::{Place, SaveError, file_name};
use tough_schema::FileError;
use tough_schema::file_digest::{Digests, Measured, measure, read_all};

// What is made of a file.
#[derive(Clone, Copy, Drop)]
pub(crate) enum Making {
    Copy,
    Link,
}

// How files are put into a folder.
#[derive(Clone, Copy, Drop)]
pub(crate) struct Putting<'b, 'a> {
    pub(crate) alloc: Global,
    pub(crate) targets: &'b TargetFiles<'a>,
    pub(crate) making: Making,
    pub(crate) outdir: &'b str,
    pub(crate) exists: PathExists,
}

// The target that a file is: its name, its SHA-256, and its SHA-512 where one is listed.
#[derive(Drop)]
struct Chosen {
    name: TargetName,
    sha256: [u8; 32],
    sha512: Option<[u8; 64]>,
}

impl Chosen {
    // The digests that it has.
    fn digests(&self) -> Digests
        ensures { result ≡ chosen_digests self.now }
    {
        match &self.sha512 {
            None => Digests::Sha256,
            Some(_) => Digests::Both,
        }
    }
}

// ---- errors

// The digests in an error.
fn mismatch(alloc: Global, context: &str, calculated: &[u8], expected: &[u8]) -> OutputError
    ensures { TellsMismatch context.now calculated.now expected.now result }
{
    let Ok(context) = String::from_str(alloc, context) else {
        return OutputError::Memory;
    };
    let Ok(calculated) = hex::encode(alloc, calculated) else {
        return OutputError::Memory;
    };
    match hex::encode(alloc, expected) {
        Ok(expected) => OutputError::HashMismatch {
            context,
            calculated,
            expected,
        },
        Err(_) => OutputError::Memory,
    }
}

// The file would stand outside of the folder.
fn unsafe_path(alloc: Global, name: &TargetName, dir: &str, path: &str) -> OutputError
    ensures { TellsUnsafe name.now dir.now path.now result }
{
    let Ok(name) = name.clone() else {
        return OutputError::Memory;
    };
    let Ok(outdir) = String::from_str(alloc, dir) else {
        return OutputError::Memory;
    };
    match String::from_str(alloc, path) {
        Ok(filepath) => OutputError::SaveTargetUnsafePath {
            name,
            outdir,
            filepath,
        },
        Err(_) => OutputError::Memory,
    }
}

// Something of another kind stands there.
fn other_kind(alloc: Global, expected: &str, found: &str, path: &str) -> OutputError
    ensures { TellsKind expected.now found.now path.now result }
{
    let Ok(expected) = String::from_str(alloc, expected) else {
        return OutputError::Memory;
    };
    let Ok(found) = String::from_str(alloc, found) else {
        return OutputError::Memory;
    };
    match String::from_str(alloc, path) {
        Ok(path) => OutputError::TargetFileTypeMismatch {
            expected,
            found,
            path,
        },
        Err(_) => OutputError::Memory,
    }
}

// The input is no file.
fn no_file(alloc: Global, path: &str) -> OutputError
    ensures { Tells error.PathIsNotFile path.now result }
{
    match String::from_str(alloc, path) {
        Ok(path) => OutputError::PathIsNotFile { path },
        Err(_) => OutputError::Memory,
    }
}

// The input is no target.
fn no_target(alloc: Global, path: &str) -> OutputError
    ensures { Tells error.PathIsNotTarget path.now result }
{
    match String::from_str(alloc, path) {
        Ok(path) => OutputError::PathIsNotTarget { path },
        Err(_) => OutputError::Memory,
    }
}

// What stands there is neither a file nor a link.
fn invalid_kind(alloc: Global, path: &str) -> OutputError
    ensures { Tells error.InvalidFileType path.now result }
{
    match String::from_str(alloc, path) {
        Ok(path) => OutputError::InvalidFileType { path },
        Err(_) => OutputError::Memory,
    }
}

// Something stands there.
fn exists(alloc: Global, path: &str) -> OutputError
    ensures { Tells error.PathExistsFail path.now result }
{
    match String::from_str(alloc, path) {
        Ok(path) => OutputError::PathExistsFail { path },
        Err(_) => OutputError::Memory,
    }
}

// The input couldn't be measured.
fn unmeasured(alloc: Global, path: &str, source: FileError) -> OutputError
    ensures { TellsUnmeasured path.now source result }
{
    if source == FileError::Memory {
        return OutputError::Memory;
    }
    match String::from_str(alloc, path) {
        Ok(path) => OutputError::TargetFromPath { path, source },
        Err(_) => OutputError::Memory,
    }
}

// ---- which target the input is

// A file must stand there, links followed.
fn find_file<F: Files>(alloc: Global, files: &mut F, input: &str) -> Result<(), OutputError>
    ensures { F.tells ≡ true → FindsFile input.now result (F.calls files.old) (F.calls files.new) }
{
    match files.kind(input, true) {
        Ok(FileKind::File) => Ok(()),
        Err(FilesError::Memory) => Err(OutputError::Memory),
        Ok(_) => Err(no_file(alloc, input)),
        Err(_) => Err(no_file(alloc, input)),
    }
}

// The path's last component as a name.
fn last_name(alloc: Global, input: &str) -> Result<TargetName, OutputError>
    ensures { IsNamed input.now None result }
{
    let Some(last) = Path::new(input).file_name() else {
        return Err(OutputError::NoFileName {
            path: String::from_str(alloc, input)?,
        });
    };
    match TargetName::from_str(alloc, last) {
        Ok(name) => Ok(name),
        Err(NameError::Memory) => Err(OutputError::Memory),
        Err(error) => Err(OutputError::Name(error)),
    }
}

// The name that is given, else the path's last component.
fn name_of(alloc: Global, input: &str, name: Option<&TargetName>) -> Result<TargetName, OutputError>
    ensures { IsNamed input.now (given name.entry) result }
{
    match name {
        Some(name) => Ok(name.clone()?),
        None => last_name(alloc, input),
    }
}

// Reads the input to its end.
fn measured<F: Files>(
    alloc: Global,
    files: &mut F,
    input: &str,
    digests: Digests,
) -> Result<Measured, OutputError>
    ensures { F.tells ≡ true
        → Measures digests input.now result (F.calls files.old) (F.calls files.new) }
{
    match measure(files, input, digests) {
        Ok(measured) => Ok(measured),
        Err(error) => Err(unmeasured(alloc, input, error)),
    }
}

// SHA-512 is computed where one is listed.
fn listed_digests(listed: Option<&Hashes>) -> Digests
    ensures { result ≡ listed_digests (option_map (λ h. hashes_doc h.now) listed.entry) }
{
    match listed {
        None => Digests::Sha256,
        Some(hashes) => match &hashes.sha512 {
            None => Digests::Sha256,
            Some(_) => Digests::Both,
        },
    }
}

// The SHA-512 that was computed; of no bytes where none was.
fn second_of(measured: &Measured) -> &[u8]
    ensures { result.now ≡ second_of measured.now }
{
    match &measured.sha512 {
        None => b"",
        Some(sha512) => sha512.as_slice(),
    }
}

// The digests must be those that are listed.
fn check_hashes(alloc: Global, measured: &Measured, hashes: &Hashes) -> Result<(), OutputError>
    ensures { AreListed measured.now (hashes_doc hashes.now) result }
{
    let (expected, found) = (hashes.sha256.as_slice(), measured.sha256.as_slice());
    if expected != found {
        return Err(mismatch(alloc, "target", found, expected));
    }
    if let Some(sha512) = &hashes.sha512 {
        let (expected, found) = (sha512.as_slice(), second_of(measured));
        if expected != found {
            return Err(mismatch(alloc, "target", found, expected));
        }
    }
    Ok(())
}

// The same, where some are listed.
fn check_listed(
    alloc: Global,
    input: &str,
    measured: &Measured,
    listed: Option<&Hashes>,
) -> Result<(), OutputError>
    ensures { IsListed input.now measured.now (option_map (λ h. hashes_doc h.now) listed.entry)
        result }
{
    match listed {
        None => Err(no_target(alloc, input)),
        Some(hashes) => check_hashes(alloc, measured, hashes),
    }
}

// ---- what stands at the path

// Whether something stands there, links followed; a fault counts as nothing.
fn is_there<F: Files>(files: &mut F, path: &str) -> Result<bool, OutputError>
    ensures { F.tells ≡ true → LooksFor path.now result (F.calls files.old) (F.calls files.new) }
{
    match files.kind(path, true) {
        Ok(_) => Ok(true),
        Err(FilesError::Memory) => Err(OutputError::Memory),
        Err(_) => Ok(false),
    }
}

// What was measured at the path must have the digests.
fn check_measured(
    alloc: Global,
    path: &str,
    measured: &Measured,
    chosen: &Chosen,
) -> Result<(), OutputError>
    ensures { has_digests path.now chosen.now result (Ok measured.now) }
{
    let (found, expected) = (measured.sha256.as_slice(), chosen.sha256.as_slice());
    if found != expected {
        return Err(mismatch(alloc, path, found, expected));
    }
    if let Some(sha512) = &chosen.sha512 {
        let (found, expected) = (second_of(measured), sha512.as_slice());
        if found != expected {
            return Err(mismatch(alloc, path, found, expected));
        }
    }
    Ok(())
}

// What stands there must have the digests.
fn check_content<F: Files>(
    alloc: Global,
    files: &mut F,
    path: &str,
    chosen: &Chosen,
) -> Result<(), OutputError>
    ensures { F.tells ≡ true
        → HasContent path.now chosen.now result (F.calls files.old) (F.calls files.new) }
{
    match read_all(files, path, chosen.digests()) {
        Ok(measured) => check_measured(alloc, path, &measured, chosen),
        Err(error) => Err(refusal(alloc, Step::Read, path, error)),
    }
}

impl Making {
    // What stands there, links not followed, must be what is made.
    fn check_kind<F: Files>(
        self,
        alloc: Global,
        files: &mut F,
        path: &str,
    ) -> Result<(), OutputError>
        ensures { F.tells ≡ true
            → IsKind self path.now result (F.calls files.old) (F.calls files.new) }
    {
        match files.kind(path, false) {
            Ok(kind) => self.fits(alloc, kind, path),
            Err(error) => Err(refusal(alloc, Step::Look, path, error)),
        }
    }

    // The kind must be that of what is made.
    fn fits(self, alloc: Global, kind: FileKind, path: &str) -> Result<(), OutputError>
        ensures { is_kind self path.now result (call.found kind) }
    {
        match (self, kind) {
            (Making::Copy, FileKind::File) | (Making::Link, FileKind::Link) => Ok(()),
            (Making::Copy, FileKind::Link) => {
                Err(other_kind(alloc, "regular file", "symlink", path))
            }
            (Making::Link, FileKind::File) => {
                Err(other_kind(alloc, "symlink", "regular file", path))
            }
            (_, FileKind::Folder | FileKind::Other) => Err(invalid_kind(alloc, path)),
        }
    }

    // Makes the copy or the link.
    fn make<F: Files>(
        self,
        alloc: Global,
        files: &mut F,
        input: &str,
        path: &str,
    ) -> Result<(), OutputError>
        ensures { F.tells ≡ true
            → Makes self input.now path.now result (F.calls files.old) (F.calls files.new) }
    {
        match self {
            Making::Copy => match files.copy(input, path) {
                Ok(()) => Ok(()),
                Err(error) => Err(refusal(alloc, Step::Write, path, error)),
            },
            Making::Link => match files.link(input, path) {
                Ok(()) => Ok(()),
                Err(error) => Err(refusal(alloc, Step::Link, path, error)),
            },
        }
    }

    // Removes what stands there, and makes the copy or the link anew.
    fn remake<F: Files>(
        self,
        alloc: Global,
        files: &mut F,
        input: &str,
        path: &str,
    ) -> Result<(), OutputError>
        ensures { F.tells ≡ true
            → Replaces exist.Replace self input.now path.now result (F.calls files.old)
            (F.calls files.new) }
    {
        if let Err(error) = files.remove(path) {
            return Err(refusal(alloc, Step::Remove, path, error));
        }
        self.make(alloc, files, input, path)
    }
}

// A folder must lie in the other, as both were looked up.
fn check_within(
    alloc: Global,
    name: &TargetName,
    dir: &str,
    path: &str,
    real: &str,
    base: &str,
) -> Result<(), OutputError>
    ensures { IsWithin name.now dir.now path.now real.now base.now result }
{
    if Path::new(real).starts_with(base) {
        Ok(())
    } else {
        Err(unsafe_path(alloc, name, dir, path))
    }
}

impl<'b, 'a> Putting<'b, 'a> {
    // Finds which target the input is.
    fn choose<F: Files>(
        &self,
        files: &mut F,
        input: &str,
        name: Option<&TargetName>,
    ) -> Result<Chosen, OutputError>
        ensures { F.tells ≡ true
            → Chooses (manner_of self.now) input.now (given name.entry) result
            (F.calls files.old) (F.calls files.new) }
    {
        find_file(self.alloc, files, input)?;
        let name = name_of(self.alloc, input, name)?;
        let listed = self.targets.hashes(&name);
        let digests = listed_digests(listed);
        let measured = measured(self.alloc, files, input, digests)?;
        check_listed(self.alloc, input, &measured, listed)?;
        Ok(Chosen {
            sha256: measured.sha256,
            sha512: measured.sha512,
            name,
        })
    }

    // Where its file is to stand.
    fn place(&self, dir: &str, chosen: &Chosen) -> Result<Place, OutputError>
        ensures { IsPlaced (manner_of self.now).consistent dir.now chosen.now result }
    {
        let consistent = self.targets.consistent_snapshot();
        let name = file_name(
            self.alloc,
            chosen.name.resolved(),
            &chosen.sha256,
            consistent,
        )?;
        match Place::new(self.alloc, dir, name.as_str()) {
            Ok(place) => Ok(place),
            Err(SaveError::NoParent { path }) => {
                Err(unsafe_path(self.alloc, &chosen.name, dir, path.as_str()))
            }
            Err(SaveError::Outside { path, folder: _ }) => {
                Err(unsafe_path(self.alloc, &chosen.name, dir, path.as_str()))
            }
            Err(SaveError::Memory) => Err(OutputError::Memory),
            Err(_) => unreachable!(),
        }
    }

    // Makes the folder of the file, which must lie in the output folder.
    fn settle<F: Files>(
        &self,
        files: &mut F,
        dir: &str,
        name: &TargetName,
        parent: &str,
        path: &str,
    ) -> Result<(), OutputError>
        ensures { F.tells ≡ true
            → Settles name.now dir.now parent.now path.now result (F.calls files.old)
            (F.calls files.new) }
    {
        make_folders(self.alloc, files, parent)?;
        let real = resolve(self.alloc, files, parent)?;
        let base = resolve(self.alloc, files, dir)?;
        check_within(self.alloc, name, dir, path, real.as_str(), base.as_str())
    }

    // Does what is to be done where something stands there already.
    fn replace<F: Files>(&self, files: &mut F, input: &str, path: &str) -> Result<(), OutputError>
        ensures { F.tells ≡ true
            → Replaces (manner_of self.now).exists (manner_of self.now).making input.now path.now
            result (F.calls files.old) (F.calls files.new) }
    {
        match self.exists {
            PathExists::Skip => Ok(()),
            PathExists::Fail => Err(exists(self.alloc, path)),
            PathExists::Replace => self.making.remake(self.alloc, files, input, path),
        }
    }

    // What stands there must have the digests, unless its name has one.
    fn agree<F: Files>(&self, files: &mut F, path: &str, chosen: &Chosen) -> Result<(), OutputError>
        ensures { F.tells ≡ true
            → Agrees (manner_of self.now).consistent path.now chosen.now result
            (F.calls files.old) (F.calls files.new) }
    {
        if self.targets.consistent_snapshot() {
            Ok(())
        } else {
            check_content(self.alloc, files, path, chosen)
        }
    }

    // Copies or links where something stands already.
    fn make_over<F: Files>(
        &self,
        files: &mut F,
        input: &str,
        path: &str,
        chosen: &Chosen,
    ) -> Result<(), OutputError>
        ensures { F.tells ≡ true
            → MakesOver (manner_of self.now) input.now path.now chosen.now result
            (F.calls files.old) (F.calls files.new) }
    {
        self.agree(files, path, chosen)?;
        self.making.check_kind(self.alloc, files, path)?;
        self.replace(files, input, path)
    }

    // Copies or links to the path.
    fn lay<F: Files>(
        &self,
        files: &mut F,
        input: &str,
        path: &str,
        chosen: &Chosen,
    ) -> Result<(), OutputError>
        ensures { F.tells ≡ true
            → Lays (manner_of self.now) input.now path.now chosen.now result
            (F.calls files.old) (F.calls files.new) }
    {
        let there = is_there(files, path)?;
        if there {
            self.make_over(files, input, path, chosen)
        } else {
            self.making.make(self.alloc, files, input, path)
        }
    }

    // Puts the file at its place in the folder.
    fn put_in<F: Files>(
        &self,
        files: &mut F,
        input: &str,
        chosen: &Chosen,
        dir: &str,
    ) -> Result<(), OutputError>
        ensures { F.tells ≡ true
            → PutsIn (manner_of self.now) input.now chosen.now dir.now result
            (F.calls files.old) (F.calls files.new) }
    {
        let place = self.place(dir, chosen)?;
        self.settle(files, dir, &chosen.name, place.parent(), place.path())?;
        self.lay(files, input, place.path(), chosen)
    }

    // Puts the file at its place in the output folder.
    fn put_chosen<F: Files>(
        &self,
        files: &mut F,
        input: &str,
        chosen: &Chosen,
    ) -> Result<(), OutputError>
        ensures { F.tells ≡ true
            → PutsChosen (manner_of self.now) input.now chosen.now result
            (F.calls files.old) (F.calls files.new) }
    {
        let dir = resolve(self.alloc, files, self.outdir)?;
        self.put_in(files, input, chosen, dir.as_str())
    }

    // Copies or links the file, as the target of the name.
    pub(crate) fn put<F: Files>(
        &self,
        files: &mut F,
        input: &str,
        name: Option<&TargetName>,
    ) -> Result<(), OutputError>
        ensures { F.tells ≡ true
            → Puts (manner_of self.now) input.now (given name.entry) result
            (F.calls files.old) (F.calls files.new) }
    {
        let chosen = self.choose(files, input, name)?;
        self.put_chosen(files, input, &chosen)
    }
}
