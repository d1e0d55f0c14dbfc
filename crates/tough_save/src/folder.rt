//! The folders that files are saved in.

ghost use Rattle.std.specs.Prelude.{◌≡◌, true};
ghost use Rattle.tough_save.specs.Folders.{Opens, MakesTemp};
ghost use Rattle.tough_save.specs.Errors.{TellsNoFolder, TellsOutside};
ghost use Rattle.tough_save.specs.Places.{path_of, parent_of};

use crate::error::{SaveError, Step, refusal};
use crate::place::Place;
use std::alloc::Global;
use std::path::Path;
use tough_files::{FileKind, Files, FilesError};

// What stands at the path is no folder.
fn no_folder(alloc: Global, path: &str) -> SaveError
    ensures { TellsNoFolder path.now result }
{
    match String::from_str(alloc, path) {
        Ok(path) => SaveError::NoFolder { path },
        Err(_) => SaveError::Memory,
    }
}

// The path isn't in the folder.
pub(crate) fn outside(alloc: Global, path: &str, folder: &str) -> SaveError
    ensures { TellsOutside path.now folder.now result }
{
    let Ok(path) = String::from_str(alloc, path) else {
        return SaveError::Memory;
    };
    match String::from_str(alloc, folder) {
        Ok(folder) => SaveError::Outside { path, folder },
        Err(_) => SaveError::Memory,
    }
}

/// The path of the output folder, links followed: `Refused` at `FindFolder` where it can't be looked up, `NoFolder` where it is no folder.
pub fn open_folder<F: Files>(
    alloc: Global,
    files: &mut F,
    outdir: &str,
) -> Result<String, SaveError>
    ensures { F.tells ≡ true → Opens outdir.now result (F.calls files.old) (F.calls files.new) }
{
    let path = match files.canonical(outdir) {
        Ok(path) => path,
        Err(e) => return Err(refusal(alloc, Step::FindFolder, outdir, e)),
    };
    match files.kind(path.as_str(), true) {
        Ok(kind) => {
            if kind == FileKind::Folder {
                Ok(path)
            } else {
                Err(no_folder(alloc, path.as_str()))
            }
        }
        Err(e) => {
            if e == FilesError::Memory {
                Err(SaveError::Memory)
            } else {
                Err(no_folder(alloc, path.as_str()))
            }
        }
    }
}

/// Makes the folder of a file that is to stand in an output folder, and a temporary file there, whose path it answers. The paths of both
/// folders are looked up, links followed, and the one must lie in the other (`Outside`). Else `Refused` tells the step.
pub fn make_temp<F: Files>(
    alloc: Global,
    files: &mut F,
    folder: &str,
    place: &Place,
) -> Result<String, SaveError>
    ensures { F.tells ≡ true
        → MakesTemp folder.now (parent_of place.now) (path_of place.now) result
        (F.calls files.old) (F.calls files.new) }
{
    let parent = place.parent();
    if let Err(e) = files.make_folders(parent) {
        return Err(refusal(alloc, Step::MakeFolders, parent, e));
    }
    let real = match files.canonical(parent) {
        Ok(real) => real,
        Err(e) => return Err(refusal(alloc, Step::ResolveFolder, parent, e)),
    };
    let base = match files.canonical(folder) {
        Ok(base) => base,
        Err(e) => return Err(refusal(alloc, Step::ResolveFolder, folder, e)),
    };
    if !Path::new(real.as_str()).starts_with(base.as_str()) {
        return Err(outside(alloc, place.path(), folder));
    }
    match files.create_temp(real.as_str()) {
        Ok(temp) => Ok(temp),
        Err(e) => Err(refusal(alloc, Step::CreateTemp, parent, e)),
    }
}
