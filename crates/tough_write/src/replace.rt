//! Files of a folder that are replaced whole, one after another: each is the old one or the new one, whatever call is the last.
//!
//! Not promised: that a file survives a loss of power, which the files' own calls would have to sync.

ghost use Rattle.std.specs.Prelude.{◌≡◌, [], List, ℕ, true, IfOk, IfErr, map};
ghost use Rattle.tough_files.specs.Contents.{Contents};
ghost use Rattle.tough_write.specs.Replacing.{AreReplaced, IsLeft, IsLeftAt, IsNew, IsPut, IsReplaced, StopsAmong, file_doc};

pub mod laws;
mod repository;

pub use repository::replace_repository;
use std::alloc::{AllocError, Global};
use std::path::Path;
use thiserror::Error;
use tough_files::{Files, FilesError};

/// A file that is to stand in a folder: its name there, and its bytes.
#[derive(Drop)]
pub struct NewFile<'a> {
    pub name: &'a str,
    pub bytes: &'a [u8],
}

/// Why a file wasn't replaced.
#[derive(Debug, Drop, Error)]
pub enum ReplaceError {
    /// The files refused it.
    #[error("Failed to replace {name}: {source}")]
    Refused {
        /// The file's name in the folder.
        name: String,
        /// What was wrong.
        source: FilesError,
    },
    /// A request for memory was refused.
    #[error("out of memory")]
    Memory,
}

impl From<AllocError> for ReplaceError {
    ghost use Rattle.tough_write.specs.declared.replace.ReplaceError.TheVariants.{Memory};

    ghost from_gives = { λ _ e. e ≡ Memory };

    fn from(_: AllocError) -> ReplaceError {
        ReplaceError::Memory
    }
}

// Appends the bytes to a new file, and gives it its name.
fn fill<F: Files>(files: &mut F, temp: &str, path: &str, bytes: &[u8]) -> Result<(), FilesError>
    ensures ok { F.tells ≡ true → (before : Contents)
        → IsNew temp.now [] before (F.contents files.old)
        → IfOk result (λ u. IsPut path.now bytes.now before (F.contents files.new)) }
    ensures err { F.tells ≡ true → (before : Contents)
        → IsNew temp.now [] before (F.contents files.old)
        → IfErr result (λ e. (held : List ℕ) × IsNew temp.now held before (F.contents files.new)) }
{
    match files.append(temp, bytes) {
        Ok(()) => files.rename(temp, path),
        Err(error) => Err(error),
    }
}

// Removes a new file, as far as the files can.
fn discard<F: Files>(files: &mut F, temp: &str)
    ensures { F.tells ≡ true → (before : Contents) (held : List ℕ)
        → IsNew temp.now held before (F.contents files.old)
        → IsLeftAt temp.now before (F.contents files.new) }
{
    let _ = files.remove(temp);
}

// Puts the bytes at the path, by way of a temporary file of the folder.
fn put_at<F: Files>(files: &mut F, folder: &str, path: &str, bytes: &[u8]) -> Result<(), FilesError>
    ensures ok { F.tells ≡ true → IfOk result
        (λ u. IsPut path.now bytes.now (F.contents files.old) (F.contents files.new)) }
    ensures err { F.tells ≡ true → IfErr result
        (λ e. IsLeft folder.now (F.contents files.old) (F.contents files.new)) }
{
    let temp = match files.create_temp(folder) {
        Ok(temp) => temp,
        Err(error) => return Err(error),
    };
    match fill(files, temp.as_str(), path, bytes) {
        Ok(()) => Ok(()),
        Err(error) => {
            discard(files, temp.as_str());
            Err(error)
        }
    }
}

/// Has a file of this name in the folder hold the bytes, over what stands there. It is written under a fresh temporary name and renamed, so
/// that whoever reads the name meanwhile finds what stood there or all of the bytes. Where it is refused, or ends before, a temporary file
/// may be left in the folder, and nothing else is changed. A folder at the path is `Failed`.
pub fn replace_file<F: Files>(
    alloc: Global,
    files: &mut F,
    folder: &str,
    file: &NewFile<'_>,
) -> Result<(), FilesError>
    ensures ok { F.tells ≡ true → IfOk result (λ u. IsReplaced folder.now (file_doc file.now)
        (F.contents files.old) (F.contents files.new)) }
    ensures err { F.tells ≡ true → IfErr result
        (λ e. IsLeft folder.now (F.contents files.old) (F.contents files.new)) }
{
    let path = Path::new(folder).join(alloc, file.name)?.into_string();
    put_at(files, folder, path.as_str(), file.bytes)
}

/// Replaces each of the files, in their order, as `replace_file` does, up to the first refusal: those before it are the new ones then, and it
/// and those behind it the old ones. The same stands wherever a run of it ends. `Refused` tells that file.
pub fn replace_files<F: Files>(
    alloc: Global,
    files: &mut F,
    folder: &str,
    list: &[NewFile<'_>],
) -> Result<(), ReplaceError>
    ensures ok { F.tells ≡ true → IfOk result (λ u. AreReplaced folder.now (map file_doc list.now)
        (F.contents files.old) (F.contents files.new)) }
    ensures err { F.tells ≡ true → IfErr result (λ e. StopsAmong folder.now
        (map file_doc list.now) e (F.contents files.old) (F.contents files.new)) }
{
    for file in list {
        match replace_file(alloc, files, folder, file) {
            Ok(()) => {}
            Err(FilesError::Memory) => return Err(ReplaceError::Memory),
            Err(source) => {
                let name = String::from_str(alloc, file.name)?;
                return Err(ReplaceError::Refused { name, source });
            }
        }
    }
    Ok(())
}
