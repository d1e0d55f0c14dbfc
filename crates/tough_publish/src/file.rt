//! A file that is read whole.

ghost use Rattle.std.specs.Prelude.{◌≡◌, true};
ghost use Rattle.tough_files.specs.Contents.{Same};
ghost use Rattle.tough_schema.specs.FileDigest.{there};
ghost use Rattle.tough_publish.specs.Files.{IsContent, ReadsOn};

use std::alloc::Global;
use tough_files::{Files, FilesError};

// Reads the next bytes of the file, and returns how many; 0 at the end.
fn read_on<F: Files>(files: &mut F, path: &str, bytes: &mut Vec<u8>) -> Result<usize, FilesError>
    ensures more { F.tells ≡ true → ReadsOn (there path.now (F.contents files.old))
        bytes.old.items result bytes.new.items }
    ensures kept { F.tells ≡ true → Same (F.contents files.old) (F.contents files.new) }
{
    let mut buf = [0; 4096];
    let count = files.read(path, bytes.len() as u64, &mut buf)?;
    bytes.extend_from_slice(&buf[..count])?;
    Ok(count)
}

/// The bytes of the file at the path, links followed.
pub(crate) fn read_file<F: Files>(
    alloc: Global,
    files: &mut F,
    path: &str,
) -> Result<Vec<u8>, FilesError>
    ensures content { F.tells ≡ true
        → IsContent (there path.now (F.contents files.old)) result }
    ensures kept { F.tells ≡ true → Same (F.contents files.old) (F.contents files.new) }
{
    let mut bytes = Vec::new(alloc);
    for _ in 0..u64::MAX {
        if read_on(files, path, &mut bytes)? == 0 {
            return Ok(bytes);
        }
    }
    Err(FilesError::Failed)
}
