//! Files that are written as a whole.

ghost use Rattle.std.specs.Prelude.{◌≡◌, true};
ghost use Rattle.tough_save.specs.Wholes.{Writes};

use tough_files::{Files, FilesError};

/// Makes the file, or empties the one that is there, and then appends the bytes.
pub fn write_file<F: Files>(files: &mut F, path: &str, bytes: &[u8]) -> Result<(), FilesError>
    ensures { F.tells ≡ true
        → Writes path.now bytes.now result (F.calls files.old) (F.calls files.new) }
{
    match files.create(path) {
        Ok(()) => files.append(path, bytes),
        Err(error) => Err(error),
    }
}
