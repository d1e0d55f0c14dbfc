//! What a refused output is in the wide error.

ghost use Rattle.tough_write.specs.Wide.{IsUnmade, IsWidened};

use crate::error::OutputError;
use tough_error::Error;
use tough_schema::FileError;

// The error of a file of which no target can be made.
fn unmade(path: String, source: FileError) -> Error
    ensures { IsUnmade path source result }
{
    match path.clone() {
        Ok(file) => Error::TargetFromPath {
            path,
            source: source.at(file),
        },
        Err(_) => Error::Memory,
    }
}

impl From<OutputError> for Error {
    ghost from_gives = { IsWidened };

    fn from(error: OutputError) -> Error {
        match error {
            OutputError::DirCreate { path, source } => Error::DirCreate { path, source },
            OutputError::AbsolutePath { path, source } => Error::AbsolutePath { path, source },
            OutputError::FileWrite { path, source } => Error::FileWrite { path, source },
            OutputError::LinkCreate { path, source } => Error::LinkCreate { path, source },
            OutputError::RemoveTarget { path, source } => Error::RemoveTarget { path, source },
            OutputError::FileMetadata { path, source } => Error::FileMetadata { path, source },
            OutputError::FileRead { path, source } => Error::FileRead { path, source },
            OutputError::WalkDir { directory, source } => Error::WalkDir { directory, source },
            OutputError::PathIsNotFile { path } => Error::PathIsNotFile { path },
            OutputError::NoFileName { path } => Error::NoFileName { path },
            OutputError::Name(error) => Error::from(error),
            OutputError::TargetFromPath { path, source } => unmade(path, source),
            OutputError::PathIsNotTarget { path } => Error::PathIsNotTarget { path },
            OutputError::HashMismatch {
                context,
                calculated,
                expected,
            } => Error::HashMismatch {
                context,
                calculated,
                expected,
            },
            OutputError::SaveTargetUnsafePath {
                name,
                outdir,
                filepath,
            } => Error::SaveTargetUnsafePath {
                name,
                outdir,
                filepath,
            },
            OutputError::TargetFileTypeMismatch {
                expected,
                found,
                path,
            } => Error::TargetFileTypeMismatch {
                expected,
                found,
                path,
            },
            OutputError::InvalidFileType { path } => Error::InvalidFileType { path },
            OutputError::PathExistsFail { path } => Error::PathExistsFail { path },
            OutputError::Memory => Error::Memory,
        }
    }
}
