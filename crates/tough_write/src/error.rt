//! Why a file wasn't put into a folder.

ghost use Rattle.std.specs.Prelude.{◌≡◌};
ghost use Rattle.tough_write.specs.Errors.{Tells, TellsRefusal, of_step};

use std::alloc::{AllocError, AllocFailed, Global};
use tough_files::FilesError;
use tough_names::{NameError, TargetName};
use tough_schema::FileError;

// A call on files that may be refused.
#[derive(Clone, Copy, Drop)]
pub(crate) enum Step {
    MakeFolders,
    Resolve,
    Write,
    Link,
    Remove,
    Look,
    Read,
    Walk,
}

/// Why signed roles weren't written, or a target's file wasn't copied or linked.
#[derive(Debug, Drop, thiserror::Error)]
pub enum OutputError {
    /// A folder couldn't be made.
    #[error("Failed to create directory {path}: {source}")]
    DirCreate {
        /// The folder.
        path: String,
        /// What was wrong.
        source: FilesError,
    },
    /// A folder's canonical path couldn't be found.
    #[error("Failed to canonicalize path {path}: {source}")]
    AbsolutePath {
        /// The folder.
        path: String,
        /// What was wrong.
        source: FilesError,
    },
    /// A file couldn't be written.
    #[error("Failed to write to {path}: {source}")]
    FileWrite {
        /// The file.
        path: String,
        /// What was wrong.
        source: FilesError,
    },
    /// A link couldn't be made.
    #[error("Failed to create symlink at {path}: {source}")]
    LinkCreate {
        /// The link.
        path: String,
        /// What was wrong.
        source: FilesError,
    },
    /// What stands at a target's path couldn't be removed.
    #[error("Failed to remove existing target path {path}: {source}")]
    RemoveTarget {
        /// The path.
        path: String,
        /// What was wrong.
        source: FilesError,
    },
    /// What stands at a target's path couldn't be told.
    #[error("Failed to read file metadata of {path}: {source}")]
    FileMetadata {
        /// The path.
        path: String,
        /// What was wrong.
        source: FilesError,
    },
    /// What stands at a target's path couldn't be read.
    #[error("Failed to read {path}: {source}")]
    FileRead {
        /// The path.
        path: String,
        /// What was wrong.
        source: FilesError,
    },
    /// A folder couldn't be walked, or has folders too deep below it.
    #[error("Failed to walk directory tree {directory}: {source}")]
    WalkDir {
        /// The folder.
        directory: String,
        /// What was wrong.
        source: FilesError,
    },
    /// What is to be copied or linked is no file.
    #[error("Path {path} is not a file")]
    PathIsNotFile {
        /// The path.
        path: String,
    },
    /// A path has no last component.
    #[error("No file name in path {path}")]
    NoFileName {
        /// The path.
        path: String,
    },
    /// A path's last component is no target's name.
    #[error("{0}")]
    Name(NameError),
    /// A target can't be made of a file.
    #[error("Failed to make a target of {path}: {source}")]
    TargetFromPath {
        /// The file.
        path: String,
        /// What was wrong.
        source: FileError,
    },
    /// What is to be copied or linked is no target.
    #[error("Path {path} is not a target")]
    PathIsNotTarget {
        /// The path.
        path: String,
    },
    /// A file hasn't the digest that is listed.
    #[error("Hash mismatch for {context}: calculated {calculated}, expected {expected}")]
    HashMismatch {
        /// `target`, or the path of what stands there already.
        context: String,
        /// The file's digest, in hexadecimal digits.
        calculated: String,
        /// The listed digest, in hexadecimal digits.
        expected: String,
    },
    /// A target's file would lie outside the folder.
    #[error("Target {} would lie outside {outdir}, at {filepath}", name.raw())]
    SaveTargetUnsafePath {
        /// The target's name.
        name: TargetName,
        /// The folder.
        outdir: String,
        /// Where the file would lie.
        filepath: String,
    },
    /// What stands at a target's path is of another kind than what is to be made.
    #[error("Expected a {expected} at {path}, found a {found}")]
    TargetFileTypeMismatch {
        /// What is to be made.
        expected: String,
        /// What stands there.
        found: String,
        /// The path.
        path: String,
    },
    /// What stands at a target's path is neither a file nor a link.
    #[error("Invalid file type at {path}")]
    InvalidFileType {
        /// The path.
        path: String,
    },
    /// Something stands at a target's path already, and the caller asked to fail then.
    #[error("Path {path} exists already")]
    PathExistsFail {
        /// The path.
        path: String,
    },
    /// A request for memory was refused.
    #[error("out of memory")]
    Memory,
}

impl From<AllocError> for OutputError {
    ghost use Rattle.tough_write.specs.declared.error.OutputError.TheVariants.{Memory};

    ghost from_gives = { λ _ e. e ≡ Memory };

    fn from(_: AllocError) -> OutputError {
        OutputError::Memory
    }
}

impl<X: Drop> From<AllocFailed<X>> for OutputError {
    ghost use Rattle.tough_write.specs.declared.error.OutputError.TheVariants.{Memory};

    ghost from_gives = { λ _ e. e ≡ Memory };

    fn from(_: AllocFailed<X>) -> OutputError {
        OutputError::Memory
    }
}

// The error for a call at this step that was refused.
fn refused(step: Step, path: String, source: FilesError) -> OutputError
    ensures { result ≡ of_step step path source }
{
    match step {
        Step::MakeFolders => OutputError::DirCreate { path, source },
        Step::Resolve => OutputError::AbsolutePath { path, source },
        Step::Write => OutputError::FileWrite { path, source },
        Step::Link => OutputError::LinkCreate { path, source },
        Step::Remove => OutputError::RemoveTarget { path, source },
        Step::Look => OutputError::FileMetadata { path, source },
        Step::Read => OutputError::FileRead { path, source },
        Step::Walk => OutputError::WalkDir {
            directory: path,
            source,
        },
    }
}

/// The error for a call on this path that was refused at this step.
pub(crate) fn refusal(alloc: Global, step: Step, path: &str, source: FilesError) -> OutputError
    ensures { TellsRefusal (of_step step) path.now source result }
{
    if source == FilesError::Memory {
        return OutputError::Memory;
    }
    match String::from_str(alloc, path) {
        Ok(path) => refused(step, path, source),
        Err(_) => OutputError::Memory,
    }
}
