//! Why a file wasn't saved.

ghost use Rattle.std.specs.Prelude.{◌≡◌};
ghost use Rattle.tough_save.specs.Errors.{IsRefusal, IsOfFiles};
ghost use Rattle.tough_save.specs.declared.error.SaveError.TheVariants.{Memory};

use std::alloc::{AllocError, Global};
use tough_files::FilesError;
use tough_net::TransportError;

/// A step of a saving at which the files may refuse a call.
#[derive(Clone, Copy, Debug, PartialEq, Eq, Drop)]
pub enum Step {
    /// The path of the output folder is looked up.
    FindFolder,
    /// The folder of the file is made, and those above it.
    MakeFolders,
    /// The path of a folder is looked up, before anything is written there.
    ResolveFolder,
    /// The temporary file is made.
    CreateTemp,
    /// A piece is appended to it.
    Write,
    /// It is renamed to the path of the file.
    Rename,
}

/// Why a file wasn't saved.
#[derive(Debug, Drop, thiserror::Error)]
pub enum SaveError {
    /// The files refused a call.
    #[error("{step:?} was refused for {path}: {source}")]
    Refused {
        /// The step at which they did.
        step: Step,
        /// The path that the call was on.
        path: String,
        /// Why.
        source: FilesError,
    },
    /// What stands at the path of the output folder is no folder.
    #[error("{path} is no folder")]
    NoFolder {
        /// The path, as it was looked up.
        path: String,
    },
    /// The path of the file has no parent.
    #[error("{path} has no parent")]
    NoParent {
        /// The path.
        path: String,
    },
    /// The path of the file leads out of the output folder.
    #[error("{path} isn't in {folder}")]
    Outside {
        /// The path of the file.
        path: String,
        /// The path of the output folder.
        folder: String,
    },
    /// The stream failed.
    #[error("{0}")]
    Transport(TransportError),
    /// A request for memory was refused.
    #[error("out of memory")]
    Memory,
}

impl From<AllocError> for SaveError {
    ghost from_gives = { λ _ e. e ≡ Memory };

    fn from(_: AllocError) -> SaveError {
        SaveError::Memory
    }
}

/// The error for a call that was refused at this step.
pub(crate) fn refusal(alloc: Global, step: Step, path: &str, source: FilesError) -> SaveError
    ensures told { IsRefusal step path.now source result }
    ensures of_files { IsOfFiles result }
{
    if source == FilesError::Memory {
        return SaveError::Memory;
    }
    match String::from_str(alloc, path) {
        Ok(path) => SaveError::Refused { step, path, source },
        Err(_) => SaveError::Memory,
    }
}
