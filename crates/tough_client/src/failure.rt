//! What the narrow errors of reading and saving are in the wide one.

ghost use Rattle.std.specs.Prelude.{◌≡◌, string_bytes};
ghost use Rattle.tough_client.specs.Reading.{TellsFault, TellsFetch};
ghost use Rattle.tough_client.specs.Saving.{refusal, TellsSave};

use std::alloc::Global;
use tough_error::Error;
use tough_files::FilesError;
use tough_names::TargetName;
use tough_net::{TransportError, TransportErrorKind};
use tough_save::{FetchError, SaveError, Step};

// A fault of a transport.
pub(crate) fn fault(source: TransportError) -> Error
    ensures { TellsFault source result }
{
    if source.kind() == TransportErrorKind::Memory {
        Error::Memory
    } else {
        Error::Transport { source }
    }
}

/// Why the file of this name isn't fetched.
pub(crate) fn unfetched(file: String, error: FetchError) -> Error
    ensures { TellsFetch (string_bytes file) error result }
{
    match error {
        FetchError::JoinUrl(source) => Error::JoinUrl { path: file, source },
        FetchError::Escapes(url) => Error::InvalidTargetName { inner: url },
        FetchError::Transport(source) => fault(source),
        FetchError::Memory => Error::Memory,
    }
}

// A call on files that was refused.
fn refused(step: Step, path: String, source: FilesError) -> Error
    ensures { result ≡ refusal step path source }
{
    match step {
        Step::FindFolder => Error::SaveTargetOutdirCanonicalize { path, source },
        Step::MakeFolders => Error::DirCreate { path, source },
        Step::ResolveFolder => Error::AbsolutePath { path, source },
        Step::CreateTemp => Error::NamedTempFileCreate { path, source },
        Step::Write => Error::FileWrite { path, source },
        Step::Rename => Error::NamedTempFilePersist { path, source },
    }
}

/// Why a target of this name isn't saved.
pub(crate) fn unsaved(name: &TargetName, error: SaveError) -> Error
    ensures { TellsSave name.now error result }
{
    match error {
        SaveError::Refused { step, path, source } => refused(step, path, source),
        SaveError::NoFolder { path } => Error::SaveTargetOutdir { path },
        SaveError::NoParent { path } => match name.clone() {
            Ok(name) => Error::SaveTargetNoParent { path, name },
            Err(_) => Error::Memory,
        },
        SaveError::Outside { path, folder } => match name.clone() {
            Ok(name) => Error::SaveTargetUnsafePath {
                name,
                outdir: folder,
                filepath: path,
            },
            Err(_) => Error::Memory,
        },
        SaveError::Transport(source) => fault(source),
        SaveError::Memory => Error::Memory,
    }
}
