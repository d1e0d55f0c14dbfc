//! A fetch that gave no bytes (TUF specification 5.3.3).

ghost use Rattle.std.specs.Prelude.{◌≡◌, string_bytes};
ghost use Rattle.tough_trust.specs.Failure.{failure_of};
ghost use Rattle.tough_trust.specs.Faults.{fault_failure, ends_start, ends_stream};

use crate::error::UpdateError;
use tough_net::{TransportError, TransportErrorKind};
use url::ParseError;

/// Why a fetch gave no bytes.
#[derive(Debug, Drop)]
pub enum Fault {
    /// The name can't be joined to the base URL.
    JoinUrl(ParseError),
    /// The transport failed.
    Transport(TransportError),
}

impl Fault {
    /// Why an update fails where the file of this name is needed.
    pub fn into_error(self, path: String) -> UpdateError
        ensures { failure_of result ≡ fault_failure (string_bytes path) self }
    {
        match self {
            Fault::JoinUrl(ParseError::OutOfMemory) => UpdateError::Memory,
            Fault::JoinUrl(source) => UpdateError::JoinUrl { path, source },
            Fault::Transport(source) => match source.kind() {
                TransportErrorKind::Memory => UpdateError::Memory,
                _ => UpdateError::Transport { source },
            },
        }
    }

    /// Whether the walk ends where the fetch of a root starts with this fault.
    pub fn ends_start(&self) -> bool
        ensures { result ≡ ends_start self.now }
    {
        match self {
            Fault::JoinUrl(_) => false,
            Fault::Transport(source) => !matches!(source.kind(), TransportErrorKind::Memory),
        }
    }

    /// Whether the walk ends where the stream of a root fails with this fault.
    pub fn ends_stream(&self) -> bool
        ensures { result ≡ ends_stream self.now }
    {
        match self {
            Fault::JoinUrl(_) => false,
            Fault::Transport(source) => matches!(source.kind(), TransportErrorKind::FileNotFound),
        }
    }
}
