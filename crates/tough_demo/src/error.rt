use std::alloc::{AllocError, AllocFailed};
use thiserror::Error;
use tough_decoded::DecodeError;
use tough_names::{NameError, PatternError};
use tough_schema::{SignError, WriteError};

/// Why a document of a demonstration wasn't made.
#[derive(Debug, Drop, Error)]
pub enum DemoError {
    /// A text is no hexadecimal number.
    #[error("not hexadecimal")]
    Hex,
    /// A text is no instant.
    #[error("not an instant")]
    Instant,
    /// A text is no target's name.
    #[error("not the name of a target")]
    Name,
    /// A text is no pattern.
    #[error("not a pattern")]
    Pattern,
    /// A document has no JSON.
    #[error("a document has no JSON")]
    Unwritable,
    /// A signer failed.
    #[error("a signer failed")]
    Sign,
    /// A request for memory was refused.
    #[error("out of memory")]
    Memory,
}

impl From<AllocError> for DemoError {
    fn from(_: AllocError) -> DemoError {
        DemoError::Memory
    }
}

impl<T: Drop> From<AllocFailed<T>> for DemoError {
    fn from(_: AllocFailed<T>) -> DemoError {
        DemoError::Memory
    }
}

impl From<DecodeError> for DemoError {
    fn from(error: DecodeError) -> DemoError {
        match error {
            DecodeError::Memory => DemoError::Memory,
            _ => DemoError::Hex,
        }
    }
}

impl From<NameError> for DemoError {
    fn from(error: NameError) -> DemoError {
        match error {
            NameError::Memory => DemoError::Memory,
            _ => DemoError::Name,
        }
    }
}

impl From<PatternError> for DemoError {
    fn from(error: PatternError) -> DemoError {
        match error {
            PatternError::Memory => DemoError::Memory,
            PatternError::Glob => DemoError::Pattern,
        }
    }
}

impl From<WriteError> for DemoError {
    fn from(error: WriteError) -> DemoError {
        match error {
            WriteError::Memory => DemoError::Memory,
            WriteError::Unwritable => DemoError::Unwritable,
        }
    }
}

impl From<SignError> for DemoError {
    fn from(error: SignError) -> DemoError {
        match error {
            SignError::Memory => DemoError::Memory,
            SignError::Failed(_) => DemoError::Sign,
        }
    }
}
