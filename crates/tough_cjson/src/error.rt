//! Why a value has no canonical text.

ghost use Rattle.std.specs.Prelude.{◌≡◌};
ghost use Rattle.tough_cjson.specs.declared.error.CjsonError.TheVariants.{Memory};

use std::alloc::{AllocError, AllocFailed};
use thiserror::Error;

/// Why a value has no canonical text.
#[derive(Clone, Copy, Debug, PartialEq, Eq, Drop, Error)]
pub enum CjsonError {
    /// The value holds a number that is no whole number.
    #[error("a number is no whole number")]
    Float,
    /// An object holds two names with one NFC.
    #[error("an object has two names with one NFC")]
    SameName,
    #[error("out of memory")]
    Memory,
}

impl From<AllocError> for CjsonError {
    ghost from_gives = { λ _ e. e ≡ Memory };

    fn from(_e: AllocError) -> CjsonError {
        CjsonError::Memory
    }
}

impl<T: Drop> From<AllocFailed<T>> for CjsonError {
    ghost from_gives = { λ _ e. e ≡ Memory };

    fn from(_e: AllocFailed<T>) -> CjsonError {
        CjsonError::Memory
    }
}
