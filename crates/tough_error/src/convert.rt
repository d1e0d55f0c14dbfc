//! What refusals without a crate of their own become. Each other narrow error is converted where it stands.
ghost use Rattle.std.specs.Prelude.{◌≡◌};

use crate::error::Error;
use std::alloc::AllocError;
use tough_names::NameError;

impl From<AllocError> for Error {
    ghost use Rattle.tough_error.specs.declared.error.Error.TheVariants.{Memory};

    ghost from_gives = { λ _ e. e ≡ Memory };

    fn from(_: AllocError) -> Error {
        Error::Memory
    }
}

impl From<NameError> for Error {
    ghost use Rattle.tough_error.specs.Names.{name_error};

    ghost from_gives = { λ n e. e ≡ name_error n };

    fn from(error: NameError) -> Error {
        match error {
            NameError::UnsafeTargetNameDotDot => Error::UnsafeTargetNameDotDot,
            NameError::UnsafeTargetNameEmpty => Error::UnsafeTargetNameEmpty,
            NameError::UnsafeTargetNameSlash => Error::UnsafeTargetNameSlash,
            NameError::Memory => Error::Memory,
        }
    }
}
