ghost use Rattle.std.specs.Prelude.{◌≡◌};

use std::alloc::{AllocError, AllocFailed};
use tough_keys::SignError;
use tough_roles::RoleType;

/// Why a root isn't edited, signed or tallied, or a timestamp isn't renewed.
#[derive(Debug, Drop, thiserror::Error)]
pub enum CeremonyError {
    /// The root hasn't the role.
    #[error("The root lacks role {role}")]
    NoRole {
        /// The role.
        role: RoleType,
    },
    /// The role lists the key's identifier already, whether or not the root has a key under it.
    #[error("The role lists this key already")]
    AlreadyListed,
    /// The key isn't listed.
    #[error("The key isn't listed for this role")]
    NotListed,
    /// A key has no identifier, since it has no canonical form.
    #[error("The key has no canonical form")]
    NoIdentifier,
    /// No version follows this one.
    #[error("No version follows the last one")]
    LastVersion,
    /// The root has no canonical form.
    #[error("The root has no canonical form")]
    Unwritable,
    /// A signer failed, for the reason that it gives.
    #[error("Failed to sign: {reason}")]
    Signer {
        /// The reason.
        reason: String,
    },
    /// A request for memory was refused.
    #[error("out of memory")]
    Memory,
}

impl From<AllocError> for CeremonyError {
    ghost use Rattle.tough_ceremony.specs.declared.error.CeremonyError.TheVariants.{Memory};

    ghost from_gives = { λ _ e. e ≡ Memory };

    fn from(_: AllocError) -> CeremonyError {
        CeremonyError::Memory
    }
}

impl<X: Drop> From<AllocFailed<X>> for CeremonyError {
    ghost use Rattle.tough_ceremony.specs.declared.error.CeremonyError.TheVariants.{Memory};

    ghost from_gives = { λ _ e. e ≡ Memory };

    fn from(_: AllocFailed<X>) -> CeremonyError {
        CeremonyError::Memory
    }
}

impl From<SignError> for CeremonyError {
    ghost use Rattle.tough_ceremony.specs.Refusals.{signer_error};

    ghost from_gives = { λ s e. e ≡ signer_error s };

    fn from(error: SignError) -> CeremonyError {
        match error {
            SignError::Failed(reason) => CeremonyError::Signer { reason },
            SignError::Memory => CeremonyError::Memory,
        }
    }
}
