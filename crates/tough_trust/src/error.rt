//! Why an update failed.

ghost use Rattle.std.specs.Prelude.{◌≡◌};
ghost use Rattle.tough_checks.specs.declared.checks.StepError.TheVariants.{Refused};
ghost use Rattle.tough_trust.specs.declared.error.UpdateError.TheVariants.{Memory, Step};

use std::alloc::AllocError;
use tough_net::TransportError;
use tough_roles::{self as schema, ReadError, RoleType};
use tough_vault::{Refusal, StepError};
use url::ParseError;

/// Why an update couldn't begin, or failed (TUF specification 5).
#[derive(Debug, Drop, thiserror::Error)]
pub enum UpdateError {
    /// The bytes that were handed in are no signed root.
    #[error("Failed to parse trusted root metadata: {source}")]
    ParseTrustedMetadata {
        /// What was wrong.
        source: ReadError,
    },
    /// The root that was handed in doesn't reach its own threshold.
    #[error("Failed to verify trusted root metadata: {source}")]
    VerifyTrustedMetadata {
        /// What was wrong.
        source: schema::Error,
    },
    /// The bytes are no signed document of the role.
    #[error("Failed to parse {} metadata: {source}", .role.name())]
    ParseMetadata {
        /// The role.
        role: RoleType,
        /// What was wrong.
        source: ReadError,
    },
    /// More new roots than the limit allows.
    #[error("Maximum root updates {max_root_updates} exceeded")]
    MaxUpdatesExceeded {
        /// The limit.
        max_root_updates: u64,
    },
    /// A base URL can't be parsed.
    #[error("Failed to parse URL \"{url}\": {source}")]
    ParseUrl {
        /// The URL's text.
        url: String,
        /// What was wrong.
        source: ParseError,
    },
    /// A file's name can't be joined to the base URL.
    #[error("Failed to join '{path}' to the base URL: {source}")]
    JoinUrl {
        /// The file's name.
        path: String,
        /// What was wrong.
        source: ParseError,
    },
    /// A file couldn't be fetched.
    #[error("Failed to fetch: {source}")]
    Transport {
        /// What was wrong.
        source: TransportError,
    },
    /// A name that a document of the tree lists isn't found by the search for it.
    #[error("Failed to validate the delegated targets: {source}")]
    InvalidPath {
        /// What was wrong.
        source: schema::Error,
    },
    /// A step on the store was refused, or a check of a document that no step makes.
    #[error("{0}")]
    Step(StepError),
    /// A request for memory was refused.
    #[error("out of memory")]
    Memory,
}

impl From<AllocError> for UpdateError {
    ghost from_gives = { λ _ e. e ≡ Memory };

    fn from(_: AllocError) -> UpdateError {
        UpdateError::Memory
    }
}

impl From<StepError> for UpdateError {
    ghost from_gives = { λ s e. e ≡ Step s };

    fn from(error: StepError) -> UpdateError {
        UpdateError::Step(error)
    }
}

impl From<Refusal> for UpdateError {
    ghost from_gives = { λ r e. e ≡ Step (Refused r) };

    fn from(refusal: Refusal) -> UpdateError {
        UpdateError::Step(StepError::Refused(refusal))
    }
}
