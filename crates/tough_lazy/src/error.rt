//! Why the roles that a search comes to can't be had.

ghost use Rattle.std.specs.Prelude.{◌≡◌};
ghost use Rattle.tough_lazy.specs.declared.error.FetchRolesError.TheVariants.{Memory};

use std::alloc::AllocError;
use tough_update::UpdateError;

/// Why the roles that a search comes to weren't all loaded. What was loaded before stays.
#[derive(Debug, Drop, thiserror::Error)]
pub enum FetchRolesError {
    /// The snapshot doesn't list the document of a role.
    #[error("The snapshot doesn't list {file}, the document of the role '{role}'")]
    Unlisted {
        /// The role's name.
        role: String,
        /// The name under which the snapshot would list it.
        file: String,
    },
    /// The bytes aren't those that the snapshot lists: they are too many, or have another digest.
    #[error("The document of the role '{role}', {file}, isn't the one that the snapshot lists")]
    Unfit {
        /// The role's name.
        role: String,
        /// The file's name.
        file: String,
    },
    /// The document of a role wasn't fetched, isn't accepted, or wasn't stored.
    #[error("The document of the role '{role}', {file}: {source}")]
    Role {
        /// The role's name.
        role: String,
        /// The file's name.
        file: String,
        /// What was wrong.
        source: UpdateError,
    },
    /// The search needs more documents than it may fetch.
    #[error("The search needs the documents of more than {most} roles")]
    TooMany {
        /// How many it may fetch.
        most: u64,
    },
    /// A request for memory was refused.
    #[error("out of memory")]
    Memory,
}

impl From<AllocError> for FetchRolesError {
    ghost from_gives = { λ _ e. e ≡ Memory };

    fn from(_: AllocError) -> FetchRolesError {
        FetchRolesError::Memory
    }
}
