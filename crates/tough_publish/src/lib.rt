//! Editors of whole repositories with what fetches for them: the builder calls of the original over the edits of `tough_release`.
#![tactic(auto)]

mod add_role;
mod close;
mod fetch;
mod file;
mod place;
mod repository;
mod root;
mod targets;
mod update;
mod verify;

pub use add_role::AddRole;
pub use repository::RepositoryEditor;
pub use tough_error::{Error, Result};
pub use tough_release::{RepositoryEdits, SignedRepository};
pub use update::UpdateDelegatedTargets;
