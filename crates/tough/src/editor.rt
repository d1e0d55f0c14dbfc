//! Editors, what they sign, and how that is written.

pub mod signed;
pub mod targets;

pub use tough_publish::{AddRole, RepositoryEditor, RepositoryEdits, UpdateDelegatedTargets};
