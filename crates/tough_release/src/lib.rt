//! The editor of a repository, without a transport, and the repository that it signs.
#![tactic(auto)]

mod close;
mod documents;
mod editor;
mod edits;
mod filing;
mod heading;
mod parts;
mod release;
mod repository;
mod root;

pub use edits::RepositoryEdits;
pub use parts::top_editor;
pub use repository::SignedRepository;
pub use tough_edit::EditError;
