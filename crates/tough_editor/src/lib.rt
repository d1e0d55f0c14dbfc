//! Editors of repositories with what fetches for them: the builder calls of the original over the edits of `tough_edit`.
#![tactic(auto)]

mod add_role;
mod error;
mod fetch;
mod parts;
mod targets;

pub use add_role::{AddRole, NewRole, signing_keys};
pub use error::wide;
pub use fetch::{begin_role, document, fault};
pub use targets::TargetsEditor;
pub use tough_error::{Error, Result};
