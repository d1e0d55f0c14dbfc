//! The documents of delegated roles: which names had their turn, and how a role gets its document (TUF specification 1.0, section 5.6.7).

mod index;
mod list;

pub use index::Index;
pub use list::{roles_of, set_document};
