//! Signed roles as an editor writes them: signed for the holder of their keys, with their files.
#![tactic(auto)]

mod error;
mod holder;
pub mod laws;
mod sign;
mod signed_role;
mod signed_roles;
mod standing;

pub use error::EditError;
pub use sign::{ask, sign_for};
pub use signed_role::SignedRole;
pub use signed_roles::SignedDelegatedTargets;
pub use standing::{bare_delegations, stand_alone};
