//! Delegated roles that are loaded as searches come to them (TUF specification 5.6.7).
#![tactic(auto)]

mod error;
mod fetch;
pub mod growing;
pub mod laws;
mod role;
#[cfg(test)]
mod tests;
mod walk;

pub use error::FetchRolesError;
pub use fetch::{FetchRoles, MAX_DELEGATIONS, fetch_roles};
pub use role::take_role;
pub use walk::{Look, Wanted, look_for};
