//! Roots that are edited and signed by several holders of keys, one after another, and a timestamp that alone is renewed.
#![tactic(auto)]

mod error;
pub mod laws;
mod listing;
mod make;
mod sign;
mod tally;
#[cfg(test)]
mod tests;
mod version;

pub use error::CeremonyError;
pub use listing::{list_key, set_threshold, unlist_key};
pub use make::empty_root;
pub use sign::sign_root;
pub use tally::{Tally, tally_root};
pub use version::{next_version, renew_timestamp};
