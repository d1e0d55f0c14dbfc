//! The editor of a targets document, without a transport.
#![tactic(auto)]

mod build;
mod edits;
mod files;
mod keys;
mod roles;
mod sign;
mod signers;

pub use edits::TargetEdits;
pub use files::build_target;
pub use keys::keyids_of;
pub use signers::{SignersKeys, signers_keys};
pub use tough_signed::EditError;
