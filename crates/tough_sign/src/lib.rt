//! How an editor writes signed documents: the text of a file, the signatures of signers, and what a snapshot and a timestamp state of files.
#![tactic(auto)]

mod file;
pub mod laws;
mod layout;
mod meta;
mod pretty;
mod signers;
mod signing;

pub use file::RoleFile;
pub use meta::{list_file, meta_of};
pub use pretty::pretty_of;
pub use signers::{KeyedSigner, ask_keys, has_signer};
pub use signing::sign_under;
