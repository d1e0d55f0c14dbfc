//! Documents and whole repositories in memory, signed by the scheme of demonstrations: what the example programs, the
//! measurements and the tests are run on.
#![tactic(auto)]

mod build;
mod builder;
mod documents;
mod entries;
mod error;
mod files;
mod keys;
mod roles;
mod text;

pub use build::{chain, fan, mixed, repository};
pub use documents::{
    EXPIRES, expires, root, root_with, snapshot, snapshot_of, targets, timestamp, timestamp_of,
};
pub use entries::{hashes, metafile, target};
pub use error::DemoError;
pub use files::{RepositoryFile, RepositoryFiles};
pub use keys::{PUBLIC, demo_signer, ed25519};
pub use roles::{by_pattern, by_prefix, delegate, delegation, role_key};
pub use text::{pretty, sign};
