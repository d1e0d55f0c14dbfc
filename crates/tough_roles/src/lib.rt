//! Roles, signed documents and their verification.
#![tactic(auto)]

pub mod clone;
mod error;
pub mod head;
pub mod keyring;
pub mod laws;
pub mod names;
pub mod orderly;
pub mod read_root;
mod read_signed;
mod read_snapshot;
pub mod read_timestamp;
mod role;
mod role_id;
mod role_type;
mod root;
mod signature;
mod signed;
mod snapshot;
mod timestamp;
pub mod verify;
pub mod write_root;
mod write_signed;
mod write_snapshot;
pub mod write_timestamp;
mod written;

pub use error::{Error, Result};
pub use keyring::KeysIter;
pub use role::Role;
pub use role_id::RoleId;
pub use role_type::RoleType;
pub use root::{RoleKeys, Root};
pub use signature::Signature;
pub use signed::Signed;
pub use snapshot::Snapshot;
pub use timestamp::{Hashes, Metafile, Timestamp};
pub use tough_json::{ReadError, WriteError};
pub use tough_keys::{
    DemoSign, DemoVerify, EcdsaKey, EcdsaScheme, Ed25519Key, Ed25519Scheme, Key, KeyParseError,
    RsaKey, RsaScheme, Sign, SignError, Verify,
};
pub use written::Written;
