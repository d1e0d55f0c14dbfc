//! Signed documents, targets and delegations among them, their verification, and queries of a tree of targets.
#![tactic(auto)]

mod below;
mod copy;
mod delegations;
mod edit;
mod entries;
mod equal;
mod fall;
pub mod file_digest;
mod find;
mod fitting;
mod from_path;
mod hashed;
mod held;
mod key_holder;
pub mod laws;
mod lend;
mod listing;
mod matching;
mod naming;
mod nodes;
mod put;
mod read_delegations;
mod read_plain;
mod read_target;
mod read_targets;
mod seek;
mod strays;
mod target;
mod targets;
mod update;
mod verify;
mod way;
mod write_delegations;
mod write_target;
mod write_targets;

pub use copy::copy_listing;
pub use delegations::{DelegatedRole, Delegations, PathSet};
pub use file_digest::FileError;
pub use hashed::Hashed;
pub use key_holder::KeyHolder;
pub use nodes::{Found, Nodes};
pub use target::Target;
pub use targets::{DelegatedTargets, Targets};
pub use tough_json::{CjsonError, canonical};
pub use tough_roles::{
    DemoSign, DemoVerify, EcdsaKey, EcdsaScheme, Ed25519Key, Ed25519Scheme, Error, Hashes, Key,
    KeyParseError, KeysIter, Metafile, ReadError, Result, Role, RoleId, RoleKeys, RoleType, Root,
    RsaKey, RsaScheme, Sign, SignError, Signature, Signed, Snapshot, Timestamp, Verify, WriteError,
};
