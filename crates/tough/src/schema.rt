//! Roles, keys, and the documents that are signed.

pub mod decoded;
pub mod key;

pub use tough_decoded::{
    Compat, Decode, DecodeError, Decoded, EcdsaFlex, EcdsaPem, Encode, Hex, RsaPem,
};
pub use tough_json::Form;
pub use tough_names::{PathHashPrefix, PathPattern, PatternError};
pub use tough_net::{FilesystemTransport, Transport};
pub use tough_schema::{
    CjsonError, DelegatedRole, DelegatedTargets, Delegations, DemoSign, DemoVerify, EcdsaKey,
    EcdsaScheme, Ed25519Key, Ed25519Scheme, Error, FileError, Found, Hashes, Key, KeyHolder,
    KeyParseError, KeysIter, Metafile, Nodes, PathSet, ReadError, Result, Role, RoleId, RoleKeys,
    RoleType, Root, RsaKey, RsaScheme, Sign, SignError, Signature, Signed, Snapshot, Target,
    Targets, Timestamp, Verify, WriteError, canonical,
};
