//! Keys.

pub use tough_schema::{
    EcdsaKey, EcdsaScheme, Ed25519Key, Ed25519Scheme, Key, KeyParseError, RsaKey, RsaScheme,
};
