use serde_json::{Map, Value};
use tough_decoded::{Decoded, EcdsaFlex, Hex, RsaPem};

/// A key that signatures are verified by.
#[derive(Debug, Drop)]
pub enum Key {
    Rsa {
        keyval: RsaKey,
        scheme: RsaScheme,
        _extra: Map<String, Value>,
    },
    Ed25519 {
        keyval: Ed25519Key,
        scheme: Ed25519Scheme,
        _extra: Map<String, Value>,
    },
    Ecdsa {
        keyval: EcdsaKey,
        scheme: EcdsaScheme,
        _extra: Map<String, Value>,
    },
    EcdsaOld {
        keyval: EcdsaKey,
        scheme: EcdsaScheme,
        _extra: Map<String, Value>,
    },
}

/// The scheme of signatures by an RSA key.
#[derive(Clone, Copy, Debug, Drop, PartialEq, Eq)]
pub enum RsaScheme {
    /// `rsassa-pss-sha256`
    RsassaPssSha256,
}

/// The scheme of signatures by an Ed25519 key.
#[derive(Clone, Copy, Debug, Drop, PartialEq, Eq)]
pub enum Ed25519Scheme {
    /// `ed25519`
    Ed25519,
}

/// The scheme of signatures by an ECDSA key.
#[derive(Clone, Copy, Debug, Drop, PartialEq, Eq)]
pub enum EcdsaScheme {
    /// `ecdsa-sha2-nistp256`
    EcdsaSha2Nistp256,
}

/// The value of an RSA key.
#[derive(Debug, Drop)]
pub struct RsaKey {
    /// The public key, as PEM.
    pub public: Decoded<RsaPem>,
    /// The members of `keyval` that this format doesn't know.
    pub _extra: Map<String, Value>,
}

/// The value of an Ed25519 key.
#[derive(Debug, Drop)]
pub struct Ed25519Key {
    /// The public key: 32 bytes, in hexadecimal digits. Their number isn't checked here.
    pub public: Decoded<Hex>,
    /// The members of `keyval` that this format doesn't know.
    pub _extra: Map<String, Value>,
}

/// The value of an ECDSA key.
#[derive(Debug, Drop)]
pub struct EcdsaKey {
    /// The public key, as PEM or in hexadecimal digits.
    pub public: Decoded<EcdsaFlex>,
    /// The members of `keyval` that this format doesn't know.
    pub _extra: Map<String, Value>,
}
