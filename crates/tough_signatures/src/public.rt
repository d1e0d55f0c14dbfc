//! Public keys from texts.

ghost use Rattle.std.specs.Prelude.{◌≡◌, ◌≤◌, length, Some, true, IfOk};
ghost use Rattle.tough_keys.specs.Key.{key_doc};
ghost use Rattle.tough_keys.specs.Results.{Parses};
ghost use Rattle.tough_keys.specs.declared.kind.Kind.{Kind};
ghost use Rattle.tough_decoded.specs.Spelled.{is_armour};
ghost use Rattle.tough_signatures.specs.Secrets.{text_key, digits_key, key_by, public_key_of};

use serde_json::Map;
use std::alloc::{AllocError, Global};
use tough_decoded::{DecodeError, Decoded};
use tough_der::{read_ed25519, read_p256, read_pem, read_rsa};
use tough_keys::{
    EcdsaKey, EcdsaScheme, Ed25519Key, Ed25519Scheme, Key, KeyParseError, RsaKey, RsaScheme,
};

// An RSA key with this text.
fn rsa_key(alloc: Global, text: &str) -> Result<Key, KeyParseError>
    requires { is_armour text.now ≡ true }
    ensures { Parses result (Some (text_key Kind.Rsa text.now)) }
{
    match Decoded::from_str(alloc, text) {
        Ok(public) => Ok(Key::Rsa {
            keyval: RsaKey {
                public,
                _extra: Map::new(alloc),
            },
            scheme: RsaScheme::RsassaPssSha256,
            _extra: Map::new(alloc),
        }),
        Err(DecodeError::Memory) => Err(KeyParseError::Memory),
        Err(_) => Err(KeyParseError::NotAKey),
    }
}

/// An ECDSA key with this text.
pub fn ecdsa_text_key(alloc: Global, text: &str) -> Result<Key, KeyParseError>
    requires { is_armour text.now ≡ true }
    ensures { Parses result (Some (text_key Kind.Ecdsa text.now)) }
{
    match Decoded::from_str(alloc, text) {
        Ok(public) => Ok(Key::Ecdsa {
            keyval: EcdsaKey {
                public,
                _extra: Map::new(alloc),
            },
            scheme: EcdsaScheme::EcdsaSha2Nistp256,
            _extra: Map::new(alloc),
        }),
        Err(DecodeError::Memory) => Err(KeyParseError::Memory),
        Err(_) => Err(KeyParseError::NotAKey),
    }
}

/// The Ed25519 key with these bytes, in lower-case digits.
pub fn ed25519_key(alloc: Global, key: &[u8]) -> Result<Key, AllocError>
    ensures { IfOk result (λ k. key_doc k ≡ digits_key key.now) }
{
    let public = Decoded::from_vec(alloc, Vec::from_slice(alloc, key)?)?;
    Ok(Key::Ed25519 {
        keyval: Ed25519Key {
            public,
            _extra: Map::new(alloc),
        },
        scheme: Ed25519Scheme::Ed25519,
        _extra: Map::new(alloc),
    })
}

// The key of the text with this encoding.
fn key_by(alloc: Global, text: &str, bytes: &[u8]) -> Result<Key, KeyParseError>
    requires { is_armour text.now ≡ true }
    ensures { Parses result (key_by text.now bytes.now) }
{
    if read_rsa(bytes).is_some() {
        return rsa_key(alloc, text);
    }
    if read_p256(bytes).is_some() {
        return ecdsa_text_key(alloc, text);
    }
    match read_ed25519(bytes) {
        None => Err(KeyParseError::NotAKey),
        Some(key) => Ok(ed25519_key(alloc, key)?),
    }
}

// The key of the text, for which the bytes are lent.
#[tactic(auto, unfolding(crate::specs::Secrets::public_key_of))]
fn public_key_in(alloc: Global, bytes: &mut [u8], text: &str) -> Result<Key, KeyParseError>
    requires { 3072 ≤ length bytes.old }
    ensures { Parses result (public_key_of text.now) }
{
    match read_pem(b"PUBLIC KEY", text.as_bytes(), bytes) {
        None => Err(KeyParseError::NotAKey),
        Some(len) => key_by(alloc, text, &bytes[..len]),
    }
}

/// The key of a `SubjectPublicKeyInfo` in a text (RFC 7468, 13): RSA (RFC 3279, 2.3.1) and ECDSA on P-256 (RFC 5480, 2), which keep the text as
/// it stands, and Ed25519 (RFC 8410, 4), whose bytes are spelled in lower-case digits; `NotAKey` for every other text.
pub fn public_key(alloc: Global, text: &str) -> Result<Key, KeyParseError>
    ensures { Parses result (public_key_of text.now) }
{
    public_key_in(alloc, &mut [0; 3072], text)
}
