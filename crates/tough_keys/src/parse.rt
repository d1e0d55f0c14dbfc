ghost use Rattle.std.specs.Prelude.{◌≡◌};

use crate::key::{Ed25519Key, Ed25519Scheme, Key};
use serde_json::Map;
use std::alloc::{AllocError, Global};
use tough_decoded::{DecodeError, Decoded};

/// Why a text is no key.
#[derive(Debug, Drop, thiserror::Error)]
pub enum KeyParseError {
    /// It isn't 64 hexadecimal digits.
    #[error("unrecognized or invalid public key")]
    NotAKey,
    /// A request for memory was refused.
    #[error("out of memory")]
    Memory,
}

impl From<AllocError> for KeyParseError {
    ghost use Rattle.tough_keys.specs.declared.parse.KeyParseError.TheVariants.{Memory};

    ghost from_gives = { λ _ e. e ≡ Memory };

    fn from(_: AllocError) -> KeyParseError {
        KeyParseError::Memory
    }
}

impl Key {
    ghost use Rattle.tough_keys.specs.Parsed.{parsed_key};
    ghost use Rattle.tough_keys.specs.Results.{Parses};

    /// The Ed25519 key of 64 hexadecimal digits; `NotAKey` for every other text.
    pub fn from_str(alloc: Global, text: &str) -> Result<Key, KeyParseError>
        ensures { Parses result (parsed_key text.now) }
    {
        if text.len() != 64 {
            return Err(KeyParseError::NotAKey);
        }
        match Decoded::from_str(alloc, text) {
            Ok(public) => Ok(Key::Ed25519 {
                keyval: Ed25519Key {
                    public,
                    _extra: Map::new(alloc),
                },
                scheme: Ed25519Scheme::Ed25519,
                _extra: Map::new(alloc),
            }),
            Err(DecodeError::Memory) => Err(KeyParseError::Memory),
            Err(_) => Err(KeyParseError::NotAKey),
        }
    }
}
