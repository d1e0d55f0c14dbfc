//! Copies of keys.

ghost use Rattle.std.specs.Prelude.{◌≡◌, IfOk};
ghost use Rattle.serde_json.specs.View.{members_view};
ghost use Rattle.tough_keys.specs.Key.{key_doc};

use crate::key::{EcdsaKey, Ed25519Key, Key, RsaKey};
use serde_json::{Map, Value};
use std::alloc::AllocError;
use std::default::Emptied;

/// The same members.
pub fn copy(members: &Map<String, Value>) -> Result<Map<String, Value>, AllocError>
    ensures { IfOk result (λ m. members_view m.entries ≡ members_view members.now.entries) }
{
    let mut copies = Map::emptied(members)?;
    for (key, member) in members.iter() {
        let name = key.clone()?;
        drop(copies.insert(name, member.clone()?)?);
    }
    Ok(copies)
}

impl Clone for RsaKey {
    ghost is_clone = { λ k c. (c.public ≡ k.public)
        × (members_view c._extra.entries ≡ members_view k._extra.entries) };

    fn clone(&self) -> Result<RsaKey, AllocError> {
        let public = self.public.clone()?;
        let _extra = copy(&self._extra)?;
        Ok(RsaKey { public, _extra })
    }
}

impl Clone for Ed25519Key {
    ghost is_clone = { λ k c. (c.public ≡ k.public)
        × (members_view c._extra.entries ≡ members_view k._extra.entries) };

    fn clone(&self) -> Result<Ed25519Key, AllocError> {
        let public = self.public.clone()?;
        let _extra = copy(&self._extra)?;
        Ok(Ed25519Key { public, _extra })
    }
}

impl Clone for EcdsaKey {
    ghost is_clone = { λ k c. (c.public ≡ k.public)
        × (members_view c._extra.entries ≡ members_view k._extra.entries) };

    fn clone(&self) -> Result<EcdsaKey, AllocError> {
        let public = self.public.clone()?;
        let _extra = copy(&self._extra)?;
        Ok(EcdsaKey { public, _extra })
    }
}

impl Clone for Key {
    ghost is_clone = { λ k c. key_doc c ≡ key_doc k };

    fn clone(&self) -> Result<Key, AllocError> {
        match self {
            Key::Rsa {
                keyval,
                scheme,
                _extra,
            } => {
                let keyval = keyval.clone()?;
                let _extra = copy(_extra)?;
                Ok(Key::Rsa {
                    keyval,
                    scheme: *scheme,
                    _extra,
                })
            }
            Key::Ed25519 {
                keyval,
                scheme,
                _extra,
            } => {
                let keyval = keyval.clone()?;
                let _extra = copy(_extra)?;
                Ok(Key::Ed25519 {
                    keyval,
                    scheme: *scheme,
                    _extra,
                })
            }
            Key::Ecdsa {
                keyval,
                scheme,
                _extra,
            } => {
                let keyval = keyval.clone()?;
                let _extra = copy(_extra)?;
                Ok(Key::Ecdsa {
                    keyval,
                    scheme: *scheme,
                    _extra,
                })
            }
            Key::EcdsaOld {
                keyval,
                scheme,
                _extra,
            } => {
                let keyval = keyval.clone()?;
                let _extra = copy(_extra)?;
                Ok(Key::EcdsaOld {
                    keyval,
                    scheme: *scheme,
                    _extra,
                })
            }
        }
    }
}
