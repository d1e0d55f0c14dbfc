//! Keys, and who signs.
ghost use Rattle.std.specs.Prelude.{◌≡◌, ◌≢◌, [], ◌∷◌, Some, None, IfOk, IfErr, map, option_map};
ghost use Rattle.std.specs.Int.NonZero.{non_zero_u64_get};
ghost use Rattle.tough_decoded.specs.Spelled.{hex_bytes};
ghost use Rattle.tough_json.specs.Reading.{spelled};
ghost use Rattle.tough_keys.specs.Key.{key_doc, key_id_of};
ghost use Rattle.tough_keys.specs.Parsed.{ed25519_key};

use crate::error::DemoError;
use serde_json::Map;
use std::alloc::Global;
use std::num::NonZeroU64;
use tough_decoded::{Decoded, Hex};
use tough_schema::{DemoSign, Ed25519Key, Ed25519Scheme, Key, RoleKeys};

/// The public part of the key that signs every document of a repository, in hexadecimal digits.
pub const PUBLIC: &str = "3b6a27bcceb6a42d62a3a8d02a6f0d73653215771de243a63ac048a18b59da29";

/// An Ed25519 key, its public part given in hexadecimal digits.
pub fn ed25519(alloc: Global, public: &str) -> Result<Key, DemoError>
    ensures { IfOk result (λ k. option_map ed25519_key
        (spelled hex_bytes public.now) ≡ Some (key_doc k)) }
{
    Ok(Key::Ed25519 {
        keyval: Ed25519Key {
            public: Decoded::from_str(alloc, public)?,
            _extra: Map::new(alloc),
        },
        scheme: Ed25519Scheme::Ed25519,
        _extra: Map::new(alloc),
    })
}

/// The signer by the key of `PUBLIC`.
pub fn demo_signer(alloc: Global) -> Result<DemoSign, DemoError>
    ensures { IfOk result (λ s. option_map ed25519_key (spelled hex_bytes PUBLIC.now)
        ≡ Some (key_doc s.key)) }
{
    Ok(DemoSign {
        key: ed25519(alloc, PUBLIC)?,
    })
}

/// The key's identifier.
pub fn identifier(alloc: Global, key: &Key) -> Result<Decoded<Hex>, DemoError>
    ensures { IfOk result (λ id. key_id_of (key_doc key.now) ≡ Some id.bytes) }
{
    let digest = key.digest(alloc)?;
    Ok(Decoded::from_vec(alloc, Vec::from_slice(alloc, digest.as_slice())?)?)
}

/// A role that this key signs alone.
pub fn signed_alone(alloc: Global, key: &Key) -> Result<RoleKeys, DemoError>
    ensures identifiers { IfOk result
        (λ r. map (λ id. Some id.bytes) r.keyids.items ≡ key_id_of (key_doc key.now) ∷ []) }
    ensures threshold { IfOk result (λ r. non_zero_u64_get r.threshold ≡ 1) }
{
    let mut keyids = Vec::new(alloc);
    keyids.push(identifier(alloc, key)?)?;
    Ok(RoleKeys {
        keyids,
        threshold: NonZeroU64::MIN,
        _extra: Map::new(alloc),
    })
}
