ghost use Rattle.std.specs.Prelude.{◌≡◌, IfOk};
ghost use Rattle.hex.specs.Hex.{encode_lower};
ghost use Rattle.serde_json.specs.View.{view};
ghost use Rattle.tough_json.specs.Canon.{Canon};
ghost use Rattle.tough_json.specs.CanonicalText.{canonical_of};
ghost use Rattle.tough_json.specs.Results.{Writes};
ghost use Rattle.tough_keys.specs.Key.{key_doc, key_id_of, IsKeyId};

use crate::key::Key;
use serde_json::Value;
use sha2::{Digest, Sha256};
use std::alloc::Global;
use tough_decoded::{Decoded, Hex};
use tough_json::error::WriteError;
use tough_json::{CjsonError, canonical};

/// The canonical text of a value; `Unwritable` where it has none.
pub fn text_of(alloc: Global, value: &Value) -> Result<Vec<u8>, WriteError>
    ensures text { Writes (λ t. t.items) result (canonical_of (view value.now)) }
    ensures canonical { IfOk result (λ t. Canon (view value.now) t.items) }
{
    match canonical(alloc, value) {
        Ok(text) => Ok(text),
        Err(CjsonError::Memory) => Err(WriteError::Memory),
        Err(_) => Err(WriteError::Unwritable),
    }
}

impl Key {
    /// The key's identifier, 32 bytes: the SHA-256 of the canonical text of its JSON; `Unwritable` where it has none.
    #[tactic(auto, unfolding(crate::specs::Key::key_id_of))]
    pub fn digest(&self, alloc: Global) -> Result<[u8; 32], WriteError>
        ensures id { Writes (λ id. id) result (key_id_of (key_doc self.now)) }
        ensures standard { IfOk result (λ id. IsKeyId (key_doc self.now) id) }
    {
        let value = self.to_value(alloc)?;
        let text = text_of(alloc, &value)?;
        Ok(Sha256::digest(text.as_slice()))
    }

    /// The key's identifier, spelled in lower-case digits; `Unwritable` where it has none.
    pub fn key_id(&self, alloc: Global) -> Result<Decoded<Hex>, WriteError>
        ensures id { Writes (λ id. id.bytes) result (key_id_of (key_doc self.now)) }
        ensures standard { IfOk result (λ id. IsKeyId (key_doc self.now) id.bytes) }
        ensures spelling { IfOk result (λ id. id.spelling ≡ encode_lower id.bytes) }
    {
        let digest = self.digest(alloc)?;
        let bytes = Vec::from_slice(alloc, digest.as_slice())?;
        Ok(Decoded::from_vec(alloc, bytes)?)
    }
}
