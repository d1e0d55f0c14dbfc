//! What verifies and signs by Ed25519 keys.

ghost use Rattle.std.specs.Prelude.{◌≡◌, IfOk, IfErr, true};
ghost use Rattle.tough_keys.specs.Key.{key_doc};
ghost use Rattle.tough_keys.specs.Same.{key_data};
ghost use Rattle.tough_ed25519.specs.Keys.{ed25519_verifies, Refuses};
ghost use Rattle.tough_ed25519.specs.Secrets.{signature_of};

use crate::{secret, signature};
use std::alloc::Global;
use tough_keys::{Key, Kind, Sign, SignError, Verify};

/// Verifies signatures by Ed25519 keys, and none by keys of another kind.
#[derive(Drop)]
pub struct Ed25519Verify;

impl Verify for Ed25519Verify {
    ghost verifies = { λ v. ed25519_verifies };

    fn verify(&self, key: &Key, msg: &[u8], sig: &[u8]) -> bool {
        match key.kind() {
            Kind::Ed25519 => signature::verify(key.public_bytes(), msg, sig),
            _ => false,
        }
    }
}

/// Signs by a secret of 32 bytes, whose key is given. Each signature is verified before it is handed out.
///
/// How long it takes depends on the secret, and the secret stays in memory: a signer that others share a machine with should stand elsewhere.
#[derive(Drop)]
pub struct Ed25519Sign {
    pub secret: [u8; 32],
    pub key: Key,
}

impl Sign for Ed25519Sign {
    ghost key = { λ s. key_doc s.key };

    ghost signs = { λ s m x. ed25519_verifies (key_data s.key) m x ≡ true };

    /// A copy of the key.
    fn tuf_key(&self, alloc: Global) -> Result<Key, SignError>
        ensures key { IfOk result (λ k. key_doc k ≡ key_doc self.now.key) }
        ensures memory { IfErr result (λ e. e ≡ SignError.Memory) }
    {
        Ok(self.key.clone()?)
    }

    /// The signature of the message; `Failed` where the key isn't that of the secret.
    fn sign(&self, alloc: Global, msg: &[u8]) -> Result<Vec<u8>, SignError>
        ensures verifies { IfOk result
            (λ s. ed25519_verifies (key_data self.now.key) msg.now s.items ≡ true) }
        ensures signature { IfOk result (λ s. s.items ≡ signature_of self.now.secret msg.now) }
        ensures refused { IfErr result (Refuses (key_data self.now.key) self.now.secret msg.now) }
    {
        let signature = secret::sign(&self.secret, msg);
        if !Ed25519Verify.verify(&self.key, msg, &signature) {
            let told = String::from_str(alloc, "the secret is not that of the key")?;
            return Err(SignError::Failed(told));
        }
        Ok(Vec::from_slice(alloc, &signature)?)
    }
}
