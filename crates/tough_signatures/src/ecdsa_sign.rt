//! What signs by ECDSA keys.

ghost use Rattle.std.specs.Prelude.{◌≡◌, IfOk, IfErr, Some, true};
ghost use Rattle.tough_keys.specs.Key.{key_doc};
ghost use Rattle.tough_keys.specs.Same.{key_data};
ghost use Rattle.tough_signatures.specs.Verifying.{ecdsa_key_verifies};
ghost use Rattle.tough_signatures.specs.Secrets.{ecdsa_bytes, RefusesEcdsa};

use crate::ecdsa::EcdsaVerify;
use std::alloc::Global;
use tough_der::write_signature;
use tough_keys::{Key, Sign, SignError, Verify};

/// Signs by a secret of 32 bytes, the highest first, whose key is given, by ECDSA on P-256 with SHA-256 and the nonces of RFC 6979. Each
/// signature is verified before it is handed out.
///
/// How long it takes depends on the secret, and the secret stays in memory: a signer that others share a machine with should stand elsewhere.
#[derive(Drop)]
pub struct EcdsaSign {
    pub secret: [u8; 32],
    pub key: Key,
}

impl Sign for EcdsaSign {
    ghost key = { λ s. key_doc s.key };

    ghost signs = { λ s m x. ecdsa_key_verifies (key_data s.key) m x ≡ true };

    /// A copy of the key.
    fn tuf_key(&self, alloc: Global) -> Result<Key, SignError>
        ensures key { IfOk result (λ k. key_doc k ≡ key_doc self.now.key) }
        ensures memory { IfErr result (λ e. e ≡ SignError.Memory) }
    {
        Ok(self.key.clone()?)
    }

    /// The signature of the message; `Failed` where the secret isn't in [1, n - 1], or the key isn't that of the secret.
    fn sign(&self, alloc: Global, msg: &[u8]) -> Result<Vec<u8>, SignError>
        ensures verifies { IfOk result
            (λ s. ecdsa_key_verifies (key_data self.now.key) msg.now s.items ≡ true) }
        ensures signature { IfOk result (λ s. ecdsa_bytes self.now.secret msg.now ≡ Some s.items) }
        ensures refused { IfErr result
            (RefusesEcdsa (key_data self.now.key) self.now.secret msg.now) }
    {
        let Some(halves) = tough_p256::sign(&self.secret, msg) else {
            let told = String::from_str(alloc, "the secret is out of range")?;
            return Err(SignError::Failed(told));
        };
        let signature = write_signature(alloc, &halves.0, &halves.1)?;
        if !EcdsaVerify.verify(&self.key, msg, signature.as_slice()) {
            let told = String::from_str(alloc, "the secret is not that of the key")?;
            return Err(SignError::Failed(told));
        }
        Ok(signature)
    }
}
