ghost use Rattle.std.specs.Prelude.{◌≡◌};
ghost use Rattle.tough_keys.specs.Key.{key_doc};
ghost use Rattle.tough_keys.specs.Demo.{demo_signature, demo_verifies};

use crate::key::Key;
use crate::sign::{Sign, SignError};
use crate::verify::Verify;
use sha2::{Digest, Sha256};
use std::alloc::Global;

// The SHA-256 of the key's public bytes, followed by the message.
fn demo_signature(key: &Key, msg: &[u8]) -> [u8; 32]
    ensures { result ≡ demo_signature (key_doc key.now).public.bytes msg.now }
{
    let mut hasher = Sha256::new();
    hasher.update(key.public_bytes());
    hasher.update(msg);
    hasher.finalize()
}

/// A verifier for demonstrations and tests, which is not secure: a signature is the SHA-256 of the key's public bytes,
/// followed by the message.
#[derive(Drop)]
pub struct DemoVerify;

impl Verify for DemoVerify {
    ghost verifies = { λ v. demo_verifies };

    fn verify(&self, key: &Key, msg: &[u8], sig: &[u8]) -> bool {
        demo_signature(key, msg).as_slice() == sig
    }
}

/// A signer whose signatures `DemoVerify` accepts, and which fails only for want of memory.
#[derive(Drop)]
pub struct DemoSign {
    pub key: Key,
}

impl Sign for DemoSign {
    ghost key = { λ s. key_doc s.key };

    ghost signs = { λ s m x. x ≡ demo_signature (key_doc s.key).public.bytes m };

    ghost fails = { λ _ _. ⊥ };

    fn tuf_key(&self, alloc: Global) -> Result<Key, SignError> {
        Ok(self.key.clone()?)
    }

    fn sign(&self, alloc: Global, msg: &[u8]) -> Result<Vec<u8>, SignError> {
        Ok(Vec::from_slice(alloc, demo_signature(&self.key, msg).as_slice())?)
    }
}
