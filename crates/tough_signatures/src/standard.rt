//! A verifier for keys of every kind.

ghost use Rattle.tough_signatures.specs.Verifying.{standard_verifies};

use crate::ecdsa::EcdsaVerify;
use crate::rsa::RsaVerify;
use tough_ed25519::{Ed25519Verify, Verifiers};
use tough_keys::{Key, Verify};

/// Verifies by Ed25519, RSA or ECDSA, by the kind of the key.
#[derive(Drop)]
pub struct StandardVerify;

impl Verify for StandardVerify {
    ghost verifies = { λ v. standard_verifies };

    fn verify(&self, key: &Key, msg: &[u8], sig: &[u8]) -> bool {
        let verifiers = Verifiers {
            ed25519: Ed25519Verify,
            rsa: RsaVerify,
            ecdsa: EcdsaVerify,
        };
        verifiers.verify(key, msg, sig)
    }
}
