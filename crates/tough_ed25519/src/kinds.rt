//! A verifier for keys of several kinds.

ghost use Rattle.tough_ed25519.specs.Kinds.{by_kind, nothing_verifies};

use tough_keys::{Key, Kind, Verify};

/// Verifies nothing: for the kinds of keys for which a caller has no verifier.
#[derive(Drop)]
pub struct NoVerify;

impl Verify for NoVerify {
    ghost verifies = { λ v. nothing_verifies };

    fn verify(&self, _key: &Key, _msg: &[u8], _sig: &[u8]) -> bool {
        false
    }
}

/// Verifies by the verifier for the kind of the key. Both kinds of ECDSA keys go to one.
#[derive(Drop)]
pub struct Verifiers<E: Verify, R: Verify, C: Verify> {
    pub ed25519: E,
    pub rsa: R,
    pub ecdsa: C,
}

impl<E: Verify, R: Verify, C: Verify> Verify for Verifiers<E, R, C> {
    ghost verifies = { λ v. by_kind (E.verifies v.ed25519) (R.verifies v.rsa) (C.verifies v.ecdsa) };

    fn verify(&self, key: &Key, msg: &[u8], sig: &[u8]) -> bool {
        match key.kind() {
            Kind::Ed25519 => self.ed25519.verify(key, msg, sig),
            Kind::Rsa => self.rsa.verify(key, msg, sig),
            Kind::Ecdsa | Kind::EcdsaOld => self.ecdsa.verify(key, msg, sig),
        }
    }
}
