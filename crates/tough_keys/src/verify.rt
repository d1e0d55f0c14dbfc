ghost use Rattle.std.specs.Prelude.{◌≡◌};
ghost use Rattle.tough_keys.specs.Same.{Verifies, key_data};

use crate::key::Key;

/// What tells whether a signature is by a key. Equal keys verify alike, since a verifier's meaning is over what makes
/// keys equal.
pub trait Verify {
    ghost verifies: { Self → Verifies };

    /// Whether the signature over the message is by the key.
    fn verify(&self, key: &Key, msg: &[u8], sig: &[u8]) -> bool
        ensures { result ≡ verifies self.now (key_data key.now) msg.now sig.now };
}

impl<T: Verify> Verify for &T {
    ghost verifies = { λ v. T.verifies v.now };

    fn verify(&self, key: &Key, msg: &[u8], sig: &[u8]) -> bool {
        T::verify(*self, key, msg, sig)
    }
}
