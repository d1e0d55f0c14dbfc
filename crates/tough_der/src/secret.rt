//! Secret keys.

ghost use Rattle.std.specs.Prelude.{◌≡◌, ℕ, List, length, Some, IfSome};
ghost use Rattle.tough_der.specs.Der.{pkcs8_ed25519, pkcs8_p256};
ghost use Rattle.tough_der.specs.Reading.{bytes_view, pair_view};
ghost use Rattle.tough_der.specs.Keys.{ed25519_secret_of, p256_secret_of, IsP256Secret};

use crate::element::{after, of_length, split};

// What stands before the secret.
pub(crate) const ED25519_SECRET_FRONT: [u8; 16] = [
    0x30, 0x2e, 0x02, 0x01, 0x00, 0x30, 0x05, 0x06, 0x03, 0x2b, 0x65, 0x70, 0x04, 0x22, 0x04, 0x20,
];

// What stands before the secret.
pub(crate) const P256_SECRET_FRONT: [u8; 36] = [
    0x30, 0x81, 0x87, 0x02, 0x01, 0x00, 0x30, 0x13, 0x06, 0x07, 0x2a, 0x86, 0x48, 0xce, 0x3d, 0x02,
    0x01, 0x06, 0x08, 0x2a, 0x86, 0x48, 0xce, 0x3d, 0x03, 0x01, 0x07, 0x04, 0x6d, 0x30, 0x6b, 0x02,
    0x01, 0x01, 0x04, 0x20,
];

// What stands between the secret and the point.
pub(crate) const P256_POINT_FRONT: [u8; 5] = [0xa1, 0x44, 0x03, 0x42, 0x00];

// The secret, as it is read.
#[tactic(auto, unfolding(crate::specs::Keys::ed25519_secret_of))]
fn ed25519(bytes: &[u8]) -> Option<&[u8]>
    ensures { bytes_view result ≡ ed25519_secret_of bytes.now }
{
    of_length(32, after(&ED25519_SECRET_FRONT, bytes)?)
}

/// The 32 bytes of the secret, where the bytes are a `OneAsymmetricKey` of version 0 with such a secret of Ed25519, without attributes and
/// public key (RFC 8410, 7).
pub fn read_ed25519_secret(bytes: &[u8]) -> Option<&[u8]>
    ensures value { bytes_view result ≡ ed25519_secret_of bytes.now }
    ensures some { IfSome result
        (λ s. (bytes.now ≡ pkcs8_ed25519 s.now) × (length s.now ≡ 32)) }
    ensures all { (s : List ℕ) → length s ≡ 32 → bytes.now ≡ pkcs8_ed25519 s
        → bytes_view result ≡ Some s }
{
    ed25519(bytes)
}

// The secret and the point, as they are read.
#[tactic(auto, unfolding(crate::specs::Keys::p256_secret_of))]
fn p256(bytes: &[u8]) -> Option<(&[u8], &[u8])>
    ensures { pair_view result ≡ p256_secret_of bytes.now }
{
    let rest = after(&P256_SECRET_FRONT, bytes)?;
    let (secret, rest) = split(32, rest)?;
    let point = after(&P256_POINT_FRONT, rest)?;
    let whole = of_length(65, point)?;
    Some((secret, whole))
}

/// The 32 bytes of the secret and the 65 of the point, where the bytes are a `OneAsymmetricKey` of version 0 with an `ECPrivateKey` of P-256,
/// which has the public key and no parameters (RFC 5958, 2; RFC 5915, 3). Whether the point is the secret's is not looked at.
pub fn read_p256_secret(bytes: &[u8]) -> Option<(&[u8], &[u8])>
    ensures value { pair_view result ≡ p256_secret_of bytes.now }
    ensures some { IfSome result
        (λ k. IsP256Secret bytes.now k.0.now k.1.now) }
    ensures all { (s p : List ℕ) → length s ≡ 32 → length p ≡ 65 → bytes.now ≡ pkcs8_p256 s p
        → pair_view result ≡ Some (s, p) }
{
    p256(bytes)
}
