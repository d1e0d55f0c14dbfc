//! Public keys.

ghost use Rattle.std.specs.Prelude.{◌≡◌, ℕ, ◌<◌, ◌^◌, List, length, slice_index, Some, IfSome, option_map};
ghost use Rattle.tough_der.specs.Der.{spki_rsa, spki_p256, spki_ed25519};
ghost use Rattle.tough_der.specs.Reading.{bytes_view};
ghost use Rattle.tough_der.specs.Keys.{key_view, rsa_numbers, after_rsa, rsa_key_of, p256_key_of, ed25519_key_of};

use crate::element::{after, element, of_length, whole};
use crate::integer::{magnitude, wide_8};

// The algorithm of RSA keys, without parameters.
const RSA_ALGORITHM: [u8; 15] = [
    0x30, 0x0d, 0x06, 0x09, 0x2a, 0x86, 0x48, 0x86, 0xf7, 0x0d, 0x01, 0x01, 0x01, 0x05, 0x00,
];

// What stands before the point.
pub(crate) const P256_FRONT: [u8; 26] = [
    0x30, 0x59, 0x30, 0x13, 0x06, 0x07, 0x2a, 0x86, 0x48, 0xce, 0x3d, 0x02, 0x01, 0x06, 0x08, 0x2a,
    0x86, 0x48, 0xce, 0x3d, 0x03, 0x01, 0x07, 0x03, 0x42, 0x00,
];

// What stands before the key.
pub(crate) const ED25519_FRONT: [u8; 12] = [
    0x30, 0x2a, 0x30, 0x05, 0x06, 0x03, 0x2b, 0x65, 0x70, 0x03, 0x21, 0x00,
];

// The modulus and the exponent.
#[tactic(auto, unfolding(crate::specs::Keys::rsa_numbers))]
fn rsa_numbers(bytes: &[u8]) -> Option<(&[u8], u64)>
    ensures { key_view result ≡ rsa_numbers bytes.now }
{
    let numbers = whole(0x30, bytes)?;
    let (first, rest) = element(2, numbers)?;
    let second = whole(2, rest)?;
    let modulus = magnitude(first)?;
    let exponent = wide_8(second)?;
    Some((modulus, u64::from_be_bytes(exponent)))
}

// What follows the algorithm of RSA keys.
#[tactic(auto, unfolding(crate::specs::Keys::after_rsa, crate::specs::Der::length_octets))]
fn after_rsa(bytes: &[u8]) -> Option<&[u8]>
    ensures { bytes_view result ≡ after_rsa bytes.now }
{
    after(&RSA_ALGORITHM, bytes)
}

// The modulus and the exponent of a key.
#[tactic(auto, unfolding(crate::specs::Keys::rsa_key_of))]
fn rsa(bytes: &[u8]) -> Option<(&[u8], u64)>
    ensures { key_view result ≡ rsa_key_of bytes.now }
{
    let parts = whole(0x30, bytes)?;
    let key = after_rsa(parts)?;
    let bits = whole(3, key)?;
    let numbers = after(&[0], bits)?;
    rsa_numbers(numbers)
}

/// The modulus, as bytes, the highest first and not zero, and the exponent, where the bytes are a `SubjectPublicKeyInfo` with such numbers
/// (RFC 3279, 2.3.1).
pub fn read_rsa(bytes: &[u8]) -> Option<(&[u8], u64)>
    ensures value { key_view result ≡ rsa_key_of bytes.now }
    ensures some { IfSome result (λ k. bytes.now ≡ spki_rsa k.0.now k.1) }
    ensures all { (n : List ℕ) (e : ℕ) → 0 < slice_index n 0 → length n < 2 ^ 31 → e < 2 ^ 64
        → bytes.now ≡ spki_rsa n e → key_view result ≡ Some (n, e) }
{
    rsa(bytes)
}

// The point, as it is read.
#[tactic(auto, unfolding(crate::specs::Keys::p256_key_of))]
fn p256(bytes: &[u8]) -> Option<&[u8]>
    ensures { bytes_view result ≡ p256_key_of bytes.now }
{
    of_length(65, after(&P256_FRONT, bytes)?)
}

/// The 65 bytes of the point, where the bytes are a `SubjectPublicKeyInfo` with such a point of P-256 (RFC 5480, 2).
pub fn read_p256(bytes: &[u8]) -> Option<&[u8]>
    ensures value { bytes_view result ≡ p256_key_of bytes.now }
    ensures some { IfSome result
        (λ p. (bytes.now ≡ spki_p256 p.now) × (length p.now ≡ 65)) }
    ensures all { (p : List ℕ) → length p ≡ 65 → bytes.now ≡ spki_p256 p
        → bytes_view result ≡ Some p }
{
    p256(bytes)
}

// The key, as it is read.
#[tactic(auto, unfolding(crate::specs::Keys::ed25519_key_of))]
fn ed25519(bytes: &[u8]) -> Option<&[u8]>
    ensures { bytes_view result ≡ ed25519_key_of bytes.now }
{
    of_length(32, after(&ED25519_FRONT, bytes)?)
}

/// The 32 bytes of the key, where the bytes are a `SubjectPublicKeyInfo` with such a key of Ed25519 (RFC 8410, 4).
pub fn read_ed25519(bytes: &[u8]) -> Option<&[u8]>
    ensures value { bytes_view result ≡ ed25519_key_of bytes.now }
    ensures some { IfSome result
        (λ k. (bytes.now ≡ spki_ed25519 k.now) × (length k.now ≡ 32)) }
    ensures all { (k : List ℕ) → length k ≡ 32 → bytes.now ≡ spki_ed25519 k
        → bytes_view result ≡ Some k }
{
    ed25519(bytes)
}
