//! Signatures by ECDSA keys.

ghost use Rattle.std.specs.Prelude.{◌≡◌, ◌≤◌, length, Some};
ghost use Rattle.tough_decoded.specs.Spelled.{is_armour};
ghost use Rattle.tough_der.specs.Keys.{p256_key_of, signature_of};
ghost use Rattle.tough_signatures.specs.Verifying.{halves_verify, point_verifies, text_point, ecdsa_bytes_verify, ecdsa_key_verifies};

use tough_der::{read_p256, read_pem, read_signature};
use tough_keys::{Key, Kind, Verify};

// Whether the encoded signature is by the point.
fn verify_by(point: &[u8], message: &[u8], signature: &[u8]) -> bool
    ensures { result ≡ point_verifies (Some point.now) message.now signature.now }
{
    match read_signature(signature) {
        None => false,
        Some(halves) => tough_p256::verify(point, message, &halves.0, &halves.1),
    }
}

// Whether it is by the key with this encoding.
fn verify_der(key: &[u8], message: &[u8], signature: &[u8]) -> bool
    ensures { result ≡ point_verifies (p256_key_of key.now) message.now signature.now }
{
    match read_p256(key) {
        None => false,
        Some(point) => verify_by(point, message, signature),
    }
}

// Whether it is by the key with this text, for which the bytes are lent.
#[tactic(auto, unfolding(crate::specs::Verifying::text_point))]
fn verify_in(bytes: &mut [u8], text: &[u8], message: &[u8], signature: &[u8]) -> bool
    requires { 3072 ≤ length bytes.old }
    ensures { result ≡ point_verifies (text_point text.now) message.now signature.now }
{
    match read_pem(b"PUBLIC KEY", text, bytes) {
        None => false,
        Some(len) => verify_der(&bytes[..len], message, signature),
    }
}

// Whether the public part begins as armour does.
fn is_armour(public: &[u8]) -> bool
    ensures { result ≡ is_armour public.now }
{
    public.starts_with(b"-----BEGIN ")
}

// Whether it is by the key with this public part: a text, or else a point.
#[tactic(auto, unfolding(crate::specs::Verifying::ecdsa_bytes_verify))]
fn verify(public: &[u8], message: &[u8], signature: &[u8]) -> bool
    ensures { result ≡ ecdsa_bytes_verify public.now message.now signature.now }
{
    if is_armour(public) {
        verify_in(&mut [0; 3072], public, message, signature)
    } else {
        verify_by(public, message, signature)
    }
}

/// Verifies signatures by ECDSA keys on P-256, with SHA-256 (FIPS 186-5, 6.4.2), of both spellings of the kind, and none by keys of another
/// kind. The key is the text of a `SubjectPublicKeyInfo` (RFC 5480, 2; RFC 7468, 13), or the 65 bytes of the point (SEC 1, 2.3.3); the
/// signature is an `Ecdsa-Sig-Value` (RFC 3279, 2.2.3).
#[derive(Drop)]
pub struct EcdsaVerify;

impl Verify for EcdsaVerify {
    ghost verifies = { λ v. ecdsa_key_verifies };

    fn verify(&self, key: &Key, msg: &[u8], sig: &[u8]) -> bool {
        match key.kind() {
            Kind::Ecdsa | Kind::EcdsaOld => verify(key.public_bytes(), msg, sig),
            _ => false,
        }
    }
}
