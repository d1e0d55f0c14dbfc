//! Signatures by RSA keys.

ghost use Rattle.std.specs.Prelude.{◌≡◌, length, ◌≤◌};
ghost use Rattle.tough_der.specs.Keys.{rsa_key_of};
ghost use Rattle.tough_signatures.specs.Verifying.{rsa_by, rsa_numbers_of, rsa_text_verifies, rsa_key_verifies};

use tough_der::{read_pem, read_rsa};
use tough_keys::{Key, Kind, Verify};

// Whether the signature is by the key with this encoding.
fn verify_by(key: &[u8], message: &[u8], signature: &[u8]) -> bool
    ensures { result ≡ rsa_by (rsa_key_of key.now) message.now signature.now }
{
    match read_rsa(key) {
        None => false,
        Some((modulus, exponent)) => tough_rsa::verify(modulus, exponent, message, signature),
    }
}

// Whether the signature is by the key with this text, for which the bytes are lent.
#[tactic(auto, unfolding(crate::specs::Verifying::rsa_text_verifies, crate::specs::Verifying::rsa_numbers_of))]
fn verify_in(bytes: &mut [u8], text: &[u8], message: &[u8], signature: &[u8]) -> bool
    requires { 3072 ≤ length bytes.old }
    ensures { result ≡ rsa_text_verifies text.now message.now signature.now }
{
    match read_pem(b"PUBLIC KEY", text, bytes) {
        None => false,
        Some(len) => verify_by(&bytes[..len], message, signature),
    }
}

/// Verifies signatures by RSA keys, RSASSA-PSS with SHA-256 (RFC 8017, 8.1.2), and none by keys of another kind. The key is the text of a
/// `SubjectPublicKeyInfo` (RFC 3279, 2.3.1; RFC 7468, 13).
#[derive(Drop)]
pub struct RsaVerify;

impl Verify for RsaVerify {
    ghost verifies = { λ v. rsa_key_verifies };

    fn verify(&self, key: &Key, msg: &[u8], sig: &[u8]) -> bool {
        match key.kind() {
            Kind::Rsa => verify_in(&mut [0; 3072], key.public_bytes(), msg, sig),
            _ => false,
        }
    }
}
