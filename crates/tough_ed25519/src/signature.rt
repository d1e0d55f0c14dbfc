//! Signatures that verify.

ghost use Rattle.std.specs.Prelude.{◌≡◌, length, take, drop};
ghost use Rattle.tough_ed25519.specs.Signatures.{challenge, halves_match, is_signature};

use crate::curve::check;
use crate::field::Words;
use crate::scalar::Scalar;
use sha2::{Digest, Sha512};

/// The hash of the signature's first half, the key and the message, modulo L.
pub fn challenge(r: &[u8], key: &[u8], message: &[u8]) -> Scalar
    ensures { result ≡ challenge r.now key.now message.now }
{
    let mut hasher = Sha512::new();
    hasher.update(r);
    hasher.update(key);
    hasher.update(message);
    Scalar::reduce(&hasher.finalize())
}

// Whether the halves of the signature belong to the key and the message.
fn halves_match(key: &[u8], message: &[u8], signature: &[u8]) -> bool
    requires key { length key.now ≡ 32 }
    requires signature { length signature.now ≡ 64 }
    ensures { result
        ≡ halves_match key.now message.now (take 32 signature.now) (drop 32 signature.now) }
{
    let (r, s) = signature.split_at(32);
    let k = challenge(r, key, message).to_words();
    check(
        Words::from_bytes(key),
        Words::from_bytes(r),
        Words::from_bytes(s),
        k,
    )
}

/// Whether the 64 bytes are the key's signature of the message (RFC 8032, 5.1.7, without the cofactor); `false` for a key that hasn't 32 bytes,
/// and for a signature that hasn't 64.
#[tactic(auto, unfolding(crate::specs::Signatures::is_signature))]
pub fn verify(key: &[u8], message: &[u8], signature: &[u8]) -> bool
    ensures { result ≡ is_signature key.now message.now signature.now }
{
    key.len() == 32 && signature.len() == 64 && halves_match(key, message, signature)
}
