//! Keys and signatures from a secret.

ghost use Rattle.std.specs.Prelude.{◌≡◌, ◌++◌};
ghost use Rattle.sha2.specs.Sha512.{sha512};
ghost use Rattle.tough_ed25519.specs.Words.{words_number};
ghost use Rattle.tough_ed25519.specs.Secrets.{prune, scalar_at, key_at, key_of, nonce_at, first_half, second_half, signature_at, signature_of};

use crate::curve::Point;
use crate::field::Words;
use crate::scalar::Scalar;
use crate::signature::challenge;
use sha2::{Digest, Sha512};

// The hash of the secret, whose halves give its scalar and its nonces.
fn hash(secret: &[u8; 32]) -> [u8; 64]
    ensures { result ≡ sha512 secret.now }
{
    Sha512::digest(secret)
}

// A number that is a multiple of eight, and whose highest bit is bit 254.
fn prune(words: Words) -> Words
    ensures { words_number result ≡ prune (words_number words) }
{
    Words {
        first: words.first & !7,
        second: words.second,
        third: words.third,
        fourth: (words.fourth & 0x3fff_ffff_ffff_ffff) | 0x4000_0000_0000_0000,
    }
}

// The scalar by which the base point gives the key.
fn scalar_at(hash: &[u8; 64]) -> Words
    ensures { words_number result ≡ scalar_at hash.now }
{
    prune(Words::from_bytes(&hash[..32]))
}

// The key.
fn key_at(hash: &[u8; 64]) -> [u8; 32]
    ensures { result ≡ key_at hash.now }
{
    Point::base().mul(scalar_at(hash), 255).encode().to_bytes()
}

// The number that is used for one message alone.
fn nonce_at(hash: &[u8; 64], message: &[u8]) -> Scalar
    ensures { result ≡ nonce_at hash.now message.now }
{
    let (_, prefix) = hash.split_at(32);
    let mut hasher = Sha512::new();
    hasher.update(prefix);
    hasher.update(message);
    Scalar::reduce(&hasher.finalize())
}

// The first half of a signature.
fn first_half(nonce: &Scalar) -> [u8; 32]
    ensures { result ≡ first_half nonce.now }
{
    Point::base().mul(nonce.to_words(), 253).encode().to_bytes()
}

// The second half of a signature.
fn second_half(nonce: &Scalar, k: &Scalar, s: Words) -> [u8; 32]
    ensures { result ≡ second_half nonce.now k.now (words_number s) }
{
    nonce.add(&k.mul(s)).to_words().to_bytes()
}

// The two halves, one after the other.
fn join(first: &[u8; 32], second: &[u8; 32]) -> [u8; 64]
    ensures { result ≡ first.now ++ second.now }
{
    let mut both = [0; 64];
    let (low, high) = both.split_at_mut(32);
    low.copy_from_slice(first);
    high.copy_from_slice(second);
    both
}

// The signature by the scalar, the key and the nonces of the hash.
fn signature_at(hash: &[u8; 64], message: &[u8]) -> [u8; 64]
    ensures { result ≡ signature_at hash.now message.now }
{
    let nonce = nonce_at(hash, message);
    let r = first_half(&nonce);
    let k = challenge(&r, &key_at(hash), message);
    join(&r, &second_half(&nonce, &k, scalar_at(hash)))
}

/// The key of a secret (RFC 8032, 5.1.5).
#[tactic(auto, unfolding(crate::specs::Secrets::key_of))]
pub fn key_of(secret: &[u8; 32]) -> [u8; 32]
    ensures { result ≡ key_of secret.now }
{
    key_at(&hash(secret))
}

/// The signature of the message by the secret (RFC 8032, 5.1.6). How long this takes depends on the secret.
#[tactic(auto, unfolding(crate::specs::Secrets::signature_of))]
pub fn sign(secret: &[u8; 32], message: &[u8]) -> [u8; 64]
    ensures { result ≡ signature_of secret.now message.now }
{
    signature_at(&hash(secret), message)
}
