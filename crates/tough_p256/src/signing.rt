//! Keys and signatures from a secret.

ghost use Rattle.std.specs.Prelude.{◌≡◌, ℕ, List, ◌∷◌, ◌<◌, true, IfSome};
ghost use Rattle.tough_modular.specs.Number.{number};
ghost use Rattle.tough_p256.specs.Order.{order};
ghost use Rattle.tough_p256.specs.Ecdsa.{is_signature};
ghost use Rattle.tough_p256.specs.Signing.{is_secret, point_octets, key_at, public_key, first_half, second_half, halves, halves_by, halves_from, halves_of, if_verifies, ecdsa_signature};

use crate::nonce::Generator;
use crate::octets::{octets_of, words_of};
use crate::point::Point;
use crate::scalar::Scalar;
use crate::signature::{is_scalar, message_number, verify};

/// Whether the 32 bytes, the highest first, are a secret: a number in [1, n - 1] (FIPS 186-5, 6.2).
pub fn is_secret(secret: &[u8; 32]) -> bool
    ensures { result ≡ is_secret secret.now }
{
    is_scalar(&words_of(secret))
}

// The two coordinates, one after the other.
fn point_octets(point: &Point) -> [u8; 64]
    ensures { result ≡ point_octets point.now }
{
    let (x, y) = point.to_affine();
    let mut both = [0; 64];
    let (first, second) = both.split_at_mut(32);
    first.copy_from_slice(&octets_of(&x.to_words()));
    second.copy_from_slice(&octets_of(&y.to_words()));
    both
}

// The key of a secret.
fn key_at(secret: &[u8; 32]) -> [u8; 64]
    ensures { result ≡ key_at secret.now }
{
    point_octets(&Point::base().mul(&words_of(secret)))
}

/// The public key of a secret, as the two coordinates of the point [d]G in 32 bytes each, the highest first (FIPS 186-5, 6.2); `None` of
/// what is no secret. How long this takes depends on the secret.
#[tactic(auto, unfolding(crate::specs::Signing::public_key))]
pub fn public_key(secret: &[u8; 32]) -> Option<[u8; 64]>
    ensures { result ≡ public_key secret.now }
{
    if !is_secret(secret) {
        return None;
    }
    let key = key_at(secret);
    Some(key)
}

// The first half, by the nonce.
fn first_half(nonce: &[u64; 4]) -> [u64; 4]
    ensures half { number result ≡ first_half (number nonce.now) }
    ensures below { number result < order }
{
    let (x, _y) = Point::base().mul(nonce).to_affine();
    Scalar::reduce(&x.to_words()).to_words()
}

// The second half, by the nonce and the first half.
fn second_half(d: &Scalar, e: &Scalar, nonce: &[u64; 4], r: &[u64; 4]) -> [u64; 4]
    requires nonce { number nonce.now < order }
    requires r { number r.now < order }
    ensures { number result ≡ second_half d.now e.now (number nonce.now) (number r.now) }
{
    let sum = e.add(&Scalar::from_words(r).mul(d));
    Scalar::from_words(nonce).invert().mul(&sum).to_words()
}

// The halves as bytes, unless one of them is 0.
fn halves(r: &[u64; 4], s: &[u64; 4]) -> Option<([u8; 32], [u8; 32])>
    ensures { result ≡ halves (number r.now) (number s.now) }
{
    if !is_scalar(r) || !is_scalar(s) {
        return None;
    }
    let both = (octets_of(r), octets_of(s));
    Some(both)
}

// The halves by the nonce.
fn halves_by(d: &Scalar, e: &Scalar, nonce: &[u64; 4]) -> Option<([u8; 32], [u8; 32])>
    ensures { result ≡ halves_by d.now e.now (number nonce.now) }
{
    if !is_scalar(nonce) {
        return None;
    }
    let r = first_half(nonce);
    let s = second_half(d, e, nonce, &r);
    halves(&r, &s)
}

// The halves by the first candidate of 16 that gives some.
fn halves_from(d: &Scalar, e: &Scalar, start: Generator) -> Option<([u8; 32], [u8; 32])>
    ensures { result ≡ halves_from 16 d.now e.now start }
{
    let mut generator = start;
    for _tried in 0..16u32 {
        generator = generator.next();
        let found = halves_by(d, e, &generator.candidate());
        if found.is_some() {
            return found;
        }
        generator = generator.reseed(0, &[], &[]);
    }
    None
}

// The halves by the secret, of a message of which this is left modulo n.
fn halves_of(secret: &[u8; 32], e: &Scalar) -> Option<([u8; 32], [u8; 32])>
    requires { is_secret secret.now ≡ true }
    ensures { result ≡ halves_of secret.now e.now }
{
    let d = Scalar::from_words(&words_of(secret));
    let start = Generator::start(secret, &octets_of(&e.to_words()));
    halves_from(&d, e, start)
}

// The key as it is verified by, of its two coordinates (SEC 1, 2.3.3).
fn uncompressed(key: &[u8; 64]) -> [u8; 65]
    ensures { result ≡ 4 ∷ key.now }
{
    let mut point = [4; 65];
    let (_first, rest) = point.split_at_mut(1);
    rest.copy_from_slice(key);
    point
}

// The halves, where they verify by the key.
fn if_verifies(
    key: &[u8; 64],
    message: &[u8],
    found: Option<([u8; 32], [u8; 32])>,
) -> Option<([u8; 32], [u8; 32])>
    ensures { result ≡ if_verifies key.now message.now found }
{
    match found {
        None => None,
        Some(both) => {
            if verify(&uncompressed(key), message, &both.0, &both.1) {
                Some(both)
            } else {
                None
            }
        }
    }
}

/// The signature of the message by the secret, with SHA-256 (FIPS 186-5, 6.4.1) and the nonce of RFC 6979: its halves `r` and `s` in 32 bytes
/// each, the highest first. How long this takes depends on the secret.
///
/// `None` of what is no secret, where 16 candidates for the nonce are refused one after the other, and where the signature doesn't verify by
/// the secret's key: what is handed out verifies.
#[tactic(auto, unfolding(crate::specs::Signing::ecdsa_signature))]
pub fn sign(secret: &[u8; 32], message: &[u8]) -> Option<([u8; 32], [u8; 32])>
    ensures signature { result ≡ ecdsa_signature secret.now message.now }
    ensures verifies { IfSome result (λ h. (key : List ℕ) → public_key secret.now ≡ Some key
        → is_signature (4 ∷ key) message.now h.0 h.1 ≡ true) }
{
    if !is_secret(secret) {
        return None;
    }
    let found = halves_of(secret, &message_number(message));
    if_verifies(&key_at(secret), message, found)
}
