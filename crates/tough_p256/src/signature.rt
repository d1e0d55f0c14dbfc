//! Signatures that verify.

ghost use Rattle.std.specs.Prelude.{◌≡◌, ◌<◌, true};
ghost use Rattle.tough_modular.specs.Number.{number};
ghost use Rattle.tough_p256.specs.Field.{prime};
ghost use Rattle.tough_p256.specs.Order.{order};
ghost use Rattle.tough_p256.specs.Ecdsa.{is_key, is_scalar, message_number, meeting, ecdsa_verifies, is_signature};

use crate::element::{Element, prime};
use crate::octets::words_of;
use crate::point::{Point, is_on_curve};
use crate::scalar::{Scalar, order};
use sha2::{Digest, Sha256};
use tough_modular::is_below;

// Whether they are the coordinates of a point of the curve.
fn is_key(x: &[u64; 4], y: &[u64; 4]) -> bool
    ensures test { result ≡ is_key (number x.now) (number y.now) }
    ensures x { result ≡ true → number x.now < prime }
    ensures y { result ≡ true → number y.now < prime }
{
    if !is_below(x, &prime()) || !is_below(y, &prime()) {
        return false;
    }
    is_on_curve(&Element::from_words(x), &Element::from_words(y))
}

// 0.
fn no_words() -> [u64; 4]
    ensures { number result ≡ 0 }
{
    [0, 0, 0, 0]
}

/// Whether the number is in the range of a half of a signature.
pub fn is_scalar(words: &[u64; 4]) -> bool
    ensures test { result ≡ is_scalar (number words.now) }
    ensures below { result ≡ true → number words.now < order }
{
    if !is_below(&no_words(), words) {
        return false;
    }
    is_below(words, &order())
}

/// The number that is signed.
pub fn message_number(message: &[u8]) -> Scalar
    ensures { result ≡ message_number message.now }
{
    Scalar::reduce(&words_of(&Sha256::digest(message)))
}

// The point whose first coordinate the signature has.
fn meeting(x: &[u64; 4], y: &[u64; 4], message: &[u8], r: &[u64; 4], s: &[u64; 4]) -> Point
    requires x { number x.now < prime }
    requires y { number y.now < prime }
    requires r { number r.now < order }
    requires s { number s.now < order }
    ensures { result
        ≡ meeting (number x.now) (number y.now) message.now (number r.now) (number s.now) }
{
    let w = Scalar::from_words(s).invert();
    let first = message_number(message).mul(&w).to_words();
    let second = Scalar::from_words(r).mul(&w).to_words();
    let key = Point::from_affine(Element::from_words(x), Element::from_words(y));
    Point::base().mul(&first).add(&key.mul(&second))
}

// Whether the numbers verify.
#[tactic(auto, unfolding(crate::specs::Ecdsa::ecdsa_verifies))]
fn numbers_verify(x: &[u64; 4], y: &[u64; 4], message: &[u8], r: &[u64; 4], s: &[u64; 4]) -> bool
    ensures { result
        ≡ ecdsa_verifies (number x.now) (number y.now) message.now (number r.now) (number s.now) }
{
    if !is_key(x, y) || !is_scalar(r) || !is_scalar(s) {
        return false;
    }
    meeting(x, y, message, r, s).has_x(r)
}

/// Whether `r` and `s` are the halves of the key's signature of the message, with SHA-256 (FIPS 186-5, 6.4.2), each a number of 32 bytes, the
/// highest first. The key has 65 bytes: 4, and the two coordinates, the highest byte first (SEC 1, 2.3.3).
///
/// `false` also for a key that hasn't 65 bytes, begins with another byte, or is no point of the curve other than that at infinity, and for a
/// half that isn't in [1, n - 1]. A high `s` is accepted.
#[tactic(auto, unfolding(crate::specs::Ecdsa::is_signature))]
pub fn verify(key: &[u8], message: &[u8], r: &[u8; 32], s: &[u8; 32]) -> bool
    ensures { result ≡ is_signature key.now message.now r.now s.now }
{
    key.len() == 65
        && key[0] == 4
        && numbers_verify(
            &words_of(&key[1..33]),
            &words_of(&key[33..65]),
            message,
            &words_of(r),
            &words_of(s),
        )
}
