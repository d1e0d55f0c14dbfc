//! The check of a signature.

ghost use Rattle.std.specs.Prelude.{◌≡◌, Some};
ghost use Rattle.tough_ed25519.specs.Words.{words_number};
ghost use Rattle.tough_ed25519.specs.Check.{matches, checks};

use crate::curve::point::Point;
use crate::field::Words;
use crate::scalar::ORDER;

// Whether the halves of a signature belong to the key and the hash.
fn matches(key: &Point, r: Words, s: Words, k: Words) -> bool
    ensures { result ≡ matches (words_number r) (words_number s) (words_number k) (Some key.now) }
{
    if !s.is_below(ORDER) {
        return false;
    }
    let left = Point::base().mul(s, 253);
    let right = key.negate().mul(k, 253);
    left.add(&right).encode().is_equal(r)
}

/// Whether the halves `r` and `s` of a signature belong to the key and the hash `k` modulo L (RFC 8032, 5.1.7): all are numbers of 32 bytes,
/// the lowest first.
#[tactic(auto, unfolding(crate::specs::Check::checks))]
pub fn check(key: Words, r: Words, s: Words, k: Words) -> bool
    ensures { result
        ≡ checks (words_number key) (words_number r) (words_number s) (words_number k) }
{
    match Point::decode(key) {
        Some(point) => matches(&point, r, s, k),
        None => false,
    }
}
