//! The scalars of edwards25519: numbers modulo L, the order of its base point (RFC 8032, 5.1).

ghost use Rattle.std.specs.Prelude.{◌≡◌, ◌+◌, ◌*◌, ◌/◌, ◌%◌, ◌^◌, ◌<◌, cond};
ghost use Rattle.tough_ed25519.specs.Bytes.{bytes_number};
ghost use Rattle.tough_ed25519.specs.Words.{words_number};
ghost use Rattle.tough_ed25519.specs.Order.{order};

mod sums;

use crate::field::Words;
use crate::scalar::sums::{add_with_carry, sub_order};
use std::marker::Model;
pub use sums::ORDER;

/// A number modulo L.
#[derive(Drop)]
pub struct Scalar {
    words: Words,
}

impl Model for Scalar {
    ghost use Rattle.std.specs.Prelude.{ℕ, ◌<◌};
    ghost use Rattle.tough_ed25519.specs.Words.{words_number};
    ghost use Rattle.tough_ed25519.specs.Order.{order};

    ghost Value = { ℕ };

    ghost view = { λ s. words_number s.words };

    ghost invariant = { λ s. words_number s.words < order };
}

// The bit of this weight.
fn bit_of(byte: u8, index: u8) -> u64
    requires { index < 8 }
    ensures { result ≡ byte / 2 ^ index % 2 }
{
    ((byte >> index) & 1) as u64
}

impl Scalar {
    // Zero.
    fn zero() -> Scalar
        ensures { result ≡ 0 }
    {
        Scalar {
            words: Words::from_u64(0),
        }
    }

    // The number modulo L, where it is below twice that.
    fn reduce_once(words: Words) -> Scalar
        requires { words_number words < 2 * order }
        ensures { result ≡ words_number words % order }
    {
        let words = if words.is_below(ORDER) {
            words
        } else {
            sub_order(words)
        };
        Scalar { words }
    }

    // Twice the number and a bit.
    fn shift_in(&self, bit: u64) -> Scalar
        requires { bit < 2 }
        ensures { result ≡ (2 * self.now + bit) % order }
    {
        let words = self.words;
        Scalar::reduce_once(Words {
            first: ((words.first & 0x7fff_ffff_ffff_ffff) << 1) + bit,
            second: ((words.second & 0x7fff_ffff_ffff_ffff) << 1) + (words.first >> 63),
            third: ((words.third & 0x7fff_ffff_ffff_ffff) << 1) + (words.second >> 63),
            fourth: (words.fourth << 1) + (words.third >> 63),
        })
    }

    // 256 times the number and a byte.
    fn shift_in_byte(&self, byte: u8) -> Scalar
        ensures { result ≡ (256 * self.now + byte) % order }
    {
        let mut answer = Scalar { words: self.words };
        for done in 0..8u8 {
            answer = answer.shift_in(bit_of(byte, 7 - done));
        }
        answer
    }

    // Twice the number, and the other where that is asked for.
    fn double_and_add(&self, other: &Scalar, is_odd: bool) -> Scalar
        ensures { result ≡ (2 * self.now + cond is_odd other.now 0) % order }
    {
        let double = self.shift_in(0);
        if is_odd { double.add(other) } else { double }
    }

    /// The number of the bytes, the lowest first, modulo L.
    pub fn reduce(bytes: &[u8]) -> Scalar
        ensures { result ≡ bytes_number bytes.now % order }
    {
        let mut answer = Scalar::zero();
        for done in 0..bytes.len() {
            answer = answer.shift_in_byte(bytes[bytes.len() - 1 - done]);
        }
        answer
    }

    /// The number below L.
    pub fn to_words(&self) -> Words
        ensures number { words_number result ≡ self.now }
        ensures below { words_number result < order }
    {
        self.words
    }

    /// The sum modulo L.
    pub fn add(&self, other: &Scalar) -> Scalar
        ensures { result ≡ (self.now + other.now) % order }
    {
        let (left, right) = (self.words, other.words);
        let (first, carry) = add_with_carry(left.first, right.first, 0);
        let (second, carry) = add_with_carry(left.second, right.second, carry);
        let (third, carry) = add_with_carry(left.third, right.third, carry);
        Scalar::reduce_once(Words {
            first,
            second,
            third,
            fourth: left.fourth + right.fourth + carry,
        })
    }

    /// The product with a number, which need not be below L.
    pub fn mul(&self, number: Words) -> Scalar
        ensures { result ≡ (self.now * words_number number) % order }
    {
        let mut answer = Scalar::zero();
        for done in 0..256u64 {
            answer = answer.double_and_add(self, number.bit(255 - done));
        }
        answer
    }
}
