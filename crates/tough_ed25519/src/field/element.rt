//! Numbers modulo the prime.

ghost use Rattle.std.specs.Prelude.{◌≡◌, ◌%◌, ◌<◌, nat_eq};
ghost use Rattle.tough_ed25519.specs.Field.{prime, plus, minus, times};
ghost use Rattle.tough_ed25519.specs.Words.{words_number};

use crate::field::limbs::Limbs;
use crate::field::sums::Sums;
use crate::field::words::Words;
use std::marker::Model;

/// A number modulo the prime.
#[derive(Drop)]
pub struct Element {
    limbs: Limbs,
}

impl Model for Element {
    ghost use Rattle.std.specs.Prelude.{ℕ, ◌%◌, ◌^◌};
    ghost use Rattle.tough_ed25519.specs.Field.{prime};
    ghost use Rattle.tough_ed25519.specs.Limbs.{limbs_number, AreBelow};

    ghost Value = { ℕ };

    ghost view = { λ s. limbs_number s.limbs % prime };

    ghost invariant = { λ s. AreBelow (2 ^ 52) s.limbs };
}

impl Element {
    /// A number of 256 bits modulo the prime.
    pub fn from_words(words: Words) -> Element
        ensures { result ≡ words_number words % prime }
    {
        Element {
            limbs: Limbs::from_words(words),
        }
    }

    /// A number of 64 bits.
    pub fn from_u64(number: u64) -> Element
        ensures { result ≡ number }
    {
        Element::from_words(Words::from_u64(number))
    }

    /// The number below the prime.
    pub fn to_words(&self) -> Words
        ensures number { words_number result ≡ self.now }
        ensures below { words_number result < prime }
    {
        self.limbs.carry().reduce().to_words()
    }

    /// Whether it is the same number modulo the prime.
    pub fn is_equal(&self, other: &Element) -> bool
        ensures { result ≡ nat_eq self.now other.now }
    {
        self.to_words().is_equal(other.to_words())
    }

    /// Whether the number below the prime is odd.
    pub fn is_odd(&self) -> bool
        ensures { result ≡ nat_eq (self.now % 2) 1 }
    {
        self.to_words().first & 1 == 1
    }

    /// The same number.
    pub fn copy(&self) -> Element
        ensures { result ≡ self.now }
    {
        Element { limbs: self.limbs }
    }

    /// The sum modulo the prime.
    pub fn add(&self, other: &Element) -> Element
        ensures { result ≡ plus self.now other.now }
    {
        Element {
            limbs: self.limbs.add(other.limbs).carry(),
        }
    }

    /// The difference modulo the prime.
    pub fn sub(&self, other: &Element) -> Element
        ensures { result ≡ minus self.now other.now }
    {
        Element {
            limbs: self.limbs.sub(other.limbs).carry(),
        }
    }

    /// The number that adds up to 0 with this.
    pub fn negate(&self) -> Element
        ensures { result ≡ minus 0 self.now }
    {
        Element::from_u64(0).sub(self)
    }

    /// The product modulo the prime.
    pub fn mul(&self, other: &Element) -> Element
        ensures { result ≡ times self.now other.now }
    {
        Element {
            limbs: Sums::of_product(self.limbs, other.limbs).carry(),
        }
    }

    /// The product with itself, by fewer products of limbs.
    pub fn square(&self) -> Element
        ensures { result ≡ times self.now self.now }
    {
        Element {
            limbs: Sums::of_square(self.limbs).carry(),
        }
    }
}
