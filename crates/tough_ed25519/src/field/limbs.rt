//! Numbers in limbs of 51 bits.

ghost use Rattle.std.specs.Prelude.{◌≡◌, ◌+◌, ◌*◌, ◌%◌, ◌^◌};
ghost use Rattle.tough_ed25519.specs.Field.{prime};
ghost use Rattle.tough_ed25519.specs.Limbs.{limbs_number, AreBelow, AreTight};
ghost use Rattle.tough_ed25519.specs.Words.{words_number};

use crate::field::words::Words;

/// A number in five limbs, the lowest first: each counts 2^51 of the one before.
#[derive(Clone, Copy)]
pub struct Limbs {
    pub first: u64,
    pub second: u64,
    pub third: u64,
    pub fourth: u64,
    pub fifth: u64,
}

// The lowest 51 bits.
const LOW: u64 = 0x7_ffff_ffff_ffff;

// Four times the prime, in limbs that are large enough to take any of 52 bits away.
const FOUR_PRIMES: Limbs = Limbs {
    first: 0x1f_ffff_ffff_ffb4,
    second: 0x1f_ffff_ffff_fffc,
    third: 0x1f_ffff_ffff_fffc,
    fourth: 0x1f_ffff_ffff_fffc,
    fifth: 0x1f_ffff_ffff_fffc,
};

impl Limbs {
    /// The limbs of a number of 256 bits.
    pub fn from_words(words: Words) -> Limbs
        ensures same { limbs_number result ≡ words_number words }
        ensures below { AreBelow (2 ^ 52) result }
    {
        Limbs {
            first: words.first & LOW,
            second: (words.first >> 51) + ((words.second & 0x3f_ffff_ffff) << 13),
            third: (words.second >> 38) + ((words.third & 0x1ff_ffff) << 26),
            fourth: (words.third >> 25) + ((words.fourth & 0xfff) << 39),
            fifth: words.fourth >> 12,
        }
    }

    /// The sum, with nothing carried.
    pub fn add(self, other: Limbs) -> Limbs
        requires left { AreBelow (2 ^ 52) self }
        requires right { AreBelow (2 ^ 52) other }
        ensures sum { limbs_number result ≡ limbs_number self + limbs_number other }
        ensures below { AreBelow (2 ^ 53) result }
    {
        Limbs {
            first: self.first + other.first,
            second: self.second + other.second,
            third: self.third + other.third,
            fourth: self.fourth + other.fourth,
            fifth: self.fifth + other.fifth,
        }
    }

    /// The difference and four times the prime, with nothing carried.
    pub fn sub(self, other: Limbs) -> Limbs
        requires left { AreBelow (2 ^ 52) self }
        requires right { AreBelow (2 ^ 52) other }
        ensures difference { limbs_number result + limbs_number other
            ≡ limbs_number self + 4 * prime }
        ensures below { AreBelow (2 ^ 54) result }
    {
        Limbs {
            first: self.first + FOUR_PRIMES.first - other.first,
            second: self.second + FOUR_PRIMES.second - other.second,
            third: self.third + FOUR_PRIMES.third - other.third,
            fourth: self.fourth + FOUR_PRIMES.fourth - other.fourth,
            fifth: self.fifth + FOUR_PRIMES.fifth - other.fifth,
        }
    }

    /// The same number modulo the prime, with what goes beyond 51 bits added to the next limb; 2^255 counts as 19.
    pub fn carry(self) -> Limbs
        requires { AreBelow (2 ^ 56) self }
        ensures same { limbs_number result % prime ≡ limbs_number self % prime }
        ensures tight { AreTight result }
    {
        let first = self.first + 19 * (self.fifth >> 51);
        let second = self.second + (first >> 51);
        let third = self.third + (second >> 51);
        let fourth = self.fourth + (third >> 51);
        Limbs {
            first: first & LOW,
            second: second & LOW,
            third: third & LOW,
            fourth: fourth & LOW,
            fifth: (self.fifth & LOW) + (fourth >> 51),
        }
    }

    /// The number modulo the prime: the prime is taken away once where the number isn't below it.
    pub fn reduce(self) -> Limbs
        requires { AreTight self }
        ensures least { limbs_number result ≡ limbs_number self % prime }
        ensures below { AreBelow (2 ^ 51) result }
    {
        let above = (self.first + 19) >> 51;
        let above = (self.second + above) >> 51;
        let above = (self.third + above) >> 51;
        let above = (self.fourth + above) >> 51;
        let above = (self.fifth + above) >> 51;
        let first = self.first + 19 * above;
        let second = self.second + (first >> 51);
        let third = self.third + (second >> 51);
        let fourth = self.fourth + (third >> 51);
        let fifth = self.fifth + (fourth >> 51);
        Limbs {
            first: first & LOW,
            second: second & LOW,
            third: third & LOW,
            fourth: fourth & LOW,
            fifth: fifth & LOW,
        }
    }

    /// The words of the number.
    pub fn to_words(self) -> Words
        requires { AreBelow (2 ^ 51) self }
        ensures { words_number result ≡ limbs_number self }
    {
        Words {
            first: self.first + ((self.second & 0x1fff) << 51),
            second: (self.second >> 13) + ((self.third & 0x3ff_ffff) << 38),
            third: (self.third >> 26) + ((self.fourth & 0x7f_ffff_ffff) << 25),
            fourth: (self.fourth >> 39) + (self.fifth << 12),
        }
    }
}
