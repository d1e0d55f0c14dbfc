//! Numbers of 256 bits.

ghost use Rattle.std.specs.Prelude.{◌≡◌, ◌+◌, ◌*◌, ◌/◌, ◌%◌, ◌^◌, ◌<◌, nat_eq, nat_lt};
ghost use Rattle.tough_ed25519.specs.Words.{words_number};

/// A number below 2^256, in words of 64 bits, the lowest first.
#[derive(Clone, Copy)]
pub struct Words {
    pub first: u64,
    pub second: u64,
    pub third: u64,
    pub fourth: u64,
}

// Whether the bit of this weight is set.
fn bit_of(word: u64, index: u64) -> bool
    requires { index < 64 }
    ensures { result ≡ nat_eq (word / 2 ^ index % 2) 1 }
{
    (word >> index) & 1 == 1
}

// Whether a number of two words, the lower first, is below another.
fn is_pair_below(low: u64, high: u64, other_low: u64, other_high: u64) -> bool
    ensures { result ≡ nat_lt (low + 2 ^ 64 * high) (other_low + 2 ^ 64 * other_high) }
{
    high < other_high || (high == other_high && low < other_low)
}

impl Words {
    /// A number of one word.
    pub fn from_u64(number: u64) -> Words
        ensures { words_number result ≡ number }
    {
        Words {
            first: number,
            second: 0,
            third: 0,
            fourth: 0,
        }
    }

    /// Whether it is the same number.
    pub fn is_equal(self, other: Words) -> bool
        ensures { result ≡ nat_eq (words_number self) (words_number other) }
    {
        self.first == other.first
            && self.second == other.second
            && self.third == other.third
            && self.fourth == other.fourth
    }

    /// Whether it is the lesser number.
    pub fn is_below(self, other: Words) -> bool
        ensures { result ≡ nat_lt (words_number self) (words_number other) }
    {
        let high = is_pair_below(self.third, self.fourth, other.third, other.fourth);
        let low = is_pair_below(self.first, self.second, other.first, other.second);
        high || (self.third == other.third && self.fourth == other.fourth && low)
    }

    /// Whether the bit of weight `2^index` is set.
    pub fn bit(self, index: u64) -> bool
        requires { index < 256 }
        ensures { result ≡ nat_eq (words_number self / 2 ^ index % 2) 1 }
    {
        if index < 64 {
            bit_of(self.first, index)
        } else if index < 128 {
            bit_of(self.second, index - 64)
        } else if index < 192 {
            bit_of(self.third, index - 128)
        } else {
            bit_of(self.fourth, index - 192)
        }
    }
}
