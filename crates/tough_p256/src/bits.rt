//! The bits of numbers in words, and which numbers are the same.

ghost use Rattle.std.specs.Prelude.{◌≡◌, ◌/◌, ◌%◌, ◌^◌, ◌<◌, nat_eq};
ghost use Rattle.tough_modular.specs.Number.{number};

use tough_modular::is_below;

// The bit of this weight.
fn bit_of(word: u64, index: usize) -> bool
    requires { index < 64 }
    ensures { result ≡ nat_eq (word / 2 ^ index % 2) 1 }
{
    (word >> index) & 1 == 1
}

/// Whether the bit of weight `2^index` is set.
pub fn bit(words: &[u64; 4], index: usize) -> bool
    requires { index < 256 }
    ensures { result ≡ nat_eq (number words.now / 2 ^ index % 2) 1 }
{
    bit_of(words[index / 64], index % 64)
}

/// Whether it is the same number.
pub fn is_same(left: &[u64; 4], right: &[u64; 4]) -> bool
    ensures { result ≡ nat_eq (number left.now) (number right.now) }
{
    !is_below(left, right) && !is_below(right, left)
}
