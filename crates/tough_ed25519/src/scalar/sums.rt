//! Sums and differences of words.

ghost use Rattle.std.specs.Prelude.{◌≡◌, ◌+◌, ◌*◌, ◌%◌, ◌^◌, ◌<◌, ◌≤◌};
ghost use Rattle.tough_ed25519.specs.Words.{words_number};
ghost use Rattle.tough_ed25519.specs.Order.{order};

use crate::field::Words;

/// L.
pub const ORDER: Words = Words {
    first: 0x5812_631a_5cf5_d3ed,
    second: 0x14de_f9de_a2f7_9cd6,
    third: 0,
    fourth: 0x1000_0000_0000_0000,
};

/// The sum of two words and a carry, and what is carried on.
pub fn add_with_carry(left: u64, right: u64, carry: u64) -> (u64, u64)
    requires { carry < 2 }
    ensures sum { result.0 + 2 ^ 64 * result.1 ≡ left + right + carry }
    ensures carry { result.1 < 2 }
{
    let sum = left as u128 + right as u128 + carry as u128;
    ((sum & 0xffff_ffff_ffff_ffff) as u64, (sum >> 64) as u64)
}

// The difference of two words and a borrow, and what is borrowed from the next.
fn sub_with_borrow(left: u64, right: u64, borrow: u64) -> (u64, u64)
    requires { borrow < 2 }
    ensures difference { result.0 + right + borrow ≡ left + 2 ^ 64 * result.1 }
    ensures borrow { result.1 < 2 }
{
    let difference = left as u128 + (1 << 64) - right as u128 - borrow as u128;
    (
        (difference & 0xffff_ffff_ffff_ffff) as u64,
        1 - (difference >> 64) as u64,
    )
}

/// What is left without L.
pub fn sub_order(words: Words) -> Words
    requires { order ≤ words_number words }
    ensures { words_number result + order ≡ words_number words }
{
    let (first, borrow) = sub_with_borrow(words.first, ORDER.first, 0);
    let (second, borrow) = sub_with_borrow(words.second, ORDER.second, borrow);
    let (third, borrow) = sub_with_borrow(words.third, ORDER.third, borrow);
    Words {
        first,
        second,
        third,
        fourth: words.fourth - ORDER.fourth - borrow,
    }
}
