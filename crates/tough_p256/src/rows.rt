//! Steps of sums and products of numbers in four words, each written out.

ghost use Rattle.std.specs.Prelude.{◌≡◌, ℕ, ◌+◌, ◌*◌, ◌%◌, ◌^◌, ◌<◌, length, slice_index};
ghost use Rattle.tough_modular.specs.Number.{number, number_with, weight, IsModulus};

use tough_modular::{add_product_to, sub_with_borrow};

// The lowest 64 bits.
const LOW: u128 = 0xffff_ffff_ffff_ffff;

// The lower and the higher word of the sum of three.
fn sum_of_three(first: u64, second: u64, third: u64) -> (u64, u64)
    ensures { result.0 + 2 ^ 64 * result.1 ≡ first + second + third }
{
    let sum = first as u128 + second as u128 + third as u128;
    ((sum & LOW) as u64, (sum >> 64) as u64)
}

/// The sum of a number and the product of a word and a number, and what is carried on.
pub fn add_row(total: &[u64; 4], words: &[u64; 4], factor: u64) -> ([u64; 4], u64)
    ensures sum { number result.0 + weight 4 * result.1
        ≡ number total.now + factor * number words.now }
    ensures length { length result.0 ≡ 4 }
    ensures low { slice_index result.0 0 < 2 ^ 64 }
{
    let (first, carry) = add_product_to(total[0], words[0], factor, 0);
    let (second, carry) = add_product_to(total[1], words[1], factor, carry);
    let (third, carry) = add_product_to(total[2], words[2], factor, carry);
    let (fourth, carry) = add_product_to(total[3], words[3], factor, carry);
    ([first, second, third, fourth], carry)
}

/// The difference of two numbers, and what is borrowed for it.
pub fn sub_row(left: &[u64; 4], right: &[u64; 4]) -> ([u64; 4], u64)
    ensures difference { number result.0 + number right.now
        ≡ number left.now + 2 ^ 256 * result.1 }
    ensures below { number result.0 < 2 ^ 256 }
    ensures borrow { result.1 < 2 }
{
    let (first, borrow) = sub_with_borrow(left[0], right[0], 0);
    let (second, borrow) = sub_with_borrow(left[1], right[1], borrow);
    let (third, borrow) = sub_with_borrow(left[2], right[2], borrow);
    let (fourth, borrow) = sub_with_borrow(left[3], right[3], borrow);
    ([first, second, third, fourth], borrow)
}

// Moves the words down by one place, and sets the highest.
fn shift_row(total: &[u64; 4], top: u64) -> [u64; 4]
    ensures moved { slice_index total.now 0 + 2 ^ 64 * number result
        ≡ number total.now + weight 4 * top }
    ensures length { length result ≡ 4 }
{
    [total[1], total[2], total[3], top]
}

/// Adds the product of a word and a number, and as many times the modulus as make it a multiple of 2^64, and divides by that.
pub fn step(
    total: &[u64; 4],
    high: u64,
    left: &[u64; 4],
    factor: u64,
    modulus: &[u64; 4],
    inverse: u64,
) -> ([u64; 4], u64)
    requires modulus { IsModulus modulus.now inverse }
    requires left { number left.now < number modulus.now }
    requires below { number_with total.now high < 2 * number modulus.now }
    ensures quotient { (k : ℕ) × (2 ^ 64 * number_with result.0 result.1
        ≡ number_with total.now high + factor * number left.now + k * number modulus.now) }
    ensures below { number_with result.0 result.1 < 2 * number modulus.now }
{
    let (first, carry) = add_row(total, left, factor);
    let times = first[0].wrapping_mul(inverse);
    let (second, more) = add_row(&first, modulus, times);
    let (low, top) = sum_of_three(high, carry, more);
    (shift_row(&second, low), top)
}

/// Takes the modulus away where the number is not below it.
pub fn reduce(total: &[u64; 4], high: u64, modulus: &[u64; 4]) -> [u64; 4]
    requires below { number_with total.now high < 2 * number modulus.now }
    ensures { number result ≡ number_with total.now high % number modulus.now }
{
    let (difference, borrow) = sub_row(total, modulus);
    if high == 0 && borrow == 1 {
        return *total;
    }
    difference
}
