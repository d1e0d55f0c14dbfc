//! Products modulo an odd number, without division (Koç, Acar, Kaliski 1996, CIOS).

ghost use Rattle.std.specs.Prelude.{◌≡◌, ℕ, ◌+◌, ◌*◌, ◌%◌, ◌^◌, ◌<◌, length, slice_index};
ghost use Rattle.tough_modular.specs.Number.{number, weight, number_with, IsModulus};

use crate::sums::{add_product, double, is_below, subtract};

// The lower and the higher word.
fn split(sum: u128) -> (u64, u64)
    ensures { result.0 + 2 ^ 64 * result.1 ≡ sum }
{
    ((sum & 0xffff_ffff_ffff_ffff) as u64, (sum >> 64) as u64)
}

// Takes the modulus away where the number is not below it.
pub fn reduce_once(total: &mut [u64], high: u64, modulus: &[u64])
    requires length { length total.old ≡ length modulus.now }
    requires below { number_with total.old high < 2 * number modulus.now }
    ensures { number total.new ≡ number_with total.old high % number modulus.now }
{
    if high == 0 && is_below(total, modulus) {
        return;
    }
    let _borrow = subtract(total, modulus);
}

// Sets each word to 0.
fn clear(total: &mut [u64])
    ensures { number total.new ≡ 0 }
{
    total.fill(0);
}

// Moves the words down by one place, sets the highest, and gives the one that was the lowest.
fn shift(total: &mut [u64], top: u64) -> u64
    requires { 0 < length total.old }
    ensures lowest { result ≡ slice_index total.old 0 }
    ensures moved { result + 2 ^ 64 * number total.new ≡ number_with total.old top }
{
    let lowest = total[0];
    let last = total.len() - 1;
    for i in 0..last {
        total[i] = total[i + 1];
    }
    total[last] = top;
    lowest
}

// Adds the product of a word and a number, and as many times the modulus as make it a multiple of 2^64, and divides by that.
fn add_and_divide(
    total: &mut [u64],
    high: u64,
    left: &[u64],
    factor: u64,
    modulus: &[u64],
    inverse: u64,
) -> u64
    requires left_length { length total.old ≡ length left.now }
    requires modulus_length { length total.old ≡ length modulus.now }
    requires modulus { IsModulus modulus.now inverse }
    requires left { number left.now < number modulus.now }
    requires below { number_with total.old high < 2 * number modulus.now }
    ensures quotient { (k : ℕ) × (2 ^ 64 * number_with total.new result
        ≡ number_with total.old high + factor * number left.now + k * number modulus.now) }
    ensures below { number_with total.new result < 2 * number modulus.now }
{
    let first = add_product(total, left, factor);
    let times = total[0].wrapping_mul(inverse);
    let second = add_product(total, modulus, times);
    let (low, top) = split(high as u128 + first as u128 + second as u128);
    let _none = shift(total, low);
    top
}

/// Sets the product modulo the modulus, divided by 2^64 for each word.
pub fn multiply(total: &mut [u64], left: &[u64], right: &[u64], modulus: &[u64], inverse: u64)
    requires left_length { length total.old ≡ length left.now }
    requires right_length { length total.old ≡ length right.now }
    requires modulus_length { length total.old ≡ length modulus.now }
    requires modulus { IsModulus modulus.now inverse }
    requires left { number left.now < number modulus.now }
    ensures product { (number total.new * weight (length modulus.now)) % number modulus.now
        ≡ (number left.now * number right.now) % number modulus.now }
    ensures below { number total.new < number modulus.now }
{
    clear(total);
    let mut high = 0;
    for i in 0..right.len() {
        high = add_and_divide(total, high, left, right[i], modulus, inverse);
    }
    reduce_once(total, high, modulus);
}

// Doubles the number modulo the modulus.
fn double_once(total: &mut [u64], modulus: &[u64])
    requires length { length total.old ≡ length modulus.now }
    requires below { number total.old < number modulus.now }
    ensures { number total.new ≡ (2 * number total.old) % number modulus.now }
{
    let high = double(total);
    reduce_once(total, high, modulus);
}

/// Doubles the number so many times modulo the modulus.
pub fn double_times(total: &mut [u64], times: usize, modulus: &[u64])
    requires length { length total.old ≡ length modulus.now }
    requires below { number total.old < number modulus.now }
    ensures double { number total.new ≡ (2 ^ times * number total.old) % number modulus.now }
    ensures below { number total.new < number modulus.now }
{
    for _done in 0..times {
        double_once(total, modulus);
    }
}
