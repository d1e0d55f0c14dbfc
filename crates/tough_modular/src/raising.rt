//! Powers modulo an odd number.

ghost use Rattle.std.specs.Prelude.{◌≡◌, ℕ, ◌-◌, ◌*◌, ◌/◌, ◌%◌, ◌^◌, ◌<◌, ◌≤◌, length, cond, ◌==◌};
ghost use Rattle.tough_modular.specs.Number.{number, weight, IsModulus, IsForm};

use crate::inverse::inverse_of;
use crate::montgomery::{double_times, multiply};

// Multiplies by a number, and divides by 2^64 for each word.
fn multiply_by(total: &mut [u64], other: &[u64], modulus: &[u64], inverse: u64)
    requires most { length total.old ≤ 128 }
    requires other_length { length total.old ≡ length other.now }
    requires modulus_length { length total.old ≡ length modulus.now }
    requires modulus { IsModulus modulus.now inverse }
    requires below { number total.old < number modulus.now }
    ensures product { (number total.new * weight (length modulus.now)) % number modulus.now
        ≡ (number total.old * number other.now) % number modulus.now }
    ensures below { number total.new < number modulus.now }
{
    let mut words = [0; 128];
    let product = &mut words[..total.len()];
    multiply(product, total, other, modulus, inverse);
    total.copy_from_slice(product);
}

// The square, divided by 2^64 for each word.
fn square(total: &mut [u64], modulus: &[u64], inverse: u64)
    requires most { length total.old ≤ 128 }
    requires modulus_length { length total.old ≡ length modulus.now }
    requires modulus { IsModulus modulus.now inverse }
    requires below { number total.old < number modulus.now }
    ensures product { (number total.new * weight (length modulus.now)) % number modulus.now
        ≡ (number total.old * number total.old) % number modulus.now }
    ensures below { number total.new < number modulus.now }
{
    let mut words = [0; 128];
    let product = &mut words[..total.len()];
    multiply(product, total, total, modulus, inverse);
    total.copy_from_slice(product);
}

// The form of the square, and of its product with the base where that is asked for.
fn square_and_multiply(total: &mut [u64], base: &[u64], is_odd: bool, modulus: &[u64], inverse: u64)
    requires most { length total.old ≤ 128 }
    requires base_length { length total.old ≡ length base.now }
    requires modulus_length { length total.old ≡ length modulus.now }
    requires modulus { IsModulus modulus.now inverse }
    requires below { number total.old < number modulus.now }
    ensures form { (u v : ℕ) → IsForm u total.old modulus.now → IsForm v base.now modulus.now
        → IsForm (u * u * cond is_odd v 1) total.new modulus.now }
    ensures below { number total.new < number modulus.now }
{
    square(total, modulus, inverse);
    if is_odd {
        multiply_by(total, base, modulus, inverse);
    }
}

// Sets 1 at this place, and 0 elsewhere.
fn set_one(total: &mut [u64], place: usize)
    requires { place < length total.old }
    ensures { number total.new ≡ weight place }
{
    total.fill(0);
    total[place] = 1;
}

// Sets the form of 2^64 for each word.
fn set_weight(total: &mut [u64], modulus: &[u64], inverse: u64)
    requires most { length total.old ≤ 128 }
    requires modulus_length { length total.old ≡ length modulus.now }
    requires modulus { IsModulus modulus.now inverse }
    requires top { weight (length modulus.now - 1) < number modulus.now }
    ensures form { IsForm (weight (length modulus.now)) total.new modulus.now }
    ensures below { number total.new < number modulus.now }
{
    set_one(total, total.len() - 1);
    double_times(total, total.len() + 64, modulus);
    for _done in 0..6u64 {
        square(total, modulus, inverse);
    }
}

// The number of which this is the form.
fn leave_form(total: &mut [u64], modulus: &[u64], inverse: u64)
    requires most { length total.old ≤ 128 }
    requires modulus_length { length total.old ≡ length modulus.now }
    requires modulus { IsModulus modulus.now inverse }
    requires below { number total.old < number modulus.now }
    ensures { (v : ℕ) → IsForm v total.old modulus.now → number total.new ≡ v % number modulus.now }
{
    let mut words = [0; 128];
    let one = &mut words[..total.len()];
    set_one(one, 0);
    multiply_by(total, one, modulus, inverse);
}

// Whether the bit of this weight is set.
fn bit_of(word: u64, index: u32) -> bool
    requires { index < 64 }
    ensures { result ≡ (word / 2 ^ index % 2 == 1) }
{
    (word >> index) & 1 == 1
}

// The place of the highest bit that is set.
fn highest_bit(word: u64) -> u32
    requires { 0 < word }
    ensures bit { word / 2 ^ result ≡ 1 }
    ensures most { result < 64 }
{
    63 - word.leading_zeros()
}

// The form of the power. The base is the form itself, which the steps need beside it.
fn raise(total: &mut [u64], base: &[u64], exponent: u64, modulus: &[u64], inverse: u64)
    requires most { length total.old ≤ 128 }
    requires base { total.old ≡ base.now }
    requires exponent { 0 < exponent }
    requires modulus_length { length total.old ≡ length modulus.now }
    requires modulus { IsModulus modulus.now inverse }
    requires below { number total.old < number modulus.now }
    ensures form { (v : ℕ) → IsForm v total.old modulus.now
        → IsForm (v ^ exponent) total.new modulus.now }
    ensures below { number total.new < number modulus.now }
{
    let highest = highest_bit(exponent);
    for done in 0..highest {
        square_and_multiply(
            total,
            base,
            bit_of(exponent, highest - 1 - done),
            modulus,
            inverse,
        );
    }
}

/// The power modulo an odd number, whose highest word is not 0.
pub fn power(words: &mut [u64], exponent: u64, modulus: &[u64])
    requires length { length words.old ≡ length modulus.now }
    requires some { 0 < length modulus.now }
    requires most { length modulus.now ≤ 128 }
    requires odd { number modulus.now % 2 ≡ 1 }
    requires top { weight (length modulus.now - 1) < number modulus.now }
    requires below { number words.old < number modulus.now }
    requires exponent { 0 < exponent }
    ensures { number words.new ≡ number words.old ^ exponent % number modulus.now }
{
    let inverse = inverse_of(modulus[0]);
    let mut buffer = [0; 128];
    let base = &mut buffer[..words.len()];
    set_weight(base, modulus, inverse);
    multiply_by(base, words, modulus, inverse);
    words.copy_from_slice(base);
    raise(words, base, exponent, modulus, inverse);
    leave_form(words, modulus, inverse);
}
