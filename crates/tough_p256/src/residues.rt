//! Sums, differences and products of numbers of 256 bits modulo an odd number.

ghost use Rattle.std.specs.Prelude.{◌≡◌, ℕ, ◌+◌, ◌-◌, ◌*◌, ◌%◌, ◌<◌};
ghost use Rattle.tough_modular.specs.Number.{number, weight, IsModulus};

use crate::rows::{add_row, reduce, step, sub_row};

/// The sum.
pub fn plus_of(left: &[u64; 4], right: &[u64; 4], modulus: &[u64; 4]) -> [u64; 4]
    requires left { number left.now < number modulus.now }
    requires right { number right.now < number modulus.now }
    ensures sum { number result ≡ (number left.now + number right.now) % number modulus.now }
    ensures below { number result < number modulus.now }
{
    let (total, high) = add_row(left, right, 1);
    reduce(&total, high, modulus)
}

/// The difference.
pub fn minus_of(left: &[u64; 4], right: &[u64; 4], modulus: &[u64; 4]) -> [u64; 4]
    requires left { number left.now < number modulus.now }
    requires right { number right.now < number modulus.now }
    ensures difference { number result
        ≡ (number left.now + (number modulus.now - number right.now)) % number modulus.now }
    ensures below { number result < number modulus.now }
{
    let (opposite, _borrow) = sub_row(modulus, right);
    let (total, high) = add_row(&opposite, left, 1);
    reduce(&total, high, modulus)
}

/// The product, divided by 2^256.
pub fn times_of(left: &[u64; 4], right: &[u64; 4], modulus: &[u64; 4], inverse: u64) -> [u64; 4]
    requires modulus { IsModulus modulus.now inverse }
    requires left { number left.now < number modulus.now }
    ensures product { (u : ℕ) → (weight 4 * u) % number modulus.now ≡ 1
        → number result ≡ (number left.now * number right.now * u) % number modulus.now }
    ensures below { number result < number modulus.now }
{
    let mut total = [0, 0, 0, 0];
    let mut high = 0;
    for i in 0..4usize {
        let (next, carry) = step(&total, high, left, right[i], modulus, inverse);
        total = next;
        high = carry;
    }
    reduce(&total, high, modulus)
}
