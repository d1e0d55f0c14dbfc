//! Products of numbers in limbs.

ghost use Rattle.std.specs.Prelude.{◌≡◌, ◌*◌, ◌%◌, ◌^◌, ◌<◌};
ghost use Rattle.tough_ed25519.specs.Field.{prime};
ghost use Rattle.tough_ed25519.specs.Limbs.{limbs_number, AreBelow};
ghost use Rattle.tough_ed25519.specs.Sums.{sums_number, AreSumsBelow};

use crate::field::limbs::Limbs;

/// The sums of products of limbs that count alike, before anything is carried.
#[derive(Clone, Copy)]
pub struct Sums {
    pub first: u128,
    pub second: u128,
    pub third: u128,
    pub fourth: u128,
    pub fifth: u128,
}

// The lowest 51 bits.
const LOW: u128 = 0x7_ffff_ffff_ffff;

// The whole product.
fn mul_wide(left: u64, right: u64) -> u128
    requires left { left < 2 ^ 54 }
    requires right { right < 2 ^ 54 }
    ensures product { result ≡ left * right }
    ensures below { result < 2 ^ 108 }
{
    left as u128 * right as u128
}

impl Sums {
    /// The sums that a product modulo the prime has; 2^255 counts as 19.
    pub fn of_product(left: Limbs, right: Limbs) -> Sums
        requires left { AreBelow (2 ^ 52) left }
        requires right { AreBelow (2 ^ 52) right }
        ensures product { sums_number result % prime
            ≡ (limbs_number left * limbs_number right) % prime }
        ensures below { AreSumsBelow (2 ^ 115) result }
    {
        Sums {
            first: mul_wide(left.first, right.first)
                + 19 * (mul_wide(left.second, right.fifth)
                    + mul_wide(left.third, right.fourth)
                    + mul_wide(left.fourth, right.third)
                    + mul_wide(left.fifth, right.second)),
            second: mul_wide(left.first, right.second)
                + mul_wide(left.second, right.first)
                + 19 * (mul_wide(left.third, right.fifth)
                    + mul_wide(left.fourth, right.fourth)
                    + mul_wide(left.fifth, right.third)),
            third: mul_wide(left.first, right.third)
                + mul_wide(left.second, right.second)
                + mul_wide(left.third, right.first)
                + 19 * (mul_wide(left.fourth, right.fifth) + mul_wide(left.fifth, right.fourth)),
            fourth: mul_wide(left.first, right.fourth)
                + mul_wide(left.second, right.third)
                + mul_wide(left.third, right.second)
                + mul_wide(left.fourth, right.first)
                + 19 * mul_wide(left.fifth, right.fifth),
            fifth: mul_wide(left.first, right.fifth)
                + mul_wide(left.second, right.fourth)
                + mul_wide(left.third, right.third)
                + mul_wide(left.fourth, right.second)
                + mul_wide(left.fifth, right.first),
        }
    }

    /// The sums that a square modulo the prime has.
    pub fn of_square(root: Limbs) -> Sums
        requires { AreBelow (2 ^ 52) root }
        ensures square { sums_number result % prime
            ≡ (limbs_number root * limbs_number root) % prime }
        ensures below { AreSumsBelow (2 ^ 115) result }
    {
        let Limbs {
            first,
            second,
            third,
            fourth,
            fifth,
        } = root;
        Sums {
            first: mul_wide(first, first)
                + 38 * (mul_wide(second, fifth) + mul_wide(third, fourth)),
            second: 2 * mul_wide(first, second)
                + 38 * mul_wide(third, fifth)
                + 19 * mul_wide(fourth, fourth),
            third: 2 * mul_wide(first, third)
                + mul_wide(second, second)
                + 38 * mul_wide(fourth, fifth),
            fourth: 2 * (mul_wide(first, fourth) + mul_wide(second, third))
                + 19 * mul_wide(fifth, fifth),
            fifth: 2 * (mul_wide(first, fifth) + mul_wide(second, fourth)) + mul_wide(third, third),
        }
    }

    /// The limbs of the number modulo the prime.
    pub fn carry(self) -> Limbs
        requires { AreSumsBelow (2 ^ 115) self }
        ensures same { limbs_number result % prime ≡ sums_number self % prime }
        ensures below { AreBelow (2 ^ 52) result }
    {
        let second = self.second + (self.first >> 51);
        let third = self.third + (second >> 51);
        let fourth = self.fourth + (third >> 51);
        let fifth = self.fifth + (fourth >> 51);
        let first = (self.first & LOW) + 19 * (fifth >> 51);
        Limbs {
            first: (first & LOW) as u64,
            second: ((second & LOW) + (first >> 51)) as u64,
            third: (third & LOW) as u64,
            fourth: (fourth & LOW) as u64,
            fifth: (fifth & LOW) as u64,
        }
    }
}
