//! Numbers modulo the order.

ghost use Rattle.std.specs.Prelude.{◌≡◌, ◌+◌, ◌-◌, ◌*◌, ◌%◌, ◌<◌};
ghost use Rattle.tough_modular.specs.Number.{number};
ghost use Rattle.tough_p256.specs.Order.{order, order_unit, sum, product, product_if, power, inverse};

use crate::bits::bit;
use crate::residues::{plus_of, times_of};
use std::marker::Model;

/// A number modulo the order, as words that stand for 2^256 times it.
#[derive(Drop)]
pub struct Scalar {
    words: [u64; 4],
}

impl Model for Scalar {
    ghost use Rattle.std.specs.Prelude.{ℕ, ◌*◌, ◌%◌, ◌<◌};
    ghost use Rattle.tough_modular.specs.Number.{number};
    ghost use Rattle.tough_p256.specs.Order.{order, order_unit};

    ghost Value = { ℕ };

    ghost view = { λ s. (number s.words * order_unit) % order };

    ghost invariant = { λ s. number s.words < order };
}

// The order.
const ORDER: [u64; 4] = [
    0xf3b9_cac2_fc63_2551,
    0xbce6_faad_a717_9e84,
    0xffff_ffff_ffff_ffff,
    0xffff_ffff_0000_0000,
];

/// The order.
pub fn order() -> [u64; 4]
    ensures { number result ≡ order }
{
    ORDER
}

// The sum of the words.
fn plus_words(left: &[u64; 4], right: &[u64; 4]) -> [u64; 4]
    requires left { number left.now < order }
    requires right { number right.now < order }
    ensures sum { number result ≡ (number left.now + number right.now) % order }
    ensures below { number result < order }
{
    plus_of(left, right, &ORDER)
}

// The product of the words, divided by 2^256.
fn times_words(left: &[u64; 4], right: &[u64; 4]) -> [u64; 4]
    requires left { number left.now < order }
    ensures product { number result ≡ (number left.now * number right.now * order_unit) % order }
    ensures below { number result < order }
{
    times_of(left, right, &ORDER, 0xccd1_c8aa_ee00_bc4f)
}

// 2^512 modulo the order.
fn enter() -> [u64; 4]
    ensures { number result
        ≡ 0x66e12d94f3d956202845b2392b6bec594699799c49bd6fa683244c95be79eea2 }
{
    [
        0x8324_4c95_be79_eea2,
        0x4699_799c_49bd_6fa6,
        0x2845_b239_2b6b_ec59,
        0x66e1_2d94_f3d9_5620,
    ]
}

// 1.
fn one() -> [u64; 4]
    ensures { number result ≡ 1 }
{
    [1, 0, 0, 0]
}

// The order without 2, by which an inverse is a power.
fn inverse_power() -> [u64; 4]
    ensures { number result ≡ order - 2 }
{
    [
        0xf3b9_cac2_fc63_254f,
        0xbce6_faad_a717_9e84,
        0xffff_ffff_ffff_ffff,
        0xffff_ffff_0000_0000,
    ]
}

impl Scalar {
    /// The number of the words.
    pub fn from_words(words: &[u64; 4]) -> Scalar
        requires { number words.now < order }
        ensures { result ≡ number words.now }
    {
        Scalar::reduce(words)
    }

    /// The number of the words, modulo the order.
    pub fn reduce(words: &[u64; 4]) -> Scalar
        ensures { result ≡ number words.now % order }
    {
        Scalar {
            words: times_words(&enter(), words),
        }
    }

    /// The words of the number below the order.
    pub fn to_words(&self) -> [u64; 4]
        ensures number { number result ≡ self.now }
        ensures below { number result < order }
    {
        times_words(&self.words, &one())
    }

    // 1.
    fn one() -> Scalar
        ensures { result ≡ 1 }
    {
        Scalar {
            words: [0x0c46_353d_039c_daaf, 0x4319_0552_58e8_617b, 0, 0xffff_ffff],
        }
    }

    /// The sum modulo the order.
    pub fn add(&self, other: &Scalar) -> Scalar
        ensures { result ≡ sum self.now other.now }
    {
        Scalar {
            words: plus_words(&self.words, &other.words),
        }
    }

    /// The product modulo the order.
    pub fn mul(&self, other: &Scalar) -> Scalar
        ensures { result ≡ product self.now other.now }
    {
        Scalar {
            words: times_words(&self.words, &other.words),
        }
    }

    // The square, times the base where that is asked for.
    fn square_and_mul(&self, base: &Scalar, is_odd: bool) -> Scalar
        ensures { result ≡ product_if is_odd base.now (product self.now self.now) }
    {
        let square = self.mul(self);
        if is_odd { square.mul(base) } else { square }
    }

    // The power by a number below 2^256.
    fn pow(&self, exponent: &[u64; 4]) -> Scalar
        ensures { result ≡ power 256 (number exponent.now) self.now }
    {
        let mut answer = Scalar::one();
        for done in 0..256usize {
            answer = answer.square_and_mul(self, bit(exponent, 255 - done));
        }
        answer
    }

    /// The inverse, and 0 of 0.
    #[tactic(auto, unfolding(crate::specs::Order::inverse))]
    pub fn invert(&self) -> Scalar
        ensures { result ≡ inverse self.now }
    {
        self.pow(&inverse_power())
    }
}
