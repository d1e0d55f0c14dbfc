//! Numbers modulo the prime.

ghost use Rattle.std.specs.Prelude.{◌≡◌, ◌+◌, ◌-◌, ◌*◌, ◌%◌, ◌<◌, nat_eq};
ghost use Rattle.tough_modular.specs.Number.{number};
ghost use Rattle.tough_p256.specs.Field.{prime, unit, plus, minus, times};
ghost use Rattle.tough_p256.specs.Order.{order};
ghost use Rattle.tough_p256.specs.Curve.{double_of, triple_of, curve_b, base};

use crate::bits::is_same;
use crate::residues::{minus_of, plus_of, times_of};
use std::marker::Model;

/// A number modulo the prime, as words that stand for 2^256 times it.
#[derive(Drop)]
pub struct Element {
    words: [u64; 4],
}

impl Model for Element {
    ghost use Rattle.std.specs.Prelude.{ℕ, ◌*◌, ◌%◌, ◌<◌};
    ghost use Rattle.tough_modular.specs.Number.{number};
    ghost use Rattle.tough_p256.specs.Field.{prime, unit};

    ghost Value = { ℕ };

    ghost view = { λ s. (number s.words * unit) % prime };

    ghost invariant = { λ s. number s.words < prime };
}

// The prime.
const PRIME: [u64; 4] = [0xffff_ffff_ffff_ffff, 0xffff_ffff, 0, 0xffff_ffff_0000_0001];

/// The prime.
pub fn prime() -> [u64; 4]
    ensures { number result ≡ prime }
{
    PRIME
}

/// What the prime is above the order.
pub fn room() -> [u64; 4]
    ensures { number result ≡ prime - order }
{
    [0x0c46_353d_039c_daae, 0x4319_0553_58e8_617b, 0, 0]
}

// The sum of the words.
fn plus_words(left: &[u64; 4], right: &[u64; 4]) -> [u64; 4]
    requires left { number left.now < prime }
    requires right { number right.now < prime }
    ensures sum { number result ≡ (number left.now + number right.now) % prime }
    ensures below { number result < prime }
{
    plus_of(left, right, &PRIME)
}

// The difference of the words.
fn minus_words(left: &[u64; 4], right: &[u64; 4]) -> [u64; 4]
    requires left { number left.now < prime }
    requires right { number right.now < prime }
    ensures difference { number result ≡ (number left.now + (prime - number right.now)) % prime }
    ensures below { number result < prime }
{
    minus_of(left, right, &PRIME)
}

// The product of the words, divided by 2^256.
fn times_words(left: &[u64; 4], right: &[u64; 4]) -> [u64; 4]
    requires left { number left.now < prime }
    ensures product { number result ≡ (number left.now * number right.now * unit) % prime }
    ensures below { number result < prime }
{
    times_of(left, right, &PRIME, 1)
}

// 2^512 modulo the prime.
fn enter() -> [u64; 4]
    ensures { number result
        ≡ 0x4fffffffdfffffffffffffffefffffffbffffffff0000000000000003 }
{
    [
        3,
        0xffff_fffb_ffff_ffff,
        0xffff_ffff_ffff_fffe,
        0x0000_0004_ffff_fffd,
    ]
}

// 1.
fn one() -> [u64; 4]
    ensures { number result ≡ 1 }
{
    [1, 0, 0, 0]
}

impl Element {
    /// The number of the words.
    pub fn from_words(words: &[u64; 4]) -> Element
        requires { number words.now < prime }
        ensures { result ≡ number words.now }
    {
        Element {
            words: times_words(&enter(), words),
        }
    }

    /// The words of the number below the prime.
    pub fn to_words(&self) -> [u64; 4]
        ensures number { number result ≡ self.now }
        ensures below { number result < prime }
    {
        times_words(&self.words, &one())
    }

    /// The sum modulo the prime.
    pub fn add(&self, other: &Element) -> Element
        ensures { result ≡ plus self.now other.now }
    {
        Element {
            words: plus_words(&self.words, &other.words),
        }
    }

    /// The difference modulo the prime.
    pub fn sub(&self, other: &Element) -> Element
        ensures { result ≡ minus self.now other.now }
    {
        Element {
            words: minus_words(&self.words, &other.words),
        }
    }

    /// The product modulo the prime.
    pub fn mul(&self, other: &Element) -> Element
        ensures { result ≡ times self.now other.now }
    {
        Element {
            words: times_words(&self.words, &other.words),
        }
    }

    /// Twice the number.
    pub fn double(&self) -> Element
        ensures { result ≡ double_of self.now }
    {
        self.add(self)
    }

    /// Three times the number.
    pub fn triple(&self) -> Element
        ensures { result ≡ triple_of self.now }
    {
        self.add(self).add(self)
    }

    /// Whether it is the same number modulo the prime.
    pub fn is_equal(&self, other: &Element) -> bool
        ensures { result ≡ nat_eq self.now other.now }
    {
        is_same(&self.to_words(), &other.to_words())
    }

    /// 0.
    pub fn zero() -> Element
        ensures { result ≡ 0 }
    {
        Element {
            words: [0, 0, 0, 0],
        }
    }

    /// 1.
    pub fn one() -> Element
        ensures { result ≡ 1 }
    {
        Element {
            words: [1, 0xffff_ffff_0000_0000, 0xffff_ffff_ffff_ffff, 0xffff_fffe],
        }
    }

    /// 3.
    pub fn three() -> Element
        ensures { result ≡ 3 }
    {
        Element {
            words: [
                3,
                0xffff_fffd_0000_0000,
                0xffff_ffff_ffff_ffff,
                0x2_ffff_fffc,
            ],
        }
    }

    /// The order of the base point.
    pub fn order() -> Element
        ensures { result ≡ order }
    {
        Element {
            words: [
                0x9ad1_6948_3335_f568,
                0x89b1_0544_63fe_9931,
                0x9c01_66ce_652e_96b7,
                0x9864_8c20_0fe3_0feb,
            ],
        }
    }

    /// The constant b of the curve.
    pub fn curve_b() -> Element
        ensures { result ≡ curve_b }
    {
        Element {
            words: [
                0xd89c_df62_29c4_bddf,
                0xacf0_05cd_7884_3090,
                0xe5a2_20ab_f721_2ed6,
                0xdc30_061d_0487_4834,
            ],
        }
    }

    /// The first coordinate of the base point.
    pub fn base_x() -> Element
        ensures { result ≡ base.x }
    {
        Element {
            words: [
                0x79e7_30d4_18a9_143c,
                0x75ba_95fc_5fed_b601,
                0x79fb_732b_7762_2510,
                0x1890_5f76_a537_55c6,
            ],
        }
    }

    /// The second coordinate of the base point.
    pub fn base_y() -> Element
        ensures { result ≡ base.y }
    {
        Element {
            words: [
                0xddf2_5357_ce95_560a,
                0x8b4a_b8e4_ba19_e45c,
                0xd2e8_8688_dd21_f325,
                0x8571_ff18_2588_5d85,
            ],
        }
    }
}
