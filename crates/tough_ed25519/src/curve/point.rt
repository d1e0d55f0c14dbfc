//! Points, their sums and their multiples.

ghost use Rattle.std.specs.Prelude.{◌≡◌, ◌≤◌};
ghost use Rattle.tough_ed25519.specs.Field.{times, inverse};
ghost use Rattle.tough_ed25519.specs.Words.{words_number};
ghost use Rattle.tough_ed25519.specs.Curve.{curve_d, affine, base, neutral, opposite, add, double, add_if, multiple};

use crate::field::{Element, Words};
use std::marker::Model;

/// A point of the curve, in extended coordinates (RFC 8032, 5.1.4).
#[derive(Drop)]
pub struct Point {
    x: Element,
    y: Element,
    z: Element,
    t: Element,
}

impl Model for Point {
    ghost use Rattle.tough_ed25519.specs.Curve.{Coordinates};

    ghost Value = { Coordinates };

    ghost view = { λ s. record { x = s.x; y = s.y; z = s.z; t = s.t } };
}

const CURVE_D: Words = Words {
    first: 0x75eb_4dca_1359_78a3,
    second: 0x0070_0a4d_4141_d8ab,
    third: 0x8cc7_4079_7779_e898,
    fourth: 0x5203_6cee_2b6f_fe73,
};

const BASE_X: Words = Words {
    first: 0xc956_2d60_8f25_d51a,
    second: 0x692c_c760_9525_a7b2,
    third: 0xc0a4_e231_fdd6_dc5c,
    fourth: 0x2169_36d3_cd6e_53fe,
};

const BASE_Y: Words = Words {
    first: 0x6666_6666_6666_6658,
    second: 0x6666_6666_6666_6666,
    third: 0x6666_6666_6666_6666,
    fourth: 0x6666_6666_6666_6666,
};

/// The constant d of the curve.
pub fn curve_d() -> Element
    ensures { result ≡ curve_d }
{
    Element::from_words(CURVE_D)
}

impl Point {
    /// The point of these coordinates of its own.
    pub fn from_affine(x: Element, y: Element) -> Point
        ensures { result ≡ affine x y }
    {
        let t = x.mul(&y);
        Point {
            x,
            y,
            z: Element::from_u64(1),
            t,
        }
    }

    /// Its coordinates of its own, `x / z` and `y / z`.
    pub fn to_affine(&self) -> (Element, Element)
        ensures x { result.0 ≡ times self.now.x (inverse self.now.z) }
        ensures y { result.1 ≡ times self.now.y (inverse self.now.z) }
    {
        let inverse = self.z.invert();
        (self.x.mul(&inverse), self.y.mul(&inverse))
    }

    /// The neutral point, whose `x` is 0 and whose `y` is 1.
    pub fn neutral() -> Point
        ensures { result ≡ neutral }
    {
        Point {
            x: Element::from_u64(0),
            y: Element::from_u64(1),
            z: Element::from_u64(1),
            t: Element::from_u64(0),
        }
    }

    /// The base point B.
    pub fn base() -> Point
        ensures { result ≡ base }
    {
        Point::from_affine(Element::from_words(BASE_X), Element::from_words(BASE_Y))
    }

    // The point that the last step of a sum makes of its factors.
    fn from_factors(e: &Element, f: &Element, g: &Element, h: &Element) -> Point
        ensures { result ≡ record {
          x = times e.now f.now;
          y = times g.now h.now;
          z = times f.now g.now;
          t = times e.now h.now;
        } }
    {
        Point {
            x: e.mul(f),
            y: g.mul(h),
            z: f.mul(g),
            t: e.mul(h),
        }
    }

    /// The point that adds up to the neutral one with this.
    pub fn negate(&self) -> Point
        ensures { result ≡ opposite self.now }
    {
        Point {
            x: self.x.negate(),
            y: self.y.copy(),
            z: self.z.copy(),
            t: self.t.negate(),
        }
    }

    /// The sum (RFC 8032, 5.1.4).
    #[tactic(auto, unfolding(crate::specs::Curve::add))]
    pub fn add(&self, other: &Point) -> Point
        ensures { result ≡ add self.now other.now }
    {
        let two = Element::from_u64(2);
        let a = self.y.sub(&self.x).mul(&other.y.sub(&other.x));
        let b = self.y.add(&self.x).mul(&other.y.add(&other.x));
        let c = self.t.mul(&two).mul(&curve_d()).mul(&other.t);
        let d = self.z.mul(&two).mul(&other.z);
        Point::from_factors(&b.sub(&a), &d.sub(&c), &d.add(&c), &b.add(&a))
    }

    /// The sum with itself (RFC 8032, 5.1.4).
    #[tactic(auto, unfolding(crate::specs::Curve::double))]
    pub fn double(&self) -> Point
        ensures { result ≡ double self.now }
    {
        let a = self.x.square();
        let b = self.y.square();
        let c = Element::from_u64(2).mul(&self.z.square());
        let h = a.add(&b);
        let e = h.sub(&self.x.add(&self.y).square());
        let g = a.sub(&b);
        let f = c.add(&g);
        Point::from_factors(&e, &f, &g, &h)
    }

    // Twice the point, and the other where that is asked for.
    fn double_and_add(&self, other: &Point, is_odd: bool) -> Point
        ensures { result ≡ add_if is_odd other.now (double self.now) }
    {
        let double = self.double();
        if is_odd { double.add(other) } else { double }
    }

    /// The multiple by the lowest bits of the number, so many of them.
    pub fn mul(&self, number: Words, bits: u64) -> Point
        requires { bits ≤ 256 }
        ensures { result ≡ multiple bits (words_number number) self.now }
    {
        let mut answer = Point::neutral();
        for done in 0..bits {
            answer = answer.double_and_add(self, number.bit(bits - 1 - done));
        }
        answer
    }
}
