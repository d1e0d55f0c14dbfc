//! Points, their sums and their multiples.

ghost use Rattle.std.specs.Prelude.{◌≡◌, ◌<◌, nat_eq};
ghost use Rattle.tough_modular.specs.Number.{number};
ghost use Rattle.tough_p256.specs.Ecdsa.{has_x};
ghost use Rattle.tough_p256.specs.Field.{times};
ghost use Rattle.tough_p256.specs.Order.{order};
ghost use Rattle.tough_p256.specs.Curve.{base, affine, neutral, cross, affine_x, affine_y, is_on_curve, add, double, add_if, multiple};

use crate::bits::bit;
use crate::element::{Element, room};
use std::marker::Model;
use tough_modular::is_below;

/// A point of the curve, whose coordinates are `x / z` and `y / z`.
#[derive(Drop)]
pub struct Point {
    x: Element,
    y: Element,
    z: Element,
}

impl Model for Point {
    ghost use Rattle.tough_p256.specs.Curve.{Coordinates};

    ghost Value = { Coordinates };

    ghost view = { λ s. record { x = s.x; y = s.y; z = s.z } };
}

/// Whether these are the coordinates of a point of the curve.
#[tactic(auto, unfolding(crate::specs::Curve::is_on_curve))]
pub fn is_on_curve(x: &Element, y: &Element) -> bool
    ensures { result ≡ is_on_curve x.now y.now }
{
    let slope = x.mul(x).sub(&Element::three());
    let right = x.mul(&slope).add(&Element::curve_b());
    y.mul(y).is_equal(&right)
}

impl Point {
    /// The point of these coordinates.
    pub fn from_affine(x: Element, y: Element) -> Point
        ensures { result ≡ affine x y }
    {
        Point {
            x,
            y,
            z: Element::one(),
        }
    }

    /// The base point G.
    pub fn base() -> Point
        ensures { result ≡ base }
    {
        Point::from_affine(Element::base_x(), Element::base_y())
    }

    /// The point at infinity.
    pub fn neutral() -> Point
        ensures { result ≡ neutral }
    {
        Point {
            x: Element::zero(),
            y: Element::one(),
            z: Element::zero(),
        }
    }

    /// Its coordinates of its own, `x / z` and `y / z`.
    pub fn to_affine(&self) -> (Element, Element)
        ensures x { result.0 ≡ affine_x self.now }
        ensures y { result.1 ≡ affine_y self.now }
    {
        let inverse = self.z.invert();
        (self.x.mul(&inverse), self.y.mul(&inverse))
    }

    // Whether the number is its first coordinate.
    fn is_x(&self, x: &Element) -> bool
        ensures { result ≡ nat_eq (times x.now self.now.z) self.now.x }
    {
        x.mul(&self.z).is_equal(&self.x)
    }

    /// Whether the number is what its first coordinate leaves modulo the order.
    #[tactic(auto, unfolding(crate::specs::Ecdsa::has_x))]
    pub fn has_x(&self, words: &[u64; 4]) -> bool
        requires { number words.now < order }
        ensures { result ≡ has_x self.now (number words.now) }
    {
        if self.z.is_equal(&Element::zero()) {
            return false;
        }
        let x = Element::from_words(words);
        if self.is_x(&x) {
            return true;
        }
        is_below(words, &room()) && self.is_x(&x.add(&Element::order()))
    }

    /// The sum.
    #[tactic(auto, unfolding(crate::specs::Curve::add))]
    pub fn add(&self, other: &Point) -> Point
        ensures { result ≡ add self.now other.now }
    {
        let b = Element::curve_b();
        let xx = self.x.mul(&other.x);
        let yy = self.y.mul(&other.y);
        let zz = self.z.mul(&other.z);
        let xy = cross(&self.x, &self.y, &other.x, &other.y, &xx, &yy);
        let yz = cross(&self.y, &self.z, &other.y, &other.z, &yy, &zz);
        let xz = cross(&self.x, &self.z, &other.x, &other.z, &xx, &zz);
        let s = xz.sub(&b.mul(&zz)).triple();
        let f = yy.add(&s);
        let g = yy.sub(&s);
        let w = zz.triple();
        let h = b.mul(&xz).sub(&w).sub(&xx).triple();
        let k = xx.triple().sub(&w);
        Point {
            x: xy.mul(&f).sub(&yz.mul(&h)),
            y: f.mul(&g).add(&k.mul(&h)),
            z: yz.mul(&g).add(&xy.mul(&k)),
        }
    }

    /// The sum with itself.
    #[tactic(auto, unfolding(crate::specs::Curve::double))]
    pub fn double(&self) -> Point
        ensures { result ≡ double self.now }
    {
        let b = Element::curve_b();
        let xx = self.x.mul(&self.x);
        let yy = self.y.mul(&self.y);
        let zz = self.z.mul(&self.z);
        let xy = self.x.mul(&self.y).double();
        let xz = self.x.mul(&self.z).double();
        let s = b.mul(&zz).sub(&xz).triple();
        let f = yy.sub(&s);
        let g = yy.add(&s);
        let w = zz.triple();
        let h = b.mul(&xz).sub(&w).sub(&xx).triple();
        let k = xx.triple().sub(&w);
        let yz = self.y.mul(&self.z).double();
        Point {
            x: f.mul(&xy).sub(&yz.mul(&h)),
            y: f.mul(&g).add(&k.mul(&h)),
            z: yz.mul(&yy).double().double(),
        }
    }

    // Twice the point, and the other where that is asked for.
    fn double_and_add(&self, other: &Point, is_odd: bool) -> Point
        ensures { result ≡ add_if is_odd other.now (double self.now) }
    {
        let double = self.double();
        if is_odd { double.add(other) } else { double }
    }

    /// The multiple by a number below 2^256.
    pub fn mul(&self, words: &[u64; 4]) -> Point
        ensures { result ≡ multiple 256 (number words.now) self.now }
    {
        let mut answer = Point::neutral();
        for done in 0..256usize {
            answer = answer.double_and_add(self, bit(words, 255 - done));
        }
        answer
    }
}

// What the products of two coordinates with each other's sum up to, from that of their sums.
fn cross(
    left: &Element,
    more_left: &Element,
    right: &Element,
    more_right: &Element,
    product: &Element,
    more_product: &Element,
) -> Element
    ensures { result ≡ cross left.now more_left.now right.now more_right.now product.now
        more_product.now }
{
    left.add(more_left)
        .mul(&right.add(more_right))
        .sub(&product.add(more_product))
}
