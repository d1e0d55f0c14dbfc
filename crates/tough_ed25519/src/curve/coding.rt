//! Points as numbers.

ghost use Rattle.std.specs.Prelude.{◌≡◌, ◌/◌, ◌%◌, ◌^◌, ◌<◌, nat_eq};
ghost use Rattle.tough_ed25519.specs.Field.{prime};
ghost use Rattle.tough_ed25519.specs.Words.{words_number};
ghost use Rattle.tough_ed25519.specs.Coding.{encode_affine, encode, candidate, root_from, root, of_parity, point_with, decode_affine, decode};

use crate::curve::point::{Point, curve_d};
use crate::field::{Element, Words};

const PRIME: Words = Words {
    first: 0xffff_ffff_ffff_ffed,
    second: 0xffff_ffff_ffff_ffff,
    third: 0xffff_ffff_ffff_ffff,
    fourth: 0x7fff_ffff_ffff_ffff,
};

// (p - 5) / 8.
const ROOT_POWER: Words = Words {
    first: 0xffff_ffff_ffff_fffd,
    second: 0xffff_ffff_ffff_ffff,
    third: 0xffff_ffff_ffff_ffff,
    fourth: 0x0fff_ffff_ffff_ffff,
};

const ROOT_OF_MINUS_ONE: Words = Words {
    first: 0xc4ee_1b27_4a0e_a0b0,
    second: 0x2f43_1806_ad2f_e478,
    third: 0x2b4d_0099_3dfb_d7a7,
    fourth: 0x2b83_2480_4fc1_df0b,
};

// What may be the root of `u / v`.
fn candidate(u: &Element, v: &Element) -> Element
    ensures { result ≡ candidate u.now v.now }
{
    let v3 = v.square().mul(v);
    let v7 = v3.square().mul(v);
    u.mul(&v3).mul(&u.mul(&v7).pow(ROOT_POWER, 252))
}

// The root that the candidate leads to, if it does.
fn root_from(u: &Element, v: &Element, x: Element) -> Option<Element>
    ensures { result ≡ root_from u.now v.now x }
{
    let back = v.mul(&x.square());
    if back.is_equal(u) {
        Some(x)
    } else if back.is_equal(&u.negate()) {
        Some(x.mul(&Element::from_words(ROOT_OF_MINUS_ONE)))
    } else {
        None
    }
}

// The root of `u / v`, if there is one.
#[tactic(auto, unfolding(crate::specs::Coding::root))]
fn root(u: &Element, v: &Element) -> Option<Element>
    ensures { result ≡ root u.now v.now }
{
    root_from(u, v, candidate(u, v))
}

// The number or its negative, whichever is odd, or isn't.
fn of_parity(odd: bool, x: Element) -> Element
    ensures { result ≡ of_parity odd x }
{
    if x.is_odd() == odd { x } else { x.negate() }
}

// The point with the root.
fn point_with(odd: bool, y: Element, x: Element) -> Option<Point>
    ensures { result ≡ point_with odd y x }
{
    if odd && x.is_equal(&Element::from_u64(0)) {
        return None;
    }
    Some(Point::from_affine(of_parity(odd, x), y))
}

// The point of this `y`, whose `x` is odd or isn't.
fn decode_affine(odd: bool, words: Words) -> Option<Point>
    ensures { result ≡ decode_affine odd (words_number words) }
{
    if !words.is_below(PRIME) {
        return None;
    }
    let one = Element::from_u64(1);
    let y = Element::from_words(words);
    let square = y.square();
    let u = square.sub(&one);
    let v = curve_d().mul(&square).add(&one);
    match root(&u, &v) {
        Some(x) => point_with(odd, y, x),
        None => None,
    }
}

// Bit 255, and the number without it.
fn split_top(words: Words) -> (bool, Words)
    ensures top { result.0 ≡ nat_eq (words_number words / 2 ^ 255) 1 }
    ensures rest { words_number result.1 ≡ words_number words % 2 ^ 255 }
{
    let rest = Words {
        first: words.first,
        second: words.second,
        third: words.third,
        fourth: words.fourth & 0x7fff_ffff_ffff_ffff,
    };
    (words.fourth >> 63 == 1, rest)
}

// The encoding of the point of these coordinates.
fn encode_affine(x: &Element, y: &Element) -> Words
    ensures { words_number result ≡ encode_affine x.now y.now }
{
    let words = y.to_words();
    if x.is_odd() {
        Words {
            first: words.first,
            second: words.second,
            third: words.third,
            fourth: words.fourth + (1 << 63),
        }
    } else {
        words
    }
}

impl Point {
    /// The point whose encoding is the number, if there is one (RFC 8032, 5.1.3).
    #[tactic(auto, unfolding(crate::specs::Coding::decode))]
    pub fn decode(words: Words) -> Option<Point>
        ensures { result ≡ decode (words_number words) }
    {
        let (odd, rest) = split_top(words);
        decode_affine(odd, rest)
    }

    /// The number whose 32 bytes, the lowest first, are the encoding (RFC 8032, 5.1.2).
    #[tactic(auto, unfolding(crate::specs::Coding::encode))]
    pub fn encode(&self) -> Words
        ensures { words_number result ≡ encode self.now }
    {
        let (x, y) = self.to_affine();
        encode_affine(&x, &y)
    }
}
