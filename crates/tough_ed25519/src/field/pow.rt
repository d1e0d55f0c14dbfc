//! Powers of elements.

ghost use Rattle.std.specs.Prelude.{◌≡◌, ◌≤◌};
ghost use Rattle.tough_ed25519.specs.Field.{times_if, square, power, inverse};
ghost use Rattle.tough_ed25519.specs.Words.{words_number};

use crate::field::element::Element;
use crate::field::words::Words;

// p - 2.
const INVERSE_POWER: Words = Words {
    first: 0xffff_ffff_ffff_ffeb,
    second: 0xffff_ffff_ffff_ffff,
    third: 0xffff_ffff_ffff_ffff,
    fourth: 0x7fff_ffff_ffff_ffff,
};

impl Element {
    // The square, times the base where that is asked for.
    fn square_and_mul(&self, base: &Element, is_odd: bool) -> Element
        ensures { result ≡ times_if is_odd base.now (square self.now) }
    {
        let square = self.square();
        if is_odd { square.mul(base) } else { square }
    }

    /// The power whose exponent are the lowest bits of the number, so many of them.
    pub fn pow(&self, exponent: Words, bits: u64) -> Element
        requires { bits ≤ 256 }
        ensures { result ≡ power bits (words_number exponent) self.now }
    {
        let mut answer = Element::from_u64(1);
        for done in 0..bits {
            answer = answer.square_and_mul(self, exponent.bit(bits - 1 - done));
        }
        answer
    }

    /// The inverse, and 0 of 0.
    #[tactic(auto, unfolding(crate::specs::Field::inverse))]
    pub fn invert(&self) -> Element
        ensures { result ≡ inverse self.now }
    {
        self.pow(INVERSE_POWER, 255)
    }
}
