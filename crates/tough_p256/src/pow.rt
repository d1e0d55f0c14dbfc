//! Powers of elements.

ghost use Rattle.std.specs.Prelude.{◌≡◌, ◌-◌};
ghost use Rattle.tough_modular.specs.Number.{number};
ghost use Rattle.tough_p256.specs.Field.{prime, times_if, square, power, inverse};

use crate::bits::bit;
use crate::element::Element;

// The prime without 2, by which an inverse is a power.
fn inverse_power() -> [u64; 4]
    ensures { number result ≡ prime - 2 }
{
    [0xffff_ffff_ffff_fffd, 0xffff_ffff, 0, 0xffff_ffff_0000_0001]
}

impl Element {
    // The square, times the base where that is asked for.
    #[tactic(auto, unfolding(crate::specs::Field::square))]
    fn square_and_mul(&self, base: &Element, is_odd: bool) -> Element
        ensures { result ≡ times_if is_odd base.now (square self.now) }
    {
        let square = self.mul(self);
        if is_odd { square.mul(base) } else { square }
    }

    // The power by a number below 2^256.
    fn pow(&self, exponent: &[u64; 4]) -> Element
        ensures { result ≡ power 256 (number exponent.now) self.now }
    {
        let mut answer = Element::one();
        for done in 0..256usize {
            answer = answer.square_and_mul(self, bit(exponent, 255 - done));
        }
        answer
    }

    /// The inverse, and 0 of 0.
    #[tactic(auto, unfolding(crate::specs::Field::inverse))]
    pub fn invert(&self) -> Element
        ensures { result ≡ inverse self.now }
    {
        self.pow(&inverse_power())
    }
}
