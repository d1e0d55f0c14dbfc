//! The constants of the curve, and vectors, on which the prover computes.

ghost use Rattle.std.specs.Prelude.{◌≡◌, ◌+◌, true, false, Some};
ghost use Rattle.tough_ed25519.specs.Field.{minus, times, square, inverse};
ghost use Rattle.tough_ed25519.specs.Order.{order};
ghost use Rattle.tough_ed25519.specs.Check.{checks};
ghost use Rattle.tough_ed25519.specs.Coding.{root_of_minus_one, encode, decode};
ghost use Rattle.tough_ed25519.specs.Curve.{curve_d, base, multiple};
ghost use Rattle.tough_ed25519.specs.CurveVectors.{first_key, first_r, first_s, first_k};

/// d is -121665 / 121666, the root of -1 is one, B is the point whose y is 4 / 5 and whose x is even, and L times B is neutral.
pub fn constants()
    ensures d { times curve_d 121666 ≡ minus 0 121665 }
    ensures root { square root_of_minus_one ≡ minus 0 1 }
    ensures base { decode (times 4 (inverse 5)) ≡ Some base }
    ensures order { encode (multiple 253 order base) ≡ 1 }
{}

/// TEST 1 of RFC 8032, 7.1, passes the check.
pub fn first_vector()
    ensures { checks first_key first_r first_s first_k ≡ true }
{}

/// With `S + 1` in the place of `S` it doesn't.
pub fn wrong_vector()
    ensures { checks first_key first_r (first_s + 1) first_k ≡ false }
{}
