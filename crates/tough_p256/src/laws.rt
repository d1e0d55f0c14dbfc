//! The constants of the curve and vectors, on which the prover computes, and what follows from the definitions.

ghost use Rattle.std.specs.Prelude.{◌≡◌, ◌+◌, ◌<◌, ℕ, List, length, true, false, Some};
ghost use Rattle.tough_modular.specs.Octets.{octets_number};
ghost use Rattle.tough_p256.specs.Curve.{base, is_on_curve, multiple};
ghost use Rattle.tough_p256.specs.Order.{order};
ghost use Rattle.tough_p256.specs.Ecdsa.{ecdsa_verifies, is_signature};
ghost use Rattle.tough_p256.specs.Signing.{public_key, ecdsa_signature};
ghost use Rattle.tough_p256.specs.Vectors.{sample_x, sample_y, sample_message, sample_r, sample_s, sample_secret, sample_key, sample_signature, test_message, test_signature};

/// G lies on the curve, and n times G is the point at infinity.
pub fn constants()
    ensures curve { is_on_curve base.x base.y ≡ true }
    ensures order { (multiple 256 order base).z ≡ 0 }
{}

/// The signature of "sample" (RFC 6979, A.2.5) verifies.
pub fn sample_vector()
    ensures { ecdsa_verifies sample_x sample_y sample_message sample_r sample_s ≡ true }
{}

/// With `s + 1` in the place of `s` it doesn't.
pub fn wrong_vector()
    ensures { ecdsa_verifies sample_x sample_y sample_message sample_r (sample_s + 1) ≡ false }
{}

/// The key of the secret (RFC 6979, A.2.5).
pub fn key_vector()
    ensures { public_key sample_secret ≡ Some sample_key }
{}

/// The signatures of "sample" and "test" by the secret (RFC 6979, A.2.5).
pub fn signature_vectors()
    ensures sample { ecdsa_signature sample_secret sample_message ≡ Some sample_signature }
    ensures test { ecdsa_signature sample_secret test_message ≡ Some test_signature }
{}

/// What verifies has a key of 65 bytes, and halves in [1, n - 1].
#[tactic(auto, unfolding(crate::specs::Ecdsa::is_signature, crate::specs::Ecdsa::ecdsa_verifies))]
pub fn has_bounds()
    ensures { (key message r s : List ℕ) → is_signature key message r s ≡ true
        → (length key ≡ 65) × ((0 < octets_number r) × ((octets_number r < order)
        × ((0 < octets_number s) × (octets_number s < order)))) }
{}
