//! What follows from the definition, and a vector, which the prover computes.

ghost use Rattle.std.specs.Prelude.{◌≡◌, ◌<◌, ◌≤◌, ◌^◌, ℕ, List, length, true};
ghost use Rattle.tough_modular.specs.Octets.{octets_number};
ghost use Rattle.tough_rsa.specs.Rsa.{rsa_verifies};
ghost use Rattle.tough_rsa.specs.Vector.{vector_modulus, vector_message, vector_signature};

/// A signature of 2,048 bits verifies.
#[tactic(none)]
pub fn vector()
    ensures { rsa_verifies vector_modulus 65537 vector_message vector_signature ≡ true }
{}

/// What verifies has as many bytes as the modulus, 256 to 1,024, and is below it; the exponent is in its bounds.
#[tactic(auto, unfolding(crate::specs::Rsa::rsa_verifies, crate::specs::Rsa::is_root, crate::specs::Rsa::is_modulus, crate::specs::Rsa::is_exponent))]
pub fn has_bounds()
    ensures { (n : List ℕ) (e : ℕ) (message signature : List ℕ)
        → rsa_verifies n e message signature ≡ true
        → (length signature ≡ length n) × ((256 ≤ length n) × ((length n ≤ 1024)
        × ((octets_number signature < octets_number n) × ((65537 ≤ e) × (e < 2 ^ 33))))) }
{}
