//! What follows from the definitions, and vectors, which the prover computes.

ghost use Rattle.std.specs.Prelude.{◌≡◌, ℕ, List, length, true};
ghost use Rattle.tough_keys.specs.declared.kind.Kind.{Kind};
ghost use Rattle.tough_keys.specs.Same.{KeyData};
ghost use Rattle.tough_ed25519.specs.Keys.{ed25519_verifies};
ghost use Rattle.tough_ed25519.specs.Secrets.{key_of, signature_of};
ghost use Rattle.tough_ed25519.specs.Signatures.{is_signature};
ghost use Rattle.tough_ed25519.specs.Vectors.{second_secret, second_key, second_message, second_signature};

/// TEST 2 of RFC 8032, 7.1: its signature verifies.
pub fn second_vector()
    ensures { is_signature second_key second_message second_signature ≡ true }
{}

/// Its secret gives its key.
pub fn key_vector()
    ensures { key_of second_secret ≡ second_key }
{}

/// Its secret gives its signature.
pub fn signature_vector()
    ensures { signature_of second_secret second_message ≡ second_signature }
{}

/// What verifies has a key of 32 bytes and a signature of 64.
#[tactic(auto, unfolding(crate::specs::Signatures::is_signature))]
pub fn has_lengths()
    ensures { (key message signature : List ℕ)
        → is_signature key message signature ≡ true
        → (length key ≡ 32) × (length signature ≡ 64) }
{}

/// What verifies by a verifier of Ed25519 keys has such a key.
pub fn has_kind()
    ensures { (key : KeyData) (message signature : List ℕ)
        → ed25519_verifies key message signature ≡ true
        → key.kind ≡ Kind.Ed25519 }
{}
