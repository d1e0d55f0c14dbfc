//! What follows from the definitions.

ghost use Rattle.std.specs.Prelude.{◌≡◌, ◌≤◌, ◌<◌, ◌^◌, ◌⊎◌, ℕ, List, length, slice_index, true, Some};
ghost use Rattle.base64.specs.GeneralPurpose.{IsBytes};
ghost use Rattle.tough_keys.specs.declared.kind.Kind.{Kind};
ghost use Rattle.tough_keys.specs.Same.{KeyData};
ghost use Rattle.tough_der.specs.Der.{spki_rsa, spki_p256, sig_value};
ghost use Rattle.tough_der.specs.Pem.{IsPem};
ghost use Rattle.tough_rsa.specs.Rsa.{rsa_verifies};
ghost use Rattle.tough_p256.specs.Ecdsa.{is_signature};
ghost use Rattle.tough_signatures.specs.Verifying.{public_label, rsa_text_verifies, ecdsa_bytes_verify, rsa_key_verifies, ecdsa_key_verifies};
ghost use Rattle.tough_signatures.specs.Secrets.{secret_of};
ghost use Rattle.tough_signatures.specs.SigningKeys.{secret_text};

/// By the text of a key of RSA, with a modulus of no more than 1,024 bytes, verifies what verifies by its modulus and its exponent.
pub fn rsa_text_is_key()
    ensures { (text n message signature : List ℕ) (e : ℕ) → IsBytes (spki_rsa n e)
        → IsPem public_label text (spki_rsa n e)
        → 0 < slice_index n 0 → length n ≤ 1024 → e < 2 ^ 64
        → rsa_text_verifies text message signature ≡ rsa_verifies n e message signature }
{}

/// By the text of a key of P-256, the encoding of two halves verifies where the halves verify by its point.
pub fn ecdsa_text_is_key()
    ensures { (text p message r s : List ℕ) → IsBytes (spki_p256 p)
        → IsPem public_label text (spki_p256 p) → length p ≡ 65 → length r ≡ 32 → length s ≡ 32
        → ecdsa_bytes_verify text message (sig_value r s) ≡ is_signature p message r s }
{}

/// The text of a secret is read back.
pub fn secret_text_is_read()
    ensures { (kind : Kind) (secret text : List ℕ) → length secret ≡ 32 → IsBytes secret
        → secret_text kind secret ≡ Some text → secret_of text ≡ Some (kind, secret) }
{}

/// What verifies by a verifier of RSA keys has such a key.
pub fn rsa_has_kind()
    ensures { (key : KeyData) (message signature : List ℕ)
        → rsa_key_verifies key message signature ≡ true → key.kind ≡ Kind.Rsa }
{}

/// What verifies by a verifier of ECDSA keys has such a key, in one of the two spellings.
pub fn ecdsa_has_kind()
    ensures { (key : KeyData) (message signature : List ℕ)
        → ecdsa_key_verifies key message signature ≡ true
        → (key.kind ≡ Kind.Ecdsa) ⊎ (key.kind ≡ Kind.EcdsaOld) }
{}
