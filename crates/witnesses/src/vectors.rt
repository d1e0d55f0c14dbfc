//! Laws on signatures and texts, of which the vectors of their own crates are examples.

ghost use Rattle.std.specs.Prelude.{◌≡◌, [], ◌∷◌, true, false};
ghost use Rattle.serde_json.specs.Data as Data;
ghost use Rattle.serde_json.specs.Data.{no_members};
ghost use Rattle.serde_json.specs.Written.{has_float};
ghost use Rattle.tough_cjson.specs.Canon.{Canon, shares_name};
ghost use Rattle.tough_cjson.specs.Small.{IsSmall};
ghost use Rattle.tough_keys.specs.declared.kind.Kind.{Kind};
ghost use Rattle.tough_ed25519.specs.Keys.{ed25519_verifies};
ghost use Rattle.tough_ed25519.specs.Signatures.{is_signature};
ghost use Rattle.tough_ed25519.specs.Vectors.{second_key, second_message, second_signature};
ghost use Rattle.tough_modular.specs.Octets.{number_octets};
ghost use Rattle.tough_p256.specs.Ecdsa.{is_signature as is_p256_signature};
ghost use Rattle.tough_p256.specs.Vectors.{sample_key, sample_message, sample_r, sample_s};
ghost use Rattle.tough_rsa.specs.Rsa.{rsa_verifies};
ghost use Rattle.tough_rsa.specs.Vector.{vector_modulus, vector_message, vector_signature};

/// Witness of `tough_cjson::laws::same_text`, `tough_cjson::laws::one_text`, `tough_cjson::laws::accepted` and `tough_cjson::laws::has_text`: the
/// text of e and U+0301, in quotes.
pub fn e_acute()
    ensures text { Canon (Data.string (101 ∷ 0xCC ∷ 0x81 ∷ [])) (34 ∷ 0xC3 ∷ 0xA9 ∷ 34 ∷ []) }
    ensures small { IsSmall (Data.string (101 ∷ 0xCC ∷ 0x81 ∷ [])) }
    ensures whole { has_float (Data.string (101 ∷ 0xCC ∷ 0x81 ∷ [])) ≡ false }
    ensures apart { shares_name (Data.string (101 ∷ 0xCC ∷ 0x81 ∷ [])) ≡ false }
{
    tough_cjson::laws::e_acute();
}

/// Witness of `tough_ed25519::laws::has_lengths` and `tough_ed25519::laws::has_kind`: TEST 2 of RFC 8032, 7.1.
pub fn second_vector()
    ensures bytes { is_signature second_key second_message second_signature ≡ true }
    ensures key { ed25519_verifies (record {
      kind = Kind.Ed25519;
      public = second_key;
      keyval_extra = no_members;
      extra = no_members;
    }) second_message second_signature ≡ true }
{
    tough_ed25519::laws::second_vector();
}

/// Witness of `tough_rsa::laws::has_bounds`: a signature of 2,048 bits.
pub fn rsa_vector()
    ensures { rsa_verifies vector_modulus 65537 vector_message vector_signature ≡ true }
{
    tough_rsa::laws::vector();
}

/// Witness of `tough_p256::laws::has_bounds`: the signature of "sample" (RFC 6979, A.2.5).
pub fn sample_vector()
    ensures { is_p256_signature (4 ∷ sample_key) sample_message (number_octets sample_r 32)
        (number_octets sample_s 32) ≡ true }
{
    tough_p256::laws::sample_vector();
}
