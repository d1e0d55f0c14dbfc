//! What follows from the definitions.

ghost use Rattle.std.specs.Prelude.{◌≡◌, ◌≤◌, ℕ, List, length, Some};
ghost use Rattle.base64.specs.GeneralPurpose.{IsBytes};
ghost use Rattle.tough_der.specs.Der.{spki_rsa};
ghost use Rattle.tough_der.specs.Pem.{IsPem, pem_of, pem_text};

/// A text that is read is the text of the bytes.
pub fn read_is_pem()
    ensures { (label text bytes : List ℕ) → IsBytes text → pem_of label text ≡ Some bytes
        → IsPem label text bytes }
{}

/// The text of 3,072 bytes or fewer is read.
pub fn pem_is_read()
    ensures { (label text bytes : List ℕ) → IsBytes bytes → length bytes ≤ 3072
        → IsPem label text bytes → pem_of label text ≡ Some bytes }
{}

/// What is written is the text of the bytes, and is read back.
pub fn written_is_pem()
    ensures { (label bytes : List ℕ) → IsPem label (pem_text label bytes) bytes }
{}

/// The key of a modulus of 1,024 bytes or fewer has a text that is read.
pub fn rsa_key_fits()
    ensures { (n : List ℕ) (e : ℕ) → length n ≤ 1024 → length (spki_rsa n e) ≤ 3072 }
{}
