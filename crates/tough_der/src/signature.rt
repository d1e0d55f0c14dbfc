//! Signatures by ECDSA.

ghost use Rattle.std.specs.Prelude.{◌≡◌, ℕ, List, length, Some, IfSome};
ghost use Rattle.tough_der.specs.Der.{sig_value};
ghost use Rattle.tough_der.specs.Keys.{signature_of};

use crate::element::{element, whole};
use crate::integer::wide_32;

// The halves, as they are read.
#[tactic(auto, unfolding(crate::specs::Keys::signature_of))]
fn read(bytes: &[u8]) -> Option<([u8; 32], [u8; 32])>
    ensures { result ≡ signature_of bytes.now }
{
    let halves = whole(0x30, bytes)?;
    let (first, rest) = element(2, halves)?;
    let second = whole(2, rest)?;
    let r = wide_32(first)?;
    let s = wide_32(second)?;
    Some((r, s))
}

/// The halves of a signature in 32 bytes each, the highest first, where the bytes are an `Ecdsa-Sig-Value` with such halves (RFC 3279, 2.2.3).
pub fn read_signature(bytes: &[u8]) -> Option<([u8; 32], [u8; 32])>
    ensures value { result ≡ signature_of bytes.now }
    ensures some { IfSome result (λ p. bytes.now ≡ sig_value p.0 p.1) }
    ensures all { (r s : List ℕ) → length r ≡ 32 → length s ≡ 32 → bytes.now ≡ sig_value r s
        → result ≡ Some (r, s) }
{
    read(bytes)
}
