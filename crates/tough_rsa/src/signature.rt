//! Signatures that verify (RFC 8017, 8.1.2).

ghost use Rattle.std.specs.Prelude.{◌≡◌, ◌+◌, ◌-◌, ◌/◌, ◌%◌, ◌^◌, ◌<◌, ◌≤◌, true, nat_lt, length};
ghost use Rattle.tough_modular.specs.Number.{number};
ghost use Rattle.tough_modular.specs.Octets.{octets_number};
ghost use Rattle.tough_rsa.specs.Rsa.{bits_of, bytes_for, is_modulus, is_exponent, is_encoding, is_root, rsavp1, rsa_verifies};

use crate::pss::emsa_pss_verify;
use tough_modular::{byte_of, is_below, power, set_bytes, set_number};

// The bits of the number.
fn bits_of(n: &[u8]) -> usize
    requires some { 0 < length n.now }
    requires most { length n.now < 2 ^ 13 }
    ensures { result ≡ bits_of n.now }
{
    8 * n.len() - n[0].leading_zeros() as usize
}

// Whether such moduli are taken.
#[tactic(auto, unfolding(crate::specs::Rsa::is_modulus))]
fn is_modulus(n: &[u8]) -> bool
    ensures { result ≡ is_modulus n.now }
{
    let len = n.len();
    256 <= len && len <= 1024 && 0 < n[0] && 2048 <= bits_of(n) && n[len - 1] % 2 == 1
}

// Whether such exponents are taken.
#[tactic(auto, unfolding(crate::specs::Rsa::is_exponent))]
fn is_exponent(e: u64) -> bool
    ensures { result ≡ is_exponent e }
{
    e % 2 == 1 && 65537 <= e && e < 0x2_0000_0000
}

// Whether the number is an encoding of the message, in so many bits, which needs these bytes.
fn is_encoding_in(em: &mut [u8], message: &[u8], words: &[u64], bits: usize) -> bool
    requires bits { bits < 8192 }
    requires length { length em.old ≡ bytes_for bits }
    requires below { number words.now < 2 ^ (bits + 1) }
    ensures { result ≡ is_encoding message.now (number words.now) bits }
{
    if byte_of(words, em.len()) != 0 {
        return false;
    }
    set_bytes(em, words);
    emsa_pss_verify(message, em, bits)
}

// The same.
fn is_encoding(message: &[u8], words: &[u64], bits: usize) -> bool
    requires bits { bits < 8192 }
    requires below { number words.now < 2 ^ (bits + 1) }
    ensures { result ≡ is_encoding message.now (number words.now) bits }
{
    let mut bytes = [0; 1024];
    is_encoding_in(&mut bytes[..(bits + 7) / 8], message, words, bits)
}

// Sets the power of the signature, where that is below the modulus, for which there are these words.
fn set_power(root: &mut [u64], modulus: &mut [u64], n: &[u8], e: u64, signature: &[u8]) -> bool
    requires modulus_length { length modulus.old ≡ (length n.now + 7) / 8 }
    requires root_length { length root.old ≡ length modulus.old }
    requires signature_length { length signature.now ≡ length n.now }
    requires least { 256 ≤ length n.now }
    requires most { length n.now ≤ 1024 }
    requires odd { octets_number n.now % 2 ≡ 1 }
    requires top { 256 ^ (length n.now - 1) ≤ octets_number n.now }
    requires exponent { 0 < e }
    ensures below { result ≡ nat_lt (octets_number signature.now) (octets_number n.now) }
    ensures power { result ≡ true → number root.new ≡ rsavp1 n.now e signature.now }
    ensures least { result ≡ true → number root.new < octets_number n.now }
{
    set_number(modulus, n);
    set_number(root, signature);
    if !is_below(root, modulus) {
        return false;
    }
    power(root, e, modulus);
    true
}

// Whether the signature is below the modulus, and its power an encoding of the message.
fn is_root(n: &[u8], e: u64, message: &[u8], signature: &[u8]) -> bool
    requires modulus { is_modulus n.now ≡ true }
    requires least { 256 ≤ length n.now }
    requires most { length n.now ≤ 1024 }
    requires exponent { 0 < e }
    requires length { length signature.now ≡ length n.now }
    ensures { result ≡ is_root n.now e message.now signature.now }
{
    let len = (n.len() + 7) / 8;
    let mut modulus = [0; 128];
    let mut words = [0; 128];
    let root = &mut words[..len];
    if !set_power(root, &mut modulus[..len], n, e, signature) {
        return false;
    }
    is_encoding(message, root, bits_of(n) - 1)
}

/// Whether the bytes are the signature of the message by the key with the modulus `n` and the exponent `e` (RFC 8017, 8.1.2), with SHA-256,
/// MGF1 over SHA-256 and a salt of 32 bytes. The modulus and the signature have their highest byte first.
///
/// `false` also for a modulus that is even, has fewer than 2,048 or more than 8,192 bits, or begins with a zero byte; for an exponent that is
/// even, below 65,537 or not below 2^33; and for a signature that hasn't as many bytes as the modulus.
#[tactic(auto, unfolding(crate::specs::Rsa::rsa_verifies))]
pub fn verify(n: &[u8], e: u64, message: &[u8], signature: &[u8]) -> bool
    ensures { result ≡ rsa_verifies n.now e message.now signature.now }
{
    if !is_modulus(n) || !is_exponent(e) || signature.len() != n.len() {
        return false;
    }
    is_root(n, e, message, signature)
}
