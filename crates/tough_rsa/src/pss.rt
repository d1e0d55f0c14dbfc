//! EMSA-PSS (RFC 8017, 9.1.2).

ghost use Rattle.std.specs.Prelude.{◌≡◌, ◌≢◌, ◌+◌, ◌-◌, ◌*◌, ◌/◌, ◌%◌, ◌^◌, ◌<◌, ◌≤◌, nat_eq, length, ◌++◌};
ghost use Rattle.std.specs.List.{list_all};
ghost use Rattle.sha2.specs.Sha256.{sha256};
ghost use Rattle.tough_rsa.specs.Pss.{mask_block, xor_all, mgf1, clear_bits, is_padded, salted_hash, is_consistent, halves_match, emsa_pss_verify};

use sha2::{Digest, Sha256};

// The hash of two pieces.
fn hash_of(first: &[u8], second: &[u8]) -> [u8; 32]
    ensures { result ≡ sha256 (first.now ++ second.now) }
{
    let mut hasher = Sha256::new();
    hasher.update(first);
    hasher.update(second);
    hasher.finalize()
}

// The hash of the seed and a counter.
fn mask_block(seed: &[u8], counter: u8) -> [u8; 32]
    ensures { result ≡ mask_block seed.now counter }
{
    hash_of(seed, &[0, 0, 0, counter])
}

// The block for this place of the mask: the same as for the place before, but for the first of each 32.
fn block_for(seed: &[u8], place: usize, block: [u8; 32]) -> [u8; 32]
    requires { place < 2 ^ 13 }
    ensures { (place % 32 ≢ 0 → block ≡ mask_block seed.now (place / 32))
        → result ≡ mask_block seed.now (place / 32) }
{
    if place % 32 == 0 {
        mask_block(seed, (place / 32) as u8)
    } else {
        block
    }
}

// Takes the mask of the seed away.
fn unmask(masked: &mut [u8], seed: &[u8])
    requires { length masked.old < 2 ^ 13 }
    ensures { masked.new ≡ xor_all masked.old (mgf1 seed.now (length masked.old)) }
{
    let mut block = [0; 32];
    for i in 0..masked.len() {
        block = block_for(seed, i, block);
        masked[i] ^= block[i % 32];
    }
}

// The largest byte whose leftmost bits are zero, so many.
fn most(free: usize) -> u8
    requires { free < 8 }
    ensures { result + 1 ≡ 2 ^ (8 - free) }
{
    0xff >> free
}

// Clears the leftmost bits.
fn clear_leftmost(bytes: &mut [u8], free: usize)
    requires some { 0 < length bytes.old }
    requires free { free < 8 }
    ensures { bytes.new ≡ clear_bits free bytes.old }
{
    bytes[0] &= most(free);
}

// Whether all are zero.
fn is_zero(bytes: &[u8]) -> bool
    ensures { result ≡ list_all (λ b. nat_eq b 0) bytes.now }
{
    for i in 0..bytes.len() {
        if bytes[i] != 0 {
            return false;
        }
    }
    true
}

// Whether zeros and 0x01 stand before the salt.
fn is_padded(db: &[u8]) -> bool
    requires { 33 ≤ length db.now }
    ensures { result ≡ is_padded db.now }
{
    let place = db.len() - 33;
    is_zero(&db[..place]) && db[place] == 1
}

// The hash of the message's hash and the salt.
fn salted_hash(message: &[u8], salt: &[u8]) -> [u8; 32]
    ensures { result ≡ salted_hash message.now salt.now }
{
    let mut hasher = Sha256::new();
    hasher.update(&[0; 8]);
    hasher.update(&Sha256::digest(message));
    hasher.update(salt);
    hasher.finalize()
}

// Whether the data block is that of the message and the hash.
#[tactic(auto, unfolding(crate::specs::Pss::is_consistent))]
fn is_consistent(message: &[u8], h: &[u8], db: &[u8]) -> bool
    requires { 33 ≤ length db.now }
    ensures { result ≡ is_consistent message.now h.now db.now }
{
    is_padded(db) && h == salted_hash(message, &db[db.len() - 32..]).as_slice()
}

// Whether the masked data block and the hash are those of the message.
#[tactic(auto, unfolding(crate::specs::Pss::halves_match))]
fn halves_match(message: &[u8], masked: &mut [u8], h: &[u8], free: usize) -> bool
    requires least { 33 ≤ length masked.old }
    requires most { length masked.old < 2 ^ 13 }
    requires free { free < 8 }
    ensures { result ≡ halves_match message.now masked.old h.now free }
{
    if masked[0] > most(free) {
        return false;
    }
    unmask(masked, h);
    clear_leftmost(masked, free);
    is_consistent(message, h, masked)
}

/// Whether the encoded message is one of the message, in so many bits.
#[tactic(auto, unfolding(crate::specs::Pss::emsa_pss_verify))]
pub fn emsa_pss_verify(message: &[u8], em: &mut [u8], bits: usize) -> bool
    requires most { length em.old < 2 ^ 13 }
    requires bits { bits ≤ 8 * length em.old }
    requires free { 8 * length em.old < bits + 8 }
    ensures { result ≡ emsa_pss_verify message.now em.old bits }
{
    let len = em.len();
    if len < 66 || em[len - 1] != 0xbc {
        return false;
    }
    let (masked, rest) = em.split_at_mut(len - 33);
    halves_match(message, masked, &rest[..32], 8 * len - bits)
}
