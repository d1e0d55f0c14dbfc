//! HMAC over SHA-256 (RFC 2104, 2).

ghost use Rattle.std.specs.Prelude.{◌≡◌, ◌∷◌, ◌++◌};
ghost use Rattle.sha2.specs.Sha256.{sha256};
ghost use Rattle.tough_p256.specs.Hmac.{key_block, hmac};

use sha2::{Digest, Sha256};

// The block that the key makes with this byte.
fn key_block(key: &[u8; 32], byte: u8) -> [u8; 64]
    ensures { result ≡ key_block key.now byte }
{
    let mut block = [byte; 64];
    for i in 0..32usize {
        block[i] = key[i] ^ byte;
    }
    block
}

// The hash with opad.
fn outer_hash(key: &[u8; 32], inner: &[u8; 32]) -> [u8; 32]
    ensures { result ≡ sha256 (key_block key.now 0x5c ++ inner.now) }
{
    let mut hasher = Sha256::new();
    hasher.update(&key_block(key, 0x5c));
    hasher.update(inner);
    hasher.finalize()
}

/// The code of the text.
#[tactic(auto, unfolding(crate::specs::Hmac::hmac))]
pub fn hmac(key: &[u8; 32], text: &[u8]) -> [u8; 32]
    ensures { result ≡ hmac key.now text.now }
{
    let mut hasher = Sha256::new();
    hasher.update(&key_block(key, 0x36));
    hasher.update(text);
    outer_hash(key, &hasher.finalize())
}

/// The code of a text in four pieces.
#[tactic(auto, unfolding(crate::specs::Hmac::hmac))]
pub fn hmac_of_pieces(key: &[u8; 32], value: &[u8], tag: u8, secret: &[u8], hash: &[u8]) -> [u8; 32]
    ensures { result ≡ hmac key.now (value.now ++ tag ∷ secret.now ++ hash.now) }
{
    let mut hasher = Sha256::new();
    hasher.update(&key_block(key, 0x36));
    hasher.update(value);
    hasher.update(&[tag]);
    hasher.update(secret);
    hasher.update(hash);
    outer_hash(key, &hasher.finalize())
}
