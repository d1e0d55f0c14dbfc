//! New keys that sign, of the system's randomness.
//!
//! Not promised by a contract: that a secret is made of the random bytes, and that these are random. The system's source of them tells of no
//! bytes that it gives.

ghost use Rattle.std.specs.Prelude.{◌≡◌, ℕ, List, IfOk, IfSome};
ghost use Rattle.tough_keys.specs.declared.kind.Kind.{Kind};
ghost use Rattle.tough_signatures.specs.SigningKeys.{IsSigner};

#[cfg(test)]
mod tests;

use crate::SigningKey;
use std::alloc::{AllocError, Global};
use std::io;
use std::random::RandomSource;

// How many secrets of P-256 are tried: one in 2^32 is out of range.
const TRIES: u32 = 16;

/// Why there is no new key.
#[derive(Debug, Drop, thiserror::Error)]
pub enum NewKeyError {
    /// The system gave no random bytes.
    #[error("no random bytes: {0}")]
    Random(io::Error),
    /// None of the secrets was in range, which random ones are.
    #[error("the random bytes gave no secret")]
    NoSecret,
    /// A request for memory was refused.
    #[error("out of memory")]
    Memory,
}

impl From<AllocError> for NewKeyError {
    ghost use Rattle.tough_signatures.specs.declared.new_key.NewKeyError.TheVariants.{Memory};

    ghost from_gives = { λ _ e. e ≡ Memory };

    fn from(_: AllocError) -> NewKeyError {
        NewKeyError::Memory
    }
}

// 32 bytes of the system's randomness.
fn secret<R: RandomSource>(rt: &R) -> Result<[u8; 32], NewKeyError> {
    let mut bytes = [0; 32];
    match rt.fill_bytes(&mut bytes) {
        Ok(()) => Ok(bytes),
        Err(error) => Err(NewKeyError::Random(error)),
    }
}

/// A new key that signs by Ed25519, whose secret is 32 random bytes (RFC 8032, 5.1.5).
pub fn new_ed25519<R: RandomSource>(alloc: Global, rt: &R) -> Result<SigningKey, NewKeyError>
    ensures { IfOk result (λ k. (secret : List ℕ) × IsSigner Kind.Ed25519 secret k) }
{
    let secret = match secret(rt) {
        Ok(secret) => secret,
        Err(error) => return Err(error),
    };
    Ok(SigningKey::ed25519(alloc, &secret)?)
}

/// A new key that signs by ECDSA on P-256, whose secret is a random number in [1, n - 1] (FIPS 186-5, A.2.2).
pub fn new_ecdsa<R: RandomSource>(alloc: Global, rt: &R) -> Result<SigningKey, NewKeyError>
    ensures { IfOk result (λ k. (secret : List ℕ) × IsSigner Kind.Ecdsa secret k) }
{
    for _ in 0..TRIES {
        let secret = match secret(rt) {
            Ok(secret) => secret,
            Err(error) => return Err(error),
        };
        if let Some(key) = SigningKey::ecdsa(alloc, &secret)? {
            return Ok(key);
        }
    }
    Err(NewKeyError::NoSecret)
}
