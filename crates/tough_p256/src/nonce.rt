//! The candidates for the nonce of a signature (RFC 6979, 3.2).

ghost use Rattle.std.specs.Prelude.{◌≡◌, ◌∷◌, ◌++◌};
ghost use Rattle.tough_modular.specs.Number.{number};
ghost use Rattle.tough_p256.specs.Nonces.{generator, blank, next, reseeded, candidate};

use crate::hmac::{hmac, hmac_of_pieces};
use crate::octets::words_of;
use std::marker::Model;

/// What gives the candidates: K and V.
#[derive(Drop)]
pub struct Generator {
    key: [u8; 32],
    value: [u8; 32],
}

impl Model for Generator {
    ghost use Rattle.tough_p256.specs.Nonces.{Generator};

    ghost Value = { Generator };

    ghost view = { λ s. record { key = s.key; value = s.value } };
}

impl Generator {
    // As it is before any secret.
    fn blank() -> Generator
        ensures { result ≡ blank }
    {
        Generator {
            key: [0; 32],
            value: [1; 32],
        }
    }

    /// With another V.
    pub fn next(&self) -> Generator
        ensures { result ≡ next self.now }
    {
        Generator {
            key: self.key,
            value: hmac(&self.key, &self.value),
        }
    }

    /// With another K, which depends on these pieces, and another V.
    pub fn reseed(&self, tag: u8, secret: &[u8], hash: &[u8]) -> Generator
        ensures { result ≡ reseeded self.now (tag ∷ secret.now ++ hash.now) }
    {
        let key = hmac_of_pieces(&self.key, &self.value, tag, secret, hash);
        let value = hmac(&key, &self.value);
        Generator { key, value }
    }

    /// As it is for the secret and the hash.
    pub fn start(secret: &[u8; 32], hash: &[u8; 32]) -> Generator
        ensures { result ≡ generator secret.now hash.now }
    {
        Generator::blank()
            .reseed(0, secret, hash)
            .reseed(1, secret, hash)
    }

    /// The candidate.
    pub fn candidate(&self) -> [u64; 4]
        ensures { number result ≡ candidate self.now }
    {
        words_of(&self.value)
    }
}
