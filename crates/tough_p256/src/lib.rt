//! ECDSA on the curve P-256 with SHA-256 (FIPS 186-5, 6.4): signatures verified, and made with the nonces of RFC 6979, so that signing needs
//! no randomness. Nothing is allocated.
//!
//! Not promised: that nobody without the secret can sign, and that the signer's time and memory tell nothing of the secret.
#![tactic(auto)]

mod bits;
mod element;
mod hmac;
pub mod laws;
mod nonce;
mod octets;
mod point;
mod pow;
mod residues;
mod rows;
mod scalar;
mod signature;
mod signing;

pub use signature::verify;
pub use signing::{is_secret, public_key, sign};
