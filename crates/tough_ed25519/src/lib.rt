//! Ed25519 (RFC 8032, 5.1, PureEdDSA): signatures of bytes, verified and made, and what verifies and signs by Ed25519 keys.
//!
//! Not promised: that nobody without the secret can sign, and that the signer's time and memory tell nothing of the secret.
#![tactic(auto)]

pub mod curve;
pub mod field;
mod keys;
mod kinds;
pub mod laws;
pub mod scalar;
mod secret;
mod signature;

pub use keys::{Ed25519Sign, Ed25519Verify};
pub use kinds::{NoVerify, Verifiers};
pub use secret::{key_of, sign};
pub use signature::verify;
