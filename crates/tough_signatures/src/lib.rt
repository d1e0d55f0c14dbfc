//! What verifies and signs by the keys of the field: Ed25519, RSA (RSASSA-PSS, RFC 8017) and ECDSA on P-256 (FIPS 186-5), new keys, and keys
//! read from texts and files.
//!
//! Not here: signing by RSA. Not promised: that nobody without the secret can sign, and that a signer's time and memory tell nothing of the
//! secret.
#![tactic(auto)]

mod ecdsa;
mod ecdsa_sign;
mod file;
pub mod laws;
mod new_key;
mod public;
mod rsa;
mod signing_key;
mod standard;
#[cfg(test)]
mod tests;

pub use ecdsa::EcdsaVerify;
pub use ecdsa_sign::EcdsaSign;
pub use file::write_new;
pub use new_key::{NewKeyError, new_ecdsa, new_ed25519};
pub use public::public_key;
pub use rsa::RsaVerify;
pub use signing_key::{SecretError, SigningKey};
pub use standard::StandardVerify;
