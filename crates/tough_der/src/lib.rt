//! Distinguished encodings (X.690) of keys and signatures, read exactly: a reader answers a value where the bytes are its encoding, and none
//! where they are the encoding of none.
#![tactic(auto)]

mod element;
mod integer;
pub mod laws;
mod lines;
mod pem;
mod public;
mod secret;
mod signature;
#[cfg(test)]
mod tests;
mod write;

pub use lines::write_pem;
pub use pem::read_pem;
pub use public::{read_ed25519, read_p256, read_rsa};
pub use secret::{read_ed25519_secret, read_p256_secret};
pub use signature::read_signature;
pub use write::{
    write_ed25519, write_ed25519_secret, write_p256, write_p256_secret, write_signature,
};
