//! RSASSA-PSS with SHA-256 (RFC 8017, 8.1.2 and 9.1.2): which signatures verify by keys of 2,048 to 8,192 bits. Nothing is allocated.
//!
//! Not here: signing, which needs a secret kept apart. Not promised: that nobody without the secret can sign.
#![tactic(auto)]

pub mod laws;
mod pss;
mod signature;

pub use signature::verify;
