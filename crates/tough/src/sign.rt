//! Signers.

pub use tough_schema::{Sign, SignError};
