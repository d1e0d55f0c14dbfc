//! The curve edwards25519: its points, their encoding, and the check of a signature on numbers (RFC 8032, 5.1).

mod coding;
pub mod laws;
mod point;
mod signature;

pub use point::Point;
pub use signature::check;
