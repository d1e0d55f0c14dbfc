//! The field of edwards25519, the numbers modulo p = 2^255 - 19 (RFC 8032, 5.1), and numbers of 256 bits.

mod bytes;
mod element;
mod limbs;
mod pow;
mod sums;
mod words;

pub use element::Element;
pub use words::Words;
