//! Numbers of up to 128 words of 64 bits: as bytes, compared, and raised to powers modulo an odd number, by Montgomery's products (Koç, Acar,
//! Kaliski 1996).
#![tactic(auto)]

mod inverse;
mod montgomery;
mod octets;
mod raising;
mod sums;

pub use octets::{byte_of, set_bytes, set_number};
pub use raising::power;
pub use sums::{add_product_to, is_below, sub_with_borrow};
