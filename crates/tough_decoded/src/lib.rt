//! Values that are written as texts and kept as they were spelled: hexadecimal digits and PEM; and the path of a URL.
#![tactic(auto)]

mod compat;
mod decoded;
mod url_path;

pub use compat::Compat;
pub use decoded::{Decode, DecodeError, Decoded, EcdsaFlex, EcdsaPem, Encode, Hex, RsaPem};
pub use url_path::SafeUrlPath;
