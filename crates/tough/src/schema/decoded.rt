//! Values that stand in documents as texts.

pub use tough_decoded::{
    Compat, Decode, DecodeError, Decoded, EcdsaFlex, EcdsaPem, Encode, Hex, RsaPem,
};
