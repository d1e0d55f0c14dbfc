//! Bytes, and the texts that they are read from.

use crate::case::text;
use crate::compare::compared;
use anyhow::Result;
use serde_json::Value;
use std::alloc::Global;
use tough_decoded::{Compat, Decode, Decoded, EcdsaFlex, EcdsaPem, Encode, Hex, RsaPem};

// The bytes of a text and the text of their clone, or why there are none.
fn decoded<T: Decode>(alloc: Global, input: &str) -> Result<String> {
    let value: Decoded<T> = match Decoded::from_str(alloc, input) {
        Ok(value) => value,
        Err(error) => {
            let shown = Compat(error);
            return Ok(format!(in alloc; "{shown:?}: {shown}")?);
        }
    };
    let again = value.clone()?;
    let told = format!(in alloc; "{:?} from {}", value.as_slice(), again.as_str())?;
    let same = value.eq_bytes(again.into_vec().as_slice());
    Ok(format!(in alloc; "{told}, eq_bytes {same}")?)
}

// How the bytes of two texts compare.
fn compare_digits(alloc: Global, input: &str, other: &str) -> Result<String> {
    let one: Decoded<Hex> = Decoded::from_str(alloc, input)?;
    let other: Decoded<Hex> = Decoded::from_str(alloc, other)?;
    compared(alloc, &one, &other)
}

// The digits that bytes are spelled in, and those that they are written in. The bytes are told by digits of either case.
fn spell(alloc: Global, input: &str) -> Result<String> {
    let bytes = hex::decode(alloc, input)?;
    let written = Hex::encode(alloc, bytes.as_slice())?;
    let value = Decoded::from_vec(alloc, bytes)?;
    Ok(format!(in alloc; "{}, written {written}", value.as_str())?)
}

/// What a call on decoded bytes answers, if it is one.
pub(crate) fn answer(alloc: Global, call: &str, case: &Value) -> Result<Option<String>> {
    let input = text(case, "input");
    Ok(match call {
        "Decoded<Hex>" => Some(decoded::<Hex>(alloc, input)?),
        "Decoded<RsaPem>" => Some(decoded::<RsaPem>(alloc, input)?),
        "Decoded<EcdsaPem>" => Some(decoded::<EcdsaPem>(alloc, input)?),
        "Decoded<EcdsaFlex>" => Some(decoded::<EcdsaFlex>(alloc, input)?),
        "Decoded<Hex>::cmp" => Some(compare_digits(alloc, input, text(case, "other"))?),
        "Decoded<Hex>::from_vec" => Some(spell(alloc, input)?),
        _ => None,
    })
}
