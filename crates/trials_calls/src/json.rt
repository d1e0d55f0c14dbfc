//! JSON and its texts.

use crate::case::text;
use anyhow::Result;
use serde_json::Value;
use std::alloc::Global;
use tough_json::borrowed::{Scratch, borrowed, value_in};
use tough_json::text::{bytes_of, value_of};
use tough_json::{Form, ObjectText, PieceError, ReadError, canonical, moment_text};

// A text with its control characters as two digits.
fn shown(alloc: Global, bytes: &[u8]) -> Result<String> {
    let mut out = String::new(alloc);
    for c in str::from_utf8(bytes)?.chars() {
        if c.is_control() {
            out.push_str(format!(in alloc; "\\x{:02x}", u32::from(c))?.as_str())?;
        } else {
            out.push(c)?;
        }
    }
    Ok(out)
}

// The canonical text of the value that a text is.
fn canonical_text(alloc: Global, input: &str) -> Result<String> {
    let value = match Value::from_str(alloc, input) {
        Ok(value) => value,
        Err(error) if error.is_memory() => return Err(error.into()),
        Err(_) => return Ok(String::from_str(alloc, "no JSON")?),
    };
    match canonical(alloc, &value) {
        Ok(bytes) => shown(alloc, bytes.as_slice()),
        Err(error) => Ok(format!(in alloc; "{error:?}")?),
    }
}

// The compact text of the value that the bytes are.
fn compact_text(alloc: Global, bytes: &[u8]) -> Result<String> {
    match value_of(alloc, bytes) {
        Ok(value) => shown(alloc, bytes_of(alloc, &value)?.as_slice()),
        Err(error) => Ok(format!(in alloc; "{error:?}")?),
    }
}

// The compact text of the value that a text is, where the value was read from JSON that borrows the text.
fn borrowed_text(alloc: Global, input: &str) -> Result<String> {
    let mut scratch = Scratch::new(alloc);
    let found = match borrowed(alloc, input.as_bytes(), &mut scratch) {
        Ok(found) => found,
        Err(ReadError::Memory) => return Err(ReadError::Memory.into()),
        Err(_) => return Ok(String::from_str(alloc, "refused")?),
    };
    let value = value_in(alloc, &found)?;
    shown(alloc, bytes_of(alloc, &value)?.as_slice())
}

// How an instant is written.
fn instant_text(alloc: Global, input: &str) -> Result<String> {
    let Ok(instant) = input.parse::<jiff::Timestamp>() else {
        return Ok(String::from_str(alloc, "no instant")?);
    };
    match moment_text(alloc, instant) {
        Ok(written) => Ok(written),
        Err(error) => Ok(format!(in alloc; "{error:?}")?),
    }
}

// Adds a member to an object's text, by its value or by the value's text.
fn push_member(
    alloc: Global,
    object: &mut ObjectText,
    member: &Value,
) -> std::result::Result<(), PieceError> {
    let name = text(member, "name");
    match member.get("value") {
        Some(value) => object.push(alloc, name, value),
        None => object.push_text(name, text(member, "text").as_bytes()),
    }
}

// The text of an object that is written member by member.
fn object_text(alloc: Global, case: &Value) -> Result<String> {
    let form = match text(case, "form") {
        "canonical" => Form::Canonical,
        "both" => Form::Both,
        _ => Form::Compact,
    };
    let mut object = ObjectText::new(alloc, form)?;
    if let Some(members) = case.get("members").and_then(Value::as_array) {
        for member in members {
            match push_member(alloc, &mut object, member) {
                Ok(()) => {}
                Err(PieceError::Refused) => return Ok(String::from_str(alloc, "refused")?),
                Err(error) => return Err(error.into()),
            }
        }
    }
    shown(alloc, object.finish()?.as_slice())
}

/// What a call on JSON answers, if it is one.
pub(crate) fn answer(alloc: Global, call: &str, case: &Value) -> Result<Option<String>> {
    let input = text(case, "input");
    Ok(match call {
        "canonical" => Some(canonical_text(alloc, input)?),
        "value_of" => Some(compact_text(alloc, input.as_bytes())?),
        "value_of digits" => Some(compact_text(alloc, hex::decode(alloc, input)?.as_slice())?),
        "borrowed" => Some(borrowed_text(alloc, input)?),
        "moment_text" => Some(instant_text(alloc, input)?),
        "ObjectText" => Some(object_text(alloc, case)?),
        _ => None,
    })
}
