ghost use Rattle.std.specs.Prelude.{◌≡◌, Some, IfOk, OnOk, option_map, is_none, string_bytes};
ghost use Rattle.std.specs.Int.NonZero.{non_zero_u64_get};
ghost use Rattle.serde_json.specs.View.{view, members_view};
ghost use Rattle.serde_json.specs.Data.{string, put};
ghost use Rattle.serde_json.specs.Find.{get_member};
ghost use Rattle.tough_json.specs.Results.{Writes};
ghost use Rattle.tough_json.specs.Writing.{with, with_optional, positive_json, decoded_json};

use crate::error::WriteError;
use serde_json::{Map, Value};
use std::alloc::{AllocError, Global};
use std::num::NonZeroU64;
use tough_decoded::{Decode, Decoded};

/// Whether no member has the name.
pub fn is_free(members: &Map<String, Value>, name: &str) -> bool
    ensures { result ≡ is_none (get_member name.now (members_view members.now.entries)) }
{
    !members.contains_key(name)
}

/// The members with one more, whose name is free.
pub fn with(
    alloc: Global,
    mut members: Map<String, Value>,
    name: &str,
    value: Value,
) -> Result<Map<String, Value>, WriteError>
    ensures { Writes (λ m. members_view m.entries) result
        (with name.now (view value) (members_view members.entries)) }
{
    if !is_free(&members, name) {
        return Err(WriteError::Unwritable);
    }
    members.insert(String::from_str(alloc, name)?, value)?;
    Ok(members)
}

/// The same where the member may be absent.
pub fn with_optional(
    alloc: Global,
    members: Map<String, Value>,
    name: &str,
    value: Option<Value>,
) -> Result<Map<String, Value>, WriteError>
    ensures { Writes (λ m. members_view m.entries) result
        (with_optional name.now (option_map view value) (members_view members.entries)) }
{
    match value {
        Some(value) => with(alloc, members, name, value),
        None if !is_free(&members, name) => Err(WriteError::Unwritable),
        None => Ok(members),
    }
}

/// The unknown members again.
pub fn copy_members(
    alloc: Global,
    members: &Map<String, Value>,
) -> Result<Map<String, Value>, AllocError>
    ensures { IfOk result (λ m. members_view m.entries ≡ members_view members.now.entries) }
{
    let mut copies = Map::new(alloc);
    for (key, member) in members.iter() {
        let name = key.clone()?;
        drop(copies.insert(name, member.clone()?)?);
    }
    Ok(copies)
}

/// The JSON of a number from 1 on.
pub fn positive_value(number: NonZeroU64) -> Value
    ensures { positive_json (non_zero_u64_get number) ≡ Some (view result) }
{
    Value::from(number.get())
}

/// One more member that is a text.
pub fn with_text(
    alloc: Global,
    members: Map<String, Value>,
    name: &str,
    text: &str,
) -> Result<Map<String, Value>, WriteError>
    ensures { Writes (λ m. members_view m.entries) result
        (with name.now (string text.now) (members_view members.entries)) }
{
    let value = Value::String(String::from_str(alloc, text)?);
    with(alloc, members, name, value)
}

/// The members with one more, in the place of one of the name.
pub fn put(
    alloc: Global,
    members: &mut Map<String, Value>,
    name: &str,
    value: Value,
) -> Result<(), AllocError>
    ensures { OnOk result (members_view members.new.entries
        ≡ put name.now (view value) (members_view members.old.entries)) }
{
    drop(members.insert(String::from_str(alloc, name)?, value)?);
    Ok(())
}

/// The spelling that was read.
pub fn digits<T: Decode>(alloc: Global, bytes: &Decoded<T>) -> Result<Value, AllocError>
    ensures { IfOk result (λ v. decoded_json T.decodes bytes.now ≡ Some (view v)) }
{
    Ok(Value::String(String::from_str(alloc, bytes.as_str())?))
}
