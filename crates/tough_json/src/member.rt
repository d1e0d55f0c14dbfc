ghost use Rattle.std.specs.Prelude.{◌≡◌, option_map, Some, string_bytes};
ghost use Rattle.std.specs.Int.NonZero.{non_zero_u64_get};
ghost use Rattle.serde_json.specs.View.{view, items_view, members_view};
ghost use Rattle.serde_json.specs.Find.{get_member, as_object};
ghost use Rattle.tough_json.specs.Reading.{without, required, optional, stated, text, whole, positive, hexadecimal, decoded, instant, present, as_items, truth};
ghost use Rattle.tough_json.specs.Results.{Reads, Takes};

use crate::error::{ReadError, member_shape, missing};
use serde_json::{Map, Value};
use std::alloc::Global;
use std::num::NonZeroU64;
use tough_decoded::{Decode, DecodeError, Decoded, Hex};

fn remove(members: &mut Map<String, Value>, name: &str) -> Option<Value>
    ensures value { option_map view result
        ≡ get_member name.now (members_view members.old.entries) }
    ensures left { members_view members.new.entries
        ≡ without name.now (members_view members.old.entries) }
{
    members.remove(name)
}

// An object that is empty keeps no room.
fn trim(members: &mut Map<String, Value>)
    ensures { members.new.entries ≡ members.old.entries }
{
    if members.is_empty() {
        members.clear();
    }
}

/// Takes a member out.
pub fn take(members: &mut Map<String, Value>, name: &str) -> Option<Value>
    ensures value { option_map view result
        ≡ get_member name.now (members_view members.old.entries) }
    ensures left { members_view members.new.entries
        ≡ without name.now (members_view members.old.entries) }
{
    let found = remove(members, name);
    trim(members);
    found
}

/// A text that must be there.
pub fn text(
    alloc: Global,
    members: &mut Map<String, Value>,
    name: &str,
) -> Result<String, ReadError>
    ensures { Takes string_bytes result (members_view members.new.entries)
        (required name.now text (members_view members.old.entries)) }
{
    match take(members, name) {
        Some(Value::String(text)) => Ok(text),
        Some(_) => Err(member_shape(alloc, name, "(no text)")),
        None => Err(missing(alloc, name)),
    }
}

/// A number from 1 on that must be there.
pub fn positive(
    alloc: Global,
    members: &mut Map<String, Value>,
    name: &str,
) -> Result<NonZeroU64, ReadError>
    ensures { Takes non_zero_u64_get result (members_view members.new.entries)
        (required name.now positive (members_view members.old.entries)) }
{
    let Some(value) = take(members, name) else {
        return Err(missing(alloc, name));
    };
    let Some(number) = value.as_u64() else {
        return Err(member_shape(alloc, name, "(no number from 1 on)"));
    };
    match NonZeroU64::new(number) {
        Some(number) => Ok(number),
        None => Err(member_shape(alloc, name, "(no number from 1 on)")),
    }
}

/// A member that is there and not null.
pub fn present(members: &mut Map<String, Value>, name: &str) -> Option<Value>
    ensures value { option_map view result ≡ present name.now (members_view members.old.entries) }
    ensures left { members_view members.new.entries
        ≡ without name.now (members_view members.old.entries) }
{
    match take(members, name) {
        Some(Value::Null) => None,
        found => found,
    }
}

/// A number that may be absent.
pub fn length(
    alloc: Global,
    members: &mut Map<String, Value>,
    name: &str,
) -> Result<Option<u64>, ReadError>
    ensures { Takes (λ n. n) result (members_view members.new.entries)
        (optional name.now whole (members_view members.old.entries)) }
{
    match present(members, name) {
        None => Ok(None),
        Some(value) => match value.as_u64() {
            Some(number) => Ok(Some(number)),
            None => Err(member_shape(alloc, name, "(no number from 0 on)")),
        },
    }
}

/// A text that stands for bytes and must be there.
pub fn decoded<T: Decode>(
    alloc: Global,
    members: &mut Map<String, Value>,
    name: &str,
) -> Result<Decoded<T>, ReadError>
    ensures { Takes (λ d. d) result (members_view members.new.entries)
        (required name.now (decoded T.decodes) (members_view members.old.entries)) }
{
    match take(members, name) {
        Some(Value::String(text)) => match Decoded::from_string(alloc, text) {
            Ok(decoded) => Ok(decoded),
            Err(DecodeError::Memory) => Err(ReadError::Memory),
            Err(_) => Err(member_shape(alloc, name, "(cannot be decoded)")),
        },
        Some(_) => Err(member_shape(alloc, name, "(no text)")),
        None => Err(missing(alloc, name)),
    }
}

/// Hexadecimal digits that must be there.
pub fn hexadecimal(
    alloc: Global,
    members: &mut Map<String, Value>,
    name: &str,
) -> Result<Decoded<Hex>, ReadError>
    ensures { Takes (λ d. d) result (members_view members.new.entries)
        (required name.now hexadecimal (members_view members.old.entries)) }
{
    decoded(alloc, members, name)
}

/// Hexadecimal digits that may be absent. `null` is none.
pub fn stated_hexadecimal(
    alloc: Global,
    members: &mut Map<String, Value>,
    name: &str,
) -> Result<Option<Decoded<Hex>>, ReadError>
    ensures { Takes (λ d. d) result (members_view members.new.entries)
        (stated name.now hexadecimal (members_view members.old.entries)) }
{
    match take(members, name) {
        None => Ok(None),
        Some(Value::String(text)) => match Decoded::from_string(alloc, text) {
            Ok(decoded) => Ok(Some(decoded)),
            Err(DecodeError::Memory) => Err(ReadError::Memory),
            Err(_) => Err(member_shape(alloc, name, "(cannot be decoded)")),
        },
        Some(_) => Err(member_shape(alloc, name, "(no text)")),
    }
}

/// An instant that must be there.
pub fn instant(
    alloc: Global,
    members: &mut Map<String, Value>,
    name: &str,
) -> Result<jiff::Timestamp, ReadError>
    ensures { Takes (λ t. t.nanosecond) result (members_view members.new.entries)
        (required name.now instant (members_view members.old.entries)) }
{
    match take(members, name) {
        Some(Value::String(text)) => match text.as_str().parse::<jiff::Timestamp>() {
            Ok(instant) => Ok(instant),
            Err(_) => Err(member_shape(alloc, name, "(no instant)")),
        },
        Some(_) => Err(member_shape(alloc, name, "(no instant)")),
        None => Err(missing(alloc, name)),
    }
}

/// A member that must be there.
pub fn value(
    alloc: Global,
    members: &mut Map<String, Value>,
    name: &str,
) -> Result<Value, ReadError>
    ensures { Takes view result (members_view members.new.entries)
        (required name.now Some (members_view members.old.entries)) }
{
    match take(members, name) {
        Some(value) => Ok(value),
        None => Err(missing(alloc, name)),
    }
}

/// An object that must be there.
pub fn object(
    alloc: Global,
    members: &mut Map<String, Value>,
    name: &str,
) -> Result<Map<String, Value>, ReadError>
    ensures { Takes (λ m. members_view m.entries) result (members_view members.new.entries)
        (required name.now as_object (members_view members.old.entries)) }
{
    match take(members, name) {
        Some(Value::Object(inner)) => Ok(inner),
        Some(_) => Err(member_shape(alloc, name, "(no object)")),
        None => Err(missing(alloc, name)),
    }
}

/// A list that must be there.
pub fn list(
    alloc: Global,
    members: &mut Map<String, Value>,
    name: &str,
) -> Result<Vec<Value>, ReadError>
    ensures { Takes (λ v. items_view v.items) result (members_view members.new.entries)
        (required name.now as_items (members_view members.old.entries)) }
{
    match take(members, name) {
        Some(Value::Array(items)) => Ok(items),
        Some(_) => Err(member_shape(alloc, name, "(no list)")),
        None => Err(missing(alloc, name)),
    }
}

/// A truth value that must be there.
pub fn truth(alloc: Global, members: &mut Map<String, Value>, name: &str) -> Result<bool, ReadError>
    ensures { Takes (λ b. b) result (members_view members.new.entries)
        (required name.now truth (members_view members.old.entries)) }
{
    match take(members, name) {
        Some(Value::Bool(found)) => Ok(found),
        Some(_) => Err(member_shape(alloc, name, "(neither true nor false)")),
        None => Err(missing(alloc, name)),
    }
}
