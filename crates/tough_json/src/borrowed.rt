//! JSON that borrows its text: a tree with no maps, which takes a quarter of a `Value`'s memory. A `Value` is made of the
//! parts that are wanted.

ghost use Rattle.std.specs.Prelude.{◌≡◌, Some, None, is_some, option_map, option_and_then, IfOk};
ghost use Rattle.json.specs.Value.{value_view as json_view, items_view as json_items, members_view as json_members};
ghost use Rattle.json.specs.Find.{get_member as last_member};
ghost use Rattle.serde_json.specs.Data.{Members, no_members};
ghost use Rattle.serde_json.specs.Read.{of_json, of_items, of_members};
ghost use Rattle.json.specs.Json.{number};
ghost use Rattle.serde_json.specs.View.{view, items_view, members_view};
ghost use Rattle.tough_json.specs.Borrowed.{Converts, ReadsBorrowed, ReadsDocument, TakesMember, listed};
ghost use Rattle.tough_json.specs.Reading.{without};
ghost use Rattle.tough_json.specs.Results.{Reads};

use crate::error::{ReadError, missing};
use crate::number::number_in;
use json::Reader;
pub use json::{Scratch, Value as Borrowed};
use serde_json::{Map, Number, Value};
use std::alloc::{AllocError, Global};
use std::collections::BTreeMap;

// How deep arrays and objects may nest.
const MAX_DEPTH: usize = 127;

fn number_value(text: &str) -> Result<Value, ReadError>
    ensures { Converts view result (of_json (number text.now)) }
{
    match number_in(text) {
        Some(number) => Ok(Value::Number(number)),
        None => Err(ReadError::Json(0)),
    }
}

/// The value that the part stands for; `Json` where a number of it is out of range.
#[cycle(value_in)]
pub fn value_in(alloc: Global, part: &Borrowed<'_>) -> Result<Value, ReadError>
    ensures { Converts view result (of_json (json_view part.now)) }
{
    match part {
        Borrowed::Null => Ok(Value::Null),
        Borrowed::Bool(truth) => Ok(Value::Bool(*truth)),
        Borrowed::Number(text) => number_value(text),
        Borrowed::String(text) => Ok(Value::String(String::from_str(alloc, text)?)),
        Borrowed::Array(items) => Ok(Value::Array(items_in(alloc, items)?)),
        Borrowed::Object(members) => Ok(Value::Object(members_in(alloc, members)?)),
    }
}

#[cycle(value_in)]
fn items_in(alloc: Global, items: &Vec<Borrowed<'_>>) -> Result<Vec<Value>, ReadError>
    ensures { Converts (λ v. items_view v.items) result (of_items (json_items items.now.items)) }
{
    let mut values = Vec::with_capacity(alloc, items.len())?;
    for item in items {
        let value = value_in(alloc, item)?;
        values.push(value)?;
    }
    Ok(values)
}

#[cycle(value_in)]
fn members_in(
    alloc: Global,
    members: &Vec<(&str, Borrowed<'_>)>,
) -> Result<Map<String, Value>, ReadError>
    ensures { Converts (λ m. members_view m.entries) result
        (of_members (json_members members.now.items) no_members) }
{
    let mut values = Map::new(alloc);
    for member in members {
        let value = value_in(alloc, &member.1)?;
        let name = String::from_str(alloc, member.0)?;
        drop(values.insert(name, value)?);
    }
    Ok(values)
}

// Whether each number is in range.
#[cycle(is_value)]
fn is_value(part: &Borrowed<'_>) -> bool
    ensures { result ≡ is_some (of_json (json_view part.now)) }
{
    match part {
        Borrowed::Number(text) => number_in(text).is_some(),
        Borrowed::Array(items) => are_values(items),
        Borrowed::Object(members) => have_values(members),
        _ => true,
    }
}

#[cycle(is_value)]
fn are_values(items: &Vec<Borrowed<'_>>) -> bool
    ensures { result ≡ is_some (of_items (json_items items.now.items)) }
{
    for item in items {
        if !is_value(item) {
            return false;
        }
    }
    true
}

#[cycle(is_value)]
fn have_values(members: &Vec<(&str, Borrowed<'_>)>) -> bool
    ensures { result ≡ is_some (of_members (json_members members.now.items) no_members) }
{
    for member in members {
        if !is_value(&member.1) {
            return false;
        }
    }
    true
}

// The value that the text is.
fn text_in<'a>(
    alloc: Global,
    text: &'a str,
    scratch: &'a mut Scratch,
) -> Result<Borrowed<'a>, ReadError>
    ensures { ReadsDocument result text.now }
{
    let mut reader = Reader::new(text, scratch)?;
    let value = match Borrowed::read(alloc, &mut reader, MAX_DEPTH) {
        Ok(value) => value,
        Err(json::Error::OutOfMemory) => return Err(ReadError::Memory),
        Err(_) => return Err(ReadError::Json(reader.offset())),
    };
    if reader.next().is_some() {
        return Err(ReadError::Json(reader.offset()));
    }
    Ok(value)
}

/// The place of the byte from which on the bytes are no JSON, for a message: 0 where a number is out of range, or there is no memory to tell.
pub fn place_in(alloc: Global, bytes: &[u8]) -> usize {
    let text = match simdutf8::compat::from_utf8(bytes) {
        Ok(text) => text,
        Err(error) => return error.valid_up_to(),
    };
    let mut scratch = Scratch::new(alloc);
    match text_in(alloc, text, &mut scratch) {
        Err(ReadError::Json(place)) => place,
        _ => 0,
    }
}

/// The JSON value that the bytes are, each number of which is in range; `Json` where they are none.
pub fn borrowed<'a>(
    alloc: Global,
    bytes: &'a [u8],
    scratch: &'a mut Scratch,
) -> Result<Borrowed<'a>, ReadError>
    ensures { ReadsBorrowed result bytes.now }
{
    let Ok(text) = simdutf8::basic::from_utf8(bytes) else {
        return Err(ReadError::Json(place_in(alloc, bytes)));
    };
    let value = match text_in(alloc, text, scratch) {
        Ok(value) => value,
        Err(error) => return Err(error),
    };
    if is_value(&value) {
        Ok(value)
    } else {
        Err(ReadError::Json(0))
    }
}

/// The last of the members of the name: the one that counts.
pub fn last_of<'a>(members: Vec<(&'a str, Borrowed<'a>)>, name: &str) -> Option<Borrowed<'a>>
    ensures { option_map json_view result
        ≡ last_member name.now (json_members members.entry.items) }
{
    let mut left = members;
    while let Some((key, value)) = left.pop() {
        if key == name {
            return Some(value);
        }
    }
    None
}

/// The object of the members, but for those of the name.
pub fn others_in(
    alloc: Global,
    members: &[(&str, Borrowed<'_>)],
    name: &str,
) -> Result<Map<String, Value>, ReadError>
    ensures { (ms : Members) → of_members (json_members members.now) no_members ≡ Some ms
        → Reads (λ m. members_view m.entries) result (Some (without name.now ms)) }
{
    let mut values = Map::new(alloc);
    for member in members {
        if member.0 == name {
            continue;
        }
        let value = value_in(alloc, &member.1)?;
        let key = String::from_str(alloc, member.0)?;
        drop(values.insert(key, value)?);
    }
    Ok(values)
}

/// The members in the order of their names' bytes; of a name that comes twice the last.
pub fn in_order<'a>(
    alloc: Global,
    members: Vec<(&'a str, Borrowed<'a>)>,
) -> Result<BTreeMap<&'a str, Borrowed<'a>>, AllocError>
    ensures { IfOk result (λ m. (ms : Members)
        → of_members (json_members members.entry.items) no_members ≡ Some ms
        → listed m.entries ≡ Some ms) }
{
    let mut found = BTreeMap::new(alloc);
    for (name, value) in members {
        drop(found.insert(name, value)?);
    }
    Ok(found)
}

/// The last member of the name, which must be there, and the object of the others.
pub fn take_member<'a>(
    alloc: Global,
    members: Vec<(&'a str, Borrowed<'a>)>,
    name: &str,
) -> Result<(Borrowed<'a>, Map<String, Value>), ReadError>
    ensures { (ms : Members) → of_members (json_members members.entry.items) no_members ≡ Some ms
        → TakesMember (λ m. members_view m.entries) name.now ms result }
{
    let others = match others_in(alloc, &members, name) {
        Ok(others) => others,
        Err(error) => return Err(error),
    };
    match last_of(members, name) {
        Some(value) => Ok((value, others)),
        None => Err(missing(alloc, name)),
    }
}
