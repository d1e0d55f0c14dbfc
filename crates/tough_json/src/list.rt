//! Lists of JSON values, each read in the same way.

ghost use Rattle.std.specs.Prelude.{◌≡◌, Option, map};
ghost use Rattle.serde_json.specs.Data.{Data};
ghost use Rattle.serde_json.specs.View.{view, items_view, members_view};
ghost use Rattle.tough_decoded.specs.Spelled.{Spelled};
ghost use Rattle.tough_json.specs.Reading.{required, listing, all_at, decoded};
ghost use Rattle.tough_json.specs.Results.{Reads, Takes};

use crate::error::{ReadError, at, member_shape, missing, shape, within};
use crate::member::take;
use serde_json::{Map, Value};
use std::alloc::Global;
use tough_decoded::{Decode, DecodeError, Decoded};

/// What is read from a JSON value. `doc` is a value's plain data; `at` says which JSON is read, and as what.
pub trait FromJson {
    ghost Doc: { Type 0 };

    ghost doc: { Self → Doc };

    ghost at: { Data → Option Doc };

    /// What the JSON is; `Shape` where it is none.
    fn from_json(alloc: Global, value: Value) -> Result<Self, ReadError>
        ensures { Reads doc result (at (view value)) };
}

impl<T: Decode> FromJson for Decoded<T> {
    ghost Doc = { Spelled };

    ghost doc = { λ d. d };

    ghost at = { decoded T.decodes };

    fn from_json(alloc: Global, value: Value) -> Result<Decoded<T>, ReadError> {
        match value {
            Value::String(text) => match Decoded::from_str(alloc, text.as_str()) {
                Ok(decoded) => Ok(decoded),
                Err(DecodeError::Memory) => Err(ReadError::Memory),
                Err(_) => Err(shape(alloc, "(cannot be decoded)")),
            },
            _ => Err(shape(alloc, "(no text)")),
        }
    }
}

// The item at the place.
fn item_of<T: FromJson>(alloc: Global, place: usize, value: Value) -> Result<T, ReadError>
    ensures { Reads T.doc result (T.at (view value)) }
{
    match T::from_json(alloc, value) {
        Ok(item) => Ok(item),
        Err(error) => Err(at(alloc, place, error)),
    }
}

/// Each of the values, read.
pub fn list_of<T: FromJson + Drop>(alloc: Global, values: Vec<Value>) -> Result<Vec<T>, ReadError>
    ensures { Reads (λ v. map T.doc v.items) result (all_at T.at (items_view values.items)) }
{
    let mut list = Vec::new(alloc);
    for value in values {
        let item = item_of(alloc, list.len(), value)?;
        list.push(item)?;
    }
    Ok(list)
}

/// The member of the name, as a list, which must be there.
pub fn list<T: FromJson + Drop>(
    alloc: Global,
    members: &mut Map<String, Value>,
    name: &str,
) -> Result<Vec<T>, ReadError>
    ensures { Takes (λ v. map T.doc v.items) result (members_view members.new.entries)
        (required name.now (listing T.at) (members_view members.old.entries)) }
{
    match take(members, name) {
        Some(Value::Array(items)) => match list_of(alloc, items) {
            Ok(list) => Ok(list),
            Err(error) => Err(within(alloc, name, error)),
        },
        Some(_) => Err(member_shape(alloc, name, "(no list)")),
        None => Err(missing(alloc, name)),
    }
}
