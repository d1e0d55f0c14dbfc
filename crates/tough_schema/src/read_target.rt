//! Targets' entries, read from JSON.

ghost use Rattle.std.specs.Prelude.{◌≡◌, option_map};
ghost use Rattle.serde_json.specs.Find.{as_object};
ghost use Rattle.serde_json.specs.View.{view, members_view};
ghost use Rattle.tough_json.specs.Reading.{required, whole};
ghost use Rattle.tough_json.specs.Results.{Reads, Takes};
ghost use Rattle.tough_roles.specs.Timestamp.{hashes_doc, hashes_at};
ghost use Rattle.tough_schema.specs.Target.{target_doc, target_at, custom_at, object_or_empty};

use crate::target::Target;
use serde_json::{Map, Value};
use std::alloc::Global;
use tough_json::error::{ReadError, member_shape, missing, shape, within};
use tough_json::member::take;
use tough_roles::Hashes;
use tough_roles::read_timestamp::hashes_of;

// A whole number that must be there.
fn size(alloc: Global, members: &mut Map<String, Value>, name: &str) -> Result<u64, ReadError>
    ensures { Takes (λ n. n) result (members_view members.new.entries)
        (required name.now whole (members_view members.old.entries)) }
{
    let Some(value) = take(members, name) else {
        return Err(missing(alloc, name));
    };
    match value.as_u64() {
        Some(number) => Ok(number),
        None => Err(member_shape(alloc, name, "(no number from 0 on)")),
    }
}

// Hashes that must be there.
fn hashes(alloc: Global, members: &mut Map<String, Value>, name: &str) -> Result<Hashes, ReadError>
    ensures { Takes hashes_doc result (members_view members.new.entries)
        (required name.now hashes_at (members_view members.old.entries)) }
{
    match take(members, name) {
        Some(value) => match hashes_of(alloc, value) {
            Ok(hashes) => Ok(hashes),
            Err(error) => Err(within(alloc, name, error)),
        },
        None => Err(missing(alloc, name)),
    }
}

// An object that may be absent.
fn object_of(alloc: Global, found: Option<Value>) -> Result<Map<String, Value>, ReadError>
    ensures { Reads (λ m. members_view m.entries) result (object_or_empty (option_map view found)) }
{
    match found {
        None => Ok(Map::new(alloc)),
        Some(value) => object_in(alloc, value),
    }
}

fn object_in(alloc: Global, value: Value) -> Result<Map<String, Value>, ReadError>
    ensures { Reads (λ m. members_view m.entries) result (as_object (view value)) }
{
    match value {
        Value::Object(inner) => Ok(inner),
        _ => Err(member_shape(alloc, "custom", "(no object)")),
    }
}

// The application's own members of the target, which may be absent.
fn custom(alloc: Global, members: &mut Map<String, Value>) -> Result<Map<String, Value>, ReadError>
    ensures { Takes (λ m. members_view m.entries) result (members_view members.new.entries)
        (custom_at (members_view members.old.entries)) }
{
    let found = take(members, "custom");
    let custom = object_of(alloc, found)?;
    Ok(custom)
}

/// Reads a target. `Shape` if the value is none.
#[tactic(auto, unfolding(crate::specs::Target::target_at))]
pub(crate) fn target_of(alloc: Global, value: Value) -> Result<Target, ReadError>
    ensures { Reads target_doc result (target_at (view value)) }
{
    let Value::Object(mut members) = value else {
        return Err(shape(alloc, "(no object)"));
    };
    let length = size(alloc, &mut members, "length")?;
    let hashes = hashes(alloc, &mut members, "hashes")?;
    let custom = custom(alloc, &mut members)?;
    Ok(Target {
        length,
        hashes,
        custom,
        _extra: members,
    })
}
