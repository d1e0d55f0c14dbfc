//! Timestamps, read from JSON.

ghost use Rattle.std.specs.Prelude.{◌≡◌, option_map, Some};
ghost use Rattle.serde_json.specs.View.{view, members_view};
ghost use Rattle.tough_json.specs.Reading.{each, mapping, required, optional};
ghost use Rattle.tough_json.specs.Results.{Reads, Takes};
ghost use Rattle.tough_roles.specs.Timestamp.{hashes_doc, metafile_doc, metafiles_doc, timestamp_doc, hashes_at, metafile_at, timestamp_at};

use crate::head::head_of;
use crate::timestamp::{Hashes, Metafile, Timestamp};
use serde_json::{Map, Value};
use std::alloc::Global;
use std::collections::BTreeMap;
use tough_json::error::{ReadError, member_shape, missing, shape, within};
use tough_json::member::{hexadecimal, length, positive, present, stated_hexadecimal, take};

/// The hashes that the value is; `Shape` where it is none.
#[tactic(auto, unfolding(crate::specs::Timestamp::hashes_at))]
pub fn hashes_of(alloc: Global, value: Value) -> Result<Hashes, ReadError>
    ensures { Reads hashes_doc result (hashes_at (view value)) }
{
    let Value::Object(mut members) = value else {
        return Err(shape(alloc, "(no object)"));
    };
    let sha256 = hexadecimal(alloc, &mut members, "sha256")?;
    let sha512 = stated_hexadecimal(alloc, &mut members, "sha512")?;
    Ok(Hashes {
        sha256,
        sha512,
        _extra: members,
    })
}

fn hashes(
    alloc: Global,
    members: &mut Map<String, Value>,
    name: &str,
) -> Result<Option<Hashes>, ReadError>
    ensures { Takes (option_map hashes_doc) result (members_view members.new.entries)
        (optional name.now hashes_at (members_view members.old.entries)) }
{
    match present(members, name) {
        None => Ok(None),
        Some(value) => match hashes_of(alloc, value) {
            Ok(hashes) => Ok(Some(hashes)),
            Err(error) => Err(within(alloc, name, error)),
        },
    }
}

#[tactic(auto, unfolding(crate::specs::Timestamp::metafile_at))]
fn metafile_of(alloc: Global, value: Value) -> Result<Metafile, ReadError>
    ensures { Reads metafile_doc result (metafile_at (view value)) }
{
    let Value::Object(mut members) = value else {
        return Err(shape(alloc, "(no object)"));
    };
    let version = positive(alloc, &mut members, "version")?;
    let length = length(alloc, &mut members, "length")?;
    let hashes = hashes(alloc, &mut members, "hashes")?;
    Ok(Metafile {
        length,
        hashes,
        version,
        _extra: members,
    })
}

// The same, where a refusal tells the name.
fn named_metafile(alloc: Global, name: &str, value: Value) -> Result<Metafile, ReadError>
    ensures { Reads metafile_doc result (metafile_at (view value)) }
{
    match metafile_of(alloc, value) {
        Ok(metafile) => Ok(metafile),
        Err(error) => Err(within(alloc, name, error)),
    }
}

// Each member of an object as a metafile, under its name.
fn metafiles_of(
    alloc: Global,
    members: Map<String, Value>,
) -> Result<BTreeMap<String, Metafile>, ReadError>
    ensures { Reads (λ m. metafiles_doc m.entries) result
        (each metafile_at (members_view members.entries)) }
{
    let mut metafiles = BTreeMap::new(alloc);
    for (name, value) in members {
        let metafile = named_metafile(alloc, name.as_str(), value)?;
        drop(metafiles.insert(name, metafile)?);
    }
    Ok(metafiles)
}

pub(crate) fn metafiles(
    alloc: Global,
    members: &mut Map<String, Value>,
    name: &str,
) -> Result<BTreeMap<String, Metafile>, ReadError>
    ensures { Takes (λ m. metafiles_doc m.entries) result (members_view members.new.entries)
        (required name.now (mapping metafile_at) (members_view members.old.entries)) }
{
    match take(members, name) {
        Some(Value::Object(inner)) => match metafiles_of(alloc, inner) {
            Ok(metafiles) => Ok(metafiles),
            Err(error) => Err(within(alloc, name, error)),
        },
        Some(_) => Err(member_shape(alloc, name, "(no object)")),
        None => Err(missing(alloc, name)),
    }
}

#[tactic(auto, unfolding(crate::specs::Timestamp::timestamp_at))]
pub(crate) fn timestamp_of(alloc: Global, value: Value) -> Result<Timestamp, ReadError>
    ensures { Reads timestamp_doc result (timestamp_at (view value)) }
{
    let Value::Object(mut members) = value else {
        return Err(shape(alloc, "(no object)"));
    };
    let (spec_version, version, expires) = head_of(alloc, &mut members)?;
    let meta = metafiles(alloc, &mut members, "meta")?;
    Ok(Timestamp {
        spec_version,
        version,
        expires,
        meta,
        _extra: members,
    })
}
