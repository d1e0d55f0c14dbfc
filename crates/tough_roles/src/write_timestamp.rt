//! Timestamps, written as JSON.

ghost use Rattle.std.specs.Prelude.{◌≡◌, Some, IfOk, option_map};
ghost use Rattle.serde_json.specs.View.{view, members_view};
ghost use Rattle.tough_json.specs.Results.{Writes};
ghost use Rattle.tough_json.specs.Writing.{with, with_optional, optional_json, hexadecimal_json, named};
ghost use Rattle.tough_roles.specs.Timestamp.{hashes_doc, metafile_doc, metafiles_doc, timestamp_doc, hashes_json, metafile_json, timestamp_json};

use crate::head::with_head;
use crate::timestamp::{Hashes, Metafile, Timestamp};
use serde_json::{Map, Value};
use std::alloc::{AllocError, Global};
use std::collections::BTreeMap;
use tough_decoded::{Decoded, Hex};
use tough_json::error::WriteError;
use tough_json::write::{copy_members, digits, positive_value, with, with_optional};

// The spelling of a digest, if it is stated.
fn optional_digits(
    alloc: Global,
    digest: &Option<Decoded<Hex>>,
) -> Result<Option<Value>, AllocError>
    ensures { IfOk result (λ v. optional_json hexadecimal_json digest.now
        ≡ Some (option_map view v)) }
{
    match digest {
        None => Ok(None),
        Some(digest) => Ok(Some(digits(alloc, digest)?)),
    }
}

/// The JSON of the hashes.
#[tactic(auto, unfolding(crate::specs::Timestamp::hashes_json))]
pub fn hashes_value(alloc: Global, hashes: &Hashes) -> Result<Value, WriteError>
    ensures { Writes view result (hashes_json (hashes_doc hashes.now)) }
{
    let extra = copy_members(alloc, &hashes._extra)?;
    let second = optional_digits(alloc, &hashes.sha512)?;
    let members = with_optional(alloc, extra, "sha512", second)?;
    let digits = digits(alloc, &hashes.sha256)?;
    let members = with(alloc, members, "sha256", digits)?;
    Ok(Value::Object(members))
}

// The JSON of the hashes, if there are some.
fn optional_hashes(alloc: Global, hashes: &Option<Hashes>) -> Result<Option<Value>, WriteError>
    ensures { Writes (option_map view) result
        (optional_json hashes_json (option_map hashes_doc hashes.now)) }
{
    match hashes {
        None => Ok(None),
        Some(hashes) => Ok(Some(hashes_value(alloc, hashes)?)),
    }
}

#[tactic(auto, unfolding(crate::specs::Timestamp::metafile_json))]
fn metafile_value(alloc: Global, metafile: &Metafile) -> Result<Value, WriteError>
    ensures { Writes view result (metafile_json (metafile_doc metafile.now)) }
{
    let extra = copy_members(alloc, &metafile._extra)?;
    let inner = optional_hashes(alloc, &metafile.hashes)?;
    let members = with_optional(alloc, extra, "hashes", inner)?;
    let size = metafile.length.map(|length| Value::from(length));
    let members = with_optional(alloc, members, "length", size)?;
    let members = with(alloc, members, "version", positive_value(metafile.version))?;
    Ok(Value::Object(members))
}

// The JSON of each metafile, under its name.
pub(crate) fn metafiles_value(
    alloc: Global,
    metafiles: &BTreeMap<String, Metafile>,
) -> Result<Map<String, Value>, WriteError>
    ensures { Writes (λ m. members_view m.entries) result
        (named metafile_json (metafiles_doc metafiles.now.entries)) }
{
    let mut members = Map::new(alloc);
    for (name, metafile) in metafiles.iter() {
        let value = metafile_value(alloc, metafile)?;
        drop(members.insert(name.clone()?, value)?);
    }
    Ok(members)
}

#[tactic(auto, unfolding(crate::specs::Timestamp::timestamp_json))]
pub(crate) fn timestamp_value(alloc: Global, timestamp: &Timestamp) -> Result<Value, WriteError>
    ensures { Writes view result (timestamp_json (timestamp_doc timestamp.now)) }
{
    let inner = metafiles_value(alloc, &timestamp.meta)?;
    let extra = copy_members(alloc, &timestamp._extra)?;
    let meta = with(alloc, extra, "meta", Value::Object(inner))?;
    let name = timestamp.spec_version.as_str();
    let members = with_head(
        alloc,
        meta,
        "timestamp",
        name,
        timestamp.version,
        timestamp.expires,
    )?;
    Ok(Value::Object(members))
}
