//! Targets' entries, written as JSON.

ghost use Rattle.std.specs.Prelude.{◌≡◌, IfOk, IsTrue, Some, None, option_map, option_and_then, codes};
ghost use Rattle.serde_json.specs.Data.{Data, object, no_members, member};
ghost use Rattle.serde_json.specs.View.{view, members_view};
ghost use Rattle.tough_json.specs.Pieces.{text_in, Appends};
ghost use Rattle.tough_json.specs.declared.pieces.Form.{Form as Kind};
ghost use Rattle.tough_json.specs.Results.{Writes};
ghost use Rattle.tough_json.specs.Writing.{length_json, hexadecimal_json};
ghost use Rattle.tough_schema.specs.Target.{target_doc, target_json, unless_empty, IsPlain};

use crate::target::Target;
use serde_json::{Map, Value};
use std::alloc::{AllocError, Global};
use tough_decoded::{Decoded, Hex};
use tough_json::error::WriteError;
use tough_json::pieces::{append_quoted, append_value};
use tough_json::write::{copy_members, with, with_optional};
use tough_json::{Form, ObjectText, PieceError};
use tough_roles::write_timestamp::hashes_value;

// The object, if it isn't empty.
fn object_value(alloc: Global, members: &Map<String, Value>) -> Result<Option<Value>, AllocError>
    ensures { IfOk result (λ v. unless_empty
        (members_view members.now.entries) ≡ option_map view v) }
{
    if members.is_empty() {
        return Ok(None);
    }
    Ok(Some(Value::Object(copy_members(alloc, members)?)))
}

// The JSON of a length.
fn length_value(length: u64) -> Value
    ensures { length_json length ≡ Some (view result) }
{
    Value::from(length)
}

#[tactic(auto, unfolding(crate::specs::Target::target_json))]
pub(crate) fn target_value(alloc: Global, target: &Target) -> Result<Value, WriteError>
    ensures { Writes view result (target_json (target_doc target.now)) }
{
    let extra = copy_members(alloc, &target._extra)?;
    let inner = object_value(alloc, &target.custom)?;
    let custom = with_optional(alloc, extra, "custom", inner)?;
    let digests = hashes_value(alloc, &target.hashes)?;
    let hashes = with(alloc, custom, "hashes", digests)?;
    let size = length_value(target.length);
    let members = with(alloc, hashes, "length", size)?;
    Ok(Value::Object(members))
}

fn is_bare(members: &Map<String, Value>) -> bool
    ensures { IsTrue result → members_view members.now.entries ≡ no_members }
{
    members.is_empty()
}

fn is_unstated(digest: &Option<Decoded<Hex>>) -> bool
    ensures { IsTrue result → digest.now ≡ None }
{
    match digest {
        None => true,
        Some(_) => false,
    }
}

// Whether the target states a length and its SHA-256 alone.
pub(crate) fn is_plain(target: &Target) -> bool
    ensures { IsTrue result → IsPlain (target_doc target.now) }
{
    is_bare(&target.custom)
        && is_bare(&target._extra)
        && is_unstated(&target.hashes.sha512)
        && is_bare(&target.hashes._extra)
}

// The text with the digits behind it, in quotes.
fn append_digits(digest: &Decoded<Hex>, out: Vec<u8>) -> Result<Vec<u8>, PieceError>
    ensures { IfOk result (λ t. (form : Kind) → Appends out.items
        (option_and_then (text_in form) (hexadecimal_json digest.now)) t.items) }
{
    append_quoted(out, digest.as_str())
}

// The text with that of the hashes behind it which are this SHA-256 alone.
fn append_digest(
    alloc: Global,
    form: Form,
    digest: &Decoded<Hex>,
    out: Vec<u8>,
) -> Result<Vec<u8>, PieceError>
    ensures { IfOk result (λ t. (d : Data) × (hexadecimal_json digest.now ≡ Some d)
        × Appends out.items (text_in form (object (member (codes "sha256") d no_members)))
        t.items) }
{
    let begun = ObjectText::behind(alloc, form, out)?;
    let (object, before) = begun.open("sha256")?;
    let digits = append_digits(digest, before)?;
    let text = object.close(digits).finish()?;
    Ok(text)
}

// The text with that of a plain target behind it, of which no value is made.
fn append_plain(
    alloc: Global,
    form: Form,
    target: &Target,
    out: Vec<u8>,
) -> Result<Vec<u8>, PieceError>
    ensures { IfOk result (λ t. IsPlain (target_doc target.now) → Appends out.items
        (option_and_then (text_in form) (target_json (target_doc target.now))) t.items) }
{
    let begun = ObjectText::behind(alloc, form, out)?;
    let (hashes, before) = begun.open("hashes")?;
    let digest = append_digest(alloc, form, &target.hashes.sha256, before)?;
    let mut object = hashes.close(digest);
    object.push(alloc, "length", &length_value(target.length))?;
    let text = object.finish()?;
    Ok(text)
}

// The text with that of a target behind it, by its value.
fn append_by_value(
    alloc: Global,
    form: Form,
    target: &Target,
    out: Vec<u8>,
) -> Result<Vec<u8>, PieceError>
    ensures { IfOk result (λ t. Appends out.items
        (option_and_then (text_in form) (target_json (target_doc target.now))) t.items) }
{
    let value = target_value(alloc, target)?;
    let text = append_value(alloc, form, &value, out)?;
    Ok(text)
}

/// The text with that of a target behind it. `Refused` if there is none.
pub(crate) fn append_target(
    alloc: Global,
    form: Form,
    target: &Target,
    out: Vec<u8>,
) -> Result<Vec<u8>, PieceError>
    ensures { IfOk result (λ t. Appends out.items
        (option_and_then (text_in form) (target_json (target_doc target.now))) t.items) }
{
    if !is_plain(target) {
        return append_by_value(alloc, form, target, out);
    }
    let text = append_plain(alloc, form, target, out)?;
    Ok(text)
}
