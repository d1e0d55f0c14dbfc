//! Targets, written as JSON.

ghost use Rattle.std.specs.Prelude.{◌≡◌, IfOk, Some, option_and_then, codes};
ghost use Rattle.std.specs.List.Sorted.{IsStrictlySortedBy};
ghost use Rattle.std.specs.Map.{keys_of};
ghost use Rattle.serde_json.specs.Data.{Data, Members, no_members, object};
ghost use Rattle.serde_json.specs.Find.{get_member};
ghost use Rattle.serde_json.specs.View.{view, members_view};
ghost use Rattle.tough_names.specs.Named.{by_raw_then_resolved};
ghost use Rattle.tough_json.specs.Pieces.{text_in, replaced, Appends};
ghost use Rattle.tough_json.specs.Results.{Writes};
ghost use Rattle.tough_schema.specs.Targets.{listing_doc, listing_json, targets_doc, parts_json, around_json, targets_json, AreSorted, KeysRise};

use crate::target::Target;
use crate::targets::Targets;
use crate::write_delegations::optional_delegations;
use crate::write_target::{append_target, target_value};
use serde_json::{Map, Value};
use std::alloc::Global;
use std::collections::BTreeMap;
use tough_json::error::WriteError;
use tough_json::write::{copy_members, with, with_optional};
use tough_json::{Form, ObjectText, PieceError};
use tough_names::TargetName;
use tough_roles::head::with_head;

// Each target under its name.
fn listing_value(
    alloc: Global,
    targets: &BTreeMap<TargetName, Target>,
) -> Result<Map<String, Value>, WriteError>
    ensures written { Writes (λ m. members_view m.entries) result
        (listing_json (listing_doc targets.now.entries) no_members) }
    ensures ordered { IfOk result
        (λ m. IsStrictlySortedBy by_raw_then_resolved (keys_of (listing_doc targets.now.entries))) }
{
    let mut members = Map::new(alloc);
    for (name, target) in targets.iter() {
        let value = target_value(alloc, target)?;
        members = with(alloc, members, name.raw(), value)?;
    }
    Ok(members)
}

// The members with the delegations, and that value under `targets`.
#[tactic(auto, unfolding(crate::specs::Targets::parts_json))]
fn with_parts(
    alloc: Global,
    members: Map<String, Value>,
    targets: &Targets,
    listed: Value,
) -> Result<Map<String, Value>, WriteError>
    ensures written { Writes (λ m. members_view m.entries) result
        (parts_json (view listed) (targets_doc targets.now) (members_view members.entries)) }
    ensures ordered { IfOk result (λ m. KeysRise (targets_doc targets.now).delegations) }
{
    let inner = optional_delegations(alloc, &targets.delegations)?;
    let delegations = with_optional(alloc, members, "delegations", inner)?;
    let parts = with(alloc, delegations, "targets", listed)?;
    Ok(parts)
}

// The document's members, with that value under `targets`.
#[tactic(auto, unfolding(crate::specs::Targets::around_json))]
pub(crate) fn members_around(
    alloc: Global,
    targets: &Targets,
    listed: Value,
) -> Result<Map<String, Value>, WriteError>
    ensures written { Writes (λ m. members_view m.entries) result
        (around_json (view listed) (targets_doc targets.now)) }
    ensures ordered { IfOk result (λ m. KeysRise (targets_doc targets.now).delegations) }
{
    let extra = copy_members(alloc, &targets._extra)?;
    let parts = with_parts(alloc, extra, targets, listed)?;
    let name = targets.spec_version.as_str();
    let members = with_head(
        alloc,
        parts,
        "targets",
        name,
        targets.version,
        targets.expires,
    )?;
    Ok(members)
}

/// The JSON of the targets.
#[tactic(auto, unfolding(crate::specs::Targets::targets_json))]
pub(crate) fn targets_value(alloc: Global, targets: &Targets) -> Result<Value, WriteError>
    ensures written { Writes view result (targets_json (targets_doc targets.now)) }
    ensures ordered { IfOk result (λ v. AreSorted (targets_doc targets.now)) }
{
    let listed = listing_value(alloc, &targets.targets)?;
    let members = members_around(alloc, targets, Value::Object(listed))?;
    Ok(Value::Object(members))
}

// The text with that of the listing behind it, written target by target.
fn append_listing(
    alloc: Global,
    form: Form,
    targets: &BTreeMap<TargetName, Target>,
    out: Vec<u8>,
) -> Result<Vec<u8>, PieceError>
    ensures { IfOk result (λ t. (ms : Members)
        × (listing_json (listing_doc targets.now.entries) no_members ≡ Some ms)
        × Appends out.items (text_in form (object ms)) t.items) }
{
    let mut object = ObjectText::behind(alloc, form, out)?;
    for (name, target) in targets.iter() {
        let (listing, before) = object.open(name.raw())?;
        let entry = append_target(alloc, form, target, before)?;
        object = listing.close(entry);
    }
    let text = object.finish()?;
    Ok(text)
}

// The text with that of the object of these members behind it, but that the listing stands under `targets`, if one of
// them has that name.
fn append_around(
    alloc: Global,
    form: Form,
    members: &Map<String, Value>,
    targets: &BTreeMap<TargetName, Target>,
    out: Vec<u8>,
) -> Result<Vec<u8>, PieceError>
    ensures { IfOk result (λ t. (d : Data)
        → get_member (codes "targets") (members_view members.now.entries) ≡ Some d
        → (ms : Members) × (listing_json (listing_doc targets.now.entries) no_members ≡ Some ms)
        × Appends out.items (text_in form (object (replaced (codes "targets") (object ms)
        (members_view members.now.entries)))) t.items) }
{
    let mut object = ObjectText::behind(alloc, form, out)?;
    for (key, member) in members.iter() {
        if key.as_str() == "targets" {
            let (around, before) = object.open("targets")?;
            let listing = append_listing(alloc, form, targets, before)?;
            object = around.close(listing);
        } else {
            object.push(alloc, key.as_str(), member)?;
        }
    }
    let text = object.finish()?;
    Ok(text)
}

/// The text with that of the targets' JSON behind it, written target by target. `Refused` if a member's name, in the
/// listing or in the document, isn't ASCII, is empty or has a control character, a quote or a backslash, and if there is
/// no text.
pub(crate) fn append_targets(
    alloc: Global,
    targets: &Targets,
    form: Form,
    out: Vec<u8>,
) -> Result<Vec<u8>, PieceError>
    ensures { IfOk result (λ t. Appends out.items
        (option_and_then (text_in form) (targets_json (targets_doc targets.now))) t.items) }
{
    let members = members_around(alloc, targets, Value::Null)?;
    let text = append_around(alloc, form, &members, &targets.targets, out)?;
    Ok(text)
}
