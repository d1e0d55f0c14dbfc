//! Targets, read from JSON.

ghost use Rattle.std.specs.Prelude.{◌≡◌, [], Some, IfOk};
ghost use Rattle.json.specs.Value.{value_view, members_view as json_members};
ghost use Rattle.serde_json.specs.Data.{Data, Members, no_members};
ghost use Rattle.serde_json.specs.Read.{of_json, of_members};
ghost use Rattle.serde_json.specs.View.{members_view};
ghost use Rattle.tough_json.specs.Reading.{required};
ghost use Rattle.tough_json.specs.Results.{Reads, Takes};
ghost use Rattle.tough_schema.specs.Fresh.{IsFresh};
ghost use Rattle.tough_schema.specs.Target.{target_doc, target_at};
ghost use Rattle.tough_schema.specs.Targets.{name_at, listing_doc, listing_from, listing_at, targets_doc, targets_at, targets_around};

use crate::read_delegations::delegations;
use crate::read_plain::plain_target;
use crate::read_target::target_of;
use crate::target::Target;
use crate::targets::Targets;
use serde_json::{Map, Value};
use std::alloc::Global;
use std::collections::BTreeMap;
use tough_json::borrowed::{Borrowed, take_member, value_in};
use tough_json::error::{ReadError, member_shape, shape, within};
use tough_json::member::take;
use tough_names::{NameError, TargetName};
use tough_roles::head::head_of;

// The target's name that the text is.
fn name_of(alloc: Global, raw: &str) -> Result<TargetName, ReadError>
    ensures { Reads (λ name. name) result (name_at raw.now) }
{
    match TargetName::from_str(alloc, raw) {
        Ok(name) => Ok(name),
        Err(NameError::Memory) => Err(ReadError::Memory),
        Err(_) => Err(member_shape(alloc, raw, "(no target's name)")),
    }
}

// The target that the member of the name is, by its value.
fn target_by_value(alloc: Global, raw: &str, value: &Borrowed<'_>) -> Result<Target, ReadError>
    ensures { (d : Data) → of_json (value_view value.now) ≡ Some d
        → Reads target_doc result (target_at d) }
{
    let value = match value_in(alloc, value) {
        Ok(value) => value,
        Err(error) => return Err(error),
    };
    match target_of(alloc, value) {
        Ok(target) => Ok(target),
        Err(error) => Err(within(alloc, raw, error)),
    }
}

// The target that the member of the name is; a value is made only for this member, and only if it is not plain.
fn target_in(alloc: Global, raw: &str, value: Borrowed<'_>) -> Result<Target, ReadError>
    ensures { (d : Data) → of_json (value_view value.entry) ≡ Some d
        → Reads target_doc result (target_at d) }
{
    match plain_target(alloc, &value) {
        Ok(Some(target)) => Ok(target),
        Ok(None) => target_by_value(alloc, raw, &value),
        Err(_) => Err(ReadError::Memory),
    }
}

// The members as targets, read from the last on: of a name that comes twice the last counts. What one member took is free for
// the next.
fn listing_of(
    alloc: Global,
    members: Vec<(&str, Borrowed<'_>)>,
) -> Result<BTreeMap<TargetName, Target>, ReadError>
    ensures { (ms : Members) → of_members (json_members members.entry.items) no_members ≡ Some ms
        → Reads (λ m. listing_doc m.entries) result (listing_from [] ms) }
{
    let mut left = members;
    let mut targets = BTreeMap::new(alloc);
    while let Some((raw, value)) = left.pop() {
        let name = match name_of(alloc, raw) {
            Ok(name) => name,
            Err(error) => return Err(error),
        };
        if targets.contains_key(&name) {
            continue;
        }
        let target = match target_in(alloc, raw, value) {
            Ok(target) => target,
            Err(error) => return Err(error),
        };
        drop(targets.insert(name, target)?);
    }
    Ok(targets)
}

// The targets that the JSON is.
fn listing_in(alloc: Global, value: Borrowed<'_>) -> Result<BTreeMap<TargetName, Target>, ReadError>
    ensures { (d : Data) → of_json (value_view value.entry) ≡ Some d
        → Reads (λ m. listing_doc m.entries) result (listing_at d) }
{
    let Borrowed::Object(members) = value else {
        return Err(shape(alloc, "(no object)"));
    };
    listing_of(alloc, members)
}

// The document with this listing, and with these as the other members.
#[tactic(auto, unfolding(crate::specs::Targets::targets_around))]
fn targets_around(
    alloc: Global,
    targets: BTreeMap<TargetName, Target>,
    others: Map<String, Value>,
) -> Result<Targets, ReadError>
    ensures read { Reads targets_doc result
        (targets_around (listing_doc targets.entries) (members_view others.entries)) }
    ensures fresh { IfOk result IsFresh }
{
    let mut others = others;
    let (spec_version, version, expires) = head_of(alloc, &mut others)?;
    let delegations = delegations(alloc, &mut others, "delegations")?;
    Ok(Targets {
        spec_version,
        version,
        expires,
        targets,
        delegations,
        _extra: others,
    })
}

#[tactic(auto, unfolding(crate::specs::Targets::targets_at))]
/// Reads targets. `Shape` if the JSON is none. One target's value is made at a time.
pub(crate) fn targets_in(alloc: Global, value: Borrowed<'_>) -> Result<Targets, ReadError>
    ensures read { (d : Data) → of_json (value_view value.entry) ≡ Some d
        → Reads targets_doc result (targets_at d) }
    ensures fresh { IfOk result IsFresh }
{
    let Borrowed::Object(members) = value else {
        return Err(shape(alloc, "(no object)"));
    };
    let (listed, others) = match take_member(alloc, members, "targets") {
        Ok(parts) => parts,
        Err(error) => return Err(error),
    };
    match listing_in(alloc, listed) {
        Ok(targets) => targets_around(alloc, targets, others),
        Err(error) => Err(within(alloc, "targets", error)),
    }
}
