//! Roots, read from JSON.

ghost use Rattle.std.specs.Prelude.{◌≡◌, [], option_and_then};
ghost use Rattle.serde_json.specs.View.{view, members_view};
ghost use Rattle.serde_json.specs.Find.{as_object};
ghost use Rattle.tough_keys.specs.Key.{key_doc};
ghost use Rattle.tough_json.specs.Reading.{required, listing, hexadecimal};
ghost use Rattle.tough_json.specs.Results.{Reads, Takes};
ghost use Rattle.tough_roles.specs.Root.{keys_doc, key_entry_at, keys_from, keys_at, RoleKeysDoc, role_keys_doc, roles_doc, role_keys_at, role_entry_at, roles_at, root_doc, root_at};

use crate::head::head_of;
use crate::role_type::RoleType;
use crate::root::{RoleKeys, Root};
use serde_json::{Map, Value};
use std::alloc::Global;
use std::collections::BTreeMap;
use tough_decoded::{DecodeError, Decoded, Hex};
use tough_json::error::{ReadError, WriteError, member_shape, missing, shape, within};
use tough_json::list::list;
use tough_json::member::{positive, take, truth};
use tough_json::table::{FromEntry, table_of};
use tough_keys::Key;

// A member as a key under its own identifier.
#[tactic(auto, unfolding(crate::specs::Root::key_entry_at))]
fn key_entry(alloc: Global, name: &str, value: Value) -> Result<(Decoded<Hex>, Key), ReadError>
    ensures { Reads (λ p. (p.0, key_doc p.1)) result (key_entry_at name.now (view value)) }
{
    let id = match Decoded::from_str(alloc, name) {
        Ok(id) => id,
        Err(DecodeError::Memory) => return Err(ReadError::Memory),
        Err(_) => return Err(shape(alloc, "(no hexadecimal name)")),
    };
    let key = Key::from_value(alloc, value)?;
    match key.digest(alloc) {
        Ok(own) => {
            if own.as_slice() == id.as_slice() {
                Ok((id, key))
            } else {
                Err(shape(alloc, "(not the key's identifier)"))
            }
        }
        Err(WriteError::Memory) => Err(ReadError::Memory),
        Err(WriteError::Unwritable) => Err(shape(alloc, "(a key without an identifier)")),
    }
}

// The same, where a refusal tells the name.
fn named_key(alloc: Global, name: &str, value: Value) -> Result<(Decoded<Hex>, Key), ReadError>
    ensures { Reads (λ p. (p.0, key_doc p.1)) result (key_entry_at name.now (view value)) }
{
    match key_entry(alloc, name, value) {
        Ok(entry) => Ok(entry),
        Err(error) => Err(within(alloc, name, error)),
    }
}

// The members as keys, each under its own identifier.
fn keys_of(
    alloc: Global,
    members: Map<String, Value>,
) -> Result<BTreeMap<Decoded<Hex>, Key>, ReadError>
    ensures { Reads (λ m. keys_doc m.entries) result (keys_from [] (members_view members.entries)) }
{
    let mut keys = BTreeMap::new(alloc);
    for (name, value) in members {
        let (id, key) = named_key(alloc, name.as_str(), value)?;
        if keys.contains_key(&id) {
            return Err(member_shape(alloc, name.as_str(), "(stands twice)"));
        }
        drop(keys.insert(id, key)?);
    }
    Ok(keys)
}

/// The member of the name, as keys under their own identifiers, which must be there.
pub fn keys(
    alloc: Global,
    members: &mut Map<String, Value>,
    name: &str,
) -> Result<BTreeMap<Decoded<Hex>, Key>, ReadError>
    ensures { Takes (λ m. keys_doc m.entries) result (members_view members.new.entries)
        (required name.now keys_at (members_view members.old.entries)) }
{
    match take(members, name) {
        Some(Value::Object(inner)) => match keys_of(alloc, inner) {
            Ok(keys) => Ok(keys),
            Err(error) => Err(within(alloc, name, error)),
        },
        Some(_) => Err(member_shape(alloc, name, "(no object)")),
        None => Err(missing(alloc, name)),
    }
}

/// The member of the name, as a list of identifiers, which must be there.
pub fn keyids(
    alloc: Global,
    members: &mut Map<String, Value>,
    name: &str,
) -> Result<Vec<Decoded<Hex>>, ReadError>
    ensures { Takes (λ v. v.items) result (members_view members.new.entries)
        (required name.now (listing hexadecimal) (members_view members.old.entries)) }
{
    list(alloc, members, name)
}

#[tactic(auto, unfolding(crate::specs::Root::role_keys_at))]
fn role_keys_of(alloc: Global, value: Value) -> Result<RoleKeys, ReadError>
    ensures { Reads role_keys_doc result (role_keys_at (view value)) }
{
    let Value::Object(mut members) = value else {
        return Err(shape(alloc, "(no object)"));
    };
    let keyids = keyids(alloc, &mut members, "keyids")?;
    let threshold = positive(alloc, &mut members, "threshold")?;
    Ok(RoleKeys {
        keyids,
        threshold,
        _extra: members,
    })
}

impl FromEntry<RoleType> for RoleKeys {
    ghost Doc = { RoleKeysDoc };

    ghost doc = { role_keys_doc };

    ghost at = { role_entry_at };

    #[tactic(auto, unfolding(crate::specs::Root::role_entry_at))]
    fn from_entry(
        alloc: Global,
        name: &str,
        value: Value,
    ) -> Result<(RoleType, RoleKeys), ReadError> {
        let Some(role) = RoleType::of(name) else {
            return Err(member_shape(alloc, name, "(no role)"));
        };
        match role_keys_of(alloc, value) {
            Ok(keys) => Ok((role, keys)),
            Err(error) => Err(within(alloc, name, error)),
        }
    }
}

fn roles(
    alloc: Global,
    members: &mut Map<String, Value>,
    name: &str,
) -> Result<BTreeMap<RoleType, RoleKeys>, ReadError>
    ensures { Takes (λ m. roles_doc m.entries) result (members_view members.new.entries)
        (required name.now roles_at (members_view members.old.entries)) }
{
    match take(members, name) {
        Some(Value::Object(inner)) => match table_of(alloc, inner) {
            Ok(roles) => Ok(roles),
            Err(error) => Err(within(alloc, name, error)),
        },
        Some(_) => Err(member_shape(alloc, name, "(no object)")),
        None => Err(missing(alloc, name)),
    }
}

/// The root that the value is; `Shape` where it is none.
#[tactic(auto, unfolding(crate::specs::Root::root_at))]
pub(crate) fn root_of(alloc: Global, value: Value) -> Result<Root, ReadError>
    ensures { Reads root_doc result (root_at (view value)) }
{
    let Value::Object(mut members) = value else {
        return Err(shape(alloc, "(no object)"));
    };
    let (spec_version, version, expires) = head_of(alloc, &mut members)?;
    let consistent_snapshot = truth(alloc, &mut members, "consistent_snapshot")?;
    let keys = keys(alloc, &mut members, "keys")?;
    let roles = roles(alloc, &mut members, "roles")?;
    Ok(Root {
        spec_version,
        consistent_snapshot,
        version,
        expires,
        keys,
        roles,
        _extra: members,
    })
}
