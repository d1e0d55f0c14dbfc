//! Roots, written as JSON.

ghost use Rattle.std.specs.Prelude.{◌≡◌, Some, IfOk};
ghost use Rattle.serde_json.specs.Data.{boolean, no_members};
ghost use Rattle.serde_json.specs.View.{view, items_view, members_view};
ghost use Rattle.tough_json.specs.Results.{Writes};
ghost use Rattle.tough_json.specs.Writing.{all_json, hexadecimal_json};
ghost use Rattle.tough_roles.specs.Root.{role_keys_doc, roles_doc, keys_doc, root_doc, role_keys_json, roles_json, keys_json, tables_json, root_json, by_bytes, AreOrdered};
ghost use Rattle.tough_roles.specs.Roles.{role_cmp};
ghost use Rattle.std.specs.List.Sorted.{IsStrictlySortedBy};
ghost use Rattle.std.specs.Map.{keys_of};

use crate::head::with_head;
use crate::role_type::RoleType;
use crate::root::{RoleKeys, Root};
use serde_json::{Map, Value};
use std::alloc::{AllocError, Global};
use std::collections::BTreeMap;
use tough_decoded::{Decoded, Hex};
use tough_json::error::WriteError;
use tough_json::write::{copy_members, digits, positive_value, with};
use tough_keys::Key;

/// Each identifier as an item.
pub fn keyid_values(alloc: Global, keyids: &[Decoded<Hex>]) -> Result<Vec<Value>, AllocError>
    ensures { IfOk result (λ v. all_json hexadecimal_json keyids.now ≡ Some (items_view v.items)) }
{
    let mut values = Vec::new(alloc);
    for keyid in keyids {
        let value = digits(alloc, keyid)?;
        values.push(value)?;
    }
    Ok(values)
}

#[tactic(auto, unfolding(crate::specs::Root::role_keys_json))]
fn role_keys_value(alloc: Global, keys: &RoleKeys) -> Result<Value, WriteError>
    ensures { Writes view result (role_keys_json (role_keys_doc keys.now)) }
{
    let extra = copy_members(alloc, &keys._extra)?;
    let value = positive_value(keys.threshold);
    let threshold = with(alloc, extra, "threshold", value)?;
    let items = keyid_values(alloc, &keys.keyids)?;
    let members = with(alloc, threshold, "keyids", Value::Array(items))?;
    Ok(Value::Object(members))
}

// Each role under its name.
fn roles_value(
    alloc: Global,
    roles: &BTreeMap<RoleType, RoleKeys>,
) -> Result<Map<String, Value>, WriteError>
    ensures written { Writes (λ m. members_view m.entries) result
        (roles_json (roles_doc roles.now.entries) no_members) }
    ensures ordered { IfOk result
        (λ m. IsStrictlySortedBy role_cmp (keys_of (roles_doc roles.now.entries))) }
{
    let mut members = Map::new(alloc);
    for (role, keys) in roles.iter() {
        let value = role_keys_value(alloc, keys)?;
        members = with(alloc, members, role.name(), value)?;
    }
    Ok(members)
}

/// Each key under its identifier.
pub fn keys_value(
    alloc: Global,
    keys: &BTreeMap<Decoded<Hex>, Key>,
) -> Result<Map<String, Value>, WriteError>
    ensures written { Writes (λ m. members_view m.entries) result
        (keys_json (keys_doc keys.now.entries) no_members) }
    ensures ordered { IfOk result
        (λ m. IsStrictlySortedBy by_bytes (keys_of (keys_doc keys.now.entries))) }
{
    let mut members = Map::new(alloc);
    for (id, key) in keys.iter() {
        let value = key.to_value(alloc)?;
        members = with(alloc, members, id.as_str(), value)?;
    }
    Ok(members)
}

// The members with the keys and the roles.
#[tactic(auto, unfolding(crate::specs::Root::tables_json))]
fn with_tables(
    alloc: Global,
    members: Map<String, Value>,
    root: &Root,
) -> Result<Map<String, Value>, WriteError>
    ensures written { Writes (λ m. members_view m.entries) result
        (tables_json (root_doc root.now) (members_view members.entries)) }
    ensures ordered { IfOk result (λ m. AreOrdered (root_doc root.now)) }
{
    let listed = roles_value(alloc, &root.roles)?;
    let roles = with(alloc, members, "roles", Value::Object(listed))?;
    let known = keys_value(alloc, &root.keys)?;
    let keys = with(alloc, roles, "keys", Value::Object(known))?;
    Ok(keys)
}

// The JSON of a truth value.
fn truth_value(found: bool) -> Value
    ensures { view result ≡ boolean found }
{
    Value::Bool(found)
}

#[tactic(auto, unfolding(crate::specs::Root::root_json))]
pub(crate) fn root_value(alloc: Global, root: &Root) -> Result<Value, WriteError>
    ensures written { Writes view result (root_json (root_doc root.now)) }
    ensures ordered { IfOk result (λ v. AreOrdered (root_doc root.now)) }
{
    let extra = copy_members(alloc, &root._extra)?;
    let keys = with_tables(alloc, extra, root)?;
    let found = truth_value(root.consistent_snapshot);
    let consistent = with(alloc, keys, "consistent_snapshot", found)?;
    let name = root.spec_version.as_str();
    let members = with_head(alloc, consistent, "root", name, root.version, root.expires)?;
    Ok(Value::Object(members))
}
