//! Delegations, written as JSON.

ghost use Rattle.std.specs.Prelude.{◌≡◌, IfOk, Some, map, option_map};
ghost use Rattle.serde_json.specs.Data.{boolean, string, no_members};
ghost use Rattle.serde_json.specs.View.{view, items_view, members_view};
ghost use Rattle.tough_json.specs.Results.{Writes};
ghost use Rattle.tough_json.specs.Writing.{all_json, optional_json};
ghost use Rattle.tough_schema.specs.Paths.{paths_doc, with_paths, text_json, pattern_json};
ghost use Rattle.tough_schema.specs.Delegations.{delegated_role_doc, delegations_doc, delegated_role_json, delegations_json};
ghost use Rattle.tough_schema.specs.Targets.{KeysRise};

use crate::delegations::{DelegatedRole, Delegations, PathSet};
use serde_json::{Map, Value};
use std::alloc::{AllocError, Global};
use tough_json::error::WriteError;
use tough_json::write::{positive_value, with, with_text};
use tough_names::{PathHashPrefix, PathPattern};
use tough_roles::write_root::{keyid_values, keys_value};

// The JSON of a text.
fn text_value(alloc: Global, text: &str) -> Result<Value, AllocError>
    ensures { IfOk result (λ v. view v ≡ string text.now) }
{
    Ok(Value::String(String::from_str(alloc, text)?))
}

// Each pattern's text as an item.
fn pattern_values(alloc: Global, patterns: &[PathPattern]) -> Result<Vec<Value>, AllocError>
    ensures { IfOk result (λ v. all_json pattern_json patterns.now ≡ Some (items_view v.items)) }
{
    let mut values = Vec::new(alloc);
    for pattern in patterns {
        let item = text_value(alloc, pattern.value())?;
        values.push(item)?;
    }
    Ok(values)
}

// Each prefix's text as an item.
fn prefix_values(alloc: Global, prefixes: &[PathHashPrefix]) -> Result<Vec<Value>, AllocError>
    ensures { IfOk result (λ v. all_json text_json prefixes.now ≡ Some (items_view v.items)) }
{
    let mut values = Vec::new(alloc);
    for prefix in prefixes {
        let item = text_value(alloc, prefix.value())?;
        values.push(item)?;
    }
    Ok(values)
}

// The members with the names that the role may list.
fn with_paths(
    alloc: Global,
    members: Map<String, Value>,
    paths: &PathSet,
) -> Result<Map<String, Value>, WriteError>
    ensures { Writes (λ m. members_view m.entries) result
        (with_paths (paths_doc paths.now) (members_view members.entries)) }
{
    match paths {
        PathSet::Paths(patterns) => {
            let items = pattern_values(alloc, patterns)?;
            with(alloc, members, "paths", Value::Array(items))
        }
        PathSet::PathHashPrefixes(prefixes) => {
            let items = prefix_values(alloc, prefixes)?;
            with(alloc, members, "path_hash_prefixes", Value::Array(items))
        }
    }
}

// The JSON of a truth value.
fn truth_value(found: bool) -> Value
    ensures { view result ≡ boolean found }
{
    Value::Bool(found)
}

#[tactic(auto, unfolding(crate::specs::Delegations::delegated_role_json))]
fn delegated_role_value(alloc: Global, role: &DelegatedRole) -> Result<Value, WriteError>
    ensures { Writes view result (delegated_role_json (delegated_role_doc role.now)) }
{
    let paths = with_paths(alloc, Map::new(alloc), &role.paths)?;
    let ends = truth_value(role.terminating);
    let terminating = with(alloc, paths, "terminating", ends)?;
    let value = positive_value(role.threshold);
    let threshold = with(alloc, terminating, "threshold", value)?;
    let items = keyid_values(alloc, &role.keyids)?;
    let keyids = with(alloc, threshold, "keyids", Value::Array(items))?;
    let members = with_text(alloc, keyids, "name", role.name.as_str())?;
    Ok(Value::Object(members))
}

// Each role as an item.
fn role_values(alloc: Global, roles: &[DelegatedRole]) -> Result<Vec<Value>, WriteError>
    ensures { Writes (λ v. items_view v.items) result
        (all_json delegated_role_json (map delegated_role_doc roles.now)) }
{
    let mut values = Vec::new(alloc);
    for role in roles {
        let value = delegated_role_value(alloc, role)?;
        values.push(value)?;
    }
    Ok(values)
}

#[tactic(auto, unfolding(crate::specs::Delegations::delegations_json))]
fn delegations_value(alloc: Global, delegations: &Delegations) -> Result<Value, WriteError>
    ensures written { Writes view result (delegations_json (delegations_doc delegations.now)) }
    ensures ordered { IfOk result (λ v. KeysRise (Some (delegations_doc delegations.now))) }
{
    let items = role_values(alloc, &delegations.roles)?;
    let roles = with(alloc, Map::new(alloc), "roles", Value::Array(items))?;
    let known = keys_value(alloc, &delegations.keys)?;
    let members = with(alloc, roles, "keys", Value::Object(known))?;
    Ok(Value::Object(members))
}

/// The JSON of the delegations, if there are some.
pub(crate) fn optional_delegations(
    alloc: Global,
    delegations: &Option<Delegations>,
) -> Result<Option<Value>, WriteError>
    ensures written { Writes (option_map view) result
        (optional_json delegations_json (option_map delegations_doc delegations.now)) }
    ensures ordered { IfOk result (λ v. KeysRise (option_map delegations_doc delegations.now)) }
{
    match delegations {
        None => Ok(None),
        Some(delegations) => Ok(Some(delegations_value(alloc, delegations)?)),
    }
}
