//! Delegations, read from JSON.

ghost use Rattle.std.specs.Prelude.{◌≡◌, map, option_map, string_bytes, IfOk};
ghost use Rattle.serde_json.specs.View.{view, items_view, members_view};
ghost use Rattle.tough_json.specs.Reading.{required, optional, listing, all_at, text};
ghost use Rattle.tough_json.specs.Results.{Reads, Takes, IsRefusal};
ghost use Rattle.tough_schema.specs.Paths.{paths_doc, if_pattern, pattern, either_at, paths_at};
ghost use Rattle.tough_schema.specs.Fresh.{HasNoDocument, AreUnloaded, DelegateUnloaded, MayDelegateUnloaded};
ghost use Rattle.tough_schema.specs.Delegations.{delegated_role_doc, delegations_doc, delegated_role_at, delegations_at};

use crate::delegations::{DelegatedRole, Delegations, PathSet};
use serde_json::{Map, Value};
use std::alloc::Global;
use tough_json::error::{ReadError, at, member_shape, missing, shape, within};
use tough_json::member::{positive, present, take, text, truth};
use tough_names::{PathHashPrefix, PathPattern, PatternError};
use tough_roles::read_root::{keyids, keys};

// The refusal of a text that is no pattern, with that text.
fn no_pattern(alloc: Global, text: &str) -> ReadError
    ensures { IsRefusal result }
{
    match format!(in alloc; "(no supported pattern: {text:?})") {
        Ok(told) => ReadError::Shape(told),
        Err(_) => ReadError::Memory,
    }
}

// Reads a text as a pattern; a refusal has this copy of the text.
#[tactic(auto, using(crate::proofs::PathLemmas::if_pattern_is))]
fn pattern_or(alloc: Global, text: String, told: &str) -> Result<PathPattern, ReadError>
    ensures { Reads (λ p. p) result (if_pattern (string_bytes text)) }
{
    match PathPattern::new(alloc, text) {
        Ok(pattern) => Ok(pattern),
        Err(PatternError::Memory) => Err(ReadError::Memory),
        Err(PatternError::Glob) => Err(no_pattern(alloc, told)),
    }
}

// Reads a text as a pattern.
fn pattern_in(alloc: Global, text: String) -> Result<PathPattern, ReadError>
    ensures { Reads (λ p. p) result (if_pattern (string_bytes text)) }
{
    let told = text.clone()?;
    pattern_or(alloc, text, told.as_str())
}

// Reads a value as a pattern.
fn pattern_of(alloc: Global, value: Value) -> Result<PathPattern, ReadError>
    ensures { Reads (λ p. p) result (pattern (view value)) }
{
    match value {
        Value::String(text) => pattern_in(alloc, text),
        _ => Err(shape(alloc, "(no text)")),
    }
}

// The pattern at the place.
fn pattern_at(alloc: Global, place: usize, value: Value) -> Result<PathPattern, ReadError>
    ensures { Reads (λ p. p) result (pattern (view value)) }
{
    match pattern_of(alloc, value) {
        Ok(pattern) => Ok(pattern),
        Err(error) => Err(at(alloc, place, error)),
    }
}

// Each item as a pattern.
fn patterns_of(alloc: Global, values: Vec<Value>) -> Result<Vec<PathPattern>, ReadError>
    ensures { Reads (λ v. v.items) result (all_at pattern (items_view values.items)) }
{
    let mut patterns = Vec::new(alloc);
    for value in values {
        let pattern = pattern_at(alloc, patterns.len(), value)?;
        patterns.push(pattern)?;
    }
    Ok(patterns)
}

// A text as the prefix at the place.
fn prefix_at(alloc: Global, place: usize, value: Value) -> Result<PathHashPrefix, ReadError>
    ensures { Reads (λ p. p) result (text (view value)) }
{
    match value {
        Value::String(text) => Ok(PathHashPrefix::new(text)),
        _ => Err(at(alloc, place, shape(alloc, "(no text)"))),
    }
}

// Each item as a prefix.
fn prefixes_of(alloc: Global, values: Vec<Value>) -> Result<Vec<PathHashPrefix>, ReadError>
    ensures { Reads (λ v. v.items) result (all_at text (items_view values.items)) }
{
    let mut prefixes = Vec::new(alloc);
    for value in values {
        let prefix = prefix_at(alloc, prefixes.len(), value)?;
        prefixes.push(prefix)?;
    }
    Ok(prefixes)
}

// The value under one of the two names, exactly one of which is there.
fn either(
    alloc: Global,
    patterns: Option<Value>,
    prefixes: Option<Value>,
) -> Result<PathSet, ReadError>
    ensures { Reads paths_doc result
        (either_at (option_map view patterns) (option_map view prefixes)) }
{
    match (patterns, prefixes) {
        (Some(Value::Array(items)), None) => match patterns_of(alloc, items) {
            Ok(patterns) => Ok(PathSet::Paths(patterns)),
            Err(error) => Err(within(alloc, "paths", error)),
        },
        (None, Some(Value::Array(items))) => match prefixes_of(alloc, items) {
            Ok(prefixes) => Ok(PathSet::PathHashPrefixes(prefixes)),
            Err(error) => Err(within(alloc, "path_hash_prefixes", error)),
        },
        _ => Err(shape(alloc, "(not one list of paths or of prefixes)")),
    }
}

// The names that the role may list.
fn paths(alloc: Global, members: &mut Map<String, Value>) -> Result<PathSet, ReadError>
    ensures { Reads paths_doc result (paths_at (members_view members.old.entries)) }
{
    let patterns = take(members, "paths");
    let prefixes = take(members, "path_hash_prefixes");
    either(alloc, patterns, prefixes)
}

#[tactic(auto, unfolding(crate::specs::Delegations::delegated_role_at))]
fn delegated_role_of(alloc: Global, value: Value) -> Result<DelegatedRole, ReadError>
    ensures read { Reads delegated_role_doc result (delegated_role_at (view value)) }
    ensures fresh { IfOk result HasNoDocument }
{
    let Value::Object(mut members) = value else {
        return Err(shape(alloc, "(no object)"));
    };
    let name = text(alloc, &mut members, "name")?;
    let keyids = keyids(alloc, &mut members, "keyids")?;
    let threshold = positive(alloc, &mut members, "threshold")?;
    let terminating = truth(alloc, &mut members, "terminating")?;
    let paths = paths(alloc, &mut members)?;
    Ok(DelegatedRole {
        name,
        keyids,
        threshold,
        paths,
        terminating,
        targets: None,
    })
}

// The role at the place.
fn role_at(alloc: Global, place: usize, value: Value) -> Result<DelegatedRole, ReadError>
    ensures read { Reads delegated_role_doc result (delegated_role_at (view value)) }
    ensures fresh { IfOk result HasNoDocument }
{
    match delegated_role_of(alloc, value) {
        Ok(role) => Ok(role),
        Err(error) => Err(at(alloc, place, error)),
    }
}

// Each item as a role.
fn roles_of(alloc: Global, values: Vec<Value>) -> Result<Vec<DelegatedRole>, ReadError>
    ensures read { Reads (λ v. map delegated_role_doc v.items) result
        (all_at delegated_role_at (items_view values.items)) }
    ensures fresh { IfOk result (λ v. AreUnloaded v.items) }
{
    let mut roles = Vec::new(alloc);
    for value in values {
        let role = role_at(alloc, roles.len(), value)?;
        roles.push(role)?;
    }
    Ok(roles)
}

// The list of roles that must be there.
fn roles(
    alloc: Global,
    members: &mut Map<String, Value>,
    name: &str,
) -> Result<Vec<DelegatedRole>, ReadError>
    ensures read { Takes (λ v. map delegated_role_doc v.items) result
        (members_view members.new.entries)
        (required name.now (listing delegated_role_at) (members_view members.old.entries)) }
    ensures fresh { IfOk result (λ v. AreUnloaded v.items) }
{
    match take(members, name) {
        Some(Value::Array(items)) => match roles_of(alloc, items) {
            Ok(roles) => Ok(roles),
            Err(error) => Err(within(alloc, name, error)),
        },
        Some(_) => Err(member_shape(alloc, name, "(no list)")),
        None => Err(missing(alloc, name)),
    }
}

#[tactic(auto, unfolding(crate::specs::Delegations::delegations_at))]
fn delegations_of(alloc: Global, value: Value) -> Result<Delegations, ReadError>
    ensures read { Reads delegations_doc result (delegations_at (view value)) }
    ensures fresh { IfOk result DelegateUnloaded }
{
    let Value::Object(mut members) = value else {
        return Err(shape(alloc, "(no object)"));
    };
    let keys = keys(alloc, &mut members, "keys")?;
    let roles = roles(alloc, &mut members, "roles")?;
    Ok(Delegations { keys, roles })
}

/// The delegations, which may be absent.
pub(crate) fn delegations(
    alloc: Global,
    members: &mut Map<String, Value>,
    name: &str,
) -> Result<Option<Delegations>, ReadError>
    ensures read { Takes (option_map delegations_doc) result (members_view members.new.entries)
        (optional name.now delegations_at (members_view members.old.entries)) }
    ensures fresh { IfOk result MayDelegateUnloaded }
{
    match present(members, name) {
        None => Ok(None),
        Some(value) => match delegations_of(alloc, value) {
            Ok(delegations) => Ok(Some(delegations)),
            Err(error) => Err(within(alloc, name, error)),
        },
    }
}
