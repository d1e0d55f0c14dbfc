//! Trees of targets: what is found in them, and how they are edited.

use crate::case::{list, number, text};
use crate::documents::verdict;
use anyhow::Result;
use serde_json::Value;
use std::alloc::Global;
use tough_names::TargetName;
use tough_schema::{DelegatedTargets, Delegations, Error, Nodes, PathSet, Signed, Target, Targets};

// The document, where each role whose mark is `1` has the last of the documents that were made.
fn with_documents(
    alloc: Global,
    marks: &str,
    document: &str,
    made: &mut Vec<Targets>,
) -> Result<Targets> {
    let mut targets = Targets::read(alloc, document.as_bytes())?;
    if let Some(delegations) = &mut targets.delegations {
        for (role, mark) in delegations.roles.iter_mut().zip(marks.chars()) {
            if mark == '1' {
                if let Some(below) = made.pop() {
                    let name = role.name.clone()?;
                    role.targets = Some(Targets::named(unsigned(alloc, below), name));
                }
            }
        }
    }
    Ok(targets)
}

// Targets without signatures.
fn unsigned(alloc: Global, signed: Targets) -> Signed<Targets> {
    Signed {
        signed,
        signatures: Vec::new(alloc),
    }
}

// The tree of these documents, from the last one below to the one at the top. Before the text of each stand its marks, one for
// each of its roles.
fn tree(alloc: Global, documents: &[Value]) -> Result<Option<Targets>> {
    let mut made = Vec::new(alloc);
    for told in documents {
        if let Some((marks, document)) = told.as_str().unwrap_or("").split_once(' ') {
            let targets = with_documents(alloc, marks, document, &mut made)?;
            made.push(targets)?;
        }
    }
    Ok(made.pop())
}

// How many trees are left of so many documents, each of which has the one before it below it. The tree is dropped then.
fn chain(alloc: Global, document: &str, times: u64) -> Result<String> {
    let mut made = Vec::new(alloc);
    for _ in 0..times {
        let targets = with_documents(alloc, "1", document, &mut made)?;
        made.push(targets)?;
    }
    Ok(format!(in alloc; "{}", made.len())?)
}

// What stands before and after the number of a role in the document that delegates to it alone, for all names.
const BEFORE: &str =
    "{\"spec_version\":\"1\",\"version\":1,\"expires\":\"2030-01-01T00:00:00Z\",\"targets\":{},\
    \"delegations\":{\"keys\":{},\"roles\":[{\"name\":\"";

const BEHIND: &str = "\",\"keyids\":[],\"threshold\":1,\"terminating\":false,\"paths\":[\"*\"]}]}}";

// A chain of so many roles, each below the one before it, over this last document.
fn deep(alloc: Global, last: &str, times: u64) -> Result<Option<Targets>> {
    let mut made = Vec::new(alloc);
    made.push(Targets::read(alloc, last.as_bytes())?)?;
    for number in 0..times {
        let document = format!(in alloc; "{BEFORE}{number}{BEHIND}")?;
        let targets = with_documents(alloc, "1", document.as_str(), &mut made)?;
        made.push(targets)?;
    }
    Ok(made.pop())
}

// What searches for the name `x` come to in such a chain.
fn search_deep(alloc: Global, last: &str, times: u64) -> Result<String> {
    match deep(alloc, last, times)? {
        Some(targets) => searched(alloc, &targets, "x"),
        None => Ok(String::from_str(alloc, "no documents")?),
    }
}

// The number of the document that a search ends at, and how many path sets it compares.
fn found_by(
    alloc: Global,
    nodes: &Nodes<'_>,
    name: &TargetName,
    permissive: bool,
) -> Result<String> {
    let found = nodes.search(alloc, name, permissive)?;
    match found.node {
        Some(number) => Ok(format!(in alloc; "{number}/{}", found.tests)?),
        None => Ok(format!(in alloc; "-/{}", found.tests)?),
    }
}

// What the search comes to by numbers, and what the permissive one does.
fn searched(alloc: Global, targets: &Targets, name: &str) -> Result<String> {
    let name = TargetName::from_str(alloc, name)?;
    let nodes = Nodes::of(alloc, targets)?;
    let strict = found_by(alloc, &nodes, &name, false)?;
    let permissive = found_by(alloc, &nodes, &name, true)?;
    Ok(format!(in alloc; "{strict} {permissive}")?)
}

// The name of a refusal.
fn name_of(alloc: Global, error: &Error) -> Result<String> {
    let told = format!(in alloc; "{error:?}")?;
    let name = told.as_str().split(' ').next().unwrap_or("");
    Ok(String::from_str(alloc, name)?)
}

// The length of a target, which tells the document that lists it.
fn length(alloc: Global, found: Result<&Target, Error>) -> Result<String> {
    match found {
        Ok(target) => Ok(format!(in alloc; "{}", target.length)?),
        Err(error) => name_of(alloc, &error),
    }
}

// What the search finds, and what the permissive one does.
fn found(alloc: Global, targets: &Targets, name: &str) -> Result<String> {
    let name = TargetName::from_str(alloc, name)?;
    let strict = length(alloc, targets.find_target(alloc, &name, false))?;
    let permissive = length(alloc, targets.find_target(alloc, &name, true))?;
    Ok(format!(in alloc; "{strict} {permissive}")?)
}

// A role, with the version of its document.
fn role(alloc: Global, targets: &Targets, name: &str) -> Result<String> {
    match targets.delegated_role(alloc, name) {
        Ok(role) => match &role.targets {
            Some(document) => {
                Ok(format!(in alloc; "{} {}", role.name, document.signed.targets.version)?)
            }
            None => Ok(format!(in alloc; "{} -", role.name)?),
        },
        Err(error) => name_of(alloc, &error),
    }
}

// The version of a role's document.
fn document(alloc: Global, targets: &Targets, name: &str) -> Result<String> {
    match targets.delegated_targets(alloc, name) {
        Ok(document) => Ok(format!(in alloc; "{}", document.signed.targets.version)?),
        Err(error) => name_of(alloc, &error),
    }
}

// The names of the roles of delegations.
fn names_in(alloc: Global, delegations: &Delegations) -> Result<String> {
    let mut names = Vec::new(alloc);
    for role in &delegations.roles {
        names.push(role.name.as_str())?;
    }
    Ok(names.as_slice().join(alloc, ",")?)
}

// The names of the roles among which a role stands.
fn siblings(alloc: Global, targets: &Targets, name: &str) -> Result<String> {
    match targets.parent_of(alloc, name) {
        Ok(delegations) => names_in(alloc, delegations),
        Err(error) => name_of(alloc, &error),
    }
}

// A role, its document, and the roles among which it stands.
fn sought(alloc: Global, targets: &Targets, name: &str) -> Result<String> {
    let role = role(alloc, targets, name)?;
    let document = document(alloc, targets, name)?;
    let siblings = siblings(alloc, targets, name)?;
    Ok(format!(in alloc; "{role} | {document} | {siblings}")?)
}

// The names and versions of the documents of a tree.
fn documents(alloc: Global, targets: &Targets) -> Result<String> {
    let mut words = Vec::new(alloc);
    for document in &targets.signed_delegated_targets(alloc)? {
        let DelegatedTargets { name, targets } = &document.signed;
        words.push(format!(in alloc; "{name}:{}", targets.version)?)?;
    }
    Ok(words.as_slice().join(alloc, ",")?)
}

// Adds a target's name and its length.
fn tell_target(
    alloc: Global,
    words: &mut Vec<String>,
    name: &TargetName,
    target: &Target,
) -> Result<()> {
    words.push(format!(in alloc; "{}:{}", name.raw(), target.length)?)?;
    Ok(())
}

// What a document or its tree lists: the document alone (`own`), one listing for each name (`map`), or all listings.
fn listed(alloc: Global, targets: &Targets, which: &str) -> Result<String> {
    let mut words = Vec::new(alloc);
    if which == "own" {
        for (name, target) in targets.targets.iter() {
            tell_target(alloc, &mut words, name, target)?;
        }
    } else if which == "map" {
        for (name, target) in targets.targets_map(alloc)?.iter() {
            tell_target(alloc, &mut words, name, target)?;
        }
    } else {
        for entry in &targets.targets_iter(alloc)? {
            let (name, target) = *entry;
            tell_target(alloc, &mut words, name, target)?;
        }
    }
    Ok(words.as_slice().join(alloc, ",")?)
}

// What a tree tells.
fn query(alloc: Global, targets: &Targets, asked: &str, name: &str) -> Result<String> {
    match asked {
        "find" => found(alloc, targets, name),
        "search" => searched(alloc, targets, name),
        "role" => sought(alloc, targets, name),
        "names" => Ok(targets.role_names(alloc)?.as_slice().join(alloc, ",")?),
        "documents" => documents(alloc, targets),
        "copy" => {
            let is_equal = targets.clone()? == *targets;
            Ok(format!(in alloc; "{is_equal}")?)
        }
        "validate" => verdict(alloc, targets.validate(alloc)),
        _ => listed(alloc, targets, asked),
    }
}

// Lists the target that the document lists under the name.
fn add(alloc: Global, targets: &mut Targets, name: &str, document: &str) -> Result<String> {
    let name = TargetName::from_str(alloc, name)?;
    let mut other = Targets::read(alloc, document.as_bytes())?;
    let Some(target) = other.remove_target(&name) else {
        return Ok(String::from_str(alloc, "none")?);
    };
    targets.add_target(name, target)?;
    Ok(String::from_str(alloc, "added")?)
}

// Takes a target out, and tells its length.
fn remove(alloc: Global, targets: &mut Targets, name: &str) -> Result<String> {
    let name = TargetName::from_str(alloc, name)?;
    match targets.remove_target(&name) {
        Some(target) => Ok(format!(in alloc; "{}", target.length)?),
        None => Ok(String::from_str(alloc, "none")?),
    }
}

// Takes all targets out of the role's document and those below it, or out of the whole tree.
fn clear(alloc: Global, targets: &mut Targets, name: &str) -> Result<String> {
    if name.is_empty() {
        targets.clear_targets();
        return Ok(String::from_str(alloc, "cleared")?);
    }
    match targets.delegated_targets_mut(alloc, name) {
        Ok(document) => document.signed.targets.clear_targets(),
        Err(error) => return name_of(alloc, &error),
    }
    Ok(String::from_str(alloc, "cleared")?)
}

// Takes all patterns from a role.
fn close(alloc: Global, targets: &mut Targets, name: &str) -> Result<String> {
    match targets.delegated_role_mut(alloc, name) {
        Ok(role) => role.paths = PathSet::Paths(Vec::new(alloc)),
        Err(error) => return name_of(alloc, &error),
    }
    Ok(String::from_str(alloc, "closed")?)
}

// The roles of newer targets for which the tree has no document, and the documents that it gives them.
fn update(alloc: Global, targets: &Targets, newer: &str) -> Result<String> {
    let mut newer = unsigned(alloc, Targets::read(alloc, newer.as_bytes())?);
    let needed = targets.update_targets(alloc, &mut newer)?;
    let needed = needed.as_slice().join(alloc, ",")?;
    let given = documents(alloc, &newer.signed)?;
    Ok(format!(in alloc; "{needed} | {given}")?)
}

// Takes a step: an edit, or a query.
fn step(alloc: Global, targets: &mut Targets, told: &str) -> Result<String> {
    let (what, rest) = told.split_once(' ').unwrap_or((told, ""));
    match what {
        "add" => {
            let (name, document) = rest.split_once(' ').unwrap_or((rest, ""));
            add(alloc, targets, name, document)
        }
        "remove" => remove(alloc, targets, rest),
        "clear" => clear(alloc, targets, rest),
        "close" => close(alloc, targets, rest),
        "update" => update(alloc, targets, rest),
        _ => query(alloc, targets, what, rest),
    }
}

// The answers of steps on a tree.
fn steps(alloc: Global, case: &Value) -> Result<String> {
    let Some(mut targets) = tree(alloc, list(case, "documents"))? else {
        return Ok(String::from_str(alloc, "no documents")?);
    };
    let mut answers = Vec::new(alloc);
    for told in list(case, "steps") {
        answers.push(step(alloc, &mut targets, told.as_str().unwrap_or(""))?)?;
    }
    Ok(answers.as_slice().join(alloc, "; ")?)
}

/// What a call on trees answers, if it is one.
pub(crate) fn answer(alloc: Global, call: &str, case: &Value) -> Result<Option<String>> {
    Ok(match call {
        "tree" => Some(steps(alloc, case)?),
        "chain" => Some(chain(
            alloc,
            text(case, "document"),
            number(case, "times").unwrap_or(0),
        )?),
        "Nodes::search" => Some(search_deep(
            alloc,
            text(case, "document"),
            number(case, "times").unwrap_or(0),
        )?),
        _ => None,
    })
}
