//! Files of targets that are copied or linked, and files of roles that are written, over files in memory: what is answered, and by which calls.

use crate::given::{given_files, target};
use anyhow::Result;
use serde_json::Value;
use std::alloc::{AllocError, Global};
use std::collections::BTreeMap;
use std::mem;
use tough_decoded::{Decoded, Hex};
use tough_files::{Call, Files, MemoryFiles, Request};
use tough_names::TargetName;
use tough_schema::Target;
use tough_write::{NamedFile, OutputError, PathExists, TargetFiles, write_roles};
use trials_calls::case::{flag, list, number, text};
use trials_calls::faulty::FaultyFiles;

// A call, by its name and the paths that it is on.
fn named(alloc: Global, call: &Call) -> Result<String, AllocError> {
    match &call.request {
        Request::Kind(path, true) => format!(in alloc; "kind({path})"),
        Request::Kind(path, false) => format!(in alloc; "kind({path}, no link)"),
        Request::Read(path, from, _) => format!(in alloc; "read({path}, {from})"),
        Request::Create(path) => format!(in alloc; "create({path})"),
        Request::CreateTemp(path) => format!(in alloc; "create_temp({path})"),
        Request::Append(path, bytes) => format!(in alloc; "append({path}, {})", bytes.len()),
        Request::Rename(from, to) => format!(in alloc; "rename({from}, {to})"),
        Request::Copy(from, to) => format!(in alloc; "copy({from}, {to})"),
        Request::Link(original, path) => format!(in alloc; "link({original}, {path})"),
        Request::Remove(path) => format!(in alloc; "remove({path})"),
        Request::MakeFolders(path) => format!(in alloc; "make_folders({path})"),
        Request::Canonical(path) => format!(in alloc; "canonical({path})"),
        Request::List(path) => format!(in alloc; "list({path})"),
    }
}

// The most calls that are told one by one.
const MOST: usize = 100;

// The calls from this one on, or how many there are.
fn calls_from(alloc: Global, calls: &[Call], first: usize) -> Result<String> {
    let count = calls.len().saturating_sub(first);
    if count > MOST {
        return Ok(format!(in alloc; "{count} calls")?);
    }
    let mut texts = Vec::new(alloc);
    for call in calls.iter().skip(first) {
        texts.push(named(alloc, call)?)?;
    }
    Ok(texts.as_slice().join(alloc, ", ")?)
}

// What a call answers.
fn outcome(alloc: Global, done: Result<(), OutputError>) -> Result<String> {
    match done {
        Ok(()) => Ok(String::from_str(alloc, "ok")?),
        Err(error) => Ok(format!(in alloc; "{error}")?),
    }
}

// The SHA-512 that the case lists: none, these digits, or else that of the content.
fn second_digest(
    alloc: Global,
    case: &Value,
    own: Option<Decoded<Hex>>,
) -> Result<Option<Decoded<Hex>>> {
    match text(case, "sha512") {
        "" => Ok(own),
        "none" => Ok(None),
        digits => Ok(Some(Decoded::from_str(alloc, digits)?)),
    }
}

// Targets by their names, each of the content that the case says.
fn targets(alloc: Global, case: &Value) -> Result<Vec<(TargetName, Target)>> {
    let mut targets = Vec::new(alloc);
    if let Some(listed) = case.get("targets").and_then(Value::as_object) {
        for (name, content) in listed {
            let content = content.as_str().unwrap_or("");
            let name = TargetName::from_str(alloc, name.as_str())?;
            let mut target = target(alloc, content)?;
            let own = mem::replace(&mut target.hashes.sha512, None);
            target.hashes.sha512 = second_digest(alloc, case, own)?;
            targets.push((name, target))?;
        }
    }
    Ok(targets)
}

// Copies or links what the case says.
fn put<F: Files>(
    alloc: Global,
    listed: &TargetFiles<'_>,
    files: &mut F,
    case: &Value,
) -> Result<String> {
    let (input, outdir) = (text(case, "input"), text(case, "outdir"));
    let exists = PathExists::from_str(alloc, text(case, "exists"))?;
    let name = match text(case, "target") {
        "" => None,
        name => Some(TargetName::from_str(alloc, name)?),
    };
    let name = name.as_ref();
    let done = match text(case, "op") {
        "copy_target" => listed.copy_target(alloc, files, input, outdir, exists, name),
        "link_target" => listed.link_target(alloc, files, input, outdir, exists, name),
        "copy_targets" => listed.copy_targets(alloc, files, input, outdir, exists),
        _ => listed.link_targets(alloc, files, input, outdir, exists),
    };
    outcome(alloc, done)
}

/// What copying or linking answers, and by which calls.
pub fn play(alloc: Global, case: &Value) -> Result<String> {
    let mut files = given_files(alloc, case)?;
    let targets = targets(alloc, case)?;
    let mut by_name = BTreeMap::new(alloc);
    for (name, target) in &targets {
        by_name.insert(name.clone()?, target)?;
    }
    let listed = TargetFiles::new(by_name, flag(case, "consistent"));
    let first = files.calls().len();
    if let Some(left) = number(case, "files fail after") {
        let mut files = FaultyFiles::new(files, left);
        let told = put(alloc, &listed, &mut files, case)?;
        let calls = calls_from(alloc, files.calls(), first)?;
        return Ok(format!(in alloc; "{told}: {calls}")?);
    }
    let told = put(alloc, &listed, &mut files, case)?;
    let calls = calls_from(alloc, files.calls(), first)?;
    Ok(format!(in alloc; "{told}: {calls}")?)
}

/// What writing files of these names answers, and by which calls.
pub fn write(alloc: Global, case: &Value) -> Result<String> {
    let mut files = given_files(alloc, case)?;
    let mut roles = Vec::new(alloc);
    for name in list(case, "names") {
        let name = String::from_str(alloc, name.as_str().unwrap_or(""))?;
        roles.push(NamedFile { name, bytes: b"{}" })?;
    }
    let first = files.calls().len();
    let told = outcome(
        alloc,
        write_roles(alloc, &mut files, text(case, "outdir"), roles.as_slice()),
    )?;
    let calls = calls_from(alloc, files.calls(), first)?;
    Ok(format!(in alloc; "{told}: {calls}")?)
}
