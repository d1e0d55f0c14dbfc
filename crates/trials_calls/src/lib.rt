//! What single calls answer, on names, patterns, decoded values, JSON, keys, Ed25519, documents, trees of targets, files, streams, retries, stores and errors,
//! for the cases of `trials`.
#![tactic(auto)]

pub mod case;
mod compare;
mod decoded;
mod documents;
mod ed25519;
mod errors;
pub mod faulty;
mod files;
mod folder;
mod json;
pub mod judge;
mod keys;
mod made;
mod names;
mod patterns;
mod retries;
pub mod shelf;
mod streams;
mod told;
mod trees;
pub mod vault;

use anyhow::Result;
use serde_json::Value;
use std::alloc::Global;

// What a call on values answers, if it is one.
fn of_values(alloc: Global, call: &str, case: &Value) -> Result<Option<String>> {
    if let Some(told) = names::answer(alloc, call, case)? {
        return Ok(Some(told));
    }
    if let Some(told) = patterns::answer(alloc, call, case)? {
        return Ok(Some(told));
    }
    if let Some(told) = decoded::answer(alloc, call, case)? {
        return Ok(Some(told));
    }
    if let Some(told) = json::answer(alloc, call, case)? {
        return Ok(Some(told));
    }
    if let Some(told) = ed25519::answer(alloc, call, case)? {
        return Ok(Some(told));
    }
    keys::answer(alloc, call, case)
}

// What a call on documents answers, if it is one.
fn of_documents(alloc: Global, call: &str, case: &Value) -> Result<Option<String>> {
    if let Some(told) = documents::answer(alloc, call, case)? {
        return Ok(Some(told));
    }
    if let Some(told) = trees::answer(alloc, call, case)? {
        return Ok(Some(told));
    }
    made::answer(alloc, call, case)
}

// What a call on streams, retries, stores or errors answers, if it is one.
fn of_devices(rt: &HostRuntime, call: &str, case: &Value) -> Result<Option<String>> {
    Ok(Some(match call {
        "Error" => errors::told(rt.alloc(), case)?,
        "vault" => vault::steps(rt.alloc(), case)?,
        "ExpirationEnforcement" => vault::switch(rt.alloc(), case)?,
        "DirStore" => folder::play(rt, case)?,
        "SystemClock::now" => folder::clock(rt, case)?,
        "RetryCore" => retries::play(rt.alloc(), case)?,
        "TransportError" => streams::made(rt.alloc(), case)?,
        "FilesystemTransport" => streams::fetch_file(rt, case)?,
        "fetch_max_size" | "fetch_sha256" | "fetch_digests" | "fetch_whole" | "MemoryTransport" => {
            streams::fetch(rt, call, case)?
        }
        _ => return Ok(None),
    }))
}

/// What the call of a case answers, if it is one of these.
pub fn answer(rt: &HostRuntime, call: &str, case: &Value) -> Result<Option<String>> {
    if let Some(told) = of_values(rt.alloc(), call, case)? {
        return Ok(Some(told));
    }
    if let Some(told) = of_documents(rt.alloc(), call, case)? {
        return Ok(Some(told));
    }
    match files::answer(rt, call, case)? {
        Some(told) => Ok(Some(told)),
        None => of_devices(rt, call, case),
    }
}
