//! What the calls of an editor of a repository answer that fetch documents of roles.

use crate::given::{Called, keys, outcome, paths, positive};
use crate::publishing::Editor;
use anyhow::Result;
use bytes::Bytes;
use serde_json::Value;
use std::alloc::{AllocGlobal, Global};
use std::random::RandomSource;
use tough_client::finish;
use tough_net::{Limits, MemoryTransport};
use tough_schema::DemoVerify;
use trials_calls::case::{flag, list, text};

// Gives the editor the limits and the files by their URLs that a step has.
fn equip(alloc: Global, editor: &mut Editor, step: &Value) -> Result<()> {
    if flag(step, "limits") {
        editor.limits(Limits::default());
    }
    if let Some(files) = step.get("served").and_then(Value::as_object) {
        let mut transport = MemoryTransport::in_pieces(alloc, 100);
        for (url, text) in files {
            let bytes = text.as_str().unwrap_or("").as_bytes();
            transport.insert(url.as_str(), Bytes::copy_from_slice(alloc, bytes)?)?;
        }
        editor.transport(transport);
    }
    Ok(())
}

// Fetches the role of a step, and delegates to it.
fn add_role<R>(rt: &R, editor: &mut Editor, step: &Value) -> Result<Called>
where
    R: RandomSource + AllocGlobal,
{
    let alloc = rt.alloc();
    let given = match step.get("keys") {
        Some(_) => Some(keys(alloc, list(step, "keys"))?),
        None => None,
    };
    let (name, url) = (text(step, "name"), text(step, "url"));
    let (paths, threshold) = (paths(alloc, step)?, positive(step, "threshold"));
    let adding = editor.add_role(name, url, paths, false, threshold, given);
    Ok(finish(rt, adding)?)
}

// Fetches the document of the role of a step anew.
fn update<R>(rt: &R, editor: &mut Editor, step: &Value) -> Result<Called>
where
    R: RandomSource + AllocGlobal,
{
    let (name, url) = (text(step, "name"), text(step, "url"));
    let updating = editor.update_delegated_targets(name, url, &DemoVerify);
    Ok(finish(rt, updating)?)
}

/// What a call that fetches answers, if it is one.
pub(crate) fn answer<R>(rt: &R, editor: &mut Editor, step: &Value) -> Result<Option<String>>
where
    R: RandomSource + AllocGlobal,
{
    let alloc = rt.alloc();
    equip(alloc, editor, step)?;
    let done = match text(step, "op") {
        "add_role" => add_role(rt, editor, step)?,
        "update_delegated_targets" => update(rt, editor, step)?,
        _ => return Ok(None),
    };
    Ok(Some(outcome(alloc, done)?))
}
