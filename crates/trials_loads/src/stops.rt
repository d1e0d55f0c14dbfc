//! Loads that end after each of their turns, and the loads after them on the same store.

use anyhow::{Result, anyhow};
use jiff::Timestamp as Instant;
use serde_json::Value;
use std::alloc::Global;
use tough_net::{Limits, TransportError, TransportErrorKind};
use tough_schema::DemoVerify;
use tough_update::{Ask, Core, Fault};
use tough_vault::{ExpirationEnforcement, MemoryStore, Vault};
use tough_world::{Answer, World};
use trials_calls::case::text;

// The most turns of a load.
const TURNS: u64 = 10_000;

// What the server of some files answers to a question.
fn answer(alloc: Global, case: &Value, files: &Value, core: &Core) -> Result<Option<Answer>> {
    Ok(match core.ask() {
        Ask::Ready => None,
        Ask::Moment => Some(Answer::Moment(text(case, "now").parse::<Instant>()?)),
        Ask::Stored(_) | Ask::Step(_) => Some(Answer::Step),
        Ask::Fetch(request) => match files.get(request.name.as_str()).and_then(Value::as_str) {
            Some(file) => Some(Answer::Bytes(Vec::from_slice(alloc, file.as_bytes())?)),
            None => {
                let kind = TransportErrorKind::FileNotFound;
                let error = TransportError::new(alloc, kind, request.name.as_str())?;
                Some(Answer::NotStarted(Fault::Transport(error)))
            }
        },
    })
}

// Begins a load on the store and takes at most so many of its turns, with what the server of some files answers. How many there were, and how it ended.
fn live(
    alloc: Global,
    case: &Value,
    files: &Value,
    store: MemoryStore,
    most: u64,
) -> Result<(MemoryStore, u64, String)> {
    let trusted = Vec::from_slice(alloc, text(case, "root").as_bytes())?;
    let mut cores = Vec::new(alloc);
    cores.push(Core::new(trusted, Limits::default(), ExpirationEnforcement::Safe))?;
    let mut world = World::new(alloc, Vault::new(alloc, store), DemoVerify, cores);
    let mut turns = 0u64;
    for _ in 0..most {
        let asked = match world.cores().first() {
            Some(core) => answer(alloc, case, files, core)?,
            None => None,
        };
        let Some(answer) = asked else {
            break;
        };
        if world.turn(0, answer).is_err() {
            return Err(anyhow!("a turn that was asked for is refused"));
        }
        turns = turns.saturating_add(1);
    }
    let (cores, vault, _) = world.into_parts();
    let told = ended(alloc, cores.as_slice())?;
    drop(cores);
    Ok((vault.into_store(), turns, told))
}

// How the load ended, if it has.
fn ended(alloc: Global, cores: &[Core]) -> Result<String> {
    Ok(match cores.first().and_then(Core::outcome) {
        Some(Ok(loaded)) => format!(in alloc;
            "timestamp {} snapshot {} targets {}",
            loaded.timestamp().signed.version,
            loaded.snapshot().signed.version,
            loaded.targets().signed.version
        )?,
        Some(Err(error)) => format!(in alloc; "{error}")?,
        None => String::from_str(alloc, "stopped")?,
    })
}

// Adds a line, where it isn't the last one.
fn add_line(told: &mut String, last: &mut String, line: String) -> Result<()> {
    if line != *last {
        told.push_str("\n  ")?;
        told.push_str(line.as_str())?;
        *last = line;
    }
    Ok(())
}

/// For each number of turns: a load that ends after it, a whole load after it, and a whole load of older files after that one. What the second and the third
/// came to, a line where that changes.
pub fn play(alloc: Global, case: &Value) -> Result<String> {
    let (files, older) = (
        case.get("files").unwrap_or(case),
        case.get("older").unwrap_or(case),
    );
    let (_, whole, _) = live(alloc, case, files, MemoryStore::new(alloc), TURNS)?;
    let mut told = format!(in alloc; "{whole} turns")?;
    let mut last = String::new(alloc);
    for stop in 0..=whole {
        let (store, _, _) = live(alloc, case, files, MemoryStore::new(alloc), stop)?;
        let (store, _, second) = live(alloc, case, files, store, TURNS)?;
        let (_, _, third) = live(alloc, case, older, store, TURNS)?;
        let line = format!(in alloc; "{second}, then {third}")?;
        add_line(&mut told, &mut last, line)?;
    }
    Ok(told)
}
