//! Schedules of several updates on one vault.

use crate::journal::journal;
use anyhow::Result;
use jiff::Timestamp as Instant;
use serde_json::Value;
use std::alloc::Global;
use tough_net::{Limits, TransportError, TransportErrorKind};
use tough_schema::DemoVerify;
use tough_update::{Ask, Core, Fault};
use tough_vault::{MemoryStore, Vault};
use tough_world::{Answer, Life, Turn, World, run_lives};
use trials_calls::case::{flag, list, number, text};
use trials_calls::vault::enforcement;

type Memory = World<MemoryStore, DemoVerify>;

// Updates by the root of the case, as many as a life says.
fn updates(alloc: Global, case: &Value, life: &Value) -> Result<Vec<Core>> {
    let mut cores = Vec::new(alloc);
    for _ in 0..number(life, "loads").unwrap_or(1) {
        let trusted = Vec::from_slice(alloc, text(case, "trusted").as_bytes())?;
        cores.push(Core::new(trusted, limits(case), enforcement(case)))?;
    }
    Ok(cores)
}

// The limits of the case.
fn limits(case: &Value) -> Limits {
    let mut limits = Limits::default();
    if let Some(most) = number(case, "max_timestamp_size") {
        limits.max_timestamp_size = most;
    }
    limits
}

// A fetch that failed.
fn fault(alloc: Global, kind: TransportErrorKind) -> Result<Fault> {
    Ok(Fault::Transport(TransportError::new(alloc, kind, "http://h/a")?))
}

// What a turn of the case answers: its kind, and a moment, or a file of the case.
fn answer(alloc: Global, case: &Value, turn: &Value) -> Result<Answer> {
    let file = match case.get("files") {
        Some(files) => text(files, text(turn, "file")),
        None => "",
    };
    Ok(match text(turn, "kind") {
        "moment" => Answer::Moment(text(turn, "now").parse::<Instant>()?),
        "bytes" => Answer::Bytes(Vec::from_slice(alloc, file.as_bytes())?),
        "missing" => Answer::NotStarted(fault(alloc, TransportErrorKind::FileNotFound)?),
        "cut" => Answer::Cut(fault(alloc, TransportErrorKind::Other)?),
        _ => Answer::Step,
    })
}

// The number of the update that a turn answers.
fn load_of(turn: &Value) -> usize {
    match number(turn, "load") {
        Some(load) => usize::try_from(load).unwrap_or(usize::MAX),
        None => 0,
    }
}

// What an update asks for.
fn asked(alloc: Global, core: &Core) -> Result<String> {
    Ok(match core.ask() {
        Ask::Moment => String::from_str(alloc, "the moment")?,
        Ask::Fetch(request) => String::from_str(alloc, request.name.as_str())?,
        Ask::Stored(first) => format!(in alloc; "the stored root from {first}")?,
        Ask::Step(_) => String::from_str(alloc, "a step")?,
        Ask::Ready => String::from_str(alloc, "nothing")?,
    })
}

// Takes the turns one by one, and tells what each answers.
fn turn_by_turn(alloc: Global, world: &mut Memory, case: &Value) -> Result<String> {
    let mut told = String::new(alloc);
    for turn in list(case, "turns") {
        let (load, kind) = (load_of(turn), text(turn, "kind"));
        match world.turn(load, answer(alloc, case, turn)?) {
            Ok(()) => told.push_str(format!(in alloc; "\n  {load} {kind}: ok")?.as_str())?,
            Err(error) => {
                told.push_str(format!(in alloc; "\n  {load} {kind}: {error:?}")?.as_str())?
            }
        }
    }
    Ok(told)
}

// The turns of a life as one schedule.
fn schedule_of(alloc: Global, case: &Value, life: &Value) -> Result<Vec<Turn>> {
    let mut schedule = Vec::new(alloc);
    for turn in list(life, "turns") {
        let answer = answer(alloc, case, turn)?;
        schedule.push(Turn {
            load: load_of(turn),
            answer,
        })?;
    }
    Ok(schedule)
}

// Runs the turns as one schedule.
fn run(alloc: Global, world: &mut Memory, case: &Value) -> Result<String> {
    let schedule = schedule_of(alloc, case, case)?;
    world.run(schedule);
    Ok(String::new(alloc))
}

// The lives of the case.
fn lives_of(alloc: Global, case: &Value) -> Result<Vec<Life>> {
    let mut lives = Vec::new(alloc);
    for life in list(case, "lives") {
        let cores = updates(alloc, case, life)?;
        let schedule = schedule_of(alloc, case, life)?;
        lives.push(Life { cores, schedule })?;
    }
    Ok(lives)
}

/// The journals of the lives of a case on one store, one after another.
pub fn live(alloc: Global, case: &Value) -> Result<String> {
    let lives = lives_of(alloc, case)?;
    let journals = match run_lives(alloc, MemoryStore::new(alloc), DemoVerify, lives) {
        Ok((_, journals)) => journals,
        Err((error, _)) => return Err(error.into()),
    };
    let mut told = String::new(alloc);
    for entries in &journals {
        let line = journal(alloc, entries.as_slice())?;
        told.push_str(format!(in alloc; "\n  {line}")?.as_str())?;
    }
    Ok(told)
}

/// What the turns of a case answer, the journal after them, and what each update asks for then.
pub fn play(alloc: Global, case: &Value) -> Result<String> {
    let vault = Vault::new(alloc, MemoryStore::new(alloc));
    let mut world = World::new(alloc, vault, DemoVerify, updates(alloc, case, case)?);
    let told = if flag(case, "whole") {
        run(alloc, &mut world, case)?
    } else {
        turn_by_turn(alloc, &mut world, case)?
    };
    let mut asks = Vec::new(alloc);
    for core in world.cores() {
        asks.push(asked(alloc, core)?)?;
    }
    let asks = asks.as_slice().join(alloc, ", ")?;
    let journal = journal(alloc, world.vault().journal())?;
    Ok(format!(in alloc; "{told}\n  journal: {journal}\n  asked for: {asks}")?)
}
