//! Answers the cases of files, one after another. A case is an object with the call that it tries (`call`), a name, the call's input, the
//! answer that is wanted of it, the whole of it (`answer`) or words that stand in it in this order (`words`), and where that comes from
//! (`source`: `original`, an RFC, `cryptography` or `hand`).
//!
//! `trials FILE..` prints a line for each case, the call, the case's name and what was answered; below it, where that isn't what is wanted,
//! what was wanted; and at the end of a file how many cases it has, and how many were answered otherwise. A case with a member that its call
//! doesn't know is refused. At the end it prints which calls had no case.
//!
//! `trials one NAME FILE..` answers the cases of that name alone.
#![tactic(auto)]

mod exchange;
mod fetch;
mod gateway;
mod http;
mod program;
mod script;
mod table;

use crate::table::{CALLS, fault_of, place_of};
use anyhow::{Result, anyhow};
use serde_json::Value;
use std::alloc::AllocGlobal;
use std::fs::File;
use std::net::Net;
use std::random::RandomSource;
use std::rt::{Clock, Files};
use std::sync::Wait;
use std::thread::Threads;
use std::{env, fs};
use trials_calls::case::text;
use trials_calls::judge::misses;
use trials_editor::{editing, publishing, putting};
use trials_loads::{errors, load, loading, saves, schedule, shared, stops, update};

// What a call on updates or errors answers.
fn of_updates(rt: &HostRuntime, call: &str, case: &Value) -> Result<String> {
    match call {
        "load" => load::loads(rt, case),
        "update" => update::play(rt.alloc(), case),
        "update over files" => update::serve(rt.alloc(), case),
        "Core::counts" => update::counts(rt.alloc(), case),
        "Load::core" => load::counts(rt.alloc(), case),
        "Limits::default" => update::limits_by_default(rt.alloc()),
        "save_target" | "cache" | "cache_metadata" => saves::play(rt, case),
        "Repository::all_targets" | "Repository::delegated_role" => saves::play(rt, case),
        "Repository::read_target" | "Repository::receipts" => saves::play(rt, case),
        "Target::from_path of the system" => errors::measured(rt, case),
        "schema::Error" => errors::told_of_schema(rt.alloc(), case),
        _ => Err(anyhow!("no call {call}")),
    }
}

// What a call on editors, on what they write, or on several updates answers.
fn of_editors(rt: &HostRuntime, call: &str, case: &Value) -> Result<Option<String>> {
    Ok(match call {
        "TargetsEditor" => Some(editing::play(rt, case)?),
        "RepositoryEditor" => Some(publishing::play(rt, case)?),
        "TargetFiles" => Some(putting::play(rt.alloc(), case)?),
        "write_roles" => Some(putting::write(rt.alloc(), case)?),
        "World" => Some(schedule::play(rt.alloc(), case)?),
        "run_lives" => Some(schedule::live(rt.alloc(), case)?),
        _ => None,
    })
}

// What a call on hostile servers or on stops answers.
fn of_hostiles(rt: &HostRuntime, call: &str, case: &Value) -> Result<Option<String>> {
    Ok(match call {
        "Load::poll" => Some(loading::play(rt, case)?),
        "Load::poll in pieces" => Some(loading::cut(rt, case)?),
        "IntoVec::into_vec" => Some(loading::whole(rt, case)?),
        "World::turn and a stop" => Some(stops::play(rt.alloc(), case)?),
        _ => None,
    })
}

// What the call of a case answers. The program waits by the second runtime.
fn answer<R>(rt: &HostRuntime, waiting: &R, case: &Value) -> Result<String>
where
    R: Files<File = File>
        + Net
        + Threads
        + Wait
        + Clock
        + RandomSource
        + AllocGlobal
        + Sync
        + Send
        + Clone
        + Drop,
{
    let call = text(case, "call");
    match call {
        "tough" => return program::play(rt, waiting, case),
        "fetch over HTTP" => return exchange::play(rt, waiting, case),
        "SharedStore" => return shared::play(waiting, case),
        _ => {}
    }
    if let Some(told) = trials_calls::answer(rt, call, case)? {
        return Ok(told);
    }
    if let Some(told) = of_editors(rt, call, case)? {
        return Ok(told);
    }
    if let Some(told) = of_hostiles(rt, call, case)? {
        return Ok(told);
    }
    of_updates(rt, call, case)
}

// Answers a case, and tells whether that is what is wanted.
fn is_answered<R>(rt: &HostRuntime, waiting: &R, case: &Value) -> Result<bool>
where
    R: Files<File = File>
        + Net
        + Threads
        + Wait
        + Clock
        + RandomSource
        + AllocGlobal
        + Sync
        + Send
        + Clone
        + Drop,
{
    let (call, name) = (text(case, "call"), text(case, "name"));
    if let Some(fault) = fault_of(rt.alloc(), case)? {
        println!(rt; "{call} {name}: {fault}")?;
        return Ok(false);
    }
    let told = answer(rt, waiting, case)?;
    let gap = if told.starts_with("\n") { "" } else { " " };
    println!(rt; "{call} {name}:{gap}{told}")?;
    match misses(case, told.as_str()) {
        Some(wanted) => {
            println!(rt; "  WANTED {wanted}")?;
            Ok(false)
        }
        None => Ok(true),
    }
}

// Marks a call, if the table has it.
fn mark(tried: &mut Vec<bool>, call: &str) {
    if let Some(place) = place_of(call)
        && let Some(mark) = tried.get_mut(place)
    {
        *mark = true;
    }
}

// Answers the cases of a file, or those of a name alone, and marks their calls.
fn try_file<R>(
    rt: &HostRuntime,
    waiting: &R,
    file: &str,
    only: Option<&str>,
    tried: &mut Vec<bool>,
) -> Result<()>
where
    R: Files<File = File>
        + Net
        + Threads
        + Wait
        + Clock
        + RandomSource
        + AllocGlobal
        + Sync
        + Send
        + Clone
        + Drop,
{
    let bytes = fs::read(rt, file)?;
    let read = Value::from_slice(rt.alloc(), bytes.as_slice())?;
    let (mut count, mut others) = (0usize, 0usize);
    if let Some(cases) = read.as_array() {
        for case in cases {
            if only.is_some() && only != Some(text(case, "name")) {
                continue;
            }
            count = count.saturating_add(1);
            mark(tried, text(case, "call"));
            if !is_answered(rt, waiting, case)? {
                others = others.saturating_add(1);
            }
        }
    }
    println!(rt; "{file}: {count} cases, {others} answered otherwise")?;
    Ok(())
}

// Prints the calls that had no case.
fn print_untried(rt: &HostRuntime, tried: &[bool]) -> Result<()> {
    let mut count = 0usize;
    for ((call, _, _), is_tried) in CALLS.iter().zip(tried) {
        if !is_tried {
            count = count.saturating_add(1);
            println!(rt; "{call}: no case")?;
        }
    }
    println!(rt; "{} calls, {count} without a case", CALLS.len())?;
    Ok(())
}

fn main(rt: HostRuntime) -> Result<()> {
    let mut tried = Vec::from_elem(rt.alloc(), false, CALLS.len())?;
    let mut words = Vec::new(rt.alloc());
    for word in env::args(&rt)?.skip(1) {
        words.push(word)?;
    }
    if words.first().map(String::as_str) == Some("one") {
        let name = words.get(1).map(String::as_str);
        for file in words.iter().skip(2) {
            try_file(&rt, &rt, file.as_str(), name, &mut tried)?;
        }
        return Ok(());
    }
    for file in &words {
        try_file(&rt, &rt, file.as_str(), None, &mut tried)?;
    }
    print_untried(&rt, tried.as_slice())
}
