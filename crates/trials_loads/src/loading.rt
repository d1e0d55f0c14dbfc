//! Loads over a transport that answers by a script.

use crate::polling::{Polls, poll_by_hand};
use crate::scripted::Scripted;
use anyhow::Result;
use futures::StreamExt;
use jiff::Timestamp as Instant;
use serde_json::Value;
use std::alloc::{AllocGlobal, Global};
use std::random::RandomSource;
use std::sync::Arc;
use std::sync::atomic::{AtomicU64, Ordering};
use tough_client::{FixedClock, MemoryStore, RepositoryLoader, Vault};
use tough_net::{IntoVec, Limits, Transport};
use tough_schema::DemoVerify;
use tough_update::{Counts, Loaded};
use trials_calls::case::{list, number, text};
use url::Url;

// Where the files lie.
const BASE: &str = "http://h/";

// The most polls of a case that says no number.
const POLLS: u64 = 100_000;

// The default limits, but for that which the case states.
fn limits(case: &Value) -> Limits {
    let mut limits = Limits::default();
    if let Some(size) = number(case, "max_timestamp_size") {
        limits.max_timestamp_size = size;
    }
    limits
}

// What the polls of a future came to, beside what it gave.
fn tell_polls<T>(alloc: Global, polls: &Polls<T>, given: u64) -> Result<String> {
    let (count, most, asleep) = (polls.count, polls.most, polls.asleep);
    Ok(format!(in alloc;
        "{given} pieces, at most {most} in a poll; {count} polls, {asleep} of them asleep"
    )?)
}

// The versions of what was loaded.
fn tell_loaded(alloc: Global, loaded: &Loaded) -> Result<String> {
    Ok(format!(in alloc;
        "root {} timestamp {} snapshot {} targets {}",
        loaded.root().signed.version,
        loaded.timestamp().signed.version,
        loaded.snapshot().signed.version,
        loaded.targets().signed.version
    )?)
}

// What was counted.
fn tell_counts(alloc: Global, counts: &Counts) -> Result<String> {
    Ok(format!(in alloc;
        "fetched {} roots and {} delegated documents, kept {}, of {} roles",
        counts.roots, counts.delegated, counts.kept, counts.entries
    )?)
}

// What a load of the case's repository comes to, where its files come in pieces of this length.
fn load_in_pieces<R>(rt: &R, case: &Value, len: usize) -> Result<(String, String)>
where
    R: RandomSource + AllocGlobal,
{
    let alloc = rt.alloc();
    let given = Arc::new(alloc, AtomicU64::new(0))?;
    let files = case.get("files").unwrap_or(case);
    let transport = Scripted::new(alloc, files, BASE, len, given.clone()?)?;
    let (base, targets) = (Url::parse(alloc, BASE)?, Url::parse(alloc, BASE)?);
    let mut vault = Vault::new(alloc, MemoryStore::new(alloc));
    let mut load = RepositoryLoader::new(alloc, text(case, "root").as_bytes(), base, targets)
        .transport(transport)
        .verifier(DemoVerify)
        .clock(FixedClock(text(case, "now").parse::<Instant>()?))
        .keeper(&mut vault)
        .limits(limits(case))
        .load()?;
    let most = number(case, "polls").unwrap_or(POLLS);
    let polls = poll_by_hand(rt, &mut load, &given, most)?;
    let outcome = match &polls.outcome {
        Some(Ok(loaded)) => tell_loaded(alloc, loaded)?,
        Some(Err(error)) => format!(in alloc; "{error}")?,
        None => String::from_str(alloc, "waits")?,
    };
    let counts = tell_counts(alloc, &load.core().counts())?;
    let told = tell_polls(alloc, &polls, given.load(Ordering::SeqCst))?;
    drop(polls);
    drop(load);
    Ok((outcome, format!(in alloc; "{counts}\n  {told}")?))
}

/// What a load of the case's repository comes to, what was counted, and how many pieces its polls took.
pub fn play<R>(rt: &R, case: &Value) -> Result<String>
where
    R: RandomSource + AllocGlobal,
{
    let len = number(case, "len").and_then(|n| usize::try_from(n).ok());
    let (outcome, told) = load_in_pieces(rt, case, len.unwrap_or(usize::MAX))?;
    Ok(format!(in rt.alloc(); "\n  {outcome}\n  {told}")?)
}

/// What loads of the case's repository come to, where its files come in pieces of the lengths of the case.
pub fn cut<R>(rt: &R, case: &Value) -> Result<String>
where
    R: RandomSource + AllocGlobal,
{
    let alloc = rt.alloc();
    let mut told = String::new(alloc);
    for len in list(case, "lengths") {
        let len = len.as_u64().and_then(|n| usize::try_from(n).ok());
        let (outcome, _) = load_in_pieces(rt, case, len.unwrap_or(usize::MAX))?;
        told.push_str(format!(in alloc; "\n  {outcome}")?.as_str())?;
    }
    Ok(told)
}

/// What the polls of the future of all bytes of a file come to.
pub fn whole<R>(rt: &R, case: &Value) -> Result<String>
where
    R: RandomSource + AllocGlobal,
{
    let alloc = rt.alloc();
    let given = Arc::new(alloc, AtomicU64::new(0))?;
    let files = case.get("files").unwrap_or(case);
    let len = number(case, "len").and_then(|n| usize::try_from(n).ok());
    let len = len.unwrap_or(usize::MAX);
    let transport = Scripted::new(alloc, files, BASE, len, given.clone()?)?;
    let url = Url::parse(alloc, text(case, "url"))?;
    let mut future = transport.fetch(&url)?.into_vec(alloc);
    let most = number(case, "polls").unwrap_or(POLLS);
    let polls = poll_by_hand(rt, &mut future, &given, most)?;
    let outcome = match &polls.outcome {
        Some(Ok(bytes)) => format!(in alloc; "{} bytes", bytes.len())?,
        Some(Err(error)) => format!(in alloc; "{error}")?,
        None => String::from_str(alloc, "waits")?,
    };
    let told = tell_polls(alloc, &polls, given.load(Ordering::SeqCst))?;
    drop(polls);
    Ok(format!(in alloc; "{outcome}; {told}")?)
}
