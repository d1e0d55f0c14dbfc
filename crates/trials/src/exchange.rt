//! Fetches over HTTP from a server in this process, which answers each connection by a script. Such a case has the settings, the URL's path,
//! the answers of the server in turn, and the answer that is wanted: what the stream yielded, and what was asked for. Times are compared and
//! not told: a pause may be longer than stated, by up to 20 s, and never shorter.

use crate::fetch::fetch_and_end;
use crate::script::{Seen, serve};
use anyhow::Result;
use serde_json::Value;
use std::alloc::{AllocGlobal, Global};
use std::net::{Ipv4Addr, Net, SocketAddr, TcpListener};
use std::random::RandomSource;
use std::rt::Files;
use std::sync::Wait;
use std::thread;
use std::thread::Threads;
use std::time::{Clock, Instant};
use trials_calls::case::list;

// The milliseconds that a pause may be longer than stated, so that the load of the machine doesn't matter.
const SLACK: u128 = 20_000;

// Whether a pause of so many milliseconds is the one that is wanted, where one is.
fn is_within(gap: u128, wanted: Option<u64>) -> bool {
    match wanted.map(u128::from) {
        Some(wanted) => wanted <= gap && gap <= wanted + SLACK,
        None => true,
    }
}

// What was asked for, and after each request the pause before it, where that isn't the one that the case states.
fn told(alloc: Global, case: &Value, start: Instant, seen: &[Seen]) -> Result<String> {
    let mut told = String::new(alloc);
    let mut last = start;
    for (at, request) in seen.iter().enumerate() {
        told.push_str(if at == 0 { "" } else { ", " })?;
        told.push_str(request.line.as_str())?;
        let wanted = list(case, "pauses").get(at).and_then(Value::as_u64);
        let gap = request.at.duration_since(last).as_millis();
        last = request.at;
        if !is_within(gap, wanted) {
            told.push_str(format!(in alloc; " after {gap} ms")?.as_str())?;
        }
    }
    Ok(told)
}

/// What the case's stream yielded, and what was asked for. The fetch waits by the second runtime.
pub(crate) fn play<R>(rt: &HostRuntime, waiting: &R, case: &Value) -> Result<String>
where
    R: Files + Net + Threads + Wait + Clock + RandomSource + AllocGlobal + Clone + Drop,
{
    let listener = TcpListener::bind(rt, SocketAddr::from((Ipv4Addr::LOCALHOST, 0)))?;
    let addr = listener.local_addr()?;
    let listener = &listener;
    let start = Instant::now(rt)?;
    let (seen, got) = thread::join(
        waiting,
        move || serve(rt, listener, list(case, "answers")),
        move || fetch_and_end(rt, waiting, addr, case),
    );
    let asked = told(rt.alloc(), case, start, seen?.as_slice())?;
    Ok(format!(in rt.alloc(); "{} <- {asked}", got?)?)
}
