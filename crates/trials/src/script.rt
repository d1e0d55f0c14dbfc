//! A server that answers each connection by the next part of a script.

use crate::http::read_head;
use anyhow::Result;
use serde_json::Value;
use std::alloc::Global;
use std::io::{Read, Write};
use std::net::{TcpListener, TcpStream};
use std::thread;
use std::time::{Duration, Instant};
use trials_calls::case::{flag, number, text};

/// A request.
#[derive(Drop)]
pub(crate) struct Seen {
    /// Its first line without the version, and the range that it asks for.
    pub(crate) line: String,
    pub(crate) at: Instant,
}

// The most connections of a case.
const MOST: usize = 64;

// What a request asks for.
fn asked(alloc: Global, head: &str) -> Result<String> {
    let mut told = String::new(alloc);
    for line in head.lines() {
        if let Some(first) = line.strip_suffix(" HTTP/1.1") {
            told.push_str(first)?;
        } else if let Some(range) = line.strip_prefix("range: ") {
            told.push(' ')?;
            told.push_str(range)?;
        }
    }
    Ok(told)
}

// Writes what this part of the script says, and waits for the client to close where it says so.
fn say(rt: &HostRuntime, socket: &mut TcpStream, part: &Value) -> std::io::Result<()> {
    socket.write_all(text(part, "head").as_bytes())?;
    let (again, pause) = (
        number(part, "times").unwrap_or(1),
        number(part, "pause").unwrap_or(0),
    );
    for _ in 0..again {
        socket.write_all(text(part, "body").as_bytes())?;
        if pause > 0 {
            thread::sleep(rt, Duration::from_millis(pause));
        }
    }
    if flag(part, "waits") {
        let mut buffer = [0u8; 64];
        for _ in 0..MOST {
            if socket.read(&mut buffer)? == 0 {
                break;
            }
        }
    }
    Ok(())
}

/// Answers connections until one says that it is the last, and gives the requests.
pub(crate) fn serve(
    rt: &HostRuntime,
    listener: &TcpListener,
    script: &[Value],
) -> Result<Vec<Seen>> {
    let mut seen = Vec::new(rt.alloc());
    for _ in 0..MOST {
        let (mut socket, _) = listener.accept()?;
        let at = Instant::now(rt)?;
        let head = read_head(rt.alloc(), &mut socket)?;
        if head.starts_with("END") {
            break;
        }
        let number = seen.len();
        let line = asked(rt.alloc(), head.as_str())?;
        seen.push(Seen { line, at })?;
        if let Some(part) = script.get(number) {
            // The client may have closed.
            let _ = say(rt, &mut socket, part);
        }
    }
    Ok(seen)
}
