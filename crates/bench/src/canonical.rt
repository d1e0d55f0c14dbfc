//! Reading a JSON value, and its canonical form.

use crate::memory::peak_kilobytes;
use anyhow::Error;
use serde_json::Value;
use std::alloc::{AllocError, Global};
use std::rt::Runtime;
use std::time::{Duration, Instant};

/// Prints how fast documents of that many megabytes are read and written canonically: one whose names are
/// ASCII, and one whose names aren't.
pub fn run(rt: &impl Runtime<A = Global>, megabytes: u32) -> Result<(), Error> {
    let bytes = megabytes as usize * 1_000_000;
    measure(rt, "file", bytes)?;
    measure(rt, "données", bytes)?;
    println!(rt; "peak memory: {} kB", peak_kilobytes(rt)?)?;
    Ok(())
}

// Prints the figures of a document of that many bytes, whose names have this stem.
fn measure(rt: &impl Runtime<A = Global>, stem: &str, bytes: usize) -> Result<(), Error> {
    let text = document(rt.alloc(), stem, bytes)?;
    let began = Instant::now(rt)?;
    let value = Value::from_str(rt.alloc(), text.as_str())?;
    let read = began.elapsed(rt)?;
    let began = Instant::now(rt)?;
    let canonical = tough_json::canonical(rt.alloc(), &value)?;
    let written = began.elapsed(rt)?;
    println!(rt; "names of {stem}: {} bytes", text.len())?;
    println!(rt; "  read: {} MB/s", rate(text.len(), read))?;
    println!(rt;
        "  canonical: {} bytes, {} MB/s",
        canonical.len(),
        rate(canonical.len(), written)
    )?;
    Ok(())
}

// Bytes in a microsecond, which are megabytes in a second.
fn rate(bytes: usize, time: Duration) -> u128 {
    bytes as u128 / time.as_micros().max(1)
}

// An object of that many bytes or a little more, with a target in each member.
fn document(alloc: Global, stem: &str, bytes: usize) -> Result<String, AllocError> {
    let mut text = String::new(alloc);
    text.push_str("{")?;
    for number in 0..u32::MAX {
        if text.len() >= bytes {
            break;
        }
        if number > 0 {
            text.push_str(",")?;
        }
        push_member(alloc, &mut text, stem, number)?;
    }
    text.push_str("}")?;
    Ok(text)
}

fn push_member(
    alloc: Global,
    text: &mut String,
    stem: &str,
    number: u32,
) -> Result<(), AllocError> {
    let member = format!(in alloc;
        "\"path/to/{stem}-{number:08}.tar\":{{\"hashes\":{{\"sha256\":\"{number:064x}\"}},\"length\":{number}}}"
    )?;
    text.push_str(member.as_str())
}
