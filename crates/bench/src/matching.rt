//! Patterns that take the most steps.

use anyhow::Error;
use std::alloc::{AllocError, Global};
use std::time::Instant;
use tough::TargetName;
use tough::schema::PathPattern;

/// Prints how long it takes to match a pattern of stars that fits nothing, of so many characters, with a name that is 25
/// times as long, and the same at a tenth of the lengths.
pub fn run(rt: &HostRuntime, length: u32) -> Result<(), Error> {
    measure(rt, length as usize / 10)?;
    measure(rt, length as usize)
}

fn measure(rt: &HostRuntime, length: usize) -> Result<(), Error> {
    let alloc = rt.alloc();
    let pattern = PathPattern::new(alloc, stars(alloc, length)?)?;
    let name = TargetName::new(alloc, repeat(alloc, "a", length.saturating_mul(25))?)?;
    let began = Instant::now(rt)?;
    let fits = pattern.matches(&name);
    let time = began.elapsed(rt)?;
    println!(rt;
        "a pattern of {length} characters on a name of {}: {fits}, {} us",
        name.resolved().len(),
        time.as_micros()
    )?;
    Ok(())
}

// `*a*a*a..*b`, of that many characters.
fn stars(alloc: Global, length: usize) -> Result<String, AllocError> {
    let mut text = repeat(alloc, "*a", (length / 2).saturating_sub(1))?;
    text.push_str("*b")?;
    Ok(text)
}

fn repeat(alloc: Global, part: &str, times: usize) -> Result<String, AllocError> {
    let mut text = String::new(alloc);
    for _ in 0..times {
        text.push_str(part)?;
    }
    Ok(text)
}
