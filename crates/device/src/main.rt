//! The program `device`: makes calls on the system's files, a store over a folder, files by their URLs, kept or not, or the clock, by words, and
//! prints what each answered, a line each. A word `,` stands between two calls. `tools/devices` looks at what they did.
#![tactic(auto)]

mod fetch;
mod files;
mod shelf;

use anyhow::Result;
use std::env;
use tough_vault::{Clock, SystemClock};

// The words behind the program's name.
fn words(rt: &HostRuntime) -> Result<Vec<String>> {
    let mut words = Vec::new(rt.alloc());
    for word in env::args(rt)?.skip(1) {
        words.push(word)?;
    }
    Ok(words)
}

// Tells the moment that the system's clock shows.
fn tell_moment(rt: &HostRuntime) -> Result<()> {
    let mut clock = SystemClock::new(rt.clone()?);
    let moment = clock.now();
    println!(rt; "{moment}")?;
    Ok(())
}

fn main(rt: HostRuntime) -> Result<()> {
    let words = words(&rt)?;
    let Some((first, rest)) = words.as_slice().split_first() else {
        return Ok(());
    };
    match first.as_str() {
        "files" => files::tell(&rt, rest),
        "store" => shelf::tell(&rt, rest),
        "fetch" => fetch::tell(&rt, rest),
        "cache" => fetch::tell_kept(&rt, rest),
        _ => tell_moment(&rt),
    }
}
