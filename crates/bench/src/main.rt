//! Times of the library on large inputs.
#![tactic(auto)]

mod cache;
mod canonical;
mod ed25519;
mod http;
mod load;
mod matching;
mod memory;
mod search;
mod tree;
mod verify;

use anyhow::Error;
use std::env;

const USAGE: &str = "\
    usage: bench canonical [MEGABYTES] | verify [THOUSANDS] | ed25519 [THOUSANDS] | match [CHARACTERS] | \
    search [ROLES] | load [TARGETS [FOLDER]] | chain TARGETS ROLES [FOLDER] | \
    fan TARGETS ROLES [FOLDER] | http URL | cache FOLDER";

// The word at a place, if there is one.
fn word(words: &[String], place: usize) -> Option<&str> {
    words.get(place).map(String::as_str)
}

// The number that stands at a place, or 12 where none does.
fn number(words: &[String], place: usize) -> Result<u32, Error> {
    match word(words, place) {
        Some(word) => Ok(word.parse()?),
        None => Ok(12),
    }
}

// Measures trees of as many targets and roles as the words say.
fn trees(rt: &HostRuntime, is_chain: bool, words: &[String]) -> Result<(), Error> {
    let (targets, roles) = (number(words, 1)?, number(words, 2)?);
    tree::run(
        rt,
        is_chain,
        targets as usize,
        roles as usize,
        word(words, 3),
    )
}

// Measures what the first word names.
fn measure(rt: &HostRuntime, words: &[String]) -> Result<(), Error> {
    match word(words, 0).unwrap_or("") {
        "canonical" => canonical::run(rt, number(words, 1)?),
        "verify" => verify::run(rt, number(words, 1)?),
        "ed25519" => ed25519::run(rt, number(words, 1)?),
        "match" => matching::run(rt, number(words, 1)?),
        "search" => search::run(rt, number(words, 1)?),
        "load" => load::run(rt, number(words, 1)?, word(words, 2)),
        "chain" => trees(rt, true, words),
        "fan" => trees(rt, false, words),
        "cache" => cache::run(rt, word(words, 1).unwrap_or("")),
        _ => {
            println!(rt; "{USAGE}")?;
            Ok(())
        }
    }
}

fn main(rt: HostRuntime) -> Result<(), Error> {
    let mut words = Vec::new(rt.alloc());
    for word in env::args(&rt)?.skip(1) {
        words.push(word)?;
    }
    match (word(words.as_slice(), 0), word(words.as_slice(), 1)) {
        (Some("http"), Some(url)) => http::run(&rt, url),
        _ => measure(&rt, words.as_slice()),
    }
}
