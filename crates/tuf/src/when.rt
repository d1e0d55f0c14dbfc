//! Instants, as words name them.

use crate::fault::{Fault, about, misspelt};
use crate::host::Host;
use std::alloc::Global;
use tough::jiff::Timestamp;

const WANTED: &str = "an instant, as 2030-01-31T12:00:00Z, or a time from now, as 'in 30 days'";

/// A day, in seconds.
pub(crate) const DAY: i64 = 86_400;

// The seconds that a unit of time has.
fn seconds_of(unit: &str) -> Option<i64> {
    match unit {
        "second" | "seconds" => Some(1),
        "minute" | "minutes" => Some(60),
        "hour" | "hours" => Some(3_600),
        "day" | "days" => Some(DAY),
        "week" | "weeks" => Some(604_800),
        "year" | "years" => Some(31_536_000),
        _ => None,
    }
}

// The seconds of a number and a unit.
fn span(words: &str) -> Option<i64> {
    let (number, unit) = words.split_once(' ')?;
    let number = match number.parse::<u32>() {
        Ok(number) => i64::from(number),
        Err(_) => return None,
    };
    Some(number.saturating_mul(seconds_of(unit)?))
}

// The instant of this second.
fn at(alloc: Global, second: i64) -> Result<Timestamp, Fault> {
    match Timestamp::from_second(second) {
        Ok(instant) => Ok(instant),
        Err(error) => Err(about(alloc, "time", &error)),
    }
}

/// The instant now, in whole seconds.
pub(crate) fn now<R: Host>(rt: &R) -> Result<Timestamp, Fault> {
    match Timestamp::now(rt) {
        Ok(instant) => at(rt.alloc(), instant.as_second()),
        Err(error) => Err(about(rt.alloc(), "clock", &error)),
    }
}

/// The instant that is so many seconds from now.
pub(crate) fn from_now<R: Host>(rt: &R, seconds: i64) -> Result<Timestamp, Fault> {
    at(rt.alloc(), now(rt)?.as_second().saturating_add(seconds))
}

/// The instant that the words name, in whole seconds.
pub(crate) fn instant<R: Host>(rt: &R, words: &str) -> Result<Timestamp, Fault> {
    let alloc = rt.alloc();
    if let Some(rest) = words.strip_prefix("in ") {
        return match span(rest) {
            Some(seconds) => from_now(rt, seconds),
            None => Err(misspelt(alloc, words, WANTED)),
        };
    }
    match words.parse::<Timestamp>() {
        Ok(instant) => at(alloc, instant.as_second()),
        Err(_) => Err(misspelt(alloc, words, WANTED)),
    }
}
