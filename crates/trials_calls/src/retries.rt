//! When a request is made again, and after which pause.

use crate::case::{flag, list, number, text};
use anyhow::Result;
use serde_json::Value;
use std::alloc::Global;
use std::time::Duration;
use tough_net::{RequestFault, RetryCore, RetryEvent, RetrySettings};

// The settings of the case, in milliseconds; else those by default.
fn settings(case: &Value) -> RetrySettings {
    let Some(initial) = number(case, "initial_backoff") else {
        return RetrySettings::default();
    };
    RetrySettings {
        tries: number(case, "tries")
            .and_then(|n| u32::try_from(n).ok())
            .unwrap_or(0),
        initial_backoff: Duration::from_millis(initial),
        max_backoff: Duration::from_millis(number(case, "max_backoff").unwrap_or(0)),
        numerator: 2,
        denominator: 1,
    }
}

// What happened to a request.
fn event(step: &Value) -> RetryEvent {
    match text(step, "event") {
        "answer" => RetryEvent::Answer {
            status: number(step, "status")
                .and_then(|n| u16::try_from(n).ok())
                .unwrap_or(0),
            accepts_ranges: flag(step, "accepts_ranges"),
        },
        "piece" => RetryEvent::Piece {
            len: number(step, "len").unwrap_or(0),
        },
        _ => RetryEvent::Fault(RequestFault::Unconnected),
    }
}

/// What is to be done after each event of the case, behind the pause before the next request and the number of requests and bytes until then.
pub(crate) fn play(alloc: Global, case: &Value) -> Result<String> {
    let mut core = RetryCore::new(settings(case));
    let mut told = String::new(alloc);
    for step in list(case, "events") {
        let pause = core.pause().as_micros();
        let action = core.next(event(step));
        let line = format!(in alloc;
            "\n  {pause} {action:?} {} {}",
            core.requests(),
            core.received()
        )?;
        told.push_str(line.as_str())?;
    }
    Ok(told)
}
