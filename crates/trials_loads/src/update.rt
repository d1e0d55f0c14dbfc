//! Updates as a machine: what each asks, and what an answer makes of it.

use crate::load::limits;
use crate::outcome::tell;
use anyhow::Result;
use jiff::Timestamp as Instant;
use serde_json::Value;
use std::alloc::{AllocError, Global};
use tough_client::{Act, Answer, Ask, Core, Counts, Error, Fault, Limits, StepError};
use tough_net::{TransportError, TransportErrorKind};
use tough_schema::{DemoVerify, Signed};
use trials_calls::case::{list, text};
use trials_calls::vault::enforcement;

// A step on the store.
fn act(alloc: Global, act: &Act<'_>) -> Result<String, AllocError> {
    match act {
        Act::NoteTime(now) => format!(in alloc; "NoteTime {now}"),
        Act::PutRoot(root) => format!(in alloc; "PutRoot {}", root.signed.version),
        Act::ClearRotated => format!(in alloc; "ClearRotated"),
        Act::AdvanceTimestamp { new, .. } => {
            format!(in alloc; "AdvanceTimestamp {}", new.signed.version)
        }
        Act::AdvanceSnapshot { new, listed, .. } => {
            format!(in alloc; "AdvanceSnapshot {} {listed}", new.signed.version)
        }
        Act::PutDelegated { name, targets } => {
            format!(in alloc;
                "PutDelegated {} {}",
                name.as_str(),
                targets.document().signed.version
            )
        }
        Act::PutTargets(targets) => format!(in alloc;
            "PutTargets {}",
            targets.document().signed.version
        ),
    }
}

// What the update asks.
fn asked(alloc: Global, core: &Core) -> Result<String, AllocError> {
    match core.ask() {
        Ask::Moment => format!(in alloc; "Moment"),
        Ask::Fetch(request) => {
            format!(in alloc;
                "Fetch {} {} {}",
                request.name, request.max_size, request.specifier
            )
        }
        Ask::Stored(first) => format!(in alloc; "Stored {first}"),
        Ask::Step(step) => act(alloc, &step),
        Ask::Ready => format!(in alloc; "Ready"),
    }
}

// How the update ended, if it did.
fn ended(alloc: Global, core: Core) -> Result<String, AllocError> {
    let outcome = match core.into_outcome() {
        None => return format!(in alloc; "not ended"),
        Some(Ok(loaded)) => Ok(loaded.into_parts()),
        Some(Err(error)) => Err(Error::from(error)),
    };
    let told = tell(alloc, &outcome);
    drop(outcome);
    told
}

// A fetch that failed.
fn fault(alloc: Global, kind: TransportErrorKind) -> Result<Fault> {
    Ok(Fault::Transport(TransportError::new(alloc, kind, "http://h/a")?))
}

// An answer of the case: its kind, and its text.
fn answer(alloc: Global, given: &Value) -> Result<Answer> {
    let said = text(given, "text");
    Ok(match text(given, "kind") {
        "moment" => Answer::Moment(said.parse::<Instant>()?),
        "stored" if said.is_empty() => Answer::Stored(Ok(None)),
        "stored" => Answer::Stored(Ok(Some(Signed::read(alloc, said.as_bytes())?))),
        "bytes" => Answer::Bytes(Vec::from_slice(alloc, said.as_bytes())?),
        "missing" => Answer::NotStarted(fault(alloc, TransportErrorKind::FileNotFound)?),
        "cut" => Answer::Cut(fault(alloc, TransportErrorKind::Other)?),
        "refused" => {
            let path = String::from_str(alloc, said)?;
            Answer::Step(Err(StepError::DatastoreOpen { path }))
        }
        _ => Answer::Step(Ok(())),
    })
}

// Gives the update an answer, and tells whether its text fitted and what is asked then; where it is only to be seen whether a text fits,
// nothing is answered.
fn give(alloc: Global, core: &mut Core, given: &Value) -> Result<String> {
    let kind = text(given, "kind");
    let fits = core.fits(text(given, "text").as_bytes());
    if kind == "fits" {
        return Ok(format!(in alloc; "\n  fits {fits}")?);
    }
    core.answer(alloc, &DemoVerify, answer(alloc, given)?);
    Ok(format!(in alloc; "\n  {kind}: {}", asked(alloc, core)?)?)
}

// An update by the root of the case.
fn begin(alloc: Global, case: &Value) -> Result<Core, AllocError> {
    let trusted = Vec::from_slice(alloc, text(case, "trusted").as_bytes())?;
    Ok(Core::new(trusted, limits(case), enforcement(case)))
}

// Gives the update the answers of the case, and tells what it asks at first and after each.
fn over_answers(alloc: Global, core: &mut Core, case: &Value) -> Result<String> {
    let mut told = asked(alloc, core)?;
    for given in list(case, "answers") {
        told.push_str(give(alloc, core, given)?.as_str())?;
    }
    Ok(told)
}

// What was told, and below it how the update ended.
fn with_end(alloc: Global, told: Result<String>, core: Core) -> Result<String> {
    let end = ended(alloc, core);
    Ok(format!(in alloc; "{}\n  {}", told?, end?)?)
}

/// Plays an update: tells what it asks at first and after each answer of the case, and how it ended.
pub fn play(alloc: Global, case: &Value) -> Result<String> {
    let mut core = begin(alloc, case)?;
    let told = over_answers(alloc, &mut core, case);
    with_end(alloc, told, core)
}

// What the files of the case, a clock and a store that takes all answer, where something is asked.
fn served(alloc: Global, core: &Core, case: &Value) -> Result<Option<Answer>> {
    Ok(match core.ask() {
        Ask::Moment => Some(Answer::Moment(text(case, "now").parse::<Instant>()?)),
        Ask::Fetch(request) => {
            let file = case
                .get("files")
                .map_or("", |files| text(files, request.name.as_str()));
            Some(if file.is_empty() {
                Answer::NotStarted(fault(alloc, TransportErrorKind::FileNotFound)?)
            } else if core.fits(file.as_bytes()) {
                Answer::Bytes(Vec::from_slice(alloc, file.as_bytes())?)
            } else {
                Answer::Cut(fault(alloc, TransportErrorKind::Other)?)
            })
        }
        Ask::Stored(_) => Some(Answer::Stored(Ok(None))),
        Ask::Step(_) => Some(Answer::Step(Ok(()))),
        Ask::Ready => None,
    })
}

// Answers the update by the case's files, a thousand times at most, and tells what it asks in turn.
fn over_files(alloc: Global, core: &mut Core, case: &Value) -> Result<String> {
    let mut told = String::new(alloc);
    for _ in 0..1000 {
        told.push_str(format!(in alloc; "\n  {}", asked(alloc, core)?)?.as_str())?;
        let Some(answer) = served(alloc, core, case)? else {
            break;
        };
        core.answer(alloc, &DemoVerify, answer);
    }
    Ok(told)
}

/// Plays an update over the case's files: tells what it asks in turn, and how it ended.
pub fn serve(alloc: Global, case: &Value) -> Result<String> {
    let mut core = begin(alloc, case)?;
    let told = over_files(alloc, &mut core, case);
    with_end(alloc, told, core)
}

// What an update has counted.
pub fn counted(alloc: Global, counts: Counts) -> Result<String, AllocError> {
    format!(in alloc;
        "roots {}, delegated {}, kept {}, entries {}",
        counts.roots, counts.delegated, counts.kept, counts.entries
    )
}

/// What an update over the case's files has counted at its end.
pub fn counts(alloc: Global, case: &Value) -> Result<String> {
    let mut core = begin(alloc, case)?;
    let told = over_files(alloc, &mut core, case);
    let counts = core.counts();
    drop(core);
    told?;
    Ok(counted(alloc, counts)?)
}

/// The limits that a load has where none are set.
pub fn limits_by_default(alloc: Global) -> Result<String> {
    let limits = Limits::default();
    Ok(format!(in alloc;
        "{} {} {} {} {}",
        limits.max_root_size,
        limits.max_targets_size,
        limits.max_timestamp_size,
        limits.max_snapshot_size,
        limits.max_root_updates
    )?)
}
