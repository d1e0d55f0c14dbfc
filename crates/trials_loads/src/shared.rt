//! Steps and loads on one store that threads share.

ghost use Rattle.std.specs.Prelude.{◌≡◌};
ghost use Rattle.tough_shared.specs.Opened.{book_of};

use crate::held::{Held, LOOKS, Signals};
use crate::journal::{is_entry, journal, rises};
use anyhow::{Result, anyhow};
use bytes::Bytes;
use jiff::Timestamp as Instant;
use serde_json::Value;
use std::alloc::{AllocGlobal, Global};
use std::marker::Brand;
use std::random::RandomSource;
use std::rt::Clock;
use std::sync::Wait;
use std::thread::{self, Threads};
use tough_client::{FixedClock, RepositoryLoader, drive};
use tough_net::{MemoryTransport, Transport};
use tough_roles::{Root, Signed, Snapshot, Timestamp};
use tough_schema::DemoVerify;
use tough_shared::{ClosedStore, Naming, Opened, Receipt, SharedKeeper, SharedStore};
use tough_vault::{ExpirationEnforcement, MemoryStore, StepError};
use trials_calls::case::{list, number, text};
use url::Url;

// A file of the case.
fn file<'a>(case: &'a Value, name: &str) -> &'a [u8] {
    match case.get("files") {
        Some(files) => text(files, name).as_bytes(),
        None => &[],
    }
}

// The root that the case trusts.
fn root(alloc: Global, case: &Value) -> Result<Signed<Root>> {
    Ok(Signed::read(alloc, text(case, "trusted").as_bytes())?)
}

// Takes a step of the case on the store.
fn take<R: Wait, J: Naming>(
    rt: &R,
    alloc: Global,
    store: &SharedStore<MemoryStore, J>,
    case: &Value,
    step: &Value,
) -> Result<std::result::Result<Receipt<J>, StepError>> {
    let now = text(case, "now").parse::<Instant>()?;
    let root = root(alloc, case)?;
    let safe = ExpirationEnforcement::Safe;
    let bytes = file(case, text(step, "file"));
    Ok(match text(step, "op") {
        "note_time" => store.note_time(rt, now),
        "put_root" => store.put_root(rt, &root, &DemoVerify),
        "clear_rotated" => store.clear_rotated(rt),
        "advance_timestamp" => {
            let new: Signed<Timestamp> = Signed::read(alloc, bytes)?;
            store.advance_timestamp(rt, &root.signed, &new, now, safe, &DemoVerify)
        }
        _ => {
            let new: Signed<Snapshot> = Signed::read(alloc, bytes)?;
            let listed = number(step, "listed").unwrap_or(0);
            store.advance_snapshot(rt, &root.signed, listed, &new, now, safe, &DemoVerify)
        }
    })
}

// Takes all steps of the case on the store, and returns the receipts and the texts of the refusals.
fn take_all<R: Wait, J: Naming>(
    rt: &R,
    alloc: Global,
    store: &SharedStore<MemoryStore, J>,
    case: &Value,
    steps: &[Value],
) -> Result<(Vec<Receipt<J>>, String)> {
    let (mut receipts, mut refused) = (Vec::new(alloc), String::new(alloc));
    for step in steps {
        match take(rt, alloc, store, case, step)? {
            Ok(receipt) => receipts.push(receipt)?,
            Err(error) => refused.push_str(format!(in alloc; " {error}")?.as_str())?,
        }
    }
    Ok((receipts, refused))
}

// Marks the receipts' numbers, and tells whether each was unmarked and has its entry at its number.
fn mark<J: Naming>(
    closed: &ClosedStore<MemoryStore, J>,
    receipts: &[Receipt<J>],
    seen: &mut Vec<bool>,
) -> bool {
    let mut stands = true;
    for receipt in receipts {
        let place = usize::try_from(receipt.number()).unwrap_or(usize::MAX);
        match seen.get_mut(place) {
            Some(mark) if !*mark => *mark = true,
            _ => stands = false,
        }
        stands = match closed.entry(receipt) {
            Some(entry) => stands && is_entry(entry, receipt.entry()),
            None => false,
        };
    }
    stands
}

// How many entries and receipts there are, and whether each number is that of one receipt, whose entry stands there.
fn stand<J: Naming>(
    alloc: Global,
    closed: &ClosedStore<MemoryStore, J>,
    first: &[Receipt<J>],
    second: &[Receipt<J>],
) -> Result<String> {
    let count = closed.journal().len();
    let total = first.len().saturating_add(second.len());
    let mut seen = Vec::from_elem(alloc, false, count)?;
    let (one, other) = (
        mark(closed, first, &mut seen),
        mark(closed, second, &mut seen),
    );
    let stands = one && other && total == count;
    Ok(format!(in alloc; "{count} entries, {total} receipts, each at its number: {stands}")?)
}

// What the steps of the case come to where two clones take them by turns.
fn by_turns<R: Wait, J: Naming>(
    rt: &R,
    alloc: Global,
    one: &SharedStore<MemoryStore, J>,
    case: &Value,
) -> Result<String> {
    let other = one.try_clone()?;
    let mut told = String::new(alloc);
    for step in list(case, "steps") {
        let store = if number(step, "clone") == Some(1) {
            &other
        } else {
            one
        };
        match take(rt, alloc, store, case, step)? {
            Ok(receipt) => {
                told.push_str(format!(in alloc; "\n  {}: ok", receipt.number())?.as_str())?
            }
            Err(error) => told.push_str(format!(in alloc; "\n  {error}")?.as_str())?,
        }
    }
    Ok(told)
}

// A transport of the files in this member of the case, below `http://h/`.
fn served(alloc: Global, case: &Value, member: &str) -> Result<MemoryTransport> {
    let mut transport = MemoryTransport::in_pieces(alloc, 64);
    if let Some(files) = case.get(member).and_then(Value::as_object) {
        for (name, value) in files {
            let url = format!(in alloc; "http://h/{name}")?;
            let bytes = value.as_str().unwrap_or("").as_bytes();
            transport.insert(url.as_str(), Bytes::copy_from_slice(alloc, bytes)?)?;
        }
    }
    Ok(transport)
}

// Loads the repository of the case over the transport, and returns how many receipts it has.
fn load<R, T, J>(
    rt: &R,
    case: &Value,
    transport: T,
    store: SharedStore<MemoryStore, J>,
) -> Result<usize>
where
    R: Wait + RandomSource + AllocGlobal + Clone + Drop,
    T: Transport,
    J: Naming,
{
    let alloc = rt.alloc();
    let base = Url::parse(alloc, "http://h/")?;
    let targets = Url::parse(alloc, "http://h/")?;
    let keeper = SharedKeeper::new(rt.clone()?, store);
    let load = RepositoryLoader::new(alloc, text(case, "trusted").as_bytes(), base, targets)
        .transport(transport)
        .verifier(DemoVerify)
        .clock(FixedClock(text(case, "now").parse::<Instant>()?))
        .keeper(keeper)
        .load()?;
    let repository = drive(rt, load)??;
    Ok(repository.receipts().len())
}

// Two loads in two threads, of which the first one's fetches wait until the second is through.
fn side_by_side<R, J>(
    rt: &R,
    one: SharedStore<MemoryStore, J>,
    two: SharedStore<MemoryStore, J>,
    case: &Value,
) -> Result<usize>
where
    R: Threads + Wait + Clock + RandomSource + AllocGlobal + Sync + Send + Clone + Drop,
    J: Naming + Send + Sync,
{
    let signals = Signals::new();
    let (slow, fast) = (
        served(rt.alloc(), case, "files")?,
        served(rt.alloc(), case, "files")?,
    );
    let within = Held {
        alloc: rt.alloc(),
        rt,
        signals: &signals,
        within: slow,
    };
    let (first, second) = thread::join(
        rt,
        || load(rt, case, within, one),
        || {
            if !signals.wait_for_start(rt, LOOKS) {
                return Err(anyhow!("the first load fetches nothing"));
            }
            let loaded = load(rt, case, fast, two);
            signals.end();
            loaded
        },
    );
    Ok(first?.saturating_add(second?))
}

// Loads the repository of this member of the case as often as the case says, and returns how many loads succeeded.
fn load_often<R, J>(
    rt: &R,
    store: SharedStore<MemoryStore, J>,
    case: &Value,
    member: &str,
) -> Result<usize>
where
    R: Wait + RandomSource + AllocGlobal + Clone + Drop,
    J: Naming,
{
    let mut count = 0usize;
    for _ in 0..number(case, "times").unwrap_or(1) {
        let transport = served(rt.alloc(), case, member)?;
        if load(rt, case, transport, store.try_clone()?).is_ok() {
            count = count.saturating_add(1);
        }
    }
    Ok(count)
}

// Two threads that load, one of them the older repository.
fn load_twice<R, J>(rt: &R, store: &SharedStore<MemoryStore, J>, case: &Value) -> Result<usize>
where
    R: Threads + Wait + RandomSource + AllocGlobal + Sync + Send + Clone + Drop,
    J: Naming + Send + Sync,
{
    let (one, two) = (store.try_clone()?, store.try_clone()?);
    let (newer, older) = thread::join(
        rt,
        move || load_often(rt, one, case, "files"),
        move || load_often(rt, two, case, "older"),
    );
    Ok(newer?.saturating_add(older?))
}

// Four such threads.
fn load_four<R, J>(
    rt: &R,
    one: &SharedStore<MemoryStore, J>,
    two: &SharedStore<MemoryStore, J>,
    case: &Value,
) -> Result<usize>
where
    R: Threads + Wait + RandomSource + AllocGlobal + Sync + Send + Clone + Drop,
    J: Naming + Send + Sync,
{
    let (some, others) = thread::join(
        rt,
        move || load_twice(rt, one, case),
        move || load_twice(rt, two, case),
    );
    Ok(some?.saturating_add(others?))
}

// What the loads of four threads on clones of the store come to, of which two load an older repository, and whether nothing went back.
fn in_four_threads<R, J>(
    rt: &R,
    one: SharedStore<MemoryStore, J>,
    two: SharedStore<MemoryStore, J>,
    three: SharedStore<MemoryStore, J>,
    case: &Value,
) -> Result<String>
where
    R: Threads + Wait + RandomSource + AllocGlobal + Sync + Send + Clone + Drop,
    J: Naming + Send + Sync,
{
    let alloc = rt.alloc();
    let done = load_four(rt, &one, &two, case);
    drop(one);
    drop(two);
    let done = done? > 0;
    match three.close() {
        Ok(closed) => {
            let rises = rises(closed.journal());
            Ok(format!(in alloc; "some loaded: {done}, nothing goes back: {rises}")?)
        }
        Err(_) => Ok(String::from_str(alloc, "a clone lives")?),
    }
}

// What the case comes to on a store whose history `J` names.
fn play_named<R, J>(rt: &R, opened: Opened, case: &Value) -> Result<String>
where
    R: Threads + Wait + Clock + RandomSource + AllocGlobal + Sync + Send + Clone + Drop,
    J: Naming + Send + Sync,
    requires { book_of opened ≡ J.book }
{
    let alloc = rt.alloc();
    let one = SharedStore::<MemoryStore, J>::new(alloc, opened, MemoryStore::new(alloc))?;
    let (two, three) = (one.try_clone()?, one.try_clone()?);
    let told = match text(case, "manner") {
        "two threads" => return in_two_threads(rt, one, two, three, case),
        "four threads" => return in_four_threads(rt, one, two, three, case),
        "two loads" => side_by_side(rt, one, two, case)?,
        _ => return closed_after(rt, by_turns(rt, alloc, &one, case)?, one, two, three),
    };
    match three.close() {
        Ok(closed) => Ok(format!(in alloc; "{} entries, {told} receipts", closed.journal().len())?),
        Err(_) => Ok(String::from_str(alloc, "a clone lives")?),
    }
}

// The steps of the case in each of two threads; each thread has a clone, and each receipt's entry is looked up after the store is closed.
fn in_two_threads<R, J>(
    rt: &R,
    one: SharedStore<MemoryStore, J>,
    two: SharedStore<MemoryStore, J>,
    three: SharedStore<MemoryStore, J>,
    case: &Value,
) -> Result<String>
where
    R: Threads + Wait + AllocGlobal + Sync + Send + Clone + Drop,
    J: Naming + Send + Sync,
{
    let alloc = rt.alloc();
    let steps = list(case, "steps");
    let (first, second) = thread::join(
        rt,
        move || take_all(rt, alloc, &one, case, steps),
        move || take_all(rt, alloc, &two, case, steps),
    );
    let ((first, refused), (second, also)) = (first?, second?);
    match three.close() {
        Ok(closed) => {
            let told = stand(alloc, &closed, first.as_slice(), second.as_slice())?;
            Ok(format!(in alloc; "{told}{refused}{also}")?)
        }
        Err(_) => Ok(String::from_str(alloc, "a clone lives")?),
    }
}

// What was told, whether the store closes while clones live, whether it then goes on, and the journal once it is closed.
fn closed_after<R: Wait + AllocGlobal, J: Naming>(
    rt: &R,
    told: String,
    one: SharedStore<MemoryStore, J>,
    two: SharedStore<MemoryStore, J>,
    three: SharedStore<MemoryStore, J>,
) -> Result<String> {
    let alloc = rt.alloc();
    let one = match one.close() {
        Ok(_) => return Ok(String::from_str(alloc, "closed beside clones")?),
        Err(store) => store,
    };
    let goes_on = one.clear_rotated(rt).is_ok();
    drop(two);
    drop(three);
    match one.close() {
        Ok(closed) => {
            let journal = journal(alloc, closed.journal())?;
            Ok(format!(in alloc; "{told}\n  goes on: {goes_on}\n  journal: {journal}")?)
        }
        Err(_) => Ok(String::from_str(alloc, "a clone lives")?),
    }
}

/// What the steps or the loads of a case come to on a store that clones share.
pub fn play<R>(rt: &R, case: &Value) -> Result<String>
where
    R: Threads + Wait + Clock + RandomSource + AllocGlobal + Sync + Send + Clone + Drop,
{
    play_named::<R, Brand>(rt, Opened::new(), case)
}
