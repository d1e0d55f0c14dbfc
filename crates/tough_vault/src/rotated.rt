//! Forgetting what rotated keys had signed.

ghost use Rattle.std.specs.Prelude.{◌≡◌, ◌<◌, ◌+◌, ◌%◌, ◌^◌, vec_len, vec_capacity, IfOk, OnOk, string_bytes};
ghost use Rattle.tough_vault.specs.Journal.{note_of, entry_of};
ghost use Rattle.tough_vault.specs.Step.{RemovesBoth, EndsRemoval, Clears, TriesTwo, ChangesOnce, TellsRemoval};
ghost use Rattle.tough_vault.specs.Parts.{parts};
ghost use Rattle.tough_vault.specs.Rotated.{IsOfBoth, IsClearing, note_after, WritesAnew, ConcludesRoot};

use crate::entry::{Entry, Receipt, Tip};
use crate::parts::{Prepared, conclude, note};
use crate::prepare::{ROOT, SNAPSHOT, TIMESTAMP};
use crate::store::{Replaced, Store, StoreError};
use std::alloc::{AllocError, Global};
use tough_checks::StepError;

// Tries both removals. The outcomes are those of the timestamp's and of the snapshot's.
fn remove_both<S: Store>(store: &mut S) -> (Result<(), StoreError>, Result<(), StoreError>)
    ensures removes { RemovesBoth S.tells S.files S.count store.old store.new result.0 result.1 }
    ensures counted { S.removals store.new ≡ (S.removals store.old + 2) % 2 ^ 64 }
{
    let timestamp = store.remove(TIMESTAMP);
    let snapshot = store.remove(SNAPSHOT);
    (timestamp, snapshot)
}

// The names of both files, for the faults of their removals.
#[derive(Drop)]
struct Names {
    timestamp: String,
    snapshot: String,
}

fn both_names(alloc: Global) -> Result<Names, AllocError>
    ensures { IfOk result IsOfBoth }
{
    let timestamp = String::from_str(alloc, TIMESTAMP)?;
    let snapshot = String::from_str(alloc, SNAPSHOT)?;
    Ok(Names {
        timestamp,
        snapshot,
    })
}

// The entry of a step that removed both files: that of a root, where one of this version was stored before.
fn entry_after(root: Option<u64>) -> Entry
    ensures { note_of result ≡ note_after root }
{
    match root {
        Some(version) => Entry::Root(version, true),
        None => Entry::Cleared,
    }
}

// Notes how both removals ended, for whose entry there is room. The fault is that of the first that failed.
fn end(
    journal: &mut Vec<Entry>,
    tip: &mut Tip,
    root: Option<u64>,
    names: Names,
    timestamp: Result<(), StoreError>,
    snapshot: Result<(), StoreError>,
) -> Result<Receipt, StepError>
    requires room { vec_len journal.old < vec_capacity journal.old }
    requires names { IsOfBoth names }
    ensures { EndsRemoval (note_after root) timestamp snapshot
        (parts (tt {0}) journal.old.items tip.old)
        (parts (tt {0}) journal.new.items tip.new) result }
{
    let Names {
        timestamp: first,
        snapshot: second,
    } = names;
    if let Err(fault) = timestamp {
        note(journal, Entry::Broken, Entry::Broken);
        return Err(removal_error(fault, first));
    }
    if let Err(fault) = snapshot {
        note(journal, Entry::Broken, Entry::Broken);
        return Err(removal_error(fault, second));
    }
    tip.apply(entry_after(root));
    Ok(note(journal, entry_after(root), entry_after(root)))
}

/// Both removals are tried; the fault is that of the first that failed.
pub(crate) fn clear<S: Store>(
    store: &mut S,
    journal: &mut Vec<Entry>,
    tip: &mut Tip,
) -> Result<Receipt, StepError>
    ensures clears { Clears S.tells S.files S.count (parts store.old journal.old.items tip.old)
        (parts store.new journal.new.items tip.new) result }
    ensures both { TriesTwo S.removals (parts store.old journal.old.items tip.old)
        (parts store.new journal.new.items tip.new) }
{
    let alloc = *journal.allocator();
    let Ok(names) = both_names(alloc) else {
        return Err(StepError::Memory);
    };
    if journal.reserve(1).is_err() {
        return Err(StepError::Memory);
    }
    let (timestamp, snapshot) = remove_both(store);
    end(journal, tip, None, names, timestamp, snapshot)
}

// Writes a root, after one whose keys it rotated, and removes both files: one change of the store.
fn replace<S: Store>(
    store: &mut S,
    journal: &mut Vec<Entry>,
    tip: &mut Tip,
    version: u64,
    bytes: &[u8],
) -> Result<Receipt, StepError>
    ensures anew { WritesAnew S.tells S.files S.count version bytes.now
        (parts store.old journal.old.items tip.old)
        (parts store.new journal.new.items tip.new) result }
    ensures once { ChangesOnce S.changes store.old store.new }
    ensures both { OnOk result
        (S.removals store.new ≡ (S.removals store.old + 2) % 2 ^ 64) }
{
    let alloc = *journal.allocator();
    let (Ok(names), Ok(path)) = (both_names(alloc), String::from_str(alloc, ROOT)) else {
        return Err(StepError::Memory);
    };
    if journal.reserve(1).is_err() {
        return Err(StepError::Memory);
    }
    match store.replace(ROOT, bytes, TIMESTAMP, SNAPSHOT) {
        Replaced::Written(timestamp, snapshot) => {
            end(journal, tip, Some(version), names, timestamp, snapshot)
        }
        Replaced::Unwritten(StoreError::Failed) => {
            note(journal, Entry::Broken, Entry::Broken);
            Err(StepError::DatastoreCreate { path })
        }
        Replaced::Unwritten(StoreError::Memory) => Err(StepError::Memory),
    }
}

/// Writes a root that was prepared and notes it; where it rotated keys, timestamp and snapshot are removed in the same change. Where the
/// first part refused, nothing is done.
pub(crate) fn conclude_root<S: Store>(
    store: &mut S,
    journal: &mut Vec<Entry>,
    tip: &mut Tip,
    prepared: Result<Prepared, StepError>,
) -> Result<Receipt, StepError>
    ensures concludes { ConcludesRoot S.tells S.files S.count prepared
        (parts store.old journal.old.items tip.old)
        (parts store.new journal.new.items tip.new) result }
    ensures once { ChangesOnce S.changes store.old store.new }
    ensures both { IfOk result (λ r. IsClearing (note_of (entry_of r))
        → S.removals store.new ≡ (S.removals store.old + 2) % 2 ^ 64) }
{
    let Prepared { bytes, entry } = match prepared {
        Ok(prepared) => prepared,
        Err(error) => return Err(error),
    };
    match entry {
        Entry::Root(version, true) => replace(store, journal, tip, version, &bytes),
        entry => conclude(store, journal, tip, ROOT, Ok(Prepared { bytes, entry })),
    }
}

// The fault of a file's removal, as the step tells it.
fn removal_error(fault: StoreError, path: String) -> StepError
    ensures { TellsRemoval (string_bytes path) fault result }
{
    match fault {
        StoreError::Failed => StepError::DatastoreRemove { path },
        StoreError::Memory => StepError::Memory,
    }
}
