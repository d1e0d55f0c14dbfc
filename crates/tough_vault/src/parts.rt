//! What the steps share: writing what was prepared, and noting it.

ghost use Rattle.std.specs.Prelude.{◌≡◌, ◌<◌, vec_len, vec_capacity, length, ◌++◌, ◌∷◌, []};
ghost use Rattle.tough_vault.specs.Journal.{note_of, notes_of};
ghost use Rattle.tough_vault.specs.Step.{IsReceipt, ChangesOnce};
ghost use Rattle.tough_vault.specs.Parts.{parts, Writes, Concludes};

use crate::entry::{Entry, Receipt, Tip};
use crate::store::{Store, StoreError};
use tough_checks::StepError;

/// What the first part of a step makes for the last: the bytes to be written, and the entry to be noted.
#[derive(Drop)]
pub(crate) struct Prepared {
    pub(crate) bytes: Vec<u8>,
    pub(crate) entry: Entry,
}

/// Writes the bytes and notes the entry.
pub(crate) fn write_noted<S: Store>(
    store: &mut S,
    journal: &mut Vec<Entry>,
    tip: &mut Tip,
    name: &str,
    bytes: &[u8],
    entry: Entry,
) -> Result<Receipt, StepError>
    ensures writes { Writes S.tells S.files S.count name.now (note_of entry) bytes.now
        (parts store.old journal.old.items tip.old)
        (parts store.new journal.new.items tip.new) result }
    ensures once { ChangesOnce S.changes store.old store.new }
{
    let alloc = *journal.allocator();
    let (Ok(receipt), Ok(accepted)) = (entry.copy(alloc), entry.copy(alloc)) else {
        return Err(StepError::Memory);
    };
    let Ok(path) = String::from_str(alloc, name) else {
        return Err(StepError::Memory);
    };
    if journal.reserve(1).is_err() {
        return Err(StepError::Memory);
    }
    match store.write(name, bytes) {
        Ok(()) => {
            tip.apply(accepted);
            Ok(note(journal, entry, receipt))
        }
        Err(StoreError::Failed) => {
            note(journal, Entry::Broken, Entry::Broken);
            Err(StepError::DatastoreCreate { path })
        }
        Err(StoreError::Memory) => Err(StepError::Memory),
    }
}

/// Writes what was prepared and notes it; where the first part refused, does nothing.
pub(crate) fn conclude<S: Store>(
    store: &mut S,
    journal: &mut Vec<Entry>,
    tip: &mut Tip,
    name: &str,
    prepared: Result<Prepared, StepError>,
) -> Result<Receipt, StepError>
    ensures concludes { Concludes S.tells S.files S.count name.now prepared
        (parts store.old journal.old.items tip.old)
        (parts store.new journal.new.items tip.new) result }
    ensures once { ChangesOnce S.changes store.old store.new }
{
    match prepared {
        Err(error) => Err(error),
        Ok(Prepared { bytes, entry }) => write_noted(store, journal, tip, name, &bytes, entry),
    }
}

/// Notes an entry, for which there is room.
pub(crate) fn note(journal: &mut Vec<Entry>, entry: Entry, copy: Entry) -> Receipt
    requires { vec_len journal.old < vec_capacity journal.old }
    ensures noted { notes_of journal.new.items ≡ notes_of journal.old.items ++ note_of entry ∷ [] }
    ensures receipt { IsReceipt (length (notes_of journal.old.items)) (note_of copy) result }
{
    let number = journal.len() as u64;
    journal.push_reserved(entry);
    Receipt::new(number, copy)
}
