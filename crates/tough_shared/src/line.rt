//! Lines of the history: what the proofs remember of each entry.

use std::collections::LinkedList;
use tough_vault::Receipt;

/// A line of the history: where it began, an entry as plain data, or that the store was closed. No value of it is made.
pub(crate) enum Line {
    /// How often the store had been changed when the history began.
    Begun(u64),
    Noted(i128),
    Root(u64, bool),
    Timestamp(u64, u64, bool),
    Snapshot(u64, LinkedList<(LinkedList<u8>, u64)>, bool),
    Cleared,
    Document(LinkedList<u8>),
    Broken,
    End,
}

/// A line of the history, and which pen adds the next one. No value of it is made.
pub(crate) struct Mark {
    line: Line,
    next: u64,
}

/// What is added to the history.
#[derive(Drop)]
pub(crate) enum Addition {
    /// The entry that a receipt tells.
    Told(Receipt),
    /// That a write or a removal failed.
    Broken,
    /// That the store was closed.
    End,
}
