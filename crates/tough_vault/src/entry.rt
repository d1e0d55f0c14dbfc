//! What a vault notes of its steps.

ghost use Rattle.std.specs.Prelude.{◌≡◌, IfOk};
ghost use Rattle.tough_vault.specs.Journal.{no_tip, tip_of, applied, note_of, number_of, entry_of};

use jiff::Timestamp;
use std::alloc::{AllocError, Global};
use tough_checks::{SnapshotVersions, TimestampVersions};

/// One step that was taken.
#[derive(Debug, Drop)]
pub enum Entry {
    /// This time was noted.
    Noted(Timestamp),
    /// A root of this version was stored; and whether timestamp and snapshot were removed, since their keys were rotated.
    Root(u64, bool),
    /// A timestamp was accepted; and whether a stored one was verified, against which it was compared.
    Timestamp(TimestampVersions, bool),
    /// A snapshot was accepted; and whether a stored one was verified, against which it was compared.
    Snapshot(SnapshotVersions, bool),
    /// Timestamp and snapshot were removed, since their keys were rotated.
    Cleared,
    /// Targets, or a delegated document, were stored in this file.
    Document(String),
    /// A write or a removal failed.
    Broken,
}

/// What was accepted last. Each part may be absent.
#[derive(Debug, Drop)]
pub struct Tip {
    /// The latest time that was noted.
    pub time: Option<Timestamp>,
    /// The root's version.
    pub root: Option<u64>,
    /// The timestamp.
    pub timestamp: Option<TimestampVersions>,
    /// The snapshot.
    pub snapshot: Option<SnapshotVersions>,
}

/// The number of an entry in the journal, from 0, with a copy of the entry.
#[derive(Debug, Drop)]
pub struct Receipt {
    number: u64,
    entry: Entry,
}

impl Entry {
    /// A copy.
    pub(crate) fn copy(&self, alloc: Global) -> Result<Entry, AllocError>
        ensures { IfOk result (λ copy. note_of copy ≡ note_of self.now) }
    {
        Ok(match self {
            Entry::Noted(time) => Entry::Noted(*time),
            Entry::Root(version, cleared) => Entry::Root(*version, *cleared),
            Entry::Timestamp(versions, had_stored) => Entry::Timestamp(*versions, *had_stored),
            Entry::Snapshot(versions, had_stored) => {
                Entry::Snapshot(versions.copy(alloc)?, *had_stored)
            }
            Entry::Cleared => Entry::Cleared,
            Entry::Document(name) => Entry::Document(String::from_str(alloc, name.as_str())?),
            Entry::Broken => Entry::Broken,
        })
    }
}

impl Tip {
    pub(crate) fn absent() -> Tip
        ensures { tip_of result ≡ no_tip }
    {
        Tip {
            time: None,
            root: None,
            timestamp: None,
            snapshot: None,
        }
    }

    /// Goes with an entry.
    pub(crate) fn apply(&mut self, entry: Entry)
        ensures { tip_of self.new ≡ applied (tip_of self.old) (note_of entry) }
    {
        match entry {
            Entry::Noted(time) => self.time = Some(time),
            Entry::Root(version, cleared) => {
                self.root = Some(version);
                if cleared {
                    self.timestamp = None;
                    self.snapshot = None;
                }
            }
            Entry::Timestamp(versions, _) => self.timestamp = Some(versions),
            Entry::Snapshot(versions, _) => self.snapshot = Some(versions),
            Entry::Cleared => {
                self.timestamp = None;
                self.snapshot = None;
            }
            Entry::Document(_) | Entry::Broken => {}
        }
    }
}

impl Receipt {
    pub(crate) fn new(number: u64, entry: Entry) -> Receipt
        ensures number { number_of result ≡ number }
        ensures entry { entry_of result ≡ entry }
    {
        Receipt { number, entry }
    }

    /// The entry's number in the journal, from 0.
    pub fn number(&self) -> u64
        ensures { result ≡ number_of self.now }
    {
        self.number
    }

    /// A copy of the entry.
    pub fn entry(&self) -> &Entry
        ensures { result.now ≡ entry_of self.now }
    {
        &self.entry
    }
}
