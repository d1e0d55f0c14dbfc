//! Receipts that are tied to one store.

ghost use Rattle.std.specs.Prelude.{◌≡◌, ◌+◌, ◌<◌, ◌^◌, Some};
ghost use Rattle.tough_vault.specs.Journal.{note_of, number_of, entry_of};
ghost use Rattle.tough_shared.specs.Lines.{line_of, entry_at, told};

use crate::front::{Front, Naming};
use tough_vault::Entry;

/// The number of an entry in the journal, from 0, with a copy of the entry, and what ties both to one store.
#[derive(Drop)]
pub struct Receipt<J: Naming> {
    pub(crate) plain: tough_vault::Receipt,
    pub(crate) front: Front<J>,
    ghost stands: { entry_at (told front.seen.log) (number_of plain)
        ≡ Some (line_of (note_of (entry_of plain))) },
    ghost fits: { number_of plain + 1 < 2 ^ 64 },
}

impl<J: Naming> Receipt<J> {
    ghost use Rattle.tough_shared.specs.Receipts.{plain_of};

    /// The entry's number in the journal, from 0.
    pub fn number(&self) -> u64
        ensures { result ≡ number_of (plain_of self.now) }
    {
        self.plain.number()
    }

    /// The number of the entry behind it.
    pub(crate) fn next(&self) -> u64
        ensures { result ≡ number_of (plain_of self.now) + 1 }
    {
        self.number() + 1
    }

    /// A copy of the entry.
    pub fn entry(&self) -> &Entry
        ensures { result.now ≡ entry_of (plain_of self.now) }
    {
        self.plain.entry()
    }

    /// What ties it to its store: the history up to its entry.
    pub(crate) fn front(&self) -> &Front<J>
        ensures front { result.now.seen.log ≡ self.now.front.seen.log }
        ensures stands { entry_at (told result.now.seen.log) (number_of (plain_of self.now))
            ≡ Some (line_of (note_of (entry_of (plain_of self.now)))) }
    {
        &self.front
    }

    /// The same without what ties it.
    pub(crate) fn plain(&self) -> &tough_vault::Receipt
        ensures { result.now ≡ plain_of self.now }
    {
        &self.plain
    }
}
