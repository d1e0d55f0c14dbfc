//! A store, with the journal of what was accepted from it.

ghost use Rattle.std.specs.Prelude.{◌≡◌, ◌+◌, ◌%◌, ◌^◌, List, [], Some, true, false, IfOk, OnOk};
ghost use Rattle.tough_roles.specs.Signature.{signed_doc};
ghost use Rattle.tough_roles.specs.Root.{root_doc};
ghost use Rattle.tough_roles.specs.Timestamp.{timestamp_doc};
ghost use Rattle.tough_roles.specs.Snapshot.{snapshot_doc};
ghost use Rattle.tough_checks.specs.Checks.{enforces};
ghost use Rattle.tough_vault.specs.Journal.{no_tip, replay, Rises, Legal, NothingGoesBack, RootsRise, has_broken, note_of, notes_of, entry_of, tip_of};
ghost use Rattle.tough_vault.specs.Step.{Takes, Clears, TriesTwo, ChangesOnce};
ghost use Rattle.tough_vault.specs.Steps.{time_text, time_step, timestamp_step, snapshot_step, document_step};
ghost use Rattle.tough_checks.specs.StoredDocuments.{stored_time};
ghost use Rattle.tough_roles.specs.Written.{compact_by};
ghost use Rattle.tough_checks.specs.DocumentName.{name_of};
ghost use Rattle.tough_vault.specs.Looking.{Looks, look_doc};
ghost use Rattle.tough_vault.specs.Parts.{Holds, NamesFree, RootReadsBack, TimestampReadsBack, SnapshotReadsBack};
ghost use Rattle.tough_vault.specs.Puts.{Puts};
ghost use Rattle.tough_vault.specs.Rotated.{IsClearing};
ghost use Rattle.tough_vault.specs.Props.{Rises-prop, replays-prop};

use crate::entry::{Entry, Receipt, Tip};
use crate::parts::conclude;
use crate::prepare::{
    SNAPSHOT, TIME, TIMESTAMP, prepare_document, prepare_time, prepare_timestamp, put_text,
};
use crate::root_step::{look, prepare_root};
use crate::rotated::{clear, conclude_root};
use crate::snapshot_step::prepare_snapshot;
use crate::store::Store;
use jiff::Timestamp as Instant;
use std::alloc::Global;
use tough_checks::{Checker, DocumentName, ExpirationEnforcement, StepError};
use tough_roles::{Role, Root, Signed, Snapshot, Timestamp, Verify, Written};

/// A store, what was accepted from it, and the tip of that.
#[derive(Drop)]
pub struct Vault<S: Store> {
    alloc: Global,
    store: S,
    journal: Vec<Entry>,
    tip: Tip,
    ghost replays: { replay no_tip (notes_of journal.items) ≡ tip_of tip } by { replays-prop _ _ },
    ghost rises: { Rises no_tip (notes_of journal.items) } by { Rises-prop _ _ },
    ghost free: { NamesFree (notes_of journal.items) },
    ghost holds: { S.tells ≡ true → has_broken (notes_of journal.items) ≡ false
        → ∥ Holds (S.files store) (notes_of journal.items) (tip_of tip) ∥₁ },
}

impl<S: Store> Vault<S> {
    ghost use Rattle.tough_vault.specs.Vault.{parts_of, store_of, journal_of, notes_in, tip_in, files_in};

    /// A vault over a store. Nothing is known of what the store holds.
    pub fn new(alloc: Global, store: S) -> Vault<S>
        ensures store { store_of result ≡ store }
        ensures journal { notes_in result ≡ [] }
        ensures tip { tip_in result ≡ no_tip }
    {
        Vault {
            alloc,
            store,
            journal: Vec::new(alloc),
            tip: Tip::absent(),
        }
    }

    /// All entries, the first one first. Replaying them gives the tip, no entry is below what those before it leave,
    /// of two accepted documents with no clearing between them the later isn't older, and of two roots the later isn't.
    pub fn journal(&self) -> &[Entry]
        ensures entries { result.now ≡ journal_of self.now }
        ensures legal { Legal (notes_in self.now) (tip_in self.now) }
        ensures rising { NothingGoesBack (notes_in self.now) }
        ensures roots { RootsRise (notes_in self.now) }
    {
        self.journal.as_slice()
    }

    /// What was accepted last. Where no write failed, the files of a store that tells them hold it.
    pub fn tip(&self) -> &Tip
        ensures tip { tip_of result.now ≡ tip_in self.now }
        ensures holds { S.tells ≡ true → has_broken (notes_in self.now) ≡ false
            → ∥ Holds (files_in S.files self.now) (notes_in self.now) (tip_in self.now) ∥₁ }
    {
        &self.tip
    }

    /// Notes the time of an update as `latest_known_time.json`. It refuses, in this order: `DatastoreOpen`;
    /// `SystemTimeSteppedBackward` where the stored time, or the tip's, is later; `DatastoreSerialize` outside the years
    /// 0000 to 9999; `DatastoreCreate`. What was stored is read as this time.
    pub fn note_time(&mut self, now: Instant) -> Result<Receipt, StepError>
        ensures takes { Takes S.tells S.files S.count (time_step (tip_in self.old) now.nanosecond)
            (parts_of self.old) (parts_of self.new) result }
        ensures once { ChangesOnce S.changes (store_of self.old) (store_of self.new) }
        ensures back { OnOk result (stored_time (time_text now.nanosecond) ≡ Some now.nanosecond) }
    {
        let Vault {
            alloc,
            store,
            journal,
            tip,
        } = self;
        let prepared = prepare_time(*alloc, store, tip, now);
        conclude(store, journal, tip, TIME, prepared)
    }

    /// The root of `root.json`, where it can be read, verifies itself and is newer than this version. Nothing is written or noted. It refuses
    /// `DatastoreOpen`.
    pub fn read_root<V: Verify>(
        &mut self,
        first: u64,
        verifier: &V,
    ) -> Result<Option<Signed<Root>>, StepError>
        ensures { Looks S.tells S.files S.count (V.verifies verifier.now) first
            (parts_of self.old) (parts_of self.new) (look_doc result) }
    {
        let Vault {
            alloc,
            store,
            journal: _,
            tip: _,
        } = self;
        look(*alloc, store, first, verifier)
    }

    /// Accepts a root (TUF specification 5.3), and stores it as `root.json`. Where the root that was stored has another list of keys for
    /// timestamp or snapshot, these two are then removed in the same step; both removals are tried. The step is one change of the store, so
    /// that a process which ends within it leaves the store before the step or the store behind it.
    ///
    /// It refuses, in this order: `VerifyMetadata` where it doesn't verify itself; `DatastoreOpen`; `OlderMetadata` against a stored root that
    /// verifies itself, then against the tip; `DatastoreSerialize` where it has no text; `DatastoreCreate`; and, where it was written, with
    /// the fault of the first removal that failed. What was stored is read as this root, where it nests no deeper than is read and its keys
    /// stand under their own identifiers.
    pub fn put_root<V: Verify>(
        &mut self,
        root: &Signed<Root>,
        verifier: &V,
    ) -> Result<Receipt, StepError>
        ensures puts { Puts S.tells S.files S.count (V.verifies verifier.now)
            (signed_doc root_doc root.now) (parts_of self.old) (parts_of self.new) result }
        ensures once { ChangesOnce S.changes (store_of self.old) (store_of self.new) }
        ensures both { IfOk result (λ r. IsClearing (note_of (entry_of r))
            → S.removals (store_of self.new) ≡ (S.removals (store_of self.old) + 2) % 2 ^ 64) }
        ensures back { OnOk result (RootReadsBack (signed_doc root_doc root.now)) }
    {
        let Vault {
            alloc,
            store,
            journal,
            tip,
        } = self;
        let prepared = prepare_root(*alloc, store, tip, root, verifier);
        conclude_root(store, journal, tip, prepared)
    }

    /// Forgets timestamp and snapshot, whose keys were rotated (TUF specification 5.3.11). Both removals are tried; it
    /// refuses with the fault of the first that failed.
    pub fn clear_rotated(&mut self) -> Result<Receipt, StepError>
        ensures clears { Clears S.tells S.files S.count (parts_of self.old) (parts_of self.new)
            result }
        ensures both { TriesTwo S.removals (parts_of self.old) (parts_of self.new) }
    {
        let Vault {
            alloc: _,
            store,
            journal,
            tip,
        } = self;
        clear(store, journal, tip)
    }

    /// Accepts a timestamp (TUF specification 5.4), and stores it as `timestamp.json`.
    ///
    /// It refuses, in this order: `VerifyMetadata`; `TimestampMetaLength` unless it lists one name;
    /// `MissingSnapshotMeta`; `DatastoreOpen`; against a stored timestamp that the root verifies `OlderMetadata`, the
    /// stored one's `TimestampMetaLength` and `MissingSnapshotMeta`, and `OlderSnapshotInTimestamp`; against the tip
    /// `OlderMetadata` and `OlderSnapshotInTimestamp`; `ExpiredMetadata` where `start` is past its expiry and that is
    /// enforced; `DatastoreCreate`. What was stored is read as this timestamp, where it nests no deeper than is read.
    pub fn advance_timestamp<V: Verify>(
        &mut self,
        root: &Root,
        new: &Signed<Timestamp>,
        start: Instant,
        enforcement: ExpirationEnforcement,
        verifier: &V,
    ) -> Result<Receipt, StepError>
        ensures takes { Takes S.tells S.files S.count
            (timestamp_step (V.verifies verifier.now) (root_doc root.now) (tip_in self.old)
            (signed_doc timestamp_doc new.now) start.nanosecond (enforces enforcement))
            (parts_of self.old) (parts_of self.new) result }
        ensures once { ChangesOnce S.changes (store_of self.old) (store_of self.new) }
        ensures back { OnOk result (TimestampReadsBack (signed_doc timestamp_doc new.now)) }
    {
        let Vault {
            alloc,
            store,
            journal,
            tip,
        } = self;
        let checker = Checker {
            alloc: *alloc,
            verifier,
            start,
            enforcement,
        };
        let prepared = prepare_timestamp(&checker, store, tip, root, new);
        conclude(store, journal, tip, TIMESTAMP, prepared)
    }

    /// Accepts a snapshot of the version that the timestamp lists (TUF specification 5.5), and stores it as
    /// `snapshot.json`.
    ///
    /// It refuses, in this order: `VersionMismatch`; `VerifyMetadata`; `SnapshotTargetsMetaMissing`; `DatastoreOpen`;
    /// against a stored snapshot that the root verifies `OlderMetadata`, the stored one's `SnapshotTargetsMetaMissing`,
    /// and for its names in order `SnapshotRoleMissing` or `SnapshotRoleRollback`; against the tip `OlderMetadata` and
    /// the same of its names; `ExpiredMetadata` where `start` is past its expiry and that is enforced;
    /// `DatastoreCreate`. What was stored is read as this snapshot, where it nests no deeper than is read.
    pub fn advance_snapshot<V: Verify>(
        &mut self,
        root: &Root,
        listed: u64,
        new: &Signed<Snapshot>,
        start: Instant,
        enforcement: ExpirationEnforcement,
        verifier: &V,
    ) -> Result<Receipt, StepError>
        ensures takes { Takes S.tells S.files S.count
            (snapshot_step (V.verifies verifier.now) (root_doc root.now) (tip_in self.old) listed
            (signed_doc snapshot_doc new.now) start.nanosecond (enforces enforcement))
            (parts_of self.old) (parts_of self.new) result }
        ensures once { ChangesOnce S.changes (store_of self.old) (store_of self.new) }
        ensures back { OnOk result (SnapshotReadsBack (signed_doc snapshot_doc new.now)) }
    {
        let Vault {
            alloc,
            store,
            journal,
            tip,
        } = self;
        let checker = Checker {
            alloc: *alloc,
            verifier,
            start,
            enforcement,
        };
        let prepared = prepare_snapshot(&checker, store, tip, root, listed, new);
        conclude(store, journal, tip, SNAPSHOT, prepared)
    }

    /// Stores targets, or a delegated document, under its name. It refuses `DatastoreSerialize` where the document has
    /// no text, then `DatastoreCreate`.
    pub fn put_document<T: Role>(
        &mut self,
        name: &DocumentName,
        role: &Signed<T>,
    ) -> Result<Receipt, StepError>
        ensures takes { Takes S.tells S.files S.count
            (document_step (name_of name.now) (compact_by T.json role.now)) (parts_of self.old)
            (parts_of self.new) result }
        ensures once { ChangesOnce S.changes (store_of self.old) (store_of self.new) }
    {
        let Vault {
            alloc,
            store,
            journal,
            tip,
        } = self;
        let prepared = prepare_document(*alloc, store, name, role);
        conclude(store, journal, tip, name.as_str(), prepared)
    }

    /// The same, where the document's text may be known: then it isn't made again.
    pub fn put_written<T: Role>(
        &mut self,
        name: &DocumentName,
        role: &Written<T>,
    ) -> Result<Receipt, StepError>
        ensures takes { Takes S.tells S.files S.count
            (document_step (name_of name.now) (compact_by T.json role.now)) (parts_of self.old)
            (parts_of self.new) result }
        ensures once { ChangesOnce S.changes (store_of self.old) (store_of self.new) }
    {
        let Some(text) = role.text() else {
            return self.put_document(name, role.document());
        };
        let Vault {
            alloc: _,
            store,
            journal,
            tip,
        } = self;
        put_text(store, journal, tip, name, text)
    }

    /// The store.
    pub fn into_store(self) -> S
        ensures { result ≡ store_of self }
    {
        let Vault { store, .. } = self;
        store
    }

    /// The store, and all entries.
    pub fn into_parts(self) -> (S, Vec<Entry>)
        ensures store { result.0 ≡ store_of self }
        ensures journal { result.1.items ≡ journal_of self }
    {
        let Vault {
            alloc: _,
            store,
            journal,
            tip: _,
        } = self;
        (store, journal)
    }
}
