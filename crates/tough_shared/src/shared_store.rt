//! A vault behind one lock.

ghost use Rattle.std.specs.Prelude.{◌≡◌, ◌≢◌, ◌<◌, [], length, IfOk, IfErr};
ghost use Rattle.tough_roles.specs.Root.{root_doc};
ghost use Rattle.tough_roles.specs.Signature.{signed_doc};
ghost use Rattle.tough_roles.specs.Snapshot.{snapshot_doc};
ghost use Rattle.tough_roles.specs.Timestamp.{timestamp_doc};
ghost use Rattle.tough_checks.specs.Checks.{enforces};
ghost use Rattle.tough_checks.specs.DocumentName.{name_of};
ghost use Rattle.tough_roles.specs.Written.{compact_by};
ghost use Rattle.tough_vault.specs.Act.{NoteTime, PutRoot, ClearRotated, AdvanceTimestamp, AdvanceSnapshot, PutDocument};
ghost use Rattle.tough_vault.specs.Looking.{look_doc};
ghost use Rattle.tough_trust.specs.View.{act_of};
ghost use Rattle.tough_shared.specs.Opened.{book_of};
ghost use Rattle.tough_shared.specs.Closed.{closed_begun};
ghost use Rattle.tough_shared.specs.Lines.{begun_in, told};
ghost use Rattle.tough_shared.specs.Receipts.{IsLater};
ghost use Rattle.tough_shared.specs.Shares.{Shares, SharesLook, StepsAlone, LooksAlone, no_signature};

use crate::closed::ClosedStore;
use crate::front::{Front, Head, Licence, Named, Naming, Opened, Parked};
use crate::locked::Locked;
use crate::receipt::Receipt;
use crate::spare::{Spare, Tally};
use jiff::Timestamp as Instant;
use std::alloc::{AllocError, Global};
use std::sync::ledger::Share;
use std::sync::{Arc, Mutex, Wait};
use tough_keys::{Key, Verify};
use tough_roles::{Role, Root, Signed, Snapshot, Timestamp};
use tough_trust::Act;
use tough_vault::{DocumentName, ExpirationEnforcement, StepError, Store};

// What all clones have: the head of the history, and the desk under its lock.
#[derive(Drop)]
struct Shared<S: Store, J: Naming> {
    head: Head<J>,
    desk: Mutex<Desk<S, J>>,
}

// The vault, and the count of the entries that no keeper made.
#[derive(Drop)]
struct Desk<S: Store, J: Naming> {
    locked: Locked<S, J>,
    spare: Spare<J>,
}

// Verifies nothing, for steps that ask for no signature.
struct NoSignature;

impl Verify for NoSignature {
    ghost verifies = { λ v. no_signature };

    fn verify(&self, key: &Key, msg: &[u8], sig: &[u8]) -> bool {
        false
    }
}

/// A vault that threads share, by clones. Each step is the vault's own: there are two states that the lock held, both legal
/// and held by the files of a store that tells them, between which that step led to this answer. A step waits for the lock.
#[derive(Drop)]
pub struct SharedStore<S: Store, J: Naming> {
    alloc: Global,
    shared: Arc<Shared<S, J>, Global>,
    licence: Licence<J>,
    start: Front<J>,
    ghost began: { start.seen.log ≢ [] },
}

impl<S: Store + Drop, J: Naming> SharedStore<S, J> {
    ghost use Rattle.tough_shared.specs.Stores.{begun_of, quiet_begun};

    /// A vault over a store, with an empty journal. Nothing is known of what the store holds, and nothing of it is changed. Its history is the
    /// opened one, which `J` names.
    pub fn new(alloc: Global, opened: Opened, store: S) -> Result<SharedStore<S, J>, AllocError>
        requires { book_of opened ≡ J.book }
        ensures { IfOk result (λ s. begun_of s ≡ S.changes store) }
    {
        let Named {
            head,
            front,
            book,
            spare,
            licence,
        } = opened.named::<J>();
        // Nothing was added yet, so it always begins; a proof knows nothing of that.
        let Some(tail) = front.begin(&head, &store) else {
            return Err(AllocError);
        };
        let start = tail.front.again();
        let desk = Mutex::new(Desk {
            locked: Locked::new(alloc, store, tail, book),
            spare,
        });
        let shared = Arc::new(alloc, Shared { head, desk })?;
        Ok(SharedStore {
            alloc,
            shared,
            licence,
            start,
        })
    }

    /// A clone, over the same vault.
    pub fn try_clone(&self) -> Result<SharedStore<S, J>, AllocError>
        ensures { IfOk result (λ s. begun_of s ≡ begun_of self.now) }
    {
        let shared = Arc::try_clone(&self.shared)?;
        Ok(SharedStore {
            alloc: self.alloc,
            shared,
            licence: self.licence.again(),
            start: self.start.again(),
        })
    }

    // A step that no keeper counts.
    fn step<V: Verify, R: Wait>(
        &self,
        rt: &R,
        act: &Act<'_>,
        verifier: &V,
    ) -> Result<Receipt<J>, StepError>
        ensures { Shares S.tells S.files S.count S.changes (begun_of self.now) (V.verifies verifier.now) (act_of act.now)
            result }
    {
        let mut me = self.start.again();
        let mut guard = self.shared.desk.lock(rt);
        let Desk { locked, spare } = &mut *guard;
        spare.step(
            &self.licence,
            locked,
            &self.shared.head,
            &mut me,
            self.alloc,
            act,
            verifier,
        )
    }

    /// A count for a keeper, which has made nothing.
    pub(crate) fn part<R: Wait>(&self, rt: &R) -> Share<Tally<J>>
        ensures parts { result.parts ≡ 1 }
        ensures amount { result.amount ≡ 0 }
    {
        let mut guard = self.shared.desk.lock(rt);
        guard.spare.part(rt, &self.licence)
    }

    /// The store while a keeper has it.
    pub(crate) fn into_quiet(self) -> Quiet<S, J>
        ensures { quiet_begun result ≡ begun_of self }
    {
        let SharedStore {
            alloc,
            shared,
            licence,
            start,
        } = self;
        Quiet {
            alloc,
            shared,
            licence: licence.park(),
            start,
        }
    }

    /// Notes the time of an update, as `Vault::note_time`.
    pub fn note_time<R: Wait>(&self, rt: &R, now: Instant) -> Result<Receipt<J>, StepError>
        ensures { Shares S.tells S.files S.count S.changes (begun_of self.now) no_signature (NoteTime now.nanosecond) result }
    {
        let act = Act::NoteTime(now);
        self.step(rt, &act, &NoSignature)
    }

    /// The stored root, where it is newer than this version, as `Vault::read_root`.
    pub fn read_root<R: Wait, V: Verify>(
        &self,
        rt: &R,
        first: u64,
        verifier: &V,
    ) -> Result<Option<Signed<Root>>, StepError>
        ensures { SharesLook S.tells S.files S.count S.changes (begun_of self.now) (V.verifies verifier.now) first
            (look_doc result) }
    {
        let mut me = self.start.again();
        let mut guard = self.shared.desk.lock(rt);
        guard
            .locked
            .read_root(&self.shared.head, &mut me, first, verifier)
    }

    /// Accepts a root, as `Vault::put_root` (TUF specification 5.3).
    pub fn put_root<R: Wait, V: Verify>(
        &self,
        rt: &R,
        root: &Signed<Root>,
        verifier: &V,
    ) -> Result<Receipt<J>, StepError>
        ensures { Shares S.tells S.files S.count S.changes (begun_of self.now) (V.verifies verifier.now)
            (PutRoot (signed_doc root_doc root.now)) result }
    {
        let act = Act::PutRoot(root);
        self.step(rt, &act, verifier)
    }

    /// Forgets timestamp and snapshot, as `Vault::clear_rotated`.
    pub fn clear_rotated<R: Wait>(&self, rt: &R) -> Result<Receipt<J>, StepError>
        ensures { Shares S.tells S.files S.count S.changes (begun_of self.now) no_signature ClearRotated result }
    {
        let act = Act::ClearRotated;
        self.step(rt, &act, &NoSignature)
    }

    /// Accepts a timestamp, as `Vault::advance_timestamp` (TUF specification 5.4).
    pub fn advance_timestamp<R: Wait, V: Verify>(
        &self,
        rt: &R,
        root: &Root,
        new: &Signed<Timestamp>,
        start: Instant,
        enforcement: ExpirationEnforcement,
        verifier: &V,
    ) -> Result<Receipt<J>, StepError>
        ensures { Shares S.tells S.files S.count S.changes (begun_of self.now) (V.verifies verifier.now)
            (AdvanceTimestamp (root_doc root.now) (signed_doc timestamp_doc new.now)
            start.nanosecond (enforces enforcement)) result }
    {
        let act = Act::AdvanceTimestamp {
            root,
            new,
            start,
            enforcement,
        };
        self.step(rt, &act, verifier)
    }

    /// Accepts a snapshot of the version that the timestamp lists, as `Vault::advance_snapshot` (TUF specification 5.5).
    pub fn advance_snapshot<R: Wait, V: Verify>(
        &self,
        rt: &R,
        root: &Root,
        listed: u64,
        new: &Signed<Snapshot>,
        start: Instant,
        enforcement: ExpirationEnforcement,
        verifier: &V,
    ) -> Result<Receipt<J>, StepError>
        ensures { Shares S.tells S.files S.count S.changes (begun_of self.now) (V.verifies verifier.now)
            (AdvanceSnapshot (root_doc root.now) listed (signed_doc snapshot_doc new.now)
            start.nanosecond (enforces enforcement)) result }
    {
        let act = Act::AdvanceSnapshot {
            root,
            listed,
            new,
            start,
            enforcement,
        };
        self.step(rt, &act, verifier)
    }

    /// Stores targets, or a delegated document, under its name, as `Vault::put_document`.
    pub fn put_document<T: Role, R: Wait>(
        &self,
        rt: &R,
        name: &DocumentName,
        role: &Signed<T>,
    ) -> Result<Receipt<J>, StepError>
        ensures { Shares S.tells S.files S.count S.changes (begun_of self.now) no_signature
            (PutDocument (name_of name.now) (compact_by T.json role.now)) result }
    {
        let mut me = self.start.again();
        let mut guard = self.shared.desk.lock(rt);
        let Desk { locked, spare } = &mut *guard;
        spare.document_step(
            &self.licence,
            locked,
            &self.shared.head,
            &mut me,
            name,
            role,
        )
    }

    /// The closed store, or this one while another clone lives.
    pub fn close(self) -> Result<ClosedStore<S, J>, SharedStore<S, J>>
        ensures closed { IfOk result (λ c. closed_begun c ≡ begun_of self) }
        ensures kept { IfErr result (λ s. begun_of s ≡ begun_of self) }
    {
        let SharedStore {
            alloc,
            shared,
            licence,
            start,
        } = self;
        match Arc::try_unwrap(shared) {
            Ok(shared) => Ok(closed(shared, &start)),
            Err(shared) => Err(SharedStore {
                alloc,
                shared,
                licence,
                start,
            }),
        }
    }
}

/// A shared store while a keeper has it: it takes the steps of that keeper alone.
#[derive(Drop)]
pub(crate) struct Quiet<S: Store, J: Naming> {
    alloc: Global,
    shared: Arc<Shared<S, J>, Global>,
    licence: Parked<J>,
    start: Front<J>,
    ghost began: { start.seen.log ≢ [] },
}

impl<S: Store + Drop, J: Naming> Quiet<S, J> {
    ghost use Rattle.tough_shared.specs.Stores.{begun_of, quiet_begun};

    /// The history from which it began.
    pub(crate) fn start(&self) -> Front<J>
        ensures begun { begun_in (told result.seen.log) ≡ quiet_begun self.now }
        ensures some { 0 < length (told result.seen.log) }
    {
        self.start.again()
    }

    /// The step of the vault, under the lock, counted as an entry of `own`. The receipt's number is behind all that `me` had seen.
    pub(crate) fn take<V: Verify, R: Wait>(
        &self,
        rt: &R,
        own: &mut Share<Tally<J>>,
        me: &mut Front<J>,
        alloc: Global,
        act: &Act<'_>,
        verifier: &V,
    ) -> Result<Receipt<J>, StepError>
        requires part { 0 < own.old.parts }
        requires seen { me.old.seen.log ≢ [] }
        ensures alone { StepsAlone S.tells S.files S.count S.changes (begun_in (told me.old.seen.log)) (told me.old.seen.log) (told me.new.seen.log)
            own.old.amount own.new.amount (V.verifies verifier.now) (act_of act.now) result }
        ensures parts { own.new.parts ≡ own.old.parts }
        ensures later { IfOk result (IsLater (length (told me.old.seen.log))) }
    {
        let mut guard = self.shared.desk.lock(rt);
        let Desk { locked, spare: _ } = &mut *guard;
        locked.step(&self.shared.head, own, me, alloc, act, verifier)
    }

    /// The look of the vault at its stored root, under the lock.
    pub(crate) fn read_root<V: Verify, R: Wait>(
        &self,
        rt: &R,
        me: &mut Front<J>,
        first: u64,
        verifier: &V,
    ) -> Result<Option<Signed<Root>>, StepError>
        requires { me.old.seen.log ≢ [] }
        ensures { LooksAlone S.tells S.files S.count S.changes (begun_in (told me.old.seen.log)) (told me.old.seen.log) (told me.new.seen.log)
            (V.verifies verifier.now) first (look_doc result) }
    {
        let mut guard = self.shared.desk.lock(rt);
        guard
            .locked
            .read_root(&self.shared.head, me, first, verifier)
    }

    /// The store.
    pub(crate) fn into_store(self) -> SharedStore<S, J>
        ensures { begun_of result ≡ quiet_begun self }
    {
        let Quiet {
            alloc,
            shared,
            licence,
            start,
        } = self;
        SharedStore {
            alloc,
            shared,
            licence: licence.into_licence(),
            start,
        }
    }
}

// Takes the vault out of a store that has no clone, and ends its history.
fn closed<S: Store + Drop, J: Naming>(shared: Shared<S, J>, start: &Front<J>) -> ClosedStore<S, J>
    requires { start.now.seen.log ≢ [] }
    ensures { closed_begun result ≡ begun_in (told start.now.seen.log) }
{
    let Shared { head, desk } = shared;
    let Desk { locked, spare: _ } = desk.into_inner();
    ClosedStore::seal(locked, &head, start)
}
