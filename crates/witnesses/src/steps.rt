//! The laws of steps.

ghost use Rattle.std.specs.Prelude.{ℕ, Ok, IfOk, OnOk, true};
ghost use Rattle.tough_roles.specs.Root.{root_doc};
ghost use Rattle.tough_roles.specs.Signature.{signed_doc};
ghost use Rattle.tough_roles.specs.Snapshot.{snapshot_doc};
ghost use Rattle.tough_roles.specs.Timestamp.{timestamp_doc};
ghost use Rattle.tough_vault.specs.Act.{NoteTime, PutRoot, AdvanceTimestamp, AdvanceSnapshot};
ghost use Rattle.tough_vault.specs.Journal.{note_of, entry_of};
ghost use Rattle.tough_vault.specs.Step.{Parts};
ghost use Rattle.tough_vault.specs.Vault.{parts_of};
ghost use Rattle.tough_vault.specs.declared.memory.MemoryStore.{MemoryStore as MemoryDoc};
ghost use Rattle.tough_shared.specs.Shares.{Shares};
ghost use Rattle.witnesses.specs.Keepers.{NotesTwo};
ghost use Rattle.witnesses.specs.Steps.{IsPlain, Took, AllTook, four_acts, HasAccepted};

use crate::Unmet;
use crate::update::{root_in, snapshot_in, timestamp_in};
use jiff::Timestamp as Instant;
use std::alloc::Global;
use std::sync::Wait;
use tough_net::Limits;
use tough_roles::{DemoVerify, Root, Signed, Snapshot, Timestamp, Verify};
use tough_shared::{Naming, Receipt as Tied, SharedKeeper};
use tough_trust::{Act, Keeper};
use tough_vault::{Entry, ExpirationEnforcement, MemoryStore, Receipt, StepError, Store, Vault};

// A step that tells neither a write that failed nor a clearing.
fn is_plain(receipt: &Receipt) -> Result<(), Unmet>
    ensures { OnOk result (IsPlain (note_of (entry_of receipt.now))) }
{
    match receipt.entry() {
        Entry::Noted(_)
        | Entry::Root(_, false)
        | Entry::Timestamp(_, _)
        | Entry::Snapshot(_, _)
        | Entry::Document(_) => Ok(()),
        Entry::Root(_, true) | Entry::Cleared | Entry::Broken => Err(Unmet::Input),
    }
}

// The vault notes a moment.
#[tactic(auto, using(crate::proofs::Trails::took))]
fn note_time(vault: &mut Vault<MemoryStore>, now: Instant) -> Result<(), Unmet>
    ensures { OnOk result (Took (NoteTime now.nanosecond) (parts_of vault.old)
        (parts_of vault.new)) }
{
    let receipt = match vault.note_time(now) {
        Ok(receipt) => receipt,
        Err(_) => return Err(Unmet::Input),
    };
    is_plain(&receipt)
}

// The vault accepts a root.
#[tactic(auto, using(crate::proofs::Trails::took))]
fn put_root(vault: &mut Vault<MemoryStore>, root: &Signed<Root>) -> Result<(), Unmet>
    ensures { OnOk result (Took (PutRoot (signed_doc root_doc root.now)) (parts_of vault.old)
        (parts_of vault.new)) }
{
    let receipt = match vault.put_root(root, &DemoVerify) {
        Ok(receipt) => receipt,
        Err(_) => return Err(Unmet::Input),
    };
    is_plain(&receipt)
}

// The vault accepts a timestamp.
#[tactic(auto, using(crate::proofs::Trails::took))]
fn advance_timestamp(
    vault: &mut Vault<MemoryStore>,
    root: &Root,
    new: &Signed<Timestamp>,
    start: Instant,
) -> Result<(), Unmet>
    ensures { OnOk result (Took (AdvanceTimestamp (root_doc root.now)
        (signed_doc timestamp_doc new.now) start.nanosecond true) (parts_of vault.old)
        (parts_of vault.new)) }
{
    let safe = ExpirationEnforcement::Safe;
    let receipt = match vault.advance_timestamp(root, new, start, safe, &DemoVerify) {
        Ok(receipt) => receipt,
        Err(_) => return Err(Unmet::Input),
    };
    is_plain(&receipt)
}

// The vault accepts a snapshot of the version that is listed.
#[tactic(auto, using(crate::proofs::Trails::took))]
fn advance_snapshot(
    vault: &mut Vault<MemoryStore>,
    root: &Root,
    listed: u64,
    new: &Signed<Snapshot>,
    start: Instant,
) -> Result<(), Unmet>
    ensures { OnOk result (Took (AdvanceSnapshot (root_doc root.now) listed
        (signed_doc snapshot_doc new.now) start.nanosecond true) (parts_of vault.old)
        (parts_of vault.new)) }
{
    let safe = ExpirationEnforcement::Safe;
    let receipt = match vault.advance_snapshot(root, listed, new, start, safe, &DemoVerify) {
        Ok(receipt) => receipt,
        Err(_) => return Err(Unmet::Input),
    };
    is_plain(&receipt)
}

// A vault over an empty store, which takes four steps.
fn accept_four(
    alloc: Global,
    start: Instant,
    root: &Signed<Root>,
    timestamp: &Signed<Timestamp>,
    listed: u64,
    snapshot: &Signed<Snapshot>,
) -> Result<(), Unmet>
    ensures { OnOk result ((old : Parts MemoryDoc) × (new : Parts MemoryDoc)
        × AllTook (four_acts start.nanosecond (signed_doc root_doc root.now)
        (signed_doc timestamp_doc timestamp.now) listed (signed_doc snapshot_doc snapshot.now))
        old new) }
{
    let mut vault = Vault::new(alloc, MemoryStore::new(alloc));
    note_time(&mut vault, start)?;
    put_root(&mut vault, root)?;
    advance_timestamp(&mut vault, &root.signed, timestamp, start)?;
    advance_snapshot(&mut vault, &root.signed, listed, snapshot, start)?;
    Ok(())
}

/// Witness of `tough_world::laws::steps_go_on`, `tough_world::laws::sections_go_on` and `tough_world::laws::roots_rise`: a vault over an empty
/// store in memory, which notes a moment and accepts a root, a timestamp and a snapshot that were read.
pub fn accepted_steps(
    alloc: Global,
    limits: &Limits,
    start: Instant,
    trusted: &[u8],
    timestamp: &[u8],
    snapshot: &[u8],
) -> Result<(), Unmet>
    ensures { OnOk result (HasAccepted start.nanosecond) }
{
    let root = root_in(alloc, start, trusted)?;
    let first = timestamp_in(alloc, limits, &root.signed, start, timestamp)?;
    let Some(listed) = first.signed.metafile("snapshot.json") else {
        return Err(Unmet::Input);
    };
    let second = snapshot_in(alloc, limits, &root.signed, start, listed, snapshot)?;
    accept_four(alloc, start, &root, &first, listed.version.get(), &second)?;
    Ok(())
}

// A keeper that notes this moment.
fn note<K: Keeper, V: Verify>(
    alloc: Global,
    keeper: &mut K,
    verifier: &V,
    moment: Instant,
) -> Result<K::Receipt, Unmet>
    ensures { IfOk result (λ r. K.keeps (V.verifies verifier.now) keeper.old
        (NoteTime moment.nanosecond) (Ok r) keeper.new) }
{
    match keeper.take(alloc, &Act::NoteTime(moment), verifier) {
        Ok(receipt) => Ok(receipt),
        Err(_) => Err(Unmet::Input),
    }
}

/// Witness of `tough_shared::laws::receipts_rise`, `tough_rising::laws::vault_receipts_rise steps` and
/// `tough_rising::laws::shared_receipts_rise steps`: any keeper that notes two moments, with the receipts of both.
pub fn two_steps<K: Keeper, V: Verify>(
    alloc: Global,
    keeper: &mut K,
    verifier: &V,
    first: Instant,
    second: Instant,
) -> Result<(K::Receipt, K::Receipt), Unmet>
    ensures { IfOk result (λ r. NotesTwo K.keeps (V.verifies verifier.now) first.nanosecond
        second.nanosecond keeper.old r.0 r.1 keeper.new) }
{
    let one = note(alloc, keeper, verifier, first)?;
    let two = note(alloc, keeper, verifier, second)?;
    Ok((one, two))
}

/// Witness of `tough_shared::laws::shared_steps_tell`: a moment that a shared store's keeper is asked to note.
pub fn shared_step<S: Store + Drop, R: Wait + Drop, J: Naming, V: Verify>(
    alloc: Global,
    keeper: &mut SharedKeeper<S, R, J>,
    verifier: &V,
    moment: Instant,
) -> Result<Tied<J>, StepError>
    ensures { (begun : ℕ)
        × Shares S.tells S.files S.count S.changes begun (V.verifies verifier.now)
        (NoteTime moment.nanosecond) result }
{
    keeper.take(alloc, &Act::NoteTime(moment), verifier)
}
