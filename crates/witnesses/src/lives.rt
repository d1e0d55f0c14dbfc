//! The laws of lives.

ghost use Rattle.std.specs.Prelude.{◌≡◌, ◌∷◌, [], Some, IfOk, OnOk};
ghost use Rattle.tough_keys.specs.Demo.{demo_verifies};
ghost use Rattle.tough_roles.specs.Root.{RootDoc};
ghost use Rattle.tough_roles.specs.Signature.{SignedDoc};
ghost use Rattle.tough_checks.specs.Files.{root_file};
ghost use Rattle.tough_checks.specs.StoredDocuments.{stored_root};
ghost use Rattle.tough_vault.specs.Memory.{memory_files};
ghost use Rattle.tough_world.specs.Lives.{joined, journals_of};
ghost use Rattle.witnesses.specs.Lives.{noting as noting_turns, IsBorn, Stores, Notes, HasStored, HasPolicies};

use crate::Unmet;
use jiff::Timestamp as Instant;
use std::alloc::Global;
use tough_net::{Limits, TransportError, TransportErrorKind};
use tough_roles::DemoVerify;
use tough_trust::Fault;
use tough_update::Core;
use tough_vault::{Entry, ExpirationEnforcement, MemoryStore, Vault};
use tough_world::{Answer, Life, Turn, run_lives};

// The turns by which an update notes this moment.
fn noting(alloc: Global, now: Instant) -> Result<Vec<Turn>, Unmet>
    ensures { IfOk result (λ turns. turns.items ≡ noting_turns now) }
{
    let mut turns = Vec::new(alloc);
    turns.push(Turn {
        load: 0,
        answer: Answer::Moment(now),
    })?;
    turns.push(Turn {
        load: 0,
        answer: Answer::Step,
    })?;
    Ok(turns)
}

// The turns by which it then looks for a stored root, learns that no other root is there, and stores the one that it has.
fn storing(alloc: Global, now: Instant) -> Result<Vec<Turn>, Unmet> {
    let error = TransportError::new(alloc, TransportErrorKind::FileNotFound, "")?;
    let mut turns = noting(alloc, now)?;
    turns.push(Turn {
        load: 0,
        answer: Answer::Step,
    })?;
    turns.push(Turn {
        load: 0,
        answer: Answer::NotStarted(Fault::Transport(error)),
    })?;
    turns.push(Turn {
        load: 0,
        answer: Answer::Step,
    })?;
    Ok(turns)
}

// A life of one update, which begins with this root.
fn life(alloc: Global, limits: Limits, trusted: &[u8], schedule: Vec<Turn>) -> Result<Life, Unmet>
    ensures { IfOk result (IsBorn trusted.now schedule.items) }
{
    let bytes = trusted.to_vec(alloc)?;
    let mut cores = Vec::new(alloc);
    cores.push(Core::new(bytes, limits, ExpirationEnforcement::Safe))?;
    Ok(Life { cores, schedule })
}

// Two journals: the first life noted a moment and stored a root, the second one noted a moment.
fn tells_stores(journals: &[Vec<Entry>]) -> Result<(), Unmet>
    ensures { OnOk result (Stores (joined (journals_of journals.now))) }
{
    let [first, second] = journals else {
        return Err(Unmet::Input);
    };
    let [Entry::Noted(_), Entry::Root(_, _)] = first.as_slice() else {
        return Err(Unmet::Input);
    };
    let [Entry::Noted(_)] = second.as_slice() else {
        return Err(Unmet::Input);
    };
    Ok(())
}

// Two journals, each of a moment that was noted.
fn tells_notes(journals: &[Vec<Entry>]) -> Result<(), Unmet>
    ensures { OnOk result (Notes (joined (journals_of journals.now))) }
{
    let [first, second] = journals else {
        return Err(Unmet::Input);
    };
    let [Entry::Noted(_)] = first.as_slice() else {
        return Err(Unmet::Input);
    };
    let [Entry::Noted(_)] = second.as_slice() else {
        return Err(Unmet::Input);
    };
    Ok(())
}

// A store that holds a root which verifies itself.
#[tactic(auto, using(crate::proofs::Stored::held))]
fn holds_root(alloc: Global, store: MemoryStore) -> Result<(), Unmet>
    ensures { OnOk result ((r : SignedDoc RootDoc)
        × (stored_root demo_verifies (memory_files store root_file) ≡ Some r)) }
{
    let mut vault = Vault::new(alloc, store);
    match vault.read_root(0, &DemoVerify) {
        Ok(Some(_)) => Ok(()),
        _ => Err(Unmet::Input),
    }
}

// Two lives.
fn pair(alloc: Global, first: Life, second: Life) -> Result<Vec<Life>, Unmet>
    ensures { IfOk result (λ lives. lives.items ≡ first ∷ second ∷ []) }
{
    let mut lives = Vec::new(alloc);
    lives.push(first)?;
    lives.push(second)?;
    Ok(lives)
}

/// Witness of `tough_world::laws::lives_take_steps`, `tough_world::laws::lives_raise_roots` and `tough_world::laws::stored_is_chained`: two
/// lives on a store in memory that held nothing; an update of the first notes a moment and stores its root, one of the second notes a moment.
pub fn root_is_stored(
    alloc: Global,
    limits: Limits,
    trusted: &[u8],
    first: Instant,
    second: Instant,
) -> Result<(), Unmet>
    ensures { OnOk result HasStored }
{
    let one = life(alloc, limits, trusted, storing(alloc, first)?)?;
    let two = life(alloc, limits, trusted, noting(alloc, second)?)?;
    let lives = pair(alloc, one, two)?;
    let Ok((store, journals)) = run_lives(alloc, MemoryStore::new(alloc), DemoVerify, lives) else {
        return Err(Unmet::Memory);
    };
    tells_stores(&journals)?;
    holds_root(alloc, store)?;
    Ok(())
}

/// Witness of `tough_world::laws::lives_go_on`: two lives on a store in memory that held nothing, whose updates begin with one root, and each
/// note a moment.
pub fn noted_moments(
    alloc: Global,
    limits: Limits,
    trusted: &[u8],
    first: Instant,
    second: Instant,
) -> Result<(), Unmet>
    ensures { OnOk result HasPolicies }
{
    let one = life(alloc, limits, trusted, noting(alloc, first)?)?;
    let two = life(alloc, limits, trusted, noting(alloc, second)?)?;
    let lives = pair(alloc, one, two)?;
    let Ok((store, journals)) = run_lives(alloc, MemoryStore::new(alloc), DemoVerify, lives) else {
        return Err(Unmet::Memory);
    };
    drop(store);
    tells_notes(&journals)?;
    Ok(())
}
