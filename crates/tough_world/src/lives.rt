//! Lives: one world after another on one store, each with a new vault.

ghost use Rattle.std.specs.Prelude.{◌≡◌, IfOk, IfErr};
ghost use Rattle.tough_vault.specs.Journal.{notes_of};
ghost use Rattle.tough_world.specs.Lives.{Lives, Lived, journals_of};

use crate::turns::Turn;
use crate::world::World;
use std::alloc::{AllocError, Global};
use tough_roles::Verify;
use tough_update::Core;
use tough_vault::{Entry, Store, Vault};

/// The updates of one world, and the turns that it takes.
#[derive(Drop)]
pub struct Life {
    /// The updates.
    pub cores: Vec<Core>,
    /// The turns, in order.
    pub schedule: Vec<Turn>,
}

// One life: a new vault over the store, and all turns of the schedule. It gives the store, the verifier and the journal.
fn live<S: Store + Drop, V: Verify + Drop>(
    alloc: Global,
    store: S,
    verifier: V,
    life: Life,
) -> (S, V, Vec<Entry>)
    ensures lived { Lived S.tells S.files S.count (V.verifies verifier) store life
        (notes_of result.2.items) result.0 }
    ensures verifier { result.1 ≡ verifier }
{
    let Life { cores, schedule } = life;
    let vault = Vault::new(alloc, store);
    let mut world = World::new(alloc, vault, verifier, cores);
    world.run(schedule);
    let (cores, vault, verifier) = world.into_parts();
    drop(cores);
    let (store, journal) = vault.into_parts();
    (store, verifier, journal)
}

/// Runs one life after another on one store, each with a new vault. It gives the store and the journals, a journal a life; where there is no
/// memory for these it gives the store back, before the first life.
pub fn run_lives<S: Store + Drop, V: Verify + Drop>(
    alloc: Global,
    store: S,
    verifier: V,
    lives: Vec<Life>,
) -> Result<(S, Vec<Vec<Entry>>), (AllocError, S)>
    ensures lives { IfOk result (λ r. Lives S.tells S.files S.count (V.verifies verifier) store
        lives.items (journals_of r.1.items) r.0) }
    ensures store { IfErr result (λ e. e.1 ≡ store) }
{
    let mut journals = Vec::new(alloc);
    if let Err(error) = journals.reserve(lives.len()) {
        return Err((error, store));
    }
    let mut store = store;
    let mut verifier = verifier;
    for life in lives {
        let (after, same, journal) = live(alloc, store, verifier, life);
        store = after;
        verifier = same;
        journals.push_reserved(journal);
    }
    Ok((store, journals))
}
