//! One thread's part of a shared store.

ghost use Rattle.std.specs.Prelude.{◌≡◌, ◌+◌, ◌≤◌, length};
ghost use Rattle.tough_shared.specs.Lines.{begun_in, told};
ghost use Rattle.tough_shared.specs.Stores.{begun_of as handed_in, quiet_begun};

use crate::front::{Front, Naming};
use crate::receipt::Receipt;
use crate::shared_store::{Quiet, SharedStore};
use crate::spare::Tally;
use std::alloc::Global;
use std::sync::Wait;
use std::sync::ledger::Share;
use tough_keys::Verify;
use tough_roles::{Root, Signed};
use tough_trust::{Act, Keeper};
use tough_vault::{StepError, Store};

/// A clone of a shared store, with the runtime to wait on, the count of what it made, and what ties its last receipt. The numbers of its
/// receipts rise.
#[derive(Drop)]
pub struct SharedKeeper<S: Store, R: Wait, J: Naming> {
    store: Quiet<S, J>,
    rt: R,
    // How many entries it made: nothing else of it can make one.
    own: Share<Tally<J>>,
    // The number of the last receipt, and one.
    next: u64,
    front: Front<J>,
    ghost part: { own.parts ≡ 1 },
    ghost behind: { next + 1 ≤ length (told front.seen.log) },
    ghost begun: { quiet_begun store ≡ begun_in (told front.seen.log) },
}

impl<S: Store + Drop, R: Wait + Drop, J: Naming> SharedKeeper<S, R, J> {
    ghost use Rattle.tough_shared.specs.Keeping.{next_of, begun_of, made_by};

    /// A keeper that has given no receipt yet, and made no entry.
    pub fn new(rt: R, store: SharedStore<S, J>) -> SharedKeeper<S, R, J>
        ensures next { next_of result ≡ 0 }
        ensures made { made_by result ≡ 0 }
        ensures begun { begun_of result ≡ handed_in store }
    {
        let own = store.part(&rt);
        let store = store.into_quiet();
        let front = store.start();
        SharedKeeper {
            store,
            rt,
            own,
            next: 0,
            front,
        }
    }

    /// The store.
    pub fn into_store(self) -> SharedStore<S, J>
        ensures { handed_in result ≡ begun_of self }
    {
        let SharedKeeper {
            store,
            rt: _,
            own: _,
            next: _,
            front: _,
        } = self;
        store.into_store()
    }
}

impl<S: Store + Drop, R: Wait + Drop, J: Naming> Keeper for SharedKeeper<S, R, J> {
    ghost use Rattle.tough_shared.specs.Checking.{shared_checks};
    ghost use Rattle.tough_shared.specs.Keeping.{begun_of, shared_keeps, shared_reads};
    ghost use Rattle.tough_vault.proofs.lemmas.Vouching.{look-vouches};

    type Receipt = Receipt<J>;

    ghost keeps = { shared_keeps S.tells S.files S.count };

    ghost reads = { shared_reads S.tells S.files S.count };

    ghost checks = { λ verifies old act result new h. shared_checks S.tells S.files S.count S.changes
        (begun_of old) verifies act result h.0 };

    ghost vouches = { λ verifies old first result new h. look-vouches S.tells S.files S.count
        verifies first h.0.old h.0.new result h.0.look };

    fn read_root<V: Verify>(
        &mut self,
        first: u64,
        verifier: &V,
    ) -> Result<Option<Signed<Root>>, StepError> {
        let SharedKeeper {
            store,
            rt,
            own: _,
            next: _,
            front,
        } = self;
        store.read_root(rt, front, first, verifier)
    }

    fn take<V: Verify>(
        &mut self,
        alloc: Global,
        act: &Act<'_>,
        verifier: &V,
    ) -> Result<Receipt<J>, StepError> {
        let SharedKeeper {
            store,
            rt,
            own,
            next,
            front,
        } = self;
        match store.take(rt, own, front, alloc, act, verifier) {
            Ok(receipt) => {
                *next = receipt.next();
                Ok(receipt)
            }
            Err(error) => Err(error),
        }
    }
}
