//! What the receipts of a load promise together.

ghost use Rattle.std.specs.Prelude.{Ok, Result};
ghost use Rattle.std.specs.Borrow.{MutBor};
ghost use Rattle.tough_keys.specs.Same.{Verifies};
ghost use Rattle.tough_vault.specs.declared.entry.Receipt.{Receipt as Plain};
ghost use Rattle.tough_vault.specs.declared.vault.Vault.{Vault};
ghost use Rattle.tough_vault.specs.Act.{Act};
ghost use Rattle.tough_vault.specs.Journal.{number_of};
ghost use Rattle.tough_trust.specs.Failure.{Failure};
ghost use Rattle.tough_trust.specs.Steps.{Keeping, TakesStep};
ghost use Rattle.tough_trust.specs.Vaults.{vault_keeps, vault_reads};
ghost use Rattle.tough_load.specs.declared.load.Load.{Load};
ghost use Rattle.tough_load.specs.Advancing.{Finishes};
ghost use Rattle.tough_load.specs.Loader.{IsBegun};
ghost use Rattle.tough_load.specs.Words as load;
ghost use Rattle.tough_client.specs.Opening.{Opens};
ghost use Rattle.tough_client.specs.Repositories as repository;
ghost use Rattle.tough_shared.specs.declared.keeper.SharedKeeper.{SharedKeeper};
ghost use Rattle.tough_shared.specs.declared.receipt.Receipt.{Receipt};
ghost use Rattle.tough_shared.specs.Keeping.{next_of, shared_keeps, shared_reads};
ghost use Rattle.tough_rising.specs.Rising.{RiseBelow, entries_in, tied_number};

use std::sync::Wait;
use tough_load::Clock;
use tough_net::Transport;
use tough_roles::Verify;
use tough_shared::{Naming, Store};

/// The receipts of a load by a lent vault: each one's number is greater than the one before it, and the journal's length is greater than all
/// of them. So it is of a load that a loader made and that has ended, however it ended; of the repository that it gave; and, where it was so
/// before, after each further step, as those by which a repository notes the time.
pub fn vault_receipts_rise<T: Transport, V: Verify + Drop, C: Clock + Drop, S: Store>()
    ensures load { (l new : Load T (MutBor (Vault S (record {
      tells = S.tells;
      files = S.files;
      count = S.count;
      removals = S.removals;
      changes = S.changes;
    }))) C V T.Stream Plain)
        (from : _) (r : _) → IsBegun from l
        → Finishes T.refuses T.serves (vault_keeps S.tells S.files S.count) (vault_reads S.tells
        S.files S.count) C.may_give T.Stream.yields V.verifies l r new
        → RiseBelow number_of (entries_in (load.keeper_of new)) (load.receipts_of new) }
    ensures repository { (l : Load T (MutBor (Vault S (record {
      tells = S.tells;
      files = S.files;
      count = S.count;
      removals = S.removals;
      changes = S.changes;
    }))) C V T.Stream Plain)
        (from : _) (r : _) → IsBegun from l
        → Opens T.refuses T.serves (vault_keeps S.tells S.files S.count) (vault_reads S.tells
        S.files S.count) C.may_give T.Stream.yields V.verifies l (Ok r)
        → RiseBelow number_of (entries_in (repository.keeper_of r)) (repository.receipts_of r) }
    ensures steps { (k new : Keeping (MutBor (Vault S (record {
      tells = S.tells;
      files = S.files;
      count = S.count;
      removals = S.removals;
      changes = S.changes;
    }))) Plain)
        (verifies : Verifies) (act : Act) (answer : Result Unit Failure)
        → TakesStep (vault_keeps S.tells S.files S.count) verifies act k answer new
        → RiseBelow number_of (entries_in k.keeper) k.receipts
        → RiseBelow number_of (entries_in new.keeper) new.receipts }
{}

/// The receipts of a load by a shared store: each one's number is greater than the one before it, and a later step of this keeper has a number
/// that is greater than all of them. So it is of a load that a loader made and that has ended, however it ended; of the repository that it
/// gave; and, where it was so before, after each further step.
pub fn shared_receipts_rise<T, V, C, S, R, J>()
where
    T: Transport,
    V: Verify + Drop,
    C: Clock + Drop,
    S: Store,
    R: Wait,
    J: Naming,
    ensures load { (l new : Load T (SharedKeeper S R J (record {
      tells = S.tells;
      files = S.files;
      count = S.count;
      removals = S.removals;
      changes = S.changes;
    }) (record { book = J.book })) C V T.Stream (Receipt J (record { book = J.book })))
        (from : _) (r : _) → IsBegun from l
        → Finishes T.refuses T.serves (shared_keeps S.tells S.files S.count) (shared_reads S.tells
        S.files S.count) C.may_give T.Stream.yields V.verifies l r new
        → RiseBelow tied_number (next_of (load.keeper_of new)) (load.receipts_of new) }
    ensures repository { (l : Load T (SharedKeeper S R J (record {
      tells = S.tells;
      files = S.files;
      count = S.count;
      removals = S.removals;
      changes = S.changes;
    }) (record { book = J.book })) C V T.Stream (Receipt J (record { book = J.book })))
        (from : _) (r : _) → IsBegun from l
        → Opens T.refuses T.serves (shared_keeps S.tells S.files S.count) (shared_reads S.tells
        S.files S.count) C.may_give T.Stream.yields V.verifies l (Ok r)
        → RiseBelow tied_number (next_of (repository.keeper_of r)) (repository.receipts_of r) }
    ensures steps { (k new : Keeping (SharedKeeper S R J (record {
      tells = S.tells;
      files = S.files;
      count = S.count;
      removals = S.removals;
      changes = S.changes;
    }) (record { book = J.book })) (Receipt J (record { book = J.book })))
        (verifies : Verifies) (act : Act) (answer : Result Unit Failure)
        → TakesStep (shared_keeps S.tells S.files S.count) verifies act k answer new
        → RiseBelow tied_number (next_of k.keeper) k.receipts
        → RiseBelow tied_number (next_of new.keeper) new.receipts }
{}

/// How many laws this file states.
pub const LAWS: usize = 2;
