//! A load of files that are served.

ghost use Rattle.std.specs.Prelude.{◌≡◌, true, Result, Ok};
ghost use Rattle.tough_trust.specs.Failure.{Failure};
ghost use Rattle.tough_trust.specs.Vaults.{vault_keeps, vault_reads};
ghost use Rattle.tough_vault.specs.Vault.{parts_of};
ghost use Rattle.tough_vault.specs.declared.entry.Receipt.{Receipt};
ghost use Rattle.tough_update.specs.Stages.{LoadedDoc};
ghost use Rattle.tough_update.specs.Loadable.{Files};
ghost use Rattle.tough_load.specs.Loader.{IsBegun, first_core, settings_of, transport_of, verifier_of, clock_of, keeper_of};
ghost use Rattle.tough_load.specs.Advancing.{Finishes};
ghost use Rattle.tough_load.specs.Words as part;
ghost use Rattle.tough_load.specs.declared.load.Load.{Load};
ghost use Rattle.tough_load.specs.declared.loader.RepositoryLoader.{RepositoryLoader as Loader};
ghost use Rattle.tough_honest.specs.Fresh.{Untouched, IsFineOutcome};
ghost use Rattle.tough_honest.specs.Loads.{Lent, LoadsAt, BeganAt};

use tough_load::{Clock, Store};
use tough_net::Transport;
use tough_roles::Verify;

/// Files that are loadable load. The load is one that a loader made: over a transport that serves the files that an update asks for which is
/// answered honestly, and refuses what isn't there, as `MemoryTransport` does; by a lent vault over a store that tells its files and held
/// none of a time, a root, a timestamp or a snapshot; by any clock. Where it ends, and the files were loadable at the moment that the clock showed
/// when it began, its outcome is the documents that they serve, unless it tells that the store's device failed or that a request for memory was
/// refused (TUF specification 5).
pub fn honest_loads<T: Transport, V: Verify + Drop, C: Clock + Drop, S: Store>()
    ensures { (loader : Loader T V C (Lent S.tells S.files S.count S.removals S.changes))
        (load ended : Load T (Lent S.tells S.files S.count S.removals S.changes) C V T.Stream
        Receipt) (files : Files) (outcome : Result LoadedDoc Failure)
        → IsBegun loader load → S.tells ≡ true
        → Untouched S.files 0 (parts_of (keeper_of loader).now)
        → Finishes T.refuses T.serves (vault_keeps S.tells S.files S.count) (vault_reads S.tells
        S.files S.count) C.may_give T.Stream.yields V.verifies load outcome ended
        → IsFineOutcome outcome → BeganAt C.may_give (clock_of loader) (λ now. (l : LoadedDoc)
        → LoadsAt T.refuses T.serves (V.verifies (verifier_of loader)) (part.base_of load)
        (transport_of loader) (first_core (settings_of loader)) files now l → outcome ≡ Ok l) }
{
    tough_update::laws::loads();
}
