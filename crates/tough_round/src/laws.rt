//! A signed repository, and a load of its files.

ghost use Rattle.std.specs.Prelude.{◌≡◌, ℤ, List, Some, true, Result, Ok};
ghost use Rattle.std.specs.List.{AllByRecursion};
ghost use Rattle.tough_keys.specs.Same.{Verifies};
ghost use Rattle.tough_sign.specs.Making.{SignWell};
ghost use Rattle.tough_trust.specs.Failure.{Failure};
ghost use Rattle.tough_trust.specs.Vaults.{vault_keeps, vault_reads};
ghost use Rattle.tough_vault.specs.Vault.{parts_of};
ghost use Rattle.tough_vault.specs.declared.entry.Receipt.{Receipt};
ghost use Rattle.tough_update.specs.Loadable.{Loadable};
ghost use Rattle.tough_update.specs.Stages.{SettingDoc, LoadedDoc};
ghost use Rattle.tough_load.specs.Loader.{IsBegun, first_core, settings_of, transport_of, verifier_of, clock_of, keeper_of};
ghost use Rattle.tough_load.specs.Advancing.{Finishes};
ghost use Rattle.tough_load.specs.Words as part;
ghost use Rattle.tough_load.specs.declared.load.Load.{Load};
ghost use Rattle.tough_load.specs.declared.loader.RepositoryLoader.{RepositoryLoader as Loader};
ghost use Rattle.tough_honest.specs.Fresh.{Untouched, IsFineOutcome};
ghost use Rattle.tough_honest.specs.Loads.{Lent, ServesAll, BeganAt};
ghost use Rattle.tough_release.specs.Edits.{ReleaseDoc};
ghost use Rattle.tough_release.specs.Release.{IsReleased};
ghost use Rattle.tough_release.specs.declared.repository.SignedRepository.{SignedRepository};
ghost use Rattle.tough_round.specs.Files.{written, files_of, loaded_of};
ghost use Rattle.tough_round.specs.Loading.{MayLoad};

use tough_keys::Sign;
use tough_load::{Clock, Store};
use tough_net::Transport;
use tough_roles::{Snapshot, Timestamp, Verify};
use tough_schema::DelegatedTargets;

/// The files of a repository that `RepositoryEdits::sign` made, under the names that a client asks for, are loadable: by signers whose
/// signatures verify, where the documents that were taken over are signed, nothing has expired, and what `MayLoad` names besides (TUF
/// specification 1.0, section 5).
pub fn released_is_loadable<S: Sign>()
    ensures { (verifies : Verifies) (s : SettingDoc) (start : ℤ) (signers : List S)
        (e : ReleaseDoc) (r : SignedRepository) → SignWell verifies S.key S.signs signers
        → IsReleased S.key S.signs signers e r → MayLoad verifies s start e r
        → Loadable verifies (files_of r) s (loaded_of s start r) }
{
    tough_names::encodes_apart();
    tough_signed::laws::signed_reaches::<Snapshot, S>();
    tough_signed::laws::signed_reaches::<Timestamp, S>();
    tough_signed::laws::signed_reaches::<DelegatedTargets, S>();
}

/// Each file of a repository that `RepositoryEdits::sign` made is found under its name, where `MayLoad` holds: no two
/// have one name and different bytes.
pub fn released_is_found<S: Sign>()
    ensures { (verifies : Verifies) (s : SettingDoc) (start : ℤ) (signers : List S)
        (e : ReleaseDoc) (r : SignedRepository) → IsReleased S.key S.signs signers e r
        → MayLoad verifies s start e r
        → AllByRecursion (λ f. files_of r f.0 ≡ Some f.1) (written r) }
{
    tough_names::encodes_apart();
}

/// What was signed is loaded equal: root, timestamp, snapshot, and the targets with the documents of all delegated roles. The load is one
/// that a loader made, as `honest_loads` has it: over a transport that serves the repository's files under their names, by a lent vault over
/// a store that held nothing. Where it ends, and it began before all expiries by its clock, that is its outcome, unless it tells that the
/// store's device failed or that a request for memory was refused (TUF specification 1.0, section 5).
pub fn released_loads<T: Transport, V: Verify + Drop, C: Clock + Drop, D: Store, S: Sign>()
    ensures { (loader : Loader T V C (Lent D.tells D.files D.count D.removals D.changes))
        (load ended : Load T (Lent D.tells D.files D.count D.removals D.changes) C V T.Stream
        Receipt) (signers : List S) (e : ReleaseDoc) (r : SignedRepository)
        (outcome : Result LoadedDoc Failure)
        → IsBegun loader load → D.tells ≡ true
        → Untouched D.files 0 (parts_of (keeper_of loader).now)
        → SignWell (V.verifies (verifier_of loader)) S.key S.signs signers
        → IsReleased S.key S.signs signers e r
        → Finishes T.refuses T.serves (vault_keeps D.tells D.files D.count) (vault_reads D.tells
        D.files D.count) C.may_give T.Stream.yields V.verifies load outcome ended
        → IsFineOutcome outcome
        → BeganAt C.may_give (clock_of loader) (λ now. MayLoad
        (V.verifies (verifier_of loader)) (first_core (settings_of loader)).setting now e r
        → ServesAll T.refuses T.serves (V.verifies (verifier_of loader)) (part.base_of load)
        (transport_of loader) (first_core (settings_of loader)) (files_of r) now
        → outcome ≡ Ok (loaded_of (first_core (settings_of loader)).setting now r)) }
{
    tough_honest::laws::honest_loads::<T, V, C, D>();
    released_is_loadable::<S>();
}
