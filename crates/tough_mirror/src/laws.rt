//! A repository that was written into a folder, and a load of that folder's files.

ghost use Rattle.std.specs.Prelude.{◌≡◌, ℕ, List, true, Result, Ok};
ghost use Rattle.tough_files.specs.Contents.{Contents};
ghost use Rattle.tough_sign.specs.Making.{SignWell};
ghost use Rattle.tough_signed.specs.Standing.{is_consistent};
ghost use Rattle.tough_trust.specs.Failure.{Failure};
ghost use Rattle.tough_trust.specs.Vaults.{vault_keeps, vault_reads};
ghost use Rattle.tough_vault.specs.Vault.{parts_of};
ghost use Rattle.tough_vault.specs.declared.entry.Receipt.{Receipt};
ghost use Rattle.tough_update.specs.Stages.{LoadedDoc};
ghost use Rattle.tough_load.specs.Loader.{IsBegun, first_core, settings_of, transport_of, verifier_of, clock_of, keeper_of};
ghost use Rattle.tough_load.specs.Advancing.{Finishes};
ghost use Rattle.tough_load.specs.Words as part;
ghost use Rattle.tough_load.specs.declared.load.Load.{Load};
ghost use Rattle.tough_load.specs.declared.loader.RepositoryLoader.{RepositoryLoader as Loader};
ghost use Rattle.tough_honest.specs.Fresh.{Untouched, IsFineOutcome};
ghost use Rattle.tough_honest.specs.Loads.{Lent, ServesAll, BeganAt};
ghost use Rattle.tough_release.specs.Edits.{ReleaseDoc};
ghost use Rattle.tough_release.specs.Release.{IsReleased};
ghost use Rattle.tough_release.specs.Repository.{delegated_of};
ghost use Rattle.tough_release.specs.declared.repository.SignedRepository.{SignedRepository};
ghost use Rattle.tough_round.specs.Files.{written, loaded_of};
ghost use Rattle.tough_round.specs.Loading.{MayLoad};
ghost use Rattle.tough_write.specs.Filling.{Fills};
ghost use Rattle.tough_write.specs.Writing.{repository_files};
ghost use Rattle.tough_mirror.specs.Folder.{IsFree, files_in};

use tough_keys::Sign;
use tough_load::{Clock, Store};
use tough_net::Transport;
use tough_roles::Verify;

/// The files that `WriteSigned::write` writes of a repository are those under whose names a client finds it, where it is told what the root
/// says of consistent snapshots (TUF specification 1.0, sections 3.1.2 and 6.2).
pub fn files_are_the_same()
    ensures { (r : SignedRepository)
        → repository_files (is_consistent (delegated_of r)) r ≡ written r }
{}

/// What was signed and written is loaded equal: root, timestamp, snapshot, and the targets with the documents of all delegated roles. The
/// repository is one that `RepositoryEdits::sign` made; its files were written into a folder as `WriteSigned::write` does where it answers
/// `Ok` and the files tell their contents; no link stood at the path of one of them, and nothing at that of another file that the update
/// asks for, which is the next root. The load is one that `released_loads` speaks of, over a transport that serves under each name what a
/// file of that name in the folder holds (TUF specification 1.0, section 5).
pub fn written_loads<T: Transport, V: Verify + Drop, C: Clock + Drop, D: Store, S: Sign>()
    ensures { (loader : Loader T V C (Lent D.tells D.files D.count D.removals D.changes))
        (load ended : Load T (Lent D.tells D.files D.count D.removals D.changes) C V T.Stream
        Receipt) (signers : List S) (e : ReleaseDoc) (r : SignedRepository) (outdir : List ℕ)
        (before after : Contents) (outcome : Result LoadedDoc Failure)
        → IsReleased S.key S.signs signers e r
        → SignWell (V.verifies (verifier_of loader)) S.key S.signs signers
        → Fills outdir (repository_files (is_consistent (delegated_of r)) r) before after
        → IsBegun loader load → D.tells ≡ true
        → Untouched D.files 0 (parts_of (keeper_of loader).now)
        → Finishes T.refuses T.serves (vault_keeps D.tells D.files D.count) (vault_reads D.tells
        D.files D.count) C.may_give T.Stream.yields V.verifies load outcome ended
        → IsFineOutcome outcome
        → BeganAt C.may_give (clock_of loader) (λ now. MayLoad
        (V.verifies (verifier_of loader)) (first_core (settings_of loader)).setting now e r
        → IsFree (V.verifies (verifier_of loader)) (first_core (settings_of loader)) outdir r
        now before
        → ServesAll T.refuses T.serves (V.verifies (verifier_of loader)) (part.base_of load)
        (transport_of loader) (first_core (settings_of loader)) (files_in outdir after) now
        → outcome ≡ Ok (loaded_of (first_core (settings_of loader)).setting now r)) }
{
    tough_round::laws::released_loads::<T, V, C, D, S>();
    tough_round::laws::released_is_found::<S>();
    tough_update::laws::asks();
    tough_write::laws::written_reads_back();
}
