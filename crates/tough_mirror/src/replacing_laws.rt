//! A folder in which files are replaced, and what a load of it is served.

ghost use Rattle.std.specs.Prelude.{◌≡◌, ℕ, ℤ, List, [], ◌∷◌, ◌++◌, true, Result, Ok};
ghost use Rattle.url.specs.Parts.{Parts};
ghost use Rattle.tough_files.specs.Contents.{Contents};
ghost use Rattle.tough_keys.specs.Same.{Verifies};
ghost use Rattle.tough_update.specs.Loadable.{Files};
ghost use Rattle.tough_update.specs.Stages.{CoreDoc, LoadedDoc};
ghost use Rattle.tough_honest.specs.Loads.{ServesAll, Lent, BeganAt};
ghost use Rattle.tough_honest.specs.Serves.{ServesName};
ghost use Rattle.tough_write.specs.Filling.{ReadsBack};
ghost use Rattle.tough_write.specs.Replacing.{AreReplaced, FileDoc, StopsAmong};
ghost use Rattle.tough_write.specs.declared.replace.ReplaceError.{ReplaceError};
ghost use Rattle.tough_mirror.specs.Folder.{files_in, IsFree};
ghost use Rattle.tough_mirror.specs.Replacing.{VersionStands};
ghost use Rattle.tough_sign.specs.Making.{SignWell};
ghost use Rattle.tough_trust.specs.Failure.{Failure};
ghost use Rattle.tough_trust.specs.Vaults.{vault_keeps, vault_reads};
ghost use Rattle.tough_vault.specs.Vault.{parts_of};
ghost use Rattle.tough_vault.specs.declared.entry.Receipt.{Receipt};
ghost use Rattle.tough_load.specs.Loader.{IsBegun, first_core, settings_of, transport_of, verifier_of, clock_of, keeper_of};
ghost use Rattle.tough_load.specs.Advancing.{Finishes};
ghost use Rattle.tough_load.specs.Words as part;
ghost use Rattle.tough_load.specs.declared.load.Load.{Load};
ghost use Rattle.tough_load.specs.declared.loader.RepositoryLoader.{RepositoryLoader as Loader};
ghost use Rattle.tough_honest.specs.Fresh.{Untouched, IsFineOutcome};
ghost use Rattle.tough_release.specs.Edits.{ReleaseDoc};
ghost use Rattle.tough_release.specs.Release.{IsReleased};
ghost use Rattle.tough_release.specs.declared.repository.SignedRepository.{SignedRepository};
ghost use Rattle.tough_round.specs.Files.{loaded_of};
ghost use Rattle.tough_round.specs.Loading.{MayLoad};
ghost use Rattle.tough_write.specs.Ordering.{replaced_files};

use crate::laws::files_are_the_same;
use tough_keys::Sign;
use tough_load::{Clock, Store};
use tough_net::Transport;
use tough_roles::Verify;

/// Where replacing files stops before the last of them, which is the timestamp, a transport over the folder serves the version before: all
/// files that an update of it asks for, which stood in the folder, and none of which the other new files replace. By `honest_loads` that
/// version is then loaded (TUF specification 1.0, section 6.2).
pub fn stopped_serves<T: Transport>()
    ensures { (verifies : Verifies) (t : T) (base : Parts) (c : CoreDoc) (files : Files) (now : ℤ)
        (folder : List ℕ) (others : List FileDoc) (last : FileDoc) (e : ReplaceError)
        (before after : Contents) → StopsAmong folder (others ++ (last ∷ [])) e before after
        → VersionStands verifies c files now folder others before
        → ((name : List ℕ) → ServesName T.refuses T.serves t base name (files_in folder after name))
        → ServesAll T.refuses T.serves verifies base t c files now }
{
    tough_write::replace::laws::stopped_keeps();
}

/// Once files were replaced in a folder, each holds exactly its bytes; of two of one name it is the later one. A file at any other path holds
/// what it held.
pub fn replaced_reads_back()
    ensures { (folder : List ℕ) (files : List FileDoc) (before after : Contents)
        → AreReplaced folder files before after → ReadsBack folder files before after }
{}

/// What was signed, and whose files took the places of those of the version before as `replace_repository` does where it answers `Ok`, is loaded
/// equal: as `written_loads` has it (TUF specification 1.0, section 5).
pub fn replaced_loads<T: Transport, V: Verify + Drop, C: Clock + Drop, D: Store, S: Sign>()
    ensures { (loader : Loader T V C (Lent D.tells D.files D.count D.removals D.changes))
        (load ended : Load T (Lent D.tells D.files D.count D.removals D.changes) C V T.Stream
        Receipt) (signers : List S) (e : ReleaseDoc) (r : SignedRepository) (outdir : List ℕ)
        (before after : Contents) (outcome : Result LoadedDoc Failure)
        → IsReleased S.key S.signs signers e r
        → SignWell (V.verifies (verifier_of loader)) S.key S.signs signers
        → AreReplaced outdir (replaced_files r) before after
        → IsBegun loader load → D.tells ≡ true
        → Untouched D.files 0 (parts_of (keeper_of loader).now)
        → Finishes T.refuses T.serves (vault_keeps D.tells D.files D.count) (vault_reads D.tells
        D.files D.count) C.may_give T.Stream.yields V.verifies load outcome ended
        → IsFineOutcome outcome
        → BeganAt C.may_give (clock_of loader) (λ now. MayLoad
        (V.verifies (verifier_of loader)) (first_core (settings_of loader)).setting now e r
        → IsFree (V.verifies (verifier_of loader)) (first_core (settings_of loader)) outdir r
        now before
        → ServesAll T.refuses T.serves (V.verifies (verifier_of loader)) (part.base_of load)
        (transport_of loader) (first_core (settings_of loader)) (files_in outdir after) now
        → outcome ≡ Ok (loaded_of (first_core (settings_of loader)).setting now r)) }
{
    tough_round::laws::released_loads::<T, V, C, D, S>();
    tough_round::laws::released_is_found::<S>();
    tough_update::laws::asks();
    files_are_the_same();
    replaced_reads_back();
}
