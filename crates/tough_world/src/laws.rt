//! Laws over steps and lives.

ghost use Rattle.std.specs.Prelude.{◌≡◌, List, ◌++◌, Option, None, Some, true, false};
ghost use Rattle.tough_keys.specs.Same.{Verifies};
ghost use Rattle.tough_roles.specs.Policy.{Policy};
ghost use Rattle.tough_roles.specs.Root.{RootDoc};
ghost use Rattle.tough_roles.specs.Signature.{SignedDoc};
ghost use Rattle.tough_checks.specs.Files.{root_file};
ghost use Rattle.tough_checks.specs.StoredDocuments.{stored_root};
ghost use Rattle.tough_vault.specs.Journal.{Note, has_broken, has_cleared, NothingGoesBack, RootsRise};
ghost use Rattle.tough_world.specs.Lives.{joined, BeginFresh, Lives, TakenIn, IsChained, OnePolicy, GoesOn};
ghost use Rattle.tough_world.specs.Steps.{Taken, all_notes, AllUnder, AllProper, AllRead, Trail};
ghost use Rattle.tough_world.specs.declared.lives.Life.{Life};

use tough_vault::Store;

/// Steps of any vaults on one store, whatever its files held before. Where the store tells its files, no write failed, nothing was cleared,
/// and the roots that came with timestamps and snapshots ask one policy of each, no accepted document is older than one accepted before
/// it, and noted times don't fall.
pub fn steps_go_on<S: Store>()
    ensures { (v : Verifies) (xs : List Taken) (old new : S) (P Q : Option Policy)
        → Trail S.tells S.files S.count v old xs new → AllProper xs → AllUnder P Q xs
        → S.tells ≡ true → has_broken (all_notes xs) ≡ false → has_cleared (all_notes xs) ≡ false
        → NothingGoesBack (all_notes xs) }
{}

/// Any section of such steps: where no write failed in it, nothing was cleared in it, and the roots that came with its timestamps and
/// snapshots ask one policy of each, nothing goes back in it. Accepted roots may ask other policies before it and behind it.
pub fn sections_go_on<S: Store>()
    ensures { (v : Verifies) (xs ys zs : List Taken) (old new : S) (P Q : Option Policy)
        → Trail S.tells S.files S.count v old (xs ++ (ys ++ zs)) new → AllProper ys
        → AllUnder P Q ys → S.tells ≡ true → has_broken (all_notes ys) ≡ false
        → has_cleared (all_notes ys) ≡ false → NothingGoesBack (all_notes ys) }
{}

/// Steps of any vaults on one store, with roots that were read from bytes. Where the store tells its files and no write failed, no
/// accepted root is older than one accepted before it, whatever policies they ask (TUF specification 5.3).
pub fn roots_rise<S: Store>()
    ensures { (v : Verifies) (xs : List Taken) (old new : S)
        → Trail S.tells S.files S.count v old xs new → AllProper xs → AllRead xs → S.tells ≡ true
        → has_broken (all_notes xs) ≡ false → RootsRise (all_notes xs) }
{}

/// Lives on one store: where the store tells its files, no write failed, and all roots that were handed in, accepted or stored ask one policy of
/// timestamps and one of snapshots, nothing is cleared, no accepted document is older than one accepted before it in any life, noted times
/// don't fall, and the checks against a vault's tip refuse nothing that the checks against the stored files let through.
pub fn lives_go_on<S: Store>()
    ensures { (v : Verifies) (lives : List Life) (journals : List (List Note)) (old new : S)
        (lived : Lives S.tells S.files S.count v old lives journals new) (P Q : Option Policy)
        → BeginFresh lives
        → OnePolicy S.tells S.files S.count v P Q lives journals old new lived
        → S.tells ≡ true → has_broken (joined journals) ≡ false
        → GoesOn S.tells S.files S.count v P Q lives journals old new lived }
{}

/// Lives on one store are steps on it, one after another: the steps that their updates asked for, with the entries of all journals. So
/// `sections_go_on` and `roots_rise` speak of lives, too.
pub fn lives_take_steps<S: Store>()
    ensures { (v : Verifies) (lives : List Life) (journals : List (List Note)) (old new : S)
        (lived : Lives S.tells S.files S.count v old lives journals new) → BeginFresh lives
        → TakenIn S.tells S.files S.count v lives journals old new lived }
{}

/// Over all journals of such lives no accepted root is older than one accepted before it, where the store tells its files and no write
/// failed, whatever policies the roots ask (TUF specification 5.3).
pub fn lives_raise_roots<S: Store>()
    ensures { (v : Verifies) (lives : List Life) (journals : List (List Note)) (old new : S)
        (lived : Lives S.tells S.files S.count v old lives journals new) → BeginFresh lives
        → S.tells ≡ true → has_broken (joined journals) ≡ false → RootsRise (joined journals) }
{}

/// A root that such lives left stored, where it verifies itself, ends a chain of roots: it begins with one that was handed in to an update
/// of these lives, and each other one was accepted after the one before it (TUF specification 5.3). The store held no root before, tells its
/// files, and no write failed.
pub fn stored_is_chained<S: Store>()
    ensures { (v : Verifies) (lives : List Life) (journals : List (List Note)) (old new : S)
        (lived : Lives S.tells S.files S.count v old lives journals new) → BeginFresh lives
        → S.tells ≡ true → has_broken (joined journals) ≡ false → S.files old root_file ≡ None
        → (r : SignedDoc RootDoc) → stored_root v (S.files new root_file) ≡ Some r
        → IsChained v lives r }
{}
