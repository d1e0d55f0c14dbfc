//! Laws over whole updates.

ghost use Rattle.std.specs.Prelude.{◌≡◌, List, Ok, false};
ghost use Rattle.tough_keys.specs.Same.{Verifies};
ghost use Rattle.tough_trust.specs.Requests.{RequestDoc};
ghost use Rattle.tough_update.specs.Stages.{LoadedDoc, CoreDoc, Done};
ghost use Rattle.tough_update.specs.Answered.{AnswerDoc};
ghost use Rattle.tough_update.specs.Questions.{Fetch};
ghost use Rattle.tough_update.specs.Machine.{question};
ghost use Rattle.tough_update.specs.Loadable.{Files, AllHonest, Loadable, IsLoaded};
ghost use Rattle.tough_update.specs.Runs.{run, Along, IsFresh, Loaded};
ghost use Rattle.tough_update.specs.Asking.{AsksFile, AsksFew};
ghost use Rattle.tough_update.specs.Tops.{AsksNoRole};
ghost use Rattle.tough_update.specs.declared.counts.Counts.{Counts};
ghost use Rattle.tough_update.specs.Counted.{Counted, FetchesFew, KeepsFew, KeepsAll};

/// An update that succeeds gives documents that are trusted, whatever was answered.
pub fn trusts()
    ensures { (verifies : Verifies) (c : CoreDoc) (answers : List AnswerDoc) (l : LoadedDoc)
        → IsFresh c → Along verifies c answers → (run verifies c answers).stage ≡ Done (Ok l)
        → Loaded verifies c answers l }
{}

/// Documents that are served, that fit, are signed and unexpired, and that vouch for one another, are loaded as a whole, those of delegated roles
/// included, where each role has one and no two have one name: a transport that serves them, a clock, and a store that held nothing, give an
/// update eleven answers and at most two for each delegated role, and then it has ended with them.
pub fn loads()
    ensures { (verifies : Verifies) (c : CoreDoc) (files : Files) (l : LoadedDoc)
        (answers : List AnswerDoc) → IsFresh c → Loadable verifies files c.setting l
        → AllHonest verifies files l.known.start c answers → IsLoaded verifies c answers l }
{}

/// Each file that is asked for is one of five: the root after one that ends a chain, the timestamp, the snapshot that the accepted timestamp
/// lists, the targets or a delegated role's document that the accepted snapshot lists; its length and digests are bounded by the limits or
/// that entry.
pub fn asks()
    ensures { (verifies : Verifies) (c : CoreDoc) (answers : List AnswerDoc) (r : RequestDoc)
        → IsFresh c → question (run verifies c answers) ≡ Fetch r → AsksFile verifies c answers r }
{}

/// An update that loads the top-level documents alone asks for no document of a delegated role, stores none, and ends with a tree that has none.
pub fn tops_ask_no_role()
    ensures { (verifies : Verifies) (c : CoreDoc) (answers : List AnswerDoc)
        → IsFresh c → c.setting.whole ≡ false → AsksNoRole (run verifies c answers).stage }
{}

/// In any run, at most as many roots are asked for as the limit allows, one after another from the one after the root that the walk began
/// with, then at most three files, and then documents of delegated roles.
pub fn asks_few()
    ensures { (verifies : Verifies) (c : CoreDoc) (answers : List AnswerDoc) → IsFresh c
        → AsksFew verifies c answers }
{}

/// Whatever was answered, and also where the update failed: at most as many roots were fetched as the limit allows, and at most as many
/// documents of delegated roles as the targets and the documents that are kept list roles; at most as many documents are kept as the accepted
/// snapshot lists names. Of an update that succeeded the counts are those of its tree.
pub fn counts_few()
    ensures fetches { (verifies : Verifies) (c : CoreDoc) (n : Counts)
        → Counted verifies c n → FetchesFew c.setting.limits n }
    ensures keeps { (verifies : Verifies) (c : CoreDoc) (n : Counts)
        (update : Counted verifies c n) → KeepsFew update }
    ensures loaded { (verifies : Verifies) (c : CoreDoc) (n : Counts) (l : LoadedDoc)
        → Counted verifies c n → c.stage ≡ Done (Ok l) → KeepsAll l n }
{}

/// How many laws this file states.
pub const LAWS: usize = 6;
