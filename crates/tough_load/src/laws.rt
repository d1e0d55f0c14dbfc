//! What a load that succeeds promises.

ghost use Rattle.std.specs.Prelude.{◌≡◌, ◌++◌, List, Ok, Result};
ghost use Rattle.url.specs.Parts.{Parts};
ghost use Rattle.tough_keys.specs.Same.{Verifies};
ghost use Rattle.tough_vault.specs.Act.{NoteTime};
ghost use Rattle.tough_trust.specs.Steps.{Keeping};
ghost use Rattle.tough_trust.specs.Failure.{Failure};
ghost use Rattle.tough_update.specs.Stages.{LoadedDoc, CoreDoc};
ghost use Rattle.tough_update.specs.View.{core_doc, counts_of};
ghost use Rattle.tough_load.specs.declared.loader.RepositoryLoader.{RepositoryLoader as Loader};
ghost use Rattle.tough_load.specs.declared.load.Load.{Load};
ghost use Rattle.tough_load.specs.Loader.{IsBegun, first_core, settings_of, transport_of, verifier_of, held_of};
ghost use Rattle.tough_load.specs.Loading.{Held, Deed, Ends, Trail, received};
ghost use Rattle.tough_load.specs.Vouching.{Vouches, HasStepped};
ghost use Rattle.tough_load.specs.Advancing.{Finishes};
ghost use Rattle.tough_load.specs.Counting.{CountsFew};
ghost use Rattle.tough_load.specs.Words as part;

use tough_net::Transport;
use tough_roles::Verify;
use tough_trust::Keeper;
use tough_update::laws;
use tough_vault::Clock;

/// A load that a loader made, and that succeeds, gives documents that are trusted: a chain of roots from the bytes that were handed in ends
/// in its root, under which timestamp, snapshot and targets reach their thresholds; each names the next; under `Safe` none of them had
/// expired when the load noted the time; and the root after the last one was asked for. Its machine and its keeper are as these answers leave
/// them, with the receipts of its steps in their order; and the moment is one that its clock may give. For every verifier, transport, clock
/// and keeper (TUF specification 5).
pub fn loads_are_trusted<T: Transport, V: Verify + Drop, C: Clock + Drop, K: Keeper>()
    ensures { (from : Loader T V C K) (l : Load T K C V T.Stream K.Receipt) (d : LoadedDoc)
        (left : CoreDoc) (kept : Held K K.Receipt C) → IsBegun from l
        → Ends T.refuses T.serves K.keeps K.reads C.may_give T.Stream.yields (V.verifies
        (part.verifier_of
        l)) (part.base_of l) (part.transport_of l) (part.fetch_of l) (core_doc (part.core_of l))
        (part.held_of l) (Ok d) left kept
        → Vouches T.refuses T.serves K.keeps K.reads C.may_give T.Stream.yields (V.verifies
        (verifier_of from)) (part.base_of l) (transport_of from) (first_core (settings_of from))
        (held_of from) left kept d }
{}

/// A load that succeeds had its keeper note the moment that it began at: of the steps that led the keeper to what it is now, one noted it, and
/// succeeded, and its receipt stands among those of the load.
pub fn notes_the_time<T: Transport, V: Verify, C: Clock, K: Keeper>()
    ensures { (base : Parts) (t : T) (v : V) (c : CoreDoc) (k : Held K K.Receipt C)
        (left : CoreDoc) (kept : Held K K.Receipt C) (d : LoadedDoc)
        → Vouches T.refuses T.serves K.keeps K.reads C.may_give T.Stream.yields (V.verifies v) base
        t c k
        left kept d → HasStepped K.keeps K.reads (V.verifies v) k.keeping (NoteTime d.known.start)
        kept.keeping }
{}

/// The receipts that steps leave are those of the steps that succeeded, in their order, after those before them; looks at the stored root
/// leave none.
pub fn receipts_are_of_steps<K: Keeper>()
    ensures { (verifies : Verifies) (k : Keeping K K.Receipt)
        (steps : List (Deed K.Receipt)) (new : Keeping K K.Receipt)
        → Trail K.keeps K.reads verifies k steps new
        → new.receipts ≡ k.receipts ++ received steps }
{}

/// A load that a loader made, and that has ended, has fetched at most as many roots as its limit allows, and at most as many documents of
/// delegated roles as the targets and the documents that it keeps list roles; it keeps at most as many documents as the snapshot lists names,
/// whatever came. Where it succeeded, what it counts is its tree (TUF specification 5.3 and 5.6). `Load::core` has the counts.
pub fn loads_count_few<T: Transport, V: Verify + Drop, C: Clock + Drop, K: Keeper>()
    ensures { (from : Loader T V C K) (l new : Load T K C V T.Stream K.Receipt) (r : Result
        LoadedDoc Failure) → IsBegun from l
        → Finishes T.refuses T.serves K.keeps K.reads C.may_give T.Stream.yields V.verifies l r new
        → CountsFew (V.verifies (verifier_of from)) (settings_of from).limits r
        (counts_of (part.core_of new)) }
{
    laws::counts_few();
}

/// How many laws this file states.
pub const LAWS: usize = 4;
