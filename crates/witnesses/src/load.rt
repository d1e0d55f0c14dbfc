//! The laws of a load, over any devices on which it ends with documents.

ghost use Rattle.std.specs.Prelude.{◌≡◌, List, Ok, IfOk, false};
ghost use Rattle.url.specs.Parts.{Parts};
ghost use Rattle.tough_trust.specs.Steps.{Keeping};
ghost use Rattle.tough_trust.specs.Requests.{RequestDoc};
ghost use Rattle.tough_update.specs.Answered.{AnswerDoc};
ghost use Rattle.tough_update.specs.Counted.{Counted};
ghost use Rattle.tough_update.specs.Machine.{question};
ghost use Rattle.tough_update.specs.Questions.{Fetch};
ghost use Rattle.tough_update.specs.declared.counts.Counts.{Counts};
ghost use Rattle.tough_update.specs.Runs.{run, Along, IsFresh};
ghost use Rattle.tough_update.specs.Stages.{CoreDoc, LoadedDoc, Done};
ghost use Rattle.tough_update.specs.View.{core_doc};
ghost use Rattle.tough_load.specs.Advancing.{Finishes};
ghost use Rattle.tough_load.specs.Loader.{IsBegun, first_core, settings_of, transport_of, verifier_of, held_of};
ghost use Rattle.tough_load.specs.Loading.{Deed, Trail};
ghost use Rattle.tough_load.specs.Vouching.{Vouches};
ghost use Rattle.tough_load.specs.Words as part;
ghost use Rattle.tough_load.specs.declared.load.Load.{Load as LoadDoc};

use crate::Unmet;
use std::alloc::AllocGlobal;
use std::random::RandomSource;
use tough_load::{
    Clock, Core, ExpirationEnforcement, Extent, Keeper, Limits, Load, RepositoryLoader, drive,
};
use tough_net::Transport;
use tough_roles::Verify;

/// Witness of `tough_load::laws::loads_are_trusted`, `tough_load::laws::loads_count_few`, `tough_load::laws::notes_the_time`,
/// `tough_load::laws::receipts_are_of_steps`, `tough_update::laws::trusts`, `tough_update::laws::asks`, `tough_update::laws::asks_few`,
/// `tough_update::laws::counts_few`, `tough_rising::laws::vault_receipts_rise load` and `tough_rising::laws::shared_receipts_rise load`: the load that a loader makes, which is driven to its end, and ends with documents.
pub fn ended_load<R, T, V, C, K>(
    rt: &R,
    loader: RepositoryLoader<'_, T, V, C, K>,
) -> Result<Load<T, K, C, V>, Unmet>
where
    R: RandomSource + AllocGlobal,
    T: Transport,
    V: Verify + Drop,
    C: Clock + Drop,
    K: Keeper,
    ensures finishes { IfOk result
        (λ ended. (load : LoadDoc T K C V T.Stream K.Receipt) × (d : LoadedDoc) × IsBegun loader.entry load
        × Finishes T.refuses T.serves K.keeps K.reads C.may_give T.Stream.yields V.verifies load (Ok d)
        ended) }
    ensures vouches { IfOk result (λ ended. (base : Parts) × (d : LoadedDoc)
        × Vouches T.refuses T.serves K.keeps K.reads C.may_give T.Stream.yields
        (V.verifies (verifier_of loader.entry)) base (transport_of loader.entry)
        (first_core (settings_of loader.entry)) (held_of loader.entry) (core_doc (part.core_of ended))
        (part.held_of ended) d) }
    ensures steps { IfOk result
        (λ ended. (k : Keeping K K.Receipt) × (steps : List (Deed K.Receipt))
        × Trail K.keeps K.reads (V.verifies (verifier_of loader.entry)) k steps (part.keeping_of ended)) }
    ensures runs { IfOk result (λ ended. (c : CoreDoc) × (answers : List AnswerDoc) × (d : LoadedDoc)
        × IsFresh c × Along (V.verifies (verifier_of loader.entry)) c answers
        × ((run (V.verifies (verifier_of loader.entry)) c answers).stage ≡ Done (Ok d))) }
    ensures asks { IfOk result (λ ended. (c : CoreDoc) × (answers : List AnswerDoc) × (r : RequestDoc)
        × IsFresh c × (question (run (V.verifies (verifier_of loader.entry)) c answers) ≡ Fetch r)) }
    ensures counts { IfOk result (λ ended. (c : CoreDoc) × (n : Counts) × (d : LoadedDoc)
        × Counted (V.verifies (verifier_of loader.entry)) c n × (c.stage ≡ Done (Ok d))) }
{
    tough_load::laws::loads_count_few::<T, V, C, K>();
    let mut load = match loader.load() {
        Ok(load) => load,
        Err(_) => return Err(Unmet::Input),
    };
    match drive(rt, &mut load) {
        Ok(Ok(loaded)) => {
            if loaded.root().signed.version.get() == u64::MAX {
                return Err(Unmet::Input);
            }
            Ok(load)
        }
        _ => Err(Unmet::Input),
    }
}

/// Witness of `tough_update::laws::tops_ask_no_role`: an update of the top-level documents, before its first answer.
pub fn top_core(trusted: Vec<u8>, limits: Limits, enforcement: ExpirationEnforcement) -> Core
    ensures fresh { IsFresh (core_doc result) }
    ensures tops { (core_doc result).setting.whole ≡ false }
{
    Core::new(trusted, limits, enforcement).to_extent(Extent::TopLevel)
}
