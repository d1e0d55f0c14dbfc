//! How much an update fetched and keeps.

ghost use Rattle.std.specs.Prelude.{◌≡◌, ◌⊎◌, IfOk, Err};
ghost use Rattle.tough_schema.specs.Whole.{tree_doc};
ghost use Rattle.tough_update.specs.Counts.{one_more, ends_fetch, with_fetch, with_roles, with_work, with_tree};
ghost use Rattle.tough_update.specs.delegations.View.{work_doc};
ghost use Rattle.tough_trust.specs.Failure.{Memory};
ghost use Rattle.tough_update.specs.Stages.{Done};
ghost use Rattle.tough_update.specs.View.{stage_doc, answer_doc};

use crate::ask::Answer;
use crate::delegations::Growth;
use crate::stage::{Pending, Stage, Wanted};
use std::alloc::{AllocError, Global};
use tough_schema::Targets;
use tough_trust::UpdateError;

/// How much an update fetched, and how much of it stands in the tree of delegated roles, as far as that has grown. After a failure it stands
/// as it was counted before; an answer that fails is counted where it answered a fetch.
#[derive(Clone, Copy, Debug, PartialEq, Eq, Drop)]
pub struct Counts {
    /// The fetches of roots that were answered.
    pub roots: u64,
    /// The fetches of delegated documents that were answered.
    pub delegated: u64,
    /// The documents of delegated roles that have their place in the tree.
    pub kept: u64,
    /// The roles that the targets and these documents list; 0 until the targets were stored.
    pub entries: u64,
}

// One more, up to the largest number.
fn one_more(count: u64) -> u64
    ensures { result ≡ one_more count }
{
    count.saturating_add(1)
}

// Whether it answers a fetch.
fn ends_fetch(answer: &Answer) -> bool
    ensures { result ≡ ends_fetch (answer_doc answer.now) }
{
    match answer {
        Answer::Bytes(_) | Answer::NotStarted(_) | Answer::Cut(_) => true,
        Answer::Moment(_) | Answer::Stored(_) | Answer::Step(_) => false,
    }
}

impl Counts {
    // With the fetch that the answer ends.
    pub(crate) fn with_fetch(self, stage: &Stage, answer: &Answer) -> Counts
        ensures { result ≡ with_fetch (stage_doc stage.now) (answer_doc answer.now) self }
    {
        match stage {
            Stage::Fetch(Wanted::Root(_), _) if ends_fetch(answer) => Counts {
                roots: one_more(self.roots),
                ..self
            },
            Stage::Fetch(Wanted::Role(_, _, _), _) if ends_fetch(answer) => Counts {
                delegated: one_more(self.delegated),
                ..self
            },
            _ => self,
        }
    }

    // With the documents that have their place, and the roles that these and the targets list.
    fn with_growth(self, growth: &Growth) -> Counts
        ensures { result ≡ with_work (work_doc growth.now) self }
    {
        Counts {
            kept: growth.placed() as u64,
            entries: growth.entries(),
            ..self
        }
    }

    // With the documents and the roles below targets.
    fn with_roles(self, alloc: Global, targets: &Targets) -> Result<Counts, AllocError>
        ensures { IfOk result (λ n. n ≡ with_roles (tree_doc targets.now) self) }
    {
        let documents = targets.signed_delegated_targets(alloc)?;
        let entries = targets.entries(alloc)?;
        Ok(Counts {
            kept: documents.len() as u64,
            entries: entries.len() as u64,
            ..self
        })
    }

    // With the tree, as far as it has grown.
    pub(crate) fn with_tree(self, alloc: Global, stage: &Stage) -> Result<Counts, AllocError>
        ensures { IfOk result (λ n. n ≡ with_tree (stage_doc stage.now) self) }
    {
        match stage {
            Stage::Fetch(Wanted::Role(_, roles, _), _) => Ok(self.with_growth(&roles.growth)),
            Stage::Step(Pending::PutDelegated(_, roles, _, _)) => {
                Ok(self.with_growth(&roles.growth))
            }
            Stage::Done(Ok(loaded)) => self.with_roles(alloc, &loaded.targets.signed),
            _ => Ok(self),
        }
    }
}
