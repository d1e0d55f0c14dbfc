//! The update as a machine: what it wants next, and what it makes of an answer.

ghost use Rattle.std.specs.Prelude.{◌≡◌, None, IsSome, IsNone, option_map, option_copied, string_bytes};
ghost use Rattle.tough_checks.specs.Checks.{enforces};
ghost use Rattle.tough_update.specs.Counts.{none_yet, with_fetch, with_tree};
ghost use Rattle.tough_update.specs.Stages.{handed_out, new_core, reaching};
ghost use Rattle.tough_update.specs.Asked.{IsLastFile, file_asked};
ghost use Rattle.tough_update.specs.Machine.{question, stage_after};
ghost use Rattle.tough_trust.specs.Failure.{Gives};
ghost use Rattle.tough_update.specs.View.{core_doc, counts_of, is_whole, last_file_of, stage_doc, answer_doc, question_of, setting_doc, outcome_doc};
ghost use Rattle.tough_update.specs.Promises.{Settles, Goes, fits, ended};

use crate::ask::{Answer, Ask};
use crate::counts::Counts;
use crate::extent::Extent;
use crate::stage::{Loaded, Pending, Stage};
use crate::turns::{Setting, end_cut, end_unstarted, read_wanted, take_step, take_stored};
use std::alloc::Global;
use std::mem;
use tough_roles::Verify;
use tough_trust::{Limits, UpdateError};
use tough_vault::ExpirationEnforcement;

/// An update, from the bytes of a root that is trusted to the documents that it vouches for (TUF specification 5). It fetches nothing and
/// stores nothing: it says what it wants, and takes the answer.
#[derive(Drop)]
pub struct Core {
    trusted: Vec<u8>,
    limits: Limits,
    enforcement: ExpirationEnforcement,
    extent: Extent,
    stage: Stage,
    counts: Counts,
    last_file: Option<String>,
}

// What an answer makes of a stage.
fn turn<V: Verify>(
    setting: &Setting<'_>,
    stage: Stage,
    answer: Answer,
    verifier: &V,
) -> Result<Stage, UpdateError>
    ensures { Gives stage_doc
        (stage_after (V.verifies verifier.now) (setting_doc setting.now) (stage_doc stage)
        (answer_doc answer)) result }
{
    match answer {
        Answer::Moment(now) => match stage {
            Stage::Moment => Ok(Stage::Step(Pending::NoteTime(now))),
            stage => Ok(stage),
        },
        Answer::Stored(stored) => match stage {
            Stage::ReadRoot(walk) => take_stored(setting.alloc, &setting.limits, walk, stored),
            stage => Ok(stage),
        },
        Answer::Bytes(bytes) => match stage {
            Stage::Fetch(wanted, request) => read_wanted(setting, wanted, request, bytes, verifier),
            stage => Ok(stage),
        },
        Answer::NotStarted(fault) => match stage {
            Stage::Fetch(wanted, request) => end_unstarted(wanted, request, fault),
            stage => Ok(stage),
        },
        Answer::Cut(fault) => match stage {
            Stage::Fetch(wanted, request) => end_cut(wanted, request, fault),
            stage => Ok(stage),
        },
        Answer::Step(taken) => match stage {
            Stage::Step(pending) => take_step(setting, pending, taken, verifier),
            stage => Ok(stage),
        },
    }
}

// The stage after an answer.
fn next<V: Verify>(setting: &Setting<'_>, stage: Stage, answer: Answer, verifier: &V) -> Stage
    ensures { Settles (stage_after (V.verifies verifier.now) (setting_doc setting.now)
        (stage_doc stage) (answer_doc answer)) (stage_doc result) }
{
    match turn(setting, stage, answer, verifier) {
        Ok(stage) => stage,
        Err(error) => Stage::Done(Err(error)),
    }
}

impl Core {
    /// An update from a root that is trusted, given as its bytes. It loads the documents of delegated roles too.
    pub fn new(trusted: Vec<u8>, limits: Limits, enforcement: ExpirationEnforcement) -> Core
        ensures core { core_doc result ≡ new_core trusted.items limits (enforces enforcement) }
        ensures counts { counts_of result ≡ none_yet }
        ensures file { last_file_of result ≡ None }
    {
        Core {
            trusted,
            limits,
            enforcement,
            extent: Extent::Whole,
            stage: Stage::Moment,
            counts: Counts {
                roots: 0,
                delegated: 0,
                kept: 0,
                entries: 0,
            },
            last_file: None,
        }
    }

    /// The update, before its first answer, which loads these documents.
    pub fn to_extent(self, extent: Extent) -> Core
        ensures core { core_doc result ≡ reaching (is_whole extent) (core_doc self) }
        ensures counts { counts_of result ≡ counts_of self }
        ensures file { last_file_of result ≡ last_file_of self }
    {
        Core { extent, ..self }
    }

    /// What is wanted next.
    pub fn ask(&self) -> Ask<'_>
        ensures { question_of result ≡ question (core_doc self.now) }
    {
        match &self.stage {
            Stage::Moment => Ask::Moment,
            Stage::ReadRoot(walk) => Ask::Stored(walk.first.signed.version.get()),
            Stage::Fetch(_, request) => Ask::Fetch(request),
            Stage::Step(pending) => Ask::Step(pending.act(self.enforcement)),
            Stage::Done(_) | Stage::Taken => Ask::Ready,
        }
    }

    /// Whether a file is asked for, and the bytes are no longer than asked and have each digest that was asked for.
    pub fn fits(&self, bytes: &[u8]) -> bool
        ensures { result ≡ fits (core_doc self.now) bytes.now }
    {
        match self.ask() {
            Ask::Fetch(request) => request.fits(bytes),
            _ => false,
        }
    }

    // Keeps the name of the file that is asked for.
    fn keep_file(&mut self, alloc: Global)
        ensures core { core_doc self.new ≡ core_doc self.old }
        ensures counts { counts_of self.new ≡ counts_of self.old }
        ensures file { IsLastFile (file_asked (core_doc self.old).stage)
            (last_file_of self.old) (last_file_of self.new) }
    {
        if let Stage::Fetch(_, request) = &self.stage {
            self.last_file = String::from_str(alloc, request.name.as_str()).ok();
        }
    }

    /// The name of the file that was last asked for, before the answer that came last: what a refusal speaks of. `None` before the first,
    /// and where there was no memory for the name.
    pub fn last_file(&self) -> Option<&str>
        ensures { option_copied result ≡ last_file_of self.now }
    {
        self.last_file.as_deref()
    }

    /// Takes an answer. One of a kind that isn't asked for changes nothing. Where memory is wanting, the update ends with `Memory`.
    pub fn answer<V: Verify>(&mut self, alloc: Global, verifier: &V, answer: Answer)
        ensures goes { Goes (V.verifies verifier.now) (core_doc self.old)
            (answer_doc answer) (core_doc self.new) }
        ensures counted { counts_of self.new
            ≡ with_tree (core_doc self.new).stage
            (with_fetch (core_doc self.old).stage (answer_doc answer) (counts_of self.old)) }
        ensures file { IsLastFile (file_asked (core_doc self.old).stage)
            (last_file_of self.old) (last_file_of self.new) }
    {
        self.keep_file(alloc);
        self.take(alloc, verifier, answer)
    }

    // Takes an answer.
    fn take<V: Verify>(&mut self, alloc: Global, verifier: &V, answer: Answer)
        ensures goes { Goes (V.verifies verifier.now) (core_doc self.old)
            (answer_doc answer) (core_doc self.new) }
        ensures counted { counts_of self.new
            ≡ with_tree (core_doc self.new).stage
            (with_fetch (core_doc self.old).stage (answer_doc answer) (counts_of self.old)) }
        ensures file { last_file_of self.new ≡ last_file_of self.old }
    {
        let stage = mem::replace(&mut self.stage, Stage::Done(Err(UpdateError::Memory)));
        let setting = Setting {
            alloc,
            trusted: &self.trusted,
            limits: self.limits,
            enforcement: self.enforcement,
            extent: self.extent,
        };
        let counts = self.counts.with_fetch(&stage, &answer);
        let stage = next(&setting, stage, answer, verifier);
        match counts.with_tree(alloc, &stage) {
            Ok(counts) => {
                self.counts = counts;
                drop(mem::replace(&mut self.stage, stage));
            }
            Err(_) => {
                self.counts = counts;
                drop(stage);
            }
        }
    }

    /// How much was fetched by now, and how much of it stands in the tree of delegated roles; after a failure as it was counted before.
    pub fn counts(&self) -> Counts
        ensures { result ≡ counts_of self.now }
    {
        self.counts
    }

    /// How the update ended, once it has.
    pub fn outcome(&self) -> Option<&Result<Loaded, UpdateError>>
        ensures { option_map outcome_doc (option_copied result) ≡ ended (core_doc self.now).stage }
    {
        match &self.stage {
            Stage::Done(outcome) => Some(outcome),
            _ => None,
        }
    }

    /// Hands out how the update ended, once it has; then nothing more is asked.
    pub fn take_outcome(&mut self) -> Option<Result<Loaded, UpdateError>>
        ensures done { option_map outcome_doc result ≡ ended (core_doc self.old).stage }
        ensures taken { IsSome result → core_doc self.new ≡ handed_out (core_doc self.old) }
        ensures not_yet { IsNone result → core_doc self.new ≡ core_doc self.old }
        ensures counts { counts_of self.new ≡ counts_of self.old }
        ensures file { last_file_of self.new ≡ last_file_of self.old }
    {
        match mem::replace(&mut self.stage, Stage::Taken) {
            Stage::Done(outcome) => Some(outcome),
            stage => {
                drop(mem::replace(&mut self.stage, stage));
                None
            }
        }
    }

    /// How the update ended, once it has.
    pub fn into_outcome(self) -> Option<Result<Loaded, UpdateError>>
        ensures { option_map outcome_doc result ≡ ended (core_doc self).stage }
    {
        let Core { stage, .. } = self;
        match stage {
            Stage::Done(outcome) => Some(outcome),
            stage => {
                drop(stage);
                None
            }
        }
    }
}
