//! Turns: an answer to one update, or its step put on the vault.

ghost use Rattle.std.specs.Prelude.{◌≡◌, OnErr};
ghost use Rattle.tough_vault.specs.Vault.{parts_of};
ghost use Rattle.tough_trust.specs.View.{act_of, step_doc};
ghost use Rattle.tough_update.specs.View.{question_of};
ghost use Rattle.tough_world.specs.Turns.{Steps, RepliesOr};

use jiff::Timestamp as Instant;
use std::alloc::Global;
use tough_roles::Verify;
use tough_trust::{Act, Fault, act_on};
use tough_update::{Answer as Reply, Ask};
use tough_vault::{StepError, Store, Vault};

/// What an update is answered in a turn.
#[derive(Drop)]
pub enum Answer {
    /// The time.
    Moment(Instant),
    /// All the bytes of the file that is asked for.
    Bytes(Vec<u8>),
    /// The fetch didn't start.
    NotStarted(Fault),
    /// The file's stream failed.
    Cut(Fault),
    /// What the vault answers to the step or the look at the stored root that is asked for.
    Step,
}

/// An answer to the update of this number.
#[derive(Drop)]
pub struct Turn {
    /// The number of the update, from 0.
    pub load: usize,
    /// What it is answered.
    pub answer: Answer,
}

/// Why a turn was refused. It has changed nothing.
#[derive(Clone, Copy, Debug, PartialEq, Eq, Drop)]
pub enum TurnError {
    /// There is no update of this number, or it asks for something else.
    NotAsked,
    /// The bytes are longer than asked, or have another digest.
    Misfit,
}

// The step on the vault, its receipt apart.
fn step<S: Store, V: Verify>(
    vault: &mut Vault<S>,
    alloc: Global,
    act: &Act<'_>,
    verifier: &V,
) -> Result<(), StepError>
    ensures { Steps S.tells S.files S.count (V.verifies verifier.now) (act_of act.now)
        (parts_of vault.old) (step_doc result) (parts_of vault.new) }
{
    match act_on(vault, alloc, act, verifier) {
        Ok(_) => Ok(()),
        Err(error) => Err(error),
    }
}

/// What an update that asks this is answered; a step is put on the vault.
pub(crate) fn reply<S: Store, V: Verify>(
    ask: &Ask<'_>,
    vault: &mut Vault<S>,
    alloc: Global,
    verifier: &V,
    answer: Answer,
) -> Result<Reply, TurnError>
    ensures given { RepliesOr S.tells S.files S.count (V.verifies verifier.now)
        (question_of ask.now) answer (parts_of vault.old) (parts_of vault.new) result }
    ensures same { OnErr result (vault.new ≡ vault.old) }
{
    match answer {
        Answer::Moment(now) => match ask {
            Ask::Moment => Ok(Reply::Moment(now)),
            Ask::Stored(_) | Ask::Fetch(_) | Ask::Step(_) | Ask::Ready => Err(TurnError::NotAsked),
        },
        Answer::Bytes(bytes) => match ask {
            Ask::Fetch(request) => {
                if request.fits(&bytes) {
                    Ok(Reply::Bytes(bytes))
                } else {
                    Err(TurnError::Misfit)
                }
            }
            Ask::Moment | Ask::Stored(_) | Ask::Step(_) | Ask::Ready => Err(TurnError::NotAsked),
        },
        Answer::NotStarted(fault) => match ask {
            Ask::Fetch(_) => Ok(Reply::NotStarted(fault)),
            Ask::Moment | Ask::Stored(_) | Ask::Step(_) | Ask::Ready => Err(TurnError::NotAsked),
        },
        Answer::Cut(fault) => match ask {
            Ask::Fetch(_) => Ok(Reply::Cut(fault)),
            Ask::Moment | Ask::Stored(_) | Ask::Step(_) | Ask::Ready => Err(TurnError::NotAsked),
        },
        Answer::Step => match ask {
            Ask::Step(act) => Ok(Reply::Step(step(vault, alloc, act, verifier))),
            Ask::Stored(first) => Ok(Reply::Stored(vault.read_root(*first, verifier))),
            Ask::Moment | Ask::Fetch(_) | Ask::Ready => Err(TurnError::NotAsked),
        },
    }
}
