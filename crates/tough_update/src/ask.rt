//! What an update asks, and what it is answered.

use jiff::Timestamp as Instant;
use tough_roles::{Root, Signed};
use tough_trust::{Act, Fault, Request};
use tough_vault::StepError;

/// What an update wants next.
#[derive(Drop)]
pub enum Ask<'a> {
    /// The time.
    Moment,
    /// The stored root, where it is newer than this version.
    Stored(u64),
    /// A file.
    Fetch(&'a Request),
    /// A step on the store.
    Step(Act<'a>),
    /// Nothing more.
    Ready,
}

/// What an update is answered.
#[derive(Drop)]
pub enum Answer {
    /// The time.
    Moment(Instant),
    /// The stored root, where it verifies itself and is newer, or why it couldn't be read.
    Stored(Result<Option<Signed<Root>>, StepError>),
    /// All the bytes of the file; they must fit what was asked for.
    Bytes(Vec<u8>),
    /// The fetch didn't start.
    NotStarted(Fault),
    /// The file's stream failed.
    Cut(Fault),
    /// The step on the store succeeded, or was refused.
    Step(Result<(), StepError>),
}
