//! Futures that are polled by hand.

ghost use Rattle.std.specs.Prelude.{IfOk};

use anyhow::Result;
use futures::Future;
use futures::task::Poll;
use futures::test::MockTask;
use std::alloc::AllocGlobal;
use std::random::RandomSource;
use std::sync::atomic::{AtomicU64, Ordering};

/// What the polls of a future came to.
#[derive(Drop)]
pub(crate) struct Polls<T> {
    /// What the future gave, if it gave something.
    pub(crate) outcome: Option<T>,
    /// How many polls there were.
    pub(crate) count: u64,
    /// The most pieces that its streams gave in one of them.
    pub(crate) most: u64,
    /// How many of the polls that wait left the task asleep.
    pub(crate) asleep: u64,
}

/// Polls a future so often at most, whether it was woken or not. The pieces that its streams give are counted there.
pub(crate) fn poll_by_hand<R, F>(
    rt: &R,
    future: &mut F,
    given: &AtomicU64,
    polls: u64,
) -> Result<Polls<F::Output>>
where
    R: RandomSource + AllocGlobal,
    F: Future,
    requires { F.can_poll future.old }
{
    let task = MockTask::new(rt)?;
    let (mut most, mut asleep) = (0u64, 0u64);
    for poll in 0..polls {
        let before = given.load(Ordering::SeqCst);
        let polled = task.poll(future);
        most = most.max(given.load(Ordering::SeqCst).saturating_sub(before));
        if let Poll::Ready(outcome) = polled {
            return Ok(Polls {
                outcome: Some(outcome),
                count: poll.saturating_add(1),
                most,
                asleep,
            });
        }
        if !task.is_woken() {
            asleep = asleep.saturating_add(1);
        }
    }
    Ok(Polls {
        outcome: None,
        count: polls,
        most,
        asleep,
    })
}
