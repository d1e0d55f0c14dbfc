//! Until when a try may go on.
ghost use Rattle.futures.specs.Task.{Keeps};

use futures::Future;
use futures::task::{Context, Poll};
use tokio::time::Sleep;

/// The end of the time of a try. Each part of a try hands it to the next.
#[derive(Drop)]
pub struct Deadline(Option<Sleep>);

impl Deadline {
    /// The end of this sleep.
    pub fn new(sleep: Sleep) -> Deadline {
        Deadline(Some(sleep))
    }

    /// Hands the deadline on, and keeps none.
    pub fn take(&mut self) -> Deadline {
        Deadline(self.0.take())
    }

    /// Whether the time is over. Else the task is woken once it is.
    pub fn poll_over(&mut self, cx: &mut Context<'_>) -> bool
        ensures kept { Keeps cx.old cx.new }
    {
        match &mut self.0 {
            Some(sleep) => matches!(sleep.poll(cx), Poll::Ready(_)),
            None => false,
        }
    }
}
