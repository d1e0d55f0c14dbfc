//! A load that is handed back beside its outcome.

ghost use Rattle.std.specs.Prelude.{◌≡◌, IsSomeAnd};
ghost use Rattle.tough_net.specs.Collecting.{collected};
ghost use Rattle.tough_update.specs.View.{outcome_doc};
ghost use Rattle.tough_load.specs.Advancing.{Finishes};
ghost use Rattle.tough_load.specs.Running.{CanPoll};
ghost use Rattle.tough_load.specs.Words.{fetch_of, running_in};

use crate::load::Load;
use futures::Future;
use futures::task::{Context, Poll};
use tough_net::Transport;
use tough_roles::Verify;
use tough_trust::Keeper;
use tough_update::{Loaded, UpdateError};
use tough_vault::Clock;

/// The future of what a load comes to, and of the load as it is then.
#[derive(Drop)]
pub struct LoadRun<T: Transport, K: Keeper, C, V> {
    load: Option<Load<T, K, C, V>>,
}

impl<T: Transport, K: Keeper, C, V> Load<T, K, C, V> {
    /// Runs the load to its end, for executors that take a future by value: the load is handed back beside its outcome.
    pub fn run(self) -> LoadRun<T, K, C, V>
        ensures { IsSomeAnd (running_in result) (λ l. l ≡ self) }
    {
        LoadRun { load: Some(self) }
    }
}

impl<T: Transport, K: Keeper, C: Clock + Drop, V: Verify + Drop> Future for LoadRun<T, K, C, V> {
    type Output = (Result<Loaded, UpdateError>, Load<T, K, C, V>);

    ghost can_poll = { λ m. IsSomeAnd (running_in m)
        (λ l. CanPoll T.Stream.can_poll (fetch_of l)) };

    ghost needs = { λ m s. IsSomeAnd (running_in m)
        (λ l. IsSomeAnd (fetch_of l) (λ f. T.Stream.needs (collected f) s)) };

    ghost gives = { λ m both. IsSomeAnd (running_in m) (λ l. Finishes T.refuses T.serves K.keeps
        K.reads C.may_give T.Stream.yields V.verifies l (outcome_doc both.0) both.1) };

    fn poll(&mut self, cx: &mut Context<'_>) -> Poll<Self::Output> {
        let Some(load) = &mut self.load else {
            unreachable!()
        };
        match load.poll(cx) {
            Poll::Pending => Poll::Pending,
            Poll::Ready(outcome) => {
                let Some(load) = self.load.take() else {
                    unreachable!()
                };
                Poll::Ready((outcome, load))
            }
        }
    }
}
