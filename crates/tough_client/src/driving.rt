//! Runs futures on this thread, with nothing to wait for.

ghost use Rattle.std.specs.Prelude.{IfOk};
ghost use Rattle.url.specs.Parts.{Parts};
ghost use Rattle.tough_update.specs.View.{core_doc, outcome_doc};
ghost use Rattle.tough_load.specs.declared.loader.RepositoryLoader.{RepositoryLoader};
ghost use Rattle.tough_load.specs.Advancing.{Finishes};
ghost use Rattle.tough_load.specs.Loader as loader;
ghost use Rattle.tough_load.specs.Loader.{IsBegun, first_core, settings_of, transport_of, verifier_of};
ghost use Rattle.tough_load.specs.Running.{CanPoll};
ghost use Rattle.tough_load.specs.Vouching.{Vouches};
ghost use Rattle.tough_load.specs.Words as part;
ghost use Rattle.tough_load.specs.Words.{fetch_of, base_of};
ghost use Rattle.tough_client.specs.Opening.{Opens, VouchesFor};

use crate::repository::Repository;
use futures::Future;
use futures::task::{Doorbell, Poll, Solo};
use std::alloc::AllocGlobal;
use std::io;
use std::random::RandomSource;
use tough_error::Error;
use tough_load::{Clock, Keeper, Load, Loaded, UpdateError};
use tough_net::Transport;
use tough_roles::Verify;

impl<T: Transport, K: Keeper, C: Clock + Drop> Repository<T, K, C> {
    /// The repository that a load loaded, or why it loaded none: for who polls a load without `drive`.
    pub fn from_outcome<V: Verify + Drop>(
        load: Load<T, K, C, V>,
        outcome: Result<Loaded, UpdateError>,
    ) -> Result<Repository<T, K, C>, Error>
        ensures opens { (old : _)
            → Finishes T.refuses T.serves K.keeps K.reads C.may_give T.Stream.yields V.verifies old
            (outcome_doc outcome) load
            → Opens T.refuses T.serves K.keeps K.reads C.may_give T.Stream.yields V.verifies old
            result }
        ensures trusted { (from : RepositoryLoader T V C K) (base : Parts)
            → IfOk (outcome_doc outcome)
            (Vouches T.refuses T.serves K.keeps K.reads C.may_give T.Stream.yields
            (V.verifies (verifier_of from)) base (transport_of from)
            (first_core (settings_of from)) (loader.held_of from)
            (core_doc (part.core_of load)) (part.held_of load))
            → IfOk result
            (VouchesFor T.refuses T.serves K.keeps K.reads C.may_give T.Stream.yields V.verifies
            from base) }
    {
        match outcome {
            Ok(loaded) => Ok(Repository::new(load, loaded)),
            Err(error) => {
                drop(load);
                Err(Error::from(error))
            }
        }
    }
}

/// Runs a load, and gives the repository that it loaded, or why it didn't: for transports that never wait, as those over memory and files.
pub fn drive<R, T, K, C, V>(
    rt: &R,
    load: Load<T, K, C, V>,
) -> io::Result<Result<Repository<T, K, C>, Error>>
where
    R: RandomSource + AllocGlobal,
    T: Transport,
    K: Keeper,
    C: Clock + Drop,
    V: Verify + Drop,
    requires { CanPoll T.Stream.can_poll (fetch_of load) }
    ensures done { IfOk result
        (Opens T.refuses T.serves K.keeps K.reads C.may_give T.Stream.yields V.verifies load) }
    ensures trusted { (from : _) → IsBegun from load
        → IfOk result (λ r. IfOk r
        (VouchesFor T.refuses T.serves K.keeps K.reads C.may_give T.Stream.yields V.verifies from
        (base_of load))) }
{
    let mut load = load;
    match tough_load::drive(rt, &mut load) {
        Ok(outcome) => Ok(Repository::from_outcome(load, outcome)),
        Err(error) => Err(error),
    }
}

/// Runs a future, at once again where it is pending: for those over transports that never wait.
pub fn finish<R, F>(rt: &R, future: F) -> io::Result<F::Output>
where
    R: RandomSource + AllocGlobal,
    F: Future,
    requires { F.can_poll future }
    ensures { IfOk result (F.gives future) }
{
    let mut future = future;
    let solo = Solo::new(rt, Doorbell::spinning())?;
    for _ in 0..u64::MAX {
        let mut cx = solo.begin();
        match future.poll(&mut cx) {
            Poll::Ready(output) => {
                cx.cancel();
                return Ok(output);
            }
            Poll::Pending => cx.park(),
        }
    }
    Err(io::Error::other("the future waits"))
}
