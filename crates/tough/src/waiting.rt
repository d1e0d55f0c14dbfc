//! Runs loads that wait for sockets and timers.

ghost use Rattle.std.specs.Prelude.{◌≡◌, Ok, IfOk};
ghost use Rattle.tough_update.specs.View.{core_doc, outcome_doc};
ghost use Rattle.tough_load.specs.Loader.{IsBegun, first_core, settings_of, transport_of, verifier_of, held_of};
ghost use Rattle.tough_load.specs.Advancing.{Finishes};
ghost use Rattle.tough_load.specs.Running.{CanPoll};
ghost use Rattle.tough_load.specs.Vouching.{Vouches};
ghost use Rattle.tough_load.specs.Words as part;
ghost use Rattle.tough_client.specs.Opening.{Opens, VouchesFor};

use crate::Error;
use std::alloc::AllocGlobal;
use std::random::RandomSource;
use std::sync::Wait;
use std::{io, time};
use tokio::runtime::LocalRuntime;
use tough_client::Repository;
use tough_load::laws::loads_are_trusted;
use tough_load::{Clock, Keeper, Load, Loaded, UpdateError};
use tough_net::Transport;
use tough_schema::Verify;

/// Polls a load until it is ready, by an event loop on this thread, which waits in between for the sockets and timers that were made with
/// its handle: for every transport, `DefaultTransport` and `HttpTransport` among them. The load is handed back beside its outcome. `Err`
/// where the event loop fails, and then the load is gone.
pub fn drive_on<R, T, K, C, V>(
    rt: &R,
    runtime: &mut LocalRuntime,
    load: Load<T, K, C, V>,
) -> io::Result<(Result<Loaded, UpdateError>, Load<T, K, C, V>)>
where
    R: Wait + time::Clock + RandomSource + AllocGlobal,
    T: Transport,
    K: Keeper,
    C: Clock + Drop,
    V: Verify + Drop,
    requires { CanPoll T.Stream.can_poll (part.fetch_of load) }
    ensures done { IfOk result
        (λ both. Finishes T.refuses T.serves K.keeps K.reads C.may_give T.Stream.yields V.verifies
        load (outcome_doc both.0) both.1) }
    ensures trusted { (from : _) → IsBegun from load
        → IfOk result (λ both. IfOk (outcome_doc both.0)
        (Vouches T.refuses T.serves K.keeps K.reads C.may_give T.Stream.yields
        (V.verifies (verifier_of from)) (part.base_of load) (transport_of from)
        (first_core (settings_of from)) (held_of from)
        (core_doc (part.core_of both.1)) (part.held_of both.1))) }
{
    loads_are_trusted::<T, V, C, K>();
    runtime.block_on(rt, load.run())
}

/// Polls a load until it is ready, as `drive_on` does, and gives the repository that it loaded, or why it didn't: what `drive` does for
/// transports that never wait.
pub fn open_on<R, T, K, C, V>(
    rt: &R,
    runtime: &mut LocalRuntime,
    load: Load<T, K, C, V>,
) -> io::Result<Result<Repository<T, K, C>, Error>>
where
    R: Wait + time::Clock + RandomSource + AllocGlobal,
    T: Transport,
    K: Keeper,
    C: Clock + Drop,
    V: Verify + Drop,
    requires { CanPoll T.Stream.can_poll (part.fetch_of load) }
    ensures done { IfOk result
        (Opens T.refuses T.serves K.keeps K.reads C.may_give T.Stream.yields V.verifies load) }
    ensures trusted { (from : _) → IsBegun from load
        → IfOk result (λ r. IfOk r
        (VouchesFor T.refuses T.serves K.keeps K.reads C.may_give T.Stream.yields V.verifies from
        (part.base_of load))) }
{
    match drive_on(rt, runtime, load) {
        Ok((outcome, load)) => Ok(Repository::from_outcome(load, outcome)),
        Err(error) => Err(error),
    }
}
