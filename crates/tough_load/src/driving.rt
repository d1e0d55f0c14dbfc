//! Runs a load on this thread, with nothing to wait for.

ghost use Rattle.std.specs.Prelude.{◌≡◌, Ok, IfOk, IfErr};
ghost use Rattle.tough_update.specs.View.{core_doc, outcome_doc};
ghost use Rattle.tough_load.specs.Loader.{IsBegun, first_core, settings_of, transport_of, verifier_of, held_of};
ghost use Rattle.tough_load.specs.Advancing.{Advances, Finishes};
ghost use Rattle.tough_load.specs.Running.{CanPoll};
ghost use Rattle.tough_load.specs.Vouching.{Vouches};
ghost use Rattle.tough_load.specs.Words as part;

use crate::load::Load;
use futures::Future;
use futures::task::{Doorbell, Poll, Solo};
use std::alloc::AllocGlobal;
use std::io;
use std::random::RandomSource;
use tough_net::Transport;
use tough_roles::Verify;
use tough_trust::Keeper;
use tough_update::{Loaded, UpdateError};
use tough_vault::Clock;

/// Polls a load until it is ready, at once again where it is pending: for transports that never wait, as those over memory and files.
pub fn drive<R, T, K, C, V>(
    rt: &R,
    load: &mut Load<T, K, C, V>,
) -> io::Result<Result<Loaded, UpdateError>>
where
    R: RandomSource + AllocGlobal,
    T: Transport,
    K: Keeper,
    C: Clock + Drop,
    V: Verify + Drop,
    requires { CanPoll T.Stream.can_poll (part.fetch_of load.old) }
    ensures done { IfOk result
        (λ r. Finishes T.refuses T.serves K.keeps K.reads C.may_give T.Stream.yields V.verifies
        load.old (outcome_doc r) load.new) }
    ensures goes { IfErr result
        (λ e. Advances T.refuses T.serves K.keeps K.reads C.may_give T.Stream.yields V.verifies
        load.old load.new) }
    ensures trusted { (from : _) → IsBegun from load.old
        → IfOk result (λ r. IfOk (outcome_doc r) (Vouches T.refuses T.serves K.keeps K.reads
        C.may_give
        T.Stream.yields (V.verifies (verifier_of from)) (part.base_of load.old) (transport_of from)
        (first_core (settings_of from)) (held_of from)
        (core_doc (part.core_of load.new)) (part.held_of load.new))) }
{
    let solo = Solo::new(rt, Doorbell::spinning())?;
    for _ in 0..u64::MAX {
        let mut cx = solo.begin();
        match load.poll(&mut cx) {
            Poll::Ready(outcome) => {
                cx.cancel();
                return Ok(outcome);
            }
            Poll::Pending => cx.park(),
        }
    }
    Err(io::Error::other("the load waits"))
}
