//! The laws of streams.

ghost use Rattle.std.specs.Prelude.{[], ◌∷◌, IfSome};
ghost use Rattle.tough_net.specs.Pacing.{Met};
ghost use Rattle.tough_net.specs.Retries.{started, turn};
ghost use Rattle.tough_net.specs.declared.retry_events.RetryEvent.{RetryEvent};

use futures::Stream;
use std::alloc::Global;
use tough_net::{Requests, RetrySettings, Retrying};

/// Witness of `tough_net::laws::requests_are_few`: a fetch that meets one event, whichever it is.
pub fn one_event(settings: RetrySettings)
    ensures { (event : RetryEvent) → Met settings (started settings)
        ((event, turn settings (started settings) event) ∷ []) }
{}

/// Witness of `tough_net::laws::sends_few`: a stream that asks again, as it begins.
pub fn begun_fetch<Q: Requests>(
    alloc: Global,
    requests: Q,
    url: String,
    settings: RetrySettings,
) -> Option<Retrying<Q>>
    ensures { IfSome result (λ stream. ⟦<Retrying<Q> as Stream>⟧.can_poll stream) }
{
    Retrying::new(alloc, requests, url, settings)
}
