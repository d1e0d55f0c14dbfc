//! What the streams promise as a whole.
ghost use Rattle.std.specs.Prelude.{◌≡◌, ◌≤◌, ◌<◌, ◌+◌, ◌-◌, ◌^◌, List, ℕ, [], Some, None, Ok, length, map, string_bytes};
ghost use Rattle.tough_net.specs.Checking.{Checked, checked, expected_of, failure_of, HasTaken};
ghost use Rattle.tough_net.specs.Collecting.{Bounds, Collects, Fits};
ghost use Rattle.tough_net.specs.Digests.{HasDigests};
ghost use Rattle.tough_net.specs.MemoryFiles.{CutsFile};
ghost use Rattle.tough_net.specs.Items.{all_bytes, joined};
ghost use Rattle.tough_net.specs.Joining.{joined_pieces};
ghost use Rattle.tough_net.specs.Limiting.{Limits, limit_of, limited};
ghost use Rattle.tough_net.specs.Pacing.{FewAndPaced, Met, pauses_of};
ghost use Rattle.tough_net.specs.Resource.{Fetches, Gave};
ghost use Rattle.tough_net.specs.Retries.{started};

use crate::{DigestCheck, MaxSize, Requests, RetrySettings, Retrying, TransportError};
use bytes::Bytes;
use futures::Stream;

/// A limit below the greatest `u64` is never passed by what is handed on, also after an error.
pub fn never_over_limit<S: Stream<Item = Result<Bytes, TransportError>>>(stream: &MaxSize<S>)
    ensures { (limit_of stream.now).max < 2 ^ 64 - 1
        → (limit_of stream.now).size ≤ (limit_of stream.now).max → (xs : _) (last : _)
        → Limits (limit_of stream.now) (S.yields (limited stream.now)) xs last
        → (limit_of stream.now).size + length (all_bytes xs last) ≤ (limit_of stream.now).max }
{}

/// What ends without an error has each digest that is stated.
pub fn ended_has_digest<S: Stream<Item = Result<Bytes, TransportError>>>(stream: &DigestCheck<S>)
    ensures { HasTaken stream.now [] → failure_of stream.now ≡ None → (xs : _)
        → Checked stream.now (S.yields (checked stream.now)) xs None
        → HasDigests (expected_of stream.now) (joined xs) }
{}

/// What is collected of a file in memory is the file, and fits.
pub fn collected_is_file()
    ensures { (bounds : Bounds) (bytes : List ℕ) (v : _)
        → Collects bounds (CutsFile (Some bytes)) [] (Ok v)
        → (v.items ≡ bytes) × Fits bounds bytes }
{}

/// Whatever events a fetch meets, no more than `tries` requests follow its first, after the pauses
/// of the rule.
pub fn requests_are_few(settings: RetrySettings)
    ensures { (run : List _) → Met settings (started settings) run
        → FewAndPaced settings (pauses_of run) }
{}

/// A stream that asks again has sent no more requests than the first and `tries` further ones, whatever was polled of it.
pub fn sends_few<Q: Requests>(stream: &Retrying<Q>)
    ensures { ⟦<Retrying<Q> as Stream>⟧.can_poll stream.now
        → Q.sent stream.now.requests ≤ stream.now.core.settings.tries + 1 }
{}

/// A stream that asks again ends without an error only where a body ended: at the byte up to which
/// it has handed on.
pub fn ends_where_a_body_did<Q: Requests>(stream: &Retrying<Q>)
    ensures { (pieces : List (List ℕ))
        → Fetches Q.bodies Q.answers stream.now.core.settings (Q.resource stream.now.requests)
        (string_bytes stream.now.url) stream.now.core.progress (map Ok pieces) None
        → Gave Q.bodies (Q.resource stream.now.requests)
        (stream.now.core.progress.received + length (joined_pieces pieces)) None }
{}
