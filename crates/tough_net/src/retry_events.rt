//! What can happen to a fetch over HTTP, and what is to be done then.
ghost use Rattle.std.specs.Prelude.{◌<◌, ◌≡◌, ◌*◌, ◌^◌};
ghost use Rattle.std.specs.Duration.{as_nanos};

use crate::{HttpError, RequestFault};
use std::time::Duration;

/// How often, and after which pauses, a resource is asked for again.
#[derive(Debug, Drop, Clone, Copy, PartialEq, Eq)]
pub struct RetrySettings {
    /// How many further requests may follow the first.
    pub tries: u32,
    /// The pause before the first request and before the first retry.
    pub initial_backoff: Duration,
    /// The greatest pause that a multiplication gives.
    pub max_backoff: Duration,
    /// The factor of each later pause, as a fraction.
    pub numerator: u32,
    pub denominator: u32,
    ghost divides: { 0 < denominator },
}

impl Default for RetrySettings {
    ghost is_default = { λ s. (s.tries ≡ 4) × (as_nanos s.initial_backoff ≡ 100 * 10 ^ 6)
        × (as_nanos s.max_backoff ≡ 10 ^ 9) × (s.numerator ≡ 3) × (s.denominator ≡ 2) };

    /// 4 further requests, and pauses from 100 ms to 1 s that grow by half.
    fn default() -> RetrySettings {
        RetrySettings {
            tries: 4,
            initial_backoff: Duration::from_millis(100),
            max_backoff: Duration::from_secs(1),
            numerator: 3,
            denominator: 2,
        }
    }
}

/// What happened to a fetch.
#[derive(Debug, Drop, Clone, Copy, PartialEq, Eq)]
pub enum RetryEvent {
    /// The host's look-up, the connection or the request failed, the answer took too long, or the body broke off.
    Fault(RequestFault),
    /// An answer came, with this status code, and perhaps with a field `Accept-Ranges` that contains `bytes`.
    Answer { status: u16, accepts_ranges: bool },
    /// So many bytes of the body came.
    Piece { len: u64 },
    /// The body ended.
    End,
}

/// What is to be done next.
#[derive(Debug, Drop, Clone, Copy, PartialEq, Eq)]
pub enum RetryAction {
    /// Pause, and ask for the bytes that are missing.
    Request,
    /// Hand on the bytes that came, and read on.
    Read,
    /// End.
    Finish,
    /// Answer this error, and end.
    Fail(HttpError),
}

/// What an answer's status code means.
#[derive(Debug, Drop, Clone, Copy, PartialEq, Eq)]
pub enum AnswerClass {
    /// The body is what was asked for.
    Body,
    /// There is no such file.
    Missing,
    /// Another request would have no better answer.
    Refused,
    /// Another request may have a better answer.
    Unready,
}
