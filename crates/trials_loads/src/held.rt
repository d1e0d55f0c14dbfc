//! A transport whose fetches wait for another thread.

ghost use Rattle.std.specs.Prelude.{⊤};
ghost use Rattle.url.specs.Parts.{Parts};

use std::alloc::Global;
use std::rt::Clock;
use std::sync::atomic::{AtomicU64, Ordering};
use std::thread;
use std::time::Duration;
use tough_net::{Transport, TransportError, TransportErrorKind};
use url::Url;

/// How often a thread looks for another one, 10 ms apart.
pub(crate) const LOOKS: u32 = 1000;

/// What two threads tell one another: that the first has begun a fetch, and that the second is through.
#[derive(Drop)]
pub(crate) struct Signals {
    started: AtomicU64,
    ended: AtomicU64,
}

// Looks at the signal until it is given, at most so often, and returns whether it was.
fn wait_for<R: Clock>(rt: &R, signal: &AtomicU64, looks: u32) -> bool {
    for _ in 0..looks {
        if signal.load(Ordering::SeqCst) != 0 {
            return true;
        }
        thread::sleep(rt, Duration::from_millis(10));
    }
    false
}

impl Signals {
    pub(crate) fn new() -> Signals {
        Signals {
            started: AtomicU64::new(0),
            ended: AtomicU64::new(0),
        }
    }

    /// Waits until the first thread has begun a fetch, and returns whether it has.
    pub(crate) fn wait_for_start<R: Clock>(&self, rt: &R, looks: u32) -> bool {
        wait_for(rt, &self.started, looks)
    }

    /// Says that the second thread is through.
    pub(crate) fn end(&self) {
        self.ended.store(1, Ordering::SeqCst);
    }
}

/// A transport whose fetches begin once the second thread is through; they fail where it isn't in time.
#[derive(Drop)]
pub(crate) struct Held<'a, R, T> {
    pub(crate) alloc: Global,
    pub(crate) rt: &'a R,
    pub(crate) signals: &'a Signals,
    pub(crate) within: T,
}

impl<'a, R: Clock, T: Transport> Transport for Held<'a, R, T> {
    type Stream = T::Stream;

    ghost refuses = { λ _ _ _. ⊤ };

    ghost serves = { λ t _ xs last. (asked : Parts) × T.serves t.within asked xs last };

    fn fetch(&self, url: &Url) -> Result<T::Stream, TransportError> {
        self.signals.started.store(1, Ordering::SeqCst);
        if wait_for(self.rt, &self.signals.ended, LOOKS) {
            self.within.fetch(url)
        } else {
            let kind = TransportErrorKind::Other;
            Err(TransportError::new(self.alloc, kind, url.as_str())?)
        }
    }
}
