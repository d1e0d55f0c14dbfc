//! When a resource that is fetched over HTTP is asked for again.
ghost use Rattle.std.specs.Prelude.{◌≡◌, ◌+◌, ◌*◌, ◌/◌, ◌≤◌, ◌<◌};
ghost use Rattle.std.specs.Duration.{as_nanos};
ghost use Rattle.tough_net.specs.Retries.{class_of, next_pause, started, told, turn, turned, retried, answered, failed};

use crate::{
    AnswerClass, HttpError, LastRequest, RequestError, RetryAction, RetryEvent, RetrySettings,
};
use std::cmp::Ordering;
use std::marker::Model;
use std::time::Duration;

/// Decides when a resource is asked for again, and after which pause. It does nothing itself: it takes each event of a fetch, and says
/// what is to be done.
#[derive(Drop)]
pub struct RetryCore {
    settings: RetrySettings,
    received: u64,
    retries: u32,
    pause: Duration,
    is_ranged: bool,
    is_over: bool,
}

impl Model for RetryCore {
    ghost use Rattle.std.specs.Prelude.{◌≤◌};
    ghost use Rattle.std.specs.Duration.{as_nanos};
    ghost use Rattle.tough_net.specs.RetryRecord.{Fetching};

    ghost Value = { Fetching };

    ghost view = { λ c. record {
      settings = c.settings;
      progress = record {
        received = c.received;
        retries = c.retries;
        pause = as_nanos c.pause;
        is_ranged = c.is_ranged;
        is_over = c.is_over;
      };
    } };

    ghost invariant = { λ c. c.retries ≤ c.settings.tries };
}

impl RetryCore {
    /// The rule at its beginning: no request was made yet.
    pub fn new(settings: RetrySettings) -> RetryCore
        ensures settings { result.settings ≡ settings }
        ensures progress { result.progress ≡ started settings }
    {
        RetryCore {
            settings,
            received: 0,
            retries: 0,
            pause: settings.initial_backoff,
            is_ranged: false,
            is_over: false,
        }
    }

    /// The bytes handed out: the next request is from this byte on.
    pub fn received(&self) -> u64
        ensures { result ≡ self.now.progress.received }
    {
        self.received
    }

    /// The pause before the next request.
    pub fn pause(&self) -> Duration
        ensures { as_nanos result ≡ self.now.progress.pause }
    {
        self.pause
    }

    /// The requests made, or to be made after a pause that has begun.
    pub fn requests(&self) -> u64
        ensures made { result ≡ self.now.progress.retries + 1 }
        ensures bounded { result ≤ self.now.settings.tries + 1 }
    {
        self.retries as u64 + 1
    }

    /// What is to be done after an event. Once it answered `Finish` or `Fail`, it answers `Finish` to each further event.
    pub fn next(&mut self, event: RetryEvent) -> RetryAction
        ensures action { result ≡ (turn self.old.settings self.old.progress event).action }
        ensures progress { self.new.progress
            ≡ (turn self.old.settings self.old.progress event).progress }
        ensures settings { self.new.settings ≡ self.old.settings }
    {
        if self.is_over {
            return RetryAction::Finish;
        }
        match event {
            RetryEvent::Fault(fault) => self.retry(LastRequest::Fault(fault)),
            RetryEvent::Answer {
                status,
                accepts_ranges,
            } => self.answer(status, accepts_ranges),
            RetryEvent::Piece { len } => self.receive(len),
            RetryEvent::End => {
                self.is_over = true;
                RetryAction::Finish
            }
        }
    }

    fn fail(&mut self, error: HttpError) -> RetryAction
        ensures action { result ≡ (failed self.old.settings self.old.progress error).action }
        ensures progress { self.new.progress
            ≡ (failed self.old.settings self.old.progress error).progress }
        ensures settings { self.new.settings ≡ self.old.settings }
    {
        self.is_over = true;
        RetryAction::Fail(error)
    }

    // What is told of a fetch whose last request came to this.
    fn told(&self, last: LastRequest) -> RequestError
        ensures { result ≡ told self.now.progress last }
    {
        RequestError {
            requests: self.requests(),
            received: self.received,
            last,
        }
    }

    fn retry(&mut self, last: LastRequest) -> RetryAction
        ensures action { result ≡ (retried self.old.settings self.old.progress last).action }
        ensures progress { self.new.progress
            ≡ (retried self.old.settings self.old.progress last).progress }
        ensures settings { self.new.settings ≡ self.old.settings }
    {
        let tries = self.settings.tries;
        if self.retries < tries && (self.received == 0 || self.is_ranged) {
            if self.retries != 0 {
                self.pause = next_pause(self.settings, self.pause);
            }
            self.retries += 1;
            RetryAction::Request
        } else {
            let source = self.told(last);
            self.fail(HttpError::FetchNoMoreRetries { tries, source })
        }
    }

    fn answer(&mut self, status: u16, accepts_ranges: bool) -> RetryAction
        ensures action { result ≡ (answered self.old.settings self.old.progress
            status accepts_ranges (class_of status self.old.progress.received)).action }
        ensures progress { self.new.progress ≡ (answered self.old.settings self.old.progress
            status accepts_ranges (class_of status self.old.progress.received)).progress }
        ensures settings { self.new.settings ≡ self.old.settings }
    {
        let source = self.told(LastRequest::Status(status));
        match class_of(status, self.received) {
            AnswerClass::Body => {
                self.is_ranged = self.is_ranged || accepts_ranges;
                RetryAction::Read
            }
            AnswerClass::Missing => self.fail(HttpError::FetchFileNotFound { source }),
            AnswerClass::Refused => self.fail(HttpError::FetchFatal { source }),
            AnswerClass::Unready => self.retry(LastRequest::Status(status)),
        }
    }

    // More bytes than a `u64` counts can't be asked for.
    fn receive(&mut self, len: u64) -> RetryAction
        ensures action { result ≡ (turned self.old.settings self.old.progress
            (RetryEvent.Piece len)).action }
        ensures progress { self.new.progress
            ≡ (turned self.old.settings self.old.progress (RetryEvent.Piece len)).progress }
        ensures settings { self.new.settings ≡ self.old.settings }
    {
        match self.received.checked_add(len) {
            Some(received) => {
                self.received = received;
                RetryAction::Read
            }
            None => {
                let source = self.told(LastRequest::TooLong);
                self.fail(HttpError::FetchFatal { source })
            }
        }
    }
}

// The class of an answer to a request from this byte on.
fn class_of(status: u16, from: u64) -> AnswerClass
    ensures { result ≡ class_of status from }
{
    match status {
        200..=299 if from == 0 || status == 206 => AnswerClass::Body,
        403 | 404 | 410 => AnswerClass::Missing,
        500..=599 => AnswerClass::Unready,
        _ => AnswerClass::Refused,
    }
}

fn next_pause(settings: RetrySettings, pause: Duration) -> Duration
    ensures { as_nanos result ≡ next_pause settings (as_nanos pause) }
{
    let product = multiplied(pause, settings.numerator) / settings.denominator as u128;
    match product.cmp(&settings.max_backoff.as_nanos()) {
        Ordering::Less => Duration::from_nanos_u128(product),
        Ordering::Greater => settings.max_backoff,
        Ordering::Equal => pause,
    }
}

fn multiplied(pause: Duration, factor: u32) -> u128
    ensures { result ≡ as_nanos pause * factor }
{
    pause.as_nanos() * factor as u128
}
