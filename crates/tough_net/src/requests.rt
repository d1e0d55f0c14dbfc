//! What makes requests of one resource.
ghost use Rattle.std.specs.Prelude.{◌≡◌, ◌+◌, ◌%◌, ◌^◌, ℕ, List, Option, IfSome, IfOk, IfErr};
ghost use Rattle.futures.specs.Runs.{Within};
ghost use Rattle.tough_net.specs.Items.{Item as Piece};
ghost use Rattle.tough_net.specs.Retries.{class_of};
ghost use Rattle.tough_net.specs.declared.retry_events.RetryEvent.{RetryEvent as Event};

use crate::{AnswerClass, RequestFault, RetryEvent, TransportError};
use bytes::Bytes;
use futures::{Future, Stream};
use std::time::Duration;

/// The answer to a request, whose body is still to be read.
#[derive(Drop)]
pub struct Response<B> {
    pub status: u16,
    /// Whether a field `Accept-Ranges` contains `bytes`.
    pub accepts_ranges: bool,
    pub body: B,
}

/// Makes requests of one resource, each over a connection of its own and from some byte on, and pauses.
pub trait Requests: Drop {
    /// An error of a body tells the fault as its cause, `FetchFatal`; one without such a cause says that the body broke off.
    type Body: Stream<Item = Result<Bytes, TransportError>>;

    type Answer: Future<Output = Result<Response<Self::Body>, RequestFault>>;

    type Conn: Future<Output: Drop>;

    type Socket: Drop;

    type Connect: Future<Output = Result<Self::Socket, RequestFault>>;

    /// Gives how long it was.
    type Pause: Future<Output = Duration>;

    // What is asked for, whatever was sent so far.
    ghost Resource: { Type 0 };

    ghost resource: { Self → Resource };

    // The requests sent since `start`, modulo 2^64.
    ghost sent: { Self → ℕ };

    // Holds of a byte, some items and one more answer, where the body of an answer to a request from that byte may give them, if its
    // status code says that it has what was asked for.
    ghost bodies: { Resource → ℕ → List Piece → Option Piece → Type 0 };

    // Holds of a byte and an event, where a request from that byte may come to it: an answer, or a
    // fault before one.
    ghost answers: { Resource → ℕ → Event → Type 0 };

    /// Begins a fetch, of which nothing was sent.
    fn start(&mut self)
        ensures unsent { sent self.new ≡ 0 }
        ensures same { resource self.new ≡ resource self.old };

    /// A pause of this length, or `None` where none can be made.
    fn pause(&self, pause: Duration) -> Option<Self::Pause>
        ensures can { IfSome result Self.Pause.can_poll }
        ensures long { IfSome result (λ p. (o : _) → Self.Pause.gives p o → o ≡ pause) };

    /// A connection.
    fn connect(&self) -> Result<Self::Connect, RequestFault>
        ensures can { IfOk result Self.Connect.can_poll }
        ensures none { IfErr result (λ fault. (from : ℕ)
            → answers (resource self.now) from (RetryEvent.Fault fault)) }
        ensures lost { IfOk result (λ c. (o : _) → Self.Connect.gives c o → IfErr o (λ fault.
            (from : ℕ) → answers (resource self.now) from (RetryEvent.Fault fault))) };

    /// Sends a request from this byte on.
    fn send(
        &mut self,
        socket: Self::Socket,
        from: u64,
    ) -> Result<(Self::Answer, Self::Conn), RequestFault>
        ensures counted { sent self.new ≡ (sent self.old + 1) % 2 ^ 64 }
        ensures same { resource self.new ≡ resource self.old }
        ensures conn { IfOk result (λ both. Self.Conn.can_poll both.1) }
        ensures answer { IfOk result (λ both. Self.Answer.can_poll both.0) }
        ensures body { IfOk result (λ both. (o : _) → Self.Answer.gives both.0 o
            → IfOk o (λ r. Self.Body.can_poll r.body)) }
        ensures none { IfErr result (λ fault.
            answers (resource self.old) from (RetryEvent.Fault fault)) }
        ensures lost { IfOk result (λ both. (o : _) → Self.Answer.gives both.0 o
            → IfErr o (λ fault. answers (resource self.old) from (RetryEvent.Fault fault))) }
        ensures answered { IfOk result (λ both. (o : _) → Self.Answer.gives both.0 o
            → IfOk o (λ r. answers (resource self.old) from
            (RetryEvent.Answer r.status r.accepts_ranges))) }
        ensures told { IfOk result (λ both. (o : _) → Self.Answer.gives both.0 o → IfOk o
            (λ r. class_of r.status from ≡ AnswerClass.Body
            → Within (bodies (resource self.old) from) (Self.Body.yields r.body))) };
}
