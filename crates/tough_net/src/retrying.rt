//! The stream of a resource that is asked for again where a body breaks off.
ghost use Rattle.std.specs.Prelude.{◌≡◌, ◌⊎◌, false, IfSome, string_bytes};
ghost use Rattle.futures.specs.Runs.{Within};
ghost use Rattle.tough_net.specs.Resource.{Fetches, Happens, IsHttpFault, fault_of, kind_of_http};
ghost use Rattle.tough_net.specs.Errors.{IsMemory};
ghost use Rattle.tough_net.specs.Retries.{started};
ghost use Rattle.tough_net.specs.Retrying.{Acts, CanAct, Goes, IsCounted, IsReadable, StandsWell, Yields};

use crate::{
    Cause, Exchange, HttpError, LastRequest, RequestFault, Requests, Response, RetryAction,
    RetryCore, RetryEvent, RetrySettings, TransportError, TransportErrorKind,
};
use bytes::Bytes;
use futures::task::{Context, Poll};
use futures::{Future, Stream};
use std::alloc::{AllocError, Global};

/// What is under way.
#[derive(Drop)]
pub enum State<P, N, A, C, B> {
    Pausing(P),
    Connecting(N),
    Asking(Exchange<C, A>),
    Reading(Exchange<C, B>),
    Ended,
}

/// Yields a beginning of the resource, by as many requests as a `RetryCore` allows. It ends after an error.
#[derive(Drop)]
pub struct Retrying<Q: Requests> {
    pub alloc: Global,
    pub requests: Q,
    pub url: String,
    pub core: RetryCore,
    pub state: State<Q::Pause, Q::Connect, Q::Answer, Q::Conn, Q::Body>,
}

impl<Q: Requests> Retrying<Q> {
    /// The resource at the URL of this text. `None` where a pause can't be made.
    pub fn new(
        alloc: Global,
        mut requests: Q,
        url: String,
        settings: RetrySettings,
    ) -> Option<Retrying<Q>>
        ensures stands { IfSome result (λ m. StandsWell Q.bodies Q.answers
            Q.Pause.can_poll Q.Pause.gives Q.Connect.can_poll Q.Connect.gives Q.Conn.can_poll
            Q.Answer.can_poll Q.Answer.gives Q.Body.can_poll Q.Body.yields
            m.core.settings (Q.resource m.requests) (Q.sent m.requests)
            m.core.progress m.state) }
        ensures parts { IfSome result (λ m. (Q.resource m.requests ≡ Q.resource requests)
            × (m.url ≡ url)) }
        ensures fresh { IfSome result (λ m. (m.core.settings ≡ settings)
            × (m.core.progress ≡ started settings)) }
        ensures yields { IfSome result (λ m. Within
            (Fetches Q.bodies Q.answers settings (Q.resource requests) (string_bytes url)
            (started settings))
            (Yields Q.bodies Q.answers m.core.settings
            (Q.resource m.requests) (string_bytes m.url) m.core.progress m.state)) }
    {
        requests.start();
        let core = RetryCore::new(settings);
        let pause = requests.pause(core.pause())?;
        Some(Retrying {
            alloc,
            requests,
            url,
            core,
            state: State::Pausing(pause),
        })
    }

    fn fault(&self, error: HttpError) -> TransportError
        ensures { IsMemory result ⊎ IsHttpFault (string_bytes self.now.url) error result }
    {
        let kind = http_kind(error);
        let cause = Cause::Http(error);
        match TransportError::new_with_cause(self.alloc, kind, self.url.as_str(), cause) {
            Ok(e) => e,
            Err(e) => e.into(),
        }
    }

    // Pauses before one more request, or ends with an error.
    fn act(
        &mut self,
        action: RetryAction,
        cx: &mut Context<'_>,
    ) -> Poll<Option<Result<Bytes, TransportError>>>
        requires { CanAct action }
        ensures requests { self.new.requests ≡ self.old.requests }
        ensures core { self.new.core ≡ self.old.core }
        ensures url { self.new.url ≡ self.old.url }
        ensures acts { Acts Q.Pause.can_poll Q.Pause.gives (string_bytes self.old.url)
            self.old.core.progress.pause action self.new.state cx.old cx.new result }
    {
        match action {
            RetryAction::Request => match self.requests.pause(self.core.pause()) {
                Some(pause) => {
                    self.state = State::Pausing(pause);
                    cx.yield_now()
                }
                None => self.fail(AllocError.into()),
            },
            RetryAction::Read | RetryAction::Finish => unreachable!(),
            RetryAction::Fail(error) => {
                let error = self.fault(error);
                self.fail(error)
            }
        }
    }

    // Ends with an error.
    fn fail(&mut self, error: TransportError) -> Poll<Option<Result<Bytes, TransportError>>>
        ensures same { self.new ≡ record self.old { state = State.Ended } }
        ensures ready { result ≡ Poll.Ready (Some (Err error)) }
    {
        self.state = State::Ended;
        Poll::Ready(Some(Err(error)))
    }

    // What a failed try leads to.
    fn retry(
        &mut self,
        fault: RequestFault,
        cx: &mut Context<'_>,
    ) -> Poll<Option<Result<Bytes, TransportError>>>
        requires goes_on { self.old.core.progress.is_over ≡ false }
        requires counted { IsCounted self.old.core.settings (Q.sent self.old.requests)
            self.old.core.progress 1 }
        requires happens { Happens Q.bodies Q.answers (Q.resource self.old.requests)
            self.old.core.progress.received (RetryEvent.Fault fault) }
        ensures { Goes
            (Fetches Q.bodies Q.answers self.old.core.settings
            (Q.resource self.old.requests) (string_bytes self.old.url) self.old.core.progress)
            (Yields Q.bodies Q.answers self.new.core.settings
            (Q.resource self.new.requests) (string_bytes self.new.url) self.new.core.progress self.new.state)
            (StandsWell Q.bodies Q.answers
            Q.Pause.can_poll Q.Pause.gives Q.Connect.can_poll Q.Connect.gives Q.Conn.can_poll
            Q.Answer.can_poll Q.Answer.gives Q.Body.can_poll Q.Body.yields
            self.new.core.settings (Q.resource self.new.requests) (Q.sent self.new.requests)
            self.new.core.progress self.new.state)
            cx.old cx.new result }
    {
        let action = self.core.next(RetryEvent::Fault(fault));
        self.act(action, cx)
    }

    // Connects, once a pause is over.
    fn connect(&mut self, cx: &mut Context<'_>) -> Poll<Option<Result<Bytes, TransportError>>>
        requires goes_on { self.old.core.progress.is_over ≡ false }
        requires counted { IsCounted self.old.core.settings (Q.sent self.old.requests)
            self.old.core.progress 0 }
        ensures { Goes
            (Fetches Q.bodies Q.answers self.old.core.settings
            (Q.resource self.old.requests) (string_bytes self.old.url) self.old.core.progress)
            (Yields Q.bodies Q.answers self.new.core.settings
            (Q.resource self.new.requests) (string_bytes self.new.url) self.new.core.progress self.new.state)
            (StandsWell Q.bodies Q.answers
            Q.Pause.can_poll Q.Pause.gives Q.Connect.can_poll Q.Connect.gives Q.Conn.can_poll
            Q.Answer.can_poll Q.Answer.gives Q.Body.can_poll Q.Body.yields
            self.new.core.settings (Q.resource self.new.requests) (Q.sent self.new.requests)
            self.new.core.progress self.new.state)
            cx.old cx.new result }
    {
        match self.requests.connect() {
            Ok(connect) => {
                self.state = State::Connecting(connect);
                cx.yield_now()
            }
            Err(fault) => self.retry(fault, cx),
        }
    }

    // Asks for the bytes that are missing.
    fn send(
        &mut self,
        socket: Q::Socket,
        cx: &mut Context<'_>,
    ) -> Poll<Option<Result<Bytes, TransportError>>>
        requires goes_on { self.old.core.progress.is_over ≡ false }
        requires counted { IsCounted self.old.core.settings (Q.sent self.old.requests)
            self.old.core.progress 0 }
        ensures { Goes
            (Fetches Q.bodies Q.answers self.old.core.settings
            (Q.resource self.old.requests) (string_bytes self.old.url) self.old.core.progress)
            (Yields Q.bodies Q.answers self.new.core.settings
            (Q.resource self.new.requests) (string_bytes self.new.url) self.new.core.progress self.new.state)
            (StandsWell Q.bodies Q.answers
            Q.Pause.can_poll Q.Pause.gives Q.Connect.can_poll Q.Connect.gives Q.Conn.can_poll
            Q.Answer.can_poll Q.Answer.gives Q.Body.can_poll Q.Body.yields
            self.new.core.settings (Q.resource self.new.requests) (Q.sent self.new.requests)
            self.new.core.progress self.new.state)
            cx.old cx.new result }
    {
        match self.requests.send(socket, self.core.received()) {
            Ok((body, conn)) => {
                let conn = Some(conn);
                self.state = State::Asking(Exchange { conn, body });
                cx.yield_now()
            }
            Err(fault) => self.retry(fault, cx),
        }
    }

    // Takes an answer, with its connection.
    fn answer(
        &mut self,
        response: Response<Q::Body>,
        conn: Option<Q::Conn>,
        cx: &mut Context<'_>,
    ) -> Poll<Option<Result<Bytes, TransportError>>>
        requires conn { IfSome conn Q.Conn.can_poll }
        requires body { IsReadable Q.bodies Q.answers Q.Body.can_poll Q.Body.yields
            (Q.resource self.old.requests) self.old.core.progress.received response }
        requires goes_on { self.old.core.progress.is_over ≡ false }
        requires counted { IsCounted self.old.core.settings (Q.sent self.old.requests)
            self.old.core.progress 1 }
        ensures { Goes
            (Fetches Q.bodies Q.answers self.old.core.settings
            (Q.resource self.old.requests) (string_bytes self.old.url) self.old.core.progress)
            (Yields Q.bodies Q.answers self.new.core.settings
            (Q.resource self.new.requests) (string_bytes self.new.url) self.new.core.progress self.new.state)
            (StandsWell Q.bodies Q.answers
            Q.Pause.can_poll Q.Pause.gives Q.Connect.can_poll Q.Connect.gives Q.Conn.can_poll
            Q.Answer.can_poll Q.Answer.gives Q.Body.can_poll Q.Body.yields
            self.new.core.settings (Q.resource self.new.requests) (Q.sent self.new.requests)
            self.new.core.progress self.new.state)
            cx.old cx.new result }
    {
        let action = self.core.next(RetryEvent::Answer {
            status: response.status,
            accepts_ranges: response.accepts_ranges,
        });
        if action == RetryAction::Read {
            let body = response.body;
            self.state = State::Reading(Exchange { conn, body });
            cx.yield_now()
        } else {
            self.act(action, cx)
        }
    }

    // Goes on with what is under way.
    fn go_on(&mut self, cx: &mut Context<'_>) -> Poll<Option<Result<Bytes, TransportError>>>
        requires { StandsWell Q.bodies Q.answers
            Q.Pause.can_poll Q.Pause.gives Q.Connect.can_poll Q.Connect.gives Q.Conn.can_poll
            Q.Answer.can_poll Q.Answer.gives Q.Body.can_poll Q.Body.yields
            self.old.core.settings (Q.resource self.old.requests) (Q.sent self.old.requests)
            self.old.core.progress self.old.state }
        ensures { Goes
            (Yields Q.bodies Q.answers self.old.core.settings
            (Q.resource self.old.requests) (string_bytes self.old.url) self.old.core.progress self.old.state)
            (Yields Q.bodies Q.answers self.new.core.settings
            (Q.resource self.new.requests) (string_bytes self.new.url) self.new.core.progress self.new.state)
            (StandsWell Q.bodies Q.answers
            Q.Pause.can_poll Q.Pause.gives Q.Connect.can_poll Q.Connect.gives Q.Conn.can_poll
            Q.Answer.can_poll Q.Answer.gives Q.Body.can_poll Q.Body.yields
            self.new.core.settings (Q.resource self.new.requests) (Q.sent self.new.requests)
            self.new.core.progress self.new.state)
            cx.old cx.new result }
    {
        match &mut self.state {
            State::Pausing(pause) => match pause.poll(cx) {
                Poll::Pending => Poll::Pending,
                Poll::Ready(_) => self.connect(cx),
            },
            State::Connecting(connect) => match connect.poll(cx) {
                Poll::Pending => Poll::Pending,
                Poll::Ready(Ok(socket)) => self.send(socket, cx),
                Poll::Ready(Err(fault)) => self.retry(fault, cx),
            },
            State::Asking(exchange) => {
                exchange.poll_conn(cx);
                match exchange.body.poll(cx) {
                    Poll::Pending => Poll::Pending,
                    Poll::Ready(Ok(response)) => {
                        let conn = exchange.conn.take();
                        self.answer(response, conn, cx)
                    }
                    Poll::Ready(Err(fault)) => self.retry(fault, cx),
                }
            }
            State::Reading(exchange) => match exchange.poll_next(cx) {
                Poll::Pending => Poll::Pending,
                Poll::Ready(Some(Ok(piece))) => {
                    let len = piece.len() as u64;
                    match self.core.next(RetryEvent::Piece { len }) {
                        RetryAction::Read => Poll::Ready(Some(Ok(piece))),
                        action => self.act(action, cx),
                    }
                }
                Poll::Ready(Some(Err(error))) => {
                    let fault = fault_of(&error);
                    drop(error);
                    self.retry(fault, cx)
                }
                Poll::Ready(None) => {
                    self.state = State::Ended;
                    Poll::Ready(None)
                }
            },
            State::Ended => Poll::Ready(None),
        }
    }
}

impl<Q: Requests> Stream for Retrying<Q> {
    type Item = Result<Bytes, TransportError>;

    ghost can_poll = { λ m. StandsWell Q.bodies Q.answers
        Q.Pause.can_poll Q.Pause.gives Q.Connect.can_poll Q.Connect.gives Q.Conn.can_poll
        Q.Answer.can_poll Q.Answer.gives Q.Body.can_poll Q.Body.yields
        m.core.settings (Q.resource m.requests) (Q.sent m.requests) m.core.progress m.state };

    ghost yields = { λ m. Yields Q.bodies Q.answers m.core.settings
        (Q.resource m.requests) (string_bytes m.url) m.core.progress m.state };

    fn poll_next(&mut self, cx: &mut Context<'_>) -> Poll<Option<Self::Item>> {
        self.go_on(cx)
    }
}

// The fault that a body's error tells; where it tells none, the body was cut.
fn fault_of(error: &TransportError) -> RequestFault
    ensures { result ≡ fault_of error.now }
{
    let Some(Cause::Http(HttpError::FetchFatal { source })) = error.cause() else {
        return RequestFault::Cut;
    };
    match source.last {
        LastRequest::Fault(fault) => fault,
        LastRequest::Status(_) => RequestFault::Cut,
        LastRequest::TooLong => RequestFault::Cut,
    }
}

fn http_kind(error: HttpError) -> TransportErrorKind
    ensures { result ≡ kind_of_http error }
{
    match error {
        HttpError::FetchFileNotFound { .. } => TransportErrorKind::FileNotFound,
        _ => TransportErrorKind::Other,
    }
}
