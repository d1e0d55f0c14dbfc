//! The answer to a request, and its body.

use crate::answer::response;
use crate::deadline::Deadline;
use crate::metered::{Allowance, Metered};
use bytes::Bytes;
use futures::task::{Context, Poll};
use futures::{Future, Stream};
use http_body::Body;
use hyper::body::Incoming;
use hyper::client::conn::http1::ResponseFuture;
use std::alloc::{AllocError, Global};
use tough_net::{
    Cause, HttpError, LastRequest, RequestError, RequestFault, Response, TransportError,
    TransportErrorKind,
};

/// Gives the answer to a request, or why none came.
#[derive(Drop)]
pub struct HttpAnswer {
    pub alloc: Global,
    pub response: ResponseFuture<Metered>,
    pub allowance: Allowance,
    pub deadline: Deadline,
}

impl Future for HttpAnswer {
    type Output = Result<Response<HttpBody>, RequestFault>;

    fn poll(&mut self, cx: &mut Context<'_>) -> Poll<Self::Output> {
        match self.response.poll(cx) {
            Poll::Ready(Ok(answer)) => {
                let Ok(allowance) = self.allowance.share() else {
                    return Poll::Ready(Err(RequestFault::NoMemory));
                };
                let (head, body) = answer.into_parts();
                let body = HttpBody {
                    alloc: self.alloc,
                    body,
                    allowance,
                    deadline: self.deadline.take(),
                };
                Poll::Ready(Ok(response(head.status.as_u16(), &head.headers, body)))
            }
            Poll::Ready(Err(_)) => Poll::Ready(Err(RequestFault::Unanswered)),
            Poll::Pending if self.deadline.poll_over(cx) => {
                Poll::Ready(Err(RequestFault::TimedOut))
            }
            Poll::Pending => Poll::Pending,
        }
    }
}

/// The pieces of a body as they come, without a copy. A body that breaks off, or takes too long, ends with an error that says so.
#[derive(Drop)]
pub struct HttpBody {
    alloc: Global,
    body: Incoming<Metered>,
    allowance: Allowance,
    deadline: Deadline,
}

impl Stream for HttpBody {
    type Item = Result<Bytes, TransportError>;

    fn poll_next(&mut self, cx: &mut Context<'_>) -> Poll<Option<Self::Item>> {
        match self.body.poll_frame(cx) {
            Poll::Ready(Some(Ok(frame))) => match frame.into_data() {
                Ok(piece) => {
                    self.allowance.extend(piece.len());
                    Poll::Ready(Some(Ok(piece)))
                }
                // Trailers are passed over.
                Err(_) => cx.yield_now(),
            },
            Poll::Ready(Some(Err(_))) => {
                Poll::Ready(Some(Err(lost(self.alloc, RequestFault::Cut))))
            }
            Poll::Ready(None) => Poll::Ready(None),
            Poll::Pending if self.deadline.poll_over(cx) => {
                Poll::Ready(Some(Err(lost(self.alloc, RequestFault::TimedOut))))
            }
            Poll::Pending => Poll::Pending,
        }
    }
}

// What a body ends with that came to this fault. `Retrying` answers its own error in its place.
fn lost(alloc: Global, fault: RequestFault) -> TransportError {
    let source = RequestError {
        requests: 1,
        received: 0,
        last: LastRequest::Fault(fault),
    };
    let cause = Cause::Http(HttpError::FetchFatal { source });
    match TransportError::new_with_cause(alloc, TransportErrorKind::Other, "", cause) {
        Ok(e) => e,
        Err(e) => e.into(),
    }
}
