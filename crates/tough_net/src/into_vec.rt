//! All the bytes of a stream.
ghost use Rattle.std.specs.Prelude.{◌≡◌, []};
ghost use Rattle.tough_net.specs.Joining.{Joins, stream_of, held_in};

use crate::TransportError;
use bytes::Bytes;
use futures::task::{Context, Poll};
use futures::{Future, Stream, ready};
use std::alloc::Global;
use std::mem;

// The pieces that one poll takes, before it lets other tasks run.
const BUDGET: u32 = 64;

/// Streams whose bytes can be joined.
pub trait IntoVec: Stream {
    /// Joins the pieces of the stream, up to its end or its first error.
    final fn into_vec(self, alloc: Global) -> IntoVecFuture<Self>
    where
        Self: Sized,
        ensures stream { stream_of result ≡ self }
        ensures bytes { held_in result ≡ [] }
    {
        IntoVecFuture {
            stream: self,
            bytes: Vec::new(alloc),
        }
    }
}

impl<S: Stream<Item = Result<Bytes, TransportError>>> IntoVec for S {}

/// The future of `into_vec`: the joined bytes, or the first error.
#[derive(Drop)]
pub struct IntoVecFuture<S> {
    stream: S,
    bytes: Vec<u8>,
}

impl<S: Stream<Item = Result<Bytes, TransportError>>> Future for IntoVecFuture<S> {
    type Output = Result<Vec<u8>, TransportError>;

    ghost can_poll = { λ m. S.can_poll (stream_of m) };

    ghost needs = { λ m. S.needs (stream_of m) };

    ghost gives = { λ m. Joins (S.yields (stream_of m)) (held_in m) };

    fn poll(&mut self, cx: &mut Context<'_>) -> Poll<Self::Output> {
        for _ in 0..BUDGET {
            match ready!(self.stream.poll_next(cx)) {
                Some(Ok(piece)) => {
                    if let Err(e) = self.bytes.extend_from_slice(piece.as_slice()) {
                        return Poll::Ready(Err(e.into()));
                    }
                }
                Some(Err(e)) => return Poll::Ready(Err(e)),
                None => {
                    let alloc = *self.bytes.allocator();
                    return Poll::Ready(Ok(mem::replace(&mut self.bytes, Vec::new(alloc))));
                }
            }
        }
        cx.yield_now()
    }
}
