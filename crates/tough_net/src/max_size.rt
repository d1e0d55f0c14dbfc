//! A stream of at most so many bytes.
ghost use Rattle.std.specs.Prelude.{◌≡◌, string_bytes};
ghost use Rattle.tough_net.specs.Limiting.{size_after, HandsOn, Limits, limit_of, limited};

use crate::TransportError;
use bytes::Bytes;
use futures::task::{Context, Poll};
use futures::{Stream, ready};
use std::alloc::Global;

/// Hands on the items of a stream while the sum of their bytes is within a limit. From the item that takes the sum over it,
/// each item is an error with cause `MaxSizeExceeded`. The sum stays at the greatest `u64`.
#[derive(Drop)]
pub struct MaxSize<S> {
    alloc: Global,
    stream: S,
    url: String,
    max_size: u64,
    specifier: &'static str,
    size: u64,
}

impl<S> MaxSize<S> {
    /// The stream of this URL, of at most `max_size` bytes. The specifier says where the limit comes from.
    pub fn new(
        alloc: Global,
        stream: S,
        url: String,
        max_size: u64,
        specifier: &'static str,
    ) -> MaxSize<S>
        ensures stream { limited result ≡ stream }
        ensures limit { limit_of result
            ≡ record {
              url = string_bytes url;
              max = max_size;
              specifier
                  = specifier.now;
              size = 0;
            } }
    {
        MaxSize {
            alloc,
            stream,
            url,
            max_size,
            specifier,
            size: 0,
        }
    }

    fn admit(&mut self, item: Result<Bytes, TransportError>) -> Result<Bytes, TransportError>
        ensures counted { self.new ≡ record self.old { size = size_after self.old.size item } }
        ensures gave { HandsOn (limit_of self.old) self.new.size item result }
    {
        if let Ok(bytes) = &item {
            self.size = self.size.saturating_add(bytes.len() as u64);
        }
        if self.size > self.max_size {
            Err(TransportError::exceeded(
                self.alloc,
                self.url.as_str(),
                self.max_size,
                self.specifier,
            ))
        } else {
            item
        }
    }
}

impl<S: Stream<Item = Result<Bytes, TransportError>>> Stream for MaxSize<S> {
    type Item = Result<Bytes, TransportError>;

    ghost can_poll = { λ m. S.can_poll (limited m) };

    ghost needs = { λ m. S.needs (limited m) };

    ghost yields = { λ m. Limits (limit_of m) (S.yields (limited m)) };

    fn poll_next(&mut self, cx: &mut Context<'_>) -> Poll<Option<Self::Item>> {
        match ready!(self.stream.poll_next(cx)) {
            Some(item) => Poll::Ready(Some(self.admit(item))),
            None => Poll::Ready(None),
        }
    }
}
