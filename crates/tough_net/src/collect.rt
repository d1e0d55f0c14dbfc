//! The whole of what a URL serves.
ghost use Rattle.std.specs.Prelude.{◌≡◌, ◌≤◌, ◌++◌, ◌⊎◌, [], length, IfOk, IfErr, OnOk, string_bytes};
ghost use Rattle.futures.specs.Runs.{Within};
ghost use Rattle.url.specs.Parts.{serialize};
ghost use Rattle.tough_net.specs.Errors.{IsMemory};
ghost use Rattle.tough_net.specs.Digests.{digests_of};
ghost use Rattle.tough_net.specs.Collecting.{Bounds, Fits, Misfits, Exceeds, Collects, collected, bounds_of, held_by};

use crate::{Digests, Transport, TransportError};
use bytes::Bytes;
use futures::task::{Context, Poll};
use futures::{Future, Stream, ready};
use std::alloc::Global;
use std::mem;
use url::Url;

// The pieces that one poll takes, before it lets other tasks run.
const BUDGET: u32 = 64;

/// The future of all the bytes of a stream, which are at most so many and have each digest that is stated. It answers the first error
/// of the stream, or what `MaxSize` and `DigestCheck` would.
#[derive(Drop)]
pub struct Collect<S> {
    alloc: Global,
    stream: S,
    url: String,
    max_size: u64,
    specifier: &'static str,
    digests: Digests,
    bytes: Vec<u8>,
}

/// Fetches a URL, to hand on its bytes as a whole. The specifier says where the limit of `max_size` bytes comes from. A digest of
/// another length than its hash function's is that of nothing.
pub fn fetch_whole<T: Transport>(
    alloc: Global,
    transport: &T,
    url: &Url,
    max_size: u64,
    specifier: &'static str,
    digests: Digests,
) -> Result<Collect<T::Stream>, TransportError>
    ensures refused { IfErr result (λ e. T.refuses transport.now url.now e ⊎ IsMemory e) }
    ensures can_poll { IfOk result (λ m. T.Stream.can_poll (collected m)) }
    ensures bounds { IfOk result (λ m. bounds_of m
        ≡ record {
          url = serialize url.now;
          max = max_size;
          specifier = specifier.now;
          digests = digests_of digests;
        }) }
    ensures fresh { IfOk result (λ m. held_by m ≡ []) }
    ensures served { IfOk result
        (λ m. Within (T.serves transport.now url.now) (T.Stream.yields (collected m))) }
{
    let text = String::from_str(alloc, url.as_str())?;
    Ok(Collect {
        alloc,
        stream: transport.fetch(url)?,
        url: text,
        max_size,
        specifier,
        digests,
        bytes: Vec::new(alloc),
    })
}

impl<S> Collect<S> {
    // Joins a piece, or says that it is too much.
    fn take_in(&mut self, piece: &Bytes) -> Result<(), TransportError>
        requires { length (held_by self.old) ≤ (bounds_of self.old).max }
        ensures joined { OnOk result (held_by self.new ≡ held_by self.old ++ piece.now) }
        ensures within { OnOk result (length (held_by self.new) ≤ (bounds_of self.old).max) }
        ensures err { IfErr result
            (λ e. IsMemory e ⊎ Exceeds (bounds_of self.old) (held_by self.old ++ piece.now) e) }
        ensures others { self.new ≡ record self.old { bytes = self.new.bytes } }
    {
        if piece.len() as u64 > self.max_size - self.bytes.len() as u64 {
            return Err(TransportError::exceeded(
                self.alloc,
                self.url.as_str(),
                self.max_size,
                self.specifier,
            ));
        }
        self.bytes.extend_from_slice(piece.as_slice())?;
        Ok(())
    }

    // Hands out the bytes, or says that they haven't a digest that is stated.
    fn finish(&mut self) -> Result<Vec<u8>, TransportError>
        requires { length (held_by self.old) ≤ (bounds_of self.old).max }
        ensures ok { IfOk result (λ v. v.items ≡ held_by self.old) }
        ensures fits { IfOk result (λ _. Fits (bounds_of self.old) (held_by self.old)) }
        ensures err { IfErr result (Misfits (bounds_of self.old) (held_by self.old)) }
    {
        if let Some(wrong) = self.digests.first_wrong(self.bytes.as_slice()) {
            return Err(self.digests.mismatch(self.alloc, self.url.as_str(), &wrong));
        }
        Ok(mem::replace(&mut self.bytes, Vec::new(self.alloc)))
    }
}

impl<S: Stream<Item = Result<Bytes, TransportError>>> Future for Collect<S> {
    type Output = Result<Vec<u8>, TransportError>;

    ghost can_poll = { λ m. S.can_poll (collected m) × (length (held_by m) ≤ (bounds_of m).max) };

    ghost needs = { λ m. S.needs (collected m) };

    ghost gives = { λ m. Collects (bounds_of m) (S.yields (collected m)) (held_by m) };

    fn poll(&mut self, cx: &mut Context<'_>) -> Poll<Self::Output> {
        for _ in 0..BUDGET {
            match ready!(self.stream.poll_next(cx)) {
                Some(Ok(piece)) => {
                    if let Err(e) = self.take_in(&piece) {
                        return Poll::Ready(Err(e));
                    }
                }
                Some(Err(e)) => return Poll::Ready(Err(e)),
                None => return Poll::Ready(self.finish()),
            }
        }
        cx.yield_now()
    }
}
