//! A stream whose bytes must have the digests that are stated.
ghost use Rattle.std.specs.Prelude.{◌≡◌, ◌++◌, List, ℕ, [], None, string_bytes};
ghost use Rattle.tough_net.specs.Digests.{digests_of, Says, HasTakenIn};
ghost use Rattle.tough_net.specs.Items.{bytes_of};
ghost use Rattle.tough_net.specs.Checking.{Checked, checked, url_of, expected_of, failure_of, HasTaken};

use crate::digests::{Hashers, WrongDigest};
use crate::{Digests, TransportError};
use bytes::Bytes;
use futures::task::{Context, Poll};
use futures::{Stream, ready};
use std::alloc::Global;

/// Hands on the items of a stream. At its end this ends if the bytes handed on have each digest that is stated. Otherwise it answers an
/// error with cause `HashMismatch`, then and at each further poll: that of SHA-256 where that is wrong, else that of SHA-512.
#[derive(Drop)]
pub struct DigestCheck<S> {
    alloc: Global,
    stream: S,
    url: String,
    digests: Digests,
    hashers: Hashers,
    // The digest of the bytes that turned out wrong.
    failed: Option<WrongDigest>,
}

impl<S> DigestCheck<S> {
    /// The stream of this URL, whose bytes are to have these digests.
    pub fn new(alloc: Global, stream: S, url: String, digests: Digests) -> DigestCheck<S>
        ensures stream { checked result ≡ stream }
        ensures url { url_of result ≡ string_bytes url }
        ensures expected { expected_of result ≡ digests_of digests }
        ensures fresh { HasTaken result [] }
        ensures whole { failure_of result ≡ None }
    {
        let hashers = Hashers::new(&digests);
        DigestCheck {
            alloc,
            stream,
            url,
            digests,
            hashers,
            failed: None,
        }
    }

    fn take_in(&mut self, item: &Result<Bytes, TransportError>)
        ensures fed { (m : List ℕ)
            → HasTakenIn (digests_of self.old.digests) self.old.hashers m
            → HasTakenIn (digests_of self.old.digests) self.new.hashers (m ++ bytes_of item.now) }
        ensures others { self.new ≡ record self.old { hashers = self.new.hashers } }
    {
        if let Ok(bytes) = item {
            self.hashers.update(bytes.as_slice());
        }
    }

    fn mismatch(&self, wrong: &WrongDigest) -> TransportError
        ensures { Says (string_bytes self.now.url) (digests_of self.now.digests) wrong.now result }
    {
        self.digests.mismatch(self.alloc, self.url.as_str(), wrong)
    }
}

impl<S: Stream<Item = Result<Bytes, TransportError>>> Stream for DigestCheck<S> {
    type Item = Result<Bytes, TransportError>;

    ghost can_poll = { λ m. failure_of m ≡ None → S.can_poll (checked m) };

    ghost needs = { λ m. S.needs (checked m) };

    ghost yields = { λ m. Checked m (S.yields (checked m)) };

    fn poll_next(&mut self, cx: &mut Context<'_>) -> Poll<Option<Self::Item>> {
        if let Some(wrong) = self.failed {
            return Poll::Ready(Some(Err(self.mismatch(&wrong))));
        }
        match ready!(self.stream.poll_next(cx)) {
            Some(item) => {
                self.take_in(&item);
                Poll::Ready(Some(item))
            }
            None => {
                let Some(wrong) = self.hashers.first_wrong(&self.digests) else {
                    return Poll::Ready(None);
                };
                let error = self.mismatch(&wrong);
                self.failed = Some(wrong);
                Poll::Ready(Some(Err(error)))
            }
        }
    }
}
