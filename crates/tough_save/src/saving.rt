//! The pieces of a stream become a file.

ghost use Rattle.std.specs.Prelude.{◌≡◌, true, IfErr, string_bytes};
ghost use Rattle.futures.specs.Task.{Covers, Keeps};
ghost use Rattle.futures.specs.Poll.{IfReady, OnPending};
ghost use Rattle.tough_files.specs.Calls.{append_to, rename_to};
ghost use Rattle.tough_save.specs.declared.error.Step.TheVariants as step;
ghost use Rattle.tough_save.specs.Errors.{IsOfFiles};
ghost use Rattle.tough_save.specs.Savings.{Discards, Tries, Saves, Tells, stream_of, temp_of, target_of};

use crate::error::{SaveError, Step, refusal};
use bytes::Bytes;
use futures::task::{Context, Poll};
use futures::{Stream, ready};
use std::alloc::Global;
use tough_files::Files;
use tough_net::TransportError;

// The pieces that one poll takes, before it lets other tasks run.
const BUDGET: u32 = 64;

/// A stream that is being saved: its pieces are appended to a temporary file, which is renamed once the stream has ended. After an error the
/// temporary file is removed; where this is dropped before, it stays.
#[derive(Drop)]
pub struct Saving<S> {
    alloc: Global,
    stream: S,
    temp: String,
    path: String,
}

impl<S> Saving<S> {
    /// Saves the stream at the path, by way of the temporary file, which is there and empty.
    pub fn new(alloc: Global, stream: S, temp: String, path: String) -> Saving<S>
        ensures stream { stream_of result ≡ stream }
        ensures temp { temp_of result ≡ string_bytes temp }
        ensures path { target_of result ≡ string_bytes path }
    {
        Saving {
            alloc,
            stream,
            temp,
            path,
        }
    }

    // Removes the temporary file, as far as the files can.
    fn discard<F: Files>(&self, files: &mut F)
        ensures { F.tells ≡ true
            → Discards (temp_of self.now) (F.calls files.old) (F.calls files.new) }
    {
        let _ = files.remove(self.temp.as_str());
    }

    // Appends a piece; after a refusal the temporary file is removed.
    fn append<F: Files>(&self, files: &mut F, piece: &Bytes) -> Result<(), SaveError>
        ensures tried { F.tells ≡ true
            → Tries (append_to (temp_of self.now) piece.now) step.Write (temp_of self.now)
            (temp_of self.now) result (F.calls files.old) (F.calls files.new) }
        ensures of_files { IfErr result IsOfFiles }
    {
        match files.append(self.temp.as_str(), piece.as_slice()) {
            Ok(()) => Ok(()),
            Err(e) => {
                self.discard(files);
                Err(refusal(self.alloc, Step::Write, self.temp.as_str(), e))
            }
        }
    }

    // Gives the file its name; after a refusal the temporary file is removed.
    fn rename<F: Files>(&self, files: &mut F) -> Result<(), SaveError>
        ensures tried { F.tells ≡ true
            → Tries (rename_to (temp_of self.now) (target_of self.now)) step.Rename
            (target_of self.now) (temp_of self.now) result (F.calls files.old) (F.calls files.new) }
        ensures of_files { IfErr result IsOfFiles }
    {
        match files.rename(self.temp.as_str(), self.path.as_str()) {
            Ok(()) => Ok(()),
            Err(e) => {
                self.discard(files);
                Err(refusal(self.alloc, Step::Rename, self.path.as_str(), e))
            }
        }
    }
}

impl<S: Stream<Item = Result<Bytes, TransportError>>> Saving<S> {
    /// Saves what the stream gives without waiting, some pieces at a time, and is ready once the file has its name, or after the first
    /// error. It isn't to be polled again then.
    pub fn poll_into<F: Files>(
        &mut self,
        files: &mut F,
        cx: &mut Context<'_>,
    ) -> Poll<Result<(), SaveError>>
        requires { S.can_poll (stream_of self.old) }
        ensures saves { F.tells ≡ true
            → IfReady result (λ r. Saves (S.yields (stream_of self.old)) (temp_of self.old)
            (target_of self.old) r (F.calls files.old) (F.calls files.new)) }
        ensures tells { IfReady result (Tells (S.yields (stream_of self.old))) }
        ensures follows { F.tells ≡ true → OnPending result ((r : _) (calls : _)
            → Saves (S.yields (stream_of self.new)) (temp_of self.old) (target_of self.old) r
            (F.calls files.new) calls
            → Saves (S.yields (stream_of self.old)) (temp_of self.old) (target_of self.old) r
            (F.calls files.old) calls) }
        ensures same { OnPending result
            ((r : _) → Tells (S.yields (stream_of self.new)) r
            → Tells (S.yields (stream_of self.old)) r) }
        ensures paths { (temp_of self.new ≡ temp_of self.old)
            × (target_of self.new ≡ target_of self.old) }
        ensures again { OnPending result (S.can_poll (stream_of self.new)) }
        ensures registered { OnPending result (Covers cx.new (S.needs (stream_of self.new))) }
        ensures kept { Keeps cx.old cx.new }
    {
        for _ in 0..BUDGET {
            match ready!(self.stream.poll_next(cx)) {
                Some(Ok(piece)) => {
                    if let Err(e) = self.append(files, &piece) {
                        return Poll::Ready(Err(e));
                    }
                }
                Some(Err(e)) => {
                    self.discard(files);
                    return Poll::Ready(Err(SaveError::Transport(e)));
                }
                None => return Poll::Ready(self.rename(files)),
            }
        }
        cx.yield_now()
    }
}
