//! Streams whose bytes are kept.

ghost use Rattle.std.specs.Prelude.{◌≡◌};
ghost use Rattle.tough_cache.specs.Streams.{stream_of};

use bytes::Bytes;
use futures::task::{Context, Poll};
use futures::{Stream, ready};
use std::fs;
use std::io::Write;
use std::rt::Files;
use tough_net::TransportError;

// A file that is being written beside its place.
#[derive(Drop)]
struct Writing<R: Files + Drop> {
    rt: R,
    file: R::File,
    temp: String,
    path: String,
}

impl<R: Files + Drop> Writing<R> {
    // Gives the file its name.
    fn finish(self) {
        let Writing {
            rt,
            file,
            temp,
            path,
        } = self;
        drop(file);
        let _ = fs::rename(&rt, temp.as_str(), path.as_str());
    }

    // Removes the file.
    fn abandon(self) {
        let Writing { rt, file, temp, .. } = self;
        drop(file);
        let _ = fs::remove_file(&rt, temp.as_str());
    }
}

// Notes what a stream gave: a piece is written, and the end gives the file its name. After a fault nothing is kept.
fn note<R: Files + Drop>(
    writing: Option<Writing<R>>,
    given: &Option<Result<Bytes, TransportError>>,
) -> Option<Writing<R>> {
    let mut writing = match writing {
        Some(writing) => writing,
        None => return None,
    };
    match given {
        Some(Ok(piece)) => {
            if writing.file.write_all(piece.as_slice()).is_ok() {
                return Some(writing);
            }
            writing.abandon();
        }
        Some(Err(_)) => writing.abandon(),
        None => writing.finish(),
    }
    None
}

/// A stream whose bytes are kept once it has ended well, as far as the files can.
#[derive(Drop)]
pub struct Keeping<S, R: Files + Drop> {
    stream: S,
    writing: Option<Writing<R>>,
}

impl<S, R: Files + Drop> Keeping<S, R> {
    /// The stream, of which nothing is kept.
    pub(crate) fn plain(stream: S) -> Keeping<S, R>
        ensures { stream_of result ≡ stream }
    {
        Keeping {
            stream,
            writing: None,
        }
    }

    /// The stream, whose bytes are written at the second path and renamed to the first.
    pub(crate) fn new(rt: R, stream: S, path: String, temp: String) -> Keeping<S, R>
        ensures { stream_of result ≡ stream }
    {
        let writing = match fs::File::create(&rt, temp.as_str()) {
            Ok(file) => Some(Writing {
                rt,
                file,
                temp,
                path,
            }),
            Err(_) => None,
        };
        Keeping { stream, writing }
    }
}

impl<S: Stream<Item = Result<Bytes, TransportError>>, R: Files + Drop> Stream for Keeping<S, R> {
    type Item = Result<Bytes, TransportError>;

    ghost can_poll = { λ m. S.can_poll (stream_of m) };

    ghost needs = { λ m. S.needs (stream_of m) };

    ghost yields = { λ m. S.yields (stream_of m) };

    fn poll_next(&mut self, cx: &mut Context<'_>) -> Poll<Option<Self::Item>> {
        let given = ready!(self.stream.poll_next(cx));
        self.writing = note(self.writing.take(), &given);
        Poll::Ready(given)
    }
}
