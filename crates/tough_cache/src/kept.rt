//! Files that were kept.

use bytes::Bytes;
use futures::Stream;
use futures::task::{Context, Poll};
use std::alloc::{AllocError, Global};
use std::io;
use std::io::Read;
use tough_net::{Cause, TransportError, TransportErrorKind};

// The most bytes of a piece.
const PIECE_LEN: usize = 8192;

/// The pieces of a file that was kept. It ends after an error, which is `Other`.
#[derive(Drop)]
pub struct KeptFile<F> {
    alloc: Global,
    file: Option<F>,
    url: String,
}

impl<F> KeptFile<F> {
    /// The pieces of the open file, which is served at the URL of this text.
    pub(crate) fn new(alloc: Global, file: F, url: String) -> KeptFile<F> {
        KeptFile {
            alloc,
            file: Some(file),
            url,
        }
    }

    // The error at the URL.
    fn fault(&self, error: &io::Error) -> TransportError {
        let Ok(text) = format!(in self.alloc; "{error}") else {
            return AllocError.into();
        };
        let kind = TransportErrorKind::Other;
        match TransportError::new_with_cause(
            self.alloc,
            kind,
            self.url.as_str(),
            Cause::Text(text),
        ) {
            Ok(e) => e,
            Err(e) => e.into(),
        }
    }
}

impl<F: Read + Drop> Stream for KeptFile<F> {
    type Item = Result<Bytes, TransportError>;

    fn poll_next(&mut self, cx: &mut Context<'_>) -> Poll<Option<Self::Item>> {
        let Some(file) = &mut self.file else {
            return Poll::Ready(None);
        };
        let mut buffer = [0u8; PIECE_LEN];
        match file.read(&mut buffer) {
            Ok(0) => Poll::Ready(None),
            Ok(len) => match Bytes::copy_from_slice(self.alloc, &buffer[..len]) {
                Ok(piece) => Poll::Ready(Some(Ok(piece))),
                Err(e) => {
                    self.file = None;
                    Poll::Ready(Some(Err(e.into())))
                }
            },
            Err(e) if e.kind() == io::ErrorKind::Interrupted => cx.yield_now(),
            Err(e) => {
                self.file = None;
                Poll::Ready(Some(Err(self.fault(&e))))
            }
        }
    }
}
