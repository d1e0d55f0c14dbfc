//! A transport over the file system.
ghost use Rattle.std.specs.Prelude.{◌≡◌, IfOk, IfErr, OnOk, string_bytes};
ghost use Rattle.url.specs.Parts.{serialize};
ghost use Rattle.tough_net.specs.FilesystemUrls.{IsFileScheme, IsFileFault, RefusesUrl, Reads, read_url, runtime_of};

use crate::{Cause, Transport, TransportError, TransportErrorKind};
use bytes::Bytes;
use futures::Stream;
use futures::task::{Context, Poll};
use std::alloc::{AllocError, AllocGlobal, Global};
use std::io::Read;
use std::rt::Files;
use std::{fs, io};
use url::Url;

// The most bytes of a piece.
const PIECE_LEN: usize = 8192;

/// Serves files by URLs of the scheme `file`, whose path is taken as it stands: no escape is decoded.
///
/// A missing file is `FileNotFound`, another fault `Other`, and another scheme `UnsupportedUrlScheme`. A fifo, a socket or a
/// device is refused before it is opened.
#[derive(Drop)]
pub struct FilesystemTransport<R> {
    rt: R,
}

impl<R: Files + AllocGlobal + Drop> FilesystemTransport<R> {
    /// The transport that reads files by this runtime.
    pub fn new(rt: R) -> FilesystemTransport<R>
        ensures { runtime_of result ≡ rt }
    {
        FilesystemTransport { rt }
    }
}

impl<R: Files + AllocGlobal + Drop> Transport for FilesystemTransport<R> {
    type Stream = FileStream<R::File>;

    ghost refuses = { λ _ url. RefusesUrl url.scheme (serialize url) };

    ghost serves = { λ _ url xs last. IsFileScheme url.scheme × Reads (serialize url) xs last };

    fn fetch(&self, url: &Url) -> Result<FileStream<R::File>, TransportError> {
        open_file(&self.rt, url.scheme(), url.as_str(), url.path())
    }
}

// Opens the file at this path, which is that of the URL with this scheme and text.
fn open_file<R: Files + AllocGlobal>(
    rt: &R,
    scheme: &str,
    url: &str,
    path: &str,
) -> Result<FileStream<R::File>, TransportError>
    ensures scheme { OnOk result (IsFileScheme scheme.now) }
    ensures url { IfOk result (λ s. read_url s ≡ url.now) }
    ensures err { IfErr result (RefusesUrl scheme.now url.now) }
{
    let alloc = rt.alloc();
    if scheme != "file" {
        let kind = TransportErrorKind::UnsupportedUrlScheme;
        return Err(TransportError::new(alloc, kind, url)?);
    }
    let text = String::from_str(alloc, url)?;
    match open_regular(rt, path) {
        Ok(file) => Ok(FileStream {
            alloc,
            file: Some(file),
            url: text,
        }),
        Err(e) => Err(file_fault(alloc, url, &e)),
    }
}

// Opens what is no fifo, socket or device, which might never answer. The system itself refuses to read a folder.
fn open_regular<R: Files>(rt: &R, path: &str) -> io::Result<R::File> {
    let metadata = fs::metadata(rt, path)?;
    if metadata.is_file() || metadata.is_dir() {
        fs::open(rt, path)
    } else {
        Err(io::Error::new(io::ErrorKind::InvalidInput, "not a regular file"))
    }
}

// A fault of the file at the URL of this text.
fn file_fault(alloc: Global, url: &str, error: &io::Error) -> TransportError
    ensures { IsFileFault url.now result }
{
    let kind = match error.kind() {
        io::ErrorKind::NotFound => TransportErrorKind::FileNotFound,
        io::ErrorKind::OutOfMemory => return AllocError.into(),
        _ => TransportErrorKind::Other,
    };
    let Ok(text) = format!(in alloc; "{error}") else {
        return AllocError.into();
    };
    match TransportError::new_with_cause(alloc, kind, url, Cause::Text(text)) {
        Ok(e) => e,
        Err(e) => e.into(),
    }
}

/// The pieces of an open file. It ends after an error.
#[derive(Drop)]
pub struct FileStream<F> {
    alloc: Global,
    file: Option<F>,
    url: String,
}

impl<F: Read + Drop> Stream for FileStream<F> {
    type Item = Result<Bytes, TransportError>;

    ghost yields = { λ m. Reads (read_url m) };

    fn poll_next(&mut self, cx: &mut Context<'_>) -> Poll<Option<Self::Item>> {
        let Some(file) = &mut self.file else {
            return Poll::Ready(None);
        };
        let mut buffer = [0u8; PIECE_LEN];
        match file.read(&mut buffer) {
            Ok(0) => Poll::Ready(None),
            Ok(len) => match Bytes::copy_from_slice(self.alloc, &buffer[..len]) {
                Ok(piece) => Poll::Ready(Some(Ok(piece))),
                Err(e) => {
                    self.file = None;
                    Poll::Ready(Some(Err(e.into())))
                }
            },
            Err(e) if e.kind() == io::ErrorKind::Interrupted => cx.yield_now(),
            Err(e) => {
                self.file = None;
                Poll::Ready(Some(Err(file_fault(self.alloc, self.url.as_str(), &e))))
            }
        }
    }
}
