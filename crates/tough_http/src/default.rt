//! The transport for files and plain HTTP.
ghost use Rattle.std.specs.Prelude.{◌≡◌, IfOk};
ghost use Rattle.url.specs.Parts.{serialize};
ghost use Rattle.tough_http.specs.DefaultUrls.{RefusesDefault, ServesDefault};
ghost use Rattle.tough_http.specs.declared.default.DefaultStream.TheVariants.{File, Http};
ghost use Rattle.tough_http.specs.Settings.{defaults, settings as settings_by};
ghost use Rattle.tough_http.specs.Transports.{builder_of, files_of, http_of};

use crate::{HttpStream, HttpTransport, HttpTransportBuilder};
use bytes::Bytes;
use futures::Stream;
use futures::task::{Context, Poll};
use std::alloc::{AllocError, AllocGlobal};
use std::net::Net;
use std::random::RandomSource;
use std::rt::Files;
use std::time::Clock;
use tokio::runtime::Handle;
use tough_net::{FileStream, FilesystemTransport, Transport, TransportError};
use url::Url;

/// Serves URLs of the schemes `file` and `http`. To any other it answers `UnsupportedUrlScheme`.
#[derive(Drop)]
pub struct DefaultTransport<R> {
    files: FilesystemTransport<R>,
    http: HttpTransport<R>,
}

/// The pieces of a file, or those that come over HTTP.
#[derive(Drop)]
pub enum DefaultStream<R: Files + Net + Clock + RandomSource + AllocGlobal + Clone + Drop> {
    File(FileStream<R::File>),
    Http(HttpStream<R>),
}

impl<R: Files + Net + Clock + RandomSource + AllocGlobal + Clone + Drop> Stream
    for DefaultStream<R> {
    type Item = Result<Bytes, TransportError>;

    ghost can_poll = { elim [
      | File s ↦ ⟦<FileStream<R::File> as Stream>⟧.can_poll s
      | Http s ↦ ⟦<HttpStream<R> as Stream>⟧.can_poll s
    ] };

    ghost yields = { elim [
      | File s ↦ ⟦<FileStream<R::File> as Stream>⟧.yields s
      | Http s ↦ ⟦<HttpStream<R> as Stream>⟧.yields s
    ] };

    fn poll_next(&mut self, cx: &mut Context<'_>) -> Poll<Option<Self::Item>> {
        match self {
            DefaultStream::File(pieces) => pieces.poll_next(cx),
            DefaultStream::Http(pieces) => pieces.poll_next(cx),
        }
    }
}

impl<R: Files + AllocGlobal + Clone + Drop> DefaultTransport<R> {
    /// The transport with the default settings of HTTP.
    pub fn new(rt: R, handle: Handle) -> Result<DefaultTransport<R>, AllocError>
        ensures { IfOk result (λ t. settings_by (builder_of (http_of t)) ≡ defaults) }
    {
        DefaultTransport::new_with_http_settings(rt, handle, HttpTransportBuilder::new())
    }

    /// The transport with these settings of HTTP.
    pub fn new_with_http_settings(
        rt: R,
        handle: Handle,
        settings: HttpTransportBuilder,
    ) -> Result<DefaultTransport<R>, AllocError>
        ensures { IfOk result (λ t. builder_of (http_of t) ≡ settings) }
    {
        Ok(DefaultTransport {
            files: FilesystemTransport::new(rt.clone()?),
            http: settings.build(rt, handle),
        })
    }
}

impl<R: Files + Net + Clock + RandomSource + AllocGlobal + Clone + Drop> Transport
    for DefaultTransport<R> {
    type Stream = DefaultStream<R>;

    ghost refuses = { λ t url. RefusesDefault
        (⟦<FilesystemTransport<R> as Transport>⟧.refuses (files_of t))
        (⟦<HttpTransport<R> as Transport>⟧.refuses (http_of t)) url };

    ghost serves = { λ t url. ServesDefault
        (⟦<FilesystemTransport<R> as Transport>⟧.serves (files_of t))
        (⟦<HttpTransport<R> as Transport>⟧.serves (http_of t)) url };

    fn fetch(&self, url: &Url) -> Result<Self::Stream, TransportError> {
        if url.scheme() == "http" {
            Ok(DefaultStream::Http(self.http.fetch(url)?))
        } else {
            Ok(DefaultStream::File(self.files.fetch(url)?))
        }
    }
}
