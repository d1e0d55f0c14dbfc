//! A transport over plain HTTP/1.1.
ghost use Rattle.std.specs.Prelude.{◌≡◌, IfErr, IfSome, IfOk};
ghost use Rattle.std.specs.Duration.{as_nanos};
ghost use Rattle.url.specs.Parts.{serialize};
ghost use Rattle.tough_http.specs.HttpUrls.{IsHttpScheme, RefusesHttp, ServesHttp};
ghost use Rattle.tough_http.specs.Transports.{builder_of};
ghost use Rattle.tough_http.specs.Settings.{defaults, retries_of, settings};

use crate::{HttpRequests, HttpTransportBuilder};
use bytes::Bytes;
use futures::Stream;
use futures::task::{Context, Poll};
use std::alloc::{AllocError, AllocGlobal};
use std::net::Net;
use std::random::RandomSource;
use std::time::Clock;
use tokio::runtime::Handle;
use tough_net::{Requests, Retrying, Transport, TransportError, TransportErrorKind};
use url::Url;

/// Serves URLs of the scheme `http`: one fresh connection for each request, from this thread. To any other scheme it answers
/// `UnsupportedUrlScheme`. The runtime of the handle has to poll the streams.
#[derive(Drop)]
pub struct HttpTransport<R> {
    rt: R,
    handle: Handle,
    settings: HttpTransportBuilder,
}

/// The pieces that come over HTTP, by as many requests as the settings allow. It ends after an error.
#[derive(Drop)]
pub struct HttpStream<R: Net + Clock + RandomSource + AllocGlobal + Clone + Drop> {
    pieces: Retrying<HttpRequests<R>>,
}

impl<R: Net + Clock + RandomSource + AllocGlobal + Clone + Drop> Stream for HttpStream<R> {
    type Item = Result<Bytes, TransportError>;

    ghost can_poll = { λ m. ⟦<Retrying<HttpRequests<R>> as Stream>⟧.can_poll m.pieces };

    ghost yields = { λ m. ⟦<Retrying<HttpRequests<R>> as Stream>⟧.yields m.pieces };

    fn poll_next(&mut self, cx: &mut Context<'_>) -> Poll<Option<Self::Item>> {
        self.pieces.poll_next(cx)
    }
}

impl HttpTransportBuilder {
    /// The transport with these settings, whose sockets and timers are those of a runtime.
    pub fn build<R>(self, rt: R, handle: Handle) -> HttpTransport<R>
        ensures { builder_of result ≡ self }
    {
        HttpTransport {
            rt,
            handle,
            settings: self,
        }
    }
}

impl<R> HttpTransport<R> {
    /// The transport with the default settings.
    pub fn new(rt: R, handle: Handle) -> HttpTransport<R>
        ensures { settings (builder_of result) ≡ defaults }
    {
        HttpTransportBuilder::new().build(rt, handle)
    }
}

impl<R: Clone> HttpTransport<R> {
    // What makes requests of a URL.
    fn requests(&self, url: &Url) -> Result<HttpRequests<R>, AllocError>
        ensures url { IfOk result (λ q. q.url ≡ url.now) }
        ensures timeout { IfOk result
            (λ q. as_nanos q.timeout ≡ (settings (builder_of self.now)).timeout) }
        ensures connect_timeout { IfOk result
            (λ q. as_nanos q.connect_timeout ≡ (settings (builder_of self.now)).connect_timeout) }
        ensures unsent { IfOk result (λ q. q.sent ≡ 0) }
    {
        Ok(HttpRequests {
            rt: self.rt.clone()?,
            handle: self.handle.clone()?,
            url: url.clone()?,
            timeout: self.settings.try_time(),
            connect_timeout: self.settings.connect_time(),
            sent: 0,
        })
    }
}

impl<R: Net + Clock + RandomSource + AllocGlobal + Clone + Drop> Transport for HttpTransport<R> {
    type Stream = HttpStream<R>;

    ghost refuses = { λ _ url. RefusesHttp url.scheme (serialize url) };

    ghost serves = { λ t url xs last. IsHttpScheme url.scheme
        × ServesHttp ⟦<HttpRequests<R> as Requests>⟧.bodies ⟦<HttpRequests<R> as Requests>⟧.answers
        (retries_of (builder_of t)) (serialize url) xs last };

    fn fetch(&self, url: &Url) -> Result<HttpStream<R>, TransportError> {
        let alloc = self.rt.alloc();
        if url.scheme() == "http" {
            let text = String::from_str(alloc, url.as_str())?;
            let requests = self.requests(url)?;
            match Retrying::new(alloc, requests, text, self.settings.retries()) {
                Some(pieces) => Ok(HttpStream { pieces }),
                None => Err(AllocError.into()),
            }
        } else {
            let kind = TransportErrorKind::UnsupportedUrlScheme;
            Err(TransportError::new(alloc, kind, url.as_str())?)
        }
    }
}
