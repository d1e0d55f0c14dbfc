//! Requests over sockets.
ghost use Rattle.std.specs.Prelude.{⊤, List, ℕ};
ghost use Rattle.url.specs.Parts.{serialize};

use crate::body::{HttpAnswer, HttpBody};
use crate::connect::{HttpConnect, HttpPause, HttpSocket};
use crate::metered::Metered;
use bytes::Bytes;
use http::{Request, header};
use http_body_util::Empty;
use hyper::client::conn::http1::{self, Connection};
use std::alloc::{AllocError, AllocGlobal, Global};
use std::hash::RandomState;
use std::net::Net;
use std::random::RandomSource;
use std::time::{Clock, Duration};
use tokio::runtime::Handle;
use tough_net::{RequestFault, Requests};
use url::Url;

/// Makes requests of the resource at a URL, each over a fresh connection.
#[derive(Drop)]
pub struct HttpRequests<R> {
    pub rt: R,
    pub handle: Handle,
    pub url: Url,
    pub timeout: Duration,
    pub connect_timeout: Duration,
    /// The requests sent since the fetch began, modulo 2^64.
    pub sent: u64,
}

impl<R: Net + Clock + RandomSource + AllocGlobal + Clone + Drop> Requests for HttpRequests<R> {
    type Body = HttpBody;

    type Answer = HttpAnswer;

    type Conn = Connection<Metered, Empty<Bytes>>;

    type Socket = HttpSocket;

    type Connect = HttpConnect<R>;

    type Pause = HttpPause;

    // A resource is what its URL names.
    ghost Resource = { List ℕ };

    ghost resource = { λ q. serialize q.url };

    ghost sent = { λ q. q.sent };

    // Nothing is known of what comes over a socket.
    ghost bodies = { λ _ _ _ _. ⊤ };

    ghost answers = { λ _ _ _. ⊤ };

    fn start(&mut self) {
        self.sent = 0;
    }

    fn pause(&self, pause: Duration) -> Option<HttpPause> {
        let sleep = self.handle.time().sleep(&self.rt, pause).ok()?;
        Some(HttpPause {
            sleep,
            length: pause,
        })
    }

    fn connect(&self) -> Result<HttpConnect<R>, RequestFault> {
        let rt = self.rt.clone().map_err(|_| RequestFault::NoMemory)?;
        let handle = self.handle.clone().map_err(|_| RequestFault::NoMemory)?;
        HttpConnect::new(rt, handle, &self.url, self.timeout, self.connect_timeout)
    }

    fn send(
        &mut self,
        socket: HttpSocket,
        from: u64,
    ) -> Result<(HttpAnswer, Connection<Metered, Empty<Bytes>>), RequestFault> {
        self.sent = self.sent.wrapping_add(1);
        let alloc = self.rt.alloc();
        let Some(request) = request_for(alloc, &self.url, from) else {
            return Err(RequestFault::NoMemory);
        };
        let Ok(keys) = RandomState::new(&self.rt) else {
            return Err(RequestFault::NoMemory);
        };
        let HttpSocket { stream, deadline } = socket;
        let Ok((stream, allowance)) = Metered::new(alloc, stream) else {
            return Err(RequestFault::NoMemory);
        };
        let Ok((mut sender, conn)) = http1::handshake(alloc, keys, stream) else {
            return Err(RequestFault::NoMemory);
        };
        let response = sender.send_request(request);
        Ok((
            HttpAnswer {
                alloc,
                response,
                allowance,
                deadline,
            },
            conn,
        ))
    }
}

// The request of a URL's resource, from this byte on.
fn request_for(alloc: Global, url: &Url, from: u64) -> Option<Request<Empty<Bytes>>> {
    let target = target_of(alloc, url).ok()?;
    let host = host_of(alloc, url).ok()?;
    let mut request = Request::get(alloc, target.as_str()).header(header::HOST, host.as_str());
    if from != 0 {
        let range = format!(in alloc; "bytes={from}-").ok()?;
        request = request.header(header::RANGE, range.as_str());
    }
    request.body(Empty::<Bytes>::new()).ok()
}

// The path and the query.
fn target_of(alloc: Global, url: &Url) -> Result<String, AllocError> {
    let path = url.path();
    match url.query() {
        Some(query) => format!(in alloc; "{path}?{query}"),
        None => String::from_str(alloc, path),
    }
}

// The host, and the port where it isn't that of the scheme.
fn host_of(alloc: Global, url: &Url) -> Result<String, AllocError> {
    let host = url.host_str().unwrap_or("");
    match url.port() {
        Some(port) => format!(in alloc; "{host}:{port}"),
        None => String::from_str(alloc, host),
    }
}
