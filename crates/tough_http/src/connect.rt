//! One fresh connection.
ghost use Rattle.std.specs.Prelude.{◌≡◌};
ghost use Rattle.futures.specs.Poll.{OnPending};
ghost use Rattle.futures.specs.Task.{IsArmed, Keeps};

use crate::deadline::Deadline;
use futures::Future;
use futures::task::{Context, Poll};
use std::alloc::{AllocGlobal, Global};
use std::io::{self, ErrorKind};
use std::net::{IpAddr, Net, SocketAddr, ToSocketAddrs};
use std::time::{Clock, Duration};
use tokio::net::{ConnectFuture, TcpStream};
use tokio::runtime::Handle;
use tokio::time::Sleep;
use tough_net::RequestFault;
use url::{Host, Url};

/// A connection, and until when its try may go on.
#[derive(Drop)]
pub struct HttpSocket {
    pub stream: TcpStream,
    pub deadline: Deadline,
}

/// Ends after a pause, and gives its length.
#[derive(Drop)]
pub struct HttpPause {
    pub sleep: Sleep,
    pub length: Duration,
}

impl Future for HttpPause {
    type Output = Duration;

    ghost gives = { λ p o. o ≡ p.length };

    fn poll(&mut self, cx: &mut Context<'_>) -> Poll<Duration> {
        match self.sleep.poll(cx) {
            Poll::Ready(_) => Poll::Ready(self.length),
            Poll::Pending => Poll::Pending,
        }
    }
}

/// Tries the addresses of a host one after another, each for its share of the time.
#[derive(Drop)]
pub struct HttpConnect<R> {
    rt: R,
    handle: Handle,
    // Those that are left, the next one last.
    addresses: Vec<SocketAddr>,
    share: Duration,
    under_way: Option<Attempt>,
    deadline: Deadline,
}

// A connection to one address.
#[derive(Drop)]
struct Attempt {
    connect: ConnectFuture,
    limit: Deadline,
}

impl<R: Net + Clock + AllocGlobal + Drop> HttpConnect<R> {
    /// Begins to connect to the host of a URL. The look-up blocks.
    pub fn new(
        rt: R,
        handle: Handle,
        url: &Url,
        timeout: Duration,
        connect_timeout: Duration,
    ) -> Result<HttpConnect<R>, RequestFault> {
        let mut addresses = match addresses_of(&rt, rt.alloc(), url) {
            Ok(addresses) => addresses,
            Err(error) => return Err(lookup_fault(&error)),
        };
        addresses.reverse();
        let count = u32::try_from(addresses.len()).unwrap_or(u32::MAX);
        let share = connect_timeout
            .checked_div(count)
            .unwrap_or(connect_timeout);
        match handle.time().sleep(&rt, timeout) {
            Ok(sleep) => Ok(HttpConnect {
                rt,
                handle,
                addresses,
                share,
                under_way: None,
                deadline: Deadline::new(sleep),
            }),
            Err(_) => Err(RequestFault::NoMemory),
        }
    }

    // Begins with the next address, if one is left; `NoMemory` where its timer is refused.
    fn next_attempt(&mut self) -> Result<Option<Attempt>, RequestFault> {
        let Some(address) = self.addresses.pop() else {
            return Ok(None);
        };
        match self.handle.time().sleep(&self.rt, self.share) {
            Ok(limit) => Ok(Some(Attempt {
                connect: TcpStream::connect(&self.rt, address, self.handle.reactor()),
                limit: Deadline::new(limit),
            })),
            Err(_) => Err(RequestFault::NoMemory),
        }
    }

    // Goes on to the next address, after this fault of the one before.
    fn go_on(
        &mut self,
        fault: RequestFault,
        cx: &mut Context<'_>,
    ) -> Poll<Result<HttpSocket, RequestFault>>
        ensures registered { OnPending result (IsArmed cx.new) }
        ensures kept { Keeps cx.old cx.new }
    {
        match self.next_attempt() {
            Ok(Some(attempt)) => {
                self.under_way = Some(attempt);
                cx.yield_now()
            }
            Ok(None) => Poll::Ready(Err(fault)),
            Err(refused) => Poll::Ready(Err(refused)),
        }
    }
}

impl<R: Net + Clock + AllocGlobal + Drop> Future for HttpConnect<R> {
    type Output = Result<HttpSocket, RequestFault>;

    fn poll(&mut self, cx: &mut Context<'_>) -> Poll<Self::Output> {
        let Some(attempt) = &mut self.under_way else {
            return self.go_on(RequestFault::NoSuchHost, cx);
        };
        match attempt.connect.poll(cx) {
            Poll::Ready(Ok(stream)) => {
                let deadline = self.deadline.take();
                Poll::Ready(Ok(HttpSocket { stream, deadline }))
            }
            Poll::Ready(Err(error)) => self.go_on(connect_fault(&error), cx),
            Poll::Pending if attempt.limit.poll_over(cx) => self.go_on(RequestFault::TimedOut, cx),
            Poll::Pending if self.deadline.poll_over(cx) => {
                Poll::Ready(Err(RequestFault::TimedOut))
            }
            Poll::Pending => Poll::Pending,
        }
    }
}

// Why there is no connection to an address.
fn connect_fault(error: &io::Error) -> RequestFault {
    match error.kind() {
        ErrorKind::OutOfMemory => RequestFault::NoMemory,
        ErrorKind::ConnectionRefused => RequestFault::Unconnected,
        _ => RequestFault::Unreachable,
    }
}

// Why a look-up failed.
fn lookup_fault(error: &io::Error) -> RequestFault {
    match error.kind() {
        ErrorKind::OutOfMemory => RequestFault::NoMemory,
        _ => RequestFault::NoSuchHost,
    }
}

// The addresses of a URL's host.
fn addresses_of<N: Net>(net: &N, alloc: Global, url: &Url) -> io::Result<Vec<SocketAddr>> {
    let port = url.port_or_known_default().unwrap_or(80);
    let mut found = Vec::new(alloc);
    match url.host() {
        Some(Host::Domain(name)) => {
            for address in (name, port).to_socket_addrs(net)? {
                found.push(address)?;
            }
        }
        Some(Host::Ipv4(ip)) => found.push(SocketAddr::new(IpAddr::V4(ip), port))?,
        Some(Host::Ipv6(ip)) => found.push(SocketAddr::new(IpAddr::V6(ip), port))?,
        None => {}
    }
    Ok(found)
}
