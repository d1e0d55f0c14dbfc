//! A body over HTTP.

ghost use Rattle.futures.specs.Task.{Keeps};

use anyhow::{Error, anyhow};
use std::alloc::AllocGlobal;
use std::io::Print;
use std::net::Net;
use std::random::RandomSource;
use std::rt::Files;
use std::sync::Wait;
use std::time::{Clock, Duration, Instant};
use tough::{
    Bytes, Context, DefaultTransport, Future, HttpTransportBuilder, LocalRuntime, Poll, Stream,
    Transport, TransportError, Url,
};

// The pieces that one poll takes, before it lets timers and other sockets have their turn.
const BUDGET: u32 = 64;

// Lets go of the pieces of a stream, and counts their bytes.
#[derive(Drop)]
struct Length<S> {
    stream: S,
    length: u64,
}

impl<S: Stream<Item = Result<Bytes, TransportError>>> Future for Length<S> {
    type Output = Result<u64, TransportError>;

    ghost can_poll = { λ m. S.can_poll m.stream };

    ghost needs = { λ m. S.needs m.stream };

    fn poll(&mut self, cx: &mut Context<'_>) -> Poll<Self::Output> {
        for _ in 0..BUDGET {
            match self.stream.poll_next(cx) {
                Poll::Pending => return Poll::Pending,
                Poll::Ready(Some(Ok(piece))) => {
                    self.length = self.length.saturating_add(piece.len() as u64);
                }
                Poll::Ready(Some(Err(e))) => return Poll::Ready(Err(e)),
                Poll::Ready(None) => return Poll::Ready(Ok(self.length)),
            }
        }
        cx.yield_now()
    }
}

// The length of the body at a URL.
fn length_by<R, T>(
    rt: &R,
    runtime: &mut LocalRuntime,
    transport: T,
    url: &Url,
) -> Result<u64, Error>
where
    R: Wait + Clock + RandomSource + AllocGlobal,
    T: Transport,
{
    match transport.fetch(url) {
        Ok(stream) => match runtime.block_on(rt, Length { stream, length: 0 })? {
            Ok(length) => Ok(length),
            Err(e) => Err(anyhow!("{e}")),
        },
        Err(e) => Err(anyhow!("{e}")),
    }
}

/// Fetches the body at a URL and keeps none of it, and prints its length and how long that took. No pause stands before the request, as one
/// does by default.
pub fn run<R>(rt: &R, url: &str) -> Result<(), Error>
where
    R: Files + Net + Wait + Clock + RandomSource + AllocGlobal + Print + Clone + Drop,
{
    let url = Url::parse(rt.alloc(), url)?;
    let settings = HttpTransportBuilder::new().initial_backoff(Duration::ZERO);
    let began = Instant::now(rt)?;
    let mut runtime = LocalRuntime::new(rt)?;
    let handle = runtime.handle().clone()?;
    let transport = DefaultTransport::new_with_http_settings(rt.clone()?, handle, settings)?;
    let length = length_by(rt, &mut runtime, transport, &url);
    drop(runtime);
    let (length, millis) = (length?, began.elapsed(rt)?.as_millis());
    println!(rt; "{length} bytes in {millis} ms")?;
    Ok(())
}
