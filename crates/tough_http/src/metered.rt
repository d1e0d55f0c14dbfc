//! A socket of which no more is read than the body of an answer may need.
ghost use Rattle.std.specs.Prelude.{◌≡◌, ⊤};
ghost use Rattle.tokio.specs.Net.{stream_readable, stream_writable};

use futures::task::{Context, Poll};
use std::alloc::{AllocError, Global};
use std::cell::Cell;
use std::io::{self, ErrorKind, IoSlice};
use std::rc::Rc;
use tokio::io::{AsyncRead, AsyncWrite};
use tokio::net::TcpStream;

// The bytes that may come beside those that the body allows: heads, and what is read ahead.
const ASIDE: u64 = 1 << 20;

// The bytes that each byte of the body allows. A body in chunks of one byte takes six.
const FOR_EACH: u64 = 8;

/// How many bytes more may come over a socket: 1 MiB, and eight for each byte of the body that is handed out.
#[derive(Drop)]
pub struct Allowance(Rc<Cell<u64>>);

impl Allowance {
    fn new(alloc: Global) -> Result<Allowance, AllocError> {
        Ok(Allowance(Rc::new(alloc, Cell::new(ASIDE))?))
    }

    /// The same one, for another holder.
    pub fn share(&self) -> Result<Allowance, AllocError> {
        Ok(Allowance(self.0.clone()?))
    }

    /// Allows more, since so many bytes of the body were handed out.
    pub fn extend(&self, len: usize) {
        let more = FOR_EACH.saturating_mul(len as u64);
        self.0.set(self.0.get().saturating_add(more));
    }

    // Takes so many bytes off.
    fn spend(&self, len: usize) {
        self.0.set(self.0.get().saturating_sub(len as u64));
    }

    fn is_spent(&self) -> bool {
        self.0.get() == 0
    }
}

/// A socket. A read fails once its allowance is spent, so that what is no body ends long before the time does.
#[derive(Drop)]
pub struct Metered {
    stream: TcpStream,
    allowance: Allowance,
}

impl Metered {
    /// The socket, and its allowance, which the body extends.
    pub fn new(alloc: Global, stream: TcpStream) -> Result<(Metered, Allowance), AllocError> {
        let allowance = Allowance::new(alloc)?;
        let shared = allowance.share()?;
        Ok((Metered { stream, allowance }, shared))
    }
}

impl AsyncRead for Metered {
    ghost needs = { λ s source. source ≡ stream_readable s.stream };

    ghost reads = { λ _ _ _. ⊤ };

    ghost is_at_end = { λ _. ⊤ };

    ghost reads_nothing = { λ _. tt };

    ghost reads_in_order = { λ _ _ _ _ _ _ _. tt };

    fn poll_read(&mut self, cx: &mut Context<'_>, buf: &mut [u8]) -> Poll<io::Result<usize>> {
        if self.allowance.is_spent() {
            let words = "more came than the body may need";
            return Poll::Ready(Err(io::Error::new(ErrorKind::InvalidData, words)));
        }
        match self.stream.poll_read(cx, buf) {
            Poll::Ready(Ok(len)) => {
                self.allowance.spend(len);
                Poll::Ready(Ok(len))
            }
            Poll::Ready(Err(error)) => Poll::Ready(Err(error)),
            Poll::Pending => Poll::Pending,
        }
    }
}

impl AsyncWrite for Metered {
    ghost needs = { λ s source. source ≡ stream_writable s.stream };

    ghost writes = { λ _ _ _. ⊤ };

    ghost writes_nothing = { λ _. tt };

    ghost writes_in_order = { λ _ _ _ _ _ _ _. tt };

    fn poll_write(&mut self, cx: &mut Context<'_>, buf: &[u8]) -> Poll<io::Result<usize>> {
        self.stream.poll_write(cx, buf)
    }

    fn poll_write_vectored(
        &mut self,
        cx: &mut Context<'_>,
        bufs: &[IoSlice<'_>],
    ) -> Poll<io::Result<usize>> {
        self.stream.poll_write_vectored(cx, bufs)
    }

    fn is_write_vectored(&self) -> bool {
        self.stream.is_write_vectored()
    }

    fn poll_flush(&mut self, cx: &mut Context<'_>) -> Poll<io::Result<()>> {
        self.stream.poll_flush(cx)
    }

    fn poll_shutdown(&mut self, cx: &mut Context<'_>) -> Poll<io::Result<()>> {
        self.stream.poll_shutdown(cx)
    }
}
