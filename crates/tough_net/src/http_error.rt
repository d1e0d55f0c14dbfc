//! How a fetch over HTTP failed, and what its last request came to.

use std::error::Error;
use std::fmt;
use std::fmt::{Display, Formatter};

/// Why a request over HTTP, or its answer's body, came to no end.
#[derive(Debug, Drop, Clone, Copy, PartialEq, Eq)]
pub enum RequestFault {
    /// The host's name has no address.
    NoSuchHost,
    /// The address of the host that was tried last refused the connection.
    Unconnected,
    /// The address of the host that was tried last couldn't be reached.
    Unreachable,
    /// The time for a request was over.
    TimedOut,
    /// The connection ended before an answer came, or what came is no answer of HTTP.
    Unanswered,
    /// The body of the answer broke off.
    Cut,
    /// A request for memory, or for a timer, was refused.
    NoMemory,
}

/// What the last request of a fetch came to.
#[derive(Debug, Drop, Clone, Copy, PartialEq, Eq)]
pub enum LastRequest {
    /// No answer came, or its body broke off.
    Fault(RequestFault),
    /// An answer with this status code came (RFC 9110, section 15).
    Status(u16),
    /// The body went on past the greatest `u64`.
    TooLong,
}

/// The requests of a fetch that failed.
#[derive(Debug, Drop, Clone, Copy, PartialEq, Eq)]
pub struct RequestError {
    /// How many requests were made, the last one among them.
    pub requests: u64,
    /// How many bytes of the resource had come when the last one failed.
    pub received: u64,
    /// What the last one came to.
    pub last: LastRequest,
}

/// How a fetch over HTTP failed.
#[derive(Debug, Drop, Clone, Copy, PartialEq, Eq)]
pub enum HttpError {
    /// The server answered that there is no such file.
    FetchFileNotFound { source: RequestError },
    /// The server's answer forbids another request.
    FetchFatal { source: RequestError },
    /// No request is left of the first and `tries` further ones, or the bytes that are missing can't be asked for.
    FetchNoMoreRetries { tries: u32, source: RequestError },
    /// A client couldn't be made. No call answers it: each request has a connection of its own.
    HttpClient,
    /// A header of a request couldn't be made. No call answers it: a request that can't be made is a fault.
    InvalidHeader,
    /// A request couldn't be made. No call answers it, for the same reason.
    RequestBuild,
    /// TLS couldn't be set up. No call answers it: HTTP is plain.
    TlsBuildError,
}

impl Display for RequestFault {
    fn fmt<W: fmt::Write>(&self, f: &mut Formatter<W>) -> fmt::Result {
        f.write_str(match self {
            RequestFault::NoSuchHost => "no such host",
            RequestFault::Unconnected => "connection refused",
            RequestFault::Unreachable => "host unreachable",
            RequestFault::TimedOut => "timed out",
            RequestFault::Unanswered => "no valid answer",
            RequestFault::Cut => "body broke off",
            RequestFault::NoMemory => "out of memory",
        })
    }
}

impl Display for LastRequest {
    fn fmt<W: fmt::Write>(&self, f: &mut Formatter<W>) -> fmt::Result {
        match self {
            LastRequest::Fault(fault) => write!(f, "{fault}"),
            LastRequest::Status(status) => write!(f, "status {status}"),
            LastRequest::TooLong => f.write_str("body too long"),
        }
    }
}

impl RequestError {
    // What the last request came to, and after how many bytes.
    fn tell_last<W: fmt::Write>(&self, f: &mut Formatter<W>) -> fmt::Result {
        write!(f, "{}", self.last)?;
        match self.received {
            0 => Ok(()),
            received => write!(f, " after {received} bytes"),
        }
    }
}

impl Display for RequestError {
    fn fmt<W: fmt::Write>(&self, f: &mut Formatter<W>) -> fmt::Result {
        self.tell_last(f)?;
        match self.requests {
            1 => Ok(()),
            requests => write!(f, ", the last of {requests} requests"),
        }
    }
}

impl Error for RequestError {}

impl Display for HttpError {
    fn fmt<W: fmt::Write>(&self, f: &mut Formatter<W>) -> fmt::Result {
        match self {
            HttpError::FetchFileNotFound { source } => write!(f, "File not found: {source}"),
            HttpError::FetchFatal { source } => {
                write!(f, "A non-retryable error occurred: {source}")
            }
            HttpError::FetchNoMoreRetries { source, .. } => {
                match source.requests {
                    1 => f.write_str("Fetch failed after 1 request: ")?,
                    requests => write!(f, "Fetch failed after {requests} requests: ")?,
                }
                source.tell_last(f)
            }
            HttpError::HttpClient => f.write_str("Unable to create an HTTP client"),
            HttpError::InvalidHeader => f.write_str("Invalid header"),
            HttpError::RequestBuild => f.write_str("Unable to create a request"),
            HttpError::TlsBuildError => f.write_str("TLS isn't supported"),
        }
    }
}

impl Error for HttpError {}
