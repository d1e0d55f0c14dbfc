//! Why a transport failed.
ghost use Rattle.std.specs.Prelude.{◌≡◌, string_bytes, Some, None, IfOk};
ghost use Rattle.std.specs.Option.{option_copied};
ghost use Rattle.tough_net.specs.Errors.{IsExceeded, IsMemory, IsMismatch, error_kind, error_url, error_cause};

use crate::{HttpError, Printable, Shown};
use std::alloc::{AllocError, Global};
use std::error::Error;
use std::fmt;
use std::fmt::{Display, Formatter};

/// What kind of fault a transport met.
#[derive(Debug, Drop, Clone, Copy, PartialEq, Eq)]
pub enum TransportErrorKind {
    /// The transport doesn't serve URLs of this scheme.
    UnsupportedUrlScheme,
    /// There is no such file.
    FileNotFound,
    /// Any other fault.
    Other,
    /// A request for memory was refused.
    Memory,
}

/// What led to a transport's fault.
#[derive(Debug, Drop)]
pub enum Cause {
    /// More bytes came than the limit allows. The specifier says where the limit comes from.
    MaxSizeExceeded {
        max_size: u64,
        specifier: &'static str,
    },
    /// The bytes don't have the digest. Both digests are in hexadecimal digits; the context is the URL.
    HashMismatch {
        context: String,
        calculated: String,
        expected: String,
    },
    /// A fault of HTTP.
    Http(HttpError),
    /// Another cause, by its text.
    Text(String),
}

/// A fault of a transport at a URL. Where memory is wanting, the URL is the empty text.
#[derive(Debug, Drop)]
pub struct TransportError {
    kind: TransportErrorKind,
    url: Option<String>,
    cause: Option<Cause>,
}

impl From<AllocError> for TransportError {
    ghost from_gives = { λ _ e. IsMemory e };

    fn from(_: AllocError) -> TransportError {
        TransportError {
            kind: TransportErrorKind::Memory,
            url: None,
            cause: None,
        }
    }
}

impl TransportError {
    /// A fault at the URL of this text.
    pub fn new(
        alloc: Global,
        kind: TransportErrorKind,
        url: &str,
    ) -> Result<TransportError, AllocError>
        ensures kind { IfOk result (λ e. error_kind e ≡ kind) }
        ensures url { IfOk result (λ e. error_url e ≡ url.now) }
        ensures cause { IfOk result (λ e. error_cause e ≡ None) }
    {
        Ok(TransportError {
            kind,
            url: Some(String::from_str(alloc, url)?),
            cause: None,
        })
    }

    /// A fault at the URL of this text, with its cause.
    pub fn new_with_cause(
        alloc: Global,
        kind: TransportErrorKind,
        url: &str,
        cause: Cause,
    ) -> Result<TransportError, AllocError>
        ensures kind { IfOk result (λ e. error_kind e ≡ kind) }
        ensures url { IfOk result (λ e. error_url e ≡ url.now) }
        ensures cause { IfOk result (λ e. error_cause e ≡ Some cause) }
    {
        Ok(TransportError {
            kind,
            url: Some(String::from_str(alloc, url)?),
            cause: Some(cause),
        })
    }

    // The limit of this specifier was passed.
    pub(crate) fn exceeded(
        alloc: Global,
        url: &str,
        max_size: u64,
        specifier: &'static str,
    ) -> TransportError
        ensures { IsExceeded url.now max_size specifier.now result }
    {
        let cause = Cause::MaxSizeExceeded {
            max_size,
            specifier,
        };
        match TransportError::new_with_cause(alloc, TransportErrorKind::Other, url, cause) {
            Ok(e) => e,
            Err(e) => e.into(),
        }
    }

    // The bytes at this URL don't have the digest.
    pub(crate) fn mismatch(
        alloc: Global,
        url: &str,
        expected: &[u8],
        calculated: &[u8],
    ) -> TransportError
        ensures { IsMismatch url.now expected.now calculated.now result }
    {
        match TransportError::try_mismatch(alloc, url, expected, calculated) {
            Ok(e) => e,
            Err(e) => e.into(),
        }
    }

    fn try_mismatch(
        alloc: Global,
        url: &str,
        expected: &[u8],
        calculated: &[u8],
    ) -> Result<TransportError, AllocError>
        ensures { IfOk result (IsMismatch url.now expected.now calculated.now) }
    {
        let cause = Cause::HashMismatch {
            context: String::from_str(alloc, url)?,
            calculated: hex::encode(alloc, calculated)?,
            expected: hex::encode(alloc, expected)?,
        };
        TransportError::new_with_cause(alloc, TransportErrorKind::Other, url, cause)
    }

    /// What kind of error it is: a missing file, a scheme that isn't served, want of memory, or another one.
    pub fn kind(&self) -> TransportErrorKind
        ensures { result ≡ error_kind self.now }
    {
        self.kind
    }

    /// The URL's text.
    pub fn url(&self) -> &str
        ensures { result.now ≡ error_url self.now }
    {
        match &self.url {
            Some(url) => url.as_str(),
            None => "",
        }
    }

    /// What caused it, where more is known than its kind.
    pub fn cause(&self) -> Option<&Cause>
        ensures { option_copied result ≡ error_cause self.now }
    {
        self.cause.as_ref()
    }
}

impl Display for TransportErrorKind {
    fn fmt<W: fmt::Write>(&self, f: &mut Formatter<W>) -> fmt::Result {
        f.write_str(match self {
            TransportErrorKind::UnsupportedUrlScheme => "unsupported URL scheme",
            TransportErrorKind::FileNotFound => "file not found",
            TransportErrorKind::Other => "other",
            TransportErrorKind::Memory => "out of memory",
        })
    }
}

impl Display for Cause {
    fn fmt<W: fmt::Write>(&self, f: &mut Formatter<W>) -> fmt::Result {
        match self {
            Cause::MaxSizeExceeded {
                max_size,
                specifier,
            } => write!(
                f,
                "Maximum size of {max_size} bytes (specified by {specifier}) exceeded"
            ),
            Cause::HashMismatch {
                context,
                calculated,
                expected,
            } => {
                let context = Shown(context.as_str());
                write!(f, "Hash mismatch for {context}: ")?;
                tell_digests(f, calculated.as_str(), expected.as_str())
            }
            Cause::Http(error) => write!(f, "{error}"),
            Cause::Text(text) => {
                let text = Printable(text.as_str());
                write!(f, "{text}")
            }
        }
    }
}

// Tells both digests, in hexadecimal digits, and the length of the expected one where no file has such a digest. None was calculated
// where the first is empty.
fn tell_digests<W: fmt::Write>(
    f: &mut Formatter<W>,
    calculated: &str,
    expected: &str,
) -> fmt::Result {
    let len = expected.len() / 2;
    if calculated.is_empty() {
        return write!(
            f,
            "no file has the expected digest of {len} bytes, {expected}"
        );
    }
    write!(f, "calculated {calculated}, expected {expected}")?;
    match calculated.len() / 2 {
        whole if whole == len => Ok(()),
        whole => write!(f, " ({len} bytes in place of {whole})"),
    }
}

impl Error for Cause {}

impl Display for TransportError {
    fn fmt<W: fmt::Write>(&self, f: &mut Formatter<W>) -> fmt::Result {
        let (kind, url) = (self.kind, Shown(self.url()));
        match kind {
            TransportErrorKind::Other => write!(f, "Transport error fetching '{url}'")?,
            kind => write!(f, "Transport '{kind}' error fetching '{url}'")?,
        }
        match &self.cause {
            Some(cause) => write!(f, ": {cause}"),
            None => Ok(()),
        }
    }
}

impl Error for TransportError {}
