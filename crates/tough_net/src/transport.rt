//! What fetches a URL.
ghost use Rattle.std.specs.Prelude.{◌≡◌, ◌⊎◌, List, ℕ, [], Some, None, Option, IfOk, IfErr, string_bytes};
ghost use Rattle.futures.specs.Runs.{Within};
ghost use Rattle.url.specs.Parts.{Parts, serialize};
ghost use Rattle.tough_net.specs.declared.error.TransportError.{TransportError as Fault};
ghost use Rattle.tough_net.specs.Digests.{digests_of};
ghost use Rattle.tough_net.specs.Errors.{IsMemory};
ghost use Rattle.tough_net.specs.Items.{Item as Piece};
ghost use Rattle.tough_net.specs.Limiting.{limit_of, limited};
ghost use Rattle.tough_net.specs.Checking.{checked, url_of, expected_of, failure_of, HasTaken};

use crate::{DigestCheck, Digests, MaxSize, TransportError};
use bytes::Bytes;
use futures::Stream;
use std::alloc::Global;
use url::Url;

/// The streams that transports give: pieces of bytes, and faults.
pub trait TransportStream: Stream<Item = Result<Bytes, TransportError>> {}

impl<S: Stream<Item = Result<Bytes, TransportError>>> TransportStream for S {}

/// What fetches URLs. Its meaning is what it may answer to a URL: a refusal, or the items of a stream.
///
/// A caller may bring his own, where another scheme or another way is wanted. This one has `https` served by a gateway, a program that
/// is asked over plain HTTP, as for `http://127.0.0.1:8080/HOST/PATH`, and speaks TLS itself; what is not `https` is left to the
/// transport within. A load takes it as it takes any other: `loader.transport(gateway)`. Its ghost members say how little is known: it
/// may refuse anything, and a stream is one that the transport within serves of some URL. What a load keeps rests on signatures and
/// digests, and not on these.
///
/// ```
/// #[derive(Drop)]
/// pub struct Gateway<T> {
///     alloc: Global,
///     base: String,
///     within: T,
/// }
///
/// impl<T: Transport> Transport for Gateway<T> {
///     type Stream = T::Stream;
///
///     ghost refuses = { λ _ _ _. ⊤ };
///
///     ghost serves = { λ t _ xs last. (asked : Parts) × T.serves t.within asked xs last };
///
///     fn fetch(&self, url: &Url) -> Result<T::Stream, TransportError> {
///         if url.scheme() != "https" {
///             return self.within.fetch(url);
///         }
///         let (base, host, path) = (self.base.as_str(), url.host_str().unwrap_or(""), url.path());
///         let text = format!(in self.alloc; "{base}/{host}{path}")?;
///         match Url::parse(self.alloc, text.as_str()) {
///             Ok(asked) => self.within.fetch(&asked),
///             Err(_) => {
///                 let kind = TransportErrorKind::Other;
///                 Err(TransportError::new(self.alloc, kind, text.as_str())?)
///             }
///         }
///     }
/// }
/// ```
pub trait Transport: Drop {
    type Stream: Stream<Item = Result<Bytes, TransportError>>;

    // Holds of a URL and each error that fetching it may start with.
    ghost refuses: { Self → Parts → Fault → Type 0 };

    // Holds of a URL, some items and one more answer, where the URL's stream may give those items in order and then that answer.
    ghost serves: { Self → Parts → List Piece → Option Piece → Type 0 };

    /// Starts to fetch a URL.
    fn fetch(&self, url: &Url) -> Result<Self::Stream, TransportError>
        ensures can_poll { IfOk result Self.Stream.can_poll }
        ensures refused { IfErr result (refuses self.now url.now) }
        ensures served { IfOk result
            (λ s. Within (serves self.now url.now) (Self.Stream.yields s)) };
}

/// Fetches a URL, and bounds what comes. The specifier says where the limit of `max_size` bytes comes from.
pub fn fetch_max_size<T: Transport>(
    alloc: Global,
    transport: &T,
    url: &Url,
    max_size: u64,
    specifier: &'static str,
) -> Result<MaxSize<T::Stream>, TransportError>
    ensures refused { IfErr result (λ e. T.refuses transport.now url.now e ⊎ IsMemory e) }
    ensures can_poll { IfOk result (λ m. T.Stream.can_poll (limited m)) }
    ensures limit { IfOk result (λ m. limit_of m
        ≡ record { url = serialize url.now; max = max_size; specifier = specifier.now; size = 0 }) }
    ensures served { IfOk result
        (λ m. Within (T.serves transport.now url.now) (T.Stream.yields (limited m))) }
{
    let text = String::from_str(alloc, url.as_str())?;
    let stream = transport.fetch(url)?;
    Ok(MaxSize::new(alloc, stream, text, max_size, specifier))
}

/// Fetches a URL, bounds what comes, and checks each digest that is stated.
pub fn fetch_digests<T: Transport>(
    alloc: Global,
    transport: &T,
    url: &Url,
    max_size: u64,
    specifier: &'static str,
    digests: Digests,
) -> Result<DigestCheck<MaxSize<T::Stream>>, TransportError>
    ensures refused { IfErr result (λ e. T.refuses transport.now url.now e ⊎ IsMemory e) }
    ensures can_poll { IfOk result (λ m. T.Stream.can_poll (limited (checked m))) }
    ensures limit { IfOk result (λ m. limit_of (checked m)
        ≡ record { url = serialize url.now; max = max_size; specifier = specifier.now; size = 0 }) }
    ensures url { IfOk result (λ m. url_of m ≡ serialize url.now) }
    ensures expected { IfOk result (λ m. expected_of m ≡ digests_of digests) }
    ensures fresh { IfOk result (λ m. HasTaken m [] × (failure_of m ≡ None)) }
    ensures served { IfOk result
        (λ m. Within (T.serves transport.now url.now) (T.Stream.yields (limited (checked m)))) }
{
    let text = String::from_str(alloc, url.as_str())?;
    let stream = fetch_max_size(alloc, transport, url, max_size, specifier)?;
    Ok(DigestCheck::new(alloc, stream, text, digests))
}

/// Fetches a URL, bounds what comes, and checks its digest of SHA-256.
pub fn fetch_sha256<T: Transport>(
    alloc: Global,
    transport: &T,
    url: &Url,
    max_size: u64,
    specifier: &'static str,
    sha256: [u8; 32],
) -> Result<DigestCheck<MaxSize<T::Stream>>, TransportError>
    ensures refused { IfErr result (λ e. T.refuses transport.now url.now e ⊎ IsMemory e) }
    ensures can_poll { IfOk result (λ m. T.Stream.can_poll (limited (checked m))) }
    ensures limit { IfOk result (λ m. limit_of (checked m)
        ≡ record { url = serialize url.now; max = max_size; specifier = specifier.now; size = 0 }) }
    ensures url { IfOk result (λ m. url_of m ≡ serialize url.now) }
    ensures expected { IfOk result
        (λ m. expected_of m ≡ record { sha256 = Some sha256; sha512 = None }) }
    ensures fresh { IfOk result (λ m. HasTaken m [] × (failure_of m ≡ None)) }
    ensures served { IfOk result
        (λ m. Within (T.serves transport.now url.now) (T.Stream.yields (limited (checked m)))) }
{
    let digests = Digests {
        sha256: Some(Vec::from_slice(alloc, sha256.as_slice())?),
        sha512: None,
    };
    fetch_digests(alloc, transport, url, max_size, specifier, digests)
}
