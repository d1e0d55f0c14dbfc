//! The file of a target, as it is served.

ghost use Rattle.std.specs.Prelude.{◌≡◌, [], IfOk, IfErr, string_bytes};
ghost use Rattle.hex.specs.Hex.{encode_lower};
ghost use Rattle.tough_net.specs.Checking.{checked};
ghost use Rattle.tough_net.specs.Digests.{digests_of};
ghost use Rattle.tough_net.specs.Errors.{IsMismatch};
ghost use Rattle.tough_net.specs.Limiting.{limited};
ghost use Rattle.tough_save.specs.Targets.{HasBegun, IsUnbegun};
ghost use Rattle.tough_save.specs.Targets as spec;

use std::alloc::{AllocError, Global};
use tough_net::{
    Cause, DigestCheck, Digests, JoinError, MaxSize, Transport, TransportError, TransportErrorKind,
    fetch_digests, join,
};
use url::{ParseError, Url};

/// A stream of the file of a target: of at most the bytes that are listed, and with each digest that is listed.
pub type TargetStream<S> = DigestCheck<MaxSize<S>>;

/// Why the file of a target wasn't fetched.
#[derive(Debug, Drop)]
pub enum FetchError {
    /// Its name can't be joined to the base URL.
    JoinUrl(ParseError),
    /// The joined URL of this text doesn't begin with the base URL.
    Escapes(String),
    /// The transport refused, or no file has a digest of that length.
    Transport(TransportError),
    /// A request for memory was refused.
    Memory,
}

// The digits, in lower case, that stand for the bytes.
fn digits(alloc: Global, bytes: &[u8]) -> Result<String, AllocError>
    ensures { IfOk result (λ text. string_bytes text ≡ encode_lower bytes.now) }
{
    hex::encode(alloc, bytes)
}

/// The name of the file of a target: the name that it resolves to, after the digest in lower-case hexadecimal digits and a dot where that is
/// asked for (TUF specification 5.7.3).
pub fn file_name(
    alloc: Global,
    resolved: &str,
    digest: &[u8],
    prefixed: bool,
) -> Result<String, AllocError>
    ensures { IfOk result (λ name. string_bytes name
        ≡ spec.file_name resolved.now digest.now prefixed) }
{
    if prefixed {
        let mut name = digits(alloc, digest)?;
        name.push_str(".")?;
        name.push_str(resolved)?;
        Ok(name)
    } else {
        String::from_str(alloc, resolved)
    }
}

// No file has a digest of that length.
fn unmatched(alloc: Global, url: &str, digest: &[u8]) -> Result<TransportError, AllocError>
    ensures { IfOk result (IsMismatch url.now digest.now []) }
{
    let cause = Cause::HashMismatch {
        context: String::from_str(alloc, url)?,
        calculated: digits(alloc, b"")?,
        expected: digits(alloc, digest)?,
    };
    TransportError::new_with_cause(alloc, TransportErrorKind::Other, url, cause)
}

/// Starts to fetch the file of this name below the base URL, to which the name is joined as it stands. What comes is bounded by the length,
/// and checked by each digest that is stated. The refusals, in this order: `JoinUrl`; `Escapes`; `Transport`, with the cause `HashMismatch`
/// where the SHA-256 hasn't 32 bytes, so that no file has it.
pub fn fetch_target<T: Transport>(
    alloc: Global,
    transport: &T,
    base: &Url,
    name: &str,
    length: u64,
    digests: Digests,
) -> Result<TargetStream<T::Stream>, FetchError>
    ensures begun { IfOk result
        (HasBegun T.serves T.Stream.yields transport.now base.now name.now length
        (digests_of digests)) }
    ensures can_poll { IfOk result (λ s. T.Stream.can_poll (limited (checked s))) }
    ensures refused { IfErr result
        (IsUnbegun T.refuses transport.now base.now name.now (digests_of digests)) }
{
    let url = match join(base, name) {
        Ok(url) => url,
        Err(JoinError::Parse(error)) => return Err(FetchError::JoinUrl(error)),
        Err(JoinError::Memory) => return Err(FetchError::Memory),
    };
    if !url
        .as_str()
        .as_bytes()
        .starts_with(base.as_str().as_bytes())
    {
        return match String::from_str(alloc, url.as_str()) {
            Ok(text) => Err(FetchError::Escapes(text)),
            Err(_) => Err(FetchError::Memory),
        };
    }
    if let Some(digest) = &digests.sha256 {
        if digest.len() != 32 {
            return match unmatched(alloc, url.as_str(), digest.as_slice()) {
                Ok(error) => Err(FetchError::Transport(error)),
                Err(_) => Err(FetchError::Memory),
            };
        }
    }
    match fetch_digests(alloc, transport, &url, length, "targets.json", digests) {
        Ok(stream) => Ok(stream),
        Err(error) => Err(FetchError::Transport(error)),
    }
}
