//! Fetching the file of a role.

ghost use Rattle.std.specs.Prelude.{◌≡◌, ◌≤◌, ◌⊎◌, None, Some, Ok, length, IfOk, IfErr, string_bytes};
ghost use Rattle.url.specs.Parser.{parse_url};
ghost use Rattle.tough_names.specs.Filename.{filename_of};
ghost use Rattle.tough_editor.specs.Fetched.{CanPoll, IsBase, IsBaseless, IsUnparsed, IsNamed, IsUnjoinedTo, IsBegun, IsUnbegun, IsRoleUrl, IsUnjoined, IsFault, IsDocument, IsNoDocument, role_file};

use std::alloc::{AllocError, Global};
use tough_error::Error;
use tough_names::encode_filename;
use tough_net::{
    Collect, Digests, JoinError, Limits, SlashError, Transport, TransportError, TransportErrorKind,
    fetch_whole, join, with_slash,
};
use tough_roles::{ReadError, RoleType, Signed};
use tough_schema::Targets;
use url::{ParseError, Url};

// The bytes from which on a text may be too long to be a URL.
const LONG: usize = 1 << 30;

// The limit that editors set for what they fetch.
const SPECIFIER: &str = "max targets limit";

// The URL of a text.
fn parse(alloc: Global, text: &str) -> Result<Url, Error>
    ensures parsed { IfOk result (λ url. parse_url None text.now ≡ Ok url) }
    ensures refused { IfErr result (IsUnparsed text.now) }
{
    match Url::parse(alloc, text) {
        Ok(url) => Ok(url),
        Err(ParseError::OutOfMemory) => Err(Error::Memory),
        Err(ParseError::Overflow) if text.len() < LONG => Err(Error::Memory),
        Err(source) => match String::from_str(alloc, text) {
            Ok(url) => Err(Error::ParseUrl { url, source }),
            Err(_) => Err(Error::Memory),
        },
    }
}

// The URL of a text, below which files lie.
fn base(alloc: Global, text: &str) -> Result<Url, Error>
    ensures based { IfOk result (IsBase text.now) }
    ensures refused { IfErr result (IsBaseless text.now) }
{
    let url = match parse(alloc, text) {
        Ok(url) => url,
        Err(error) => return Err(error),
    };
    match with_slash(alloc, url) {
        Ok(url) => Ok(url),
        Err(SlashError::Parse { url, source }) => Err(Error::ParseUrl { url, source }),
        Err(SlashError::Memory) => Err(Error::Memory),
    }
}

// The escaped name, and the file's name.
fn names(alloc: Global, name: &str) -> Result<(String, String), AllocError>
    ensures encoded { IfOk result (λ p. string_bytes p.0 ≡ filename_of name.now) }
    ensures file { IfOk result (λ p. string_bytes p.1 ≡ role_file name.now) }
{
    let encoded = encode_filename(alloc, name)?;
    let mut file = encoded.clone()?;
    file.push_str(".json")?;
    Ok((encoded, file))
}

// Why the file's name isn't joined.
fn unjoined(alloc: Global, name: &str, source: ParseError) -> Result<Error, AllocError>
    ensures { IfOk result (λ w. IsNamed name.now source w) }
{
    let (encoded, filename) = names(alloc, name)?;
    let original = String::from_str(alloc, name)?;
    Ok(Error::JoinUrlEncoded {
        original,
        encoded,
        filename,
        source,
    })
}

// The URL of the role's file below the base.
fn join_role(alloc: Global, base: &Url, name: &str) -> Result<Url, Error>
    ensures joined { IfOk result
        (λ url. parse_url (Some base.now) (role_file name.now) ≡ Ok url) }
    ensures refused { IfErr result (IsUnjoinedTo base.now name.now) }
{
    let (_, file) = match names(alloc, name) {
        Ok(both) => both,
        Err(_) => return Err(Error::Memory),
    };
    match join(base, file.as_str()) {
        Ok(url) => Ok(url),
        Err(JoinError::Memory) => Err(Error::Memory),
        Err(JoinError::Parse(source)) => match unjoined(alloc, name, source) {
            Ok(error) => Err(error),
            Err(_) => Err(Error::Memory),
        },
    }
}

/// The URL of the role's file. The errors, in this order: `ParseUrl`, `JoinUrlEncoded`.
pub(crate) fn role_url(alloc: Global, text: &str, name: &str) -> Result<Url, Error>
    ensures joined { IfOk result (IsRoleUrl text.now name.now) }
    ensures refused { IfErr result
        (λ w. IsBaseless text.now w ⊎ IsUnjoined text.now name.now w) }
{
    let base = match base(alloc, text) {
        Ok(base) => base,
        Err(error) => return Err(error),
    };
    join_role(alloc, &base, name)
}

/// The error that tells the fault of a transport: `Transport`, or `Memory`.
pub fn fault(source: TransportError) -> Error
    ensures { IsFault source result }
{
    if source.kind() == TransportErrorKind::Memory {
        Error::Memory
    } else {
        Error::Transport { source }
    }
}

/// Begins to fetch the role's file below a URL, of at most `max_targets_size` bytes (TUF specification 1.0, section 5.6.2). The errors, in this order:
/// `ParseUrl`, `JoinUrlEncoded`, `Transport`.
pub fn begin_role<T: Transport>(
    alloc: Global,
    transport: &T,
    limits: &Limits,
    text: &str,
    name: &str,
) -> Result<Collect<T::Stream>, Error>
    ensures begun { IfOk result (IsBegun T.refuses T.serves T.Stream.yields transport.now
        limits.now text.now name.now) }
    ensures can_poll { IfOk result (CanPoll T.Stream.can_poll) }
    ensures refused { IfErr result (IsUnbegun T.refuses T.serves T.Stream.yields transport.now
        text.now name.now) }
{
    let url = match role_url(alloc, text, name) {
        Ok(url) => url,
        Err(error) => return Err(error),
    };
    match fetch_whole(
        alloc,
        transport,
        &url,
        limits.max_targets_size,
        SPECIFIER,
        Digests::none(),
    ) {
        Ok(fetch) => Ok(fetch),
        Err(error) => Err(fault(error)),
    }
}

/// The signed document that the bytes are (section 4.5). `ParseMetadata` if they are none.
pub fn document(alloc: Global, bytes: &[u8]) -> Result<Signed<Targets>, Error>
    ensures read { IfOk result (IsDocument bytes.now) }
    ensures refused { IfErr result (IsNoDocument bytes.now) }
{
    match Signed::<Targets>::read(alloc, bytes) {
        Ok(signed) => Ok(signed),
        Err(ReadError::Memory) => Err(Error::Memory),
        Err(source) => Err(Error::ParseMetadata {
            role: RoleType::Targets,
            source,
        }),
    }
}
