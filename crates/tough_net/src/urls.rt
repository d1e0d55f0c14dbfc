//! URLs made of another and a name.
ghost use Rattle.std.specs.Prelude.{◌≡◌, Ok, Err, Some, IfOk, IfErr, string_bytes};
ghost use Rattle.url.specs.Parser.{Parsed, parse_url, Gives};
ghost use Rattle.tough_net.specs.Urls.{with_slash, slashed, IsRefused, IsUnjoined, IsUnslashed};
ghost use Rattle.tough_net.specs.declared.urls.SlashError.TheVariants as slash;

use std::alloc::{AllocError, Global};
use url::{ParseError, Url};

/// Why there is no URL of another one and a name.
#[derive(Debug, Drop)]
pub enum JoinError {
    /// They make none.
    Parse(ParseError),
    /// A request for memory was refused.
    Memory,
}

/// Why there is no URL with a slash at its end.
#[derive(Debug, Drop)]
pub enum SlashError {
    /// Its text with a slash can't be parsed.
    Parse {
        /// The text with its slash.
        url: String,
        /// What was wrong.
        source: ParseError,
    },
    /// A request for memory was refused.
    Memory,
}

impl From<AllocError> for SlashError {
    ghost from_gives = { λ _ e. e ≡ slash.Memory };

    fn from(_: AllocError) -> SlashError {
        SlashError::Memory
    }
}

// The bytes from which on a text may be too long to be made a URL of.
const LONG: usize = 1 << 30;

// What it is told as that no URL is made of texts of so many bytes.
fn refusal(error: ParseError, len: usize) -> JoinError
    ensures { (expected : Parsed _) → Gives (Err error) expected → IsRefused expected len result }
{
    match error {
        ParseError::OutOfMemory => JoinError::Memory,
        ParseError::Overflow => {
            if len < LONG {
                JoinError::Memory
            } else {
                JoinError::Parse(ParseError::Overflow)
            }
        }
        error => JoinError::Parse(error),
    }
}

/// The URL that a name is, relative to a base URL. `Parse` is where the two make none; with the cause `Overflow` only where they have
/// 2^30 bytes or more together.
pub fn join(base: &Url, name: &str) -> Result<Url, JoinError>
    ensures joined { IfOk result (λ url. parse_url (Some base.now) name.now ≡ Ok url) }
    ensures refused { IfErr result (IsUnjoined base.now name.now) }
{
    match base.join(name) {
        Ok(url) => Ok(url),
        Err(error) => Err(refusal(error, base.as_str().len() + name.len())),
    }
}

// The text of the URL, and a slash.
fn slashed(alloc: Global, url: &Url) -> Result<String, AllocError>
    ensures { IfOk result (λ text. string_bytes text ≡ slashed url.now) }
{
    let mut text = String::from_str(alloc, url.as_str())?;
    text.push_str("/")?;
    Ok(text)
}

/// The URL itself where its text ends with a slash, else that of its text with a slash. `Parse` is where that is none; with the cause
/// `Overflow` only where it has 2^30 bytes or more.
pub fn with_slash(alloc: Global, url: Url) -> Result<Url, SlashError>
    ensures given { IfOk result (λ u. with_slash url ≡ Ok u) }
    ensures refused { IfErr result (IsUnslashed url) }
{
    if url.as_str().as_bytes().ends_with(b"/") {
        return Ok(url);
    }
    let text = slashed(alloc, &url)?;
    let error = match Url::parse(alloc, text.as_str()) {
        Ok(url) => return Ok(url),
        Err(error) => error,
    };
    match refusal(error, text.as_str().len()) {
        JoinError::Parse(source) => Err(SlashError::Parse { url: text, source }),
        JoinError::Memory => Err(SlashError::Memory),
    }
}
