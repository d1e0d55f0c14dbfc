//! What could not be fetched.
ghost use Rattle.std.specs.Prelude.{◌≡◌};
ghost use Rattle.tough_error.specs.Kinds.{kind_of};

use crate::error::Error;
use crate::kind::ErrorKind;
use std::fmt::{self, Formatter, Write};
use tough_net::Shown;

pub(crate) fn tell<W: Write>(error: &Error, f: &mut Formatter<W>) -> fmt::Result
    requires { kind_of error.now ≡ ErrorKind.Fetch }
{
    match error {
        Error::ParseUrl { url, source } => {
            let url = Shown(url.as_str());
            write!(f, "Failed to parse URL \"{url}\": {source}")
        }
        Error::JoinUrl { path, source } => write!(
            f,
            "Failed to join '{path}' to the base URL: {source}"
        ),
        Error::JoinUrlEncoded {
            original,
            encoded,
            filename,
            source,
        } => write!(
            f,
            "After encoding the name '{original}' to '{encoded}', failed to join '{filename}' to the URL: {source}"
        ),
        Error::Transport { source } => write!(f, "Failed to fetch: {source}"),
        Error::MaxSizeExceeded {
            max_size,
            specifier,
        } => write!(
            f,
            "Maximum size of {max_size} bytes (specified by {specifier}) exceeded"
        ),
        Error::FileUrl { path } => write!(f, "Can't build URL from relative path '{path}'"),
        _ => unreachable!(),
    }
}
