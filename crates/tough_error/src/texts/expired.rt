//! What has expired.
ghost use Rattle.std.specs.Prelude.{◌≡◌};
ghost use Rattle.tough_error.specs.Kinds.{kind_of};

use crate::error::Error;
use crate::kind::ErrorKind;
use std::fmt::{self, Formatter, Write};

pub(crate) fn tell<W: Write>(error: &Error, f: &mut Formatter<W>) -> fmt::Result
    requires { kind_of error.now ≡ ErrorKind.Expired }
{
    match error {
        Error::ExpiredMetadata { role, expires, now } => write!(
            f,
            "{} metadata is expired: its expiry is {expires}, and the update began at {now}",
            role.name()
        ),
        _ => unreachable!(),
    }
}
