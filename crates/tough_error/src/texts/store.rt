//! What the store could not do.
ghost use Rattle.std.specs.Prelude.{◌≡◌};
ghost use Rattle.tough_error.specs.Kinds.{kind_of};

use crate::error::Error;
use crate::kind::ErrorKind;
use std::fmt::{self, Formatter, Write};

pub(crate) fn tell<W: Write>(error: &Error, f: &mut Formatter<W>) -> fmt::Result
    requires { kind_of error.now ≡ ErrorKind.Store }
{
    match error {
        Error::DatastoreOpen { path } => write!(f, "Failed to open {path} in the store"),
        Error::DatastoreCreate { path } => write!(f, "Failed to write {path} in the store"),
        Error::DatastoreRemove { path } => write!(f, "Failed to remove {path} from the store"),
        Error::DatastoreSerialize => f.write_str(
            "Failed to serialize metadata to JSON for the store",
        ),
        Error::DatastoreInit { source } => write!(
            f,
            "Failed to create the repository datastore: {source}"
        ),
        _ => unreachable!(),
    }
}
