//! What is wrong with a target name.
ghost use Rattle.std.specs.Prelude.{◌≡◌};
ghost use Rattle.tough_error.specs.Kinds.{kind_of};

use crate::error::Error;
use crate::kind::ErrorKind;
use std::fmt::{self, Formatter, Write};

pub(crate) fn tell<W: Write>(error: &Error, f: &mut Formatter<W>) -> fmt::Result
    requires { kind_of error.now ≡ ErrorKind.Name }
{
    match error {
        Error::InvalidTargetName { inner } => write!(
            f,
            "Encountered an invalid target name: {inner}"
        ),
        Error::UnsafeTargetNameDotDot => f.write_str(
            "The target name '..' is unsafe. Interpreting it as a path could escape from the intended directory",
        ),
        Error::UnsafeTargetNameEmpty => f.write_str(
            "The target name is unsafe. Interpreting it as a path would lead to an empty filename",
        ),
        Error::UnsafeTargetNameSlash => f.write_str(
            "The target name is unsafe. Interpreting it as a path would lead to a filename of '/'",
        ),
        Error::TargetNameResolve { name, source } => write!(
            f,
            "Unable to resolve the target name '{name}': {source}"
        ),
        Error::TargetNameComponentsEmpty { name } => write!(
            f,
            "Unable to resolve target name '{name}', a path with no components was produced"
        ),
        Error::TargetNameRootMissing { name } => write!(
            f,
            "Unable to resolve target name '{name}', expected a rooted path"
        ),
        _ => unreachable!(),
    }
}
