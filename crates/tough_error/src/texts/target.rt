//! What is wrong with a target, or with its place.
ghost use Rattle.std.specs.Prelude.{◌≡◌};
ghost use Rattle.tough_error.specs.Kinds.{kind_of};

use crate::error::Error;
use crate::kind::ErrorKind;
use std::fmt::{self, Formatter, Write};

pub(crate) fn tell<W: Write>(error: &Error, f: &mut Formatter<W>) -> fmt::Result
    requires { kind_of error.now ≡ ErrorKind.Target }
{
    match error {
        Error::InvalidFileType { path } => write!(
            f,
            "Source path for target must be file or symlink - '{path}'"
        ),
        Error::NoFileName { path } => write!(
            f,
            "Unable to determine file name from path: '{path}'"
        ),
        Error::PathExistsFail { path } => write!(
            f,
            "Target path exists, caller requested we fail - '{path}'"
        ),
        Error::PathIsNotFile { path } => write!(
            f,
            "Requested copy/link of '{path}' which is not a file"
        ),
        Error::PathIsNotTarget { path } => write!(
            f,
            "Requested copy/link of '{path}' which is not a repo target"
        ),
        Error::PathUtf8 { path } => write!(f, "Path {path} is not valid UTF-8"),
        Error::UnixPathUtf8 { path } => write!(f, "Path {path} is not valid UTF-8"),
        Error::TargetFileTypeMismatch {
            expected,
            found,
            path,
        } => write!(
            f,
            "Refusing to replace {found} with requested {expected} for target {path}"
        ),
        Error::TargetFromPath { path, source } => write!(
            f,
            "Unable to create Target from path '{path}': {source}"
        ),
        Error::SaveTargetOutdirCanonicalize { path, source } => write!(
            f,
            "Unable to canonicalize the outdir '{path}': {source}"
        ),
        Error::SaveTargetOutdir { path } => write!(
            f,
            "The outdir '{path}' either does not exist or is not a directory"
        ),
        Error::SaveTargetDirInfo { path, source } => write!(
            f,
            "Unable to get info about the outdir '{path}': {source}"
        ),
        Error::SaveTargetNoParent { path, name } => write!(
            f,
            "The path '{path}' to which we would save target '{}' has no parent",
            name.raw()
        ),
        Error::SaveTargetNotFound { name } => write!(
            f,
            "The target '{}' was not found",
            name.raw()
        ),
        Error::SaveTargetUnsafePath {
            name,
            outdir,
            filepath,
        } => write!(
            f,
            "The target '{}' had an unsafe name. Not writing to '{filepath}' because it is not in the outdir '{outdir}'",
            name.raw()
        ),
        Error::CacheTargetMissing { target_name, .. } => write!(
            f,
            "The target '{}' was not found",
            target_name.raw()
        ),
        _ => unreachable!(),
    }
}
