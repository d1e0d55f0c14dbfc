//! What could not be done with a file or folder.
ghost use Rattle.std.specs.Prelude.{◌≡◌};
ghost use Rattle.tough_error.specs.Kinds.{kind_of};

use crate::error::Error;
use crate::kind::ErrorKind;
use std::fmt::{self, Formatter, Write};
use tough_net::Shown;

pub(crate) fn tell<W: Write>(error: &Error, f: &mut Formatter<W>) -> fmt::Result
    requires { kind_of error.now ≡ ErrorKind.File }
{
    match error {
        Error::AbsolutePath { path, source } => write!(
            f,
            "Unable to canonicalize path '{path}': {source}"
        ),
        Error::DirCreate { path, source } => write!(
            f,
            "Failed to create directory '{path}': {source}"
        ),
        Error::FileMetadata { path, source } => write!(f, "Failed to stat '{path}': {source}"),
        Error::FileOpen { path, source } => write!(f, "Failed to open {path}: {source}"),
        Error::FileRead { path, source } => write!(f, "Failed to read {path}: {source}"),
        Error::FileParseJson { path, source } => write!(f, "Failed to parse {path}: {source}"),
        Error::FileWrite { path, source } => write!(f, "Failed to write to {path}: {source}"),
        Error::LinkCreate { path, source } => write!(
            f,
            "Failed to create symlink at '{path}': {source}"
        ),
        Error::RemoveTarget { path, source } => write!(
            f,
            "Failed to remove existing target path '{path}': {source}"
        ),
        Error::WalkDir { directory, source } => write!(
            f,
            "Failed to walk directory tree '{directory}': {source}"
        ),
        Error::NamedTempFileCreate { path, source } => write!(
            f,
            "Unable to create NamedTempFile in directory '{path}': {source}"
        ),
        Error::NamedTempFilePersist { path, source } => write!(
            f,
            "Unable to persist NamedTempFile to '{path}': {source}"
        ),
        Error::CacheDirectoryCreate { path, source } => write!(
            f,
            "Error creating the directory '{path}': {source}"
        ),
        Error::CacheFileRead { url, source } => {
            let url = Shown(url.as_str());
            write!(f, "Error reading data from '{url}': {source}")
        }
        Error::CacheFileWrite { path, source } => write!(
            f,
            "Error writing data to '{path}': {source}"
        ),
        Error::CacheTargetWrite { path, source } => write!(
            f,
            "Error writing target file to '{path}': {source}"
        ),
        _ => unreachable!(),
    }
}
