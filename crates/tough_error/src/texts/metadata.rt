//! What is wrong with metadata.
ghost use Rattle.std.specs.Prelude.{◌≡◌};
ghost use Rattle.tough_error.specs.Kinds.{kind_of};

use crate::error::Error;
use crate::kind::ErrorKind;
use std::fmt::{self, Formatter, Write};

pub(crate) fn tell<W: Write>(error: &Error, f: &mut Formatter<W>) -> fmt::Result
    requires { kind_of error.now ≡ ErrorKind.Metadata }
{
    match error {
        Error::ParseTrustedMetadata { source } => write!(
            f,
            "Failed to parse trusted root metadata: {source}"
        ),
        Error::VerifyTrustedMetadata { source } => write!(
            f,
            "Failed to verify trusted root metadata: {source}"
        ),
        Error::ParseMetadata { role, source } => write!(
            f,
            "Failed to parse {} metadata: {source}",
            role.name()
        ),
        Error::VerifyMetadata { role, source } => write!(
            f,
            "Failed to verify {} metadata: {source}",
            role.name()
        ),
        Error::VerifyRoleMetadata { role, source } => write!(
            f,
            "Failed to verify {role} metadata: {source}"
        ),
        Error::VersionMismatch {
            role,
            fetched,
            expected,
        } => write!(
            f,
            "{} metadata version mismatch: fetched {fetched}, expected {expected}",
            role.name()
        ),
        Error::TimestampMetaLength {
            version,
            meta_length,
        } => write!(
            f,
            "Timestamp version {version} meta length {meta_length} is not exactly one"
        ),
        Error::MissingSnapshotMeta { version } => write!(
            f,
            "No snapshot meta in timestamp.json version {version}"
        ),
        Error::SnapshotTargetsMetaMissing { version } => write!(
            f,
            "Snapshot version {version} does not contain targets.json"
        ),
        Error::MaxUpdatesExceeded { max_root_updates } => write!(
            f,
            "Maximum root updates {max_root_updates} exceeded"
        ),
        Error::InvalidPath { source } => write!(
            f,
            "Failed to validate the delegated targets: {source}"
        ),
        Error::HashMismatch {
            context,
            calculated,
            expected,
        } => write!(
            f,
            "Hash mismatch for {context}: calculated {calculated}, expected {expected}"
        ),
        Error::MetaMissing { file, role } => write!(
            f,
            "Meta for \"{file}\" missing from {} metadata",
            role.name()
        ),
        Error::RoleNotInMeta { name, parent } => write!(
            f,
            "Role missing from snapshot meta: {name} ({parent})"
        ),
        _ => unreachable!(),
    }
}
