//! What a load came to, as text: the versions of what was loaded, or the refusal's name with its numbers.

use std::alloc::{AllocError, Global};
use std::fmt::Display;
use tough_client::Error;
use tough_net::{Cause, TransportError};
use tough_schema::{self as schema, Root, Signed, Snapshot, Targets, Timestamp};

/// A value as a user reads it.
pub(crate) fn shown<T: Display + Drop>(alloc: Global, value: T) -> Result<String, AllocError> {
    format!(in alloc; "{value}")
}

/// The documents of a load: the root, the timestamp, the snapshot and the targets.
pub(crate) type Documents = (
    Signed<Root>,
    Signed<Timestamp>,
    Signed<Snapshot>,
    Signed<Targets>,
);

/// What a load came to.
pub(crate) fn tell(
    alloc: Global,
    outcome: &Result<Documents, Error>,
) -> Result<String, AllocError> {
    match outcome {
        Ok((root, timestamp, snapshot, targets)) => {
            let targets = &targets.signed;
            let mut line = format!(in alloc;
                "root {} timestamp {} snapshot {} targets {}",
                root.signed.version,
                timestamp.signed.version,
                snapshot.signed.version,
                targets.version
            )?;
            tell_roles(alloc, targets, "", &mut line)?;
            Ok(line)
        }
        Err(error) => told(alloc, error),
    }
}

// The roles of a tree in preorder: each behind a dash for each role above it, and with the version of its document, where it has one.
#[cycle(roles)]
fn tell_roles(
    alloc: Global,
    targets: &Targets,
    depth: &str,
    line: &mut String,
) -> Result<(), AllocError> {
    let Some(delegations) = &targets.delegations else {
        return Ok(());
    };
    for role in &delegations.roles {
        match &role.targets {
            Some(document) => {
                let below = &document.signed.targets;
                line.push_str(format!(in alloc;
                    " {depth}{} {}",
                    role.name, below.version
                )?.as_str())?;
                let deeper = format!(in alloc; "{depth}-")?;
                tell_roles(alloc, below, deeper.as_str(), line)?;
            }
            None => line.push_str(format!(in alloc; " {depth}{}", role.name)?.as_str())?,
        }
    }
    Ok(())
}

// Why a load was refused, but for a version that is lower than another.
pub(crate) fn told(alloc: Global, error: &Error) -> Result<String, AllocError> {
    match error {
        Error::ParseTrustedMetadata { .. } => format!(in alloc; "ParseTrustedMetadata"),
        Error::VerifyTrustedMetadata { source } => {
            format!(in alloc; "VerifyTrustedMetadata {}", unverified(source))
        }
        Error::ParseMetadata { role, .. } => format!(in alloc; "ParseMetadata {}", role.name()),
        Error::MaxUpdatesExceeded { max_root_updates } => {
            format!(in alloc; "MaxUpdatesExceeded {max_root_updates}")
        }
        Error::Transport { source } => format!(in alloc; "Transport {}", unfetched(source)),
        Error::SystemTimeSteppedBackward {
            sys_time,
            latest_known_time,
        } => format!(in alloc; "SystemTimeSteppedBackward {sys_time} {latest_known_time}"),
        Error::VerifyMetadata { role, source } => {
            format!(in alloc; "VerifyMetadata {} {}", role.name(), unverified(source))
        }
        Error::InvalidPath { source } => format!(in alloc; "InvalidPath {source}"),
        Error::ExpiredMetadata { role, .. } => format!(in alloc; "ExpiredMetadata {}", role.name()),
        other => lower(alloc, other),
    }
}

// That a version isn't as it was, or as it is listed.
fn lower(alloc: Global, error: &Error) -> Result<String, AllocError> {
    match error {
        Error::VersionMismatch {
            role,
            fetched,
            expected,
        } => format!(in alloc; "VersionMismatch {} {fetched} {expected}", role.name()),
        Error::TimestampMetaLength {
            version,
            meta_length,
        } => format!(in alloc; "TimestampMetaLength {version} {meta_length}"),
        Error::MissingSnapshotMeta { version } => {
            format!(in alloc; "MissingSnapshotMeta {version}")
        }
        Error::SnapshotTargetsMetaMissing { version } => {
            format!(in alloc; "SnapshotTargetsMetaMissing {version}")
        }
        Error::OlderMetadata {
            role,
            current_version,
            new_version,
        } => format!(in alloc;
            "OlderMetadata {} {current_version} {new_version}",
            role.name()
        ),
        other => missing(alloc, other),
    }
}

// That a listing lacks what an older one had.
fn missing(alloc: Global, error: &Error) -> Result<String, AllocError> {
    match error {
        Error::SnapshotRoleMissing {
            role,
            old_version,
            new_version,
        } => format!(in alloc; "SnapshotRoleMissing {role} {old_version} {new_version}"),
        Error::SnapshotRoleRollback {
            role,
            old_role_version,
            old_snapshot_version,
            new_role_version,
            new_snapshot_version,
        } => format!(in alloc;
            "SnapshotRoleRollback {role} {old_role_version} in {old_snapshot_version} {new_role_version} in {new_snapshot_version}"
        ),
        other => unsaved(alloc, other),
    }
}

// That a target or a file of metadata wasn't saved.
fn unsaved(alloc: Global, error: &Error) -> Result<String, AllocError> {
    let name = match error {
        Error::InvalidTargetName { .. } => "InvalidTargetName",
        Error::CacheTargetMissing { .. } => "CacheTargetMissing",
        Error::SaveTargetNotFound { .. } => "SaveTargetNotFound",
        Error::SaveTargetOutdirCanonicalize { .. } => "SaveTargetOutdirCanonicalize",
        Error::SaveTargetOutdir { .. } => "SaveTargetOutdir",
        Error::SaveTargetUnsafePath { .. } => "SaveTargetUnsafePath",
        Error::DirCreate { .. } => "DirCreate",
        Error::AbsolutePath { .. } => "AbsolutePath",
        Error::CacheDirectoryCreate { .. } => "CacheDirectoryCreate",
        Error::CacheFileWrite { .. } => "CacheFileWrite",
        Error::UnsafeTargetNameDotDot => "UnsafeTargetNameDotDot",
        other => return format!(in alloc; "{other}"),
    };
    String::from_str(alloc, name)
}

// Why a document wasn't verified.
fn unverified(error: &schema::Error) -> &'static str {
    match error {
        schema::Error::SignatureThreshold { .. } => "SignatureThreshold",
        schema::Error::DuplicateKeyId { .. } => "DuplicateKeyId",
        schema::Error::JsonSerialization { .. } => "JsonSerialization",
        schema::Error::MissingRole { .. } => "MissingRole",
        _ => "another cause",
    }
}

// Why a file wasn't fetched.
fn unfetched(error: &TransportError) -> &'static str {
    match error.cause() {
        Some(Cause::HashMismatch { .. }) => "HashMismatch",
        Some(Cause::MaxSizeExceeded { .. }) => "MaxSizeExceeded",
        _ => "another cause",
    }
}
