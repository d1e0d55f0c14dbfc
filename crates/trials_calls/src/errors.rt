//! The wide error as a user reads it: one of each variant, with members that stay the same.

use crate::case::text;
use anyhow::{Result, anyhow};
use serde_json::Value;
use std::alloc::{AllocError, Global};
use tough_error::Error;
use tough_files::FilesError;
use tough_names::TargetName;
use tough_net::{TransportError, TransportErrorKind};
use tough_roles::{self as schema, ReadError, RoleType};
use url::ParseError;

// Those without members.
fn of_none(name: &str) -> Option<Error> {
    Some(match name {
        "DatastoreSerialize" => Error::DatastoreSerialize,
        "UnsafeTargetNameDotDot" => Error::UnsafeTargetNameDotDot,
        "UnsafeTargetNameEmpty" => Error::UnsafeTargetNameEmpty,
        "UnsafeTargetNameSlash" => Error::UnsafeTargetNameSlash,
        "MissingLimits" => Error::MissingLimits,
        "MissingTransport" => Error::MissingTransport,
        "TargetsEditorSome" => Error::TargetsEditorSome,
        "NoTargets" => Error::NoTargets,
        "NoDelegations" => Error::NoDelegations,
        "InvalidInto" => Error::InvalidInto,
        "InvalidThreshold" => Error::InvalidThreshold,
        "Sign" => Error::Sign,
        "KeysNotFoundInRoot" => Error::KeysNotFoundInRoot,
        "NoKeyHolder" => Error::NoKeyHolder,
        "KeyUnrecognized" => Error::KeyUnrecognized,
        "Memory" => Error::Memory,
        _ => return None,
    })
}

// Those that tell versions.
fn of_versions(name: &str) -> Option<Error> {
    Some(match name {
        "VersionMismatch" => Error::VersionMismatch {
            role: RoleType::Targets,
            fetched: 3,
            expected: 4,
        },
        "MissingSnapshotMeta" => Error::MissingSnapshotMeta { version: 6 },
        "SnapshotTargetsMetaMissing" => Error::SnapshotTargetsMetaMissing { version: 7 },
        "OlderMetadata" => Error::OlderMetadata {
            role: RoleType::Snapshot,
            current_version: 9,
            new_version: 8,
        },
        "OlderSnapshotInTimestamp" => Error::OlderSnapshotInTimestamp {
            snapshot_new: 1,
            timestamp_new: 4,
            snapshot_old: 2,
            timestamp_old: 3,
        },
        _ => return None,
    })
}

// Those that tell how many there are.
fn of_counts(name: &str) -> Option<Error> {
    Some(match name {
        "MaxUpdatesExceeded" => Error::MaxUpdatesExceeded {
            max_root_updates: 2,
        },
        "MaxSizeExceeded" => Error::MaxSizeExceeded {
            max_size: 5,
            specifier: "timestamp.json",
        },
        "TimestampMetaLength" => Error::TimestampMetaLength {
            version: 5,
            meta_length: 2,
        },
        "UnstableRoot" => Error::UnstableRoot {
            role: RoleType::Timestamp,
            actual: 1,
            threshold: 2,
        },
        "InvalidRoleCount" => Error::InvalidRoleCount { count: 2 },
        "MetaMissing" => Error::MetaMissing {
            file: "snapshot.json",
            role: RoleType::Timestamp,
        },
        _ => return None,
    })
}

// Those that tell moments.
fn of_moments(name: &str) -> Result<Option<Error>> {
    Ok(Some(match name {
        "SystemTimeSteppedBackward" => Error::SystemTimeSteppedBackward {
            sys_time: "2026-01-01T00:00:00Z".parse()?,
            latest_known_time: "2026-01-02T00:00:00Z".parse()?,
        },
        "ExpiredMetadata" => Error::ExpiredMetadata {
            role: RoleType::Timestamp,
            expires: "2026-01-01T00:00:00Z".parse()?,
            now: "2026-01-02T00:00:00Z".parse()?,
        },
        _ => return Ok(None),
    }))
}

// Those that tell the name of a file, and those that tell which of its versions isn't accepted.
fn of_listed(listed: String, name: &str) -> Option<Error> {
    Some(match name {
        "DatastoreOpen" => Error::DatastoreOpen { path: listed },
        "DatastoreCreate" => Error::DatastoreCreate { path: listed },
        "DatastoreRemove" => Error::DatastoreRemove { path: listed },
        "SnapshotRoleMissing" => Error::SnapshotRoleMissing {
            role: listed,
            old_version: 1,
            new_version: 2,
        },
        "SnapshotRoleRollback" => Error::SnapshotRoleRollback {
            role: listed,
            old_role_version: 6,
            old_snapshot_version: 1,
            new_role_version: 5,
            new_snapshot_version: 2,
        },
        _ => return None,
    })
}

// Those that tell a path and a fault of files.
fn of_files(path: String, name: &str) -> Option<Error> {
    let source = FilesError::NotFound;
    Some(match name {
        "DatastoreInit" => Error::DatastoreInit { source },
        "AbsolutePath" => Error::AbsolutePath { path, source },
        "DirCreate" => Error::DirCreate { path, source },
        "FileMetadata" => Error::FileMetadata { path, source },
        "FileOpen" => Error::FileOpen { path, source },
        "FileRead" => Error::FileRead { path, source },
        "FileWrite" => Error::FileWrite { path, source },
        "LinkCreate" => Error::LinkCreate { path, source },
        "RemoveTarget" => Error::RemoveTarget { path, source },
        "WalkDir" => Error::WalkDir {
            directory: path,
            source,
        },
        "SaveTargetOutdirCanonicalize" => Error::SaveTargetOutdirCanonicalize { path, source },
        "SaveTargetDirInfo" => Error::SaveTargetDirInfo { path, source },
        "NamedTempFileCreate" => Error::NamedTempFileCreate { path, source },
        "NamedTempFilePersist" => Error::NamedTempFilePersist { path, source },
        "CacheDirectoryCreate" => Error::CacheDirectoryCreate { path, source },
        "CacheFileRead" => Error::CacheFileRead { url: path, source },
        "CacheFileWrite" => Error::CacheFileWrite { path, source },
        "CacheTargetWrite" => Error::CacheTargetWrite { path, source },
        "TargetNameResolve" => Error::TargetNameResolve { name: path, source },
        _ => return None,
    })
}

// Those that tell a path alone.
fn of_paths(path: String, name: &str) -> Option<Error> {
    Some(match name {
        "FileUrl" => Error::FileUrl { path },
        "InvalidFileType" => Error::InvalidFileType { path },
        "NoFileName" => Error::NoFileName { path },
        "PathExistsFail" => Error::PathExistsFail { path },
        "PathIsNotFile" => Error::PathIsNotFile { path },
        "PathIsNotTarget" => Error::PathIsNotTarget { path },
        "PathUtf8" => Error::PathUtf8 { path },
        "UnixPathUtf8" => Error::UnixPathUtf8 { path },
        "SaveTargetOutdir" => Error::SaveTargetOutdir { path },
        "InvalidTargetName" => Error::InvalidTargetName { inner: path },
        "TargetNameComponentsEmpty" => Error::TargetNameComponentsEmpty { name: path },
        "TargetNameRootMissing" => Error::TargetNameRootMissing { name: path },
        "FileParseJson" => Error::FileParseJson {
            path,
            source: ReadError::Json(7),
        },
        _ => return None,
    })
}

// Those of editing and signing that tell a word.
fn of_words(word: String, name: &str) -> Option<Error> {
    Some(match name {
        "Missing" => Error::Missing { field: word },
        "DelegateNotFound" => Error::DelegateNotFound { name: word },
        "DelegatedRolesNotConsistent" => Error::DelegatedRolesNotConsistent { name: word },
        "SignMessage" => Error::SignMessage { source: word },
        "NoRoleKeysinRoot" => Error::NoRoleKeysinRoot { role: word },
        "SigningKeysNotFound" => Error::SigningKeysNotFound { role: word },
        "NoKeys" => Error::NoKeys { role: word },
        "DuplicateKeyid" => Error::DuplicateKeyid { keyid: word },
        "KeyPairFromKeySource" => Error::KeyPairFromKeySource { source: word },
        "KeyRejected" => Error::KeyRejected { source: word },
        "JoinSpawnBlockingTask" => Error::JoinSpawnBlockingTask { source: word },
        "ParseMetadata" => Error::ParseMetadata {
            role: RoleType::Targets,
            source: ReadError::Shape(word),
        },
        _ => return None,
    })
}

// Those with the cause of a document.
fn of_documents(name: &str) -> Option<Error> {
    let source = schema::Error::MissingRole {
        role: RoleType::Snapshot,
    };
    Some(match name {
        "ParseTrustedMetadata" => Error::ParseTrustedMetadata {
            source: ReadError::Json(7),
        },
        "VerifyTrustedMetadata" => Error::VerifyTrustedMetadata { source },
        "VerifyMetadata" => Error::VerifyMetadata {
            role: RoleType::Snapshot,
            source,
        },
        "InvalidPath" => Error::InvalidPath { source },
        "TargetsMap" => Error::TargetsMap { source },
        "JsonSerialization" => Error::JsonSerialization { source },
        _ => return None,
    })
}

// Those with the cause of a document that tell a role besides.
fn of_roles(role: String, name: &str) -> Option<Error> {
    let source = schema::Error::NoDelegations;
    Some(match name {
        "VerifyRoleMetadata" => Error::VerifyRoleMetadata { role, source },
        "SerializeRole" => Error::SerializeRole { role, source },
        "SerializeSignedRole" => Error::SerializeSignedRole { role, source },
        "KeyNotFound" => Error::KeyNotFound { role, source },
        "DelegateMissing" => Error::DelegateMissing { name: role, source },
        "TargetsNotFound" => Error::TargetsNotFound { name: role, source },
        "TargetFromPath" => Error::TargetFromPath { path: role, source },
        _ => return None,
    })
}

// Those that tell several texts.
fn of_texts(one: String, other: String, third: String, name: &str) -> Option<Error> {
    Some(match name {
        "HashMismatch" => Error::HashMismatch {
            context: one,
            calculated: other,
            expected: third,
        },
        "TargetFileTypeMismatch" => Error::TargetFileTypeMismatch {
            expected: one,
            found: other,
            path: third,
        },
        "JoinUrlEncoded" => Error::JoinUrlEncoded {
            original: one,
            encoded: other,
            filename: third,
            source: ParseError::InvalidIpv6Address,
        },
        "RoleNotInMeta" => Error::RoleNotInMeta {
            name: one,
            parent: other,
        },
        "SpecVersion" => Error::SpecVersion {
            given: one,
            supported: other,
        },
        _ => return None,
    })
}

// Those that tell the name of a target.
fn of_targets(target: TargetName, path: String, outdir: String, name: &str) -> Option<Error> {
    Some(match name {
        "SaveTargetNoParent" => Error::SaveTargetNoParent { path, name: target },
        "SaveTargetNotFound" => Error::SaveTargetNotFound { name: target },
        "SaveTargetUnsafePath" => Error::SaveTargetUnsafePath {
            name: target,
            outdir,
            filepath: path,
        },
        "CacheTargetMissing" => Error::CacheTargetMissing {
            target_name: target,
            source: schema::Error::NoTargets,
        },
        _ => return None,
    })
}

// Those of URLs, and of the paths that a role may list.
fn of_urls(alloc: Global, name: &str) -> Result<Option<Error>, AllocError> {
    Ok(Some(match name {
        "ParseUrl" => Error::ParseUrl {
            url: String::from_str(alloc, "metadata/")?,
            source: ParseError::RelativeUrlWithoutBase,
        },
        "JoinUrl" => Error::JoinUrl {
            path: String::from_str(alloc, "http://[")?,
            source: ParseError::InvalidIpv6Address,
        },
        "Transport" => Error::Transport {
            source: TransportError::new(alloc, TransportErrorKind::FileNotFound, "file:///a.json")?,
        },
        "InvalidPathPermission" => Error::InvalidPathPermission {
            name: String::from_str(alloc, "a")?,
            paths: Vec::new(alloc),
            source: schema::Error::NoTargets,
        },
        _ => return Ok(None),
    }))
}

// The variant of this name, of those with numbers or a moment.
fn numbered(name: &str) -> Result<Option<Error>> {
    if let Some(error) = of_none(name) {
        return Ok(Some(error));
    }
    if let Some(error) = of_versions(name) {
        return Ok(Some(error));
    }
    if let Some(error) = of_counts(name) {
        return Ok(Some(error));
    }
    of_moments(name)
}

// The variant of this name, of those with one text, which is `a`, or for a member of a document where it stands.
fn worded(alloc: Global, name: &str) -> Result<Option<Error>, AllocError> {
    if let Some(error) = of_listed(String::from_str(alloc, "a.json")?, name) {
        return Ok(Some(error));
    }
    if let Some(error) = of_files(String::from_str(alloc, "/a")?, name) {
        return Ok(Some(error));
    }
    if let Some(error) = of_paths(String::from_str(alloc, "/a")?, name) {
        return Ok(Some(error));
    }
    let word = match name {
        "ParseMetadata" => "signed.version (no number from 1 on)",
        _ => "a",
    };
    if let Some(error) = of_words(String::from_str(alloc, word)?, name) {
        return Ok(Some(error));
    }
    Ok(of_roles(String::from_str(alloc, "a")?, name))
}

// The variant of this name, of those with a cause or several texts.
fn caused(alloc: Global, name: &str) -> Result<Option<Error>> {
    if let Some(error) = of_documents(name) {
        return Ok(Some(error));
    }
    let (one, other) = (String::from_str(alloc, "a")?, String::from_str(alloc, "b")?);
    if let Some(error) = of_texts(one, other, String::from_str(alloc, "c")?, name) {
        return Ok(Some(error));
    }
    let target = TargetName::from_str(alloc, "a.txt")?;
    let (path, outdir) = (
        String::from_str(alloc, "/a")?,
        String::from_str(alloc, "/b")?,
    );
    if let Some(error) = of_targets(target, path, outdir, name) {
        return Ok(Some(error));
    }
    Ok(of_urls(alloc, name)?)
}

/// The text of the variant that the case names.
pub(crate) fn told(alloc: Global, case: &Value) -> Result<String> {
    let name = text(case, "name");
    if let Some(error) = numbered(name)? {
        return Ok(format!(in alloc; "{error}")?);
    }
    if let Some(error) = worded(alloc, name)? {
        return Ok(format!(in alloc; "{error}")?);
    }
    match caused(alloc, name)? {
        Some(error) => Ok(format!(in alloc; "{error}")?),
        None => Err(anyhow!("no error {name}")),
    }
}
