//! Errors of documents with members that stay the same, as a user reads them.

use crate::outcome::shown;
use anyhow::{Result, anyhow};
use serde_json::Value;
use std::alloc::Global;
use tough_files::OsFiles;
use tough_names::TargetName;
use tough_schema::{self as schema, RoleType, Target};
use trials_calls::case::text;

// Those of documents, keys and texts.
fn of_schema(alloc: Global, name: &str) -> Result<Option<schema::Error>> {
    let role = RoleType::Snapshot;
    Ok(Some(match name {
        "TargetNotFound" => schema::Error::TargetNotFound {
            name: TargetName::from_str(alloc, "a.txt")?,
        },
        "NoDelegations" => schema::Error::NoDelegations,
        "NoTargets" => schema::Error::NoTargets,
        "MissingRole" => schema::Error::MissingRole { role },
        "JsonSerialization" => schema::Error::JsonSerialization { what: role },
        "SignatureThreshold" => schema::Error::SignatureThreshold {
            role,
            threshold: 3,
            valid: 2,
        },
        "Glob" => schema::Error::Glob,
        "HexDecode" => schema::Error::HexDecode,
        "PemDecode" => schema::Error::PemDecode,
        "SpkiDecode" => schema::Error::SpkiDecode,
        "Memory" => schema::Error::Memory,
        _ => return Ok(None),
    }))
}

// Those that tell a name or a path.
fn of_paths(alloc: Global, name: &str) -> Result<Option<schema::Error>> {
    let told = String::from_str(alloc, "a")?;
    Ok(Some(match name {
        "RoleNotFound" => schema::Error::RoleNotFound { name: told },
        "DuplicateKeyId" => schema::Error::DuplicateKeyId { keyid: told },
        "FileOpen" => schema::Error::FileOpen { path: told },
        "FileRead" => schema::Error::FileRead { path: told },
        "TargetNotAFile" => schema::Error::TargetNotAFile { path: told },
        "InvalidKeyId" => schema::Error::InvalidKeyId {
            keyid: told,
            calculated: String::from_str(alloc, "b")?,
        },
        "DuplicateRoleName" => schema::Error::DuplicateRoleName { name: told },
        "UnmatchedPath" => schema::Error::UnmatchedPath { child: told },
        _ => return Ok(None),
    }))
}

/// A document's error of this name.
pub fn told_of_schema(alloc: Global, case: &Value) -> Result<String> {
    let name = text(case, "name");
    if let Some(error) = of_schema(alloc, name)? {
        return Ok(shown(alloc, error)?);
    }
    match of_paths(alloc, name)? {
        Some(error) => Ok(shown(alloc, error)?),
        None => Err(anyhow!("no error {name}")),
    }
}

/// What a target of a file of the system is: its length, or why there is none.
pub fn measured(rt: &HostRuntime, case: &Value) -> Result<String> {
    let alloc = rt.alloc();
    let mut files = OsFiles::new(rt.clone()?);
    let told = match Target::from_path(alloc, &mut files, text(case, "path")) {
        Ok(target) => format!(in alloc; "{}", target.length)?,
        Err(error) => format!(in alloc; "{error:?}")?,
    };
    Ok(told)
}
