//! Targets that are made of files, and repositories that are made for demonstrations.

use crate::case::{flag, number, text};
use crate::documents::tell;
use anyhow::Result;
use serde_json::Value;
use sha2::{Digest, Sha256};
use std::alloc::Global;
use tough_demo::{RepositoryFiles, repository};
use tough_files::{Files, FilesError, MemoryFiles};
use tough_schema::{Hashes, Target};

// A file `/f` with these bytes, a link `/l` to it, and a folder `/d`.
fn files(alloc: Global, bytes: &[u8]) -> Result<MemoryFiles, FilesError> {
    let mut files = MemoryFiles::new(alloc);
    files.create("/f")?;
    files.append("/f", bytes)?;
    files.link("/f", "/l")?;
    files.make_folders("/d")?;
    Ok(files)
}

// The length and the digests of what stands at the path, where the file has this content so many times.
fn from_path(alloc: Global, path: &str, content: &str, times: u64) -> Result<String> {
    let content = content.repeat(alloc, times as usize)?;
    let mut files = files(alloc, content.as_bytes())?;
    match Target::from_path(alloc, &mut files, path) {
        Ok(target) => {
            let Hashes { sha256, sha512, .. } = &target.hashes;
            let second = match sha512 {
                Some(sha512) => sha512.as_str(),
                None => "none",
            };
            Ok(format!(in alloc; "{} {} {second}", target.length, sha256.as_str())?)
        }
        Err(error) => Ok(format!(in alloc; "{error:?}")?),
    }
}

// The digest of bytes, in hexadecimal digits.
fn digest_of(alloc: Global, bytes: &[u8]) -> Result<String> {
    let mut hasher = Sha256::new();
    hasher.update(bytes);
    Ok(hex::encode(alloc, hasher.finalize().as_slice())?)
}

// The path, length and digest of each file.
fn listing(alloc: Global, made: &RepositoryFiles) -> Result<String> {
    let mut lines = Vec::new(alloc);
    for file in &made.files {
        let digest = digest_of(alloc, file.bytes.as_slice())?;
        lines.push(format!(in alloc; "{} {} {digest}", file.path, file.bytes.len())?)?;
    }
    Ok(lines.as_slice().join(alloc, "; ")?)
}

// The files of a repository of so many targets, or what a call tells of one of them, under the root that the clients trust.
fn made(alloc: Global, case: &Value) -> Result<String> {
    let count = number(case, "count").unwrap_or(0);
    let made = repository(alloc, count, flag(case, "consistent"))?;
    let path = text(case, "file");
    if path.is_empty() {
        return listing(alloc, &made);
    }
    let (call, kind) = (text(case, "tells"), text(case, "kind"));
    match made.files.iter().find(|file| file.path.as_str() == path) {
        Some(file) => tell(
            alloc,
            call,
            kind,
            file.bytes.as_slice(),
            made.root.as_slice(),
        ),
        None => Ok(String::from_str(alloc, "no such file")?),
    }
}

/// What a call on what is made answers, if it is one.
pub(crate) fn answer(alloc: Global, call: &str, case: &Value) -> Result<Option<String>> {
    Ok(match call {
        "Target::from_path" => Some(from_path(
            alloc,
            text(case, "path"),
            text(case, "content"),
            number(case, "times").unwrap_or(1),
        )?),
        "repository" => Some(made(alloc, case)?),
        _ => None,
    })
}
