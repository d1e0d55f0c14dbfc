//! The editor of a new repository, or of the next version of one.

use crate::{Editor, Words};
use anyhow::{Result, anyhow};
use std::alloc::{AllocGlobal, Global};
use std::fs;
use std::num::NonZeroU64;
use tough::editor::RepositoryEditor;
use tough::jiff::Timestamp;
use tough::schema::{DemoVerify, Targets};
use tough::{
    ExpirationEnforcement, Files, FilesystemTransport, MemoryStore, OsFiles, RepositoryLoader,
    RepositoryParts, SystemClock, Url, Vault, drive,
};

// A year, in seconds.
const YEAR: i64 = 31_536_000;

/// An editor, and the version that each document is to have.
#[derive(Drop)]
pub(crate) struct Begun {
    pub(crate) editor: Editor,
    pub(crate) targets: NonZeroU64,
    pub(crate) snapshot: NonZeroU64,
    pub(crate) timestamp: NonZeroU64,
    /// That of the role's document, where the role is there.
    pub(crate) role: Option<NonZeroU64>,
}

/// The moment in a year.
pub(crate) fn in_a_year(rt: &HostRuntime) -> Result<Timestamp> {
    let second = Timestamp::now(rt)?.as_second().saturating_add(YEAR);
    Ok(Timestamp::from_second(second)?)
}

// The version after this one.
fn after(version: NonZeroU64) -> Result<NonZeroU64> {
    match version.get().checked_add(1).and_then(NonZeroU64::new) {
        Some(next) => Ok(next),
        None => Err(anyhow!("no version follows {version}")),
    }
}

// The repository in the folder, whose first root is trusted; metadata that has expired is taken.
fn load(
    rt: &HostRuntime,
    root: &str,
    folder: &str,
) -> Result<RepositoryParts<FilesystemTransport<HostRuntime>>> {
    let alloc = rt.alloc();
    let trusted = fs::read(rt, root)?;
    let metadata = Url::parse(
        alloc,
        format!(in alloc; "file://{folder}/metadata")?.as_str(),
    )?;
    let targets = Url::parse(
        alloc,
        format!(in alloc; "file://{folder}/targets")?.as_str(),
    )?;
    let mut vault = Vault::new(alloc, MemoryStore::new(alloc));
    let load = RepositoryLoader::new(alloc, trusted.as_slice(), metadata, targets)
        .transport(FilesystemTransport::new(rt.clone()?))
        .verifier(DemoVerify)
        .clock(SystemClock::new(rt.clone()?))
        .keeper(&mut vault)
        .expiration_enforcement(ExpirationEnforcement::Unsafe)
        .load()?;
    let repository = drive(rt, load)??;
    Ok(repository.into_parts())
}

// The version after that of the role's document, where the role is there.
fn next_of_role(
    alloc: Global,
    targets: &Targets,
    role: Option<&str>,
) -> Result<Option<NonZeroU64>> {
    let Some(name) = role else {
        return Ok(None);
    };
    let Ok(role) = targets.delegated_role(alloc, name) else {
        return Ok(None);
    };
    match &role.targets {
        Some(document) => Ok(Some(after(document.signed.targets.version)?)),
        None => Ok(Some(NonZeroU64::MIN)),
    }
}

/// An editor of the repository in the folder, or of a new one, where there is none.
pub(crate) fn begin(rt: &HostRuntime, words: &Words<'_>) -> Result<Begun> {
    let alloc = rt.alloc();
    let mut files = OsFiles::new(rt.clone()?);
    let timestamp = format!(in alloc; "{}/metadata/timestamp.json", words.outdir)?;
    if files.kind(timestamp.as_str(), true).is_err() {
        return Ok(Begun {
            editor: RepositoryEditor::new(alloc, &mut files, words.root)?,
            targets: NonZeroU64::MIN,
            snapshot: NonZeroU64::MIN,
            timestamp: NonZeroU64::MIN,
            role: None,
        });
    }
    let folder = files.canonical(words.outdir)?;
    let parts = load(rt, words.root, folder.as_str())?;
    let targets = after(parts.targets.signed.version)?;
    let snapshot = after(parts.snapshot.signed.version)?;
    let timestamp = after(parts.timestamp.signed.version)?;
    let role = next_of_role(alloc, &parts.targets.signed, words.role)?;
    Ok(Begun {
        editor: RepositoryEditor::from_repo(alloc, &mut files, words.root, parts)?,
        targets,
        snapshot,
        timestamp,
        role,
    })
}
