//! A publisher: makes a repository of the files below a folder, or the next version of the repository that is there, signs it by the scheme for
//! demonstrations, and writes it. By that scheme everybody can sign.
#![tactic(auto)]

mod begin;
mod find;

use crate::begin::{Begun, begin, in_a_year};
use crate::find::{Found, find};
use anyhow::{Result, anyhow};
use std::alloc::{AllocGlobal, Global};
use std::num::NonZeroU64;
use std::process::ExitCode;
use std::{env, fs};
use tough::editor::RepositoryEditor;
use tough::editor::signed::{PathExists, SignedRepository, TargetFiles, replace_repository};
use tough::jiff::Timestamp;
use tough::schema::{DemoSign, Key, PathPattern, PathSet, Target};
use tough::{Files, FilesystemTransport, OsFiles};

const USAGE: &str = "usage: publisher ROOT KEYS TARGETSDIR OUTDIR [ROLE]";

pub(crate) type Editor = RepositoryEditor<FilesystemTransport<HostRuntime>>;

type Disk = OsFiles<HostRuntime>;

// What the program is asked for: the signed root, the signers' keys, the folder of the targets, that of the repository, and the role that lists the
// files below the folder of its name.
#[derive(Drop)]
pub(crate) struct Words<'a> {
    pub(crate) root: &'a str,
    keys: &'a str,
    targets: &'a str,
    pub(crate) outdir: &'a str,
    pub(crate) role: Option<&'a str>,
}

// Signers by the keys of the file: an Ed25519 key in each line, in hexadecimal digits.
fn read_signers(rt: &HostRuntime, path: &str) -> Result<Vec<DemoSign>> {
    let text = fs::read_to_string(rt, path)?;
    let mut signers = Vec::new(rt.alloc());
    for line in text.lines() {
        let key = Key::from_str(rt.alloc(), line)?;
        signers.push(DemoSign { key })?;
    }
    Ok(signers)
}

// Has the document that is edited list the files below the folder of the role, or the others, and nothing else.
fn list(
    alloc: Global,
    editor: &mut Editor,
    disk: &mut Disk,
    found: &[Found],
    role: Option<&str>,
    of_role: bool,
) -> Result<()> {
    editor.clear_targets()?;
    for file in found {
        if file.is_below(role) != of_role {
            continue;
        }
        let target = Target::from_path(alloc, disk, file.path.as_str())?;
        editor.add_target(file.name.clone()?, target)?;
    }
    Ok(())
}

// Delegates to the role what lies below the folder of its name.
fn delegate(
    alloc: Global,
    editor: &mut Editor,
    signers: &[DemoSign],
    role: &str,
    expires: Timestamp,
) -> Result<()> {
    let one = NonZeroU64::MIN;
    let pattern = format!(in alloc; "{role}/*")?;
    let mut patterns = Vec::new(alloc);
    patterns.push(PathPattern::from_str(alloc, pattern.as_str())?)?;
    let paths = PathSet::Paths(patterns);
    editor.delegate_role(role, signers, paths, false, one, expires, one)?;
    Ok(())
}

// Signs the repository with these files.
fn sign(
    rt: &HostRuntime,
    disk: &mut Disk,
    words: &Words<'_>,
    found: &[Found],
) -> Result<SignedRepository> {
    let (alloc, expires) = (rt.alloc(), in_a_year(rt)?);
    let signers = read_signers(rt, words.keys)?;
    let signers = signers.as_slice();
    let Begun {
        mut editor,
        targets,
        snapshot,
        timestamp,
        role,
    } = begin(rt, words)?;
    editor.targets_version(targets)?.targets_expires(expires)?;
    editor.snapshot_version(snapshot).snapshot_expires(expires);
    editor
        .timestamp_version(timestamp)
        .timestamp_expires(expires);
    list(alloc, &mut editor, disk, found, words.role, false)?;
    if let Some(name) = words.role {
        if role.is_none() {
            delegate(alloc, &mut editor, signers, name, expires)?;
        }
        editor.sign_targets_editor(signers)?;
        editor.change_delegated_targets(name)?;
        let version = role.unwrap_or(NonZeroU64::MIN);
        editor.targets_version(version)?.targets_expires(expires)?;
        list(alloc, &mut editor, disk, found, words.role, true)?;
    }
    Ok(editor.sign(signers)?)
}

// Makes a folder, or tells which one can't be made, and what the system said.
fn make_folder(disk: &mut Disk, folder: &str) -> Result<()> {
    match disk.make_folders(folder) {
        Ok(()) => Ok(()),
        Err(error) => match disk.last_fault() {
            Some(fault) => Err(anyhow!("{folder} can't be made: {fault}")),
            None => Err(anyhow::Error::from(error)),
        },
    }
}

// Makes the repository, and writes it: first the files of the targets, then the metadata, the timestamp last.
fn publish(rt: &HostRuntime, words: &Words<'_>) -> Result<()> {
    let alloc = rt.alloc();
    let mut disk = OsFiles::new(rt.clone()?);
    let found = find(alloc, &mut disk, words.targets)?;
    let signed = sign(rt, &mut disk, words, found.as_slice())?;
    let listed = TargetFiles::of_repository(alloc, &signed)?;
    let folder = format!(in alloc; "{}/targets", words.outdir)?;
    make_folder(&mut disk, folder.as_str())?;
    for file in &found {
        let (path, skip) = (file.path.as_str(), PathExists::Skip);
        listed.copy_target(
            alloc,
            &mut disk,
            path,
            folder.as_str(),
            skip,
            Some(&file.name),
        )?;
    }
    let folder = format!(in alloc; "{}/metadata", words.outdir)?;
    make_folder(&mut disk, folder.as_str())?;
    replace_repository(alloc, &mut disk, folder.as_str(), &signed)?;
    let version = signed.timestamp().signed().signed.version;
    println!(rt; "published {} files, timestamp {version}", found.len())?;
    Ok(())
}

// Does what the words ask for, and says whether it was done.
fn answer(rt: &HostRuntime) -> Result<ExitCode> {
    let mut words = Vec::new(rt.alloc());
    for word in env::args(rt)?.skip(1) {
        words.push(word)?;
    }
    let (given, role) = match words.as_slice() {
        [given @ .., role] if given.len() == 4 => (given, Some(role.as_str())),
        given => (given, None),
    };
    let [root, keys, targets, outdir] = given else {
        eprintln!(rt; "{USAGE}")?;
        return Ok(ExitCode::FAILURE);
    };
    let (root, keys, targets) = (root.as_str(), keys.as_str(), targets.as_str());
    publish(
        rt,
        &Words {
            root,
            keys,
            targets,
            outdir: outdir.as_str(),
            role,
        },
    )?;
    Ok(ExitCode::SUCCESS)
}

fn main(rt: HostRuntime) -> ExitCode {
    match answer(&rt) {
        Ok(code) => code,
        Err(error) => {
            let _ = eprintln!(&rt; "publisher: {error}");
            ExitCode::FAILURE
        }
    }
}
