//! The files of targets are put into the repository.

use crate::fault::{Fault, about, refused};
use crate::files::{Disk, fresh_path, make_folders, settle, split};
use crate::found::Found;
use crate::host::Host;
use std::alloc::Global;
use std::fs::OpenOptions;
use std::{fs, io};
use tough::editor::signed::SignedRepository;
use tough::schema::Target;

const UNLISTED: &str = "no document lists it";

const CHANGED: &str = "changed while it was published; run it again";

/// The target that the file at the path is.
pub(crate) fn measure<R: Host>(
    alloc: Global,
    disk: &mut Disk<R>,
    path: &str,
) -> Result<Target, Fault> {
    match Target::from_path(alloc, disk, path) {
        Ok(target) => Ok(target),
        Err(error) => Err(about(alloc, path, &error)),
    }
}

/// Whether the file at the path is the target.
pub(crate) fn is_at<R: Host>(
    alloc: Global,
    disk: &mut Disk<R>,
    path: &str,
    target: &Target,
) -> bool {
    match Target::from_path(alloc, disk, path) {
        Ok(found) => {
            found.length == target.length && found.hashes.sha256 == target.hashes.sha256
        }
        Err(_) => false,
    }
}

/// Where the file of a target stands: with consistent snapshots its digest is before its name (TUF specification 1.0, section 6.2).
pub(crate) fn place(
    alloc: Global,
    repo: &str,
    name: &str,
    target: &Target,
    consistent: bool,
) -> Result<String, Fault> {
    if !consistent {
        return Ok(format!(in alloc; "{repo}/targets/{name}")?);
    }
    let digest = target.hashes.sha256.as_str();
    Ok(format!(in alloc; "{repo}/targets/{digest}.{name}")?)
}

// Makes a copy of the file where nothing stands.
fn duplicate<R: Host>(rt: &R, from: &str, to: &str) -> io::Result<()> {
    let mut source = fs::open(rt, from)?;
    let mut file = OpenOptions::new()
        .write(true)
        .create_new(true)
        .open(rt, to)?;
    io::copy(&mut source, &mut file)?;
    file.sync_all()
}

// Copies the file under a name of its own, which it changes for the path where it is the target.
fn copy<R: Host>(
    rt: &R,
    disk: &mut Disk<R>,
    repo: &str,
    file: &Found,
    target: &Target,
    path: &str,
) -> Result<(), Fault> {
    let alloc = rt.alloc();
    let (folder, _) = split(path);
    make_folders(rt, folder)?;
    let temp = fresh_path(rt, repo)?;
    let made = duplicate(rt, file.path.as_str(), temp.as_str());
    if made.is_ok() && !is_at(alloc, disk, temp.as_str(), target) {
        let _ = fs::remove_file(rt, temp.as_str());
        return Err(refused(alloc, file.path.as_str(), CHANGED));
    }
    settle(rt, made, temp.as_str(), path)
}

// Puts the file of a target below the folder, where it doesn't stand there whole.
fn put<R: Host>(
    rt: &R,
    disk: &mut Disk<R>,
    repo: &str,
    file: &Found,
    target: &Target,
    consistent: bool,
) -> Result<(), Fault> {
    let alloc = rt.alloc();
    let path = place(alloc, repo, file.name.resolved(), target, consistent)?;
    if is_at(alloc, disk, path.as_str(), target) {
        return Ok(());
    }
    copy(rt, disk, repo, file, target, path.as_str())
}

/// Puts the files of the targets into the repository.
pub(crate) fn put_all<R: Host>(
    rt: &R,
    disk: &mut Disk<R>,
    repo: &str,
    signed: &SignedRepository,
    files: &[Found],
) -> Result<(), Fault> {
    let alloc = rt.alloc();
    let folder = format!(in alloc; "{repo}/targets")?;
    make_folders(rt, folder.as_str())?;
    let consistent = signed.root().signed().signed.consistent_snapshot;
    let listed = signed.targets().signed().signed.targets_map(alloc)?;
    for file in files {
        match listed.get(&file.name) {
            Some(target) => put(rt, disk, repo, file, target, consistent)?,
            None => return Err(refused(alloc, file.path.as_str(), UNLISTED)),
        }
    }
    Ok(())
}
