//! The metadata of a repository is written.

use crate::fault::{Fault, about, refused};
use crate::files;
use crate::host::Host;
use crate::roots::RootFile;
use crate::synced::Synced;
use std::alloc::Global;
use std::io::ErrorKind;
use std::{fs, slice};
use tough::editor::signed::{
    NewFile, ReplaceError, SignedRepository, replace_files, replace_repository,
};
use tough::schema::{Root, Signed};

/// The name of the timestamp's file.
pub(crate) const TIMESTAMP: &str = "timestamp.json";

const OTHER_ROOT: &str = "another root of this version was published; make one of the next";

// Whether the bytes are this root, with whatever signatures.
fn is_root(alloc: Global, bytes: &[u8], root: &RootFile) -> bool {
    match Signed::<Root>::read(alloc, bytes) {
        Ok(there) => there.signed == root.signed.signed,
        Err(_) => false,
    }
}

/// Refuses a root where another one of its version stands in the repository.
pub(crate) fn check_root<R: Host>(rt: &R, repo: &str, root: &RootFile) -> Result<(), Fault> {
    let alloc = rt.alloc();
    let version = root.signed.signed.version;
    let path = format!(in alloc; "{repo}/metadata/{version}.root.json")?;
    match fs::read(rt, path.as_str()) {
        Ok(bytes) if is_root(alloc, bytes.as_slice(), root) => Ok(()),
        Ok(_) => Err(refused(alloc, path.as_str(), OTHER_ROOT)),
        Err(error) if error.kind() == ErrorKind::NotFound => Ok(()),
        Err(error) => Err(about(alloc, path.as_str(), &error)),
    }
}

// What became of replacing files in the folder of the metadata.
fn outcome<R: Host>(
    alloc: Global,
    folder: &str,
    files: Synced<R>,
    done: Result<(), ReplaceError>,
) -> Result<(), Fault> {
    let (name, source) = match done {
        Ok(()) => return Ok(()),
        Err(ReplaceError::Memory) => return Err(Fault::Memory),
        Err(ReplaceError::Refused { name, source }) => (name, source),
    };
    let path = format!(in alloc; "{folder}/{name}")?;
    match files.into_fault() {
        Some(error) => Err(about(alloc, path.as_str(), &error)),
        None => Err(about(alloc, path.as_str(), &source)),
    }
}

/// Replaces a file in the folder of the metadata.
pub(crate) fn replace<R: Host>(rt: &R, repo: &str, file: &NewFile<'_>) -> Result<(), Fault> {
    let alloc = rt.alloc();
    let folder = format!(in alloc; "{repo}/metadata")?;
    let mut files = Synced::new(rt.clone()?);
    let done = replace_files(alloc, &mut files, folder.as_str(), slice::from_ref(file));
    outcome(alloc, folder.as_str(), files, done)
}

// Writes the roots before the newest one.
fn write_roots<R: Host>(rt: &R, repo: &str, roots: &[RootFile]) -> Result<(), Fault> {
    for root in roots {
        let version = root.signed.signed.version;
        let name = format!(in rt.alloc(); "{version}.root.json")?;
        let file = NewFile {
            name: name.as_str(),
            bytes: root.bytes.as_slice(),
        };
        replace(rt, repo, &file)?;
    }
    Ok(())
}

/// Writes the metadata below the folder of the repository, with the roots before the newest one; the timestamp comes last.
pub(crate) fn write<R: Host>(
    rt: &R,
    repo: &str,
    signed: &SignedRepository,
    earlier: &[RootFile],
) -> Result<(), Fault> {
    let alloc = rt.alloc();
    let folder = format!(in alloc; "{repo}/metadata")?;
    files::make_folders(rt, folder.as_str())?;
    write_roots(rt, repo, earlier)?;
    let mut files = Synced::new(rt.clone()?);
    let done = replace_repository(alloc, &mut files, folder.as_str(), signed);
    outcome(alloc, folder.as_str(), files, done)
}
