//! The roots of a publisher: each is verified, and follows the one before.

use crate::fault::{Fault, refused};
use crate::host::Host;
use crate::roots::{RootFile, read};
use crate::when;
use std::alloc::Global;
use tough::schema::Root;
use tough_signatures::StandardVerify;

// Whether enough keys of the one root signed the other.
fn verify(alloc: Global, path: &str, by: &Root, root: &RootFile) -> Result<(), Fault> {
    match by.verify_role(alloc, &root.signed, &StandardVerify) {
        Ok(()) => Ok(()),
        Err(error) => {
            let text = format!(in alloc; "{path}: {error}; `tuf root sign` adds signatures")?;
            Err(Fault::Told(text))
        }
    }
}

// Whether the root is the next one after the other, and its keys signed it.
fn follows(alloc: Global, path: &str, before: &RootFile, root: &RootFile) -> Result<(), Fault> {
    let last = before.signed.signed.version.get();
    if last.checked_add(1) != Some(root.signed.signed.version.get()) {
        return Err(refused(alloc, path, "not the version after the root before it"));
    }
    verify(alloc, path, &before.signed.signed, root)
}

/// The roots of the files, the oldest first: each is signed by its own keys and by those of the root before it.
pub(crate) fn read_chain<R: Host>(rt: &R, paths: &[&str]) -> Result<Vec<RootFile>, Fault> {
    let alloc = rt.alloc();
    let mut roots: Vec<RootFile> = Vec::new(alloc);
    for path in paths {
        let root = read(rt, path)?;
        verify(alloc, path, &root.signed.signed, &root)?;
        if let Some(before) = roots.last() {
            follows(alloc, path, before, &root)?;
        }
        roots.push(root)?;
    }
    Ok(roots)
}

/// The bytes of the oldest root, from which a repository that stands is loaded.
pub(crate) fn trusted(alloc: Global, roots: &[RootFile]) -> Result<Vec<u8>, Fault> {
    match roots.first() {
        Some(root) => Ok(root.bytes.clone()?),
        None => Err(refused(alloc, "--root", "a root is needed")),
    }
}

// Refuses a root that has expired.
fn check_time<R: Host>(rt: &R, root: &Root) -> Result<(), Fault> {
    let now = when::now(rt)?;
    let version = root.version;
    let expires = root.expires;
    if expires > now {
        return Ok(());
    }
    let text = format!(in rt.alloc();
        "root {version}: expired {expires}; `tuf root edit --expires --bump`, then sign it"
    )?;
    Err(Fault::Told(text))
}

/// Takes the newest root, which must not have expired.
pub(crate) fn take_newest<R: Host>(rt: &R, roots: &mut Vec<RootFile>) -> Result<RootFile, Fault> {
    if let Some(root) = roots.last() {
        check_time(rt, &root.signed.signed)?;
    }
    match roots.pop() {
        Some(root) => Ok(root),
        None => Err(refused(rt.alloc(), "--root", "a root is needed")),
    }
}
