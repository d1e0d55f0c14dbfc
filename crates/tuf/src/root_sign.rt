//! `tuf root sign`: holders of a root's keys sign it, one after another.

use crate::fault::{Fault, refused};
use crate::files;
use crate::host::Host;
use crate::keys::read_signer;
use crate::roots::{RootFile, count_signed, line, read, text, told_of};
use std::alloc::Global;
use tough::schema::{Root, Signed};
use tough_ceremony::{CeremonyError, sign_root};

const NO_KEY: &str = "no key of this root's role root, nor of the root before; see --old-root";

/// What is signed by which keys.
#[derive(Drop)]
pub(crate) struct Signing<'a> {
    /// The file of the root.
    pub(crate) root: &'a str,
    /// The files of the keys.
    pub(crate) keys: &'a [&'a str],
}

// Adds the signatures by the key of a file.
fn sign_by<R: Host>(
    rt: &R,
    root: &mut RootFile,
    old: Option<&RootFile>,
    path: &str,
) -> Result<(), Fault> {
    let alloc = rt.alloc();
    let signer = read_signer(rt, path)?;
    let before = match old {
        Some(old) => Some(&old.signed.signed),
        None => None,
    };
    match sign_root(alloc, &mut root.signed, before, &signer) {
        Ok(()) => Ok(()),
        Err(CeremonyError::NotListed) => Err(refused(alloc, path, NO_KEY)),
        Err(error) => Err(told_of(alloc, path, error)),
    }
}

// Who signed the root, of its own keys and of those of the root before.
fn told(
    alloc: Global,
    path: &str,
    root: &RootFile,
    old: Option<&RootFile>,
) -> Result<String, Fault> {
    let own = count_signed(alloc, path, &root.signed.signed, &root.signed)?;
    let mut text = line(alloc, path, &own)?;
    if let Some(old) = old {
        let before = count_signed(alloc, path, &old.signed.signed, &root.signed)?;
        text.push_str(line(alloc, "keys of the root before", &before)?.as_str())?;
    }
    Ok(text)
}

// Adds the signatures of all keys: who has signed, and who may still.
fn sign_by_all<R: Host>(
    rt: &R,
    root: &mut RootFile,
    old: Option<&RootFile>,
    signing: &Signing<'_>,
) -> Result<String, Fault> {
    for key in signing.keys {
        sign_by(rt, root, old, key)?;
    }
    told(rt.alloc(), signing.root, root, old)
}

// Adds the signatures, where the root before is at hand.
fn sign_after<R: Host>(
    rt: &R,
    signing: &Signing<'_>,
    old: Option<&RootFile>,
) -> Result<String, Fault> {
    let mut root = read(rt, signing.root)?;
    match sign_by_all(rt, &mut root, old, signing) {
        Ok(told) => {
            let RootFile { signed, bytes } = root;
            drop(bytes);
            write(rt, signing.root, signed, told)
        }
        Err(fault) => {
            drop(root);
            Err(fault)
        }
    }
}

// Writes the signed root: what is told of it.
fn write<R: Host>(rt: &R, path: &str, signed: Signed<Root>, told: String) -> Result<String, Fault> {
    let bytes = text(rt.alloc(), path, signed)?;
    files::write(rt, path, bytes.as_slice())?;
    Ok(told)
}

/// Adds signatures to those that the root's file has, also by keys of the root before it, whose file may be named: who has signed, and who
/// may still.
pub(crate) fn sign<R: Host>(
    rt: &R,
    signing: &Signing<'_>,
    old: Option<&str>,
) -> Result<String, Fault> {
    let Some(path) = old else {
        return sign_after(rt, signing, None);
    };
    let old = read(rt, path)?;
    let told = sign_after(rt, signing, Some(&old));
    drop(old);
    told
}
