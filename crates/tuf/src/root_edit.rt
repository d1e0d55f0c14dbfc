//! `tuf root edit`: a root gets or loses keys, thresholds, an expiry and a version.

use crate::fault::{Fault, misspelt, refused};
use crate::files;
use crate::host::Host;
use crate::keys::read_public;
use crate::roots::{ROLES, RootFile, read, text, told_of, unsigned};
use crate::version::LAST;
use std::alloc::Global;
use std::num::NonZeroU64;
use tough::jiff::Timestamp;
use tough::schema::decoded::{Decoded, Hex};
use tough::schema::{RoleKeys, RoleType, Root, Signed};
use tough_ceremony::{CeremonyError, list_key, next_version, unlist_key};

const NO_ROLE: &str = "the root lacks this role; make a new one by `tuf root new`";

const LISTED: &str = "the role has this key already";

const NO_KEY: &str = "not exactly one key of the role begins so; `tuf root show` lists them";

/// What is changed in a root.
#[derive(Drop)]
pub(crate) struct Editing<'a> {
    /// The file of the root.
    pub(crate) root: &'a str,
    /// ROLE=FILE: keys that are added.
    pub(crate) add: &'a [&'a str],
    /// ROLE=ID: keys that are removed.
    pub(crate) remove: &'a [&'a str],
    /// ROLE=N: how many must sign.
    pub(crate) thresholds: &'a [&'a str],
    /// When it expires.
    pub(crate) expires: Option<Timestamp>,
    /// Whether it gets the next version.
    pub(crate) bump: bool,
}

// A role of a root and what stands behind it, as words name them.
fn role_and<'a>(alloc: Global, word: &'a str, wanted: &str) -> Result<(RoleType, &'a str), Fault> {
    let Some((name, rest)) = word.split_once('=') else {
        return Err(misspelt(alloc, word, wanted));
    };
    for role in ROLES {
        if role.name() == name {
            return Ok((role, rest));
        }
    }
    Err(misspelt(
        alloc,
        word,
        "root, targets, snapshot or timestamp before the '='",
    ))
}

// The root lacks a role.
fn lacks(alloc: Global, role: RoleType) -> Fault {
    refused(alloc, role.name(), NO_ROLE)
}

// The key of a file is listed for a role.
fn add<R: Host>(rt: &R, root: &mut Root, word: &str) -> Result<(), Fault> {
    let alloc = rt.alloc();
    let (role, path) = role_and(alloc, word, "ROLE=FILE")?;
    let key = read_public(rt, path)?;
    match list_key(alloc, root, role, key) {
        Ok(()) => Ok(()),
        Err(CeremonyError::NoRole { role }) => Err(lacks(alloc, role)),
        Err(CeremonyError::AlreadyListed) => Err(refused(alloc, path, LISTED)),
        Err(error) => Err(told_of(alloc, path, error)),
    }
}

// The place of the one identifier that begins so.
fn place_of(keyids: &[Decoded<Hex>], beginning: &str) -> Option<usize> {
    let mut found = None;
    for (place, id) in keyids.iter().enumerate() {
        if id.as_str().starts_with(beginning) {
            if found.is_some() {
                return None;
            }
            found = Some(place);
        }
    }
    found
}

// The one identifier of the role that begins so.
fn id_of(
    alloc: Global,
    word: &str,
    keys: &RoleKeys,
    beginning: &str,
) -> Result<Decoded<Hex>, Fault> {
    match place_of(&keys.keyids, beginning) {
        Some(place) if place < keys.keyids.len() => Ok(keys.keyids[place].clone()?),
        _ => Err(refused(alloc, word, NO_KEY)),
    }
}

// A key is no longer listed for a role, and goes where no other role lists it.
fn remove(alloc: Global, root: &mut Root, word: &str) -> Result<(), Fault> {
    let (role, beginning) = role_and(alloc, word, "ROLE=ID")?;
    let id = match root.roles.get(&role) {
        Some(keys) => id_of(alloc, word, keys, beginning)?,
        None => return Err(lacks(alloc, role)),
    };
    match unlist_key(root, role, &id) {
        Ok(()) => Ok(()),
        Err(error) => Err(told_of(alloc, word, error)),
    }
}

// So many of the role's keys must sign.
fn set_threshold(alloc: Global, root: &mut Root, word: &str) -> Result<(), Fault> {
    let (role, number) = role_and(alloc, word, "ROLE=N")?;
    let Some(threshold) = number.parse::<u64>().ok().and_then(NonZeroU64::new) else {
        return Err(misspelt(alloc, word, "a number from 1 on behind the '='"));
    };
    match tough_ceremony::set_threshold(root, role, threshold) {
        Ok(()) => Ok(()),
        Err(_) => Err(lacks(alloc, role)),
    }
}

// Makes all the changes.
fn change<R: Host>(rt: &R, root: &mut Root, edit: &Editing<'_>) -> Result<(), Fault> {
    let alloc = rt.alloc();
    for word in edit.add {
        add(rt, root, word)?;
    }
    for word in edit.remove {
        remove(alloc, root, word)?;
    }
    for word in edit.thresholds {
        set_threshold(alloc, root, word)?;
    }
    if let Some(expires) = edit.expires {
        root.expires = expires;
    }
    if edit.bump && next_version(root).is_err() {
        return Err(refused(alloc, edit.root, LAST));
    }
    Ok(())
}

// The roles that have fewer keys than must sign.
fn lacking(alloc: Global, root: &Root) -> Result<String, Fault> {
    let mut text = String::new(alloc);
    for (role, keys) in root.roles.iter() {
        let (count, threshold) = (keys.keyids.len(), keys.threshold);
        if (count as u64) < threshold.get() {
            let line = format!(in alloc; "{role}: lacks keys, {count} of {threshold}\n")?;
            text.push_str(line.as_str())?;
        }
    }
    Ok(text)
}

// Writes the root without signatures, and tells what it is.
fn write<R: Host>(rt: &R, path: &str, root: Root) -> Result<String, Fault> {
    let alloc = rt.alloc();
    let (version, expires) = (root.version, root.expires);
    let signed = Signed {
        signed: root,
        signatures: Vec::new(alloc),
    };
    let bytes = text(alloc, path, signed)?;
    files::write(rt, path, bytes.as_slice())?;
    Ok(format!(in alloc; "{path}: version {version}, expires {expires}, unsigned\n")?)
}

// Makes all the changes: what the root then lacks.
fn change_and_tell<R: Host>(rt: &R, root: &mut Root, edit: &Editing<'_>) -> Result<String, Fault> {
    change(rt, root, edit)?;
    lacking(rt.alloc(), root)
}

/// Changes a root's file, which loses its signatures: what it still lacks.
pub(crate) fn edit<R: Host>(rt: &R, edit: &Editing<'_>) -> Result<String, Fault> {
    let RootFile { signed, bytes } = read(rt, edit.root)?;
    drop(bytes);
    let mut root = unsigned(signed);
    match change_and_tell(rt, &mut root, edit) {
        Ok(lacks) => {
            let told = write(rt, edit.root, root)?;
            Ok(format!(in rt.alloc(); "{told}{lacks}")?)
        }
        Err(fault) => {
            drop(root);
            Err(fault)
        }
    }
}
