//! `tuf root`: roots are made and shown.

use crate::fault::Fault;
use crate::host::Host;
use crate::report::{Form, Object, Report};
use crate::roots::{ROLES, RootFile, count_signed, is_signed_by, line, message, read, text};
use crate::{files, when};
use std::alloc::Global;
use tough::schema::decoded::{Decoded, Hex};
use tough::schema::{RoleType, Root, Signed};
use tough_ceremony::{Tally, empty_root};

/// Makes a root without keys in a new file.
pub(crate) fn new<R: Host>(rt: &R, path: &str, expires: &str) -> Result<String, Fault> {
    let alloc = rt.alloc();
    let expires = when::instant(rt, expires)?;
    let signed = Signed {
        signed: empty_root(alloc, expires)?,
        signatures: Vec::new(alloc),
    };
    let bytes = text(alloc, path, signed)?;
    files::write_new(rt, path, bytes.as_slice())?;
    Ok(format!(in alloc; "{path}: version 1, expires {expires}, without keys\n")?)
}

// Tells of a key: its identifier, its scheme, and whether it signed the root.
fn add_key(
    alloc: Global,
    report: &mut Report,
    root: &RootFile,
    message: &[u8],
    role: RoleType,
    id: &Decoded<Hex>,
) -> Result<(), Fault> {
    let signed = &root.signed.signed;
    let scheme = match signed.keys.get(id) {
        Some(key) => key.kind().scheme(),
        None => "unknown",
    };
    let has_signed = is_signed_by(signed, id, message, &root.signed.signatures);
    let by = if has_signed { ", signed" } else { "" };
    let words = format!(in alloc; "  {} {scheme}{by}\n", id.as_str())?;
    let mut object = Object::new(alloc);
    object.text("role", role.name())?;
    object.text("keyid", id.as_str())?;
    object.text("scheme", scheme)?;
    object.flag("signed", has_signed)?;
    Ok(report.add(words.as_str(), &object)?)
}

// Tells of a role: how many must sign, and its keys.
fn add_role(
    alloc: Global,
    report: &mut Report,
    root: &RootFile,
    message: &[u8],
    role: RoleType,
) -> Result<(), Fault> {
    let mut object = Object::new(alloc);
    object.text("role", role.name())?;
    let Some(keys) = root.signed.signed.roles.get(&role) else {
        let words = format!(in alloc; "{role}: missing\n")?;
        return Ok(report.add(words.as_str(), &object)?);
    };
    let threshold = keys.threshold;
    let count = keys.keyids.len();
    object.number("threshold", threshold.get())?;
    object.number("keys", count as u64)?;
    let words = format!(in alloc; "{role}: threshold {threshold}, {count} keys\n")?;
    report.add(words.as_str(), &object)?;
    for id in &keys.keyids {
        add_key(alloc, report, root, message, role, id)?;
    }
    Ok(())
}

// Tells of the root's version and expiry.
fn add_root(alloc: Global, report: &mut Report, path: &str, root: &Root) -> Result<(), Fault> {
    let version = root.version;
    let expires = format!(in alloc; "{}", root.expires)?;
    let words = format!(in alloc; "{path}: version {version}, expires {expires}\n")?;
    let mut object = Object::new(alloc);
    object.text("file", path)?;
    object.number("version", version.get())?;
    object.text("expires", expires.as_str())?;
    Ok(report.add(words.as_str(), &object)?)
}

// Tells who signed, of the keys of the root's role.
fn add_tally(alloc: Global, report: &mut Report, tally: &Option<Tally<'_>>) -> Result<(), Fault> {
    let words = line(alloc, "its own keys", tally)?;
    let mut object = Object::new(alloc);
    if let Some(tally) = tally {
        object.number("signed", tally.signed().len() as u64)?;
        object.number("threshold", tally.threshold())?;
    }
    object.flag("verifies", tally.as_ref().is_some_and(|it| it.is_reached()))?;
    Ok(report.add(words.as_str(), &object)?)
}

/// What is told of a root: its version and expiry, its roles with their keys, and who signed it.
pub(crate) fn show<R: Host>(rt: &R, path: &str, form: Form) -> Result<String, Fault> {
    let alloc = rt.alloc();
    let root = read(rt, path)?;
    let signed = &root.signed.signed;
    let message = message(alloc, path, signed)?;
    let mut report = Report::new(alloc, form);
    add_root(alloc, &mut report, path, signed)?;
    for role in ROLES {
        add_role(alloc, &mut report, &root, message.as_slice(), role)?;
    }
    let tally = count_signed(alloc, path, signed, &root.signed)?;
    add_tally(alloc, &mut report, &tally)?;
    Ok(report.into_text())
}
