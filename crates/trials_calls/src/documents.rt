//! Documents of one role: how they are read and written, what they say of themselves, and their verification.

use crate::case::{list, number, text};
use anyhow::Result;
use jiff::Timestamp as Instant;
use serde_json::Value;
use std::alloc::Global;
use std::collections::BTreeSet;
use std::num::NonZeroU64;
use tough_json::Form;
use tough_names::TargetName;
use tough_schema::{
    DelegatedTargets, Delegations, DemoVerify, Error, ReadError, Role, RoleType, Root, Signed,
    Snapshot, Targets, Timestamp,
};

/// A verdict: `Ok`, or the refusal.
pub(crate) fn verdict(alloc: Global, answer: Result<(), Error>) -> Result<String> {
    match answer {
        Ok(()) => Ok(String::from_str(alloc, "Ok")?),
        Err(error) => Ok(format!(in alloc; "{error:?}")?),
    }
}

// What comes of a root, by itself, and of a document under it.
fn verified<T: Role + Drop>(alloc: Global, root: &[u8], document: &Signed<T>) -> Result<String> {
    let root: Signed<Root> = match Signed::read(alloc, root) {
        Ok(root) => root,
        Err(error) => return Ok(format!(in alloc; "{error:?}")?),
    };
    if let Err(error) = root.signed.verify_role(alloc, &root, &DemoVerify) {
        return Ok(format!(in alloc; "{error:?}")?);
    }
    verdict(alloc, root.signed.verify_role(alloc, document, &DemoVerify))
}

// What a document says of itself: its version, the second in which it expires, the names of its file with consistent snapshots
// and without, and which role it is of.
fn head<T: Role>(alloc: Global, role: &T) -> Result<String> {
    let consistent = role.filename(alloc, true)?;
    let plain = role.filename(alloc, false)?;
    let id = role.role_id()?;
    let (version, expires) = (role.version().get(), role.expires().as_second());
    Ok(format!(in alloc; "{version} {expires} {consistent} {plain} {id:?}")?)
}

// What a document says of itself, and its text.
fn whole<T: Role>(alloc: Global, role: &T) -> Result<String> {
    let head = head(alloc, role)?;
    let text = role.to_value(alloc)?.to_string(alloc)?;
    Ok(format!(in alloc; "{head} {text}")?)
}

// What a call tells of a signed document.
fn about<T: Role + Drop>(
    alloc: Global,
    call: &str,
    document: &[u8],
    root: &[u8],
) -> Result<String> {
    let document: Signed<T> = match Signed::read(alloc, document) {
        Ok(document) => document,
        Err(error) => return Ok(format!(in alloc; "{error:?}")?),
    };
    match call {
        "head" => head(alloc, &document.signed),
        "Root::verify_role" => verified(alloc, root, &document),
        _ => Ok(String::from_utf8(document.text(alloc, Form::Compact)?)?),
    }
}

/// What a call tells of a signed document of the kind: its head, its verdict under a root, or the text that is written for it.
pub(crate) fn tell(
    alloc: Global,
    call: &str,
    kind: &str,
    document: &[u8],
    root: &[u8],
) -> Result<String> {
    match kind {
        "root" => about::<Root>(alloc, call, document, root),
        "timestamp" => about::<Timestamp>(alloc, call, document, root),
        "snapshot" => about::<Snapshot>(alloc, call, document, root),
        "targets" => about::<Targets>(alloc, call, document, root),
        _ => about::<DelegatedTargets>(alloc, call, document, root),
    }
}

// The text of targets that are written target by target.
fn in_pieces(alloc: Global, targets: &Targets, form: Form) -> Result<String> {
    match targets.append_in_pieces(alloc, form, Vec::new(alloc)) {
        Ok(text) => Ok(String::from_utf8(text)?),
        Err(error) => Ok(format!(in alloc; "{error:?}")?),
    }
}

// The text that is written for targets that stand for themselves, without signatures.
fn rewritten(alloc: Global, form: &str, document: &str) -> Result<String> {
    let targets = match Targets::read(alloc, document.as_bytes()) {
        Ok(targets) => targets,
        Err(error) => return Ok(format!(in alloc; "{error:?}")?),
    };
    match form {
        "canonical pieces" => in_pieces(alloc, &targets, Form::Canonical),
        "compact pieces" => in_pieces(alloc, &targets, Form::Compact),
        "pieces of both" => in_pieces(alloc, &targets, Form::Both),
        "canonical" => Ok(String::from_utf8(targets.canonical_form(alloc)?)?),
        _ => Ok(targets.to_value(alloc)?.to_string(alloc)?),
    }
}

// A new document of the kind.
fn new_document(alloc: Global, case: &Value) -> Result<String> {
    let expires = text(case, "expires").parse::<Instant>()?;
    let version = number(case, "version").and_then(NonZeroU64::new);
    let version = version.unwrap_or(NonZeroU64::MIN);
    let name = String::from_str(alloc, text(case, "spec_version"))?;
    match text(case, "kind") {
        "timestamp" => whole(alloc, &Timestamp::new(alloc, name, version, expires)),
        "snapshot" => whole(alloc, &Snapshot::new(alloc, name, version, expires)),
        _ => whole(alloc, &Targets::new(alloc, name, version, expires)),
    }
}

// A document that stands for itself, without signatures: what it says of itself, and its text.
fn read_alone<T: Role + Drop>(alloc: Global, read: Result<T, ReadError>) -> Result<String> {
    match read {
        Ok(role) => whole(alloc, &role),
        Err(error) => Ok(format!(in alloc; "{error:?}")?),
    }
}

// What comes of the bytes of a document of the kind, without signatures.
fn alone(alloc: Global, kind: &str, document: &str) -> Result<String> {
    let bytes = document.as_bytes();
    match kind {
        "root" => read_alone(alloc, Root::read(alloc, bytes)),
        "timestamp" => read_alone(alloc, Timestamp::read(alloc, bytes)),
        "snapshot" => read_alone(alloc, Snapshot::read(alloc, bytes)),
        _ => read_alone(alloc, Targets::read(alloc, bytes)),
    }
}

// Whether delegations give a name to some role, and to which.
fn delegates(alloc: Global, delegations: &Delegations, name: &str) -> Result<String> {
    let name = TargetName::from_str(alloc, name)?;
    let mut roles: Vec<&str> = Vec::new(alloc);
    for role in &delegations.roles {
        if role.paths.matches(&name) {
            roles.push(role.name.as_str())?;
        }
    }
    let roles = roles.as_slice().join(alloc, ",")?;
    Ok(format!(in alloc; "{} {roles}", delegations.target_is_delegated(&name))?)
}

// The threshold of each role of delegations, the number of its keys, and the identifiers of the keys of the delegations.
fn keyring(alloc: Global, delegations: &Delegations) -> Result<String> {
    let mut words: Vec<String> = Vec::new(alloc);
    for role in &delegations.roles {
        let keys = role.keys(alloc)?;
        words.push(format!(in alloc;
            "{} {} of {}",
            role.name,
            keys.threshold,
            keys.keyids.len()
        )?)?;
    }
    for (_, key) in delegations.keys.iter() {
        let id = delegations.key_id(key).map_or("none", |id| id.as_str());
        words.push(String::from_str(alloc, id)?)?;
    }
    Ok(words.as_slice().join(alloc, "; ")?)
}

// What a call tells of the delegations of targets.
fn of_delegations(alloc: Global, call: &str, case: &Value) -> Result<String> {
    let targets = Targets::read(alloc, text(case, "targets").as_bytes())?;
    let Some(delegations) = &targets.delegations else {
        return Ok(String::from_str(alloc, "no delegations")?);
    };
    match call {
        "Delegations::target_is_delegated" => delegates(alloc, delegations, text(case, "target")),
        _ => keyring(alloc, delegations),
    }
}

// The verdict of targets on the document of a role that they delegate to.
fn delegated(alloc: Global, targets: &str, role: &str, document: &str) -> Result<String> {
    let document: Signed<DelegatedTargets> = Signed::read(alloc, document.as_bytes())?;
    let targets = Targets::read(alloc, targets.as_bytes())?;
    match &targets.delegations {
        Some(delegations) => verdict(
            alloc,
            delegations.verify_role(alloc, &document, role, &DemoVerify),
        ),
        None => Ok(String::from_str(alloc, "no delegations")?),
    }
}

// Signed targets as the document of a role of this name, and the name and the version that are taken out of it again.
fn named(alloc: Global, name: &str, document: &str) -> Result<String> {
    let name = String::from_str(alloc, name)?;
    let signed: Signed<Targets> = Signed::read(alloc, document.as_bytes())?;
    let named = Targets::named(signed, name);
    let head = head(alloc, &named.signed)?;
    let (name, signed) = DelegatedTargets::unnamed(named);
    Ok(format!(in alloc; "{head}; {name} {}", signed.signed.version)?)
}

// The identifiers of the keys of a role.
fn key_ids(alloc: Global, root: &str, role: &str) -> Result<String> {
    let role = RoleType::from_str(alloc, role)?;
    let root: Signed<Root> = Signed::read(alloc, root.as_bytes())?;
    let mut ids: Vec<&str> = Vec::new(alloc);
    for key in root.signed.keys(role) {
        match root.signed.key_id(key) {
            Some(id) => ids.push(id.as_str())?,
            None => ids.push("none")?,
        }
    }
    Ok(ids.as_slice().join(alloc, " ")?)
}

// Whether a copy of a root is equal to another.
fn copy_equals(alloc: Global, root: &str, other: &str) -> Result<String> {
    let root: Signed<Root> = Signed::read(alloc, root.as_bytes())?;
    let other: Signed<Root> = Signed::read(alloc, other.as_bytes())?;
    let is_equal = root.clone()? == other;
    Ok(format!(in alloc; "{is_equal}")?)
}

// The roles of these names, in their order.
fn role_types(alloc: Global, names: &[Value]) -> Result<String> {
    let mut roles = BTreeSet::new(alloc);
    for name in names {
        match RoleType::from_str(alloc, name.as_str().unwrap_or("")) {
            Ok(role) => {
                roles.insert(role)?;
            }
            Err(error) => return Ok(format!(in alloc; "{error:?}")?),
        }
    }
    let mut sorted: Vec<&str> = Vec::new(alloc);
    for role in roles.iter() {
        sorted.push(role.name())?;
    }
    Ok(sorted.as_slice().join(alloc, " ")?)
}

/// What a call on documents answers, if it is one.
pub(crate) fn answer(alloc: Global, call: &str, case: &Value) -> Result<Option<String>> {
    let document = text(case, "document");
    let root = text(case, "root");
    Ok(match call {
        "head" | "Root::verify_role" | "Signed::read" => Some(tell(
            alloc,
            call,
            text(case, "kind"),
            document.as_bytes(),
            root.as_bytes(),
        )?),
        "Targets::read" => Some(rewritten(alloc, text(case, "form"), document)?),
        "Delegations::verify_role" => Some(delegated(
            alloc,
            text(case, "targets"),
            text(case, "role"),
            document,
        )?),
        "read" => Some(alone(alloc, text(case, "kind"), document)?),
        "Delegations::target_is_delegated" | "DelegatedRole::keys" => {
            Some(of_delegations(alloc, call, case)?)
        }
        "Targets::named" => Some(named(alloc, text(case, "role"), document)?),
        "Root::keys" => Some(key_ids(alloc, root, text(case, "role"))?),
        "Root::clone" => Some(copy_equals(alloc, root, text(case, "other"))?),
        "RoleType::from_str" => Some(role_types(alloc, list(case, "names"))?),
        "new" => Some(new_document(alloc, case)?),
        _ => None,
    })
}
