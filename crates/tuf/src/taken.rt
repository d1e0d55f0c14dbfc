//! Documents of delegated roles that their holders signed, which a publisher takes in.

use crate::fault::{Fault, about, or_told, refused};
use crate::files::{self, Disk};
use crate::host::Host;
use crate::keys::path_of;
use crate::putting::{is_at, place as place_of};
use crate::shares::{Holder, Share};
use crate::when;
use std::alloc::Global;
use std::num::NonZeroU64;
use tough::TargetName;
use tough::editor::RepositoryEdits;
use tough::jiff::Timestamp;
use tough::schema::{DelegatedTargets, Signed, Target, Targets};
use tough_signatures::StandardVerify;

const FURTHER: &str = "it delegates to roles of its own, which a publisher doesn't take in";

const NEXT: &str = "its holders sign the next one, which --take takes in";

const ANOTHER: &str = "another document of this version was published; sign one of the next";

// Whether the document delegates to roles of its own.
fn delegates(document: &Targets) -> bool {
    match &document.delegations {
        Some(delegations) => !delegations.roles.is_empty(),
        None => false,
    }
}

// The document has expired.
fn expired(alloc: Global, path: &str, expires: Timestamp) -> Fault {
    match format!(in alloc; "{path}: expired {expires}; `tuf role sign` makes the next") {
        Ok(text) => Fault::Told(text),
        Err(_) => Fault::Memory,
    }
}

// The document is of an older version than is needed.
fn older(alloc: Global, path: &str, version: NonZeroU64, needed: NonZeroU64) -> Fault {
    match format!(in alloc; "{path}: version {version}, where {needed} is needed") {
        Ok(text) => Fault::Told(text),
        Err(_) => Fault::Memory,
    }
}

// Refuses a document that delegates to roles, has expired, or is of an older version than is needed.
fn check<R: Host>(
    rt: &R,
    path: &str,
    document: &Targets,
    needed: Option<NonZeroU64>,
) -> Result<(), Fault> {
    let alloc = rt.alloc();
    if delegates(document) {
        return Err(refused(alloc, path, FURTHER));
    }
    if document.expires <= when::now(rt)? {
        return Err(expired(alloc, path, document.expires));
    }
    if let Some(needed) = needed {
        if document.version.get() < needed.get() {
            return Err(older(alloc, path, document.version, needed));
        }
    }
    Ok(())
}

/// The document of a file, which must be of this version at least, if one is named.
pub(crate) fn read<R: Host>(
    rt: &R,
    path: &str,
    needed: Option<NonZeroU64>,
) -> Result<Signed<Targets>, Fault> {
    let alloc = rt.alloc();
    let bytes = files::read(rt, path_of(path))?;
    let document = match Signed::<Targets>::read(alloc, bytes.as_slice()) {
        Ok(document) => document,
        Err(error) => return Err(about(alloc, path, &error)),
    };
    check(rt, path, &document.signed, needed)?;
    Ok(document)
}

/// The document under its role's name.
pub(crate) fn named(
    alloc: Global,
    name: &str,
    document: &Signed<Targets>,
) -> Result<Signed<DelegatedTargets>, Fault> {
    let Signed { signed, signatures } = document.clone()?;
    Ok(Signed {
        signed: DelegatedTargets {
            name: String::from_str(alloc, name)?,
            targets: signed,
        },
        signatures,
    })
}

// Whether this very document stands.
fn stands(alloc: Global, edits: &RepositoryEdits, name: &str, document: &Targets) -> bool {
    let Some(targets) = edits.signed_targets() else {
        return false;
    };
    let Ok(role) = targets.signed.delegated_role(alloc, name) else {
        return false;
    };
    match &role.targets {
        Some(there) => there.signed.targets == *document,
        None => false,
    }
}

/// Puts a document in the place of the one that stands.
pub(crate) fn replace(
    alloc: Global,
    edits: &mut RepositoryEdits,
    share: &Share,
    document: &Signed<Targets>,
) -> Result<(), Fault> {
    let name = share.name.as_str();
    if share.version == Some(document.signed.version) {
        if stands(alloc, edits, name, &document.signed) {
            return Ok(());
        }
        return Err(refused(alloc, name, ANOTHER));
    }
    let document = named(alloc, name, document)?;
    or_told(alloc, name, edits.replace_targets(alloc, document))
}

// Checks that enough of the role's keys signed the document.
fn verify(
    alloc: Global,
    targets: &Targets,
    name: &str,
    document: &Signed<Targets>,
) -> Result<(), Fault> {
    let Some(delegations) = &targets.delegations else {
        return Ok(());
    };
    let document = named(alloc, name, document)?;
    let verdict = delegations.verify_role(alloc, &document, name, &StandardVerify);
    drop(document);
    or_told(alloc, name, verdict)
}

/// Checks that enough keys of their roles signed the documents that are taken in.
pub(crate) fn verify_all(
    alloc: Global,
    edits: &RepositoryEdits,
    shares: &[Share],
) -> Result<(), Fault> {
    let Some(targets) = edits.signed_targets() else {
        return Ok(());
    };
    for share in shares {
        if let Some(document) = &share.given {
            verify(alloc, &targets.signed, share.name.as_str(), document)?;
        }
    }
    Ok(())
}

/// Refuses a document of a delegated role that has expired, since a client would.
pub(crate) fn check_times<R: Host>(rt: &R, edits: &RepositoryEdits) -> Result<(), Fault> {
    let alloc = rt.alloc();
    let now = when::now(rt)?;
    let Some(targets) = edits.signed_targets() else {
        return Ok(());
    };
    for document in targets.signed.signed_delegated_targets(alloc)? {
        let role = &document.signed;
        let expires = role.targets.expires;
        if expires <= now {
            let text = format!(in alloc; "role {}: expired {expires}; {NEXT}", role.name)?;
            return Err(Fault::Told(text));
        }
    }
    Ok(())
}

// Checks that the file of a target is at hand, or in the repository already.
fn check_file<R: Host>(
    alloc: Global,
    disk: &mut Disk<R>,
    place: Placed<'_>,
    share: &Share,
    name: &TargetName,
    target: &Target,
) -> Result<(), Fault> {
    let (path, role) = (name.resolved(), &share.name);
    if !share.paths.matches(name) {
        let text = format!(in alloc; "role {role}: its document lists {path}, which it may not")?;
        return Err(Fault::Told(text));
    }
    let here = format!(in alloc; "{}/{path}", place.folder)?;
    let there = place_of(alloc, place.repo, path, target, place.consistent)?;
    if is_at(alloc, disk, here.as_str(), target) || is_at(alloc, disk, there.as_str(), target) {
        return Ok(());
    }
    let text = format!(in alloc; "{here}: not the file that role {role} lists")?;
    Err(Fault::Told(text))
}

/// Where the files of targets are: the folder of those that are published, and the repository's.
#[derive(Clone, Copy, Drop)]
pub(crate) struct Placed<'a> {
    pub(crate) folder: &'a str,
    pub(crate) repo: &'a str,
    /// Whether digests stand before names there.
    pub(crate) consistent: bool,
}

/// Checks that documents that are taken in list what their roles may list, and that these files are at hand.
pub(crate) fn check_files<R: Host>(
    alloc: Global,
    disk: &mut Disk<R>,
    place: Placed<'_>,
    shares: &[Share],
) -> Result<(), Fault> {
    for share in shares {
        if let Some(document) = &share.given {
            for (name, target) in document.signed.targets.iter() {
                check_file(alloc, disk, place, share, name, target)?;
            }
        }
    }
    Ok(())
}

/// Whether a role signs nothing here, since its document is taken in with the delegation.
pub(crate) fn is_delegated(share: &Share) -> bool {
    share.holder == Holder::New && share.given.is_some()
}
