//! The edits of a new repository, or of the next version of one.

use crate::delegating::{add_delegated, set_aside};
use crate::fault::{Fault, about, or_told};
use crate::files::Disk;
use crate::host::Host;
use crate::publish::Publishing;
use crate::roots::{RootFile, unsigned};
use crate::shares::{Share, add, identifiers, of_targets, take};
use crate::standing::{Standing, standing_in};
use crate::version::after;
use std::alloc::Global;
use std::num::NonZeroU64;
use tough::editor::RepositoryEdits;
use tough::schema::{Root, Signed};
use tough_signatures::SigningKey;

/// The versions that the documents of the root's roles are to have.
#[derive(Clone, Copy, Drop)]
pub(crate) struct Versions {
    pub(crate) targets: NonZeroU64,
    pub(crate) snapshot: NonZeroU64,
    pub(crate) timestamp: NonZeroU64,
}

/// Edits that are begun, the versions of the documents, and the delegated roles.
#[derive(Drop)]
pub(crate) struct Begun {
    pub(crate) edits: RepositoryEdits,
    pub(crate) versions: Versions,
    pub(crate) shares: Vec<Share>,
}

// The edits of a new repository.
fn fresh(alloc: Global, edits: RepositoryEdits) -> Begun {
    let one = NonZeroU64::MIN;
    Begun {
        edits,
        versions: Versions {
            targets: one,
            snapshot: one,
            timestamp: one,
        },
        shares: Vec::new(alloc),
    }
}

// Refuses a root that is older than the repository's.
fn check_newest(alloc: Global, standing: &Root, newest: &Root) -> Result<(), Fault> {
    let (there, given) = (standing.version, newest.version);
    if there > given {
        let text = format!(in alloc;
            "root {given}: the repository is under root {there}, which --root has to name last"
        )?;
        return Err(Fault::Told(text));
    }
    Ok(())
}

// The versions after those of a repository, and its delegated roles.
fn heads(
    alloc: Global,
    standing: &Standing,
    newest: &Root,
    signers: &[SigningKey],
) -> Result<(Versions, Vec<Share>), Fault> {
    check_newest(alloc, &standing.root.signed, newest)?;
    let versions = Versions {
        targets: after(alloc, "targets", standing.targets.signed.version)?,
        snapshot: after(alloc, "snapshot", standing.snapshot.signed.version)?,
        timestamp: after(alloc, "timestamp", standing.timestamp.signed.version)?,
    };
    let ids = identifiers(alloc, signers)?;
    let shares = of_targets(alloc, &standing.targets.signed, ids.as_slice())?;
    Ok((versions, shares))
}

// Takes over the documents of a repository.
fn take_over(alloc: Global, edits: &mut RepositoryEdits, standing: Standing) -> Result<(), Fault> {
    let Standing {
        root,
        timestamp,
        snapshot,
        targets,
    } = standing;
    drop(root);
    let done = edits.targets(alloc, targets);
    let done = match done {
        Ok(()) => edits.snapshot(unsigned(snapshot)),
        Err(error) => Err(error),
    };
    let done = match done {
        Ok(()) => edits.timestamp(unsigned(timestamp)),
        Err(error) => Err(error),
    };
    or_told(alloc, "documents", done)
}

// The edits with the documents of a repository.
fn over(
    alloc: Global,
    edits: RepositoryEdits,
    standing: Standing,
) -> Result<RepositoryEdits, Fault> {
    let mut edits = edits;
    match take_over(alloc, &mut edits, standing) {
        Ok(()) => Ok(edits),
        Err(fault) => {
            drop(edits);
            Err(fault)
        }
    }
}

// The edits of the next version of a repository.
fn next(
    alloc: Global,
    edits: RepositoryEdits,
    standing: Standing,
    signers: &[SigningKey],
) -> Result<Begun, Fault> {
    match heads(alloc, &standing, &edits.root().signed().signed, signers) {
        Ok((versions, shares)) => Ok(Begun {
            edits: over(alloc, edits, standing)?,
            versions,
            shares,
        }),
        Err(fault) => {
            drop(standing);
            drop(edits);
            Err(fault)
        }
    }
}

// The edits of a new repository under the root that the bytes are.
fn edits_on(alloc: Global, bytes: Vec<u8>) -> Result<RepositoryEdits, Fault> {
    let signed = match Signed::<Root>::read(alloc, bytes.as_slice()) {
        Ok(signed) => signed,
        Err(error) => return Err(about(alloc, "root", &error)),
    };
    tough_roles::laws::signed_root();
    match RepositoryEdits::new(alloc, signed, bytes) {
        Ok(edits) => Ok(edits),
        Err(error) => Err(about(alloc, "root", &error)),
    }
}

// The edits under the root, of the repository that stands or of a new one.
fn begin_on(
    alloc: Global,
    root: RootFile,
    found: Option<Standing>,
    signers: &[SigningKey],
) -> Result<Begun, Fault> {
    let RootFile { signed, bytes } = root;
    drop(signed);
    let edits = match edits_on(alloc, bytes) {
        Ok(edits) => edits,
        Err(fault) => {
            drop(found);
            return Err(fault);
        }
    };
    match found {
        Some(found) => next(alloc, edits, found, signers),
        None => Ok(fresh(alloc, edits)),
    }
}

// Adds the roles of the words, and takes in the documents that holders signed.
fn add_roles<R: Host>(
    rt: &R,
    shares: &mut Vec<Share>,
    words: &Publishing<'_>,
    aside: Option<NonZeroU64>,
) -> Result<(), Fault> {
    for word in words.roles {
        add(rt.alloc(), shares, word)?;
    }
    for word in words.taken {
        take(rt, shares, word)?;
    }
    match words.delegating {
        Some(delegating) => add_delegated(rt, shares, delegating, aside),
        None => Ok(()),
    }
}

/// The edits under the newest root, of the repository that stands, from a root that is trusted, or of a new one.
pub(crate) fn begin<R: Host>(
    rt: &R,
    disk: &mut Disk<R>,
    words: &Publishing<'_>,
    root: RootFile,
    trusted: &[u8],
    signers: &[SigningKey],
) -> Result<Begun, Fault> {
    let alloc = rt.alloc();
    let mut found = match standing_in(rt, disk, words.repo, trusted) {
        Ok(found) => found,
        Err(fault) => {
            drop(root);
            return Err(fault);
        }
    };
    let aside = set_aside(&mut found, words);
    let mut begun = begin_on(alloc, root, found, signers)?;
    match add_roles(rt, &mut begun.shares, words, aside) {
        Ok(()) => Ok(begun),
        Err(fault) => {
            drop(begun);
            Err(fault)
        }
    }
}
