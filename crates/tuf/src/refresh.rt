//! `tuf refresh`: the timestamp is signed anew, and nothing else.

use crate::chain::{read_chain, trusted};
use crate::fault::{Fault, or_told, refused};
use crate::host::Host;
use crate::keys::read_signers;
use crate::roots::unsigned;
use crate::standing::{Standing, standing_in};
use crate::version::LAST;
use crate::{expiry, files, when, writing};
use std::alloc::Global;
use tough::editor::signed::{NewFile, SignedRole};
use tough::jiff::Timestamp as Instant;
use tough::schema::{KeyHolder, Timestamp};
use tough_ceremony::renew_timestamp;
use tough_signatures::SigningKey;

const NOTHING: &str = "no repository stands there; make one by `tuf publish`";

/// Which repository is refreshed, and by whom.
#[derive(Drop)]
pub(crate) struct Refreshing<'a> {
    /// The files of the roots, the oldest first.
    pub(crate) roots: &'a [&'a str],
    /// The files of the keys that sign.
    pub(crate) keys: &'a [&'a str],
    /// The folder of the repository.
    pub(crate) repo: &'a str,
    /// When the timestamp expires; none: in the time that is usual.
    pub(crate) expires: Option<Instant>,
}

// The repository that stands in the folder, from the oldest of the roots.
fn found<R: Host>(rt: &R, words: &Refreshing<'_>) -> Result<Standing, Fault> {
    let roots = read_chain(rt, words.roots)?;
    let trusted = trusted(rt.alloc(), roots.as_slice())?;
    drop(roots);
    let mut disk = files::disk(rt)?;
    match standing_in(rt, &mut disk, words.repo, trusted.as_slice())? {
        Some(standing) => Ok(standing),
        None => Err(refused(rt.alloc(), words.repo, NOTHING)),
    }
}

// The timestamp with the next version, which leads to the same snapshot.
fn renewed<R: Host>(rt: &R, words: &Refreshing<'_>, old: Timestamp) -> Result<Timestamp, Fault> {
    let expires = match words.expires {
        Some(expires) => expires,
        None => when::from_now(rt, expiry::TIMESTAMP)?,
    };
    let mut timestamp = old;
    match renew_timestamp(&mut timestamp, expires) {
        Ok(()) => Ok(timestamp),
        Err(_) => Err(refused(rt.alloc(), "timestamp", LAST)),
    }
}

// Writes the timestamp's file.
fn write<R: Host>(rt: &R, repo: &str, signed: &SignedRole<Timestamp>) -> Result<(), Fault> {
    let file = NewFile {
        name: writing::TIMESTAMP,
        bytes: signed.buffer().as_slice(),
    };
    writing::replace(rt, repo, &file)
}

// Signs the next timestamp of the repository.
fn sign<R: Host>(
    rt: &R,
    words: &Refreshing<'_>,
    standing: Standing,
    signers: &[SigningKey],
) -> Result<SignedRole<Timestamp>, Fault> {
    let Standing {
        root,
        timestamp,
        snapshot,
        targets,
    } = standing;
    drop(snapshot);
    drop(targets);
    let holder = KeyHolder::Root(unsigned(root));
    match renewed(rt, words, unsigned(timestamp)) {
        Ok(timestamp) => {
            let made = SignedRole::new(rt.alloc(), timestamp, &holder, signers);
            drop(holder);
            or_told(rt.alloc(), "timestamp", made)
        }
        Err(fault) => {
            drop(holder);
            Err(fault)
        }
    }
}

// What was signed, and when all of it expires.
fn line_of(
    alloc: Global,
    repo: &str,
    timestamp: &Timestamp,
    ends: (Instant, Instant),
) -> Result<String, Fault> {
    let (snapshot, targets) = ends;
    let version = timestamp.version;
    let expires = timestamp.expires;
    Ok(format!(in alloc;
        "{repo}: timestamp {version}, expires {expires}; snapshot {snapshot}, targets {targets}\n"
    )?)
}

// When the snapshot and the targets expire.
fn ends(standing: &Standing) -> (Instant, Instant) {
    (
        standing.snapshot.signed.expires,
        standing.targets.signed.expires,
    )
}

// Signs the next timestamp of the repository, and writes it.
fn renew<R: Host>(
    rt: &R,
    words: &Refreshing<'_>,
    standing: Standing,
    signers: &[SigningKey],
    ends: (Instant, Instant),
) -> Result<String, Fault> {
    let signed = sign(rt, words, standing, signers)?;
    write(rt, words.repo, &signed)?;
    line_of(rt.alloc(), words.repo, &signed.signed().signed, ends)
}

/// Signs a new timestamp, and writes it: its version, and when the documents expire.
pub(crate) fn refresh<R: Host>(rt: &R, words: &Refreshing<'_>) -> Result<String, Fault> {
    let _held = files::hold(rt, words.repo)?;
    let signers = read_signers(rt, words.keys)?;
    let standing = found(rt, words)?;
    let ends = ends(&standing);
    renew(rt, words, standing, signers.as_slice(), ends)
}
