//! `tuf publish`: a repository is made of the files of a folder, or gets its next version.

use crate::begin::{Begun, begin};
use crate::chain::{read_chain, take_newest, trusted};
use crate::editing::sign;
use crate::fault::{Fault, misspelt};
use crate::files::{self, Disk};
use crate::found::{Found, Listing, find};
use crate::host::Host;
use crate::keys::{read_signer, read_signers};
use crate::putting::put_all;
use crate::roots::RootFile;
use crate::shares::{Holder, Share, owner};
use crate::taken::{self, Placed};
use crate::writing;
use std::alloc::Global;
use std::num::NonZeroU64;
use tough::editor::signed::SignedRepository;
use tough_signatures::SigningKey;

/// A role whose keys others hold, and to which the targets are to delegate.
#[derive(Drop)]
pub(crate) struct Delegating<'a> {
    /// Its name.
    pub(crate) name: &'a str,
    /// What it may list.
    pub(crate) paths: &'a [&'a str],
    /// The files of its public keys.
    pub(crate) keys: &'a [&'a str],
    /// How many of them must sign.
    pub(crate) threshold: NonZeroU64,
    /// Whether the search ends with it for the names that it may list.
    pub(crate) terminating: bool,
    /// The file of the document that its holders signed.
    pub(crate) file: &'a str,
}

/// What is published, and by whom.
#[derive(Drop)]
pub(crate) struct Publishing<'a> {
    /// The files of the roots, the oldest first.
    pub(crate) roots: &'a [&'a str],
    /// The files of the keys that sign.
    pub(crate) keys: &'a [&'a str],
    /// The folder of the files.
    pub(crate) targets: &'a str,
    /// The folder of the repository.
    pub(crate) repo: &'a str,
    /// NAME=PATTERN: delegated roles.
    pub(crate) roles: &'a [&'a str],
    /// NAME=FILE: the keys of delegated roles.
    pub(crate) role_keys: &'a [&'a str],
    /// ROLE=WHEN: when documents expire.
    pub(crate) expires: &'a [&'a str],
    /// ROLE=FILE: documents that the roles' holders signed.
    pub(crate) taken: &'a [&'a str],
    /// A role that is delegated to.
    pub(crate) delegating: Option<&'a Delegating<'a>>,
}

// All the keys at hand.
fn signers<R: Host>(rt: &R, words: &Publishing<'_>) -> Result<Vec<SigningKey>, Fault> {
    let mut signers = read_signers(rt, words.keys)?;
    for word in words.role_keys {
        match word.split_once('=') {
            Some((_, path)) => signers.push(read_signer(rt, path)?)?,
            None => return Err(misspelt(rt.alloc(), word, "NAME=FILE")),
        }
    }
    Ok(signers)
}

// A line of what isn't published.
fn left_out(alloc: Global, path: &str, why: &str) -> Result<String, Fault> {
    Ok(format!(in alloc; "left out {path}: {why}\n")?)
}

// Why the file isn't published, if it is one of a role that others sign, whose document doesn't list it.
fn reason(alloc: Global, shares: &[Share], file: &Found) -> Result<Option<String>, Fault> {
    let Some(place) = file.place else {
        return Ok(None);
    };
    let Some(share) = shares.get(place) else {
        return Ok(None);
    };
    let why = match &share.given {
        Some(document) if document.signed.targets.contains_key(&file.name) => return Ok(None),
        Some(_) => format!(in alloc; "the document of role {} doesn't list it", share.name)?,
        None if share.holder == Holder::Others => {
            format!(in alloc; "the keys of role {} aren't here", share.name)?
        }
        None => return Ok(None),
    };
    Ok(Some(left_out(alloc, file.path.as_str(), why.as_str())?))
}

// The files that are published, and the lines of the others.
fn chosen(
    alloc: Global,
    listing: Listing,
    shares: &[Share],
) -> Result<(Vec<Found>, String), Fault> {
    let Listing {
        files: found,
        others,
    } = listing;
    let (mut files, mut left) = (Vec::new(alloc), String::new(alloc));
    for mut file in found {
        file.place = owner(shares, &file.name);
        match reason(alloc, shares, &file)? {
            Some(line) => left.push_str(line.as_str())?,
            None => files.push(file)?,
        }
    }
    for path in &others {
        left.push_str(left_out(alloc, path.as_str(), "no plain file")?.as_str())?;
    }
    Ok((files, left))
}

// What was published.
fn told(
    alloc: Global,
    repo: &str,
    signed: &SignedRepository,
    count: usize,
) -> Result<String, Fault> {
    let root = signed.root().signed().signed.version;
    let targets = signed.targets().signed().signed.version;
    let timestamp = &signed.timestamp().signed().signed;
    let (version, expires) = (timestamp.version, timestamp.expires);
    Ok(format!(in alloc;
        "{repo}: {count} files, root {root}, targets {targets}, timestamp {version}, which expires {expires}\n"
    )?)
}

// Writes what was signed: first the files of the targets, then the metadata.
fn write<R: Host>(
    rt: &R,
    disk: &mut Disk<R>,
    repo: &str,
    signed: &SignedRepository,
    files: &[Found],
    earlier: &[RootFile],
) -> Result<String, Fault> {
    put_all(rt, disk, repo, signed, files)?;
    writing::write(rt, repo, signed, earlier)?;
    told(rt.alloc(), repo, signed, files.len())
}

// Signs the repository with these files, and writes it.
fn sign_and_write<R: Host>(
    rt: &R,
    disk: &mut Disk<R>,
    words: &Publishing<'_>,
    begun: Begun,
    files: &[Found],
    signers: &[SigningKey],
    earlier: &[RootFile],
) -> Result<String, Fault> {
    let signed = sign(rt, disk, words, begun, files, signers)?;
    let done = write(rt, disk, words.repo, &signed, files, earlier);
    drop(signed);
    done
}

// Checks that the files are at hand which documents list that are taken in.
fn check_taken<R: Host>(
    alloc: Global,
    disk: &mut Disk<R>,
    words: &Publishing<'_>,
    begun: &Begun,
) -> Result<(), Fault> {
    let place = Placed {
        folder: words.targets,
        repo: words.repo,
        consistent: begun.edits.root().signed().signed.consistent_snapshot,
    };
    taken::check_files(alloc, disk, place, begun.shares.as_slice())
}

// Publishes under the newest root, and the ones before it.
fn publish_under<R: Host>(
    rt: &R,
    words: &Publishing<'_>,
    root: RootFile,
    trusted: &[u8],
    earlier: &[RootFile],
) -> Result<String, Fault> {
    let alloc = rt.alloc();
    let mut disk = files::disk(rt)?;
    let signers = signers(rt, words)?;
    let signers = signers.as_slice();
    let listing = find(alloc, &mut disk, words.targets)?;
    let begun = begin(rt, &mut disk, words, root, trusted, signers)?;
    check_taken(alloc, &mut disk, words, &begun)?;
    let (files, left) = chosen(alloc, listing, &begun.shares)?;
    let files = files.as_slice();
    let told = sign_and_write(rt, &mut disk, words, begun, files, signers, earlier)?;
    Ok(format!(in alloc; "{left}{told}")?)
}

/// Makes the repository of the folder's files, or its next version, and writes it: what was published.
pub(crate) fn publish<R: Host>(rt: &R, words: &Publishing<'_>) -> Result<String, Fault> {
    let mut roots = read_chain(rt, words.roots)?;
    for root in &roots {
        writing::check_root(rt, words.repo, root)?;
    }
    let trusted = trusted(rt.alloc(), roots.as_slice())?;
    let root = take_newest(rt, &mut roots)?;
    let _held = files::hold(rt, words.repo)?;
    publish_under(rt, words, root, trusted.as_slice(), roots.as_slice())
}
