//! The documents of the next version are edited and signed.

use crate::begin::{Begun, Versions};
use crate::fault::{Fault, or_told};
use crate::files::Disk;
use crate::found::Found;
use crate::host::Host;
use crate::keys::{identifier, public_of, read_public, read_signer, read_signers};
use crate::publish::{Delegating, Publishing};
use crate::putting::measure;
use crate::roots::listed;
use crate::shares::{Holder, Share};
use crate::unchanged::stays;
use crate::{expiry, taken};
use std::alloc::Global;
use std::collections::BTreeMap;
use std::num::NonZeroU64;
use tough::editor::RepositoryEdits;
use tough::editor::signed::SignedRepository;
use tough::jiff::Timestamp;
use tough::schema::decoded::{Decoded, Hex};
use tough::schema::{Key, RoleType, Root, Signed, Targets};
use tough_signatures::SigningKey;

// The files of the keys that are named for the role.
fn files_for<'a>(alloc: Global, role_keys: &[&'a str], role: &str) -> Result<Vec<&'a str>, Fault> {
    let mut paths = Vec::new(alloc);
    for word in role_keys {
        if let Some((name, path)) = word.split_once('=') {
            if name == role {
                paths.push(path)?;
            }
        }
    }
    Ok(paths)
}

// The keys of a new role: those that are named for it, else those of the targets.
fn role_signers<R: Host>(
    rt: &R,
    words: &Publishing<'_>,
    root: &Root,
    role: &str,
) -> Result<Vec<SigningKey>, Fault> {
    let alloc = rt.alloc();
    let named = files_for(alloc, words.role_keys, role)?;
    if !named.is_empty() {
        return read_signers(rt, named.as_slice());
    }
    let mut signers = Vec::new(alloc);
    for path in words.keys {
        let signer = read_signer(rt, path)?;
        if listed(root, RoleType::Targets, &public_of(alloc, &signer)?).is_some() {
            signers.push(signer)?;
        }
    }
    Ok(signers)
}

// Has the document that is edited list the files of the share, or those of none, and nothing else.
fn list<R: Host>(
    alloc: Global,
    disk: &mut Disk<R>,
    edits: &mut RepositoryEdits,
    files: &[Found],
    place: Option<usize>,
) -> Result<(), Fault> {
    or_told(alloc, "targets", edits.clear_targets())?;
    for file in files {
        if file.place == place {
            let path = file.path.as_str();
            let target = measure(alloc, disk, path)?;
            or_told(alloc, path, edits.add_target(file.name.clone()?, target))?;
        }
    }
    Ok(())
}

// Sets the version and the expiry of the document that is edited.
fn head(
    alloc: Global,
    edits: &mut RepositoryEdits,
    role: &str,
    version: NonZeroU64,
    expires: Timestamp,
) -> Result<(), Fault> {
    or_told(alloc, role, edits.targets_version(version))?;
    or_told(alloc, role, edits.targets_expires(expires))
}

// Delegates to a new role.
fn delegate<R: Host>(
    rt: &R,
    words: &Publishing<'_>,
    edits: &mut RepositoryEdits,
    share: &Share,
) -> Result<(), Fault> {
    let alloc = rt.alloc();
    let name = share.name.as_str();
    let signers = role_signers(rt, words, &edits.root().signed().signed, name)?;
    let expires = expiry::of(rt, words.expires, name, expiry::OTHERS)?;
    let (paths, one) = (share.paths.clone()?, NonZeroU64::MIN);
    let done = edits.delegate_role(
        alloc,
        name,
        signers.as_slice(),
        paths,
        false,
        one,
        expires,
        one,
    );
    or_told(alloc, name, done)
}

// Keys under their identifiers, and these in the order in which a role lists them.
#[derive(Drop)]
struct RoleKeys {
    keys: BTreeMap<Decoded<Hex>, Key>,
    ids: Vec<Decoded<Hex>>,
}

// The keys of the files.
fn keys_of<R: Host>(rt: &R, paths: &[&str]) -> Result<RoleKeys, Fault> {
    let alloc = rt.alloc();
    let (mut keys, mut ids) = (BTreeMap::new(alloc), Vec::new(alloc));
    for path in paths {
        let key = read_public(rt, path)?;
        let id = identifier(alloc, &key)?;
        if !ids.contains(&id) {
            ids.push(id.clone()?)?;
        }
        drop(keys.insert(id, key)?);
    }
    Ok(RoleKeys { keys, ids })
}

// Delegates to a new role, whose document its holders signed.
fn delegate_taken<R: Host>(
    rt: &R,
    edits: &mut RepositoryEdits,
    share: &Share,
    document: &Signed<Targets>,
    words: &Delegating<'_>,
) -> Result<(), Fault> {
    let (alloc, name) = (rt.alloc(), share.name.as_str());
    let RoleKeys { keys, ids } = keys_of(rt, words.keys)?;
    let paths = share.paths.clone()?;
    let document = taken::named(alloc, name, document)?;
    let ends = words.terminating;
    let done = edits.delegate_document(document, paths, ends, keys, ids, words.threshold);
    or_told(alloc, name, done)
}

// Delegates to a new role, which signers at hand sign, or its holders signed.
fn add_role<R: Host>(
    rt: &R,
    words: &Publishing<'_>,
    edits: &mut RepositoryEdits,
    share: &Share,
) -> Result<(), Fault> {
    match (&share.given, words.delegating) {
        (Some(document), Some(delegating)) => {
            delegate_taken(rt, edits, share, document, delegating)
        }
        _ => delegate(rt, words, edits, share),
    }
}

// Edits the targets' own document: its files, and its new roles.
fn edit_targets<R: Host>(
    rt: &R,
    disk: &mut Disk<R>,
    words: &Publishing<'_>,
    edits: &mut RepositoryEdits,
    version: NonZeroU64,
    shares: &[Share],
    files: &[Found],
) -> Result<(), Fault> {
    let alloc = rt.alloc();
    let expires = expiry::of(rt, words.expires, "targets", expiry::OTHERS)?;
    head(alloc, edits, "targets", version, expires)?;
    list(alloc, disk, edits, files, None)?;
    for share in shares {
        if share.holder == Holder::New {
            add_role(rt, words, edits, share)?;
        }
    }
    Ok(())
}

// Edits the document of a delegated role, of this version: its files.
fn edit_role<R: Host>(
    rt: &R,
    disk: &mut Disk<R>,
    words: &Publishing<'_>,
    edits: &mut RepositoryEdits,
    version: NonZeroU64,
    files: &[Found],
    place: usize,
    name: &str,
) -> Result<(), Fault> {
    let alloc = rt.alloc();
    let expires = expiry::of(rt, words.expires, name, expiry::OTHERS)?;
    or_told(alloc, name, edits.change_delegated_targets(alloc, name))?;
    head(alloc, edits, name, version, expires)?;
    list(alloc, disk, edits, files, Some(place))
}

// Edits and signs the document of a delegated role, where it changes and its keys are at hand, or takes in the one that its holders signed.
fn sign_role<R: Host>(
    rt: &R,
    disk: &mut Disk<R>,
    words: &Publishing<'_>,
    edits: &mut RepositoryEdits,
    files: &[Found],
    signers: &[SigningKey],
    place: usize,
    share: &Share,
) -> Result<(), Fault> {
    let (alloc, name) = (rt.alloc(), share.name.as_str());
    if let Some(document) = &share.given {
        if taken::is_delegated(share) {
            return Ok(());
        }
        return taken::replace(alloc, edits, share, document);
    }
    let version = match share.holder {
        Holder::Others => return Ok(()),
        Holder::New => NonZeroU64::MIN,
        Holder::Ours(_) if stays(rt, disk, words, edits, files, place, name)? => return Ok(()),
        Holder::Ours(version) => version,
    };
    edit_role(rt, disk, words, edits, version, files, place, name)?;
    or_told(alloc, name, edits.sign_targets_editor(alloc, signers))
}

// Says what the snapshot and the timestamp will be.
fn set_heads<R: Host>(
    rt: &R,
    words: &Publishing<'_>,
    edits: &mut RepositoryEdits,
    versions: Versions,
) -> Result<(), Fault> {
    let snapshot = expiry::of(rt, words.expires, "snapshot", expiry::OTHERS)?;
    let timestamp = expiry::of(rt, words.expires, "timestamp", expiry::TIMESTAMP)?;
    edits.snapshot_version(versions.snapshot);
    edits.snapshot_expires(snapshot);
    edits.timestamp_version(versions.timestamp);
    edits.timestamp_expires(timestamp);
    Ok(())
}

// Edits and signs all documents of targets, and says what the snapshot and the timestamp will be.
fn edit<R: Host>(
    rt: &R,
    disk: &mut Disk<R>,
    words: &Publishing<'_>,
    edits: &mut RepositoryEdits,
    versions: Versions,
    shares: &[Share],
    files: &[Found],
    signers: &[SigningKey],
) -> Result<(), Fault> {
    let alloc = rt.alloc();
    expiry::check(rt, words.expires, shares)?;
    edit_targets(rt, disk, words, edits, versions.targets, shares, files)?;
    or_told(alloc, "targets", edits.sign_targets_editor(alloc, signers))?;
    for (place, share) in shares.iter().enumerate() {
        sign_role(rt, disk, words, edits, files, signers, place, share)?;
    }
    taken::verify_all(alloc, edits, shares)?;
    taken::check_times(rt, edits)?;
    set_heads(rt, words, edits, versions)
}

// The signed repository, or why it wasn't signed.
fn finish(
    alloc: Global,
    repo: &str,
    edits: RepositoryEdits,
    signers: &[SigningKey],
) -> Result<SignedRepository, Fault> {
    match edits.sign(alloc, signers) {
        Ok(signed) => Ok(signed),
        Err(error) => {
            let text = format!(in alloc; "{repo}: {error}; --key names those that sign")?;
            Err(Fault::Told(text))
        }
    }
}

/// Signs the repository with these files.
pub(crate) fn sign<R: Host>(
    rt: &R,
    disk: &mut Disk<R>,
    words: &Publishing<'_>,
    begun: Begun,
    files: &[Found],
    signers: &[SigningKey],
) -> Result<SignedRepository, Fault> {
    let Begun {
        edits,
        versions,
        shares,
    } = begun;
    let (mut edits, shares) = (edits, shares.as_slice());
    match edit(
        rt, disk, words, &mut edits, versions, shares, files, signers,
    ) {
        Ok(()) => finish(rt.alloc(), words.repo, edits, signers),
        Err(fault) => {
            drop(edits);
            Err(fault)
        }
    }
}
