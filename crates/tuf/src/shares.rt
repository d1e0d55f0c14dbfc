//! Delegated roles, and which of them lists a file.

use crate::fault::{Fault, about, misspelt, refused};
use crate::host::Host;
use crate::keys::{identifier, public_of};
use crate::roots::ROLES;
use crate::taken;
use crate::version::after;
use std::alloc::Global;
use std::num::NonZeroU64;
use tough::TargetName;
use tough::schema::decoded::{Decoded, Hex};
use tough::schema::{DelegatedRole, PathPattern, PathSet, Signed, Targets};
use tough_signatures::SigningKey;

const RESERVED: &str = "no name for a delegated role; take another one";

const OTHER_PATHS: &str = "the role stands with other paths, which `tuf publish` doesn't change";

const NO_ROLE: &str = "the targets delegate to no such role; `tuf delegate` has them do so";

/// Who signs the document of a delegated role.
#[derive(Clone, Copy, Drop, PartialEq, Eq)]
pub(crate) enum Holder {
    /// Nobody yet: the role is new.
    New,
    /// The signers at hand, who make this version.
    Ours(NonZeroU64),
    /// Others: the document stays.
    Others,
}

/// A delegated role: its name, what it may list, and who signs it.
#[derive(Drop)]
pub(crate) struct Share {
    pub(crate) name: String,
    pub(crate) paths: PathSet,
    pub(crate) holder: Holder,
    /// The version of its document that stands.
    pub(crate) version: Option<NonZeroU64>,
    /// The document that its holders signed, which is taken in.
    pub(crate) given: Option<Signed<Targets>>,
}

/// The identifiers of the signers' keys.
pub(crate) fn identifiers(
    alloc: Global,
    signers: &[SigningKey],
) -> Result<Vec<Decoded<Hex>>, Fault> {
    let mut ids = Vec::new(alloc);
    for signer in signers {
        ids.push(identifier(alloc, &public_of(alloc, signer)?)?)?;
    }
    Ok(ids)
}

// Whether enough of the role's keys are at hand.
fn can_sign(role: &DelegatedRole, ids: &[Decoded<Hex>]) -> bool {
    let count = role.keyids.iter().filter(|id| ids.contains(id)).count();
    count as u64 >= role.threshold.get()
}

// Who signs the next document of a role that stands.
fn holder_of(alloc: Global, role: &DelegatedRole, ids: &[Decoded<Hex>]) -> Result<Holder, Fault> {
    if !can_sign(role, ids) {
        return Ok(Holder::Others);
    }
    match &role.targets {
        Some(document) => {
            let version = document.signed.targets.version;
            Ok(Holder::Ours(after(alloc, role.name.as_str(), version)?))
        }
        None => Ok(Holder::Ours(NonZeroU64::MIN)),
    }
}

// The version of the role's document that stands.
fn version_of(role: &DelegatedRole) -> Option<NonZeroU64> {
    match &role.targets {
        Some(document) => Some(document.signed.targets.version),
        None => None,
    }
}

/// The roles that the targets delegate to.
pub(crate) fn of_targets(
    alloc: Global,
    targets: &Targets,
    ids: &[Decoded<Hex>],
) -> Result<Vec<Share>, Fault> {
    let mut shares = Vec::new(alloc);
    let Some(delegations) = &targets.delegations else {
        return Ok(shares);
    };
    for role in &delegations.roles {
        shares.push(Share {
            name: role.name.clone()?,
            paths: role.paths.clone()?,
            holder: holder_of(alloc, role, ids)?,
            version: version_of(role),
            given: None,
        })?;
    }
    Ok(shares)
}

/// Refuses a name that a role of the root has.
pub(crate) fn check_name(alloc: Global, name: &str) -> Result<(), Fault> {
    if name.is_empty() || ROLES.iter().any(|role| role.name() == name) {
        return Err(refused(alloc, name, RESERVED));
    }
    Ok(())
}

// Whether the path set has the pattern.
fn has(paths: &PathSet, pattern: &PathPattern) -> bool {
    match paths {
        PathSet::Paths(patterns) => patterns.iter().any(|it| it.value() == pattern.value()),
        PathSet::PathHashPrefixes(_) => false,
    }
}

// Adds a pattern to the path set.
fn push(paths: &mut PathSet, pattern: PathPattern) -> Result<(), Fault> {
    if let PathSet::Paths(patterns) = paths {
        patterns.push(pattern)?;
    }
    Ok(())
}

// Gives a role the pattern, which one that stands must have.
fn widen(alloc: Global, share: &mut Share, pattern: PathPattern) -> Result<(), Fault> {
    if share.holder == Holder::New {
        return push(&mut share.paths, pattern);
    }
    if has(&share.paths, &pattern) {
        return Ok(());
    }
    Err(refused(alloc, share.name.as_str(), OTHER_PATHS))
}

/// Adds the role of a word, NAME=PATTERN, where it doesn't stand already.
pub(crate) fn add(alloc: Global, shares: &mut Vec<Share>, word: &str) -> Result<(), Fault> {
    let Some((name, text)) = word.split_once('=') else {
        return Err(misspelt(alloc, word, "NAME=PATTERN"));
    };
    check_name(alloc, name)?;
    let pattern = match PathPattern::from_str(alloc, text) {
        Ok(pattern) => pattern,
        Err(error) => return Err(about(alloc, text, &error)),
    };
    for share in shares.iter_mut() {
        if share.name.as_str() == name {
            return widen(alloc, share, pattern);
        }
    }
    let mut patterns = Vec::new(alloc);
    patterns.push(pattern)?;
    shares.push(Share {
        name: String::from_str(alloc, name)?,
        paths: PathSet::Paths(patterns),
        holder: Holder::New,
        version: None,
        given: None,
    })?;
    Ok(())
}

/// Has the role of a word, ROLE=FILE, take in the document of the file.
pub(crate) fn take<R: Host>(rt: &R, shares: &mut Vec<Share>, word: &str) -> Result<(), Fault> {
    let alloc = rt.alloc();
    let Some((name, path)) = word.split_once('=') else {
        return Err(misspelt(alloc, word, "ROLE=FILE"));
    };
    let Some(share) = shares.iter_mut().find(|share| share.name.as_str() == name) else {
        return Err(refused(alloc, name, NO_ROLE));
    };
    share.given = Some(taken::read(rt, path, share.version)?);
    Ok(())
}

/// The place of the first role that may list the name; none where the targets themselves list it.
pub(crate) fn owner(shares: &[Share], name: &TargetName) -> Option<usize> {
    shares.iter().position(|share| share.paths.matches(name))
}
