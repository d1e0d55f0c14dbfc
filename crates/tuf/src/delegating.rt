//! `tuf delegate`: the targets delegate to a role whose keys others hold.

use crate::fault::{Fault, about, refused};
use crate::host::Host;
use crate::publish::{Delegating, Publishing};
use crate::shares::{Holder, Share, check_name};
use crate::standing::Standing;
use crate::taken;
use crate::version::after;
use std::alloc::Global;
use std::num::NonZeroU64;
use tough::schema::{PathPattern, PathSet, Targets};

const FEW: &str = "fewer keys than must sign; --role-key names each";

// The targets no longer delegate to the role: the version of its document that stood.
fn remove(targets: &mut Targets, name: &str) -> Option<NonZeroU64> {
    let delegations = targets.delegations.as_mut()?;
    let mut version = None;
    for role in &delegations.roles {
        if role.name.as_str() == name {
            if let Some(document) = &role.targets {
                version = Some(document.signed.targets.version);
            }
        }
    }
    delegations.roles.retain(|role| role.name.as_str() != name);
    version
}

/// Has the targets that stand delegate no longer to the role that is delegated to anew: the version of its document that stood.
pub(crate) fn set_aside(
    found: &mut Option<Standing>,
    words: &Publishing<'_>,
) -> Option<NonZeroU64> {
    match (found, words.delegating) {
        (Some(standing), Some(delegating)) => {
            remove(&mut standing.targets.signed, delegating.name)
        }
        _ => None,
    }
}

// The patterns of the words.
fn paths_of(alloc: Global, words: &[&str]) -> Result<PathSet, Fault> {
    let mut patterns = Vec::new(alloc);
    for word in words {
        match PathPattern::from_str(alloc, word) {
            Ok(pattern) => patterns.push(pattern)?,
            Err(error) => return Err(about(alloc, word, &error)),
        }
    }
    Ok(PathSet::Paths(patterns))
}

/// Adds the role that is delegated to, with the document that its holders signed, which is newer than the version that stood.
pub(crate) fn add_delegated<R: Host>(
    rt: &R,
    shares: &mut Vec<Share>,
    words: &Delegating<'_>,
    version: Option<NonZeroU64>,
) -> Result<(), Fault> {
    let alloc = rt.alloc();
    check_name(alloc, words.name)?;
    if (words.keys.len() as u64) < words.threshold.get() {
        return Err(refused(alloc, words.name, FEW));
    }
    let paths = paths_of(alloc, words.paths)?;
    let needed = match version {
        Some(version) => Some(after(alloc, words.name, version)?),
        None => None,
    };
    let given = taken::read(rt, words.file, needed)?;
    shares.push(Share {
        name: String::from_str(alloc, words.name)?,
        paths,
        holder: Holder::New,
        version,
        given: Some(given),
    })?;
    Ok(())
}
