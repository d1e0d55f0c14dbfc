//! The repository that stands in a folder.

use crate::fault::Fault;
use crate::files::{Disk, stands};
use crate::host::Host;
use crate::load::{Wanted, connect, open, urls_in};
use crate::when;
use std::alloc::Global;
use tough::schema::{Root, Signed, Snapshot, Targets, Timestamp};
use tough::{
    ExpirationEnforcement, Keeper, LocalRuntime, MemoryStore, RepositoryParts, Transport, Vault,
};

const OLDER: &str = "where keys were replaced, --root names the roots before the newest too";

/// The documents of a repository.
#[derive(Drop)]
pub(crate) struct Standing {
    pub(crate) root: Signed<Root>,
    pub(crate) timestamp: Signed<Timestamp>,
    pub(crate) snapshot: Signed<Snapshot>,
    pub(crate) targets: Signed<Targets>,
}

// Loads a repository, and gives its documents.
fn documents<R: Host, T: Transport, K: Keeper>(
    rt: &R,
    runtime: &mut LocalRuntime,
    transport: T,
    keeper: K,
    wanted: Wanted<'_>,
) -> Result<Standing, Fault> {
    let repository = open(rt, runtime, transport, keeper, wanted)?;
    let RepositoryParts {
        transport: _,
        limits: _,
        root,
        timestamp,
        snapshot,
        targets,
    } = repository.into_parts();
    Ok(Standing {
        root,
        timestamp,
        snapshot,
        targets,
    })
}

// Loads the repository in the folder, also where its documents have expired.
fn load<R: Host>(rt: &R, disk: &mut Disk<R>, folder: &str, root: &[u8]) -> Result<Standing, Fault> {
    let alloc = rt.alloc();
    let (metadata, targets) = urls_in(alloc, disk, folder)?;
    let wanted = Wanted {
        root,
        metadata,
        targets,
        enforcement: ExpirationEnforcement::Unsafe,
        start: when::now(rt)?,
    };
    let (mut runtime, transport) = connect(rt)?;
    let mut vault = Vault::new(alloc, MemoryStore::new(alloc));
    match documents(rt, &mut runtime, transport, &mut vault, wanted) {
        Ok(standing) => Ok(standing),
        Err(Fault::Told(text)) => { Err(Fault::Told(format!(in alloc; "{text}; {OLDER}")?)) }
        Err(fault) => Err(fault),
    }
}

// Whether a timestamp stands in the folder.
fn has_timestamp<R: Host>(alloc: Global, disk: &mut Disk<R>, folder: &str) -> Result<bool, Fault> {
    let path = format!(in alloc; "{folder}/metadata/timestamp.json")?;
    stands(alloc, disk, path.as_str())
}

/// The repository in the folder, from a root that is trusted; none where there is no timestamp.
pub(crate) fn standing_in<R: Host>(
    rt: &R,
    disk: &mut Disk<R>,
    folder: &str,
    root: &[u8],
) -> Result<Option<Standing>, Fault> {
    if has_timestamp(rt.alloc(), disk, folder)? {
        Ok(Some(load(rt, disk, folder, root)?))
    } else {
        Ok(None)
    }
}
