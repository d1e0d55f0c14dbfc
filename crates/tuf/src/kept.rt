//! Documents that were kept, so that the next load asks for what is new alone.

use crate::fault::Fault;
use crate::files::{self, Disk};
use crate::host::Host;
use std::alloc::Global;
use tough::schema::{Role, Snapshot, Targets};
use tough::{Files, Keeper, Repository};

// The folder's name in the store's, which has no file of this name.
const FOLDER: &str = "kept";

/// The folder of the kept documents of a store.
pub(crate) fn folder_in(alloc: Global, store: &str) -> Result<String, Fault> {
    Ok(format!(in alloc; "{store}/{FOLDER}")?)
}

// The names of the folder's files.
fn names<R: Host>(disk: &mut Disk<R>, alloc: Global, folder: &str) -> Vec<String> {
    match disk.list(folder) {
        Ok(names) => names,
        Err(_) => Vec::new(alloc),
    }
}

/// Whether a document is kept there.
pub(crate) fn is_any<R: Host>(rt: &R, folder: &str) -> Result<bool, Fault> {
    let mut disk = files::disk(rt)?;
    Ok(!names(&mut disk, rt.alloc(), folder).is_empty())
}

// The names under which the documents are asked for.
fn listed(alloc: Global, snapshot: &Snapshot, targets: &Targets) -> Result<Vec<String>, Fault> {
    let mut names = Vec::new(alloc);
    names.push(snapshot.filename(alloc, true)?)?;
    names.push(targets.filename(alloc, true)?)?;
    for document in targets.signed_delegated_targets(alloc)? {
        names.push(document.signed.filename(alloc, true)?)?;
    }
    names.sort_unstable();
    Ok(names)
}

/// Removes the documents that a loaded repository doesn't list, as far as the system lets it.
pub(crate) fn clean<R: Host, T, K: Keeper, C>(
    rt: &R,
    repository: &Repository<T, K, C>,
    folder: &str,
) -> Result<(), Fault> {
    let alloc = rt.alloc();
    let snapshot = &repository.snapshot().signed;
    let listed = listed(alloc, snapshot, &repository.targets().signed)?;
    let mut disk = files::disk(rt)?;
    for name in names(&mut disk, alloc, folder) {
        if listed.binary_search(&name).is_err() {
            let path = format!(in alloc; "{folder}/{name}")?;
            let _ = disk.remove(path.as_str());
        }
    }
    Ok(())
}
