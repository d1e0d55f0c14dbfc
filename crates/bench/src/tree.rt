//! Loading repositories whose targets delegate to many roles.

use crate::load::{over_files, over_memory};
use anyhow::Error;
use std::alloc::Global;
use tough_demo::{DemoError, RepositoryFile, RepositoryFiles};

// The repository of a chain of roles, or of a fan.
fn repository(
    alloc: Global,
    is_chain: bool,
    roles: usize,
    each: usize,
) -> Result<RepositoryFiles, DemoError> {
    if is_chain {
        tough_demo::chain(alloc, roles, each)
    } else {
        tough_demo::fan(alloc, roles, each)
    }
}

// The files of the metadata.
fn metadata_of(alloc: Global, files: Vec<RepositoryFile>) -> Result<Vec<RepositoryFile>, Error> {
    let mut metadata = Vec::new(alloc);
    for file in files {
        if file.path.starts_with("metadata/") {
            metadata.push(file)?;
        }
    }
    Ok(metadata)
}

// Loads the repository over memory and, where a folder is given, over files in that folder.
fn measure(
    rt: &HostRuntime,
    root: &[u8],
    metadata: &[RepositoryFile],
    folder: Option<&str>,
) -> Result<(), Error> {
    over_memory(rt, root, metadata)?;
    match folder {
        Some(folder) => over_files(rt, root, metadata, folder),
        None => Ok(()),
    }
}

/// Prints how long it takes to load a repository of so many targets over so many delegated roles, in a chain or in a fan, over memory
/// and, where a folder is given, over files in that folder.
pub fn run(
    rt: &HostRuntime,
    is_chain: bool,
    targets: usize,
    roles: usize,
    folder: Option<&str>,
) -> Result<(), Error> {
    let each = targets.checked_div(roles).unwrap_or(0);
    println!(rt; "{roles} roles with {each} targets each")?;
    let RepositoryFiles { root, files } = repository(rt.alloc(), is_chain, roles, each)?;
    let metadata = metadata_of(rt.alloc(), files)?;
    measure(rt, root.as_slice(), metadata.as_slice(), folder)
}
