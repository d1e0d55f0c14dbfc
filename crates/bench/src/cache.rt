//! Saving a whole repository.

use crate::load::{load, print};
use anyhow::Error;
use std::fs;
use std::time::Instant;
use tough::{
    Clock, DirStore, Files, FilesystemTransport, Keeper, OsFiles, Repository, Transport, Vault,
    finish,
};

/// Loads the repository of a folder, which has `root.json`, `metadata` and `targets`, and prints how long it takes to save it as a whole
/// in the folder `cached` there, beside the store.
pub fn run(rt: &HostRuntime, folder: &str) -> Result<(), Error> {
    let alloc = rt.alloc();
    let root = fs::read(rt, format!(in alloc; "{folder}/root.json")?.as_str())?;
    let store = format!(in alloc; "{folder}/cached/store")?;
    OsFiles::new(rt.clone()?).make_folders(store.as_str())?;
    let mut vault = Vault::new(alloc, DirStore::new(rt.clone()?, store));
    let done = load_and_save(rt, root.as_slice(), &mut vault, folder);
    drop(vault);
    done
}

// Loads the repository by this keeper, and saves it.
fn load_and_save<K: Keeper>(
    rt: &HostRuntime,
    root: &[u8],
    keeper: K,
    folder: &str,
) -> Result<(), Error> {
    let served = format!(in rt.alloc(); "file://{folder}/")?;
    let transport = FilesystemTransport::new(rt.clone()?);
    let mut repository = load(rt, root, served.as_str(), transport, keeper)?;
    let done = save(rt, &mut repository, folder);
    drop(repository);
    done
}

// Saves all targets and the metadata of the repository.
fn save<T: Transport, K: Keeper, C: Clock + Drop>(
    rt: &HostRuntime,
    repository: &mut Repository<T, K, C>,
    folder: &str,
) -> Result<(), Error> {
    let alloc = rt.alloc();
    let metadata = format!(in alloc; "{folder}/cached/metadata")?;
    let targets = format!(in alloc; "{folder}/cached/targets")?;
    let mut files = OsFiles::new(rt.clone()?);
    let began = Instant::now(rt)?;
    let caching = repository.cache(
        &mut files,
        metadata.as_str(),
        targets.as_str(),
        None::<&[&str]>,
        true,
    );
    finish(rt, caching)??;
    print(rt, "saved as a whole", began)
}
