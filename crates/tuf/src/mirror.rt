//! `tuf mirror`: a copy of a repository in a folder, from which clients load it.

use crate::fault::{Fault, about, refused};
use crate::files::{self, Disk, make_folders};
use crate::get::Means;
use crate::host::Host;
use crate::putting::{is_at, place};
use crate::saving::{Place, names, save_watched};
use crate::standing::standing_in;
use crate::writing::TIMESTAMP;
use std::alloc::Global;
use std::io::ErrorKind;
use std::{fs, io};
use tough::{Clock, Error, Files, Keeper, LocalRuntime, Prefix, Repository, TargetName, Transport};

// The folder below the mirror in which its next metadata is gathered.
const NEXT: &str = ".next";

const CHANGED: &str = "the repository changed while it was copied; run it again";

// The length of the target; none where its file is there already.
fn missing<R: Host, T, K: Keeper, C>(
    alloc: Global,
    repository: &Repository<T, K, C>,
    disk: &mut Disk<R>,
    name: &TargetName,
    folder: &str,
) -> Result<Option<u64>, Fault> {
    let consistent = repository.root().signed.consistent_snapshot;
    let target = match repository.targets().signed.find_target(alloc, name, false) {
        Ok(target) => target,
        Err(error) => return Err(about(alloc, name.resolved(), &error)),
    };
    let path = place(alloc, folder, name.resolved(), target, consistent)?;
    if is_at(alloc, disk, path.as_str(), target) {
        Ok(None)
    } else {
        Ok(Some(target.length))
    }
}

// Saves the targets whose files aren't there: how many.
fn save_all<R: Host, T, K, C>(
    rt: &R,
    runtime: &mut LocalRuntime,
    repository: &mut Repository<T, K, C>,
    disk: &mut Disk<R>,
    names: &[TargetName],
    folder: &str,
    means: Means<'_>,
) -> Result<u64, Fault>
where
    T: Transport,
    K: Keeper,
    C: Clock + Drop,
{
    let alloc = rt.alloc();
    let prefix = if repository.root().signed.consistent_snapshot {
        Prefix::Digest
    } else {
        Prefix::None
    };
    let targets = format!(in alloc; "{folder}/targets")?;
    let mut count = 0u64;
    for name in names {
        if let Some(length) = missing(alloc, repository, disk, name, folder)? {
            let place = Place {
                folder: targets.as_str(),
                prefix,
                length,
                err: means.err,
            };
            save_watched(rt, runtime, repository, name, place)?;
            count = count.saturating_add(1);
        }
    }
    Ok(count)
}

// Removes the folder, which a run that was killed may have left.
fn remove<R: Host>(rt: &R, folder: &str) -> Result<(), Fault> {
    match fs::remove_dir_all(rt, folder) {
        Ok(()) => Ok(()),
        Err(error) if error.kind() == ErrorKind::NotFound => Ok(()),
        Err(error) => Err(about(rt.alloc(), folder, &error)),
    }
}

// What became of copying the metadata.
fn copied(alloc: Global, folder: &str, done: io::Result<Result<(), Error>>) -> Result<(), Fault> {
    match done {
        Ok(Ok(())) => Ok(()),
        Ok(Err(error)) => Err(about(alloc, folder, &error)),
        Err(error) => Err(Fault::System(error)),
    }
}

// Copies the metadata into the folder, with all roots.
fn copy<R: Host, T, K, C>(
    rt: &R,
    runtime: &mut LocalRuntime,
    repository: &mut Repository<T, K, C>,
    disk: &mut Disk<R>,
    folder: &str,
) -> Result<(), Fault>
where
    T: Transport,
    K: Keeper,
    C: Clock + Drop,
{
    let done = runtime.block_on(rt, repository.cache_metadata(disk, folder, true));
    copied(rt.alloc(), folder, done)
}

// Checks that a client loads the copy, and finds the snapshot whose targets were saved.
fn check<R: Host, T, K: Keeper, C>(
    rt: &R,
    repository: &Repository<T, K, C>,
    disk: &mut Disk<R>,
    next: &str,
    root: &[u8],
) -> Result<(), Fault> {
    let Some(standing) = standing_in(rt, disk, next, root)? else {
        return Err(refused(rt.alloc(), next, CHANGED));
    };
    let is_same = standing.snapshot.signed == repository.snapshot().signed;
    drop(standing);
    if is_same {
        Ok(())
    } else {
        Err(refused(rt.alloc(), next, CHANGED))
    }
}

// Moves a file over the one in the other folder, once its bytes are on the disk.
fn take_place<R: Host>(rt: &R, from: &str, to: &str) -> io::Result<()> {
    fs::open(rt, from)?.sync_all()?;
    fs::rename(rt, from, to)
}

// Moves files into the folder, and waits until it has their names.
fn move_files<R: Host>(rt: &R, from: &str, to: &str, names: &[String]) -> Result<(), Fault> {
    let alloc = rt.alloc();
    for name in names {
        let (old, new) = (
            format!(in alloc; "{from}/{name}")?,
            format!(in alloc; "{to}/{name}")?,
        );
        if let Err(error) = take_place(rt, old.as_str(), new.as_str()) {
            return Err(about(alloc, new.as_str(), &error));
        }
    }
    Ok(fs::open(rt, to)?.sync_all()?)
}

// Moves the metadata into the mirror: the timestamp last.
fn settle<R: Host>(rt: &R, disk: &mut Disk<R>, next: &str, to: &str) -> Result<(), Fault> {
    let alloc = rt.alloc();
    let mut names = match disk.list(next) {
        Ok(names) => names,
        Err(error) => return Err(files::unfiled(alloc, disk, next, error)),
    };
    names.retain(|name| name.as_str() != TIMESTAMP);
    names.sort()?;
    move_files(rt, next, to, names.as_slice())?;
    let mut last = Vec::new(alloc);
    last.push(String::from_str(alloc, TIMESTAMP)?)?;
    move_files(rt, next, to, last.as_slice())
}

// Gathers the metadata, checks it as a client, and moves it into the mirror.
fn take<R: Host, T, K, C>(
    rt: &R,
    runtime: &mut LocalRuntime,
    repository: &mut Repository<T, K, C>,
    disk: &mut Disk<R>,
    folder: &str,
    root: &[u8],
) -> Result<(), Fault>
where
    T: Transport,
    K: Keeper,
    C: Clock + Drop,
{
    let alloc = rt.alloc();
    let next = format!(in alloc; "{folder}/{NEXT}")?;
    let gathered = format!(in alloc; "{next}/metadata")?;
    let metadata = format!(in alloc; "{folder}/metadata")?;
    remove(rt, next.as_str())?;
    make_folders(rt, gathered.as_str())?;
    make_folders(rt, format!(in alloc; "{next}/targets")?.as_str())?;
    make_folders(rt, metadata.as_str())?;
    copy(rt, runtime, repository, disk, gathered.as_str())?;
    check(rt, repository, disk, next.as_str(), root)?;
    settle(rt, disk, gathered.as_str(), metadata.as_str())?;
    remove(rt, next.as_str())
}

// What was mirrored.
fn told<T, K: Keeper, C>(
    alloc: Global,
    repository: &Repository<T, K, C>,
    folder: &str,
    count: usize,
    saved: u64,
) -> Result<String, Fault> {
    let root = repository.root().signed.version;
    let timestamp = &repository.timestamp().signed;
    let (version, expires) = (timestamp.version, timestamp.expires);
    Ok(format!(in alloc;
        "{folder}: {count} targets, {saved} of them new, root {root}, timestamp {version}, which expires {expires}\n"
    )?)
}

/// Saves all targets of a loaded repository below the folder, and then its metadata, the timestamp last: what was mirrored.
pub(crate) fn mirror<R: Host, T, K, C>(
    rt: &R,
    runtime: &mut LocalRuntime,
    repository: &mut Repository<T, K, C>,
    folder: &str,
    means: Means<'_>,
) -> Result<String, Fault>
where
    T: Transport,
    K: Keeper,
    C: Clock + Drop,
{
    let alloc = rt.alloc();
    let _held = files::hold(rt, folder)?;
    let mut disk = files::disk(rt)?;
    make_folders(rt, format!(in alloc; "{folder}/targets")?.as_str())?;
    let names = names(alloc, repository)?;
    let saved = save_all(rt, runtime, repository, &mut disk, &names, folder, means)?;
    take(rt, runtime, repository, &mut disk, folder, means.root)?;
    told(alloc, repository, folder, names.len(), saved)
}
