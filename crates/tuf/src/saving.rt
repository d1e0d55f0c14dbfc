//! Targets of a repository are saved.

use crate::fault::{Fault, about};
use crate::files;
use crate::host::Host;
use std::alloc::{AllocGlobal, Global};
use std::random::RandomSource;
use std::rt::Stderr;
use std::sync::Wait;
use std::{io, time};
use tough::progress::Watched;
use tough::{Clock, Error, Files, Keeper, LocalRuntime, Prefix, Repository, TargetName, Transport};

/// The name of a word.
pub(crate) fn name_of(alloc: Global, word: &str) -> Result<TargetName, Fault> {
    match TargetName::from_str(alloc, word) {
        Ok(name) => Ok(name),
        Err(error) => Err(about(alloc, word, &error)),
    }
}

// What became of saving a target.
fn outcome(alloc: Global, name: &str, done: io::Result<Result<(), Error>>) -> Result<(), Fault> {
    match done {
        Ok(Ok(())) => Ok(()),
        Ok(Err(error)) => Err(about(alloc, name, &error)),
        Err(error) => Err(Fault::System(error)),
    }
}

/// The names of the repository's targets.
pub(crate) fn names<T, K: Keeper, C>(
    alloc: Global,
    repository: &Repository<T, K, C>,
) -> Result<Vec<TargetName>, Fault> {
    let mut names = Vec::new(alloc);
    for entry in repository.all_targets()? {
        names.push(entry.0.clone()?)?;
    }
    Ok(names)
}

/// Saves a target below the folder.
pub(crate) fn save<R, T, K, C, F>(
    rt: &R,
    runtime: &mut LocalRuntime,
    repository: &mut Repository<T, K, C>,
    files: &mut F,
    name: &TargetName,
    folder: &str,
    prefix: Prefix,
) -> Result<(), Fault>
where
    R: Wait + time::Clock + RandomSource + AllocGlobal,
    T: Transport,
    K: Keeper,
    C: Clock + Drop,
    F: Files,
{
    let saving = repository.save_target(files, name, folder, prefix);
    let done = runtime.block_on(rt, saving);
    outcome(rt.alloc(), name.resolved(), done)
}

/// How a target is saved: below which folder, under which name, and where it is told how far it came.
#[derive(Clone, Copy, Drop)]
pub(crate) struct Place<'a> {
    pub(crate) folder: &'a str,
    pub(crate) prefix: Prefix,
    /// The length that is listed, in bytes.
    pub(crate) length: u64,
    pub(crate) err: Option<&'a Stderr>,
}

/// Saves a target in a file, and tells how far it came.
pub(crate) fn save_watched<R: Host, T, K, C>(
    rt: &R,
    runtime: &mut LocalRuntime,
    repository: &mut Repository<T, K, C>,
    name: &TargetName,
    place: Place<'_>,
) -> Result<(), Fault>
where
    T: Transport,
    K: Keeper,
    C: Clock + Drop,
{
    let mut files = Watched::new(files::disk(rt)?, rt.clone()?, place.err, place.length);
    let (folder, prefix) = (place.folder, place.prefix);
    let done = save(rt, runtime, repository, &mut files, name, folder, prefix);
    files.finish();
    match (done, files.files().last_fault()) {
        (Err(Fault::Told(text)), Some(cause)) => {
            Err(Fault::Told(format!(in rt.alloc(); "{text} ({cause})")?))
        }
        (done, _) => done,
    }
}
