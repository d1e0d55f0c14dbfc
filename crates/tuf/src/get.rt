//! `tuf get`: targets of a repository are fetched.

use crate::fault::{Fault, about};
use crate::files::{self, Disk};
use crate::host::Host;
use crate::load::{Wanted, connect, open, url};
use crate::mirror::mirror;
use crate::putting::is_at;
use crate::report::{Form, Object, Report};
use crate::saving::{Place, name_of, save_watched};
use crate::{kept, when};
use std::alloc::Global;
use std::io;
use std::rt::Stderr;
use tough::{
    Clock, DefaultTransport, DirStore, ExpirationEnforcement, FixedClock, Keeper, LocalRuntime,
    Prefix, Repository, TargetName, Transport, Vault,
};
use tough_cache::CachingTransport;

/// What is fetched of a repository.
#[derive(Clone, Copy, Drop, PartialEq, Eq)]
pub(crate) enum Wish {
    /// The named targets, below the folder.
    Targets,
    /// All of it, into the folder, from which clients load it.
    Mirror,
}

/// What is fetched, from where, and where to.
#[derive(Drop)]
pub(crate) struct Fetching<'a> {
    /// What is fetched.
    pub(crate) wish: Wish,
    /// The file of the root that is trusted.
    pub(crate) root: &'a str,
    /// The URL below which the metadata lies.
    pub(crate) metadata: &'a str,
    /// The URL below which the targets lie.
    pub(crate) targets: &'a str,
    /// The folder that keeps what was accepted.
    pub(crate) store: &'a str,
    /// The folder of the files.
    pub(crate) out: &'a str,
    /// The names of the targets.
    pub(crate) names: &'a [&'a str],
    /// How it is told.
    pub(crate) form: Form,
}

// The length of the target; none where its file is there already.
fn missing<R: Host, T, K: Keeper, C>(
    alloc: Global,
    repository: &Repository<T, K, C>,
    disk: &mut Disk<R>,
    name: &TargetName,
    folder: &str,
) -> Result<Option<u64>, Fault> {
    let path = format!(in alloc; "{folder}/{}", name.resolved())?;
    match repository.targets().signed.find_target(alloc, name, false) {
        Ok(target) if is_at(alloc, disk, path.as_str(), target) => Ok(None),
        Ok(target) => Ok(Some(target.length)),
        Err(error) => Err(about(alloc, name.resolved(), &error)),
    }
}

// Tells what became of a target.
fn add_outcome(
    alloc: Global,
    report: &mut Report,
    name: &str,
    is_current: bool,
) -> Result<(), Fault> {
    let words = if is_current {
        format!(in alloc; "{name} is current\n")?
    } else {
        format!(in alloc; "saved {name}\n")?
    };
    let mut object = Object::new(alloc);
    object.text("name", name)?;
    object.flag("saved", !is_current)?;
    Ok(report.add(words.as_str(), &object)?)
}

// Fetches a target, where its file isn't there already.
fn fetch<R: Host, T, K, C>(
    rt: &R,
    runtime: &mut LocalRuntime,
    repository: &mut Repository<T, K, C>,
    disk: &mut Disk<R>,
    report: &mut Report,
    word: &str,
    folder: &str,
    err: Option<&Stderr>,
) -> Result<(), Fault>
where
    T: Transport,
    K: Keeper,
    C: Clock + Drop,
{
    let alloc = rt.alloc();
    let name = name_of(alloc, word)?;
    let missing = missing(alloc, repository, disk, &name, folder)?;
    if let Some(length) = missing {
        let prefix = Prefix::None;
        let place = Place {
            folder,
            prefix,
            length,
            err,
        };
        save_watched(rt, runtime, repository, &name, place)?;
    }
    add_outcome(alloc, report, name.resolved(), missing.is_none())
}

// Fetches the targets of these names.
fn fetch_each<R, T, K, C>(
    rt: &R,
    runtime: &mut LocalRuntime,
    repository: &mut Repository<T, K, C>,
    words: &Fetching<'_>,
    err: Option<&Stderr>,
) -> Result<String, Fault>
where
    R: Host,
    T: Transport,
    K: Keeper,
    C: Clock + Drop,
{
    let mut disk = files::disk(rt)?;
    let mut report = Report::new(rt.alloc(), words.form);
    for word in words.names {
        fetch(
            rt,
            runtime,
            repository,
            &mut disk,
            &mut report,
            word,
            words.out,
            err,
        )?;
    }
    Ok(report.into_text())
}

// What is wanted of the repository.
fn wanted<'a, R: Host>(rt: &R, words: &Fetching<'_>, root: &'a [u8]) -> Result<Wanted<'a>, Fault> {
    let alloc = rt.alloc();
    Ok(Wanted {
        root,
        metadata: url(alloc, words.metadata)?,
        targets: url(alloc, words.targets)?,
        enforcement: ExpirationEnforcement::Safe,
        start: when::now(rt)?,
    })
}

/// The root that is trusted, the folder of kept documents, and where it is told how far a target came.
#[derive(Clone, Copy, Drop)]
pub(crate) struct Means<'a> {
    pub(crate) root: &'a [u8],
    pub(crate) kept: &'a str,
    pub(crate) err: Option<&'a Stderr>,
}

// Fetches what is wished, and forgets the documents that are no longer listed.
fn fetch_and_clean<R: Host, T: Transport, K: Keeper>(
    rt: &R,
    runtime: &mut LocalRuntime,
    repository: &mut Repository<T, K, FixedClock>,
    words: &Fetching<'_>,
    means: Means<'_>,
) -> Result<String, Fault> {
    kept::clean(rt, repository, means.kept)?;
    match words.wish {
        Wish::Targets => fetch_each(rt, runtime, repository, words, means.err),
        Wish::Mirror => mirror(rt, runtime, repository, words.out, means),
    }
}

// Loads the repository by way of the folder of kept documents: what was then fetched, if it was loaded.
fn get_over<R: Host, K: Keeper>(
    rt: &R,
    runtime: &mut LocalRuntime,
    transport: CachingTransport<DefaultTransport<R>, R>,
    keeper: K,
    words: &Fetching<'_>,
    means: Means<'_>,
) -> Result<Result<String, Fault>, Fault> {
    let wanted = wanted(rt, words, means.root)?;
    let mut repository = open(rt, runtime, transport, keeper, wanted)?;
    let told = fetch_and_clean(rt, runtime, &mut repository, words, means);
    drop(repository);
    Ok(told)
}

// Loads the repository and fetches what is wished. Where the load fails and documents were kept, it is tried once more without them.
fn get_twice<R: Host>(
    rt: &R,
    vault: &mut Vault<DirStore<R>>,
    words: &Fetching<'_>,
    means: Means<'_>,
) -> Result<String, Fault> {
    let alloc = rt.alloc();
    let has_kept = kept::is_any(rt, means.kept)?;
    let (mut runtime, transport) = connect(rt)?;
    let name = String::from_str(alloc, means.kept)?;
    let caching = CachingTransport::new(rt.clone()?, transport, name);
    match get_over(rt, &mut runtime, caching, &mut *vault, words, means) {
        Ok(told) => return told,
        Err(fault) if !has_kept => return Err(fault),
        Err(fault) => drop(fault),
    }
    let (mut runtime, transport) = connect(rt)?;
    let name = String::from_str(alloc, means.kept)?;
    let caching = CachingTransport::anew(rt.clone()?, transport, name);
    match get_over(rt, &mut runtime, caching, vault, words, means) {
        Ok(told) => told,
        Err(fault) => Err(fault),
    }
}

// The fault, with what the system said of the store, if it said something.
fn with_cause(alloc: Global, fault: Fault, cause: Option<io::Error>, store: &str) -> Fault {
    let Some(cause) = cause else {
        return fault;
    };
    match format!(in alloc; "{fault} ({store}: {cause})") {
        Ok(text) => Fault::Told(text),
        Err(_) => Fault::Memory,
    }
}

/// Loads a repository into the store, and saves what is wished of it: what was saved. Where `err` is given, it tells how far each target came.
pub(crate) fn get<R: Host>(
    rt: &R,
    words: &Fetching<'_>,
    err: Option<&Stderr>,
) -> Result<String, Fault> {
    let alloc = rt.alloc();
    let root = files::read(rt, words.root)?;
    let folder = kept::folder_in(alloc, words.store)?;
    files::make_folders(rt, folder.as_str())?;
    files::make_folders(rt, words.out)?;
    let store = String::from_str(alloc, words.store)?;
    let mut vault = Vault::new(alloc, DirStore::new(rt.clone()?, store));
    let means = Means {
        root: root.as_slice(),
        kept: folder.as_str(),
        err,
    };
    match get_twice(rt, &mut vault, words, means) {
        Ok(text) => Ok(text),
        Err(fault) => {
            let cause = vault.into_store().into_fault();
            Err(with_cause(alloc, fault, cause, words.store))
        }
    }
}
