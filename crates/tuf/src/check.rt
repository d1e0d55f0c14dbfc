//! `tuf check` and `tuf list`: what a client sees of the repository in a folder.

use crate::fault::Fault;
use crate::host::Host;
use crate::load::{Wanted, connect, open, urls_in};
use crate::nowhere::Nowhere;
use crate::report::{Form, Object, Report};
use crate::saving::{names, save};
use crate::{files, when};
use std::alloc::Global;
use tough::jiff::Timestamp;
use tough::schema::{Target, Targets};
use tough::{
    Clock, ExpirationEnforcement, Keeper, LocalRuntime, MemoryStore, Prefix, Repository, Transport,
    Vault,
};

/// What is looked for.
#[derive(Clone, Copy, Drop)]
pub(crate) enum Look {
    /// Whether all of it can be loaded and read, and when it expires.
    Check,
    /// The names of the targets.
    List,
}

/// Which repository is looked at, and when.
#[derive(Drop)]
pub(crate) struct Looking<'a> {
    /// The folder of the repository.
    pub(crate) repo: &'a str,
    /// The file of the root that is trusted.
    pub(crate) root: &'a str,
    /// The instant in whose place the clock stands, if not now.
    pub(crate) at: Option<Timestamp>,
    /// What is looked for.
    pub(crate) look: Look,
    /// How it is told.
    pub(crate) form: Form,
}

// Tells of a document.
fn add_line(
    alloc: Global,
    report: &mut Report,
    role: &str,
    version: u64,
    expires: Timestamp,
) -> Result<(), Fault> {
    let expires = format!(in alloc; "{expires}")?;
    let words = format!(in alloc; "{role} {version} expires {expires}\n")?;
    let mut object = Object::new(alloc);
    object.text("role", role)?;
    object.number("version", version)?;
    object.text("expires", expires.as_str())?;
    Ok(report.add(words.as_str(), &object)?)
}

// Tells of the delegated roles' documents.
fn add_roles(alloc: Global, report: &mut Report, targets: &Targets) -> Result<(), Fault> {
    for document in targets.signed_delegated_targets(alloc)? {
        let role = &document.signed;
        let version = role.targets.version.get();
        let expires = role.targets.expires;
        add_line(alloc, report, role.name.as_str(), version, expires)?;
    }
    Ok(())
}

// Tells of the documents.
fn add_documents<T, K: Keeper, C>(
    alloc: Global,
    report: &mut Report,
    repository: &Repository<T, K, C>,
) -> Result<(), Fault> {
    let root = &repository.root().signed;
    add_line(alloc, report, "root", root.version.get(), root.expires)?;
    let timestamp = &repository.timestamp().signed;
    let version = timestamp.version.get();
    add_line(alloc, report, "timestamp", version, timestamp.expires)?;
    let snapshot = &repository.snapshot().signed;
    let version = snapshot.version.get();
    add_line(alloc, report, "snapshot", version, snapshot.expires)?;
    let targets = &repository.targets().signed;
    let version = targets.version.get();
    add_line(alloc, report, "targets", version, targets.expires)?;
    add_roles(alloc, report, targets)
}

// Tells how many targets there are.
fn add_count(alloc: Global, report: &mut Report, count: usize) -> Result<(), Fault> {
    let words = format!(in alloc; "{count} targets, each as listed\n")?;
    let mut object = Object::new(alloc);
    object.number("targets", count as u64)?;
    Ok(report.add(words.as_str(), &object)?)
}

// Reads each target to its end, and tells how many there are.
fn read_all<R: Host, T, K, C>(
    rt: &R,
    runtime: &mut LocalRuntime,
    repository: &mut Repository<T, K, C>,
    report: &mut Report,
) -> Result<(), Fault>
where
    T: Transport,
    K: Keeper,
    C: Clock + Drop,
{
    let alloc = rt.alloc();
    let names = names(alloc, repository)?;
    let mut nowhere = Nowhere::new(alloc);
    for name in &names {
        save(
            rt,
            runtime,
            repository,
            &mut nowhere,
            name,
            "/",
            Prefix::None,
        )?;
    }
    add_count(alloc, report, names.len())
}

// Tells of a target: its name, length and digest.
fn add_target(
    alloc: Global,
    report: &mut Report,
    name: &str,
    target: &Target,
) -> Result<(), Fault> {
    let length = target.length;
    let digest = target.hashes.sha256.as_str();
    let words = format!(in alloc; "{name} {length} {digest}\n")?;
    let mut object = Object::new(alloc);
    object.text("name", name)?;
    object.number("length", length)?;
    object.text("sha256", digest)?;
    Ok(report.add(words.as_str(), &object)?)
}

// Tells of the targets.
fn add_targets<T, K: Keeper, C>(
    alloc: Global,
    report: &mut Report,
    repository: &Repository<T, K, C>,
) -> Result<(), Fault> {
    for entry in repository.all_targets()? {
        let (name, target) = entry;
        add_target(alloc, report, name.resolved(), target)?;
    }
    Ok(())
}

// Tells what is looked for of a repository.
fn answer<R, T, K, C>(
    rt: &R,
    runtime: &mut LocalRuntime,
    repository: &mut Repository<T, K, C>,
    report: &mut Report,
    look: Look,
) -> Result<(), Fault>
where
    R: Host,
    T: Transport,
    K: Keeper,
    C: Clock + Drop,
{
    let alloc = rt.alloc();
    match look {
        Look::List => add_targets(alloc, report, repository),
        Look::Check => {
            add_documents(alloc, report, repository)?;
            read_all(rt, runtime, repository, report)
        }
    }
}

// Loads the repository, and tells what is looked for.
fn look_at<R: Host, T: Transport, K: Keeper>(
    rt: &R,
    runtime: &mut LocalRuntime,
    transport: T,
    keeper: K,
    wanted: Wanted<'_>,
    look: Look,
    form: Form,
) -> Result<String, Fault> {
    let mut repository = open(rt, runtime, transport, keeper, wanted)?;
    let mut report = Report::new(rt.alloc(), form);
    let told = answer(rt, runtime, &mut repository, &mut report, look);
    drop(repository);
    match told {
        Ok(()) => Ok(report.into_text()),
        Err(fault) => Err(fault),
    }
}

/// Loads the repository in a folder as a new client does: what is looked for of it.
pub(crate) fn run<R: Host>(rt: &R, looking: &Looking<'_>) -> Result<String, Fault> {
    let alloc = rt.alloc();
    let root = files::read(rt, looking.root)?;
    let mut disk = files::disk(rt)?;
    let (metadata, targets) = urls_in(alloc, &mut disk, looking.repo)?;
    let wanted = Wanted {
        root: root.as_slice(),
        metadata,
        targets,
        enforcement: ExpirationEnforcement::Safe,
        start: match looking.at {
            Some(at) => at,
            None => when::now(rt)?,
        },
    };
    let (mut runtime, transport) = connect(rt)?;
    let mut vault = Vault::new(alloc, MemoryStore::new(alloc));
    look_at(
        rt,
        &mut runtime,
        transport,
        &mut vault,
        wanted,
        looking.look,
        looking.form,
    )
}
