//! Loads of whole repositories over memory.

use crate::outcome::{Documents, tell};
use crate::update::counted;
use bytes::Bytes;
use jiff::Timestamp as Instant;
use serde_json::Value;
use std::alloc::Global;
use tough_client::{Error, FixedClock, Keeper, Limits, Repository, RepositoryLoader, Vault, drive};
use tough_names::TargetName;
use tough_net::{MemoryTransport, Transport};
use tough_schema::{DemoVerify, Targets, Verify};
use tough_signatures::StandardVerify;
use trials_calls::case::{flag, list, number, text, text_of_either};
use trials_calls::shelf::Shelf;
use trials_calls::vault::enforcement;
use url::Url;

// Adds the files of an object, below the base URL.
fn serve(alloc: Global, object: &Value, transport: &mut MemoryTransport) -> anyhow::Result<()> {
    if let Some(files) = object.get("files").and_then(Value::as_object) {
        for (name, value) in files {
            let url = format!(in alloc; "http://h/m/{name}")?;
            let bytes = value.as_str().unwrap_or("").as_bytes();
            transport.insert(url.as_str(), Bytes::copy_from_slice(alloc, bytes)?)?;
        }
    }
    Ok(())
}

// The files of the case, and those of one load.
fn served(alloc: Global, case: &Value, load: &Value) -> anyhow::Result<MemoryTransport> {
    let mut transport = MemoryTransport::in_pieces(alloc, 100);
    serve(alloc, case, &mut transport)?;
    serve(alloc, load, &mut transport)?;
    Ok(transport)
}

/// The default limits, but for those that the case states.
pub fn limits(case: &Value) -> Limits {
    let mut limits = Limits::default();
    if let Some(updates) = number(case, "max_root_updates") {
        limits.max_root_updates = updates;
    }
    if let Some(size) = number(case, "max_timestamp_size") {
        limits.max_timestamp_size = size;
    }
    if let Some(size) = number(case, "max_targets_size") {
        limits.max_targets_size = size;
    }
    limits
}

// Loads a repository whose metadata and targets lie below two URLs, with the root, the moment, the limits and the enforcement of the load, or
// those of the case.
fn open_by<T: Transport, K: Keeper, V: Verify + Drop>(
    rt: &HostRuntime,
    load: &Value,
    case: &Value,
    [metadata, targets]: [&str; 2],
    transport: T,
    keeper: K,
    verifier: V,
) -> anyhow::Result<Result<Repository<T, K, FixedClock>, Error>> {
    let alloc = rt.alloc();
    let now = text_of_either(load, case, "now").parse()?;
    let metadata = Url::parse(alloc, metadata)?;
    let targets = Url::parse(alloc, targets)?;
    let trusted = text_of_either(load, case, "root").as_bytes();
    let loader = RepositoryLoader::new(alloc, trusted, metadata, targets)
        .transport(transport)
        .verifier(verifier)
        .clock(FixedClock(now))
        .keeper(keeper)
        .limits(limits(load))
        .expiration_enforcement(enforcement(load));
    Ok(drive(rt, loader.load()?)?)
}

/// The same by the scheme of the case: the three that repositories sign by where it says so, else that for demonstrations.
pub fn open<T: Transport, K: Keeper>(
    rt: &HostRuntime,
    load: &Value,
    case: &Value,
    urls: [&str; 2],
    transport: T,
    keeper: K,
) -> anyhow::Result<Result<Repository<T, K, FixedClock>, Error>> {
    match text(case, "scheme") {
        "standard" => open_by(rt, load, case, urls, transport, keeper, StandardVerify),
        _ => open_by(rt, load, case, urls, transport, keeper, DemoVerify),
    }
}

// Loads the repository that is served, on the vault.
fn run(
    rt: &HostRuntime,
    case: &Value,
    load: &Value,
    vault: &mut Vault<Shelf>,
) -> anyhow::Result<Result<Documents, Error>> {
    let transport = served(rt.alloc(), case, load)?;
    let urls = [text_of_either(load, case, "base"), "http://h/t/"];
    match open(rt, load, case, urls, transport, vault)? {
        Ok(repository) => {
            let parts = repository.into_parts();
            Ok(Ok((parts.root, parts.timestamp, parts.snapshot, parts.targets)))
        }
        Err(error) => Ok(Err(error)),
    }
}

// Adds to what is told what the store holds, and opens a vault on it anew.
fn reopen(
    alloc: Global,
    case: &Value,
    vault: Vault<Shelf>,
    told: &mut String,
) -> anyhow::Result<Vault<Shelf>> {
    let mut store = vault.into_store();
    let held = store.tell(alloc, case)?;
    told.push_str(format!(in alloc; "\n  store:{held}")?.as_str())?;
    Ok(Vault::new(alloc, store))
}

// Adds what the searches for these names find, the plain one and the permissive one: the length of the target.
fn search(
    alloc: Global,
    targets: &Targets,
    names: &[Value],
    told: &mut String,
) -> anyhow::Result<()> {
    for name in names {
        let text = name.as_str().unwrap_or("");
        let name = TargetName::new(alloc, String::from_str(alloc, text)?)?;
        for permissive in [false, true] {
            let line = match targets.find_target(alloc, &name, permissive) {
                Ok(target) => format!(in alloc; "\n  {text} {permissive} {}", target.length)?,
                Err(error) => format!(in alloc; "\n  {text} {permissive} {error}")?,
            };
            told.push_str(line.as_str())?;
        }
    }
    Ok(())
}

// Adds what a load came to, and what the searches of the case find in what was loaded.
fn tell_load(
    alloc: Global,
    case: &Value,
    outcome: &Result<Documents, Error>,
    told: &mut String,
) -> anyhow::Result<()> {
    let line = tell(alloc, outcome)?;
    told.push_str(format!(in alloc; "\n  {line}")?.as_str())?;
    match outcome {
        Ok((_, _, _, targets)) => search(alloc, &targets.signed, list(case, "find"), told),
        Err(_) => Ok(()),
    }
}

// Runs a load on the vault, and adds what it came to.
fn run_and_tell(
    rt: &HostRuntime,
    case: &Value,
    load: &Value,
    vault: &mut Vault<Shelf>,
    told: &mut String,
) -> anyhow::Result<()> {
    let outcome = run(rt, case, load, vault)?;
    let done = tell_load(rt.alloc(), case, &outcome, told);
    drop(outcome);
    done
}

/// Runs the loads of a case on one store, one after another, and tells of each what it came to and what the store then holds. Each has a
/// vault of its own, as in a process of its own, but for those after which the case keeps the vault. A load says after how many calls its
/// store fails, if it does.
pub fn loads(rt: &HostRuntime, case: &Value) -> anyhow::Result<String> {
    let alloc = rt.alloc();
    let mut told = String::new(alloc);
    let mut vault = Vault::new(alloc, Shelf::new(alloc, case)?);
    let mut is_kept = false;
    for load in list(case, "loads") {
        if !is_kept {
            vault = Vault::new(alloc, vault.into_store().restarted(load));
        }
        run_and_tell(rt, case, load, &mut vault, &mut told)?;
        is_kept = flag(load, "keeps the vault");
        if !is_kept {
            vault = reopen(alloc, case, vault, &mut told)?;
        }
    }
    Ok(told)
}

/// What a load has counted before it runs.
pub fn counts(alloc: Global, case: &Value) -> anyhow::Result<String> {
    let mut vault = Vault::new(alloc, Shelf::new(alloc, case)?);
    let metadata = Url::parse(alloc, "http://h/m/")?;
    let targets = Url::parse(alloc, "http://h/t/")?;
    let load = RepositoryLoader::new(alloc, b"", metadata, targets)
        .transport(MemoryTransport::in_pieces(alloc, 100))
        .verifier(DemoVerify)
        .clock(FixedClock(Instant::UNIX_EPOCH))
        .keeper(&mut vault)
        .load()?;
    let counts = load.core().counts();
    drop(load);
    drop(vault);
    Ok(counted(alloc, counts)?)
}
