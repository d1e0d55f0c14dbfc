//! What a repository that was loaded answers; targets that are saved, and repositories that are cached, over files in memory.

use crate::load::open;
use crate::outcome::told;
use anyhow::Result;
use bytes::Bytes;
use serde_json::Value;
use std::alloc::{AllocError, Global};
use tough_client::{Clock, Error, Keeper, Prefix, Receipt, Repository, Vault, finish};
use tough_files::{Call, Files, MemoryFiles, Request};
use tough_names::TargetName;
use tough_net::{MemoryTransport, Transport};
use trials_calls::case::{flag, list, number, text};
use trials_calls::faulty::FaultyFiles;
use trials_calls::shelf::Shelf;

// Adds the files of a member of the case, below the URL.
fn serve(alloc: Global, case: &Value, member: &str, transport: &mut MemoryTransport) -> Result<()> {
    if let Some(files) = case.get(member).and_then(Value::as_object) {
        for (name, value) in files {
            let url = format!(in alloc; "http://h/{member}/{name}")?;
            let bytes = value.as_str().unwrap_or("").as_bytes();
            transport.insert(url.as_str(), Bytes::copy_from_slice(alloc, bytes)?)?;
        }
    }
    Ok(())
}

// The files as they are before, with the folders and the links of the case.
fn files(alloc: Global, case: &Value) -> Result<MemoryFiles> {
    let mut files = MemoryFiles::new(alloc);
    for folder in list(case, "folders") {
        files.make_folders(folder.as_str().unwrap_or(""))?;
    }
    for file in list(case, "files") {
        files.create(file.as_str().unwrap_or(""))?;
    }
    if let Some(links) = case.get("links").and_then(Value::as_object) {
        for (path, original) in links {
            files.link(original.as_str().unwrap_or(""), path.as_str())?;
        }
    }
    Ok(files)
}

// A path, without the number of a temporary file, which nobody prescribes.
fn path(alloc: Global, text: &str) -> Result<String, AllocError> {
    match text.split_once(".tmp") {
        Some((folder, _)) => format!(in alloc; "{folder}TEMP"),
        None => String::from_str(alloc, text),
    }
}

// A call, by its name and the paths that it is on.
fn named(alloc: Global, call: &Call) -> Result<String, AllocError> {
    match &call.request {
        Request::Kind(path, _) => format!(in alloc; "kind({path})"),
        Request::Create(path) => format!(in alloc; "create({path})"),
        Request::CreateTemp(folder) => format!(in alloc; "create_temp({folder})"),
        Request::Append(temp, bytes) => {
            let temp = path(alloc, temp.as_str())?;
            format!(in alloc; "append({temp}, {})", bytes.len())
        }
        Request::Rename(temp, to) => {
            let temp = path(alloc, temp.as_str())?;
            format!(in alloc; "rename({temp}, {to})")
        }
        Request::Remove(temp) => {
            let temp = path(alloc, temp.as_str())?;
            format!(in alloc; "remove({temp})")
        }
        Request::MakeFolders(path) => format!(in alloc; "make_folders({path})"),
        Request::Canonical(path) => format!(in alloc; "canonical({path})"),
        _ => format!(in alloc; "another call"),
    }
}

// What a save or a cache came to.
fn outcome(alloc: Global, answer: Result<(), Error>, saved: &str) -> Result<String, AllocError> {
    match answer {
        Ok(()) => String::from_str(alloc, saved),
        Err(error) => {
            let told = told(alloc, &error);
            drop(error);
            told
        }
    }
}

// Saves the target of the case.
fn save<T: Transport, K: Keeper, C: Clock + Drop, F: Files>(
    rt: &HostRuntime,
    case: &Value,
    repository: &mut Repository<T, K, C>,
    files: &mut F,
) -> Result<String> {
    let name = TargetName::from_str(rt.alloc(), text(case, "target"))?;
    let prefix = if flag(case, "prefixed") {
        Prefix::Digest
    } else {
        Prefix::None
    };
    let saving = repository.save_target(files, &name, text(case, "outdir"), prefix);
    Ok(outcome(rt.alloc(), finish(rt, saving)?, "saved")?)
}

// The names, where the case has a subset.
fn subset_of<'a>(case: &Value, names: &'a [&'a str]) -> Option<&'a [&'a str]> {
    if case.get("subset").is_some() {
        Some(names)
    } else {
        None
    }
}

// Caches the repository of the case.
fn cache<T: Transport, K: Keeper, C: Clock + Drop>(
    rt: &HostRuntime,
    case: &Value,
    repository: &mut Repository<T, K, C>,
    files: &mut MemoryFiles,
) -> Result<String> {
    let mut names = Vec::new(rt.alloc());
    for name in list(case, "subset") {
        names.push(name.as_str().unwrap_or(""))?;
    }
    let (outdir, targets) = (text(case, "outdir"), text(case, "targets_outdir"));
    let subset = subset_of(case, names.as_slice());
    let caching = repository.cache(files, outdir, targets, subset, flag(case, "root_chain"));
    Ok(outcome(rt.alloc(), finish(rt, caching)?, "cached")?)
}

// Caches the metadata of the repository of the case.
fn cache_metadata<T: Transport, K: Keeper, C: Clock + Drop>(
    rt: &HostRuntime,
    case: &Value,
    repository: &mut Repository<T, K, C>,
    files: &mut MemoryFiles,
) -> Result<String> {
    let caching = repository.cache_metadata(files, text(case, "outdir"), flag(case, "root_chain"));
    Ok(outcome(rt.alloc(), finish(rt, caching)?, "cached")?)
}

// What is listed in the repository, each target with its length.
fn listed<T: Transport, K: Keeper, C: Clock + Drop>(
    alloc: Global,
    repository: &Repository<T, K, C>,
) -> Result<String> {
    let mut told = String::new(alloc);
    for (name, target) in repository.all_targets()? {
        let line = format!(in alloc; "\n  {} {}", name.raw(), target.length)?;
        told.push_str(line.as_str())?;
    }
    Ok(told)
}

// The delegated role of the case: its name, and the version of its document.
fn role<T: Transport, K: Keeper, C: Clock + Drop>(
    alloc: Global,
    case: &Value,
    repository: &Repository<T, K, C>,
) -> Result<String> {
    let Some(role) = repository.delegated_role(text(case, "role"))? else {
        return Ok(String::from_str(alloc, "none")?);
    };
    Ok(match &role.targets {
        Some(document) => format!(in alloc; "{} {}", role.name, document.signed.targets.version)?,
        None => format!(in alloc; "{} without a document", role.name)?,
    })
}

// Whether the target of the case can be read.
fn read<T: Transport, K: Keeper, C: Clock + Drop>(
    rt: &HostRuntime,
    case: &Value,
    repository: &mut Repository<T, K, C>,
) -> Result<String> {
    let name = TargetName::from_str(rt.alloc(), text(case, "target"))?;
    let answer = match finish(rt, repository.read_target(&name))? {
        Ok(Some(stream)) => {
            drop(stream);
            Ok(())
        }
        Ok(None) => return Ok(String::from_str(rt.alloc(), "none")?),
        Err(error) => Err(error),
    };
    Ok(outcome(rt.alloc(), answer, "a stream")?)
}

// The receipts of the load, and of the reading of a target.
fn receipts<T: Transport, K: Keeper<Receipt = Receipt>, C: Clock + Drop>(
    rt: &HostRuntime,
    case: &Value,
    repository: &mut Repository<T, K, C>,
) -> Result<String> {
    let alloc = rt.alloc();
    let loaded = repository.receipts().len();
    let mut told = read(rt, case, repository)?;
    for (number, receipt) in repository.receipts().iter().enumerate() {
        let by = if number < loaded { "load" } else { "read" };
        let line = format!(in alloc; "\n  {by} {} {:?}", receipt.number(), receipt.entry())?;
        told.push_str(line.as_str())?;
    }
    Ok(told)
}

// Does with the repository what the case asks for, and tells what that came to.
fn act<T: Transport, K: Keeper<Receipt = Receipt>, C: Clock + Drop>(
    rt: &HostRuntime,
    case: &Value,
    repository: &mut Repository<T, K, C>,
    files: &mut MemoryFiles,
) -> Result<String> {
    match text(case, "call") {
        "cache" => cache(rt, case, repository, files),
        "cache_metadata" => cache_metadata(rt, case, repository, files),
        "Repository::all_targets" => listed(rt.alloc(), repository),
        "Repository::delegated_role" => role(rt.alloc(), case, repository),
        "Repository::read_target" => read(rt, case, repository),
        "Repository::receipts" => receipts(rt, case, repository),
        _ => save(rt, case, repository, files),
    }
}

// Does with the repository what the case asks for, and tells what that came to, and which calls the files were given.
fn tell<T: Transport, K: Keeper<Receipt = Receipt>, C: Clock + Drop>(
    rt: &HostRuntime,
    case: &Value,
    repository: &mut Repository<T, K, C>,
    files: &mut MemoryFiles,
) -> Result<String> {
    let before = files.calls().len();
    let line = act(rt, case, repository, files)?;
    with_calls(rt.alloc(), line, files.calls(), before)
}

// The line, and below it the calls from this one on.
fn with_calls(alloc: Global, mut line: String, calls: &[Call], first: usize) -> Result<String> {
    for call in calls.iter().skip(first) {
        let call = named(alloc, call)?;
        line.push_str(format!(in alloc; "\n  {call}")?.as_str())?;
    }
    Ok(line)
}

// Saves the target of the case in files of which a call fails, and tells what that came to, and the calls that did not.
fn save_over_fault<T: Transport, K: Keeper, C: Clock + Drop>(
    rt: &HostRuntime,
    case: &Value,
    repository: &mut Repository<T, K, C>,
    files: MemoryFiles,
    left: u64,
) -> Result<String> {
    let before = files.calls().len();
    let mut files = FaultyFiles::new(files, left);
    let line = save(rt, case, repository, &mut files)?;
    with_calls(rt.alloc(), line, files.calls(), before)
}

// The same over new files.
fn tell_anew<T: Transport, K: Keeper<Receipt = Receipt>, C: Clock + Drop>(
    rt: &HostRuntime,
    case: &Value,
    repository: &mut Repository<T, K, C>,
) -> Result<String> {
    let mut files = files(rt.alloc(), case)?;
    if let Some(left) = number(case, "files fail after") {
        return save_over_fault(rt, case, repository, files, left);
    }
    let told = tell(rt, case, repository, &mut files);
    drop(files);
    told
}

// The metadata and the targets of the case, in pieces where it says so.
fn served(alloc: Global, case: &Value) -> Result<MemoryTransport> {
    let piece = number(case, "piece").and_then(|n| usize::try_from(n).ok());
    let mut transport = match piece {
        Some(length) if length > 0 => MemoryTransport::in_pieces(alloc, length),
        _ => MemoryTransport::new(alloc),
    };
    serve(alloc, case, "metadata", &mut transport)?;
    serve(alloc, case, "targets", &mut transport)?;
    Ok(transport)
}

// Loads the repository of the case by this keeper, saves a target of it or caches it, and tells what that came to.
fn play_by<K: Keeper<Receipt = Receipt>>(
    rt: &HostRuntime,
    case: &Value,
    keeper: K,
) -> Result<String> {
    let transport = served(rt.alloc(), case)?;
    let urls = ["http://h/metadata/", "http://h/targets"];
    let mut repository = open(rt, case, case, urls, transport, keeper)??;
    let told = tell_anew(rt, case, &mut repository);
    drop(repository);
    told
}

/// Loads the repository of the case, saves a target of it or caches it, and tells what that came to, and which calls the files were given.
pub fn play(rt: &HostRuntime, case: &Value) -> Result<String> {
    let mut vault = Vault::new(rt.alloc(), Shelf::new(rt.alloc(), case)?);
    let told = play_by(rt, case, &mut vault);
    drop(vault);
    told
}
