//! Loading repositories with many targets.

use crate::memory::peak_kilobytes;
use anyhow::Error;
use bytes::Bytes;
use jiff::Timestamp;
use std::alloc::Global;
use std::time::Instant;
use tough::schema::{DemoVerify, Role, Root, Signed, Targets};
use tough::{
    DirStore, DocumentName, Files, FilesystemTransport, FixedClock, Keeper, MemoryStore,
    MemoryTransport, OsFiles, Repository, RepositoryLoader, Transport, Vault, drive,
};
use tough_demo::{RepositoryFile, RepositoryFiles};
use url::Url;

// Where the repository is served in memory.
const SERVED: &str = "http://localhost/";

// The bytes of a piece in memory, as many as the transport over files hands out.
const PIECE_LEN: usize = 8192;

/// Prints how long it takes to read a targets document with so many targets, to verify it, to store it, and to load its
/// repository, over memory and, where a folder is given, over files in that folder.
pub fn run(rt: &HostRuntime, count: u32, folder: Option<&str>) -> Result<(), Error> {
    let made = tough_demo::repository(rt.alloc(), u64::from(count), true)?;
    println!(rt; "{count} targets; peak memory {} kB", peak_kilobytes(rt)?)?;
    let metadata = made.files.get(count as usize..).unwrap_or(&[]);
    if let Some(document) = metadata.first() {
        parts(rt, made.root.as_slice(), document.bytes.as_slice())?;
    }
    over_memory(rt, made.root.as_slice(), metadata)?;
    if let Some(folder) = folder {
        over_files(rt, made.root.as_slice(), metadata, folder)?;
    }
    Ok(())
}

/// Prints what was done, how long it took, and what the process has held at most.
pub fn print(rt: &HostRuntime, done: &str, began: Instant) -> Result<(), Error> {
    let time = began.elapsed(rt)?;
    println!(rt;
        "  {done}: {} ms; peak memory {} kB",
        time.as_millis(),
        peak_kilobytes(rt)?
    )?;
    Ok(())
}

// A document, and how long it took to read.
fn read<T: Role + Drop>(rt: &HostRuntime, bytes: &[u8]) -> Result<Signed<T>, Error> {
    let began = Instant::now(rt)?;
    match Signed::<T>::read(rt.alloc(), bytes) {
        Ok(document) => {
            print(rt, "read", began)?;
            Ok(document)
        }
        Err(_) => Err(Error::msg("a document isn't read")),
    }
}

// Stores targets.
fn store(rt: &HostRuntime, targets: &Signed<Targets>) -> Result<(), Error> {
    let name = DocumentName::targets(rt.alloc())?;
    let began = Instant::now(rt)?;
    let mut vault = Vault::new(rt.alloc(), MemoryStore::new(rt.alloc()));
    let is_stored = vault.put_document(&name, targets).is_ok();
    drop(vault);
    if is_stored {
        print(rt, "stored", began)
    } else {
        Err(Error::msg("the targets aren't stored"))
    }
}

// Verifies targets, and stores them.
fn verify_and_store(rt: &HostRuntime, root: &Root, targets: &Signed<Targets>) -> Result<(), Error> {
    let began = Instant::now(rt)?;
    root.verify_role(rt.alloc(), targets, &DemoVerify)?;
    print(rt, "verified", began)?;
    store(rt, targets)
}

// Reads a targets document, verifies it under the root and stores it.
fn parts_of(rt: &HostRuntime, root: &Root, document: &[u8]) -> Result<(), Error> {
    let targets = read::<Targets>(rt, document)?;
    let done = verify_and_store(rt, root, &targets);
    drop(targets);
    done
}

// Reads a root and a targets document, verifies this and stores it.
fn parts(rt: &HostRuntime, root: &[u8], document: &[u8]) -> Result<(), Error> {
    println!(rt;
        "a root of {} bytes, a targets document of {}",
        root.len(),
        document.len()
    )?;
    let root = read::<Root>(rt, root)?;
    let done = parts_of(rt, &root.signed, document);
    drop(root);
    done
}

// The files, served in memory.
fn served(alloc: Global, metadata: &[RepositoryFile]) -> Result<MemoryTransport, Error> {
    let mut transport = MemoryTransport::in_pieces(alloc, PIECE_LEN);
    for file in metadata {
        let url = format!(in alloc; "{SERVED}{}", file.path)?;
        let bytes = Bytes::copy_from_slice(alloc, file.bytes.as_slice())?;
        transport.insert(url.as_str(), bytes)?;
    }
    Ok(transport)
}

/// Loads the repository over memory.
pub fn over_memory(
    rt: &HostRuntime,
    root: &[u8],
    metadata: &[RepositoryFile],
) -> Result<(), Error> {
    let transport = served(rt.alloc(), metadata)?;
    let mut vault = Vault::new(rt.alloc(), MemoryStore::new(rt.alloc()));
    let done = measure(
        rt,
        root,
        SERVED,
        transport,
        &mut vault,
        "loaded over memory",
    );
    drop(vault);
    done
}

// Makes the files and the folder of the store.
fn put<F: Files>(
    alloc: Global,
    files: &mut F,
    metadata: &[RepositoryFile],
    folder: &str,
) -> Result<(), Error> {
    for name in ["metadata", "store"] {
        files.make_folders(format!(in alloc; "{folder}/{name}")?.as_str())?;
    }
    for file in metadata {
        let path = format!(in alloc; "{folder}/{}", file.path)?;
        files.create(path.as_str())?;
        files.append(path.as_str(), file.bytes.as_slice())?;
    }
    Ok(())
}

/// Loads the repository over files in the folder.
pub fn over_files(
    rt: &HostRuntime,
    root: &[u8],
    metadata: &[RepositoryFile],
    folder: &str,
) -> Result<(), Error> {
    let alloc = rt.alloc();
    put(alloc, &mut OsFiles::new(rt.clone()?), metadata, folder)?;
    let store = format!(in alloc; "{folder}/store")?;
    let served = format!(in alloc; "file://{folder}/")?;
    let transport = FilesystemTransport::new(rt.clone()?);
    let mut vault = Vault::new(alloc, DirStore::new(rt.clone()?, store));
    let done = measure(
        rt,
        root,
        served.as_str(),
        transport,
        &mut vault,
        "loaded over files",
    );
    drop(vault);
    done
}

// Loads the repository that is served below this URL, and prints what was done and how long it took.
fn measure<T: Transport, K: Keeper>(
    rt: &HostRuntime,
    root: &[u8],
    served: &str,
    transport: T,
    keeper: K,
    done: &str,
) -> Result<(), Error> {
    let began = Instant::now(rt)?;
    drop(load(rt, root, served, transport, keeper)?);
    print(rt, done, began)
}

/// Loads the repository that is served below this URL.
pub fn load<T: Transport, K: Keeper>(
    rt: &HostRuntime,
    root: &[u8],
    served: &str,
    transport: T,
    keeper: K,
) -> Result<Repository<T, K, FixedClock>, Error> {
    let alloc = rt.alloc();
    let metadata = Url::parse(alloc, format!(in alloc; "{served}metadata/")?.as_str())?;
    let targets = Url::parse(alloc, format!(in alloc; "{served}targets/")?.as_str())?;
    let loader = RepositoryLoader::new(alloc, root, metadata, targets)
        .transport(transport)
        .verifier(DemoVerify)
        .clock(FixedClock(Timestamp::UNIX_EPOCH))
        .keeper(keeper);
    Ok(drive(rt, loader.load()?)??)
}
