//! A repository is loaded over a transport.

ghost use Rattle.std.specs.Prelude.{⊤, IfOk};
ghost use Rattle.tough_client.specs.Repositories.{documents_of};
ghost use Rattle.tough.specs.Program.{IsVouchedFor};

use crate::error::ErrorKind;
use crate::{Error, drive_on};
use std::alloc::{AllocError, AllocGlobal, Global};
use std::fs::File;
use std::random::RandomSource;
use std::sync::Wait;
use std::{io, rt};
use tokio::runtime::LocalRuntime;
use tough_client::Repository;
use tough_load::{Core, DirStore, Keeper, RepositoryLoader, SystemClock, Vault};
use tough_net::Transport;
use tough_schema::DemoVerify;
use url::Url;

/// Why a run failed, as its line says.
#[derive(Drop)]
pub(crate) enum Fault {
    /// The load couldn't be begun, or it refused, or the saving did.
    Refused(String),
    /// The files refused.
    Files(String),
    /// Something else failed.
    Failed(String),
    /// Out of memory.
    Memory,
}

impl From<AllocError> for Fault {
    ghost from_gives = { λ _ _. ⊤ };

    fn from(_: AllocError) -> Fault {
        Fault::Memory
    }
}

// What an error says.
fn said(alloc: Global, error: &Error) -> Result<String, AllocError> {
    let text = format!(in alloc; "{error}")?;
    Ok(text)
}

/// A refusal.
pub(crate) fn refused(alloc: Global, error: Error) -> Fault {
    let told = said(alloc, &error);
    let kind = error.kind();
    drop(error);
    match told {
        Ok(text) if kind == ErrorKind::File => Fault::Files(text),
        Ok(text) => Fault::Refused(text),
        Err(_) => Fault::Memory,
    }
}

/// The fault of a saving in files, of which the system last said so.
pub(crate) fn with_fault(alloc: Global, fault: Fault, cause: Option<&io::Error>) -> Fault {
    match (fault, cause) {
        (Fault::Files(text), Some(cause)) => match format!(in alloc; "{text}: {cause}") {
            Ok(text) => Fault::Files(text),
            Err(_) => Fault::Memory,
        },
        (fault, _) => fault,
    }
}

// A refusal by this text, which is in this file: the name stands behind what it says, where that doesn't have it.
fn with_file(alloc: Global, text: String, file: &str) -> Fault {
    if text.as_str().contains(file) {
        return Fault::Refused(text);
    }
    match format!(in alloc; "{text} ({file})") {
        Ok(text) => Fault::Refused(text),
        Err(_) => Fault::Memory,
    }
}

// The refusal of a load, which is in this file.
fn refused_in(alloc: Global, error: Error, file: Option<String>) -> Fault {
    let fault = refused(alloc, error);
    let Some(file) = file else {
        return fault;
    };
    match fault {
        Fault::Refused(text) => with_file(alloc, text, file.as_str()),
        fault => fault,
    }
}

// The file that the machine asked for last, if it was one and there is memory to tell it.
fn last_file(alloc: Global, core: &Core) -> Option<String> {
    match core.last_file() {
        Some(name) => String::from_str(alloc, name).ok(),
        None => None,
    }
}

/// The event loop failed.
pub(crate) fn not_run(alloc: Global, error: io::Error) -> Fault {
    match format!(in alloc; "Failed to run the load: {error}") {
        Ok(text) => Fault::Failed(text),
        Err(_) => Fault::Memory,
    }
}

/// What is to be loaded.
#[derive(Drop)]
pub(crate) struct Wanted<'a> {
    /// The bytes of the root that is trusted.
    pub(crate) root: Vec<u8>,
    /// The URL below which the metadata lies.
    pub(crate) metadata: Url,
    /// The URL below which the targets lie.
    pub(crate) targets: Url,
    /// The folder of the store.
    pub(crate) store: &'a str,
}

/// The vault in the folder.
pub(crate) fn vault_in<R>(rt: &R, folder: &str) -> Result<Vault<DirStore<R>>, AllocError>
where
    R: rt::Files<File = File> + AllocGlobal + Clone + Drop,
{
    let folder = String::from_str(rt.alloc(), folder)?;
    Ok(Vault::new(rt.alloc(), DirStore::new(rt.clone()?, folder)))
}

/// Loads a repository over a transport that the runtime serves, by this keeper.
pub(crate) fn open_by<R, T, K>(
    rt: &R,
    runtime: &mut LocalRuntime,
    transport: T,
    keeper: K,
    wanted: Wanted<'_>,
) -> Result<Repository<T, K, SystemClock<R>>, Fault>
where
    R: rt::Files<File = File> + Wait + rt::Clock + RandomSource + AllocGlobal + Clone + Drop,
    T: Transport,
    K: Keeper,
    ensures { IfOk result (λ r. IsVouchedFor (documents_of r)) }
{
    let clock = SystemClock::new(rt.clone()?);
    let root = wanted.root;
    let loader = RepositoryLoader::new(rt.alloc(), root.as_slice(), wanted.metadata, wanted.targets)
        .transport(transport)
        .verifier(DemoVerify)
        .clock(clock)
        .keeper(keeper);
    let load = match loader.load() {
        Ok(load) => load,
        Err(error) => return Err(refused(rt.alloc(), Error::from(error))),
    };
    let (outcome, load) = match drive_on(rt, runtime, load) {
        Ok(both) => both,
        Err(error) => return Err(not_run(rt.alloc(), error)),
    };
    let file = match &outcome {
        Ok(_) => None,
        Err(_) => last_file(rt.alloc(), load.core()),
    };
    match Repository::from_outcome(load, outcome) {
        Ok(repository) => Ok(repository),
        Err(error) => Err(refused_in(rt.alloc(), error, file)),
    }
}

// The refusal of a load over a store in this folder, of which the system last said so.
fn over_store(alloc: Global, text: String, cause: Option<io::Error>, folder: &str) -> Fault {
    let Some(cause) = cause else {
        return Fault::Refused(text);
    };
    match format!(in alloc; "{text} {folder}: {cause}") {
        Ok(text) => Fault::Refused(text),
        Err(_) => Fault::Memory,
    }
}

/// The fault of a run whose store stands in the vault, over this folder.
pub(crate) fn with_cause<R>(
    alloc: Global,
    fault: Fault,
    vault: Vault<DirStore<R>>,
    folder: &str,
) -> Fault
where
    R: rt::Files<File = File> + AllocGlobal + Clone + Drop,
{
    match fault {
        Fault::Refused(text) => over_store(alloc, text, vault.into_store().into_fault(), folder),
        fault => fault,
    }
}
