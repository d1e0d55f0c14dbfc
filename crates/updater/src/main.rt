//! An updater: loads a repository into a store, finds one of its targets, and saves it in a folder. It verifies Ed25519, RSA and ECDSA
//! signatures.
//!
//! It speaks the field's client protocol too, by which implementations are compared: `init`, `refresh` and `download` over a folder of
//! metadata. A refusal is a line on standard error, with the system's words where there are any, and status 1; words that are no command are
//! answered with how it is used, and status 2.
#![tactic(auto)]

mod fault;
mod protocol;

use crate::fault::Fault;
use crate::protocol::{Command, Trusted};
use std::alloc::{AllocGlobal, Global};
use std::fs::File;
use std::net::Net;
use std::path::Path;
use std::process::ExitCode;
use std::random::RandomSource;
use std::sync::Wait;
use std::{env, io, rt};
use tough::error::ErrorKind;
use tough::{
    DefaultTransport, DirStore, LocalRuntime, OsFiles, Prefix, RepositoryLoader, Store,
    SystemClock, TargetName, Transport, Url, Vault, open_on,
};
use tough_signatures::StandardVerify;

const USAGE: &str = "\
usage: updater ROOT METADATA TARGETS STORE NAME OUTDIR
       updater --metadata-dir DIR init ROOT
       updater --metadata-dir DIR --metadata-url URL refresh
       updater --metadata-dir DIR --metadata-url URL --target-name NAME
               --target-dir DIR --target-base-url URL download";

const HELP: &str = "\
Loads the repository whose metadata and targets lie below the URLs METADATA and
TARGETS (file:///PATH or http://HOST/PATH), from the trusted root in the file ROOT
into the folder STORE, and saves its target NAME below the folder OUTDIR. STORE and
OUTDIR must be there; one store serves one repository.

init keeps the bytes of ROOT in the folder DIR as root.json, unjudged. refresh loads
from that root into DIR. download loads so, and saves a target.";

// The file in which a folder keeps its root.
const ROOT: &str = "root.json";

fn main(rt: HostRuntime) -> io::Result<ExitCode> {
    let mut words = Vec::new(rt.alloc());
    for word in env::args(&rt)?.skip(1) {
        words.push(word)?;
    }
    match protocol::read(words.as_slice()) {
        Some(command) => tell(&rt, run(&rt, &command)),
        None => explain(&rt, words.as_slice()),
    }
}

// How the program is used: what was asked for, or what is told in place of a command.
fn explain(rt: &HostRuntime, words: &[String]) -> io::Result<ExitCode> {
    match words {
        [word] if word.as_str() == "--help" => {
            println!(rt; "{USAGE}\n\n{HELP}")?;
            Ok(ExitCode::SUCCESS)
        }
        _ => {
            eprintln!(rt; "{USAGE}")?;
            Ok(ExitCode::from(2))
        }
    }
}

// What was done, or why it wasn't.
fn tell(rt: &HostRuntime, outcome: Result<String, Fault>) -> io::Result<ExitCode> {
    match outcome {
        Ok(done) => {
            println!(rt; "{done}")?;
            Ok(ExitCode::SUCCESS)
        }
        Err(fault) => {
            eprintln!(rt; "updater: {fault}")?;
            Ok(ExitCode::FAILURE)
        }
    }
}

// Does what a command asks for.
fn run<R>(rt: &R, command: &Command<'_>) -> Result<String, Fault>
where
    R: rt::Files<File = File> + Net + Wait + rt::Clock + RandomSource + AllocGlobal + Clone + Drop,
{
    let alloc = rt.alloc();
    match command {
        Command::Init { folder, root } => keep(rt, folder, root),
        Command::Update(asked) => {
            let wanted = Wanted {
                root: trusted(rt, &asked.root)?,
                metadata: fault::url(alloc, asked.metadata)?,
                targets: fault::url(alloc, asked.targets)?,
                name: match asked.name {
                    Some(name) => Some(TargetName::from_str(alloc, name)?),
                    None => None,
                },
            };
            let mut runtime = LocalRuntime::new(rt)?;
            let transport = DefaultTransport::new(rt.clone()?, runtime.handle().clone()?)?;
            update(
                rt,
                &mut runtime,
                transport,
                asked.store,
                asked.outdir,
                wanted,
            )
        }
    }
}

// The bytes of the trusted root.
fn trusted<R: rt::Files + AllocGlobal>(rt: &R, root: &Trusted<'_>) -> Result<Vec<u8>, Fault> {
    match root {
        Trusted::File(path) => fault::read(rt, path),
        Trusted::KeptIn(folder) => {
            let path = Path::new(folder).join(rt.alloc(), ROOT)?;
            fault::read(rt, path.as_str())
        }
    }
}

// Keeps the trusted root in the folder, as it is.
fn keep<R>(rt: &R, folder: &str, root: &str) -> Result<String, Fault>
where
    R: rt::Files<File = File> + AllocGlobal + Clone + Drop,
{
    let alloc = rt.alloc();
    let bytes = fault::read(rt, root)?;
    let mut store = DirStore::new(rt.clone()?, String::from_str(alloc, folder)?);
    match store.write(ROOT, bytes.as_slice()) {
        Ok(()) => Ok(format!(in alloc; "kept {root} in {folder}")?),
        Err(_) => Err(match store.into_fault() {
            Some(error) => Fault::in_file(alloc, "write root.json in", folder, error),
            None => Fault::Memory,
        }),
    }
}

// What is loaded, and which target is saved, if one is.
#[derive(Drop)]
struct Wanted {
    root: Vec<u8>,
    metadata: Url,
    targets: Url,
    name: Option<TargetName>,
}

// Loads the repository into the folder of the store, and saves the target below the other folder.
fn update<R, T>(
    rt: &R,
    runtime: &mut LocalRuntime,
    transport: T,
    store: &str,
    outdir: &str,
    wanted: Wanted,
) -> Result<String, Fault>
where
    R: rt::Files<File = File> + Wait + rt::Clock + RandomSource + AllocGlobal + Clone + Drop,
    T: Transport,
{
    let alloc = rt.alloc();
    let folder = String::from_str(alloc, store)?;
    let mut vault = Vault::new(alloc, DirStore::new(rt.clone()?, folder));
    let mut files = OsFiles::new(rt.clone()?);
    let outcome = load_and_save(
        rt, runtime, transport, &mut vault, &mut files, outdir, wanted,
    );
    let system = vault.into_store().into_fault();
    told_by_system(
        alloc,
        outcome,
        [store, outdir],
        system.as_ref(),
        files.last_fault(),
    )
}

// A refusal with what the system said of the store, or of the files below the other folder.
fn told_by_system(
    alloc: Global,
    outcome: Result<String, Fault>,
    [store, outdir]: [&str; 2],
    stored: Option<&io::Error>,
    saved: Option<&io::Error>,
) -> Result<String, Fault> {
    match outcome {
        Err(Fault::Refused(error)) => Err(if error.kind() == ErrorKind::File {
            Fault::with_cause(alloc, error, outdir, saved)
        } else {
            Fault::with_cause(alloc, error, store, stored)
        }),
        outcome => outcome,
    }
}

// Loads the repository on this vault, and saves the target by these files.
fn load_and_save<R, T>(
    rt: &R,
    runtime: &mut LocalRuntime,
    transport: T,
    vault: &mut Vault<DirStore<R>>,
    files: &mut OsFiles<R>,
    outdir: &str,
    wanted: Wanted,
) -> Result<String, Fault>
where
    R: rt::Files<File = File> + Wait + rt::Clock + RandomSource + AllocGlobal + Clone + Drop,
    T: Transport,
{
    let Wanted {
        root,
        metadata,
        targets,
        name,
    } = wanted;
    let load = RepositoryLoader::new(rt.alloc(), root.as_slice(), metadata, targets)
        .transport(transport)
        .verifier(StandardVerify)
        .clock(SystemClock::new(rt.clone()?))
        .keeper(vault)
        .load()?;
    let mut repository = open_on(rt, runtime, load)??;
    let Some(name) = name else {
        return Ok(String::from_str(rt.alloc(), "loaded")?);
    };
    let saving = repository.save_target(files, &name, outdir, Prefix::None);
    runtime.block_on(rt, saving)??;
    Ok(format!(in rt.alloc(); "saved {} in {outdir}", name.resolved())?)
}
