//! The program `tough`.

ghost use Rattle.std.specs.Prelude.{◌≡◌, ◌≤◌, ℕ, List, Ok, IfOk, IfSome, true, string_bytes};
ghost use Rattle.std.specs.Io.KnownBytes.{Appends};
ghost use Rattle.tough_names.specs.Named.{clean};
ghost use Rattle.tough.specs.Program.{IsReport, IsVersions, Prints};

use crate::Error;
use crate::get::get_by;
use crate::opening::{Fault, Wanted, not_run, open_by, refused, vault_in, with_cause};
use crate::report::versions;
use std::alloc::{AllocGlobal, Global};
use std::fs::File;
use std::io::{self, Write};
use std::net::Net;
use std::random::RandomSource;
use std::sync::Wait;
use std::{fs, rt};
use tokio::runtime::LocalRuntime;
use tough_http::DefaultTransport;
use tough_names::TargetName;
use tough_net::Transport;
use url::{ParseError, Url};

const WARNING: &str = "tough: demo verifier, signatures prove nothing";

const LOAD: &str = "usage: tough load ROOT METADATA TARGETS STORE";

const GET: &str = "usage: tough get ROOT METADATA TARGETS STORE NAME OUTDIR";

// The refusal of a word that is no URL of files.
fn no_url(alloc: Global, word: &str, source: ParseError) -> Fault {
    match String::from_str(alloc, word) {
        Ok(url) => refused(alloc, Error::ParseUrl { url, source }),
        Err(_) => Fault::Memory,
    }
}

// The URL of a word, below which files can lie.
fn url(alloc: Global, word: &str) -> Result<Url, Fault> {
    match Url::parse(alloc, word) {
        Ok(url) if url.cannot_be_a_base() => {
            Err(no_url(alloc, word, ParseError::RelativeUrlWithCannotBeABaseBase))
        }
        Ok(url) => Ok(url),
        Err(ParseError::OutOfMemory) => Err(Fault::Memory),
        Err(source) => Err(no_url(alloc, word, source)),
    }
}

// The name of a word.
fn target_name(alloc: Global, word: &str) -> Result<TargetName, Fault>
    ensures { IfOk result (λ name. clean word.now ≡ Ok name.resolved) }
{
    match TargetName::from_str(alloc, word) {
        Ok(name) => Ok(name),
        Err(error) => Err(refused(alloc, Error::from(error))),
    }
}

// The bytes of a file.
fn read<R: rt::Files + AllocGlobal>(rt: &R, path: &str) -> Result<Vec<u8>, Fault> {
    match fs::read(rt, path) {
        Ok(bytes) => Ok(bytes),
        Err(error) => {
            let text = format!(in rt.alloc(); "Failed to read {path}: {error}")?;
            Err(Fault::Failed(text))
        }
    }
}

// An event loop, and a transport over files and HTTP that it serves.
fn connect<R>(rt: &R) -> Result<(LocalRuntime, DefaultTransport<R>), Fault>
where
    R: rt::Files<File = File> + Net + Wait + rt::Clock + RandomSource + AllocGlobal + Clone + Drop,
{
    let runtime = match LocalRuntime::new(rt) {
        Ok(runtime) => runtime,
        Err(error) => return Err(not_run(rt.alloc(), error)),
    };
    let transport = DefaultTransport::new(rt.clone()?, runtime.handle().clone()?)?;
    Ok((runtime, transport))
}

// Loads a repository over a transport into a folder, and gives the text that tells the versions.
fn load_by<R, T>(
    rt: &R,
    runtime: &mut LocalRuntime,
    transport: T,
    wanted: Wanted<'_>,
) -> Result<String, Fault>
where
    R: rt::Files<File = File> + Wait + rt::Clock + RandomSource + AllocGlobal + Clone + Drop,
    T: Transport,
    ensures { IfOk result (λ text. IsVersions (string_bytes text)) }
{
    let store = wanted.store;
    let mut vault = vault_in(rt, store)?;
    match open_by(rt, runtime, transport, &mut vault, wanted) {
        Ok(repository) => {
            let told = versions(rt.alloc(), repository.documents());
            drop(repository);
            drop(vault);
            match told {
                Ok(text) => Ok(text),
                Err(error) => Err(Fault::from(error)),
            }
        }
        Err(fault) => Err(with_cause(rt.alloc(), fault, vault, store)),
    }
}

// Loads a repository over files or HTTP into a folder, and gives the text that tells the versions.
fn load<R>(rt: &R, root: &str, metadata: &str, targets: &str, store: &str) -> Result<String, Fault>
where
    R: rt::Files<File = File> + Net + Wait + rt::Clock + RandomSource + AllocGlobal + Clone + Drop,
    ensures { IfOk result (λ text. IsVersions (string_bytes text)) }
{
    let metadata = url(rt.alloc(), metadata)?;
    let targets = url(rt.alloc(), targets)?;
    let root = read(rt, root)?;
    let wanted = Wanted {
        root,
        metadata,
        targets,
        store,
    };
    let (mut runtime, transport) = connect(rt)?;
    load_by(rt, &mut runtime, transport, wanted)
}

// Loads a repository, and saves one of its targets; gives the text that tells the versions and what was saved where.
fn get<R, E>(
    rt: &R,
    root: &str,
    metadata: &str,
    targets: &str,
    store: &str,
    name: &str,
    outdir: &str,
    err: Option<E>,
) -> Result<String, Fault>
where
    R: rt::Files<File = File> + Net + Wait + rt::Clock + RandomSource + AllocGlobal + Clone + Drop,
    E: Write + Drop,
    ensures { IfOk result (λ text. IsReport name.now outdir.now (string_bytes text)) }
{
    let metadata = url(rt.alloc(), metadata)?;
    let targets = url(rt.alloc(), targets)?;
    let name = target_name(rt.alloc(), name)?;
    let root = read(rt, root)?;
    let wanted = Wanted {
        root,
        metadata,
        targets,
        store,
    };
    let (mut runtime, transport) = connect(rt)?;
    get_by(rt, &mut runtime, transport, wanted, &name, outdir, err)
}

// Does what the words ask for, and gives the text to print. `None` where they are no command.
fn command<R, E>(rt: &R, words: &[String], err: Option<E>) -> Option<Result<String, Fault>>
where
    R: rt::Files<File = File> + Net + Wait + rt::Clock + RandomSource + AllocGlobal + Clone + Drop,
    E: Write + Drop,
    ensures { IfSome result (λ done. IfOk done (λ text. Prints words.now (string_bytes text))) }
{
    match words {
        [command, root, metadata, targets, store] if command.as_str() == "load" => Some(load(
            rt,
            root.as_str(),
            metadata.as_str(),
            targets.as_str(),
            store.as_str(),
        )),
        [command, root, metadata, targets, store, name, outdir] if command.as_str() == "get" =>
            Some(get(
                rt,
                root.as_str(),
                metadata.as_str(),
                targets.as_str(),
                store.as_str(),
                name.as_str(),
                outdir.as_str(),
                err,
            )),
        _ => None,
    }
}

// Tells why a run failed.
fn tell<E: Write>(err: &mut E, fault: &Fault) -> io::Result<()> {
    match fault {
        Fault::Refused(text) | Fault::Files(text) | Fault::Failed(text) => writeln!(
            err,
            "tough: {text}"
        ),
        Fault::Memory => writeln!(err, "tough: {}", Error::Memory),
    }
}

// Runs the words, and tells whether that succeeded.
fn work<R, O, E>(
    rt: &R,
    words: &[String],
    out: &mut O,
    err: &mut E,
    is_watched: bool,
) -> io::Result<bool>
where
    R: rt::Files<File = File> + Net + Wait + rt::Clock + RandomSource + AllocGlobal + Clone + Drop,
    O: Write,
    E: Write,
    ensures { IfOk result (λ done. done ≡ true → (text : List ℕ) × Prints words.now text
        × Appends (O.contents out.old) (O.contents out.new) text) }
{
    writeln!(err, "{WARNING}")?;
    match command(rt, words, if is_watched { Some(&mut *err) } else { None }) {
        Some(Ok(text)) => {
            write!(out, "{text}")?;
            Ok(true)
        }
        Some(Err(fault)) => {
            let told = tell(err, &fault);
            drop(fault);
            match told {
                Ok(()) => Ok(false),
                Err(error) => Err(error),
            }
        }
        None => {
            writeln!(err, "{LOAD}\n{GET}")?;
            Ok(false)
        }
    }
}

/// Runs the program on its words, without its name, over two writers, and answers its status: 0, or 1 where it failed.
///
/// `load ROOT METADATA TARGETS STORE` loads the repository whose metadata and targets lie at the two URLs (of the scheme `file` or `http`), from the
/// root in the file ROOT into the folder STORE, and prints the versions of its root, timestamp, snapshot and targets, a line each. A fault
/// is a line on `err`. `get ROOT METADATA TARGETS STORE NAME OUTDIR` loads it so, saves the target NAME below the folder OUTDIR, and prints the
/// same lines and one more, with what was saved where. Other words print how the program is used there. Each run first says there that its verifier proves nothing.
pub fn run<R, O, E>(rt: &R, words: &[String], out: &mut O, err: &mut E) -> u8
where
    R: rt::Files<File = File> + Net + Wait + rt::Clock + RandomSource + AllocGlobal + Clone + Drop,
    O: Write,
    E: Write,
    ensures status { result ≤ 1 }
    ensures printed { result ≡ 0 → (text : List ℕ) × Prints words.now text
        × Appends (O.contents out.old) (O.contents out.new) text }
{
    run_watched(rt, words, out, err, false)
}

/// As `run`; where `is_watched` says so, a line on `err` shows how much of the target is there while it is saved, at most ten times a
/// second.
pub fn run_watched<R, O, E>(
    rt: &R,
    words: &[String],
    out: &mut O,
    err: &mut E,
    is_watched: bool,
) -> u8
where
    R: rt::Files<File = File> + Net + Wait + rt::Clock + RandomSource + AllocGlobal + Clone + Drop,
    O: Write,
    E: Write,
    ensures status { result ≤ 1 }
    ensures printed { result ≡ 0 → (text : List ℕ) × Prints words.now text
        × Appends (O.contents out.old) (O.contents out.new) text }
{
    match work(rt, words, out, err, is_watched) {
        Ok(true) => 0,
        Ok(false) => 1,
        Err(_) => 1,
    }
}
