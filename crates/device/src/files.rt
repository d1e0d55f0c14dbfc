//! Calls on the files of the operating system.

use anyhow::Result;
use std::alloc::Global;
use std::str;
use tough_files::{Files, FilesError, OsFiles};

type System = OsFiles<HostRuntime>;

/// A word by its place, or the empty one.
pub(crate) fn word(words: &[String], at: usize) -> &str {
    match words.get(at) {
        Some(word) => word.as_str(),
        None => "",
    }
}

// What a call that was refused answered, and what the system said.
fn refused(alloc: Global, files: &System, error: FilesError) -> Result<String> {
    match files.last_fault() {
        Some(fault) => Ok(format!(in alloc; "{error:?}: {fault}")?),
        None => Ok(format!(in alloc; "{error:?}")?),
    }
}

// Reads on from a byte, as many bytes as the buffer takes.
fn read(rt: &HostRuntime, files: &mut System, words: &[String]) -> Result<String> {
    let alloc = rt.alloc();
    let from = word(words, 2).parse::<u64>().unwrap_or(0);
    let mut buffer = [0u8; 64];
    match files.read(word(words, 1), from, &mut buffer) {
        Ok(count) => {
            let bytes = buffer.get(..count).unwrap_or_default();
            Ok(format!(in alloc; "read {}", str::from_utf8(bytes).unwrap_or("?"))?)
        }
        Err(error) => refused(alloc, files, error),
    }
}

// The names in a folder, in the order in which the system gives them.
fn list(rt: &HostRuntime, files: &mut System, path: &str) -> Result<String> {
    let alloc = rt.alloc();
    match files.list(path) {
        Ok(names) => {
            let mut told = String::from_str(alloc, "listed")?;
            for name in &names {
                told.push(' ')?;
                told.push_str(name.as_str())?;
            }
            Ok(told)
        }
        Err(error) => refused(alloc, files, error),
    }
}

// A call that is asked for more than whether it was done.
fn ask(rt: &HostRuntime, files: &mut System, words: &[String]) -> Result<String> {
    let (alloc, path) = (rt.alloc(), word(words, 1));
    let named = match word(words, 0) {
        "temp" => files.create_temp(path),
        "canonical" => files.canonical(path),
        "read" => return read(rt, files, words),
        "list" => return list(rt, files, path),
        _ => {
            return match files.kind(path, word(words, 2) == "follow") {
                Ok(kind) => Ok(format!(in alloc; "{kind:?}")?),
                Err(error) => refused(alloc, files, error),
            };
        }
    };
    match named {
        Ok(path) => Ok(format!(in alloc; "named {path}")?),
        Err(error) => refused(alloc, files, error),
    }
}

// One call: its name, and its arguments.
fn call(rt: &HostRuntime, files: &mut System, words: &[String]) -> Result<String> {
    let (path, other) = (word(words, 1), word(words, 2));
    let done = match word(words, 0) {
        "create" => files.create(path),
        "append" => files.append(path, other.as_bytes()),
        "rename" => files.rename(path, other),
        "copy" => files.copy(path, other),
        "link" => files.link(path, other),
        "remove" => files.remove(path),
        "folders" => files.make_folders(path),
        _ => return ask(rt, files, words),
    };
    match done {
        Ok(()) => Ok(String::from_str(rt.alloc(), "done")?),
        Err(error) => refused(rt.alloc(), files, error),
    }
}

/// Makes the calls one after another, on the same files, and tells what each answered.
pub(crate) fn tell(rt: &HostRuntime, words: &[String]) -> Result<()> {
    let mut files = OsFiles::new(rt.clone()?);
    for words in words.split(|word| word.as_str() == ",") {
        let told = call(rt, &mut files, words)?;
        println!(rt; "{told}")?;
    }
    Ok(())
}
