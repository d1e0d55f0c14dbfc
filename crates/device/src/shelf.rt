//! Calls on a store over a folder.

use crate::files::word;
use anyhow::Result;
use std::alloc::Global;
use std::str;
use tough_vault::{DirStore, Store, StoreError};

type Folder = DirStore<HostRuntime>;

// What a call came to that answers nothing but that it is done.
fn came_to(alloc: Global, outcome: std::result::Result<(), StoreError>) -> Result<String> {
    match outcome {
        Ok(()) => Ok(String::from_str(alloc, "done")?),
        Err(error) => Ok(format!(in alloc; "{error:?}")?),
    }
}

// Reads a file.
fn read(alloc: Global, store: &mut Folder, name: &str) -> Result<String> {
    match store.read(alloc, name) {
        Ok(Some(bytes)) => {
            let text = str::from_utf8(bytes.as_slice()).unwrap_or("?");
            Ok(format!(in alloc; "read {text}")?)
        }
        Ok(None) => Ok(String::from_str(alloc, "nothing")?),
        Err(error) => Ok(format!(in alloc; "{error:?}")?),
    }
}

// One call: its name, and its arguments.
fn call(alloc: Global, store: &mut Folder, words: &[String]) -> Result<String> {
    let (name, text) = (word(words, 1), word(words, 2));
    match word(words, 0) {
        "write" => came_to(alloc, store.write(name, text.as_bytes())),
        "remove" => came_to(alloc, store.remove(name)),
        "replace" => {
            let outcome = store.replace(name, text.as_bytes(), word(words, 3), word(words, 4));
            Ok(format!(in alloc; "{outcome:?}")?)
        }
        _ => read(alloc, store, name),
    }
}

/// Makes the calls one after another, on one store over the folder that the first word names, and tells what each answered, and
/// what the system said last.
pub(crate) fn tell(rt: &HostRuntime, words: &[String]) -> Result<()> {
    let folder = String::from_str(rt.alloc(), word(words, 0))?;
    let mut store = DirStore::new(rt.clone()?, folder);
    let calls = words.get(1..).unwrap_or_default();
    for words in calls.split(|word| word.as_str() == ",") {
        let told = call(rt.alloc(), &mut store, words)?;
        println!(rt; "{told}")?;
    }
    if let Some(fault) = store.into_fault() {
        println!(rt; "{fault}")?;
    }
    Ok(())
}
