//! A store over a folder, and the clock of the system.

use crate::case::{list, text};
use crate::told::came_to;
use anyhow::{Result, anyhow};
use jiff::Timestamp;
use serde_json::Value;
use std::alloc::Global;
use std::fmt::Debug;
use std::{env, fs, process, str};
use tough_vault::{Clock, DirStore, Receipt, StepError, Store, SystemClock, Vault};

// A store over a folder.
type Folder = DirStore<HostRuntime>;

// What reading a file came to.
fn held<E: Debug + Drop>(alloc: Global, read: &Result<Option<Vec<u8>>, E>) -> Result<String> {
    Ok(match read {
        Ok(Some(bytes)) => String::from_str(alloc, str::from_utf8(bytes.as_slice())?)?,
        Ok(None) => String::from_str(alloc, "nothing")?,
        Err(error) => format!(in alloc; "{error:?}")?,
    })
}

// What a call on the store came to, and how often the device failed.
fn call(alloc: Global, store: &mut Folder, step: &Value) -> Result<String> {
    let name = text(step, "name");
    let told = match text(step, "step") {
        "write" => came_to(
            alloc,
            "done",
            store.write(name, text(step, "text").as_bytes()),
        )?,
        "remove" => came_to(alloc, "done", store.remove(name))?,
        _ => held(alloc, &store.read(alloc, name))?,
    };
    Ok(format!(in alloc; "{told} {}", store.failures())?)
}

// Notes a moment in a vault over the store, as a process of its own does.
fn note_in(alloc: Global, store: Folder, now: Timestamp) -> Result<Receipt, StepError> {
    let mut vault = Vault::new(alloc, store);
    let taken = vault.note_time(now);
    drop(vault);
    taken
}

// The same of the moment and the folder, and what it came to.
fn note(rt: &HostRuntime, folder: &str, moment: &str) -> Result<String> {
    let alloc = rt.alloc();
    let now = moment.parse::<Timestamp>()?;
    let folder = String::from_str(alloc, folder)?;
    let store = DirStore::new(rt.clone()?, folder);
    Ok(came_to(alloc, "noted", note_in(alloc, store, now))?)
}

// What a step came to: a call on the store, or on the files below the folder without the store.
fn take(rt: &HostRuntime, folder: &str, store: &mut Folder, step: &Value) -> Result<String> {
    let alloc = rt.alloc();
    let at = format!(in alloc; "{folder}{}", text(step, "path"))?;
    Ok(match text(step, "step") {
        "make folder" => {
            fs::create_dir(rt, at.as_str())?;
            String::from_str(alloc, "made")?
        }
        "count" => format!(in alloc; "{}", fs::read_dir(rt, at.as_str())?.count())?,
        "exists" => format!(in alloc; "{}", fs::exists(rt, at.as_str())?)?,
        "text" => fs::read_to_string(rt, at.as_str())?,
        "note" => note(rt, folder, text(step, "now"))?,
        _ => call(alloc, store, step)?,
    })
}

/// Plays the steps of a case over a store in a new folder, or in a folder below it that isn't there, and tells what each came to.
pub(crate) fn play(rt: &HostRuntime, case: &Value) -> Result<String> {
    let alloc = rt.alloc();
    let number = process::id(rt.process());
    let new = format!(in alloc; "{}/tough_trials_{number}", env::temp_dir(rt)?.display())?;
    let folder = format!(in alloc; "{new}{}", text(case, "folder"))?;
    let mut told = String::new(alloc);
    fs::create_dir(rt, new.as_str())?;
    let mut store = DirStore::new(rt.clone()?, folder.clone()?);
    for step in list(case, "steps") {
        let line = take(rt, folder.as_str(), &mut store, step)?;
        told.push_str(format!(in alloc; "\n  {line}")?.as_str())?;
    }
    fs::remove_dir_all(rt, new.as_str())?;
    Ok(told)
}

/// Whether the system's clock shows a moment after the case's.
pub(crate) fn clock(rt: &HostRuntime, case: &Value) -> Result<String> {
    let before = text(case, "now").parse::<Timestamp>()?;
    let mut clock = SystemClock::new(rt.clone()?);
    Ok(format!(in rt.alloc(); "{}", before < clock.now())?)
}
