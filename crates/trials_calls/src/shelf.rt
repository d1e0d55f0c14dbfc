//! A store in memory that fails as a case asks.
ghost use Rattle.std.specs.Prelude.{◌≡◌, ◌+◌, ◌%◌, ◌^◌};
ghost use Rattle.tough_vault.specs.Stored.{HasCause};

use crate::case::{list, number, text};
use anyhow::{Result, anyhow};
use serde_json::Value;
use std::alloc::Global;
use tough_vault::{MemoryStore, Replaced, Store, StoreError};

// The files that are told, in this order.
const NAMES: [&str; 5] = [
    "latest_known_time.json",
    "root.json",
    "timestamp.json",
    "snapshot.json",
    "targets.json",
];

// The file that may be stuck.
const STUCK: &str = "timestamp.json";

/// What happens to the call on which the calls of a store end.
#[derive(Clone, Copy, PartialEq, Eq, Drop)]
pub enum Fault {
    /// It fails, and the calls after it don't.
    Fails,
    /// It finds no memory, and the calls after it do.
    LacksMemory,
    /// It fails, and so do all after it, as where the process has ended.
    Ends,
    /// It fails, and the calls after it don't; where it is a write, it leaves the first byte of a document.
    Spoils,
}

/// Files in memory. Where the timestamp is stuck, reading it gives the same bytes whatever was written. Removals that the process
/// didn't live to make are made for the next one, as `DirStore` does.
#[derive(Drop)]
pub struct Shelf {
    files: MemoryStore,
    stuck: Option<Vec<u8>>,
    fault: Fault,
    left: u64,
    failures: u64,
    removals: u64,
    changes: u64,
    noted: bool,
}

// What goes wrong, and after how many calls.
fn fault_of(case: &Value) -> (Fault, u64) {
    if let Some(left) = number(case, "ends after") {
        return (Fault::Ends, left);
    }
    if let Some(left) = number(case, "lacks memory after") {
        return (Fault::LacksMemory, left);
    }
    if let Some(left) = number(case, "spoils after") {
        return (Fault::Spoils, left);
    }
    (
        Fault::Fails,
        number(case, "fails after").unwrap_or(u64::MAX),
    )
}

// Files in memory with what the case's member `store` holds.
fn stored(alloc: Global, case: &Value) -> Result<MemoryStore> {
    let mut files = MemoryStore::new(alloc);
    if let Some(given) = case.get("store").and_then(Value::as_object) {
        for (name, value) in given {
            let bytes = value.as_str().unwrap_or("").as_bytes();
            if files.write(name.as_str(), bytes).is_err() {
                return Err(anyhow!("no memory for {name}"));
            }
        }
    }
    Ok(files)
}

impl Shelf {
    /// The store that a case begins with.
    pub fn new(alloc: Global, case: &Value) -> Result<Shelf> {
        let stuck = match text(case, "stuck") {
            "" => None,
            text => Some(text.as_bytes().to_vec(alloc)?),
        };
        let files = stored(alloc, case)?;
        let (fault, left) = fault_of(case);
        Ok(Shelf {
            files,
            stuck,
            fault,
            left,
            failures: 0,
            removals: 0,
            changes: 0,
            noted: false,
        })
    }

    /// The store of the next process, whose calls fail as the case says.
    pub fn restarted(self, case: &Value) -> Shelf {
        let (fault, left) = fault_of(case);
        let Shelf {
            mut files,
            stuck,
            noted,
            ..
        } = self;
        if noted {
            let _ = files.remove(STUCK);
            let _ = files.remove("snapshot.json");
        }
        Shelf {
            files,
            stuck,
            fault,
            left,
            failures: 0,
            removals: 0,
            changes: 0,
            noted: false,
        }
    }

    // Adds the name of a file and the version of its document, or the moment that it notes, if the store holds it.
    fn tell_file(&mut self, alloc: Global, name: &str, told: &mut String) -> Result<()> {
        if let Some(bytes) = self.files.read(alloc, name)? {
            let held = held(alloc, bytes.as_slice())?;
            told.push_str(format!(in alloc; " {name} {held}")?.as_str())?;
        }
        Ok(())
    }

    /// What the store holds of its own files, and of those that the case's member `documents` names.
    pub fn tell(&mut self, alloc: Global, case: &Value) -> Result<String> {
        let mut told = String::new(alloc);
        for name in NAMES {
            self.tell_file(alloc, name, &mut told)?;
        }
        for name in list(case, "documents") {
            self.tell_file(alloc, name.as_str().unwrap_or(""), &mut told)?;
        }
        Ok(told)
    }

    // The fault of this call, if it has one.
    fn fail(&mut self) -> Result<(), StoreError>
        ensures cause { HasCause self.old.failures self.new.failures result }
        ensures removals { self.new.removals ≡ self.old.removals }
        ensures changes { self.new.changes ≡ self.old.changes }
    {
        if self.left > 0 {
            if self.left < u64::MAX {
                self.left -= 1;
            }
            return Ok(());
        }
        if self.fault != Fault::Ends {
            self.left = u64::MAX;
        }
        if self.fault == Fault::LacksMemory {
            return Err(StoreError::Memory);
        }
        self.failures = self.failures.wrapping_add(1);
        Err(StoreError::Failed)
    }
}

/// The version of a document, or the moment that a file notes.
pub fn held(alloc: Global, bytes: &[u8]) -> Result<String> {
    let value = match Value::from_slice(alloc, bytes) {
        Ok(value) => value,
        Err(error) if error.is_memory() => return Err(error.into()),
        Err(_) => return Ok(String::from_str(alloc, "no JSON")?),
    };
    if let Some(moment) = value.as_str() {
        return Ok(String::from_str(alloc, moment)?);
    }
    match value.pointer("/signed/version").and_then(Value::as_u64) {
        Some(version) => Ok(format!(in alloc; "{version}")?),
        None => Ok(String::from_str(alloc, "no version")?),
    }
}

impl Shelf {
    // Removes a file; each removal may be the call that fails.
    fn remove_counted(&mut self, name: &str) -> Result<(), StoreError>
        ensures cause { HasCause self.old.failures self.new.failures result }
        ensures removals { self.new.removals ≡ (self.old.removals + 1) % 2 ^ 64 }
        ensures changes { self.new.changes ≡ self.old.changes }
    {
        self.removals = self.removals.wrapping_add(1);
        if let Err(error) = self.fail() {
            return Err(error);
        }
        match self.files.remove(name) {
            Ok(()) => Ok(()),
            Err(_) => Err(StoreError::Memory),
        }
    }
}

impl Store for Shelf {
    ghost use Rattle.std.specs.Prelude.{false, None};

    ghost tells = { false };

    ghost files = { λ _ _. None };

    ghost count = { λ s. s.failures };

    ghost removals = { λ s. s.removals };

    ghost changes = { λ s. s.changes };

    fn read(&mut self, alloc: Global, name: &str) -> Result<Option<Vec<u8>>, StoreError> {
        if let Err(error) = self.fail() {
            return Err(error);
        }
        if let Some(bytes) = &self.stuck
            && name == STUCK
        {
            return match bytes.to_vec(alloc) {
                Ok(copy) => Ok(Some(copy)),
                Err(_) => Err(StoreError::Memory),
            };
        }
        match self.files.read(alloc, name) {
            Ok(found) => Ok(found),
            Err(_) => Err(StoreError::Memory),
        }
    }

    fn write(&mut self, name: &str, bytes: &[u8]) -> Result<(), StoreError> {
        self.changes = self.changes.wrapping_add(1);
        if let Err(error) = self.fail() {
            if self.fault == Fault::Spoils {
                let _ = self.files.write(name, b"{");
            }
            return Err(error);
        }
        match self.files.write(name, bytes) {
            Ok(()) => Ok(()),
            Err(_) => Err(StoreError::Memory),
        }
    }

    fn remove(&mut self, name: &str) -> Result<(), StoreError> {
        self.changes = self.changes.wrapping_add(1);
        self.removals = self.removals.wrapping_add(1);
        if let Err(error) = self.fail() {
            return Err(error);
        }
        match self.files.remove(name) {
            Ok(()) => Ok(()),
            Err(_) => Err(StoreError::Memory),
        }
    }

    fn replace(&mut self, name: &str, bytes: &[u8], first: &str, second: &str) -> Replaced {
        self.changes = self.changes.wrapping_add(1);
        if let Err(error) = self.fail() {
            if self.fault == Fault::Spoils {
                let _ = self.files.write(name, b"{");
            }
            return Replaced::Unwritten(error);
        }
        if self.files.write(name, bytes).is_err() {
            return Replaced::Unwritten(StoreError::Memory);
        }
        let first = self.remove_counted(first);
        let second = self.remove_counted(second);
        self.noted = first.is_err() || second.is_err();
        Replaced::Written(first, second)
    }

    fn failures(&self) -> u64 {
        self.failures
    }
}
