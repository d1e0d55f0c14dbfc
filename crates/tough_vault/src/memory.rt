//! A store in memory, which tells its files.

ghost use Rattle.std.specs.Prelude.{◌≡◌, ◌+◌, ◌%◌, ◌^◌, ℕ, List, None, OnOk, IsErrOf, is_some, true};
ghost use Rattle.tough_vault.specs.Stored.{Is, SameFiles, SameElsewhere, HasCause};
ghost use Rattle.tough_vault.specs.Memory.{memory_files, memory_removals, memory_changes};

use crate::store::{Replaced, Store, StoreError};
use std::alloc::Global;
use std::collections::BTreeMap;

/// Files in memory.
#[derive(Drop)]
pub struct MemoryStore {
    alloc: Global,
    files: BTreeMap<String, Vec<u8>>,
    removals: u64,
    changes: u64,
}

impl MemoryStore {
    /// A store without files.
    pub fn new(alloc: Global) -> MemoryStore
        ensures { (name : List ℕ) → memory_files result name ≡ None }
    {
        MemoryStore {
            alloc,
            files: BTreeMap::new(alloc),
            removals: 0,
            changes: 0,
        }
    }

    /// Whether the file is there.
    pub fn holds(&self, name: &str) -> bool
        ensures { result ≡ is_some (memory_files self.now name.now) }
    {
        self.files.contains_key(name)
    }

    // Puts the bytes into the file of the name.
    fn fill(&mut self, name: &str, bytes: &[u8]) -> Result<(), StoreError>
        ensures written { OnOk result (memory_files self.new name.now ≡ Is bytes.now) }
        ensures elsewhere { SameElsewhere name.now (memory_files self.old)
            (memory_files self.new) }
        ensures memory { IsErrOf result StoreError.Memory
            → SameFiles (memory_files self.old) (memory_files self.new) }
        ensures cause { HasCause 0 0 result }
        ensures changes { memory_changes self.new ≡ memory_changes self.old }
        ensures removals { memory_removals self.new ≡ memory_removals self.old }
    {
        let Ok(copy) = bytes.to_vec(self.alloc) else {
            return Err(StoreError::Memory);
        };
        let Ok(key) = String::from_str(self.alloc, name) else {
            return Err(StoreError::Memory);
        };
        match self.files.insert(key, copy) {
            Ok(_) => Ok(()),
            Err(_) => Err(StoreError::Memory),
        }
    }

    // Takes the file of the name away, if there is one.
    fn take_away(&mut self, name: &str)
        ensures removed { memory_files self.new name.now ≡ None }
        ensures elsewhere { SameElsewhere name.now (memory_files self.old)
            (memory_files self.new) }
        ensures changes { memory_changes self.new ≡ memory_changes self.old }
        ensures counted { memory_removals self.new ≡ (memory_removals self.old + 1) % 2 ^ 64 }
    {
        self.removals = self.removals.wrapping_add(1);
        self.files.remove(name);
    }
}

impl Store for MemoryStore {
    ghost tells = { true };

    ghost files = { memory_files };

    ghost count = { λ s. 0 };

    ghost removals = { memory_removals };

    ghost changes = { memory_changes };

    fn read(&mut self, alloc: Global, name: &str) -> Result<Option<Vec<u8>>, StoreError> {
        let Some(bytes) = self.files.get(name) else {
            return Ok(None);
        };
        match bytes.to_vec(alloc) {
            Ok(copy) => Ok(Some(copy)),
            Err(_) => Err(StoreError::Memory),
        }
    }

    fn write(&mut self, name: &str, bytes: &[u8]) -> Result<(), StoreError> {
        self.changes = self.changes.wrapping_add(1);
        self.fill(name, bytes)
    }

    fn remove(&mut self, name: &str) -> Result<(), StoreError> {
        self.changes = self.changes.wrapping_add(1);
        self.take_away(name);
        Ok(())
    }

    fn replace(&mut self, name: &str, bytes: &[u8], first: &str, second: &str) -> Replaced {
        self.changes = self.changes.wrapping_add(1);
        if let Err(error) = self.fill(name, bytes) {
            return Replaced::Unwritten(error);
        }
        self.take_away(first);
        self.take_away(second);
        Replaced::Written(Ok(()), Ok(()))
    }

    fn failures(&self) -> u64 {
        0
    }
}
