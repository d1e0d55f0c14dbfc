//! A store over a folder.
ghost use Rattle.std.specs.Prelude.{◌≡◌, ◌⊎◌, ℕ, false, ◌+◌, ◌%◌, ◌^◌, ◌<◌, ◌≤◌, ◌↔◌, length, Some, None, IsTrue, string_bytes};
ghost use Rattle.tough_vault.specs.Stored.{HasCause};
ghost use Rattle.tough_vault.specs.Replacing.{Replaces, removals_after, failures_after};
ghost use Rattle.tough_vault.specs.declared.store.Replaced.TheVariants.{Unwritten};
ghost use Rattle.tough_vault.specs.Folder.{folder_of, no_files, runtime_of, store_failures, removals_of, changes_of, last_fault, KeepsFault, KeepsFaultOf, IsFileName};

use crate::held::{
    Finished, Held, begin, check_place, finish, hold, path_in, put, read_file, sync, take_away,
};
use crate::store::{Replaced, Store, StoreError};
use std::alloc::{AllocGlobal, Global};
use std::fs::File;
use std::io::ErrorKind;
use std::{io, rt};

// How many bytes a file's name may have: more than the systems' files do.
const LONGEST_NAME: usize = 255;

// What is said of a store that is to be changed and has no folder.
const MISSING: &str = "the store's folder is missing";

/// A store whose files stand in a folder, which must be there. It tells nothing, since others may write there.
///
/// **One store serves one repository.** The next load begins at the root that the store holds, whatever root is handed in.
/// An operator who has to begin anew (another repository, a root whose keys were stolen) removes the folder's files while
/// no process uses it; what is lost is the guard against versions older than those that were accepted.
///
/// The store is for one process at a time: the first call locks the file `+lock` of the folder, and the lock lasts as long
/// as the store, or until its process ends. While another store has it, each call fails, changes nothing, and keeps a fault
/// that says so. A load holds the lock over its fetches, so a slow mirror keeps other processes waiting. A folder that is
/// removed or replaced meanwhile makes each call fail.
///
/// A file is replaced so that a process that dies leaves the old content or the new one: the bytes are written to a new
/// file of the folder, `+new` and a number, and synced, then that is renamed, and the folder synced. `replace` notes what it
/// is to do in the file `+redo` first: whoever locks the folder next finishes it, and removes what processes that died left of
/// files named `+new` and a number. All that a store makes can be read and written by its owner alone.
///
/// No file has an empty name, the name `.` or `..`, a name that begins with `+`, or a name with a slash: `read` gives none,
/// `remove` succeeds, and `write` and `replace` fail. A name of more than 255 bytes is passed over, since no file can have it:
/// `write` succeeds, and nothing is stored; `replace` fails.
#[derive(Drop)]
pub struct DirStore<R> {
    rt: R,
    folder: String,
    failures: u64,
    fault: Option<io::Error>,
    removals: u64,
    changes: u64,
    // The folder, once it is locked.
    held: Option<Held>,
}

impl<R: rt::Files<File = File> + AllocGlobal + Clone + Drop> DirStore<R> {
    /// The store over this folder, which the runtime reaches. No failure is counted yet.
    pub fn new(rt: R, folder: String) -> DirStore<R>
        ensures runtime { runtime_of result ≡ rt }
        ensures folder { folder_of result ≡ string_bytes folder }
        ensures failures { store_failures result ≡ 0 }
        ensures fault { last_fault result ≡ None }
    {
        DirStore {
            rt,
            folder,
            failures: 0,
            fault: None,
            removals: 0,
            changes: 0,
            held: None,
        }
    }

    /// What the operating system said when a call last failed, if one did.
    pub fn into_fault(self) -> Option<io::Error>
        ensures { result ≡ last_fault self }
    {
        self.fault
    }

    // Counts a failure, and keeps what was said of it.
    fn fail(&mut self, error: io::Error) -> StoreError
        ensures result { result ≡ StoreError.Failed }
        ensures count { store_failures self.new ≡ (store_failures self.old + 1) % 2 ^ 64 }
        ensures kept { last_fault self.new ≡ Some error }
        ensures removals { removals_of self.new ≡ removals_of self.old }
        ensures changes { changes_of self.new ≡ changes_of self.old }
    {
        self.failures = self.failures.wrapping_add(1);
        self.fault = Some(error);
        StoreError::Failed
    }

    // What a call answers that changed nothing.
    fn refuse<T: Drop>(&mut self, error: io::Error) -> Result<T, StoreError>
        ensures cause { HasCause (store_failures self.old) (store_failures self.new) result }
        ensures kept { KeepsFault (last_fault self.old) (last_fault self.new) result }
        ensures removals { removals_of self.new ≡ removals_of self.old }
        ensures changes { changes_of self.new ≡ changes_of self.old }
    {
        if error.kind() == ErrorKind::OutOfMemory {
            return Err(StoreError::Memory);
        }
        Err(self.fail(error))
    }

    // What a call answers whose change may have been made.
    fn outcome(&mut self, outcome: io::Result<()>) -> Result<(), StoreError>
        ensures cause { HasCause (store_failures self.old) (store_failures self.new) result }
        ensures kept { KeepsFault (last_fault self.old) (last_fault self.new) result }
        ensures removals { removals_of self.new ≡ removals_of self.old }
        ensures changes { changes_of self.new ≡ changes_of self.old }
    {
        match outcome {
            Ok(()) => Ok(()),
            Err(e) => Err(self.fail(e)),
        }
    }

    // What a change answers that was noted.
    fn told(&mut self, done: Finished) -> Replaced
        ensures counts { store_failures self.new
            ≡ failures_after result (store_failures self.old) }
        ensures counted { removals_of self.new ≡ removals_after result (removals_of self.old) }
        ensures kept { KeepsFaultOf (last_fault self.old) (last_fault self.new) result }
        ensures changes { changes_of self.new ≡ changes_of self.old }
    {
        let Finished {
            written,
            first,
            second,
        } = done;
        if let Err(e) = written {
            return Replaced::Unwritten(self.fail(e));
        }
        self.removals = self.removals.wrapping_add(2);
        let first = self.outcome(first);
        let second = self.outcome(second);
        Replaced::Written(first, second)
    }

    // Locks the folder for this store, unless it has the lock already; and whether there is a folder.
    fn take_hold(&mut self) -> io::Result<bool>
        ensures count { store_failures self.new ≡ store_failures self.old }
        ensures fault { last_fault self.new ≡ last_fault self.old }
        ensures removals { removals_of self.new ≡ removals_of self.old }
        ensures changes { changes_of self.new ≡ changes_of self.old }
    {
        if let Some(held) = &self.held {
            check_place(&self.rt, held)?;
            return Ok(true);
        }
        self.held = hold(&self.rt, self.folder.as_str())?;
        Ok(self.held.is_some())
    }

    // Locks the folder, which must be there for a change.
    fn take_hold_to_change(&mut self) -> io::Result<()>
        ensures count { store_failures self.new ≡ store_failures self.old }
        ensures fault { last_fault self.new ≡ last_fault self.old }
        ensures removals { removals_of self.new ≡ removals_of self.old }
        ensures changes { changes_of self.new ≡ changes_of self.old }
    {
        if self.take_hold()? {
            Ok(())
        } else {
            Err(io::Error::new(ErrorKind::NotFound, MISSING))
        }
    }

    // The bytes of the file, if it is there.
    fn found(&mut self, alloc: Global, name: &str) -> io::Result<Option<Vec<u8>>>
        ensures count { store_failures self.new ≡ store_failures self.old }
        ensures fault { last_fault self.new ≡ last_fault self.old }
        ensures removals { removals_of self.new ≡ removals_of self.old }
        ensures changes { changes_of self.new ≡ changes_of self.old }
    {
        if !self.take_hold()? {
            return Ok(None);
        }
        let path = path_in(self.rt.alloc(), self.folder.as_str(), name)?;
        read_file(&self.rt, alloc, path.as_str())
    }

    // Gives the file its bytes, not yet synced in the folder. Where it fails, nothing has changed.
    fn put_file(&mut self, name: &str, bytes: &[u8]) -> io::Result<()>
        ensures count { store_failures self.new ≡ store_failures self.old }
        ensures fault { last_fault self.new ≡ last_fault self.old }
        ensures removals { removals_of self.new ≡ removals_of self.old }
        ensures changes { changes_of self.new ≡ changes_of self.old }
    {
        self.take_hold_to_change()?;
        let path = path_in(self.rt.alloc(), self.folder.as_str(), name)?;
        put(&self.rt, self.folder.as_str(), path.as_str(), bytes)
    }

    // Removes the file, not yet synced in the folder. Where it fails, nothing has changed.
    fn remove_file(&mut self, name: &str) -> io::Result<()>
        ensures count { store_failures self.new ≡ store_failures self.old }
        ensures fault { last_fault self.new ≡ last_fault self.old }
        ensures removals { removals_of self.new ≡ removals_of self.old }
        ensures changes { changes_of self.new ≡ changes_of self.old }
    {
        if !self.take_hold()? {
            return Ok(());
        }
        let path = path_in(self.rt.alloc(), self.folder.as_str(), name)?;
        take_away(&self.rt, path.as_str())
    }

    // Waits until the folder is as it was left.
    fn sync_folder(&self) -> io::Result<()> {
        match &self.held {
            Some(held) => sync(held),
            None => Ok(()),
        }
    }

    // Writes a file and removes two others, in one change.
    fn change(&mut self, names: &[&str; 3], bytes: &[u8]) -> Replaced
        ensures counts { store_failures self.new
            ≡ failures_after result (store_failures self.old) }
        ensures counted { removals_of self.new ≡ removals_after result (removals_of self.old) }
        ensures kept { KeepsFaultOf (last_fault self.old) (last_fault self.new) result }
        ensures changes { changes_of self.new ≡ changes_of self.old }
    {
        match self.carry_out(names, bytes) {
            Ok(done) => self.told(done),
            Err(e) if e.kind() == ErrorKind::OutOfMemory => {
                Replaced::Unwritten(StoreError::Memory)
            }
            Err(e) => Replaced::Unwritten(self.fail(e)),
        }
    }

    // Notes a change that writes a file and removes two others, and carries it out. Where it isn't finished, the folder is let go
    // of: the next call finishes it, of this store or of another.
    fn carry_out(&mut self, names: &[&str; 3], bytes: &[u8]) -> io::Result<Finished>
        ensures count { store_failures self.new ≡ store_failures self.old }
        ensures fault { last_fault self.new ≡ last_fault self.old }
        ensures removals { removals_of self.new ≡ removals_of self.old }
        ensures changes { changes_of self.new ≡ changes_of self.old }
    {
        self.take_hold_to_change()?;
        let Some(held) = &self.held else {
            return Err(io::Error::new(ErrorKind::NotFound, MISSING));
        };
        let change = begin(&self.rt, self.folder.as_str(), held, names, bytes)?;
        let done = finish(&self.rt, held, &change);
        if done.written.is_err() || done.first.is_err() || done.second.is_err() {
            self.held = None;
        }
        Ok(done)
    }
}

// Whether a file of the store may have this name.
fn is_plain(name: &str) -> bool
    ensures { IsTrue result ↔ IsFileName name.now }
{
    !name.is_empty()
        && name != "."
        && name != ".."
        && !name.starts_with("+")
        && !name.as_bytes().contains(&b'/')
        && name.len() <= LONGEST_NAME
}

impl<R: rt::Files<File = File> + AllocGlobal + Clone + Drop> Store for DirStore<R> {
    ghost tells = { false };

    ghost files = { no_files };

    ghost count = { store_failures };

    ghost removals = { removals_of };

    ghost changes = { changes_of };

    fn read(&mut self, alloc: Global, name: &str) -> Result<Option<Vec<u8>>, StoreError>
        ensures none { (IsFileName name.now → ⊥) → result ≡ Ok None }
        ensures unchanged { changes_of self.new ≡ changes_of self.old }
        ensures unremoved { removals_of self.new ≡ removals_of self.old }
        ensures cause { HasCause (store_failures self.old) (store_failures self.new) result }
        ensures kept { KeepsFault (last_fault self.old) (last_fault self.new) result }
    {
        if !is_plain(name) {
            return Ok(None);
        }
        match self.found(alloc, name) {
            Ok(found) => Ok(found),
            Err(e) => self.refuse(e),
        }
    }

    fn write(&mut self, name: &str, bytes: &[u8]) -> Result<(), StoreError>
        ensures passed { 255 < length name.now → result ≡ Ok tt }
        ensures refused { length name.now ≤ 255 → (IsFileName name.now → ⊥)
            → result ≡ Err StoreError.Failed }
        ensures once { changes_of self.new ≡ (changes_of self.old + 1) % 2 ^ 64 }
        ensures cause { HasCause (store_failures self.old) (store_failures self.new) result }
        ensures kept { KeepsFault (last_fault self.old) (last_fault self.new) result }
    {
        self.changes = self.changes.wrapping_add(1);
        if name.len() > LONGEST_NAME {
            return Ok(());
        }
        if !is_plain(name) {
            return Err(self.fail(io::Error::from(ErrorKind::InvalidInput)));
        }
        if let Err(e) = self.put_file(name, bytes) {
            return self.refuse(e);
        }
        let synced = self.sync_folder();
        self.outcome(synced)
    }

    fn remove(&mut self, name: &str) -> Result<(), StoreError>
        ensures counted { removals_of self.new ≡ (removals_of self.old + 1) % 2 ^ 64 }
        ensures once { changes_of self.new ≡ (changes_of self.old + 1) % 2 ^ 64 }
        ensures absent { (IsFileName name.now → ⊥) → result ≡ Ok tt }
        ensures cause { HasCause (store_failures self.old) (store_failures self.new) result }
        ensures kept { KeepsFault (last_fault self.old) (last_fault self.new) result }
    {
        self.changes = self.changes.wrapping_add(1);
        self.removals = self.removals.wrapping_add(1);
        if !is_plain(name) {
            return Ok(());
        }
        if let Err(e) = self.remove_file(name) {
            return self.refuse(e);
        }
        let synced = self.sync_folder();
        self.outcome(synced)
    }

    fn replace(&mut self, name: &str, bytes: &[u8], first: &str, second: &str) -> Replaced
        ensures replaced { Replaces false no_files store_failures name.now bytes.now first.now
            second.now self.old self.new result }
        ensures refused { (IsFileName name.now → ⊥) ⊎ (IsFileName first.now → ⊥)
            ⊎ (IsFileName second.now → ⊥) → result ≡ Unwritten StoreError.Failed }
        ensures once { changes_of self.new ≡ (changes_of self.old + 1) % 2 ^ 64 }
        ensures counted { removals_of self.new ≡ removals_after result (removals_of self.old) }
        ensures kept { KeepsFaultOf (last_fault self.old) (last_fault self.new) result }
    {
        self.changes = self.changes.wrapping_add(1);
        if !is_plain(name) || !is_plain(first) || !is_plain(second) {
            return Replaced::Unwritten(self.fail(io::Error::from(ErrorKind::InvalidInput)));
        }
        self.change(&[name, first, second], bytes)
    }

    fn failures(&self) -> u64 {
        self.failures
    }
}
