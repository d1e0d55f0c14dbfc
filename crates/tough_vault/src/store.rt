//! Where documents are kept: files by name, as a device of the caller's.
ghost use Rattle.std.specs.Prelude.{◌≡◌, ℕ, ◌+◌, ◌%◌, ◌^◌, List, Option, Bool, true, IfOk, OnOk, IsErrOf};
ghost use Rattle.tough_checks.specs.StoredDocuments.{content};
ghost use Rattle.tough_vault.specs.Stored.{Files, Is, SameFiles, SameElsewhere, HasCause};
ghost use Rattle.tough_vault.specs.Replacing.{Replaces, removals_after};

use std::alloc::Global;

/// Files by name. A store that tells nothing promises nothing of them.
///
/// One store serves one repository: what it holds is where the next load begins.
pub trait Store {
    /// Whether the store tells its files.
    ghost tells: { Bool };

    /// The files, where it tells them.
    ghost files: { Self → Files };

    /// How often the device failed, modulo 2^64.
    ghost count: { Self → ℕ };

    /// How often a file was to be removed, modulo 2^64.
    ghost removals: { Self → ℕ };

    /// How often a file was to be changed, modulo 2^64: each call of `write`, `remove` and `replace` is one.
    ghost changes: { Self → ℕ };

    /// The file's bytes, if it is there.
    fn read(&mut self, alloc: Global, name: &str) -> Result<Option<Vec<u8>>, StoreError>
        ensures found { IfOk result
            (λ found. tells ≡ true → content found ≡ files self.old name.now) }
        ensures same { tells ≡ true → SameFiles (files self.old) (files self.new) }
        ensures unchanged { changes self.new ≡ changes self.old }
        ensures unremoved { removals self.new ≡ removals self.old }
        ensures cause { HasCause (count self.old) (count self.new) result };

    /// Replaces the whole file. After `Failed` it may hold anything or be missing; after `Memory` nothing has changed.
    fn write(&mut self, name: &str, bytes: &[u8]) -> Result<(), StoreError>
        ensures once { changes self.new ≡ (changes self.old + 1) % 2 ^ 64 }
        ensures written { OnOk result (tells ≡ true → files self.new name.now ≡ Is bytes.now) }
        ensures elsewhere { tells ≡ true
            → SameElsewhere name.now (files self.old) (files self.new) }
        ensures memory { IsErrOf result StoreError.Memory → tells ≡ true
            → SameFiles (files self.old) (files self.new) }
        ensures cause { HasCause (count self.old) (count self.new) result };

    /// A file that is missing is removed already.
    fn remove(&mut self, name: &str) -> Result<(), StoreError>
        ensures once { changes self.new ≡ (changes self.old + 1) % 2 ^ 64 }
        ensures counted { removals self.new ≡ (removals self.old + 1) % 2 ^ 64 }
        ensures removed { OnOk result (tells ≡ true → files self.new name.now ≡ None) }
        ensures elsewhere { tells ≡ true
            → SameElsewhere name.now (files self.old) (files self.new) }
        ensures memory { IsErrOf result StoreError.Memory → tells ≡ true
            → SameFiles (files self.old) (files self.new) }
        ensures cause { HasCause (count self.old) (count self.new) result };

    /// Replaces the whole file, and then removes two others: as `write`, and, where that succeeded, as `remove` of each,
    /// the second also where the first failed.
    ///
    /// The call is one change: a store whose files outlive its process leaves the files as they were before the call, or
    /// as a call that succeeds leaves them, wherever the process ended.
    fn replace(&mut self, name: &str, bytes: &[u8], first: &str, second: &str) -> Replaced
        ensures replaced { Replaces tells files count name.now bytes.now first.now second.now
            self.old self.new result }
        ensures once { changes self.new ≡ (changes self.old + 1) % 2 ^ 64 }
        ensures counted { removals self.new ≡ removals_after result (removals self.old) };

    /// How often the device failed, modulo 2^64.
    fn failures(&self) -> u64
        ensures { result ≡ count self.now };
}

/// Why a store didn't do what it was asked.
#[derive(Clone, Copy, Debug, PartialEq, Eq, Drop, thiserror::Error)]
pub enum StoreError {
    /// The device failed.
    #[error("the store failed")]
    Failed,
    /// A request for memory was refused.
    #[error("out of memory")]
    Memory,
}

/// What became of a file that was to be replaced, and of two that were then to be removed.
#[derive(Clone, Copy, Debug, PartialEq, Eq, Drop)]
pub enum Replaced {
    /// The file was not written, and so nothing was removed.
    Unwritten(StoreError),
    /// The file was written, and both removals were tried: the outcome of the first, and of the second.
    Written(Result<(), StoreError>, Result<(), StoreError>),
}
