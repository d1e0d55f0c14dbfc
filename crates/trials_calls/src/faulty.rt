//! Files in memory that fail once, as a case asks.

ghost use Rattle.std.specs.Prelude.{◌≡◌, ◌+◌, ◌%◌, ◌^◌};
ghost use Rattle.tough_files.specs.declared.files.FilesError.TheVariants.{Failed};

use tough_files::{Call, FileKind, Files, FilesError, MemoryFiles};

/// Files in memory of which one call fails, and the calls after it don't. They don't say what they hold.
#[derive(Drop)]
pub struct FaultyFiles {
    files: MemoryFiles,
    // How many calls come before the one that fails, while it is still to come.
    left: Option<u64>,
    failures: u64,
}

impl FaultyFiles {
    /// The files, of which a call fails after so many others.
    pub fn new(files: MemoryFiles, left: u64) -> FaultyFiles {
        FaultyFiles {
            files,
            left: Some(left),
            failures: 0,
        }
    }

    /// The calls that did not fail of themselves.
    pub fn calls(&self) -> &[Call] {
        self.files.calls()
    }

    // Whether the next call fails of itself.
    fn is_faulty(&mut self) -> bool
        ensures { self.new.failures ≡ self.old.failures }
    {
        match self.left {
            Some(0) => {
                self.left = None;
                true
            }
            Some(left) => {
                self.left = Some(left - 1);
                false
            }
            None => false,
        }
    }

    // Counts a failure.
    fn fail(&mut self) -> FilesError
        ensures error { result ≡ Failed }
        ensures count { self.new.failures ≡ (self.old.failures + 1) % 2 ^ 64 }
    {
        self.failures = self.failures.wrapping_add(1);
        FilesError::Failed
    }
}

impl Files for FaultyFiles {
    ghost use Rattle.std.specs.Prelude.{false, None, []};

    ghost tells = { false };

    ghost contents = { λ _ _. None };

    ghost calls = { λ _. [] };

    ghost count = { λ s. s.failures };

    fn kind(&mut self, path: &str, follow: bool) -> Result<FileKind, FilesError> {
        if self.is_faulty() {
            return Err(self.fail());
        }
        match self.files.kind(path, follow) {
            Ok(found) => Ok(found),
            Err(FilesError::Failed) => Err(self.fail()),
            Err(FilesError::NotFound) => Err(FilesError::NotFound),
            Err(FilesError::Memory) => Err(FilesError::Memory),
        }
    }

    fn read(&mut self, path: &str, from: u64, buf: &mut [u8]) -> Result<usize, FilesError> {
        if self.is_faulty() {
            return Err(self.fail());
        }
        match self.files.read(path, from, buf) {
            Ok(found) => Ok(found),
            Err(FilesError::Failed) => Err(self.fail()),
            Err(FilesError::NotFound) => Err(FilesError::NotFound),
            Err(FilesError::Memory) => Err(FilesError::Memory),
        }
    }

    fn create(&mut self, path: &str) -> Result<(), FilesError> {
        if self.is_faulty() {
            return Err(self.fail());
        }
        match self.files.create(path) {
            Ok(()) => Ok(()),
            Err(FilesError::Failed) => Err(self.fail()),
            Err(FilesError::NotFound) => Err(FilesError::NotFound),
            Err(FilesError::Memory) => Err(FilesError::Memory),
        }
    }

    fn create_temp(&mut self, folder: &str) -> Result<String, FilesError> {
        if self.is_faulty() {
            return Err(self.fail());
        }
        match self.files.create_temp(folder) {
            Ok(found) => Ok(found),
            Err(FilesError::Failed) => Err(self.fail()),
            Err(FilesError::NotFound) => Err(FilesError::NotFound),
            Err(FilesError::Memory) => Err(FilesError::Memory),
        }
    }

    fn append(&mut self, path: &str, bytes: &[u8]) -> Result<(), FilesError> {
        if self.is_faulty() {
            return Err(self.fail());
        }
        match self.files.append(path, bytes) {
            Ok(()) => Ok(()),
            Err(FilesError::Failed) => Err(self.fail()),
            Err(FilesError::NotFound) => Err(FilesError::NotFound),
            Err(FilesError::Memory) => Err(FilesError::Memory),
        }
    }

    fn rename(&mut self, from: &str, to: &str) -> Result<(), FilesError> {
        if self.is_faulty() {
            return Err(self.fail());
        }
        match self.files.rename(from, to) {
            Ok(()) => Ok(()),
            Err(FilesError::Failed) => Err(self.fail()),
            Err(FilesError::NotFound) => Err(FilesError::NotFound),
            Err(FilesError::Memory) => Err(FilesError::Memory),
        }
    }

    fn copy(&mut self, from: &str, to: &str) -> Result<(), FilesError> {
        if self.is_faulty() {
            return Err(self.fail());
        }
        match self.files.copy(from, to) {
            Ok(()) => Ok(()),
            Err(FilesError::Failed) => Err(self.fail()),
            Err(FilesError::NotFound) => Err(FilesError::NotFound),
            Err(FilesError::Memory) => Err(FilesError::Memory),
        }
    }

    fn link(&mut self, original: &str, path: &str) -> Result<(), FilesError> {
        if self.is_faulty() {
            return Err(self.fail());
        }
        match self.files.link(original, path) {
            Ok(()) => Ok(()),
            Err(FilesError::Failed) => Err(self.fail()),
            Err(FilesError::NotFound) => Err(FilesError::NotFound),
            Err(FilesError::Memory) => Err(FilesError::Memory),
        }
    }

    fn remove(&mut self, path: &str) -> Result<(), FilesError> {
        if self.is_faulty() {
            return Err(self.fail());
        }
        match self.files.remove(path) {
            Ok(()) => Ok(()),
            Err(FilesError::Failed) => Err(self.fail()),
            Err(FilesError::NotFound) => Err(FilesError::NotFound),
            Err(FilesError::Memory) => Err(FilesError::Memory),
        }
    }

    fn make_folders(&mut self, path: &str) -> Result<(), FilesError> {
        if self.is_faulty() {
            return Err(self.fail());
        }
        match self.files.make_folders(path) {
            Ok(()) => Ok(()),
            Err(FilesError::Failed) => Err(self.fail()),
            Err(FilesError::NotFound) => Err(FilesError::NotFound),
            Err(FilesError::Memory) => Err(FilesError::Memory),
        }
    }

    fn canonical(&mut self, path: &str) -> Result<String, FilesError> {
        if self.is_faulty() {
            return Err(self.fail());
        }
        match self.files.canonical(path) {
            Ok(found) => Ok(found),
            Err(FilesError::Failed) => Err(self.fail()),
            Err(FilesError::NotFound) => Err(FilesError::NotFound),
            Err(FilesError::Memory) => Err(FilesError::Memory),
        }
    }

    fn list(&mut self, path: &str) -> Result<Vec<String>, FilesError> {
        if self.is_faulty() {
            return Err(self.fail());
        }
        match self.files.list(path) {
            Ok(found) => Ok(found),
            Err(FilesError::Failed) => Err(self.fail()),
            Err(FilesError::NotFound) => Err(FilesError::NotFound),
            Err(FilesError::Memory) => Err(FilesError::Memory),
        }
    }

    fn failures(&self) -> u64 {
        self.failures
    }
}
