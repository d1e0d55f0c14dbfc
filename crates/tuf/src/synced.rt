//! Files that are on the disk once they have their names.

ghost use Rattle.std.specs.Prelude.{◌≡◌, ◌+◌, ◌%◌, ◌^◌, false, None, []};

use crate::files::{fresh_path, split};
use crate::host::Host;
use std::fs::OpenOptions;
use std::io::{ErrorKind, Write};
use std::{fs, io};
use tough::{FileKind, Files, FilesError};

/// The system's files, of which each is synced as it is written, and the folder where it gets its name. They are written alone: all other calls
/// fail.
#[derive(Drop)]
pub(crate) struct Synced<R> {
    rt: R,
    failures: u64,
    fault: Option<io::Error>,
}

// Makes an empty file where nothing stands.
fn make<R: Host>(rt: &R, path: &str) -> io::Result<()> {
    OpenOptions::new()
        .write(true)
        .create_new(true)
        .open(rt, path)?
        .sync_all()
}

// Appends to a file, and waits until the bytes are there.
fn append<R: Host>(rt: &R, path: &str, bytes: &[u8]) -> io::Result<()> {
    let mut file = OpenOptions::new().append(true).open(rt, path)?;
    file.write_all(bytes)?;
    file.sync_all()
}

// Moves a file, and waits until the folder has its name.
fn rename<R: Host>(rt: &R, from: &str, to: &str) -> io::Result<()> {
    fs::rename(rt, from, to)?;
    let (folder, _) = split(to);
    fs::open(rt, folder)?.sync_all()
}

impl<R: Host> Synced<R> {
    /// The files that the runtime reaches.
    pub(crate) fn new(rt: R) -> Synced<R> {
        Synced {
            rt,
            failures: 0,
            fault: None,
        }
    }

    /// What the system said when a call last failed.
    pub(crate) fn into_fault(self) -> Option<io::Error> {
        self.fault
    }

    // Counts a failure.
    fn fail(&mut self, error: io::Error) -> FilesError
        ensures result { result ≡ FilesError.Failed }
        ensures count { self.new.failures ≡ (self.old.failures + 1) % 2 ^ 64 }
    {
        self.failures = self.failures.wrapping_add(1);
        self.fault = Some(error);
        FilesError::Failed
    }

    // A call that isn't for writing.
    fn refuse(&mut self) -> FilesError
        ensures result { result ≡ FilesError.Failed }
        ensures count { self.new.failures ≡ (self.old.failures + 1) % 2 ^ 64 }
    {
        self.fail(io::Error::from(ErrorKind::Unsupported))
    }
}

impl<R: Host> Files for Synced<R> {
    ghost tells = { false };

    ghost contents = { λ _ _. None };

    ghost calls = { λ _. [] };

    ghost count = { λ s. s.failures };

    fn kind(&mut self, _path: &str, _follow: bool) -> Result<FileKind, FilesError> {
        Err(self.refuse())
    }

    fn read(&mut self, _path: &str, _from: u64, _buf: &mut [u8]) -> Result<usize, FilesError> {
        Err(self.refuse())
    }

    fn create(&mut self, _path: &str) -> Result<(), FilesError> {
        Err(self.refuse())
    }

    fn create_temp(&mut self, folder: &str) -> Result<String, FilesError> {
        let Ok(path) = fresh_path(&self.rt, folder) else {
            return Err(self.refuse());
        };
        match make(&self.rt, path.as_str()) {
            Ok(()) => Ok(path),
            Err(error) => Err(self.fail(error)),
        }
    }

    fn append(&mut self, path: &str, bytes: &[u8]) -> Result<(), FilesError> {
        match append(&self.rt, path, bytes) {
            Ok(()) => Ok(()),
            Err(error) => Err(self.fail(error)),
        }
    }

    fn rename(&mut self, from: &str, to: &str) -> Result<(), FilesError> {
        match rename(&self.rt, from, to) {
            Ok(()) => Ok(()),
            Err(error) => Err(self.fail(error)),
        }
    }

    fn copy(&mut self, _from: &str, _to: &str) -> Result<(), FilesError> {
        Err(self.refuse())
    }

    fn link(&mut self, _original: &str, _path: &str) -> Result<(), FilesError> {
        Err(self.refuse())
    }

    fn remove(&mut self, path: &str) -> Result<(), FilesError> {
        match fs::remove_file(&self.rt, path) {
            Ok(()) => Ok(()),
            Err(error) => Err(self.fail(error)),
        }
    }

    fn make_folders(&mut self, _path: &str) -> Result<(), FilesError> {
        Err(self.refuse())
    }

    fn canonical(&mut self, _path: &str) -> Result<String, FilesError> {
        Err(self.refuse())
    }

    fn list(&mut self, _path: &str) -> Result<Vec<String>, FilesError> {
        Err(self.refuse())
    }

    fn failures(&self) -> u64 {
        self.failures
    }
}
