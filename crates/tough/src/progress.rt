//! The progress of a target, printed while it is saved.

ghost use Rattle.std.specs.Prelude.{◌≡◌};
ghost use Rattle.tough.specs.Watching.{files_in};

use std::io::Write;
use std::time::{Clock, Duration};
use tough_files::{FileKind, Files, FilesError};

// The least time between two tellings, in milliseconds, so that there are at most ten a second.
const PAUSE: u64 = 100;

// Tells how many bytes of a target there are, on one line that is written over and over, or nothing.
#[derive(Drop)]
struct Progress<R, E> {
    clock: R,
    // Where it is told.
    err: Option<E>,
    // The bytes so far.
    bytes: u64,
    // The length that is listed, in bytes.
    length: u64,
    // When it was last told.
    last: Option<Duration>,
}

impl<R: Clock, E: Write> Progress<R, E> {
    // There are so many bytes more. Tells how many there are, where that wasn't told just now.
    fn add(&mut self, bytes: usize) {
        self.bytes = self.bytes.saturating_add(bytes as u64);
        let Some(err) = &mut self.err else {
            return;
        };
        let Ok(now) = self.clock.monotonic() else {
            return;
        };
        if let Some(last) = self.last {
            if now.saturating_sub(last) < Duration::from_millis(PAUSE) {
                return;
            }
        }
        self.last = Some(now);
        // (what can't be told changes nothing)
        let _ = write!(err, "\r{} of {} bytes", self.bytes, self.length);
    }
}

/// Files that tell how many bytes of a target they have appended, on one line that is written over and over, or tell nothing. As files they are
/// those that they were made of.
#[derive(Drop)]
pub struct Watched<F, R, E> {
    files: F,
    progress: Progress<R, E>,
}

impl<F, R: Clock, E: Write> Watched<F, R, E> {
    /// The files, to which nothing of the target has been appended yet, whose length in bytes is listed so; without `err` they tell nothing.
    pub fn new(files: F, clock: R, err: Option<E>, length: u64) -> Watched<F, R, E>
        ensures { files_in result ≡ files }
    {
        Watched {
            files,
            progress: Progress {
                clock,
                err,
                bytes: 0,
                length,
                last: None,
            },
        }
    }

    /// The files themselves.
    pub fn files(&self) -> &F
        ensures { result.now ≡ files_in self.now }
    {
        &self.files
    }

    /// Ends the line, where one was begun.
    pub fn finish(&mut self)
        ensures { files_in self.new ≡ files_in self.old }
    {
        if self.progress.last.is_some() {
            if let Some(err) = &mut self.progress.err {
                let _ = writeln!(
                    err,
                    "\r{} of {} bytes",
                    self.progress.bytes, self.progress.length
                );
            }
        }
    }
}

impl<F: Files, R: Clock, E: Write> Files for Watched<F, R, E> {
    ghost tells = { F.tells };

    ghost contents = { λ w. F.contents (files_in w) };

    ghost calls = { λ w. F.calls (files_in w) };

    ghost count = { λ w. F.count (files_in w) };

    fn kind(&mut self, path: &str, follow: bool) -> Result<FileKind, FilesError> {
        self.files.kind(path, follow)
    }

    fn read(&mut self, path: &str, from: u64, buf: &mut [u8]) -> Result<usize, FilesError> {
        self.files.read(path, from, buf)
    }

    fn create(&mut self, path: &str) -> Result<(), FilesError> {
        self.files.create(path)
    }

    fn create_temp(&mut self, folder: &str) -> Result<String, FilesError> {
        self.files.create_temp(folder)
    }

    fn append(&mut self, path: &str, bytes: &[u8]) -> Result<(), FilesError> {
        let done = self.files.append(path, bytes);
        if done.is_ok() {
            self.progress.add(bytes.len());
        }
        done
    }

    fn rename(&mut self, from: &str, to: &str) -> Result<(), FilesError> {
        self.files.rename(from, to)
    }

    fn copy(&mut self, from: &str, to: &str) -> Result<(), FilesError> {
        self.files.copy(from, to)
    }

    fn link(&mut self, original: &str, path: &str) -> Result<(), FilesError> {
        self.files.link(original, path)
    }

    fn remove(&mut self, path: &str) -> Result<(), FilesError> {
        self.files.remove(path)
    }

    fn make_folders(&mut self, path: &str) -> Result<(), FilesError> {
        self.files.make_folders(path)
    }

    fn canonical(&mut self, path: &str) -> Result<String, FilesError> {
        self.files.canonical(path)
    }

    fn list(&mut self, path: &str) -> Result<Vec<String>, FilesError> {
        self.files.list(path)
    }

    fn failures(&self) -> u64 {
        self.files.failures()
    }
}
