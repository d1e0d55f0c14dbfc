//! The files of the operating system, which tell nothing.
ghost use Rattle.std.specs.Prelude.{◌≡◌, ◌≢◌, ◌≤◌, ℕ, List, Some, None, IfOk, length, option_copied};
ghost use Rattle.tough_files.specs.declared.files.FilesError.TheVariants.{Memory};
ghost use Rattle.tough_files.specs.Calls.{refused, count_after, found_or, got_or, done_or, named_or, listed_or};
ghost use Rattle.tough_files.specs.System.{os_failures, last_fault, KeepsFault};

use crate::files::{FileKind, Files, FilesError};
use std::alloc::AllocGlobal;
use std::fs::{File, Metadata, OpenOptions};
use std::io::{ErrorKind, Read, Seek, SeekFrom, Write};
use std::os::unix::fs::symlink;
use std::path::Path;
use std::random::RandomSource;
use std::{fs, io, rt};

// How many names are tried for a temporary file.
const TEMP_TRIES: usize = 16;

// A file that was made and is still being written.
#[derive(Drop)]
struct Written {
    path: String,
    file: File,
}

/// The files of the operating system, reached through a runtime.
///
/// The empty path is the current folder. A path where nothing stands is `NotFound`; every other fault but out of memory is
/// `Failed`, and counts. A fifo, a socket or a device is neither read nor copied: it is refused before it is opened. A
/// temporary file has a name that can't be guessed. The file that was made last stays open until it is renamed or removed, so
/// that what is appended reaches that file, whatever stands at its path by then.
#[derive(Drop)]
pub struct OsFiles<R> {
    rt: R,
    failures: u64,
    fault: Option<io::Error>,
    written: Option<Written>,
}

impl<R: rt::Files<File = File> + RandomSource + AllocGlobal + Clone + Drop> OsFiles<R> {
    /// The files that the runtime reaches. No failure is counted yet.
    pub fn new(rt: R) -> OsFiles<R>
        ensures failures { os_failures result ≡ 0 }
        ensures fault { last_fault result ≡ None }
    {
        OsFiles {
            rt,
            failures: 0,
            fault: None,
            written: None,
        }
    }

    /// What the operating system said when a call last failed or found nothing, if one did.
    pub fn last_fault(&self) -> Option<&io::Error>
        ensures { option_copied result ≡ last_fault self.now }
    {
        self.fault.as_ref()
    }

    // The refusal for a fault of the system, which is kept. A request for memory that was refused is no fault of it; one
    // that the system refused itself is, since the call may have begun by then.
    fn fail(&mut self, error: io::Error) -> FilesError
        ensures failures { os_failures self.new
            ≡ count_after (refused result) (os_failures self.old) }
        ensures kept { result ≢ Memory → last_fault self.new ≡ Some error }
        ensures memory { result ≡ Memory → last_fault self.new ≡ last_fault self.old }
    {
        let refusal = match error.kind() {
            ErrorKind::NotFound => FilesError::NotFound,
            ErrorKind::OutOfMemory if error.raw_os_error().is_none() => return FilesError::Memory,
            _ => {
                self.failures = self.failures.wrapping_add(1);
                FilesError::Failed
            }
        };
        self.fault = Some(error);
        refusal
    }

    // Closes the file that is being written, where it stands at this path.
    fn close(&mut self, path: &str)
        ensures failures { os_failures self.new ≡ os_failures self.old }
        ensures fault { last_fault self.new ≡ last_fault self.old }
    {
        if let Some(written) = &self.written {
            if written.path.as_str() == path {
                self.written = None;
            }
        }
    }

    // Makes a file for writing, which stays open.
    fn make(&mut self, path: &str) -> io::Result<()>
        ensures failures { os_failures self.new ≡ os_failures self.old }
        ensures fault { last_fault self.new ≡ last_fault self.old }
    {
        let known = String::from_str(self.rt.alloc(), path)?;
        let file = fs::create(&self.rt, place(path))?;
        self.written = Some(Written { path: known, file });
        Ok(())
    }

    // Makes a file in the folder, which stays open, and gives its path.
    fn make_temp(&mut self, folder: &str) -> io::Result<String>
        ensures failures { os_failures self.new ≡ os_failures self.old }
        ensures fault { last_fault self.new ≡ last_fault self.old }
    {
        let (given, written) = create_in(&self.rt, folder)?;
        self.written = Some(written);
        Ok(given)
    }

    // Appends to the file that is open, or else to what stands at the path.
    fn write_at(&mut self, path: &str, bytes: &[u8]) -> io::Result<()>
        ensures failures { os_failures self.new ≡ os_failures self.old }
        ensures fault { last_fault self.new ≡ last_fault self.old }
    {
        if let Some(written) = &mut self.written {
            if written.path.as_str() == path {
                return written.file.write_all(bytes);
            }
        }
        let mut file = OpenOptions::new().append(true).open(&self.rt, place(path))?;
        file.write_all(bytes)
    }
}

// The path for the system, to which the empty one, the current folder, is none.
fn place(path: &str) -> &str {
    if path.is_empty() { "." } else { path }
}

// What the system says that a file is.
fn kind_of(metadata: &Metadata) -> FileKind {
    if metadata.is_file() {
        FileKind::File
    } else if metadata.is_dir() {
        FileKind::Folder
    } else if metadata.is_symlink() {
        FileKind::Link
    } else {
        FileKind::Other
    }
}

// Refuses a fifo, a socket and a device, which might never answer. The system itself refuses to read a folder.
fn refuse_special(files: &impl rt::Files, path: &str) -> io::Result<()> {
    let metadata = fs::metadata(files, path)?;
    if metadata.is_file() || metadata.is_dir() {
        Ok(())
    } else {
        Err(io::Error::new(ErrorKind::InvalidInput, "not a regular file"))
    }
}

fn read_at(files: &impl rt::Files, path: &str, from: u64, buf: &mut [u8]) -> io::Result<usize>
    ensures { IfOk result (λ n. n ≤ length buf.new) }
{
    refuse_special(files, path)?;
    let mut file = fs::open(files, path)?;
    file.seek(SeekFrom::Start(from))?;
    read_some(&mut file, buf)
}

fn copy_to(files: &impl rt::Files, from: &str, to: &str) -> io::Result<u64> {
    refuse_special(files, from)?;
    fs::copy(files, from, to)
}

// Reads once, and again where a signal came between.
fn read_some<F: Read>(file: &mut F, buf: &mut [u8]) -> io::Result<usize>
    ensures { IfOk result (λ n. n ≤ length buf.new) }
{
    for _ in 0..u64::MAX {
        match file.read(buf) {
            Ok(count) => return Ok(count),
            Err(e) if e.kind() == ErrorKind::Interrupted => {}
            Err(e) => return Err(e),
        }
    }
    Ok(0)
}

// A name for a temporary file: 128 random bits in hexadecimal digits, behind `.tmp`.
fn temp_name<R: RandomSource + AllocGlobal>(rt: &R) -> io::Result<String> {
    let mut bits = [0; 16];
    rt.fill_bytes(&mut bits)?;
    let number = u128::from_be_bytes(bits);
    Ok(format!(in rt.alloc(); ".tmp{number:032x}")?)
}

// Makes a file under a name that nothing has, and gives its path beside it.
fn create_in<R: rt::Files<File = File> + RandomSource + AllocGlobal>(
    rt: &R,
    folder: &str,
) -> io::Result<(String, Written)> {
    for _ in 0..TEMP_TRIES {
        let name = temp_name(rt)?;
        let path = Path::new(folder)
            .join(rt.alloc(), name.as_str())?
            .into_string();
        let given = path.clone()?;
        let made = OpenOptions::new()
            .write(true)
            .create_new(true)
            .open(rt, path.as_str());
        match made {
            Ok(file) => return Ok((given, Written { path, file })),
            Err(e) if e.kind() == ErrorKind::AlreadyExists => {}
            Err(e) => return Err(e),
        }
    }
    Err(io::Error::from(ErrorKind::AlreadyExists))
}

fn names_in<R: rt::Files + AllocGlobal + Clone + Drop>(
    files: &R,
    folder: &str,
) -> io::Result<Vec<String>> {
    let alloc = files.alloc();
    let mut names = Vec::new(alloc);
    for entry in fs::read_dir(files, folder)? {
        let entry = entry?;
        names.push(String::from_str(alloc, entry.file_name())?)?;
    }
    Ok(names)
}

impl<R: rt::Files<File = File> + RandomSource + AllocGlobal + Clone + Drop> Files for OsFiles<R> {
    ghost use Rattle.std.specs.Prelude.{false, None, []};

    ghost tells = { false };

    ghost contents = { λ _ _. None };

    ghost calls = { λ _. [] };

    ghost count = { os_failures };

    fn kind(&mut self, path: &str, follow: bool) -> Result<FileKind, FilesError>
        ensures count { os_failures self.new
            ≡ count_after (found_or result) (os_failures self.old) }
        ensures kept { KeepsFault (last_fault self.old) (last_fault self.new) result }
    {
        let found = if follow {
            fs::metadata(&self.rt, place(path))
        } else {
            fs::symlink_metadata(&self.rt, place(path))
        };
        match found {
            Ok(metadata) => Ok(kind_of(&metadata)),
            Err(e) => Err(self.fail(e)),
        }
    }

    fn read(&mut self, path: &str, from: u64, buf: &mut [u8]) -> Result<usize, FilesError>
        ensures len { IfOk result (λ n. n ≤ length buf.new) }
        ensures count { os_failures self.new
            ≡ count_after (got_or buf.new result) (os_failures self.old) }
        ensures kept { KeepsFault (last_fault self.old) (last_fault self.new) result }
    {
        match read_at(&self.rt, place(path), from, buf) {
            Ok(count) => Ok(count),
            Err(e) => Err(self.fail(e)),
        }
    }

    fn create(&mut self, path: &str) -> Result<(), FilesError>
        ensures count { os_failures self.new
            ≡ count_after (done_or result) (os_failures self.old) }
        ensures kept { KeepsFault (last_fault self.old) (last_fault self.new) result }
    {
        match self.make(path) {
            Ok(()) => Ok(()),
            Err(e) => Err(self.fail(e)),
        }
    }

    fn create_temp(&mut self, folder: &str) -> Result<String, FilesError>
        ensures count { os_failures self.new
            ≡ count_after (named_or result) (os_failures self.old) }
        ensures kept { KeepsFault (last_fault self.old) (last_fault self.new) result }
    {
        match self.make_temp(folder) {
            Ok(path) => Ok(path),
            Err(e) => Err(self.fail(e)),
        }
    }

    fn append(&mut self, path: &str, bytes: &[u8]) -> Result<(), FilesError>
        ensures count { os_failures self.new
            ≡ count_after (done_or result) (os_failures self.old) }
        ensures kept { KeepsFault (last_fault self.old) (last_fault self.new) result }
    {
        match self.write_at(path, bytes) {
            Ok(()) => Ok(()),
            Err(e) => Err(self.fail(e)),
        }
    }

    fn rename(&mut self, from: &str, to: &str) -> Result<(), FilesError>
        ensures count { os_failures self.new
            ≡ count_after (done_or result) (os_failures self.old) }
        ensures kept { KeepsFault (last_fault self.old) (last_fault self.new) result }
    {
        match fs::rename(&self.rt, place(from), place(to)) {
            Ok(()) => {
                self.close(from);
                Ok(())
            }
            Err(e) => Err(self.fail(e)),
        }
    }

    fn copy(&mut self, from: &str, to: &str) -> Result<(), FilesError>
        ensures count { os_failures self.new
            ≡ count_after (done_or result) (os_failures self.old) }
        ensures kept { KeepsFault (last_fault self.old) (last_fault self.new) result }
    {
        match copy_to(&self.rt, place(from), place(to)) {
            Ok(_) => Ok(()),
            Err(e) => Err(self.fail(e)),
        }
    }

    fn link(&mut self, original: &str, path: &str) -> Result<(), FilesError>
        ensures count { os_failures self.new
            ≡ count_after (done_or result) (os_failures self.old) }
        ensures kept { KeepsFault (last_fault self.old) (last_fault self.new) result }
    {
        match symlink(&self.rt, original, place(path)) {
            Ok(()) => Ok(()),
            Err(e) => Err(self.fail(e)),
        }
    }

    fn remove(&mut self, path: &str) -> Result<(), FilesError>
        ensures count { os_failures self.new
            ≡ count_after (done_or result) (os_failures self.old) }
        ensures kept { KeepsFault (last_fault self.old) (last_fault self.new) result }
    {
        match fs::remove_file(&self.rt, place(path)) {
            Ok(()) => {
                self.close(path);
                Ok(())
            }
            Err(e) => Err(self.fail(e)),
        }
    }

    fn make_folders(&mut self, path: &str) -> Result<(), FilesError>
        ensures count { os_failures self.new
            ≡ count_after (done_or result) (os_failures self.old) }
        ensures kept { KeepsFault (last_fault self.old) (last_fault self.new) result }
    {
        match fs::create_dir_all(&self.rt, place(path)) {
            Ok(()) => Ok(()),
            Err(e) => Err(self.fail(e)),
        }
    }

    fn canonical(&mut self, path: &str) -> Result<String, FilesError>
        ensures count { os_failures self.new
            ≡ count_after (named_or result) (os_failures self.old) }
        ensures kept { KeepsFault (last_fault self.old) (last_fault self.new) result }
    {
        match fs::canonicalize(&self.rt, place(path)) {
            Ok(path) => Ok(path.into_string()),
            Err(e) => Err(self.fail(e)),
        }
    }

    fn list(&mut self, path: &str) -> Result<Vec<String>, FilesError>
        ensures count { os_failures self.new
            ≡ count_after (listed_or result) (os_failures self.old) }
        ensures kept { KeepsFault (last_fault self.old) (last_fault self.new) result }
    {
        match names_in(&self.rt, place(path)) {
            Ok(names) => Ok(names),
            Err(e) => Err(self.fail(e)),
        }
    }

    fn failures(&self) -> u64 {
        self.failures
    }
}
