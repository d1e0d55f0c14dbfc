//! Files, read and written whole.

use crate::fault::{Fault, about, refused};
use crate::host::Host;
use std::alloc::Global;
use std::fs::{File, OpenOptions, TryLockError};
use std::io::{ErrorKind, Write};
use std::{fs, io};
use tough::{Files, FilesError, OsFiles};

const STANDS: &str = "a file is there, which stays; take another name";

const AT_WORK: &str = "another run is at work there; wait for its end";

// What the names of files begin with that are still being written.
const TEMP: &str = ".tmp";

/// The files of the system.
pub(crate) type Disk<R> = OsFiles<R>;

/// The files that the runtime reaches.
pub(crate) fn disk<R: Host>(rt: &R) -> Result<Disk<R>, Fault> {
    Ok(OsFiles::new(rt.clone()?))
}

/// The bytes of a file.
pub(crate) fn read<R: Host>(rt: &R, path: &str) -> Result<Vec<u8>, Fault> {
    match fs::read(rt, path) {
        Ok(bytes) => Ok(bytes),
        Err(error) => Err(about(rt.alloc(), path, &error)),
    }
}

/// What the system said of a path when it refused a call.
pub(crate) fn unfiled<R: Host>(
    alloc: Global,
    disk: &Disk<R>,
    path: &str,
    error: FilesError,
) -> Fault {
    match disk.last_fault() {
        Some(cause) => about(alloc, path, cause),
        None => about(alloc, path, &error),
    }
}

/// Whether something stands at the path.
pub(crate) fn stands<R: Host>(
    alloc: Global,
    disk: &mut Disk<R>,
    path: &str,
) -> Result<bool, Fault> {
    match disk.kind(path, false) {
        Ok(_) => Ok(true),
        Err(FilesError::NotFound) => Ok(false),
        Err(error) => Err(unfiled(alloc, disk, path, error)),
    }
}

/// Makes the folder, and those above it.
pub(crate) fn make_folders<R: Host>(rt: &R, path: &str) -> Result<(), Fault> {
    match fs::create_dir_all(rt, path) {
        Ok(()) => Ok(()),
        Err(error) => Err(about(rt.alloc(), path, &error)),
    }
}

/// The path of what stands there, links followed.
pub(crate) fn canonical<R: Host>(
    alloc: Global,
    disk: &mut Disk<R>,
    path: &str,
) -> Result<String, Fault> {
    match disk.canonical(path) {
        Ok(real) => Ok(real),
        Err(error) => Err(unfiled(alloc, disk, path, error)),
    }
}

/// The folder of a path, and the name in it.
pub(crate) fn split(path: &str) -> (&str, &str) {
    match path.rsplit_once('/') {
        Some(("", name)) => ("/", name),
        Some((folder, name)) => (folder, name),
        None => (".", path),
    }
}

/// A path in the folder that nothing has: 128 random bits behind `.tmp`.
pub(crate) fn fresh_path<R: Host>(rt: &R, folder: &str) -> Result<String, Fault> {
    let mut bits = [0; 16];
    rt.fill_bytes(&mut bits)?;
    let number = u128::from_be_bytes(bits);
    Ok(format!(in rt.alloc(); "{folder}/{TEMP}{number:032x}")?)
}

// Makes a file of these bytes where nothing stands.
fn fill<R: Host>(rt: &R, path: &str, bytes: &[u8]) -> io::Result<()> {
    let mut file = OpenOptions::new()
        .write(true)
        .create_new(true)
        .open(rt, path)?;
    file.write_all(bytes)?;
    file.sync_all()
}

// Moves a file over what stands at the path.
fn take_place<R: Host>(rt: &R, temp: &str, path: &str) -> io::Result<()> {
    fs::rename(rt, temp, path)?;
    let (folder, _) = split(path);
    fs::open(rt, folder)?.sync_all()
}

/// Gives a file that was made its name; where that fails, or making it did, it goes.
pub(crate) fn settle<R: Host>(
    rt: &R,
    made: io::Result<()>,
    temp: &str,
    path: &str,
) -> Result<(), Fault> {
    let done = match made {
        Ok(()) => take_place(rt, temp, path),
        Err(error) => Err(error),
    };
    match done {
        Ok(()) => Ok(()),
        Err(error) => {
            let _ = fs::remove_file(rt, temp);
            Err(about(rt.alloc(), path, &error))
        }
    }
}

/// Writes a file whole, by way of a file in another folder: until all of it is there, the path has what it had.
pub(crate) fn write_by<R: Host>(
    rt: &R,
    folder: &str,
    path: &str,
    bytes: &[u8],
) -> Result<(), Fault> {
    let temp = fresh_path(rt, folder)?;
    let made = fill(rt, temp.as_str(), bytes);
    settle(rt, made, temp.as_str(), path)
}

/// Writes a file whole: until all of it is there, the path has what it had.
pub(crate) fn write<R: Host>(rt: &R, path: &str, bytes: &[u8]) -> Result<(), Fault> {
    let (folder, _) = split(path);
    write_by(rt, folder, path, bytes)
}

/// Writes a file where nothing stands.
pub(crate) fn write_new<R: Host>(rt: &R, path: &str, bytes: &[u8]) -> Result<(), Fault> {
    let alloc = rt.alloc();
    match fill(rt, path, bytes) {
        Ok(()) => Ok(()),
        Err(error) if error.kind() == ErrorKind::AlreadyExists => Err(refused(alloc, path, STANDS)),
        Err(error) => Err(about(alloc, path, &error)),
    }
}

// Removes what a run that was killed left half written in the folder.
fn clean<R: Host>(rt: &R, folder: &str) -> Result<(), Fault> {
    let mut disk = disk(rt)?;
    let Ok(names) = disk.list(folder) else {
        return Ok(());
    };
    for name in &names {
        if name.as_str().starts_with(TEMP) {
            let path = format!(in rt.alloc(); "{folder}/{name}")?;
            let _ = disk.remove(path.as_str());
        }
    }
    Ok(())
}

/// Makes the folder where it is missing, holds it for as long as the file is open, and clears what a run that was killed left there.
pub(crate) fn hold<R: Host>(rt: &R, folder: &str) -> Result<File, Fault> {
    let alloc = rt.alloc();
    make_folders(rt, folder)?;
    let path = format!(in alloc; "{folder}/.lock")?;
    let opened = OpenOptions::new()
        .write(true)
        .create(true)
        .open(rt, path.as_str());
    let file = match opened {
        Ok(file) => file,
        Err(error) => return Err(about(alloc, path.as_str(), &error)),
    };
    match file.try_lock() {
        Ok(()) => {
            clean(rt, folder)?;
            clean(rt, format!(in alloc; "{folder}/metadata")?.as_str())?;
            Ok(file)
        }
        Err(TryLockError::WouldBlock) => Err(refused(alloc, folder, AT_WORK)),
        Err(TryLockError::Error(error)) => Err(about(alloc, path.as_str(), &error)),
    }
}
