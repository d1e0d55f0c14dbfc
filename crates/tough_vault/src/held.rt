//! A store's folder, held by one process: its lock, its files, and the note of a change that is to be finished.

use std::alloc::{AllocGlobal, Global};
use std::fs::{File, OpenFile, OpenOptions, TryLockError};
use std::io::{ErrorKind, Read, Write};
use std::os::unix::fs::{MetadataExt, OpenOptionsExt};
use std::path::Path;
use std::{fs, io, rt};

// How the names of the files begin that are filled before they take another's place; a number follows.
const TEMPORARY: &str = "+new";

// How many names are tried for such a file.
const TEMPORARY_TRIES: u32 = 65_536;

// The file that whoever uses the folder has locked.
const LOCK: &str = "+lock";

// The note of a change that was begun: whoever locks the folder finishes it.
const NOTE: &str = "+redo";

// Who may read and write what a store makes: its owner.
const OWNERS: u32 = 0o600;

/// A folder, locked for this process.
#[derive(Drop)]
pub(crate) struct Held {
    // The folder, open, and the file in it that is locked.
    folder: File,
    lock: File,
    // Where the lock stands, and which file it is.
    path: String,
    device: u64,
    inode: u64,
}

/// A change that writes a file and removes two others, once all that it needs is made: the paths of its files.
#[derive(Drop)]
pub(crate) struct Change {
    fresh: String,
    file: String,
    first: String,
    second: String,
    note: String,
}

/// What became of a change's parts.
#[derive(Drop)]
pub(crate) struct Finished {
    pub(crate) written: io::Result<()>,
    pub(crate) first: io::Result<()>,
    pub(crate) second: io::Result<()>,
}

/// The path of a file of the folder.
pub(crate) fn path_in(alloc: Global, folder: &str, name: &str) -> io::Result<String> {
    Ok(Path::new(folder).join(alloc, name)?.into_string())
}

/// Locks the folder and finishes what a process that died in it left; none where there is no folder.
pub(crate) fn hold<R: rt::Files<File = File> + AllocGlobal + Clone + Drop>(
    files: &R,
    folder: &str,
) -> io::Result<Option<Held>> {
    if folder.is_empty() {
        let message = "the store's folder has no name";
        return Err(io::Error::new(ErrorKind::InvalidInput, message));
    }
    let path = path_in(files.alloc(), folder, LOCK)?;
    let opened = match fs::open(files, folder) {
        Ok(opened) => opened,
        Err(e) if e.kind() == ErrorKind::NotFound => return Ok(None),
        Err(e) => return Err(e),
    };
    let lock = lock_at(files, path.as_str())?;
    let metadata = lock.metadata()?;
    let held = Held {
        folder: opened,
        lock,
        path,
        device: metadata.dev(),
        inode: metadata.ino(),
    };
    finish_noted(files, folder, &held)?;
    remove_leftovers(files, folder)?;
    Ok(Some(held))
}

// The lock's file, made where there is none, and locked.
fn lock_at(files: &impl rt::Files<File = File>, path: &str) -> io::Result<File> {
    let lock = OpenOptions::new()
        .write(true)
        .create(true)
        .mode(OWNERS)
        .open(files, path)?;
    match lock.try_lock() {
        Ok(()) => Ok(lock),
        Err(TryLockError::WouldBlock) => Err(io::Error::new(
            ErrorKind::ResourceBusy,
            "another process uses this store",
        )),
        Err(TryLockError::Error(e)) => Err(e),
    }
}

/// Refuses a folder that was removed, or replaced by another, since it was locked.
pub(crate) fn check_place(files: &impl rt::Files, held: &Held) -> io::Result<()> {
    let is_same = match fs::metadata(files, held.path.as_str()) {
        Ok(found) => found.dev() == held.device && found.ino() == held.inode,
        Err(e) if e.kind() == ErrorKind::NotFound => false,
        Err(e) => return Err(e),
    };
    if is_same {
        return Ok(());
    }
    let message = "the store's folder was removed or replaced while it was in use";
    Err(io::Error::new(ErrorKind::NotFound, message))
}

/// The bytes of the file; none where there is no file. What is no regular file is refused before it is opened.
pub(crate) fn read_file(
    files: &impl rt::Files,
    alloc: Global,
    path: &str,
) -> io::Result<Option<Vec<u8>>> {
    match read_all(files, alloc, path) {
        Ok(bytes) => Ok(Some(bytes)),
        Err(e) if e.kind() == ErrorKind::NotFound => Ok(None),
        Err(e) => Err(e),
    }
}

fn read_all(files: &impl rt::Files, alloc: Global, path: &str) -> io::Result<Vec<u8>> {
    if !fs::metadata(files, path)?.is_file() {
        let message = "not a regular file";
        return Err(io::Error::new(ErrorKind::InvalidInput, message));
    }
    let mut file = fs::open(files, path)?;
    let mut bytes = Vec::new(alloc);
    file.read_to_end(&mut bytes)?;
    Ok(bytes)
}

/// Puts the bytes into the file at the path: they are synced in a file of another name, which then takes its place. Where it
/// fails, the file at the path is as it was.
pub(crate) fn put<R: rt::Files<File = File> + AllocGlobal>(
    files: &R,
    folder: &str,
    path: &str,
    bytes: &[u8],
) -> io::Result<()> {
    let fresh = fill_new(files, files.alloc(), folder, &[bytes])?;
    move_to(files, fresh.as_str(), path)
}

/// Removes the file. One that is missing is removed already.
pub(crate) fn take_away(files: &impl rt::Files, path: &str) -> io::Result<()> {
    match fs::remove_file(files, path) {
        Err(e) if e.kind() == ErrorKind::NotFound => Ok(()),
        outcome => outcome,
    }
}

/// Waits until what the folder lists is on the device.
pub(crate) fn sync(held: &Held) -> io::Result<()> {
    held.folder.sync_all()
}

/// Makes all that the change needs, and notes it: once this succeeded it is finished, by this process or by the next that
/// locks the folder; where it fails, nothing was changed.
pub(crate) fn begin<R: rt::Files<File = File> + AllocGlobal>(
    files: &R,
    folder: &str,
    held: &Held,
    names: &[&str; 3],
    bytes: &[u8],
) -> io::Result<Change> {
    let alloc = files.alloc();
    let file = path_in(alloc, folder, names[0])?;
    let first = path_in(alloc, folder, names[1])?;
    let second = path_in(alloc, folder, names[2])?;
    let note = path_in(alloc, folder, NOTE)?;
    let fresh = fill_new(files, alloc, folder, &[bytes])?;
    let change = Change {
        fresh,
        file,
        first,
        second,
        note,
    };
    match note_change(files, folder, held, names, &change) {
        Ok(()) => Ok(change),
        Err(e) => {
            let _ = fs::remove_file(files, change.note.as_str());
            let _ = fs::remove_file(files, change.fresh.as_str());
            Err(e)
        }
    }
}

// Writes the note, which gets its name once all that it speaks of is on the device.
fn note_change<R: rt::Files<File = File> + AllocGlobal>(
    files: &R,
    folder: &str,
    held: &Held,
    names: &[&str; 3],
    change: &Change,
) -> io::Result<()> {
    let fresh = name_of(change.fresh.as_str()).as_bytes();
    let [file, first, second] = *names;
    let pieces = [
        fresh,
        b"\0",
        file.as_bytes(),
        b"\0",
        first.as_bytes(),
        b"\0",
        second.as_bytes(),
    ];
    let noted = fill_new(files, files.alloc(), folder, &pieces)?;
    sync(held)?;
    move_to(files, noted.as_str(), change.note.as_str())?;
    sync(held)
}

// The last part of a path.
fn name_of(path: &str) -> &str {
    match Path::new(path).file_name() {
        Some(name) => name,
        None => path,
    }
}

/// Carries out a change that was noted, and removes its note once all is on the device. Where a part fails, the note stays.
pub(crate) fn finish(files: &impl rt::Files, held: &Held, change: &Change) -> Finished {
    let written = fs::rename(files, change.fresh.as_str(), change.file.as_str());
    finish_written(files, held, change, written)
}

// Tries both removals, where the file was written.
fn finish_written(
    files: &impl rt::Files,
    held: &Held,
    change: &Change,
    written: io::Result<()>,
) -> Finished {
    if written.is_err() {
        return Finished {
            written,
            first: Ok(()),
            second: Ok(()),
        };
    }
    let first = take_away(files, change.first.as_str());
    let mut second = take_away(files, change.second.as_str());
    if first.is_ok() && second.is_ok() {
        second = forget_note(files, held, change.note.as_str());
    }
    Finished {
        written,
        first,
        second,
    }
}

// Removes the note of a change that is finished. It must be gone before the next change.
fn forget_note(files: &impl rt::Files, held: &Held, note: &str) -> io::Result<()> {
    sync(held)?;
    fs::remove_file(files, note)?;
    sync(held)
}

// Finishes a change that a process noted and didn't live to finish. A note that no store wrote is removed.
fn finish_noted<R: rt::Files<File = File> + AllocGlobal>(
    files: &R,
    folder: &str,
    held: &Held,
) -> io::Result<()> {
    let alloc = files.alloc();
    let note = path_in(alloc, folder, NOTE)?;
    let Some(bytes) = read_file(files, alloc, note.as_str())? else {
        return Ok(());
    };
    let Some(noted) = noted_in(bytes.as_slice()) else {
        return forget_note(files, held, note.as_str());
    };
    let change = Change {
        fresh: path_in(alloc, folder, noted.fresh)?,
        file: path_in(alloc, folder, noted.file)?,
        first: path_in(alloc, folder, noted.first)?,
        second: path_in(alloc, folder, noted.second)?,
        note,
    };
    let written = match fs::rename(files, change.fresh.as_str(), change.file.as_str()) {
        // The process died behind this.
        Err(e) if e.kind() == ErrorKind::NotFound => Ok(()),
        outcome => outcome,
    };
    let done = finish_written(files, held, &change, written);
    done.written?;
    done.first?;
    done.second
}

// The names that a note tells: of the new file, of the one whose place it takes, and of the two that are removed.
#[derive(Clone, Copy)]
struct Noted<'a> {
    fresh: &'a str,
    file: &'a str,
    first: &'a str,
    second: &'a str,
}

// What a note tells, with a zero byte between the names; none where no store wrote it.
fn noted_in(bytes: &[u8]) -> Option<Noted<'_>> {
    let text = str::from_utf8(bytes).ok()?;
    let (fresh, rest) = text.split_once('\0')?;
    let (file, rest) = rest.split_once('\0')?;
    let (first, second) = rest.split_once('\0')?;
    let are_parts = is_part(fresh) && is_part(file) && is_part(first) && is_part(second);
    let noted = Noted {
        fresh,
        file,
        first,
        second,
    };
    if are_parts { Some(noted) } else { None }
}

// Whether a file of a folder may have this name.
fn is_part(name: &str) -> bool {
    !name.is_empty()
        && name != "."
        && name != ".."
        && !name.as_bytes().contains(&b'/')
        && !name.as_bytes().contains(&0)
}

// Fills a new file of the folder, syncs it, and gives its path. Where it fails, no such file is left.
fn fill_new(
    files: &impl rt::Files<File = File>,
    alloc: Global,
    folder: &str,
    pieces: &[&[u8]],
) -> io::Result<String> {
    let (path, mut file) = create_new(files, alloc, folder)?;
    match fill(&mut file, pieces) {
        Ok(()) => Ok(path),
        Err(e) => {
            let _ = fs::remove_file(files, path.as_str());
            Err(e)
        }
    }
}

fn fill(file: &mut File, pieces: &[&[u8]]) -> io::Result<()> {
    for piece in pieces {
        file.write_all(piece)?;
    }
    file.sync_all()
}

// Makes a file of the folder that wasn't there, and gives it with its path.
fn create_new(
    files: &impl rt::Files<File = File>,
    alloc: Global,
    folder: &str,
) -> io::Result<(String, File)> {
    for number in 0..TEMPORARY_TRIES {
        let name = format!(in alloc; "{TEMPORARY}{number}")?;
        let path = path_in(alloc, folder, name.as_str())?;
        let made = OpenOptions::new()
            .write(true)
            .create_new(true)
            .mode(OWNERS)
            .open(files, path.as_str());
        match made {
            Ok(file) => return Ok((path, file)),
            Err(e) if e.kind() == ErrorKind::AlreadyExists => {}
            Err(e) => return Err(e),
        }
    }
    Err(io::Error::from(ErrorKind::AlreadyExists))
}

// Gives the new file the other's name and place. Where that fails, the new file is removed.
fn move_to(files: &impl rt::Files, fresh: &str, path: &str) -> io::Result<()> {
    if let Err(e) = fs::rename(files, fresh, path) {
        let _ = fs::remove_file(files, fresh);
        return Err(e);
    }
    Ok(())
}

// Removes the files that a process which died left half written. One that stays, as one that is no file, is in nobody's way.
fn remove_leftovers<R: rt::Files + AllocGlobal + Clone + Drop>(
    files: &R,
    folder: &str,
) -> io::Result<()> {
    for entry in fs::read_dir(files, folder)? {
        match entry {
            Ok(entry) if is_temporary(entry.file_name()) => {
                let path = path_in(files.alloc(), folder, entry.file_name())?;
                let _ = fs::remove_file(files, path.as_str());
            }
            Ok(_) => {}
            // A name that is no text is none of the store's.
            Err(e) if e.kind() == ErrorKind::InvalidFilename => {}
            Err(e) => return Err(e),
        }
    }
    Ok(())
}

// Whether a file that is filled before it takes another's place has this name.
fn is_temporary(name: &str) -> bool {
    match name.strip_prefix(TEMPORARY) {
        Some(number) => !number.is_empty() && number.bytes().all(|b| b.is_ascii_digit()),
        None => false,
    }
}
