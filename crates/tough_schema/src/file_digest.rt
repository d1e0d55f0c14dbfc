//! The length and the digests of a file.

ghost use Rattle.std.specs.Prelude.{◌≡◌, ◌≤◌, List, ℕ, Some, true, IfOk};
ghost use Rattle.tough_files.specs.Contents.{file, Same};
ghost use Rattle.tough_schema.specs.Measuring.{LooksBy, FeedsBy, ReadsAll, MeasuresBy};
ghost use Rattle.tough_schema.specs.FileDigest.{file_error, there, Begins, Finishes, TakesIn, Stands, HasRead, Feeds, Measures, MeasuresFile};

use sha2::{Digest, Sha256, Sha512};
use std::alloc::AllocError;
use thiserror::Error;
use tough_files::{FileKind, Files, FilesError};
use tough_roles as schema;

/// Which digests of a file are computed.
#[derive(Clone, Copy, Drop)]
pub enum Digests {
    /// SHA-256 alone.
    Sha256,
    /// SHA-256 and SHA-512.
    Both,
}

/// The length of a file, the SHA-256 of its bytes, and their SHA-512 where it is asked for.
#[derive(Drop)]
pub struct Measured {
    pub length: u64,
    pub sha256: [u8; 32],
    pub sha512: Option<[u8; 64]>,
}

/// Why a file can't be a target.
#[derive(Clone, Copy, Debug, PartialEq, Eq, Drop, Error)]
pub enum FileError {
    /// Nothing stands at the path.
    #[error("Failed to open the file")]
    FileOpen,
    /// What stands there is no file.
    #[error("Not a file")]
    TargetNotAFile,
    /// The file can't be read.
    #[error("Failed to read the file")]
    FileRead,
    /// A request for memory was refused.
    #[error("out of memory")]
    Memory,
}

impl FileError {
    /// The error of the schema, with the path of the file.
    pub fn at(self, path: String) -> schema::Error
        ensures { result ≡ file_error self path }
    {
        match self {
            FileError::FileOpen => schema::Error::FileOpen { path },
            FileError::TargetNotAFile => schema::Error::TargetNotAFile { path },
            FileError::FileRead => schema::Error::FileRead { path },
            FileError::Memory => schema::Error::Memory,
        }
    }
}

// The length and the digests of the bytes that were read so far.
#[derive(Drop)]
struct Reading {
    hasher: Sha256,
    second: Option<Sha512>,
    length: u64,
}

impl Reading {
    // Nothing was read yet.
    fn new(digests: Digests) -> Reading
        ensures { Begins digests result }
    {
        let second = match digests {
            Digests::Sha256 => None,
            Digests::Both => Some(Sha512::new()),
        };
        Reading {
            hasher: Sha256::new(),
            second,
            length: 0,
        }
    }
}

// The bytes are taken in, where there is a hasher.
fn take_in(hasher: &mut Option<Sha512>, bytes: &[u8])
    ensures { TakesIn hasher.old bytes.now hasher.new }
{
    if let Some(hasher) = hasher {
        hasher.update(bytes);
    }
}

// The SHA-512 of what was taken in, where there is a hasher.
fn finish(hasher: Option<Sha512>) -> Option<[u8; 64]>
    ensures { Finishes hasher result }
{
    match hasher {
        None => None,
        Some(hasher) => Some(hasher.finalize()),
    }
}

// Whether a file stands at the path, links followed.
fn look<F: Files>(files: &mut F, path: &str) -> Result<(), FileError>
    ensures stands { F.tells ≡ true → Stands (there path.now (F.contents files.old)) result }
    ensures calls { F.tells ≡ true
        → LooksBy path.now result (F.calls files.old) (F.calls files.new) }
    ensures kept { F.tells ≡ true → Same (F.contents files.old) (F.contents files.new) }
{
    match files.kind(path, true) {
        Ok(FileKind::File) => Ok(()),
        Ok(_) => Err(FileError::TargetNotAFile),
        Err(FilesError::Memory) => Err(FileError::Memory),
        Err(_) => Err(FileError::FileOpen),
    }
}

// Reads the next bytes, and returns how many; 0 at the end.
fn feed<F: Files>(files: &mut F, path: &str, reading: &mut Reading) -> Result<usize, FilesError>
    ensures feeds { (digests : _) (bytes : List ℕ) → F.tells ≡ true
        → there path.now (F.contents files.old) ≡ Some (file bytes)
        → HasRead digests bytes reading.old
        → Feeds digests bytes reading.old result reading.new }
    ensures calls { F.tells ≡ true
        → FeedsBy path.now reading.old result reading.new (F.calls files.old) (F.calls files.new) }
    ensures kept { F.tells ≡ true → Same (F.contents files.old) (F.contents files.new) }
{
    let mut buf = [0; 4096];
    let n = files.read(path, reading.length, &mut buf)?;
    let Some(length) = reading.length.checked_add(n as u64) else {
        return Err(FilesError::Failed);
    };
    reading.hasher.update(&buf[..n]);
    take_in(&mut reading.second, &buf[..n]);
    reading.length = length;
    Ok(n)
}

/// The length and the digests of the file at the path, by reads alone. `Failed` also if the file has more bytes than a `u64` counts.
pub fn read_all<F: Files>(
    files: &mut F,
    path: &str,
    digests: Digests,
) -> Result<Measured, FilesError>
    ensures measured { (bytes : List ℕ) → F.tells ≡ true
        → there path.now (F.contents files.old) ≡ Some (file bytes)
        → MeasuresFile digests bytes result }
    ensures calls { F.tells ≡ true
        → ReadsAll digests path.now result (F.calls files.old) (F.calls files.new) }
    ensures kept { F.tells ≡ true → Same (F.contents files.old) (F.contents files.new) }
{
    let mut reading = Reading::new(digests);
    for _ in 0..u64::MAX {
        if feed(files, path, &mut reading)? == 0 {
            return Ok(Measured {
                length: reading.length,
                sha256: reading.hasher.finalize(),
                sha512: finish(reading.second),
            });
        }
    }
    Err(FilesError::Failed)
}

/// The length and the digests of the file at the path, links followed. The errors, in this order: `FileOpen`, `TargetNotAFile`, `FileRead`.
pub fn measure<F: Files>(files: &mut F, path: &str, digests: Digests) -> Result<Measured, FileError>
    ensures measured { F.tells ≡ true
        → Measures digests (there path.now (F.contents files.old)) result }
    ensures calls { F.tells ≡ true
        → MeasuresBy digests path.now result (F.calls files.old) (F.calls files.new) }
    ensures kept { F.tells ≡ true → Same (F.contents files.old) (F.contents files.new) }
{
    if let Err(error) = look(files, path) {
        return Err(error);
    }
    match read_all(files, path, digests) {
        Ok(measured) => Ok(measured),
        Err(FilesError::Memory) => Err(FileError::Memory),
        Err(_) => Err(FileError::FileRead),
    }
}

impl From<AllocError> for FileError {
    ghost use Rattle.tough_schema.specs.declared.file_digest.FileError.TheVariants.{Memory};

    ghost from_gives = { λ _ e. e ≡ Memory };

    fn from(_: AllocError) -> FileError {
        FileError::Memory
    }
}
