//! Files in memory, which tell their contents and their calls.
ghost use Rattle.std.specs.Prelude.{◌≡◌, ◌++◌, ℕ, List, None, [], map, IfOk, IfErr, string_bytes};
ghost use Rattle.tough_files.specs.declared.files.FilesError.TheVariants.{Memory};
ghost use Rattle.tough_files.specs.Notes.{all_told, log_told};
ghost use Rattle.tough_files.specs.Tree.{contents_of};

use crate::files::{FileKind, Files, FilesError};
use crate::log::{Answer, Call, Log, Request};
use crate::temp::temp_path;
use crate::tree::{Tree, copied, joined};
use std::alloc::{AllocError, Global};

/// Files in memory, with the list of their calls. Paths are taken as they stand, and links are followed at a path's end
/// alone. Nothing is there at first but the root and the current folder. A folder is neither moved nor removed.
#[derive(Drop)]
pub struct MemoryFiles {
    alloc: Global,
    tree: Tree,
    log: Log,
}

impl MemoryFiles {
    ghost use Rattle.tough_files.specs.Contents.{node_at};
    ghost use Rattle.tough_files.specs.Changes as change;
    ghost use Rattle.tough_files.specs.Memory.{memory_contents, memory_calls, memory_failures};

    /// No files.
    pub fn new(alloc: Global) -> MemoryFiles
        ensures empty { (path : List ℕ) → memory_contents result path ≡ None }
        ensures calls { memory_calls result ≡ [] }
        ensures failures { memory_failures result ≡ 0 }
    {
        MemoryFiles {
            alloc,
            tree: Tree::new(alloc),
            log: Log::new(alloc),
        }
    }

    /// The calls so far with their answers, but those that found no memory.
    pub fn calls(&self) -> &[Call]
        ensures { all_told result.now ≡ memory_calls self.now }
    {
        self.log.calls()
    }

    // A number and its path in the folder, where nothing stands. All numbers are in use only if memory is.
    fn fresh_path(&self, folder: &str) -> Result<(usize, String), FilesError>
        ensures path { IfOk result
            (λ numbered. string_bytes numbered.1 ≡ change.temp_path folder.now numbered.0) }
        ensures fresh { IfOk result
            (λ numbered. node_at (memory_contents self.now) (string_bytes numbered.1) ≡ None) }
        ensures memory { IfErr result (λ e. e ≡ Memory) }
    {
        for number in self.log.calls().len()..usize::MAX {
            let Ok(path) = temp_path(self.alloc, folder, number) else {
                return Err(FilesError::Memory);
            };
            if !self.tree.has(path.as_str()) {
                return Ok((number, path));
            }
        }
        Err(FilesError::Memory)
    }
}

impl Files for MemoryFiles {
    ghost use Rattle.std.specs.Prelude.{true};
    ghost use Rattle.tough_files.specs.Memory.{memory_contents, memory_calls, memory_failures};

    ghost tells = { true };

    ghost contents = { memory_contents };

    ghost calls = { memory_calls };

    ghost count = { memory_failures };

    fn kind(&mut self, path: &str, follow: bool) -> Result<FileKind, FilesError> {
        let request = match copied(self.alloc, path) {
            Ok(path) => Request::Kind(path, follow),
            Err(e) => return Err(e),
        };
        if self.log.reserve().is_err() {
            return Err(FilesError::Memory);
        }
        match self.tree.kind(path, follow) {
            Ok(kind) => {
                self.log.note(request, Answer::Found(kind));
                Ok(kind)
            }
            Err(e) => {
                self.log.note(request, Answer::Refused(e));
                Err(e)
            }
        }
    }

    fn read(&mut self, path: &str, from: u64, buf: &mut [u8]) -> Result<usize, FilesError> {
        let request = match copied(self.alloc, path) {
            Ok(path) => Request::Read(path, from, buf.len()),
            Err(e) => return Err(e),
        };
        if self.log.reserve().is_err() {
            return Err(FilesError::Memory);
        }
        match self.tree.read(path, from, buf) {
            Ok(count) => match joined(self.alloc, &buf[..count], b"") {
                Ok(bytes) => {
                    self.log.note(request, Answer::Got(bytes));
                    Ok(count)
                }
                Err(e) => Err(e),
            },
            Err(e) => {
                self.log.note(request, Answer::Refused(e));
                Err(e)
            }
        }
    }

    fn create(&mut self, path: &str) -> Result<(), FilesError> {
        let request = match copied(self.alloc, path) {
            Ok(path) => Request::Create(path),
            Err(e) => return Err(e),
        };
        if self.log.reserve().is_err() {
            return Err(FilesError::Memory);
        }
        let result = self.tree.create(path);
        self.log.note_done(request, result);
        result
    }

    fn create_temp(&mut self, folder: &str) -> Result<String, FilesError> {
        let request = match copied(self.alloc, folder) {
            Ok(folder) => Request::CreateTemp(folder),
            Err(e) => return Err(e),
        };
        if self.log.reserve().is_err() {
            return Err(FilesError::Memory);
        }
        let (_, path) = match self.fresh_path(folder) {
            Ok(numbered) => numbered,
            Err(e) => return Err(e),
        };
        let answer = match copied(self.alloc, path.as_str()) {
            Ok(answer) => answer,
            Err(e) => return Err(e),
        };
        match self.tree.create_new(folder, path.as_str()) {
            Ok(()) => {
                self.log.note(request, Answer::Named(answer));
                Ok(path)
            }
            Err(e) => {
                self.log.note(request, Answer::Refused(e));
                Err(e)
            }
        }
    }

    fn append(&mut self, path: &str, bytes: &[u8]) -> Result<(), FilesError> {
        let copy = match joined(self.alloc, bytes, b"") {
            Ok(copy) => copy,
            Err(e) => return Err(e),
        };
        let request = match copied(self.alloc, path) {
            Ok(path) => Request::Append(path, copy),
            Err(e) => return Err(e),
        };
        if self.log.reserve().is_err() {
            return Err(FilesError::Memory);
        }
        let result = self.tree.append(path, bytes);
        self.log.note_done(request, result);
        result
    }

    fn rename(&mut self, from: &str, to: &str) -> Result<(), FilesError> {
        let request = match two_copied(self.alloc, from, to) {
            Ok((from, to)) => Request::Rename(from, to),
            Err(e) => return Err(e),
        };
        if self.log.reserve().is_err() {
            return Err(FilesError::Memory);
        }
        let result = self.tree.rename(from, to);
        self.log.note_done(request, result);
        result
    }

    fn copy(&mut self, from: &str, to: &str) -> Result<(), FilesError> {
        let request = match two_copied(self.alloc, from, to) {
            Ok((from, to)) => Request::Copy(from, to),
            Err(e) => return Err(e),
        };
        if self.log.reserve().is_err() {
            return Err(FilesError::Memory);
        }
        let result = self.tree.copy(from, to);
        self.log.note_done(request, result);
        result
    }

    fn link(&mut self, original: &str, path: &str) -> Result<(), FilesError> {
        let request = match two_copied(self.alloc, original, path) {
            Ok((original, path)) => Request::Link(original, path),
            Err(e) => return Err(e),
        };
        if self.log.reserve().is_err() {
            return Err(FilesError::Memory);
        }
        let result = self.tree.link(original, path);
        self.log.note_done(request, result);
        result
    }

    fn remove(&mut self, path: &str) -> Result<(), FilesError> {
        let request = match copied(self.alloc, path) {
            Ok(path) => Request::Remove(path),
            Err(e) => return Err(e),
        };
        if self.log.reserve().is_err() {
            return Err(FilesError::Memory);
        }
        let result = self.tree.remove(path);
        self.log.note_done(request, result);
        result
    }

    fn make_folders(&mut self, path: &str) -> Result<(), FilesError> {
        let request = match copied(self.alloc, path) {
            Ok(path) => Request::MakeFolders(path),
            Err(e) => return Err(e),
        };
        if self.log.reserve().is_err() {
            return Err(FilesError::Memory);
        }
        let result = self.tree.make_folders(path);
        self.log.note_done(request, result);
        result
    }

    fn canonical(&mut self, path: &str) -> Result<String, FilesError> {
        let request = match copied(self.alloc, path) {
            Ok(path) => Request::Canonical(path),
            Err(e) => return Err(e),
        };
        if self.log.reserve().is_err() {
            return Err(FilesError::Memory);
        }
        match self.tree.canonical(path) {
            Ok(text) => match copied(self.alloc, text.as_str()) {
                Ok(answer) => {
                    self.log.note(request, Answer::Named(answer));
                    Ok(text)
                }
                Err(e) => Err(e),
            },
            Err(e) => {
                self.log.note(request, Answer::Refused(e));
                Err(e)
            }
        }
    }

    fn list(&mut self, path: &str) -> Result<Vec<String>, FilesError> {
        let request = match copied(self.alloc, path) {
            Ok(path) => Request::List(path),
            Err(e) => return Err(e),
        };
        if self.log.reserve().is_err() {
            return Err(FilesError::Memory);
        }
        match self.tree.list(path) {
            Ok(names) => match all_copied(self.alloc, &names) {
                Ok(answer) => {
                    self.log.note(request, Answer::Listed(answer));
                    Ok(names)
                }
                Err(_) => Err(FilesError::Memory),
            },
            Err(e) => {
                self.log.note(request, Answer::Refused(e));
                Err(e)
            }
        }
    }

    fn failures(&self) -> u64 {
        self.log.failures()
    }
}

// Copies of both texts.
fn two_copied(alloc: Global, first: &str, second: &str) -> Result<(String, String), FilesError>
    ensures first { IfOk result (λ both. string_bytes both.0 ≡ first.now) }
    ensures second { IfOk result (λ both. string_bytes both.1 ≡ second.now) }
    ensures memory { IfErr result (λ e. e ≡ Memory) }
{
    match (copied(alloc, first), copied(alloc, second)) {
        (Ok(first), Ok(second)) => Ok((first, second)),
        _ => Err(FilesError::Memory),
    }
}

// Copies of the texts.
fn all_copied(alloc: Global, texts: &Vec<String>) -> Result<Vec<String>, AllocError>
    ensures { IfOk result (λ copies. map string_bytes copies.items
        ≡ map string_bytes texts.now.items) }
{
    let mut copies = Vec::new(alloc);
    for text in texts {
        copies.push(String::from_str(alloc, text.as_str())?)?;
    }
    Ok(copies)
}
