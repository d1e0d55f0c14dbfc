//! What this library asks of files.
ghost use Rattle.std.specs.Prelude.{◌≡◌, ◌++◌, ◌≤◌, ℕ, List, Bool, true, IfOk, length};

use std::alloc::{AllocError, AllocFailed};
use thiserror::Error;

/// What stands at a path.
#[derive(Clone, Copy, Debug, PartialEq, Eq, Drop)]
pub enum FileKind {
    File,
    Folder,
    Link,
    Other,
}

/// Why a call was refused.
#[derive(Clone, Copy, Debug, PartialEq, Eq, Drop, Error)]
pub enum FilesError {
    /// Nothing stands at the path, or its folder is missing.
    #[error("nothing is there")]
    NotFound,
    /// The device failed, or something of another kind stands there.
    #[error("the files failed")]
    Failed,
    /// A request for memory was refused.
    #[error("out of memory")]
    Memory,
}

impl From<AllocError> for FilesError {
    ghost use Rattle.tough_files.specs.declared.files.FilesError.TheVariants.{Memory};

    ghost from_gives = { λ _ e. e ≡ Memory };

    fn from(_: AllocError) -> FilesError {
        FilesError::Memory
    }
}

impl<T: Drop> From<AllocFailed<T>> for FilesError {
    ghost use Rattle.tough_files.specs.declared.files.FilesError.TheVariants.{Memory};

    ghost from_gives = { λ _ e. e ≡ Memory };

    fn from(_: AllocFailed<T>) -> FilesError {
        FilesError::Memory
    }
}

/// Files by path. Where a value tells them, each call answers by its contents and is told with its answer.
///
/// `Failed` is answered exactly where the count of failures goes on by one. A call that found no memory changes nothing,
/// `make_folders` aside, and isn't told.
pub trait Files {
    ghost use Rattle.tough_files.specs.Calls.{Told, told_of, count_after, done_or, found_or, got_or, named_or, listed_or, kind_of, read_at, create_at, create_in, append_to, rename_to, copy_to, link_to, remove_at, make_folders_to, canonical_of, list_of};
    ghost use Rattle.tough_files.specs.Contents.{Contents};
    ghost use Rattle.tough_files.specs.Changes.{Gives, CreatesTemp, MakesFolders, Lists, kind_outcome, read_outcome, create_outcome, append_outcome, rename_outcome, copy_outcome, link_outcome, remove_outcome, canonical_outcome};

    /// Whether these files tell their contents and their calls.
    ghost tells: { Bool };

    /// What stands at each path, where they tell it.
    ghost contents: { Self → Contents };

    /// The calls so far with their answers, where they tell them.
    ghost calls: { Self → List Told };

    /// How often the device failed, modulo 2^64.
    ghost count: { Self → ℕ };

    /// What stands at the path, or behind the link there.
    fn kind(&mut self, path: &str, follow: bool) -> Result<FileKind, FilesError>
        ensures told { tells ≡ true
            → calls self.new ≡ calls self.old ++ told_of
            (kind_of path.now follow) (found_or result) }
        ensures gives { tells ≡ true
            → Gives (kind_outcome path.now follow (contents self.old)) (contents self.old)
            (found_or result) (contents self.new) }
        ensures count { count self.new ≡ count_after (found_or result) (count self.old) };

    /// Reads the file's bytes from `from` on into the buffer, and says how many; none where the file has ended.
    fn read(&mut self, path: &str, from: u64, buf: &mut [u8]) -> Result<usize, FilesError>
        ensures told { tells ≡ true
            → calls self.new ≡ calls self.old ++ told_of (read_at path.now from (length buf.old))
            (got_or buf.new result) }
        ensures gives { tells ≡ true
            → Gives (read_outcome path.now from (length buf.old) (contents self.old))
            (contents self.old) (got_or buf.new result) (contents self.new) }
        ensures len { IfOk result (λ n. n ≤ length buf.new) }
        ensures count { count self.new ≡ count_after (got_or buf.new result) (count self.old) };

    /// Makes an empty file, or empties the one that is there.
    fn create(&mut self, path: &str) -> Result<(), FilesError>
        ensures told { tells ≡ true
            → calls self.new ≡ calls self.old ++ told_of (create_at path.now) (done_or result) }
        ensures gives { tells ≡ true
            → Gives (create_outcome path.now (contents self.old)) (contents self.old)
            (done_or result) (contents self.new) }
        ensures count { count self.new ≡ count_after (done_or result) (count self.old) };

    /// Makes an empty file in the folder, under a name that nothing has there, and answers its path.
    fn create_temp(&mut self, folder: &str) -> Result<String, FilesError>
        ensures told { tells ≡ true
            → calls self.new ≡ calls self.old ++ told_of (create_in folder.now) (named_or result) }
        ensures gives { tells ≡ true
            → CreatesTemp folder.now (contents self.old) (named_or result) (contents self.new) }
        ensures count { count self.new ≡ count_after (named_or result) (count self.old) };

    /// Appends bytes to a file.
    fn append(&mut self, path: &str, bytes: &[u8]) -> Result<(), FilesError>
        ensures told { tells ≡ true
            → calls self.new ≡ calls self.old ++ told_of
            (append_to path.now bytes.now) (done_or result) }
        ensures gives { tells ≡ true
            → Gives (append_outcome path.now bytes.now (contents self.old)) (contents self.old)
            (done_or result) (contents self.new) }
        ensures count { count self.new ≡ count_after (done_or result) (count self.old) };

    /// Moves a file or a link, over what stands at the new path.
    fn rename(&mut self, from: &str, to: &str) -> Result<(), FilesError>
        ensures told { tells ≡ true
            → calls self.new ≡ calls self.old ++ told_of
            (rename_to from.now to.now) (done_or result) }
        ensures gives { tells ≡ true
            → Gives (rename_outcome from.now to.now (contents self.old)) (contents self.old)
            (done_or result) (contents self.new) }
        ensures count { count self.new ≡ count_after (done_or result) (count self.old) };

    /// Copies a file's content, over the file at the other path.
    fn copy(&mut self, from: &str, to: &str) -> Result<(), FilesError>
        ensures told { tells ≡ true
            → calls self.new ≡ calls self.old ++ told_of
            (copy_to from.now to.now) (done_or result) }
        ensures gives { tells ≡ true
            → Gives (copy_outcome from.now to.now (contents self.old)) (contents self.old)
            (done_or result) (contents self.new) }
        ensures count { count self.new ≡ count_after (done_or result) (count self.old) };

    /// Makes a symbolic link to the original, where nothing stands.
    fn link(&mut self, original: &str, path: &str) -> Result<(), FilesError>
        ensures told { tells ≡ true
            → calls self.new ≡ calls self.old ++ told_of
            (link_to original.now path.now) (done_or result) }
        ensures gives { tells ≡ true
            → Gives (link_outcome original.now path.now (contents self.old)) (contents self.old)
            (done_or result) (contents self.new) }
        ensures count { count self.new ≡ count_after (done_or result) (count self.old) };

    /// Removes a file, or a link itself.
    fn remove(&mut self, path: &str) -> Result<(), FilesError>
        ensures told { tells ≡ true
            → calls self.new ≡ calls self.old ++ told_of (remove_at path.now) (done_or result) }
        ensures gives { tells ≡ true
            → Gives (remove_outcome path.now (contents self.old)) (contents self.old)
            (done_or result) (contents self.new) }
        ensures count { count self.new ≡ count_after (done_or result) (count self.old) };

    /// Makes the folder, and those above it. Those that were made before a refusal stay.
    fn make_folders(&mut self, path: &str) -> Result<(), FilesError>
        ensures told { tells ≡ true
            → calls self.new ≡ calls self.old ++ told_of
            (make_folders_to path.now) (done_or result) }
        ensures gives { tells ≡ true
            → MakesFolders path.now (contents self.old) (done_or result) (contents self.new) }
        ensures count { count self.new ≡ count_after (done_or result) (count self.old) };

    /// The path of what stands there, links followed.
    fn canonical(&mut self, path: &str) -> Result<String, FilesError>
        ensures told { tells ≡ true
            → calls self.new ≡ calls self.old ++ told_of (canonical_of path.now) (named_or result) }
        ensures gives { tells ≡ true
            → Gives (canonical_outcome path.now (contents self.old)) (contents self.old)
            (named_or result) (contents self.new) }
        ensures count { count self.new ≡ count_after (named_or result) (count self.old) };

    /// The names of what stands in the folder, in some order.
    fn list(&mut self, path: &str) -> Result<Vec<String>, FilesError>
        ensures told { tells ≡ true
            → calls self.new ≡ calls self.old ++ told_of (list_of path.now) (listed_or result) }
        ensures gives { tells ≡ true
            → Lists path.now (contents self.old) (listed_or result) (contents self.new) }
        ensures count { count self.new ≡ count_after (listed_or result) (count self.old) };

    /// How often the device failed, modulo 2^64.
    fn failures(&self) -> u64
        ensures { result ≡ count self.now };
}

/// The most links in a row that are followed.
pub const MAX_LINKS: u8 = 40;
