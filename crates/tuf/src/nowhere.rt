//! Files that take all and keep nothing.

ghost use Rattle.std.specs.Prelude.{false, None, []};

use std::alloc::Global;
use tough::{FileKind, Files, FilesError};

/// Files that take what is written and keep nothing of it: what is saved in them is read and verified to its end.
#[derive(Clone, Copy, Drop)]
pub(crate) struct Nowhere {
    alloc: Global,
}

impl Nowhere {
    /// Files that keep nothing.
    pub(crate) fn new(alloc: Global) -> Nowhere {
        Nowhere { alloc }
    }
}

impl Files for Nowhere {
    ghost tells = { false };

    ghost contents = { λ _ _. None };

    ghost calls = { λ _. [] };

    ghost count = { λ _. 0 };

    fn kind(&mut self, _path: &str, _follow: bool) -> Result<FileKind, FilesError> {
        Ok(FileKind::Folder)
    }

    fn read(&mut self, _path: &str, _from: u64, _buf: &mut [u8]) -> Result<usize, FilesError> {
        Ok(0)
    }

    fn create(&mut self, _path: &str) -> Result<(), FilesError> {
        Ok(())
    }

    fn create_temp(&mut self, _folder: &str) -> Result<String, FilesError> {
        Ok(String::new(self.alloc))
    }

    fn append(&mut self, _path: &str, _bytes: &[u8]) -> Result<(), FilesError> {
        Ok(())
    }

    fn rename(&mut self, _from: &str, _to: &str) -> Result<(), FilesError> {
        Ok(())
    }

    fn copy(&mut self, _from: &str, _to: &str) -> Result<(), FilesError> {
        Ok(())
    }

    fn link(&mut self, _original: &str, _path: &str) -> Result<(), FilesError> {
        Ok(())
    }

    fn remove(&mut self, _path: &str) -> Result<(), FilesError> {
        Ok(())
    }

    fn make_folders(&mut self, _path: &str) -> Result<(), FilesError> {
        Ok(())
    }

    fn canonical(&mut self, path: &str) -> Result<String, FilesError> {
        match String::from_str(self.alloc, path) {
            Ok(path) => Ok(path),
            Err(_) => Err(FilesError::Memory),
        }
    }

    fn list(&mut self, _path: &str) -> Result<Vec<String>, FilesError> {
        Ok(Vec::new(self.alloc))
    }

    fn failures(&self) -> u64 {
        0
    }
}
