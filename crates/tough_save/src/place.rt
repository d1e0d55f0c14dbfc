//! Where a file is to stand.

ghost use Rattle.std.specs.Prelude.{◌≡◌, IfOk, IfErr, string_bytes};
ghost use Rattle.tough_save.specs.Places.{IsPlace, IsMisplaced, path_of, parent_of};

use crate::error::SaveError;
use crate::folder::outside;
use std::alloc::Global;
use std::path::Path;

/// Where a file is to stand: its path, and that of its folder.
#[derive(Debug, Drop)]
pub struct Place {
    path: String,
    parent: String,
}

impl Place {
    /// The place of a name in a folder, or below it. A name that is absolute replaces the folder, and so is `Outside`, as is one that leads
    /// out of it; `NoParent` where the path has no parent.
    pub fn new(alloc: Global, folder: &str, name: &str) -> Result<Place, SaveError>
        ensures place { IfOk result (IsPlace folder.now name.now) }
        ensures misplaced { IfErr result (IsMisplaced folder.now name.now) }
    {
        let path = Path::new(folder).join(alloc, name)?.into_string();
        let Some(parent) = Path::new(path.as_str()).parent() else {
            return Err(SaveError::NoParent { path });
        };
        if !parent.starts_with(folder) {
            return Err(outside(alloc, path.as_str(), folder));
        }
        let parent = String::from_str(alloc, parent.as_str())?;
        Ok(Place { path, parent })
    }

    /// The path of the file.
    pub fn path(&self) -> &str
        ensures { result.now ≡ path_of self.now }
    {
        self.path.as_str()
    }

    /// The path of its folder.
    pub fn parent(&self) -> &str
        ensures { result.now ≡ parent_of self.now }
    {
        self.parent.as_str()
    }

    /// The path of the file.
    pub fn into_path(self) -> String
        ensures { string_bytes result ≡ path_of self }
    {
        self.path
    }
}
