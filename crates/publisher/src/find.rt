//! The files below a folder.

use anyhow::Result;
use std::alloc::Global;
use tough::{FileKind, Files, TargetName};

// How many folders deep files are found.
const DEEPEST: u32 = 128;

/// A file, and its name as a target: its path below the folder.
#[derive(Drop)]
pub(crate) struct Found {
    pub(crate) path: String,
    pub(crate) name: TargetName,
}

impl Found {
    /// Whether the file lies below the folder of the role's name.
    pub(crate) fn is_below(&self, role: Option<&str>) -> bool {
        let Some(role) = role else {
            return false;
        };
        match self.name.resolved().strip_prefix(role) {
            Some(rest) => rest.starts_with('/'),
            None => false,
        }
    }
}

// Finds the files of the folder at this path below the first, and notes the folders in it.
fn look<F: Files>(
    alloc: Global,
    files: &mut F,
    first: &str,
    folder: &str,
    found: &mut Vec<Found>,
    folders: &mut Vec<String>,
) -> Result<()> {
    for entry in files.list(format!(in alloc; "{first}/{folder}")?.as_str())? {
        let name = format!(in alloc; "{folder}{entry}")?;
        let path = format!(in alloc; "{first}/{name}")?;
        match files.kind(path.as_str(), true)? {
            FileKind::File => {
                let name = TargetName::from_str(alloc, name.as_str())?;
                found.push(Found { path, name })?;
            }
            FileKind::Folder => folders.push(format!(in alloc; "{name}/")?)?,
            _ => {}
        }
    }
    Ok(())
}

/// The files of the folder and of those below it.
pub(crate) fn find<F: Files>(alloc: Global, files: &mut F, first: &str) -> Result<Vec<Found>> {
    let mut found = Vec::new(alloc);
    let mut level = Vec::new(alloc);
    level.push(String::new(alloc))?;
    for _ in 0..=DEEPEST {
        let mut below = Vec::new(alloc);
        for folder in &level {
            look(alloc, files, first, folder.as_str(), &mut found, &mut below)?;
        }
        level = below;
    }
    Ok(found)
}
