//! The files below a folder.

use crate::fault::{Fault, about};
use crate::files::{Disk, unfiled};
use crate::host::Host;
use std::alloc::Global;
use tough::{FileKind, Files, TargetName};

// How many folders deep files are found.
const DEEPEST: u32 = 128;

/// A file, and its name as a target: its path below the folder.
#[derive(Drop)]
pub(crate) struct Found {
    pub(crate) path: String,
    pub(crate) name: TargetName,
    /// The place of the role that lists it; none: the targets do, or it isn't known yet.
    pub(crate) place: Option<usize>,
}

/// The files below a folder, and the paths of what is neither a file nor a folder, or lies too deep.
#[derive(Drop)]
pub(crate) struct Listing {
    pub(crate) files: Vec<Found>,
    pub(crate) others: Vec<String>,
}

// What stands at a path below the folder, and is no link.
fn look<R: Host>(
    alloc: Global,
    disk: &mut Disk<R>,
    path: String,
    name: &str,
    listing: &mut Listing,
    folders: &mut Vec<String>,
) -> Result<(), Fault> {
    match disk.kind(path.as_str(), false) {
        Ok(FileKind::File) => match TargetName::from_str(alloc, name) {
            Ok(name) => listing.files.push(Found {
                path,
                name,
                place: None,
            })?,
            Err(error) => return Err(about(alloc, path.as_str(), &error)),
        },
        Ok(FileKind::Folder) => folders.push(format!(in alloc; "{name}/")?)?,
        Ok(_) => listing.others.push(path)?,
        Err(error) => return Err(unfiled(alloc, disk, path.as_str(), error)),
    }
    Ok(())
}

// Finds what the folder has, which stands below the first one, and notes the folders in it.
fn look_in<R: Host>(
    alloc: Global,
    disk: &mut Disk<R>,
    first: &str,
    folder: &str,
    listing: &mut Listing,
    folders: &mut Vec<String>,
) -> Result<(), Fault> {
    let path = format!(in alloc; "{first}/{folder}")?;
    let mut entries = match disk.list(path.as_str()) {
        Ok(entries) => entries,
        Err(error) => return Err(unfiled(alloc, disk, path.as_str(), error)),
    };
    entries.sort()?;
    for entry in &entries {
        let name = format!(in alloc; "{folder}{entry}")?;
        let path = format!(in alloc; "{first}/{name}")?;
        look(alloc, disk, path, name.as_str(), listing, folders)?;
    }
    Ok(())
}

/// The files of the folder and of those below it. Links are not followed.
pub(crate) fn find<R: Host>(
    alloc: Global,
    disk: &mut Disk<R>,
    first: &str,
) -> Result<Listing, Fault> {
    let mut listing = Listing {
        files: Vec::new(alloc),
        others: Vec::new(alloc),
    };
    let mut level = Vec::new(alloc);
    level.push(String::new(alloc))?;
    for _ in 0..DEEPEST {
        let mut below = Vec::new(alloc);
        for folder in &level {
            look_in(
                alloc,
                disk,
                first,
                folder.as_str(),
                &mut listing,
                &mut below,
            )?;
        }
        level = below;
    }
    for folder in level {
        listing.others.push(format!(in alloc; "{first}/{folder}")?)?;
    }
    Ok(listing)
}
