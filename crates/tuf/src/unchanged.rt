//! Documents that stay as they are.

use crate::fault::Fault;
use crate::files::Disk;
use crate::found::Found;
use crate::host::Host;
use crate::publish::Publishing;
use crate::putting::is_at;
use crate::{expiry, when};
use std::alloc::Global;
use tough::editor::RepositoryEdits;
use tough::schema::Targets;

// Whether the document lists the files of the role at the place, as they are, and no others.
fn lists<R: Host>(
    alloc: Global,
    disk: &mut Disk<R>,
    document: &Targets,
    files: &[Found],
    place: usize,
) -> bool {
    let mut count = 0usize;
    for file in files {
        if file.place == Some(place) {
            let Some(target) = document.targets.get(&file.name) else {
                return false;
            };
            if !is_at(alloc, disk, file.path.as_str(), target) {
                return false;
            }
            count = count.saturating_add(1);
        }
    }
    count == document.targets.len()
}

/// Whether the document of the role at the place stays as it is: it lists these files, it lasts half of its usual time at least, and no other
/// expiry is asked for.
pub(crate) fn stays<R: Host>(
    rt: &R,
    disk: &mut Disk<R>,
    words: &Publishing<'_>,
    edits: &RepositoryEdits,
    files: &[Found],
    place: usize,
    name: &str,
) -> Result<bool, Fault> {
    let alloc = rt.alloc();
    let Some(targets) = edits.signed_targets() else {
        return Ok(false);
    };
    let Ok(role) = targets.signed.delegated_role(alloc, name) else {
        return Ok(false);
    };
    let Some(document) = &role.targets else {
        return Ok(false);
    };
    let document = &document.signed.targets;
    let soon = when::from_now(rt, expiry::OTHERS / 2)?;
    if document.expires < soon || expiry::is_given(words.expires, name) {
        return Ok(false);
    }
    Ok(lists(alloc, disk, document, files, place))
}
