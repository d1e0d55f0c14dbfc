//! The files of a repository take the place of those of the version before.

ghost use Rattle.std.specs.Prelude.{◌≡◌, ◌++◌, true, IfOk, IfErr, OnOk, map};
ghost use Rattle.tough_write.specs.Ordering.{replaced_files, timestamp_last};
ghost use Rattle.tough_write.specs.Replacing.{AreReplaced, StopsAmong, file_doc};
ghost use Rattle.tough_write.specs.Writing.{file_doc as named_doc};

use crate::replace::{NewFile, ReplaceError, replace_files};
use crate::write::{NamedFile, WriteSigned};
use std::alloc::{AllocError, Global};
use tough_files::Files;
use tough_release::SignedRepository;

// The file that is to stand in the folder.
fn new_file<'a>(file: &'a NamedFile<'a>) -> NewFile<'a>
    ensures { file_doc result ≡ named_doc file.now }
{
    NewFile {
        name: file.name.as_str(),
        bytes: file.bytes,
    }
}

// Adds the files, in their order.
fn add_all<'a>(list: &mut Vec<NewFile<'a>>, named: &'a [NamedFile<'a>]) -> Result<(), AllocError>
    ensures { OnOk result (map file_doc list.new.items
        ≡ map file_doc list.old.items ++ map named_doc named.now) }
{
    for file in named {
        list.push(new_file(file))?;
    }
    Ok(())
}

// The files with the timestamp's last.
fn in_order<'a>(alloc: Global, named: &'a [NamedFile<'a>]) -> Result<Vec<NewFile<'a>>, AllocError>
    ensures { IfOk result (λ v. map file_doc v.items ≡ timestamp_last (map named_doc named.now)) }
{
    let mut files = Vec::new(alloc);
    let [root, targets, snapshot, timestamp, delegated @ ..] = named else {
        add_all(&mut files, named)?;
        return Ok(files);
    };
    add_all(&mut files, delegated)?;
    files.push(new_file(targets))?;
    files.push(new_file(snapshot))?;
    files.push(new_file(root))?;
    files.push(new_file(timestamp))?;
    Ok(files)
}

/// Replaces the files of a signed repository in the folder of its metadata, which is there, one after another, each whole, as `replace_files` does:
/// the documents of delegated roles, the targets, the snapshot, the root, and the timestamp last. The files of targets stand in their places
/// before. With consistent snapshots, wherever a run of it ends, who loads the folder meets the version before or this one; between a root
/// with another key for timestamps and the new timestamp it refuses the old one (TUF specification 1.0, section 6.2).
#[tactic(auto, using(crate::proofs::Ordered::unbegun))]
pub fn replace_repository<F: Files>(
    alloc: Global,
    files: &mut F,
    folder: &str,
    signed: &SignedRepository,
) -> Result<(), ReplaceError>
    ensures ok { F.tells ≡ true → IfOk result (λ u. AreReplaced folder.now
        (replaced_files signed.now) (F.contents files.old) (F.contents files.new)) }
    ensures err { F.tells ≡ true → IfErr result (λ e. StopsAmong folder.now
        (replaced_files signed.now) e (F.contents files.old) (F.contents files.new)) }
{
    let consistent = signed.delegated_targets().consistent_snapshot();
    let Ok(named) = signed.named_files(alloc, consistent) else {
        return Err(ReplaceError::Memory);
    };
    let Ok(list) = in_order(alloc, named.as_slice()) else {
        return Err(ReplaceError::Memory);
    };
    replace_files(alloc, files, folder, list.as_slice())
}
