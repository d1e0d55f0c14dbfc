//! The targets whose files are copied or linked.

ghost use Rattle.std.specs.Prelude.{◌≡◌, [], true, IfOk, OnOk, map, option_map};
ghost use Rattle.tough_roles.specs.Timestamp.{hashes_doc};
ghost use Rattle.tough_schema.specs.Entries.{merged_into};
ghost use Rattle.tough_schema.specs.Gather.{map_docs};
ghost use Rattle.tough_signed.specs.Standing as signed;
ghost use Rattle.tough_write.specs.Listed.{listing_in, is_consistent, listed_by, listed_in_role, listed_in_repository, repository_is_consistent, listed_hashes};
ghost use Rattle.tough_write.specs.Putting.{copying, linking, given, manner, manner_of, Puts};
ghost use Rattle.tough_write.specs.Walking.{PutsAll};

use crate::error::OutputError;
use crate::path_exists::PathExists;
use crate::put::{Making, Putting};
use std::alloc::{AllocError, Global};
use std::collections::BTreeMap;
use tough_files::Files;
use tough_names::TargetName;
use tough_release::SignedRepository;
use tough_roles::Hashes;
use tough_schema::{DelegatedTargets, Target};
use tough_signed::{SignedDelegatedTargets, SignedRole};

/// Targets that are listed, and whether the names of their files have digests: what files are copied or linked by.
#[derive(Drop)]
pub struct TargetFiles<'a> {
    targets: BTreeMap<TargetName, &'a Target>,
    consistent_snapshot: bool,
}

impl<'a> TargetFiles<'a> {
    /// These targets. Where snapshots are consistent, the names of their files begin with the digest (TUF specification 1.0, section 6.2).
    pub fn new(
        targets: BTreeMap<TargetName, &'a Target>,
        consistent_snapshot: bool,
    ) -> TargetFiles<'a>
        ensures targets { listing_in result ≡ map_docs targets.entry.entries }
        ensures consistent { is_consistent result ≡ consistent_snapshot }
    {
        TargetFiles {
            targets,
            consistent_snapshot,
        }
    }

    /// The targets of these documents and of those below them; of two of one name the later one.
    pub fn of_roles(
        alloc: Global,
        roles: &'a SignedDelegatedTargets,
    ) -> Result<TargetFiles<'a>, AllocError>
        ensures targets { IfOk result
            (λ t. listing_in t ≡ merged_into [] (listed_by (signed.roles_of roles.now))) }
        ensures consistent { IfOk result
            (λ t. is_consistent t ≡ signed.is_consistent roles.now) }
    {
        let mut targets = BTreeMap::new(alloc);
        let all = roles.roles();
        for role in all {
            add_listed(alloc, role, &mut targets)?;
        }
        Ok(TargetFiles::new(targets, roles.consistent_snapshot()))
    }

    /// The targets of the repository, of those of one name the later one; the names of their files have digests where its root says so.
    pub fn of_repository(
        alloc: Global,
        repository: &'a SignedRepository,
    ) -> Result<TargetFiles<'a>, AllocError>
        ensures targets { IfOk result
            (λ t. listing_in t ≡ merged_into [] (listed_in_repository repository.now)) }
        ensures consistent { IfOk result
            (λ t. is_consistent t ≡ repository_is_consistent repository.now) }
    {
        let targets = repository.targets().signed().signed.targets_map(alloc)?;
        let consistent_snapshot = repository.root().signed().signed.consistent_snapshot;
        Ok(TargetFiles::new(targets, consistent_snapshot))
    }

    // The digests that are listed under the name.
    pub(crate) fn hashes(&self, name: &TargetName) -> Option<&Hashes>
        ensures { option_map (λ h. hashes_doc h.now) result
            ≡ listed_hashes (listing_in self.now) name.now }
    {
        match self.targets.get(name) {
            Some(target) => Some(&target.hashes),
            None => None,
        }
    }

    pub(crate) fn consistent_snapshot(&self) -> bool
        ensures { result ≡ is_consistent self.now }
    {
        self.consistent_snapshot
    }
}

// Adds what a document and those below it list; a later listing takes the place of an earlier one.
fn add_listed<'a>(
    alloc: Global,
    role: &'a SignedRole<DelegatedTargets>,
    targets: &mut BTreeMap<TargetName, &'a Target>,
) -> Result<(), AllocError>
    ensures { OnOk result (map_docs targets.new.entries
        ≡ merged_into (map_docs targets.old.entries) (listed_in_role role.now)) }
{
    let listed = role.signed().signed.targets.targets_iter(alloc)?;
    for entry in &listed {
        let (name, target) = *entry;
        targets.insert(name.clone()?, target)?;
    }
    Ok(())
}

impl<'a> TargetFiles<'a> {
    /// Copies the file into the folder, as the file of the target of this name, or else of the input's last component. The refusals, in this order:
    /// `PathIsNotFile`; `NoFileName`, `Name`; `TargetFromPath`; `PathIsNotTarget` where no target has the name, `HashMismatch` where it has another
    /// digest; `AbsolutePath`; `SaveTargetUnsafePath` where the file would lie outside the folder; `DirCreate`, `AbsolutePath` and again
    /// `SaveTargetUnsafePath`, links followed. Where nothing stands there: `FileWrite`. Else, without consistent snapshots, `FileRead` and `HashMismatch`
    /// for what stands there; `FileMetadata`, `TargetFileTypeMismatch` for a link, `InvalidFileType`; then `PathExistsFail`, or `RemoveTarget` and
    /// `FileWrite`.
    pub fn copy_target<F: Files>(
        &self,
        alloc: Global,
        files: &mut F,
        input_path: &str,
        outdir: &str,
        replace_behavior: PathExists,
        target_filename: Option<&TargetName>,
    ) -> Result<(), OutputError>
        ensures { F.tells ≡ true
            → Puts (copying self.now outdir.now replace_behavior) input_path.now
            (given target_filename.entry) result (F.calls files.old) (F.calls files.new) }
    {
        self.putting(alloc, Making::Copy, outdir, replace_behavior)
            .put(files, input_path, target_filename)
    }

    /// Links to the file in the folder, as `copy_target` copies it. `LinkCreate` takes the place of `FileWrite`, and `TargetFileTypeMismatch` comes for a
    /// file.
    pub fn link_target<F: Files>(
        &self,
        alloc: Global,
        files: &mut F,
        input_path: &str,
        outdir: &str,
        replace_behavior: PathExists,
        target_filename: Option<&TargetName>,
    ) -> Result<(), OutputError>
        ensures { F.tells ≡ true
            → Puts (linking self.now outdir.now replace_behavior) input_path.now
            (given target_filename.entry) result (F.calls files.old) (F.calls files.new) }
    {
        self.putting(alloc, Making::Link, outdir, replace_behavior)
            .put(files, input_path, target_filename)
    }

    /// Copies each file of the folder, and of those below it, as `copy_target` does, in the order of the bytes of their names; a file that is no target is
    /// passed over. A link to a file counts as one, and a link to a folder is passed over. The refusals, in this order: `DirCreate` for the output folder;
    /// `AbsolutePath` for the input folder; `WalkDir` for a folder that can't be listed, a path that can't be looked up, or a folder more than 128 folders
    /// deep; those of `copy_target` but for `PathIsNotTarget`. The files before a refusal stay.
    pub fn copy_targets<F: Files>(
        &self,
        alloc: Global,
        files: &mut F,
        indir: &str,
        outdir: &str,
        replace_behavior: PathExists,
    ) -> Result<(), OutputError>
        ensures { F.tells ≡ true
            → PutsAll (copying self.now outdir.now replace_behavior) indir.now result
            (F.calls files.old) (F.calls files.new) }
    {
        self.putting(alloc, Making::Copy, outdir, replace_behavior)
            .put_all(files, indir)
    }

    /// Links to each file of the folder, and of those below it, as `copy_targets` copies them.
    pub fn link_targets<F: Files>(
        &self,
        alloc: Global,
        files: &mut F,
        indir: &str,
        outdir: &str,
        replace_behavior: PathExists,
    ) -> Result<(), OutputError>
        ensures { F.tells ≡ true
            → PutsAll (linking self.now outdir.now replace_behavior) indir.now result
            (F.calls files.old) (F.calls files.new) }
    {
        self.putting(alloc, Making::Link, outdir, replace_behavior)
            .put_all(files, indir)
    }

    // How files are put into the folder.
    fn putting<'b>(
        &'b self,
        alloc: Global,
        making: Making,
        outdir: &'b str,
        exists: PathExists,
    ) -> Putting<'b, 'a>
        ensures { manner_of result ≡ manner self.now making outdir.now exists }
    {
        Putting {
            alloc,
            targets: self,
            making,
            outdir,
            exists,
        }
    }
}
