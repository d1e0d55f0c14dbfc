//! The editor of a repository.

ghost use Rattle.std.specs.Prelude.{◌≡◌, ◌⊎◌, true, codes, IfOk, IfErr};
ghost use Rattle.std.specs.Int.NonZero.{non_zero_u64_get};
ghost use Rattle.tough_files.specs.Contents.{Same};
ghost use Rattle.tough_roles.specs.Signature.{signed_doc};
ghost use Rattle.tough_roles.specs.Snapshot.{snapshot_doc};
ghost use Rattle.tough_roles.specs.Timestamp.{timestamp_doc};
ghost use Rattle.tough_schema.specs.FileDigest.{there};
ghost use Rattle.tough_schema.specs.Targets.{targets_doc};
ghost use Rattle.tough_schema.specs.Whole.{tree_doc};
ghost use Rattle.tough_signed.specs.declared.error.EditError.TheVariants as errors;
ghost use Rattle.tough_release.specs.Edits.{ReleaseDoc, release_doc, with_targets, with_snapshot_extra, with_timestamp_extra, IsOtherVersion, with_snapshot_version, with_snapshot_expiry, with_timestamp_version, with_timestamp_expiry};
ghost use Rattle.tough_editor.specs.Wide.{Told};
ghost use Rattle.tough_editor.specs.Editors.{alone, changed, with_limits, with_transport};
ghost use Rattle.tough_publish.specs.Editors.{editor_doc};
ghost use Rattle.tough_publish.specs.Roots.{IsBegun, IsRootAt, IsRootless, IsPartless, with_parts};

use crate::root::{begin, begin_with};
use std::alloc::Global;
use std::num::NonZeroU64;
use tough_editor::wide;
use tough_error::Error;
use tough_files::Files;
use tough_net::Limits;
use tough_parts::RepositoryParts;
use tough_release::RepositoryEdits;
use tough_roles::{Signed, Snapshot, Timestamp};
use tough_schema::Targets;

/// An editor of a repository (TUF specification 1.0, section 4), with the limits and the transport by which it fetches roles.
///
/// A call that refuses changes nothing, but that `add_target_paths` keeps the paths that it has added.
#[derive(Drop)]
pub struct RepositoryEditor<T> {
    pub(crate) alloc: Global,
    pub(crate) edits: RepositoryEdits,
    pub(crate) limits: Option<Limits>,
    pub(crate) transport: Option<T>,
}

impl<T> RepositoryEditor<T> {
    /// An editor that stands on the signed root whose file is at the path: an editor of new targets is open, which the root's keys sign, and nothing
    /// else is set. The errors, in this order: `FileRead`; `FileParseJson`; `UnstableRoot` for the first role that lists fewer identifiers than its
    /// threshold (section 4.3).
    pub fn new<F: Files>(
        alloc: Global,
        files: &mut F,
        root_path: &str,
    ) -> Result<RepositoryEditor<T>, Error>
        ensures begun { IfOk result
            (λ e. IsBegun (editor_doc e).edits × (editor_doc e ≡ alone (editor_doc e).edits)) }
        ensures file { F.tells ≡ true → IfOk result
            (λ e. IsRootAt (there root_path.now (F.contents files.old)) (editor_doc e).edits) }
        ensures refused { F.tells ≡ true → IfErr result
            (Told (IsRootless root_path.now (there root_path.now (F.contents files.old)))) }
        ensures kept { F.tells ≡ true → Same (F.contents files.old) (F.contents files.new) }
    {
        match begin(alloc, files, root_path) {
            Ok(edits) => Ok(RepositoryEditor {
                alloc,
                edits,
                limits: None,
                transport: None,
            }),
            Err(error) => Err(wide(alloc, error)),
        }
    }

    /// The same editor, with what a loaded repository leaves: its targets, and an editor over them, the extras of its snapshot and of its timestamp,
    /// its limits and its transport. The errors, in this order: those of `new`; `SpecVersion` for the first of these documents that is of another
    /// version of the specification than `1.0.0`.
    pub fn from_repo<F: Files>(
        alloc: Global,
        files: &mut F,
        root_path: &str,
        parts: RepositoryParts<T>,
    ) -> Result<RepositoryEditor<T>, Error>
    where
        T: Drop,
        ensures taken { IfOk result
            (λ e. (d : ReleaseDoc) × IsBegun d × (editor_doc e ≡ with_parts parts d)) }
        ensures file { F.tells ≡ true → IfOk result
            (λ e. IsRootAt (there root_path.now (F.contents files.old)) (editor_doc e).edits) }
        ensures refused { F.tells ≡ true → IfErr result
            (Told (IsPartless root_path.now (there root_path.now (F.contents files.old)) parts)) }
        ensures kept { F.tells ≡ true → Same (F.contents files.old) (F.contents files.new) }
    {
        let RepositoryParts {
            transport,
            limits,
            root: _,
            timestamp,
            snapshot,
            targets,
        } = parts;
        match begin_with(
            alloc,
            files,
            root_path,
            targets,
            snapshot.signed,
            timestamp.signed,
        ) {
            Ok(edits) => Ok(RepositoryEditor {
                alloc,
                edits,
                limits: Some(limits),
                transport: Some(transport),
            }),
            Err(error) => Err(wide(alloc, error)),
        }
    }

    /// The edits so far.
    pub fn edits(&self) -> &RepositoryEdits
        ensures { release_doc result.now ≡ (editor_doc self.now).edits }
    {
        &self.edits
    }

    /// Sets the limits under which roles are fetched.
    pub fn limits(&mut self, limits: Limits) -> &mut Self
        ensures set { editor_doc result.now ≡ with_limits (editor_doc self.old) limits }
        ensures lent { result.ghost_name ≡ self.entry.ghost_name }
    {
        self.limits = Some(limits);
        self
    }

    /// Sets the transport by which roles are fetched.
    pub fn transport(&mut self, transport: T) -> &mut Self
    where
        T: Drop,
        ensures set { editor_doc result.now ≡ with_transport (editor_doc self.old) transport }
        ensures lent { result.ghost_name ≡ self.entry.ghost_name }
    {
        self.transport = Some(transport);
        self
    }

    /// Takes the signed targets over, and opens an editor over them, in the place of one that is open; `SpecVersion` where they are of another
    /// version of the specification than `1.0.0` (section 4.5).
    pub fn targets(&mut self, targets: Signed<Targets>) -> Result<&mut Self, Error>
        ensures taken { IfOk result (λ e. editor_doc e.now
            ≡ changed (with_targets (signed_doc tree_doc targets)) (editor_doc self.old)) }
        ensures lent { IfOk result (λ e. e.ghost_name ≡ self.entry.ghost_name) }
        ensures version { IfOk result
            (λ e. (targets_doc targets.signed).head.spec_version ≡ codes "1.0.0") }
        ensures refused { IfErr result (Told (λ e. (e ≡ errors.Memory)
            ⊎ IsOtherVersion (targets_doc targets.signed).head.spec_version e)) }
    {
        match self.edits.targets(self.alloc, targets) {
            Ok(()) => Ok(self),
            Err(error) => Err(wide(self.alloc, error)),
        }
    }

    /// Takes over the snapshot's extras, and nothing else; `SpecVersion` where it is of another version of the specification than `1.0.0` (section
    /// 4.4).
    pub fn snapshot(&mut self, snapshot: Snapshot) -> Result<&mut Self, Error>
        ensures taken { IfOk result (λ e. editor_doc e.now ≡ changed
            (with_snapshot_extra (snapshot_doc snapshot).extra) (editor_doc self.old)) }
        ensures lent { IfOk result (λ e. e.ghost_name ≡ self.entry.ghost_name) }
        ensures version { IfOk result
            (λ e. (snapshot_doc snapshot).head.spec_version ≡ codes "1.0.0") }
        ensures refused { IfErr result
            (Told (IsOtherVersion (snapshot_doc snapshot).head.spec_version)) }
    {
        match self.edits.snapshot(snapshot) {
            Ok(()) => Ok(self),
            Err(error) => Err(wide(self.alloc, error)),
        }
    }

    /// Takes over the timestamp's extras, and nothing else; `SpecVersion` where it is of another version of the specification than `1.0.0` (section
    /// 4.6).
    pub fn timestamp(&mut self, timestamp: Timestamp) -> Result<&mut Self, Error>
        ensures taken { IfOk result (λ e. editor_doc e.now ≡ changed
            (with_timestamp_extra (timestamp_doc timestamp).extra) (editor_doc self.old)) }
        ensures lent { IfOk result (λ e. e.ghost_name ≡ self.entry.ghost_name) }
        ensures version { IfOk result
            (λ e. (timestamp_doc timestamp).head.spec_version ≡ codes "1.0.0") }
        ensures refused { IfErr result
            (Told (IsOtherVersion (timestamp_doc timestamp).head.spec_version)) }
    {
        match self.edits.timestamp(timestamp) {
            Ok(()) => Ok(self),
            Err(error) => Err(wide(self.alloc, error)),
        }
    }

    /// Sets the version that the snapshot will have.
    pub fn snapshot_version(&mut self, version: NonZeroU64) -> &mut Self
        ensures set { editor_doc result.now ≡ changed
            (with_snapshot_version (non_zero_u64_get version)) (editor_doc self.old) }
        ensures lent { result.ghost_name ≡ self.entry.ghost_name }
    {
        self.edits.snapshot_version(version);
        self
    }

    /// Sets when the snapshot will expire.
    pub fn snapshot_expires(&mut self, expires: jiff::Timestamp) -> &mut Self
        ensures set { editor_doc result.now
            ≡ changed (with_snapshot_expiry expires.nanosecond) (editor_doc self.old) }
        ensures lent { result.ghost_name ≡ self.entry.ghost_name }
    {
        self.edits.snapshot_expires(expires);
        self
    }

    /// Sets the version that the timestamp will have.
    pub fn timestamp_version(&mut self, version: NonZeroU64) -> &mut Self
        ensures set { editor_doc result.now ≡ changed
            (with_timestamp_version (non_zero_u64_get version)) (editor_doc self.old) }
        ensures lent { result.ghost_name ≡ self.entry.ghost_name }
    {
        self.edits.timestamp_version(version);
        self
    }

    /// Sets when the timestamp will expire.
    pub fn timestamp_expires(&mut self, expires: jiff::Timestamp) -> &mut Self
        ensures set { editor_doc result.now
            ≡ changed (with_timestamp_expiry expires.nanosecond) (editor_doc self.old) }
        ensures lent { result.ghost_name ≡ self.entry.ghost_name }
    {
        self.edits.timestamp_expires(expires);
        self
    }
}
