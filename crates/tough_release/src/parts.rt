//! Documents that an editor takes over, and versions and expiries that are set.

ghost use Rattle.std.specs.Prelude.{◌≡◌, ◌⊎◌, codes, string_bytes, IfOk, IfErr, OnOk, OnErr};
ghost use Rattle.std.specs.Int.NonZero.{non_zero_u64_get};
ghost use Rattle.tough_roles.specs.Root.{root_doc};
ghost use Rattle.tough_roles.specs.Signature.{signed_doc};
ghost use Rattle.tough_roles.specs.Snapshot.{snapshot_doc};
ghost use Rattle.tough_roles.specs.Timestamp.{timestamp_doc};
ghost use Rattle.tough_schema.specs.Targets.{targets_doc};
ghost use Rattle.tough_schema.specs.Whole.{tree_doc};
ghost use Rattle.tough_signed.specs.Holders.{by_root};
ghost use Rattle.tough_signed.specs.declared.error.EditError.TheVariants as errors;
ghost use Rattle.tough_edit.specs.Edits.{edits_doc, opened};
ghost use Rattle.tough_release.specs.Holding.{top_name};
ghost use Rattle.tough_release.specs.Edits.{release_doc, with_targets, with_snapshot_extra, with_timestamp_extra, IsOtherVersion, with_snapshot_version, with_snapshot_expiry, with_timestamp_version, with_timestamp_expiry};

use crate::edits::RepositoryEdits;
use std::alloc::{AllocError, Global};
use std::mem;
use std::num::NonZeroU64;
use tough_edit::TargetEdits;
use tough_roles::{Root, Signed, Snapshot, Timestamp};
use tough_schema::{KeyHolder, Targets};
use tough_signed::EditError;

/// An editor over the top-level targets, which the root's keys sign.
pub fn top_editor(alloc: Global, root: &Root, targets: &Targets) -> Result<TargetEdits, AllocError>
    ensures { IfOk result (λ e. edits_doc e
        ≡ opened top_name (Some (by_root (root_doc root.now))) (tree_doc targets.now)) }
{
    let targets = targets.clone()?;
    let root = root.clone()?;
    let holder = KeyHolder::Root(root);
    TargetEdits::from_targets(alloc, "targets", targets, holder)
}

impl RepositoryEdits {
    /// Takes the signed targets over, and opens an editor over them, in the place of one that is open; `SpecVersion` where they are of another
    /// version of the specification than `1.0.0` (TUF specification 1.0, section 4.5).
    pub fn targets(&mut self, alloc: Global, targets: Signed<Targets>) -> Result<(), EditError>
        ensures taken { OnOk result (release_doc self.new
            ≡ with_targets (signed_doc tree_doc targets) (release_doc self.old)) }
        ensures version { IfOk result
            (λ u. (targets_doc targets.signed).head.spec_version ≡ codes "1.0.0") }
        ensures refused { IfErr result (λ e. (e ≡ errors.Memory)
            ⊎ IsOtherVersion (targets_doc targets.signed).head.spec_version e) }
        ensures unchanged { OnErr result (release_doc self.new ≡ release_doc self.old) }
    {
        if targets.signed.spec_version.as_str() != "1.0.0" {
            return Err(EditError::SpecVersion {
                given: targets.signed.spec_version.clone()?,
            });
        }
        let editor = top_editor(alloc, &self.root.signed().signed, &targets.signed)?;
        drop(mem::replace(&mut self.targets, Some(targets)));
        drop(mem::replace(&mut self.editor, Some(editor)));
        Ok(())
    }

    /// Takes over the snapshot's extras, and nothing else; `SpecVersion` where it is of another version of the specification than `1.0.0` (TUF
    /// specification 1.0, section 4.4).
    pub fn snapshot(&mut self, snapshot: Snapshot) -> Result<(), EditError>
        ensures taken { OnOk result (release_doc self.new
            ≡ with_snapshot_extra (snapshot_doc snapshot).extra (release_doc self.old)) }
        ensures version { IfOk result
            (λ u. (snapshot_doc snapshot).head.spec_version ≡ codes "1.0.0") }
        ensures refused { IfErr result
            (IsOtherVersion (snapshot_doc snapshot).head.spec_version) }
        ensures unchanged { OnErr result (release_doc self.new ≡ release_doc self.old) }
    {
        let Snapshot {
            spec_version,
            version: _,
            expires: _,
            meta: _,
            _extra,
        } = snapshot;
        if spec_version.as_str() != "1.0.0" {
            return Err(EditError::SpecVersion {
                given: spec_version,
            });
        }
        self.snapshot.extra = _extra;
        Ok(())
    }

    /// Takes over the timestamp's extras, and nothing else; `SpecVersion` where it is of another version of the specification than `1.0.0` (TUF
    /// specification 1.0, section 4.6).
    pub fn timestamp(&mut self, timestamp: Timestamp) -> Result<(), EditError>
        ensures taken { OnOk result (release_doc self.new
            ≡ with_timestamp_extra (timestamp_doc timestamp).extra (release_doc self.old)) }
        ensures version { IfOk result
            (λ u. (timestamp_doc timestamp).head.spec_version ≡ codes "1.0.0") }
        ensures refused { IfErr result
            (IsOtherVersion (timestamp_doc timestamp).head.spec_version) }
        ensures unchanged { OnErr result (release_doc self.new ≡ release_doc self.old) }
    {
        let Timestamp {
            spec_version,
            version: _,
            expires: _,
            meta: _,
            _extra,
        } = timestamp;
        if spec_version.as_str() != "1.0.0" {
            return Err(EditError::SpecVersion {
                given: spec_version,
            });
        }
        self.timestamp.extra = _extra;
        Ok(())
    }

    /// Sets the version that the snapshot will have.
    pub fn snapshot_version(&mut self, version: NonZeroU64)
        ensures { release_doc self.new
            ≡ with_snapshot_version (non_zero_u64_get version) (release_doc self.old) }
    {
        self.snapshot.version = Some(version);
    }

    /// Sets when the snapshot will expire.
    pub fn snapshot_expires(&mut self, expires: jiff::Timestamp)
        ensures { release_doc self.new
            ≡ with_snapshot_expiry expires.nanosecond (release_doc self.old) }
    {
        self.snapshot.expires = Some(expires);
    }

    /// Sets the version that the timestamp will have.
    pub fn timestamp_version(&mut self, version: NonZeroU64)
        ensures { release_doc self.new
            ≡ with_timestamp_version (non_zero_u64_get version) (release_doc self.old) }
    {
        self.timestamp.version = Some(version);
    }

    /// Sets when the timestamp will expire.
    pub fn timestamp_expires(&mut self, expires: jiff::Timestamp)
        ensures { release_doc self.new
            ≡ with_timestamp_expiry expires.nanosecond (release_doc self.old) }
    {
        self.timestamp.expires = Some(expires);
    }
}
