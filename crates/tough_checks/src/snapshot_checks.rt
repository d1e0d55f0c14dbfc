//! The checks of a snapshot's step, in their order.

ghost use Rattle.std.specs.Prelude.{◌≡◌, IfOk, map};
ghost use Rattle.tough_roles.specs.Signature.{signed_doc};
ghost use Rattle.tough_roles.specs.Root.{root_doc};
ghost use Rattle.tough_roles.specs.Timestamp.{metafile_doc, metafiles_doc};
ghost use Rattle.tough_roles.specs.Snapshot.{snapshot_doc};
ghost use Rattle.tough_checks.specs.Documents.{snapshot_verdict};
ghost use Rattle.tough_checks.specs.StoredDocuments.{content, stored_snapshot};
ghost use Rattle.tough_checks.specs.Versions.{roles_where, items_of, roles_of, version_in};
ghost use Rattle.tough_checks.specs.Checks.{Checked, RefusedBy, items_in, snapshot_form, snapshot_first, fallen_at, fallen, snapshot_older, snapshot_against, snapshot_tip, snapshot_after, snapshot_where, enforces, roles_in};

use crate::checks::{
    ExpirationEnforcement, Refusal, StepError, check_expiry, check_signed, check_version,
};
use crate::stored::accepted;
use crate::versions::{ListedVersion, SnapshotVersions};
use jiff::Timestamp as Instant;
use std::alloc::{AllocError, Global};
use std::collections::BTreeMap;
use tough_roles::{Metafile, RoleType, Root, Signed, Snapshot, Verify};

/// The stored snapshot, if the file can be read and the root verifies it. The only refusal is out of memory.
pub fn read_snapshot<V: Verify>(
    alloc: Global,
    verifier: &V,
    root: &Root,
    found: &Option<Vec<u8>>,
) -> Result<Option<Snapshot>, AllocError>
    ensures { IfOk result (λ old. snapshot_where old
        ≡ stored_snapshot (V.verifies verifier.now) (root_doc root.now) (content found.now)) }
{
    let Some(bytes) = found else {
        return Ok(None);
    };
    let read = Signed::<Snapshot>::read(alloc, bytes.as_slice());
    accepted(alloc, verifier, root, read)
}

// A snapshot lists `targets.json`.
fn check_form(snapshot: &Snapshot) -> Result<(), Refusal>
    ensures { RefusedBy (snapshot_form (snapshot_doc snapshot.now)) result }
{
    if snapshot.metafile("targets.json").is_none() {
        return Err(Refusal::SnapshotTargetsMetaMissing {
            version: snapshot.version.get(),
        });
    }
    Ok(())
}

/// Before the stored snapshot is read.
pub fn check_snapshot<V: Verify>(
    alloc: Global,
    verifier: &V,
    root: &Root,
    listed: u64,
    new: &Signed<Snapshot>,
) -> Result<(), StepError>
    ensures { Checked (snapshot_first listed
        (snapshot_verdict (V.verifies verifier.now) (root_doc root.now)
        (signed_doc snapshot_doc new.now)) (snapshot_doc new.now.signed)) result }
{
    check_version(RoleType::Snapshot, new.signed.version.get(), listed)?;
    check_signed(RoleType::Snapshot, root.verify_role(alloc, new, verifier))?;
    Ok(check_form(&new.signed)?)
}

// The version that is listed for a name.
fn listed_version(snapshot: &Snapshot, name: &str) -> Option<u64>
    ensures { result ≡ version_in (items_in (snapshot_doc snapshot.now).meta) name.now }
{
    match snapshot.metafile(name) {
        Some(metafile) => Some(metafile.version.get()),
        None => None,
    }
}

// A name that an older snapshot lists with a version, against what a newer one lists for it.
fn check_role(
    alloc: Global,
    name: &str,
    was: u64,
    old_version: u64,
    new: &Snapshot,
) -> Result<(), StepError>
    ensures { Checked (fallen_at (record { name = name.now; version = was })
        (version_in (items_in (snapshot_doc new.now).meta) name.now) old_version
        (snapshot_doc new.now).head.version) result }
{
    let new_version = new.version.get();
    let now = listed_version(new, name);
    if let Some(now) = now
        && was <= now
    {
        return Ok(());
    }
    let Ok(role) = String::from_str(alloc, name) else {
        return Err(StepError::Memory);
    };
    match now {
        Some(now) => Err(StepError::Refused(Refusal::SnapshotRoleRollback {
            role,
            old_role_version: was,
            old_snapshot_version: old_version,
            new_role_version: now,
            new_snapshot_version: new_version,
        })),
        None => Err(StepError::Refused(Refusal::SnapshotRoleMissing {
            role,
            old_version,
            new_version,
        })),
    }
}

// The first name that the older snapshot lists, in order, that is missing or fell.
fn check_stored_roles(alloc: Global, old: &Snapshot, new: &Snapshot) -> Result<(), StepError>
    ensures { Checked (fallen (items_in (snapshot_doc old.now).meta)
        (items_in (snapshot_doc new.now).meta) (snapshot_doc old.now).head.version
        (snapshot_doc new.now).head.version) result }
{
    let old_version = old.version.get();
    for (name, metafile) in old.meta.iter() {
        if let Err(error) = check_role(
            alloc,
            name.as_str(),
            metafile.version.get(),
            old_version,
            new,
        ) {
            return Err(error);
        }
    }
    Ok(())
}

// The same of what was accepted last.
fn check_tip_roles(alloc: Global, tip: &SnapshotVersions, new: &Snapshot) -> Result<(), StepError>
    ensures { Checked (fallen (items_of tip.now.roles.items) (items_in (snapshot_doc new.now).meta)
        tip.now.version (snapshot_doc new.now).head.version) result }
{
    for item in &tip.roles {
        if let Err(error) = check_role(alloc, item.name.as_str(), item.version, tip.version, new) {
            return Err(error);
        }
    }
    Ok(())
}

// The snapshot's version isn't lower than an older one's.
fn check_not_older(old: u64, new: &Snapshot) -> Result<(), Refusal>
    ensures { RefusedBy (snapshot_older old (snapshot_doc new.now)) result }
{
    let new_version = new.version.get();
    if new_version < old {
        return Err(Refusal::OlderMetadata {
            role: RoleType::Snapshot,
            current_version: old,
            new_version,
        });
    }
    Ok(())
}

// Against the stored snapshot.
fn check_against(alloc: Global, old: &Option<Snapshot>, new: &Snapshot) -> Result<(), StepError>
    ensures { Checked (snapshot_against (snapshot_where old.now) (snapshot_doc new.now)) result }
{
    let Some(old) = old else {
        return Ok(());
    };
    check_not_older(old.version.get(), new)?;
    check_form(old)?;
    check_stored_roles(alloc, old, new)
}

// Against the tip.
fn check_tip(alloc: Global, tip: &Option<SnapshotVersions>, new: &Snapshot) -> Result<(), StepError>
    ensures { Checked (snapshot_tip (roles_where tip.now) (snapshot_doc new.now)) result }
{
    let Some(tip) = tip else {
        return Ok(());
    };
    check_not_older(tip.version, new)?;
    check_tip_roles(alloc, tip, new)
}

/// After the stored snapshot was read: against it, against the tip, and expiry.
pub fn check_snapshot_late(
    alloc: Global,
    old: &Option<Snapshot>,
    tip: &Option<SnapshotVersions>,
    new: &Snapshot,
    start: Instant,
    enforcement: ExpirationEnforcement,
) -> Result<(), StepError>
    ensures { Checked (snapshot_after (snapshot_where old.now) (roles_where tip.now)
        (snapshot_doc new.now) start.nanosecond (enforces enforcement)) result }
{
    check_against(alloc, old, new)?;
    check_tip(alloc, tip, new)?;
    Ok(check_expiry(RoleType::Snapshot, enforcement, start, new.expires)?)
}

/// What a snapshot lists, to be noted.
pub fn versions_of(alloc: Global, snapshot: &Snapshot) -> Result<SnapshotVersions, AllocError>
    ensures { IfOk result (λ versions. roles_of versions ≡ roles_in (snapshot_doc snapshot.now)) }
{
    let roles = listed_versions(alloc, &snapshot.meta)?;
    Ok(SnapshotVersions {
        version: snapshot.version.get(),
        roles,
    })
}

fn listed_versions(
    alloc: Global,
    meta: &BTreeMap<String, Metafile>,
) -> Result<Vec<ListedVersion>, AllocError>
    ensures { IfOk result (λ roles. items_of roles.items
        ≡ items_in (metafiles_doc meta.now.entries)) }
{
    let mut roles = Vec::new(alloc);
    for (name, metafile) in meta.iter() {
        let name = name.clone()?;
        let version = metafile.version.get();
        roles.push(ListedVersion { name, version })?;
    }
    Ok(roles)
}
