//! The snapshot and the timestamp.

ghost use Rattle.std.specs.Prelude.{◌≡◌, codes, IfOk, IfErr, OnOk};
ghost use Rattle.tough_roles.specs.Snapshot.{snapshot_doc};
ghost use Rattle.tough_roles.specs.Timestamp.{metafiles_doc, timestamp_doc};
ghost use Rattle.tough_roles.specs.Root.{root_doc};
ghost use Rattle.tough_signed.specs.Holders.{holder_doc, by_root};
ghost use Rattle.tough_release.specs.Edits.{heading_doc};
ghost use Rattle.tough_release.specs.Documents.{with_role_meta, snapshot_metas, timestamp_metas, IsSnapshot, IsTimestamp, IsHeadless};
ghost use Rattle.tough_release.specs.Release.{IsSnapshotBy, IsTimestampBy, IsSnapshotRefused, IsTimestampRefused, AreRefused};

use crate::filing::Filed;
use crate::heading::Heading;
use std::alloc::{AllocError, Global};
use std::collections::BTreeMap;
use tough_keys::Sign;
use tough_roles::{Metafile, Root, Snapshot, Timestamp};
use tough_schema::{DelegatedTargets, KeyHolder};
use tough_sign::list_file;
use tough_signed::{EditError, SignedRole};

// Lists the document's file under the role's name.
fn list_role(
    alloc: Global,
    metas: &mut BTreeMap<String, Metafile>,
    role: &SignedRole<DelegatedTargets>,
) -> Result<(), AllocError>
    ensures { OnOk result (metafiles_doc metas.new.entries
        ≡ with_role_meta (metafiles_doc metas.old.entries) role.now) }
{
    let document = &role.signed().signed;
    list_file(
        alloc,
        metas,
        document.name.as_str(),
        role.file(),
        document.targets.version,
    )
}

// What a snapshot lists of these files.
fn snapshot_metas(alloc: Global, filed: &Filed) -> Result<BTreeMap<String, Metafile>, AllocError>
    ensures { IfOk result (λ m. metafiles_doc m.entries
        ≡ snapshot_metas filed.now.targets filed.now.delegated.items) }
{
    let mut metas = BTreeMap::new(alloc);
    let targets = &filed.targets;
    let version = targets.signed().signed.version;
    list_file(alloc, &mut metas, "targets", targets.file(), version)?;
    for role in &filed.delegated {
        list_role(alloc, &mut metas, role)?;
    }
    Ok(metas)
}

// What a timestamp lists of the snapshot.
fn timestamp_metas(
    alloc: Global,
    snapshot: &SignedRole<Snapshot>,
) -> Result<BTreeMap<String, Metafile>, AllocError>
    ensures { IfOk result (λ m. metafiles_doc m.entries ≡ timestamp_metas snapshot.now) }
{
    let mut metas = BTreeMap::new(alloc);
    let version = snapshot.signed().signed.version;
    list_file(alloc, &mut metas, "snapshot", snapshot.file(), version)?;
    Ok(metas)
}

// The snapshot with what is set, and with these entries.
fn build_snapshot(
    alloc: Global,
    heading: Heading,
    meta: BTreeMap<String, Metafile>,
) -> Result<Snapshot, EditError>
    ensures built { IfOk result (λ s. IsSnapshot (heading_doc heading)
        (metafiles_doc meta.entries) (snapshot_doc s)) }
    ensures refused { IfErr result (IsHeadless (codes "snapshot version")
        (codes "snapshot expiration") (heading_doc heading)) }
{
    let Heading {
        version,
        expires,
        extra,
    } = heading;
    let Some(version) = version else {
        return Err(EditError::Missing {
            field: "snapshot version",
        });
    };
    let Some(expires) = expires else {
        return Err(EditError::Missing {
            field: "snapshot expiration",
        });
    };
    let spec_version = String::from_str(alloc, "1.0.0")?;
    Ok(Snapshot {
        spec_version,
        version,
        expires,
        meta,
        _extra: extra,
    })
}

// The timestamp with what is set, and with these entries.
fn build_timestamp(
    alloc: Global,
    heading: Heading,
    meta: BTreeMap<String, Metafile>,
) -> Result<Timestamp, EditError>
    ensures built { IfOk result (λ s. IsTimestamp (heading_doc heading)
        (metafiles_doc meta.entries) (timestamp_doc s)) }
    ensures refused { IfErr result (IsHeadless (codes "timestamp version")
        (codes "timestamp expiration") (heading_doc heading)) }
{
    let Heading {
        version,
        expires,
        extra,
    } = heading;
    let Some(version) = version else {
        return Err(EditError::Missing {
            field: "timestamp version",
        });
    };
    let Some(expires) = expires else {
        return Err(EditError::Missing {
            field: "timestamp expiration",
        });
    };
    let spec_version = String::from_str(alloc, "1.0.0")?;
    Ok(Timestamp {
        spec_version,
        version,
        expires,
        meta,
        _extra: extra,
    })
}

// The snapshot of these files, signed for the holder. The refusals, in this order: `Missing` with `snapshot version`, and with
// `snapshot expiration`; those of `SignedRole::new`.
fn sign_snapshot<S: Sign>(
    alloc: Global,
    holder: &KeyHolder,
    heading: Heading,
    filed: &Filed,
    signers: &[S],
) -> Result<SignedRole<Snapshot>, EditError>
    ensures signed { IfOk result (IsSnapshotBy S.key S.signs (holder_doc holder.now) signers.now
        (heading_doc heading)
        (snapshot_metas filed.now.targets filed.now.delegated.items)) }
    ensures refused { IfErr result (IsSnapshotRefused S.key S.signs S.fails
        (holder_doc holder.now) signers.now (heading_doc heading)
        (snapshot_metas filed.now.targets filed.now.delegated.items)) }
{
    let metas = snapshot_metas(alloc, filed)?;
    let snapshot = match build_snapshot(alloc, heading, metas) {
        Ok(snapshot) => snapshot,
        Err(error) => return Err(error),
    };
    SignedRole::new(alloc, snapshot, holder, signers)
}

// The timestamp of this snapshot, signed for the holder. The refusals, in this order: `Missing` with `timestamp version`, and with
// `timestamp expiration`; those of `SignedRole::new`.
fn sign_timestamp<S: Sign>(
    alloc: Global,
    holder: &KeyHolder,
    heading: Heading,
    snapshot: &SignedRole<Snapshot>,
    signers: &[S],
) -> Result<SignedRole<Timestamp>, EditError>
    ensures signed { IfOk result (IsTimestampBy S.key S.signs (holder_doc holder.now) signers.now
        (heading_doc heading) (timestamp_metas snapshot.now)) }
    ensures refused { IfErr result (IsTimestampRefused S.key S.signs S.fails
        (holder_doc holder.now) signers.now (heading_doc heading) (timestamp_metas snapshot.now)) }
{
    let metas = timestamp_metas(alloc, snapshot)?;
    let timestamp = match build_timestamp(alloc, heading, metas) {
        Ok(timestamp) => timestamp,
        Err(error) => return Err(error),
    };
    SignedRole::new(alloc, timestamp, holder, signers)
}

/// The snapshot of these files and the timestamp of that snapshot, signed by the root's keys. The refusals, in this order: `Missing` with
/// `snapshot version`, and with `snapshot expiration`; those of `SignedRole::new` for the snapshot; the same for the timestamp.
pub(crate) fn sign_both<S: Sign>(
    alloc: Global,
    root: &Root,
    first: Heading,
    second: Heading,
    filed: &Filed,
    signers: &[S],
) -> Result<(SignedRole<Snapshot>, SignedRole<Timestamp>), EditError>
    ensures snapshot { IfOk result (λ p. IsSnapshotBy S.key S.signs
        (by_root (root_doc root.now)) signers.now (heading_doc first)
        (snapshot_metas filed.now.targets filed.now.delegated.items) p.0) }
    ensures timestamp { IfOk result (λ p. IsTimestampBy S.key S.signs
        (by_root (root_doc root.now)) signers.now (heading_doc second)
        (timestamp_metas p.0) p.1) }
    ensures refused { IfErr result (AreRefused S.key S.signs S.fails
        (by_root (root_doc root.now)) signers.now (heading_doc first) (heading_doc second)
        (snapshot_metas filed.now.targets filed.now.delegated.items)) }
{
    let root = root.clone()?;
    let holder = KeyHolder::Root(root);
    let snapshot = match sign_snapshot(alloc, &holder, first, filed, signers) {
        Ok(snapshot) => snapshot,
        Err(error) => return Err(error),
    };
    match sign_timestamp(alloc, &holder, second, &snapshot, signers) {
        Ok(timestamp) => Ok((snapshot, timestamp)),
        Err(error) => Err(error),
    }
}
