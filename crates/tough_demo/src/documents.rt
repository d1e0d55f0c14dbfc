//! The four roles (TUF specification 1.0, sections 4.3 to 4.6).
ghost use Rattle.std.specs.Prelude.{◌≡◌, [], ◌∷◌, ℤ, None, Ok, Some, IfOk, IsTrue, OnErr, codes};
ghost use Rattle.std.specs.Int.NonZero.{non_zero_u64_get};
ghost use Rattle.serde_json.specs.Data.{no_members};
ghost use Rattle.jiff.specs.Words.{parse_timestamp};
ghost use Rattle.tough_keys.specs.Key.{key_doc};
ghost use Rattle.tough_roles.specs.Root.{root_doc, roles_doc};
ghost use Rattle.tough_roles.specs.Timestamp.{metafile_doc, metafiles_doc, timestamp_doc};
ghost use Rattle.tough_roles.specs.Snapshot.{snapshot_doc};
ghost use Rattle.tough_schema.specs.Delegations.{no_delegations};
ghost use Rattle.tough_schema.specs.Targets.{listing_doc, targets_doc};
ghost use Rattle.tough_demo.specs.Demo.{AreSignedAlone, IsHead, IsKnownAlone};

use crate::error::DemoError;
use crate::keys::{identifier, signed_alone};
use jiff::Timestamp as Instant;
use serde_json::Map;
use std::alloc::Global;
use std::collections::BTreeMap;
use std::num::NonZeroU64;
use tough_names::TargetName;
use tough_schema::{Key, Metafile, RoleKeys, RoleType, Root, Snapshot, Target, Targets, Timestamp};

/// When all documents of demonstrations expire.
pub const EXPIRES: &str = "2999-12-31T23:59:59Z";

const SPEC_VERSION: &str = "1.0.0";

/// The instant at which all documents of demonstrations expire.
pub fn expires() -> Result<Instant, DemoError>
    ensures ok { IfOk result (λ t. parse_timestamp EXPIRES.now ≡ Ok t.nanosecond) }
    ensures err { OnErr result ((z : ℤ) → parse_timestamp EXPIRES.now ≡ Ok z → ⊥) }
{
    match EXPIRES.parse::<Instant>() {
        Ok(instant) => Ok(instant),
        Err(_) => Err(DemoError::Instant),
    }
}

// The roles of a root, each of which this key signs alone.
fn roles_signed_alone(alloc: Global, key: &Key) -> Result<BTreeMap<RoleType, RoleKeys>, DemoError>
    ensures { IfOk result (λ m. AreSignedAlone (key_doc key.now) (roles_doc m.entries)) }
{
    let mut roles = BTreeMap::new(alloc);
    roles.insert(RoleType::Root, signed_alone(alloc, key)?)?;
    roles.insert(RoleType::Snapshot, signed_alone(alloc, key)?)?;
    roles.insert(RoleType::Targets, signed_alone(alloc, key)?)?;
    roles.insert(RoleType::Timestamp, signed_alone(alloc, key)?)?;
    Ok(roles)
}

/// A root of this version, of a repository with consistent snapshots, whose one key signs every role.
pub fn root(alloc: Global, version: NonZeroU64, key: Key) -> Result<Root, DemoError>
    ensures head { IfOk result
        (λ r. IsHead EXPIRES.now (non_zero_u64_get version) (root_doc r).head) }
    ensures keys { IfOk result (λ r. IsKnownAlone (key_doc key) (root_doc r).keys) }
    ensures roles { IfOk result (λ r. AreSignedAlone (key_doc key) (root_doc r).roles) }
    ensures consistent { IfOk result (λ r. IsTrue r.consistent_snapshot) }
{
    root_with(alloc, version, key, true)
}

/// A root of this version, of a repository with or without consistent snapshots, whose one key signs every role.
pub fn root_with(
    alloc: Global,
    version: NonZeroU64,
    key: Key,
    consistent: bool,
) -> Result<Root, DemoError>
    ensures head { IfOk result
        (λ r. IsHead EXPIRES.now (non_zero_u64_get version) (root_doc r).head) }
    ensures keys { IfOk result (λ r. IsKnownAlone (key_doc key) (root_doc r).keys) }
    ensures roles { IfOk result (λ r. AreSignedAlone (key_doc key) (root_doc r).roles) }
    ensures consistent { IfOk result (λ r. r.consistent_snapshot ≡ consistent) }
    ensures extra { IfOk result (λ r. (root_doc r).extra ≡ no_members) }
{
    let roles = roles_signed_alone(alloc, &key)?;
    let mut keys = BTreeMap::new(alloc);
    keys.insert(identifier(alloc, &key)?, key)?;
    Ok(Root {
        spec_version: String::from_str(alloc, SPEC_VERSION)?,
        consistent_snapshot: consistent,
        version,
        expires: expires()?,
        keys,
        roles,
        _extra: Map::new(alloc),
    })
}

/// A timestamp of this version, which names a snapshot of that version, without its length or digest.
pub fn timestamp(
    alloc: Global,
    version: NonZeroU64,
    snapshot: NonZeroU64,
) -> Result<Timestamp, DemoError>
    ensures head { IfOk result
        (λ t. IsHead EXPIRES.now (non_zero_u64_get version) (timestamp_doc t).head) }
    ensures meta { IfOk result
        (λ t. (timestamp_doc t).meta
        ≡ (
          codes "snapshot.json",
          record {
            version = non_zero_u64_get snapshot;
            length = None;
            hashes = None;
            extra = no_members;
          },
        ) ∷ []) }
{
    let metafile = Metafile {
        length: None,
        hashes: None,
        version: snapshot,
        _extra: Map::new(alloc),
    };
    timestamp_of(alloc, version, metafile)
}

/// A timestamp of this version, which says this of `snapshot.json`.
pub fn timestamp_of(
    alloc: Global,
    version: NonZeroU64,
    snapshot: Metafile,
) -> Result<Timestamp, DemoError>
    ensures head { IfOk result
        (λ t. IsHead EXPIRES.now (non_zero_u64_get version) (timestamp_doc t).head) }
    ensures meta { IfOk result
        (λ t. (timestamp_doc t).meta ≡ (codes "snapshot.json", metafile_doc snapshot) ∷ []) }
    ensures extra { IfOk result (λ t. (timestamp_doc t).extra ≡ no_members) }
{
    let mut meta = BTreeMap::new(alloc);
    meta.insert(String::from_str(alloc, "snapshot.json")?, snapshot)?;
    Ok(Timestamp {
        spec_version: String::from_str(alloc, SPEC_VERSION)?,
        version,
        expires: expires()?,
        meta,
        _extra: Map::new(alloc),
    })
}

/// A snapshot of this version, which lists `targets.json` alone and says this of it.
pub fn snapshot(
    alloc: Global,
    version: NonZeroU64,
    targets: Metafile,
) -> Result<Snapshot, DemoError>
    ensures head { IfOk result
        (λ s. IsHead EXPIRES.now (non_zero_u64_get version) (snapshot_doc s).head) }
    ensures meta { IfOk result
        (λ s. (snapshot_doc s).meta ≡ (codes "targets.json", metafile_doc targets) ∷ []) }
    ensures extra { IfOk result (λ s. (snapshot_doc s).extra ≡ no_members) }
{
    let mut meta = BTreeMap::new(alloc);
    meta.insert(String::from_str(alloc, "targets.json")?, targets)?;
    snapshot_of(alloc, version, meta)
}

/// A snapshot of this version, which says this of these documents.
pub fn snapshot_of(
    alloc: Global,
    version: NonZeroU64,
    meta: BTreeMap<String, Metafile>,
) -> Result<Snapshot, DemoError>
    ensures head { IfOk result
        (λ s. IsHead EXPIRES.now (non_zero_u64_get version) (snapshot_doc s).head) }
    ensures meta { IfOk result (λ s. (snapshot_doc s).meta ≡ metafiles_doc meta.entries) }
    ensures extra { IfOk result (λ s. (snapshot_doc s).extra ≡ no_members) }
{
    Ok(Snapshot {
        spec_version: String::from_str(alloc, SPEC_VERSION)?,
        version,
        expires: expires()?,
        meta,
        _extra: Map::new(alloc),
    })
}

/// Targets of this version, which list these and delegate to no role.
pub fn targets(
    alloc: Global,
    version: NonZeroU64,
    listing: BTreeMap<TargetName, Target>,
) -> Result<Targets, DemoError>
    ensures head { IfOk result
        (λ t. IsHead EXPIRES.now (non_zero_u64_get version) (targets_doc t).head) }
    ensures listing { IfOk result (λ t. (targets_doc t).targets ≡ listing_doc listing.entries) }
    ensures delegations { IfOk result (λ t. (targets_doc t).delegations ≡ Some no_delegations) }
    ensures extra { IfOk result (λ t. (targets_doc t).extra ≡ no_members) }
{
    let spec_version = String::from_str(alloc, SPEC_VERSION)?;
    let mut made = Targets::new(alloc, spec_version, version, expires()?);
    made.targets = listing;
    Ok(made)
}
