//! Roots are made.

ghost use Rattle.std.specs.Prelude.{◌≡◌, IfOk, OnOk};
ghost use Rattle.std.specs.BTreeMap.{insert_entry};
ghost use Rattle.tough_roles.specs.Roles.{role_cmp};
ghost use Rattle.tough_roles.specs.Root.{root_doc, roles_doc, role_keys_doc};
ghost use Rattle.tough_ceremony.specs.Making.{no_keys, no_roles_keys, empty_root};

use jiff::Timestamp;
use serde_json::Map;
use std::alloc::{AllocError, Global};
use std::collections::BTreeMap;
use std::num::NonZeroU64;
use tough_roles::{RoleKeys, RoleType, Root};

// A role that lists no keys, and whose threshold is 1.
fn no_keys(alloc: Global) -> RoleKeys
    ensures { role_keys_doc result ≡ no_keys }
{
    RoleKeys {
        keyids: Vec::new(alloc),
        threshold: NonZeroU64::MIN,
        _extra: Map::new(alloc),
    }
}

// Adds a role that lists no keys.
fn add_role(
    alloc: Global,
    roles: &mut BTreeMap<RoleType, RoleKeys>,
    role: RoleType,
) -> Result<(), AllocError>
    ensures { OnOk result (roles_doc roles.new.entries
        ≡ insert_entry role_cmp (roles_doc roles.old.entries) role no_keys) }
{
    roles.insert(role, no_keys(alloc))?;
    Ok(())
}

// The four roles that a root has, none of which lists keys.
fn no_roles_keys(alloc: Global) -> Result<BTreeMap<RoleType, RoleKeys>, AllocError>
    ensures { IfOk result (λ m. roles_doc m.entries ≡ no_roles_keys) }
{
    let mut roles = BTreeMap::new(alloc);
    add_role(alloc, &mut roles, RoleType::Root)?;
    add_role(alloc, &mut roles, RoleType::Snapshot)?;
    add_role(alloc, &mut roles, RoleType::Targets)?;
    add_role(alloc, &mut roles, RoleType::Timestamp)?;
    Ok(roles)
}

/// A root of version 1 that lists no keys yet, and expires then: each of the four roles has the threshold 1, and snapshots are consistent
/// (TUF specification 1.0, section 4.3). `AllocError` when out of memory.
pub fn empty_root(alloc: Global, expires: Timestamp) -> Result<Root, AllocError>
    ensures { IfOk result (λ r. root_doc r ≡ empty_root expires.nanosecond) }
{
    let spec_version = String::from_str(alloc, "1.0.0")?;
    let roles = no_roles_keys(alloc)?;
    Ok(Root {
        spec_version,
        consistent_snapshot: true,
        version: NonZeroU64::MIN,
        expires,
        keys: BTreeMap::new(alloc),
        roles,
        _extra: Map::new(alloc),
    })
}
