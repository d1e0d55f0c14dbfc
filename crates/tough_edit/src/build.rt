//! The document that is built.

ghost use Rattle.std.specs.Prelude.{◌≡◌, ◌++◌, IfOk, IfErr, OnOk, map, option_map};
ghost use Rattle.std.specs.BTreeMap.{insert_entry};
ghost use Rattle.tough_names.specs.Named.{by_raw_then_resolved};
ghost use Rattle.tough_schema.specs.Entries.{merged_into};
ghost use Rattle.tough_schema.specs.Target.{target_doc};
ghost use Rattle.tough_schema.specs.Targets.{listing_doc};
ghost use Rattle.tough_schema.specs.Whole.{delegations_tree, role_tree};
ghost use Rattle.tough_edit.specs.Edits.{edits_doc};
ghost use Rattle.tough_edit.specs.Built.{delegations_built, IsBuilt, IsIncomplete};

use crate::edits::TargetEdits;
use std::alloc::{AllocError, Global};
use std::collections::BTreeMap;
use tough_keys::clone::copy;
use tough_names::TargetName;
use tough_roles::clone::copy_keys;
use tough_schema::{DelegatedRole, DelegatedTargets, Delegations, Target, Targets, copy_listing};
use tough_signed::EditError;

// Lists a copy of the target, in the place of one of the name.
fn put_copy(
    all: &mut BTreeMap<TargetName, Target>,
    name: &TargetName,
    target: &Target,
) -> Result<(), AllocError>
    ensures { OnOk result (listing_doc all.new.entries ≡ insert_entry by_raw_then_resolved
        (listing_doc all.old.entries) name.now (target_doc target.now)) }
{
    let name = name.clone()?;
    let target = target.clone()?;
    all.insert(name, target)?;
    Ok(())
}

// The old targets and the new ones, which take the place of old ones.
fn merged(
    old: &BTreeMap<TargetName, Target>,
    new: &BTreeMap<TargetName, Target>,
) -> Result<BTreeMap<TargetName, Target>, AllocError>
    ensures { IfOk result (λ m. listing_doc m.entries
        ≡ merged_into (listing_doc old.now.entries) (listing_doc new.now.entries)) }
{
    let mut all = copy_listing(old)?;
    for (name, target) in new.iter() {
        put_copy(&mut all, name, target)?;
    }
    Ok(all)
}

// Adds copies of the roles.
fn add_copies(all: &mut Vec<DelegatedRole>, roles: &[DelegatedRole]) -> Result<(), AllocError>
    ensures { OnOk result (map role_tree all.new.items
        ≡ map role_tree all.old.items ++ map role_tree roles.now) }
{
    for role in roles {
        all.push(role.clone()?)?;
    }
    Ok(())
}

// Copies of the old roles, and of the new ones after them.
fn all_roles(
    alloc: Global,
    old: &[DelegatedRole],
    new: &[DelegatedRole],
) -> Result<Vec<DelegatedRole>, AllocError>
    ensures { IfOk result (λ v. map role_tree v.items
        ≡ map role_tree old.now ++ map role_tree new.now) }
{
    let mut all = Vec::new(alloc);
    add_copies(&mut all, old)?;
    add_copies(&mut all, new)?;
    Ok(all)
}

impl TargetEdits {
    // The delegations, if there are any.
    fn build_delegations(&self, alloc: Global) -> Result<Option<Delegations>, AllocError>
        ensures { IfOk result (λ o. option_map delegations_tree o
            ≡ delegations_built (edits_doc self.now)) }
    {
        let Some(keys) = &self.keys else {
            return Ok(None);
        };
        let keys = copy_keys(keys)?;
        let roles = all_roles(alloc, &self.old_roles, &self.new_roles)?;
        Ok(Some(Delegations { keys, roles }))
    }

    /// The document, under the editor's name: the old targets, in whose place new ones of their names stand, the delegations with the new roles last,
    /// and the extras. The refusals, in this order: `Missing` with `targets version`, and with `targets expiration`.
    pub fn build_targets(&self, alloc: Global) -> Result<DelegatedTargets, EditError>
        ensures built { IfOk result (IsBuilt (edits_doc self.now)) }
        ensures refused { IfErr result (IsIncomplete (edits_doc self.now)) }
    {
        let Some(version) = self.version else {
            return Err(EditError::Missing {
                field: "targets version",
            });
        };
        let Some(expires) = self.expires else {
            return Err(EditError::Missing {
                field: "targets expiration",
            });
        };
        let name = self.name.clone()?;
        let spec_version = String::from_str(alloc, "1.0.0")?;
        let targets = merged(&self.old_targets, &self.new_targets)?;
        let delegations = self.build_delegations(alloc)?;
        let _extra = copy(&self.extra)?;
        Ok(DelegatedTargets {
            name,
            targets: Targets {
                spec_version,
                version,
                expires,
                targets,
                delegations,
                _extra,
            },
        })
    }
}
