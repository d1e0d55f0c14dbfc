//! The roles that the document delegates to.

ghost use Rattle.std.specs.Prelude.{◌≡◌, IfOk, OnOk, OnErr, IfErr, IsTrue, is_some, filter, map};
ghost use Rattle.std.specs.Int.NonZero.{non_zero_u64_get};
ghost use Rattle.tough_roles.specs.Root.{keys_doc};
ghost use Rattle.tough_schema.specs.Paths.{paths_doc};
ghost use Rattle.tough_schema.specs.Whole.{held_doc, role_tree};
ghost use Rattle.tough_edit.specs.Edits.{edits_doc};
ghost use Rattle.tough_edit.specs.Keys.{IsUndelegated};
ghost use Rattle.tough_edit.specs.Roles.{delegated_to, with_role, leads_to, stays, without_role};

use crate::edits::TargetEdits;
use crate::keys::with_keys;
use std::alloc::{AllocError, Global};
use std::collections::BTreeMap;
use std::num::NonZeroU64;
use tough_decoded::{Decoded, Hex};
use tough_keys::Key;
use tough_roles::{Error, Signed};
use tough_schema::{DelegatedRole, DelegatedTargets, PathSet};
use tough_signed::EditError;

// A role with the document, under its name.
fn delegated_to(
    document: Signed<DelegatedTargets>,
    paths: PathSet,
    terminating: bool,
    keyids: Vec<Decoded<Hex>>,
    threshold: NonZeroU64,
) -> Result<DelegatedRole, AllocError>
    ensures { IfOk result (λ r. role_tree r ≡ delegated_to (held_doc document) (paths_doc paths)
        terminating keyids.items (non_zero_u64_get threshold)) }
{
    let name = document.signed.name.clone()?;
    Ok(DelegatedRole {
        name,
        keyids,
        threshold,
        paths,
        terminating,
        targets: Some(document),
    })
}

// Whether the name is sought with success in the role's document.
fn leads_to(alloc: Global, role: &DelegatedRole, name: &str) -> Result<bool, AllocError>
    ensures { IfOk result (λ b. b ≡ leads_to name.now (role_tree role.now)) }
{
    let Some(document) = &role.targets else {
        return Ok(false);
    };
    match document.signed.targets.delegated_role(alloc, name) {
        Ok(_) => Ok(true),
        Err(Error::Memory) => Err(AllocError),
        Err(_) => Ok(false),
    }
}

// Whether the role stays where those of the name are removed.
fn stays(
    alloc: Global,
    role: &DelegatedRole,
    name: &str,
    recursive: bool,
) -> Result<bool, AllocError>
    ensures { IfOk result (λ b. b ≡ stays name.now recursive (role_tree role.now)) }
{
    if role.name.as_str() == name {
        return Ok(false);
    }
    if recursive {
        return Ok(!leads_to(alloc, role, name)?);
    }
    Ok(true)
}

// Copies of the roles that stay.
fn staying(
    alloc: Global,
    roles: &[DelegatedRole],
    name: &str,
    recursive: bool,
) -> Result<Vec<DelegatedRole>, AllocError>
    ensures { IfOk result (λ v. map role_tree v.items
        ≡ filter (stays name.now recursive) (map role_tree roles.now)) }
{
    let mut left = Vec::new(alloc);
    for role in roles {
        if stays(alloc, role, name, recursive)? {
            left.push(role.clone()?)?;
        }
    }
    Ok(left)
}

impl TargetEdits {
    /// Adds each key that equals none there, and one more new role with the document, under its name, which lists these identifiers and asks for so many
    /// of them; `NoDelegations` where the document that is edited has no delegations.
    pub fn delegate_role(
        &mut self,
        document: Signed<DelegatedTargets>,
        paths: PathSet,
        terminating: bool,
        keys: BTreeMap<Decoded<Hex>, Key>,
        keyids: Vec<Decoded<Hex>>,
        threshold: NonZeroU64,
    ) -> Result<(), EditError>
        ensures delegated { OnOk result (edits_doc self.new
            ≡ with_role (keys_doc keys.entries) (delegated_to (held_doc document)
            (paths_doc paths) terminating keyids.items (non_zero_u64_get threshold))
            (edits_doc self.old)) }
        ensures there { OnOk result (IsTrue (is_some (edits_doc self.old).keys)) }
        ensures refused { IfErr result (IsUndelegated (edits_doc self.old)) }
        ensures unchanged { OnErr result (edits_doc self.new ≡ edits_doc self.old) }
    {
        let Some(known) = &self.keys else {
            return Err(EditError::NoDelegations);
        };
        let keys = with_keys(known, &keys)?;
        let role = delegated_to(document, paths, terminating, keyids, threshold)?;
        self.new_roles.push(role)?;
        self.keys = Some(keys);
        Ok(())
    }

    /// Removes the old roles of the name, and, where that is asked, those below which it is delegated to; `NoDelegations` where the document that is
    /// edited has no delegations.
    pub fn remove_role(
        &mut self,
        alloc: Global,
        name: &str,
        recursive: bool,
    ) -> Result<(), EditError>
        ensures removed { OnOk result (edits_doc self.new
            ≡ without_role name.now recursive (edits_doc self.old)) }
        ensures there { OnOk result (IsTrue (is_some (edits_doc self.old).keys)) }
        ensures refused { IfErr result (IsUndelegated (edits_doc self.old)) }
        ensures unchanged { OnErr result (edits_doc self.new ≡ edits_doc self.old) }
    {
        if self.keys.is_none() {
            return Err(EditError::NoDelegations);
        }
        let left = staying(alloc, &self.old_roles, name, recursive)?;
        self.old_roles = left;
        Ok(())
    }
}
