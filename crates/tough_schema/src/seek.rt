//! Delegated roles by name.

ghost use Rattle.std.specs.Prelude.{◌≡◌, ◌<◌, ◌≤◌, ◌+◌, ◌*◌, ℕ, List, Some, IfOk, IfErr, OnOk, option_map};
ghost use Rattle.std.specs.Option.{option_or};
ghost use Rattle.tough_schema.specs.Below.{branches_in, count, work};
ghost use Rattle.tough_schema.specs.Whole.{tree_doc, delegations_tree, role_tree, role_branches, held_doc};
ghost use Rattle.tough_schema.specs.Seek.{found, missing, seek, seek_in, sought, document_of, IsUnsought, IsUnheld, standing_in, first_named, parent, IsOrphan};
ghost use Rattle.tough_schema.specs.Seeking.{seen_of, seen_or, sought_through, list_work, level_standing, all_standing, level_work};

use crate::below::roles_of;
use crate::delegations::{DelegatedRole, Delegations};
use crate::targets::{DelegatedTargets, Targets};
use std::alloc::{AllocError, Global};
use tough_roles::{Error, Signed};

/// The result of a search for a role.
#[derive(Drop)]
pub enum Seen<'a> {
    /// The role.
    Found(&'a DelegatedRole),
    /// No role has the name, or there are no delegations.
    Missing,
    /// A role before it has no document to search.
    Undocumented,
}

// Looks at the first of these roles. None if the search goes on with the lists, the last one first: with that of the roles
// below it, and with the others.
fn seek_first<'a>(
    roles: &'a [DelegatedRole],
    name: &str,
    lists: &mut Vec<&'a [DelegatedRole]>,
) -> Result<Option<Seen<'a>>, AllocError>
    ensures seen { IfOk result (λ o. seen_or o (sought_through name.now lists.new.items missing)
        ≡ sought_through name.now lists.old.items
        (seek name.now (role_branches roles.now))) }
    ensures fewer { OnOk result
        (list_work lists.new.items < list_work lists.old.items + work roles.now) }
{
    let Some((role, others)) = roles.split_first() else {
        return Ok(None);
    };
    if role.name.as_str() == name {
        return Ok(Some(Seen::Found(role)));
    }
    let Some(signed) = &role.targets else {
        if lists.is_empty() {
            return Ok(Some(Seen::Undocumented));
        }
        return Ok(None);
    };
    lists.push(others)?;
    lists.push(roles_of(&signed.signed.targets))?;
    Ok(None)
}

// Searches the roles, and those below them, without recursion.
fn seek_among<'a>(
    alloc: Global,
    roles: &'a [DelegatedRole],
    name: &str,
) -> Result<Seen<'a>, AllocError>
    ensures { IfOk result (λ s. seen_of s ≡ seek name.now (role_branches roles.now)) }
{
    let mut lists = Vec::new(alloc);
    lists.push(roles)?;
    while let Some(list) = lists.pop() {
        if let Some(seen) = seek_first(list, name, &mut lists)? {
            return Ok(seen);
        }
    }
    Ok(Seen::Missing)
}

/// Searches a document for the role.
pub fn seek_in<'a>(alloc: Global, document: &'a Targets, name: &str) -> Result<Seen<'a>, AllocError>
    ensures { IfOk result (λ s. seen_of s ≡ seek_in name.now (tree_doc document.now)) }
{
    let seen = seek_among(alloc, roles_of(document), name)?;
    Ok(seen)
}

// Roles, and the delegations that list them.
#[derive(Clone, Copy)]
struct Level<'a> {
    all: &'a Delegations,
    roles: &'a [DelegatedRole],
}

// Looks at the first role of this level: the delegations that list it, if it has the name. Else the search goes on with
// the levels, the last one first: with that of the roles below it, and with the others.
fn parent_first<'a>(
    level: Level<'a>,
    name: &str,
    levels: &mut Vec<Level<'a>>,
) -> Result<Option<&'a Delegations>, AllocError>
    ensures parent { IfOk result (λ o. option_or (option_map (λ g. delegations_tree g.now) o)
        (first_named name.now (all_standing levels.new.items))
        ≡ option_or (first_named name.now (level_standing level.entry))
        (first_named name.now (all_standing levels.old.items))) }
    ensures fewer { OnOk result (level_work levels.new.items
        < level_work levels.old.items + work level.entry.roles.now) }
{
    let Some((role, others)) = level.roles.split_first() else {
        return Ok(None);
    };
    if role.name.as_str() == name {
        return Ok(Some(level.all));
    }
    levels.push(Level {
        all: level.all,
        roles: others,
    })?;
    let Some(signed) = &role.targets else {
        return Ok(None);
    };
    add_level(&signed.signed.targets, levels)?;
    Ok(None)
}

// Adds the level of the roles that a document lists, if it has delegations.
fn add_level<'a>(document: &'a Targets, levels: &mut Vec<Level<'a>>) -> Result<(), AllocError>
    ensures standing { OnOk result ((name : List ℕ)
        → first_named name (all_standing levels.new.items)
        ≡ option_or (first_named name (standing_in (tree_doc document.now)))
        (first_named name (all_standing levels.old.items))) }
    ensures few { OnOk result (level_work levels.new.items
        ≤ level_work levels.old.items + (1 + 3 * count (branches_in (tree_doc document.now)))) }
{
    if let Some(all) = &document.delegations {
        levels.push(Level {
            all,
            roles: &all.roles,
        })?;
    }
    Ok(())
}

// The delegations that list the first entry of the name, below a document.
fn parent_in<'a>(
    alloc: Global,
    document: &'a Targets,
    name: &str,
) -> Result<Option<&'a Delegations>, AllocError>
    ensures { IfOk result (λ o. option_map (λ g. delegations_tree g.now) o
        ≡ first_named name.now (standing_in (tree_doc document.now))) }
{
    let mut levels = Vec::new(alloc);
    add_level(document, &mut levels)?;
    while let Some(level) = levels.pop() {
        if let Some(found) = parent_first(level, name, &mut levels)? {
            return Ok(Some(found));
        }
    }
    Ok(None)
}

impl Targets {
    /// The delegated role with the name: one of this document's own list, else one below it, in preorder. The errors:
    /// `NoDelegations` without delegations, `NoTargets` at a role before it that has no document to search, else
    /// `RoleNotFound`.
    pub fn delegated_role(&self, alloc: Global, name: &str) -> Result<&DelegatedRole, Error>
        ensures found { IfOk result
            (λ r. sought name.now (tree_doc self.now) ≡ found (role_tree r.now)) }
        ensures refused { IfErr result
            (λ e. IsUnsought name.now (sought name.now (tree_doc self.now)) e) }
    {
        let Some(delegations) = &self.delegations else {
            return Err(Error::NoDelegations);
        };
        match seek_among(alloc, &delegations.roles, name)? {
            Seen::Found(role) => Ok(role),
            Seen::Undocumented => Err(Error::NoTargets),
            Seen::Missing => Err(Error::RoleNotFound {
                name: String::from_str(alloc, name)?,
            }),
        }
    }

    /// The document of the role that `delegated_role` returns. Its errors, and `NoTargets` if the role has no document.
    pub fn delegated_targets(
        &self,
        alloc: Global,
        name: &str,
    ) -> Result<&Signed<DelegatedTargets>, Error>
        ensures found { IfOk result
            (λ s. document_of (sought name.now (tree_doc self.now)) ≡ Some (held_doc s.now)) }
        ensures refused { IfErr result
            (λ e. IsUnheld name.now (sought name.now (tree_doc self.now)) e) }
    {
        match self.delegated_role(alloc, name) {
            Err(error) => Err(error),
            Ok(role) => match &role.targets {
                Some(signed) => Ok(signed),
                None => Err(Error::NoTargets),
            },
        }
    }

    /// The delegations that list the role: the first in preorder. `RoleNotFound` if no role has the name.
    pub fn parent_of(&self, alloc: Global, name: &str) -> Result<&Delegations, Error>
        ensures found { IfOk result
            (λ g. parent name.now (tree_doc self.now) ≡ Some (delegations_tree g.now)) }
        ensures refused { IfErr result
            (λ e. IsOrphan name.now (parent name.now (tree_doc self.now)) e) }
    {
        match parent_in(alloc, self, name)? {
            Some(delegations) => Ok(delegations),
            None => Err(Error::RoleNotFound {
                name: String::from_str(alloc, name)?,
            }),
        }
    }
}
