//! Delegated roles by name, for writing.

ghost use Rattle.std.specs.Prelude.{◌≡◌, Some, IfOk, IfErr, option_map};
ghost use Rattle.tough_schema.specs.Whole.{tree_doc, role_tree, held_doc};
ghost use Rattle.tough_schema.specs.Seek.{found, seek_in, sought, role_of, document_of, IsUnsought, IsUnheld};
ghost use Rattle.tough_schema.specs.Putting.{role_along, role_below};

use crate::delegations::DelegatedRole;
use crate::targets::{DelegatedTargets, Targets};
use crate::way::way_to;
use std::alloc::{AllocError, Global};
use tough_roles::{Error, Signed};

// The role at the end of the way, for writing.
#[cycle(lend)]
fn lend_along<'a>(document: &'a mut Targets, way: &[usize]) -> Option<&'a mut DelegatedRole>
    ensures { option_map (λ r. role_tree r.now) result
        ≡ role_along way.now (tree_doc document.old) }
{
    let Some((place, others)) = way.split_first() else {
        return None;
    };
    let Some(delegations) = &mut document.delegations else {
        return None;
    };
    let Some(at) = delegations.roles.len().checked_sub(*place) else {
        return None;
    };
    match delegations.roles.get_mut(at) {
        Some(role) => lend_below(role, others),
        None => None,
    }
}

// The role at the end of the way that goes on from this role.
#[cycle(lend)]
fn lend_below<'a>(role: &'a mut DelegatedRole, way: &[usize]) -> Option<&'a mut DelegatedRole>
    ensures { option_map (λ r. role_tree r.now) result
        ≡ role_below way.now (Some (role_tree role.old)) }
{
    if way.is_empty() {
        return Some(role);
    }
    match &mut role.targets {
        Some(document) => lend_along(&mut document.signed.targets, way),
        None => None,
    }
}

// The role of the name, for writing.
fn lend_in<'a>(
    alloc: Global,
    document: &'a mut Targets,
    name: &str,
) -> Result<Option<&'a mut DelegatedRole>, AllocError>
    ensures { IfOk result (λ o. option_map (λ r. role_tree r.now) o
        ≡ role_of (seek_in name.now (tree_doc document.old))) }
{
    match way_to(alloc, document, name)? {
        Some(way) => Ok(lend_along(document, &way)),
        None => Ok(None),
    }
}

impl Targets {
    /// The role that `delegated_role` returns, for writing. Its errors.
    pub fn delegated_role_mut(
        &mut self,
        alloc: Global,
        name: &str,
    ) -> Result<&mut DelegatedRole, Error>
        ensures found { IfOk result
            (λ r. sought name.now (tree_doc self.old) ≡ found (role_tree r.now)) }
        ensures refused { IfErr result
            (λ e. IsUnsought name.now (sought name.now (tree_doc self.old)) e) }
    {
        if let Err(error) = self.delegated_role(alloc, name) {
            return Err(error);
        }
        match lend_in(alloc, self, name)? {
            Some(role) => Ok(role),
            None => Err(Error::NoTargets),
        }
    }

    /// The document that `delegated_targets` returns, for writing. Its errors.
    pub fn delegated_targets_mut(
        &mut self,
        alloc: Global,
        name: &str,
    ) -> Result<&mut Signed<DelegatedTargets>, Error>
        ensures found { IfOk result
            (λ s. document_of (sought name.now (tree_doc self.old)) ≡ Some (held_doc s.now)) }
        ensures refused { IfErr result
            (λ e. IsUnheld name.now (sought name.now (tree_doc self.old)) e) }
    {
        match self.delegated_role_mut(alloc, name) {
            Err(error) => Err(error),
            Ok(role) => match &mut role.targets {
                Some(signed) => Ok(signed),
                None => Err(Error::NoTargets),
            },
        }
    }
}
