//! The way to a role: the places of the roles through which a search by name comes to it.

ghost use Rattle.std.specs.Prelude.{◌≡◌, ◌<◌, ◌+◌, ◌∷◌, ◌++◌, ℕ, List, [], length, Bool, false, None, IfOk, IfSome, IfNone, option_map};
ghost use Rattle.tough_schema.specs.Below.{work};
ghost use Rattle.tough_schema.specs.Whole.{tree_doc, role_branches};
ghost use Rattle.tough_schema.specs.Putting.{way, way_in, way_of, way_through, is_first, places, rest_work};

use crate::below::{roles_of, roles_under};
use crate::delegations::DelegatedRole;
use crate::targets::Targets;
use std::alloc::{AllocError, Global};

// Whether the first of these roles has the name.
fn begins_with(roles: &[DelegatedRole], name: &str) -> bool
    ensures { result ≡ is_first name.now roles.now }
{
    match roles.split_first() {
        Some((role, _)) => role.name.as_str() == name,
        None => false,
    }
}

// The roles behind the first one of the last list, which is given up. None if there is no list.
fn behind<'a>(above: &mut Vec<&'a [DelegatedRole]>) -> Option<&'a [DelegatedRole]>
    ensures way { (name : List ℕ) → way_through name above.old.items None
        ≡ way_through name above.new.items (way_of name result) }
    ensures none { IfNone result (above.new.items ≡ []) }
    ensures fewer { IfSome result
        (λ l. rest_work above.new.items + work l.now ≡ rest_work above.old.items) }
{
    let Some(list) = above.pop() else {
        return None;
    };
    match list.split_first() {
        Some((_, others)) => Some(others),
        None => Some(list),
    }
}

// Where a search goes on that doesn't find its role first in this list: below that, if it has a document, or behind the
// last role that it came through.
fn next<'a>(
    here: &'a [DelegatedRole],
    above: &mut Vec<&'a [DelegatedRole]>,
) -> Result<Option<&'a [DelegatedRole]>, AllocError>
    ensures way { IfOk result (λ o. (name : List ℕ) → is_first name here.now ≡ false
        → way_through name above.old.items (way name (role_branches here.now))
        ≡ way_through name above.new.items (way_of name o)) }
    ensures none { IfOk result (λ o. IfNone o (above.new.items ≡ [])) }
    ensures fewer { IfOk result (λ o. IfSome o (λ l. rest_work above.new.items + work l.now
        < rest_work above.old.items + work here.now)) }
{
    if let Some((role, _)) = here.split_first() {
        if role.targets.is_some() {
            above.push(here)?;
            return Ok(Some(roles_under(role)));
        }
    }
    Ok(behind(above))
}

// The places of the roles that a search came through, and of the first role of this list.
fn places(
    alloc: Global,
    above: &[&[DelegatedRole]],
    here: &[DelegatedRole],
) -> Result<Vec<usize>, AllocError>
    ensures { IfOk result (λ v. v.items ≡ places above.now ++ length here.now ∷ []) }
{
    let mut way = Vec::new(alloc);
    for list in above {
        way.push(list.len())?;
    }
    way.push(here.len())?;
    Ok(way)
}

/// The way to the role that a search by name finds: at each level the place of the role through which it goes, counted
/// from the end of its list.
pub(crate) fn way_to(
    alloc: Global,
    document: &Targets,
    name: &str,
) -> Result<Option<Vec<usize>>, AllocError>
    ensures { IfOk result
        (λ o. option_map (λ v. v.items) o ≡ way_in name.now (tree_doc document.now)) }
{
    let mut above = Vec::new(alloc);
    let mut here = roles_of(document);
    while !begins_with(here, name) {
        let Some(roles) = next(here, &mut above)? else {
            return Ok(None);
        };
        here = roles;
    }
    let way = places(alloc, &above, here)?;
    Ok(Some(way))
}
