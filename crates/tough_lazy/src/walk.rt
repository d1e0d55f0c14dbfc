//! The search for a target, as far as the documents of delegated roles are there (TUF specification 5.6.7).

ghost use Rattle.std.specs.Prelude.{◌≡◌, ◌+◌, ◌<◌, ◌++◌, ◌∷◌, [], length, suc, not, Option, None, IfOk};
ghost use Rattle.tough_lazy.specs.Course.{past, course, course_in, sought, sought_by};
ghost use Rattle.tough_lazy.specs.Walking.{branches_in_list, delegations_of, course_on, course_maybe, through, places, steps_behind, steps_on, look_doc, course_inside, at_sight, HasRoles, ShowsRoles};
ghost use Rattle.tough_names.specs.Named.{Named};
ghost use Rattle.tough_schema.specs.Below.{branches_in, branches_under};
ghost use Rattle.tough_schema.specs.Delegations.{DelegationsDoc};
ghost use Rattle.tough_schema.specs.Search.{Names, no_names, is_new};
ghost use Rattle.tough_schema.specs.Visited.{names_in};
ghost use Rattle.tough_schema.specs.Whole.{Branches, tree_doc, top_doc, role_tree, put_branch};

use std::alloc::{AllocError, Global};
use std::collections::BTreeSet;
use tough_names::TargetName;
use tough_schema::{DelegatedRole, Delegations, Hashed, Target, Targets};

/// A role whose document a search needs.
#[derive(Drop)]
pub struct Wanted<'a> {
    /// The way to it, from the top on: a place for each list of roles that it goes through, counted from the end of the list.
    pub way: Vec<usize>,
    /// The delegations that it stands in.
    pub delegations: Option<&'a Delegations>,
    /// The role.
    pub role: &'a DelegatedRole,
}

/// What a search comes to.
#[derive(Drop)]
pub enum Look<'a> {
    /// A document that lists the name so.
    Found(&'a Target),
    /// A role whose document isn't there.
    Wanted(Wanted<'a>),
    /// Nothing: no document that it reaches lists the name.
    Missing,
}

/// Roles of a list, from one on, and the delegations that they stand in.
#[derive(Clone, Copy, Drop)]
pub(crate) struct RoleList<'a> {
    delegations: Option<&'a Delegations>,
    roles: &'a [DelegatedRole],
}

/// A role that a search entered, and the roles behind it.
#[derive(Clone, Copy, Drop)]
pub(crate) struct Entered<'a> {
    role: &'a DelegatedRole,
    rest: RoleList<'a>,
}

/// What a document is to a search.
#[derive(Drop)]
pub(crate) enum Inside<'a> {
    /// It lists the name so.
    Lists(&'a Target),
    /// It doesn't: the search goes on with its roles.
    Roles(RoleList<'a>),
}

/// What a role is to a search.
#[derive(Drop)]
pub(crate) enum Sight<'a> {
    /// A role of its name was reached before, or its path set doesn't match.
    Passed,
    /// Its document isn't there.
    Bare,
    /// Its document is there.
    Into(Inside<'a>),
}

// The roles that a document lists.
fn roles_of(document: &Targets) -> RoleList<'_>
    ensures branches { branches_in_list result ≡ branches_in (tree_doc document.now) }
    ensures delegations { delegations_of result ≡ (top_doc (tree_doc document.now)).delegations }
{
    match &document.delegations {
        Some(delegations) => RoleList {
            delegations: Some(delegations),
            roles: &delegations.roles,
        },
        None => RoleList {
            delegations: None,
            roles: &[],
        },
    }
}

// What a document is to a search.
fn see_document<'a>(document: &'a Targets, name: &TargetName) -> Inside<'a>
    ensures course { (seen : Names) → course_inside name.now seen result
        ≡ course_in name.now seen (tree_doc document.now) }
    ensures roles { HasRoles (branches_in (tree_doc document.now)) result }
{
    match document.targets.get(name) {
        Some(target) => Inside::Lists(target),
        None => Inside::Roles(roles_of(document)),
    }
}

// Whether a search passes a role: a role of its name was reached before, or its path set doesn't match.
fn is_passed(role: &DelegatedRole, name: &Hashed<'_>, reached: &BTreeSet<String>) -> bool
    ensures { result
        ≡ not (is_new name.now.name.now (names_in reached.now) (role_tree role.now).0) }
{
    reached.contains(role.name.as_str()) || !role.matches(name)
}

// Looks at a role, and notes its name if it is reached.
fn see<'a>(
    role: &'a DelegatedRole,
    name: &Hashed<'_>,
    reached: &mut BTreeSet<String>,
) -> Result<Sight<'a>, AllocError>
    ensures course { IfOk result (λ s. (g : Option DelegationsDoc) (bs : Branches)
        → at_sight name.now.name.now (names_in reached.new) g (role_tree role.now) s bs
        ≡ course name.now.name.now (names_in reached.old) g (put_branch (role_tree role.now) bs)) }
    ensures roles { IfOk result (ShowsRoles (branches_under (role_tree role.now).1)) }
{
    if is_passed(role, name, reached) {
        return Ok(Sight::Passed);
    }
    reached.insert(role.name.clone()?)?;
    match &role.targets {
        Some(signed) => Ok(Sight::Into(see_document(&signed.signed.targets, name.name))),
        None => Ok(Sight::Bare),
    }
}

// The roles behind the last one that was entered, which is given up. None where a search ends there, and where no role was entered.
fn behind<'a>(above: &mut Vec<Entered<'a>>) -> Option<RoleList<'a>>
    ensures course { (name : Named) (seen : Names)
        → sought_by (through name above.new.items (course_maybe name seen result))
        ≡ sought_by (through name above.old.items (past seen)) }
    ensures ended { result ≡ None → above.new.items ≡ [] }
    ensures fewer { steps_behind above.new.items + steps_on result
        < suc (steps_behind above.old.items) }
{
    let entered = above.pop()?;
    if entered.role.terminating {
        above.clear();
        return None;
    }
    Some(entered.rest)
}

// The way to the first role of a list, below those that were entered.
fn way_to(
    alloc: Global,
    above: &[Entered<'_>],
    list: &RoleList<'_>,
) -> Result<Vec<usize>, AllocError>
    ensures { IfOk result (λ v. v.items
        ≡ places above.now ++ length list.now.roles.now ∷ []) }
{
    let mut way = Vec::new(alloc);
    for entered in above {
        way.push(entered.rest.roles.len() + 1)?;
    }
    way.push(list.roles.len())?;
    Ok(way)
}

// What a search comes to from this list on.
fn look_on<'a>(alloc: Global, list: RoleList<'a>, name: &TargetName) -> Result<Look<'a>, AllocError>
    ensures { IfOk result (λ l. look_doc l
        ≡ sought_by (course_on name.now no_names list.entry)) }
{
    let hashed = Hashed::new(name);
    let mut reached = BTreeSet::new(alloc);
    let mut above = Vec::new(alloc);
    let mut here = Some(list);
    while let Some(list) = here {
        let Some((role, others)) = list.roles.split_first() else {
            here = behind(&mut above);
            continue;
        };
        let rest = RoleList {
            delegations: list.delegations,
            roles: others,
        };
        match see(role, &hashed, &mut reached)? {
            Sight::Passed => here = Some(rest),
            Sight::Bare => {
                return Ok(Look::Wanted(Wanted {
                    way: way_to(alloc, &above, &list)?,
                    delegations: list.delegations,
                    role,
                }));
            }
            Sight::Into(inside) => match inside {
                Inside::Lists(target) => return Ok(Look::Found(target)),
                Inside::Roles(below) => {
                    above.push(Entered { role, rest })?;
                    here = Some(below);
                }
            },
        }
    }
    Ok(Look::Missing)
}

/// What a search for the name comes to in a tree of which documents may be missing: in the order of the standard, into the roles whose path
/// sets match, into no name twice, and behind a terminating role no further.
pub fn look_for<'a>(
    alloc: Global,
    targets: &'a Targets,
    name: &TargetName,
) -> Result<Look<'a>, AllocError>
    ensures { IfOk result (λ l. look_doc l ≡ sought name.now (tree_doc targets.now)) }
{
    match see_document(targets, name) {
        Inside::Lists(target) => Ok(Look::Found(target)),
        Inside::Roles(list) => look_on(alloc, list, name),
    }
}
