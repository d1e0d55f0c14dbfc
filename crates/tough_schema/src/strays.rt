//! The listed names that a search may not find: the roles above their document don't all match them.

ghost use Rattle.std.specs.Prelude.{◌≡◌, ◌<◌, ◌≤◌, ◌+◌, ◌*◌, ◌++◌, ◌&&◌, Bool, List, true, false, IfOk, OnOk};
ghost use Rattle.tough_names.specs.Named.{Named};
ghost use Rattle.tough_schema.specs.Below.{branches_under, count, work};
ghost use Rattle.tough_schema.specs.Paths.{paths_doc};
ghost use Rattle.tough_schema.specs.Passing.{pass, passed, passed_at, all_stepped, weights};
ghost use Rattle.tough_schema.specs.Targets.{listing_doc};
ghost use Rattle.tough_schema.specs.Search.{Names, matches, no_names};
ghost use Rattle.tough_schema.specs.Whole.{tree_doc, role_tree};
ghost use Rattle.tough_schema.specs.Strays.{any_name, strays_of, strays_below, all_match, way, names_of};

use crate::below::roles_of;
use crate::delegations::{DelegatedRole, PathSet};
use crate::hashed::Hashed;
use crate::target::Target;
use crate::targets::Targets;
use std::alloc::{AllocError, Global};
use std::collections::{BTreeMap, BTreeSet};
use tough_names::TargetName;

// Whether the path sets of all these roles match the name.
fn all_match(above: &[&DelegatedRole], name: &Hashed<'_>) -> bool
    ensures { result ≡ all_match above.now name.now.name.now }
{
    above.iter().all(|role| role.matches(name))
}

// Whether two path sets are equal.
fn same_paths(one: &PathSet, other: &PathSet) -> bool
    ensures { result ≡ true → paths_doc one.now ≡ paths_doc other.now }
{
    match (one, other) {
        (PathSet::Paths(some), PathSet::Paths(others)) => some == others,
        (PathSet::PathHashPrefixes(some), PathSet::PathHashPrefixes(others)) => some == others,
        _ => false,
    }
}

// Whether the role's path set is another than that of the last of these roles. Else it matches what all of them match.
fn narrows(above: &[&DelegatedRole], role: &DelegatedRole) -> bool
    ensures { result ≡ false → (name : Named) → all_match above.now name ≡ true
        → matches name (role_tree role.now).0 ≡ true }
{
    match above.last() {
        Some(last) => !same_paths(&last.paths, &role.paths),
        None => true,
    }
}

// Adds the names of a listing that aren't sure to be found.
fn add_strays<'a>(
    targets: &'a BTreeMap<TargetName, Target>,
    is_open: bool,
    above: &[&DelegatedRole],
    found: &mut Vec<&'a TargetName>,
) -> Result<(), AllocError>
    ensures { OnOk result (names_of found.new.items
        ≡ names_of found.old.items ++ strays_of (way is_open above.now)
        (listing_doc targets.now.entries)) }
{
    let has_prefixes = is_open && above.iter().any(|role| role.paths.has_prefixes());
    for (name, _) in targets.iter() {
        let hashed = if has_prefixes {
            Hashed::new(name)
        } else {
            Hashed::bare(name)
        };
        if !(is_open && all_match(above, &hashed)) {
            found.push(name)?;
        }
    }
    Ok(())
}

// What is still to do until the strays of a tree are found.
#[derive(Drop)]
enum Step<'a> {
    // To go through these roles, each with what is below it before the next. The way to them is open if each role above is
    // the first with its name.
    Visit(&'a [DelegatedRole], bool),
    // To leave the last role of the way.
    Leave,
}

// Goes on below a role, which is the last of the way then, unless its path set is that of the last one.
fn enter<'a>(
    role: &'a DelegatedRole,
    above: &mut Vec<&'a DelegatedRole>,
    steps: &mut Vec<Step<'a>>,
) -> Result<(), AllocError>
    ensures way { OnOk result ((name : Named) → (is_open : Bool)
        → way is_open above.new.items name
        ≡ (matches name (role_tree role.now).0 && way is_open above.old.items name)) }
    ensures back { OnOk result ((seen : Names) → (found : List Named)
        → all_stepped steps.new.items
        (record { above = above.new.items; seen = seen; found = found })
        ≡ all_stepped steps.old.items
        (record { above = above.old.items; seen = seen; found = found })) }
    ensures few { OnOk result (weights steps.new.items ≤ weights steps.old.items + 1) }
{
    if narrows(above.as_slice(), role) {
        above.push(role)?;
        steps.push(Step::Leave)?;
    }
    Ok(())
}

// Adds the strays of a role's document, if it has one. Those below it are to be added then.
fn strays_at<'a>(
    role: &'a DelegatedRole,
    is_open: bool,
    above: &mut Vec<&'a DelegatedRole>,
    seen: &mut BTreeSet<String>,
    found: &mut Vec<&'a TargetName>,
    steps: &mut Vec<Step<'a>>,
) -> Result<(), AllocError>
    ensures passed { OnOk result
        (all_stepped steps.new.items (pass above.new.items seen.new found.new.items)
        ≡ all_stepped steps.old.items
        (passed_at (role_tree role.now) is_open (pass above.old.items seen.old found.old.items))) }
    ensures few { OnOk result (weights steps.new.items
        ≤ weights steps.old.items + (2 + 3 * count (branches_under (role_tree role.now).1))) }
{
    let is_open = is_open & !seen.contains(role.name.as_str());
    seen.insert(role.name.clone()?)?;
    let Some(signed) = &role.targets else {
        return Ok(());
    };
    let document = &signed.signed.targets;
    enter(role, above, steps)?;
    add_strays(&document.targets, is_open, above.as_slice(), found)?;
    steps.push(Step::Visit(roles_of(document), is_open))?;
    Ok(())
}

// Adds the strays of the first of these roles. Those below it are to be added then, and those of the others.
fn strays_first<'a>(
    roles: &'a [DelegatedRole],
    is_open: bool,
    above: &mut Vec<&'a DelegatedRole>,
    seen: &mut BTreeSet<String>,
    found: &mut Vec<&'a TargetName>,
    steps: &mut Vec<Step<'a>>,
) -> Result<(), AllocError>
    ensures passed { OnOk result
        (all_stepped steps.new.items (pass above.new.items seen.new found.new.items)
        ≡ all_stepped steps.old.items
        (passed roles.now is_open (pass above.old.items seen.old found.old.items))) }
    ensures fewer { OnOk result
        (weights steps.new.items < weights steps.old.items + work roles.now) }
{
    let Some((role, others)) = roles.split_first() else {
        return Ok(());
    };
    steps.push(Step::Visit(others, is_open))?;
    strays_at(role, is_open, above, seen, found, steps)?;
    Ok(())
}

impl Targets {
    /// The listed names that a search may not find, in the order of `targets_iter`: a role above their document doesn't
    /// match them, or isn't the first with its name. The search finds all others.
    pub(crate) fn strays(&self, alloc: Global) -> Result<Vec<&TargetName>, AllocError>
        ensures { IfOk result (λ v. names_of v.items
            ≡ strays_below no_names any_name (tree_doc self.now)) }
    {
        let mut above = Vec::new(alloc);
        let mut seen = BTreeSet::new(alloc);
        let mut found = Vec::new(alloc);
        let mut steps = Vec::new(alloc);
        add_strays(&self.targets, true, above.as_slice(), &mut found)?;
        steps.push(Step::Visit(roles_of(self), true))?;
        while let Some(step) = steps.pop() {
            match step {
                Step::Leave => drop(above.pop()),
                Step::Visit(roles, is_open) => {
                    strays_first(
                        roles, is_open, &mut above, &mut seen, &mut found, &mut steps,
                    )?
                }
            }
        }
        Ok(found)
    }
}
