//! Copies of targets, with the documents of their roles.

ghost use Rattle.std.specs.Prelude.{◌≡◌, ◌<◌, ◌+◌, ◌++◌, List, IfOk, OnOk, map, take, drop, option_map};
ghost use Rattle.tough_schema.specs.Below.{work};
ghost use Rattle.tough_schema.specs.Paths.{paths_doc};
ghost use Rattle.tough_schema.specs.Target.{target_doc};
ghost use Rattle.tough_schema.specs.Targets.{listing_doc};
ghost use Rattle.tough_schema.specs.Whole.{RoleTree, tree_doc, delegations_tree, named_tree, role_tree, held_doc};
ghost use Rattle.tough_schema.specs.Copying.{regrown, delegations_over, document_over, held_over, rebuilt, stack, made, all_stepped, weights};

use crate::below::roles_under;
use crate::delegations::{DelegatedRole, Delegations, PathSet};
use crate::target::Target;
use crate::targets::{DelegatedTargets, Targets};
use std::alloc::{AllocError, Global};
use std::collections::BTreeMap;
use tough_keys::clone::copy;
use tough_names::TargetName;
use tough_roles::Signed;
use tough_roles::clone::{copy_keyids, copy_keys, copy_signatures};

impl Clone for Target {
    ghost is_clone = { λ t c. target_doc c ≡ target_doc t };

    fn clone(&self) -> Result<Target, AllocError> {
        let hashes = self.hashes.clone()?;
        let custom = copy(&self.custom)?;
        let _extra = copy(&self._extra)?;
        Ok(Target {
            length: self.length,
            hashes,
            custom,
            _extra,
        })
    }
}

impl Clone for PathSet {
    ghost is_clone = { λ p c. paths_doc c ≡ paths_doc p };

    fn clone(&self) -> Result<PathSet, AllocError> {
        match self {
            PathSet::Paths(patterns) => Ok(PathSet::Paths(patterns.clone()?)),
            PathSet::PathHashPrefixes(prefixes) => Ok(PathSet::PathHashPrefixes(prefixes.clone()?)),
        }
    }
}

/// Copies the targets of a document with their names. `AllocError` when out of memory.
pub fn copy_listing(
    targets: &BTreeMap<TargetName, Target>,
) -> Result<BTreeMap<TargetName, Target>, AllocError>
    ensures { IfOk result (λ m. listing_doc m.entries ≡ listing_doc targets.now.entries) }
{
    let copies = targets.clone()?;
    Ok(copies)
}

// Copies the document, with these delegations in the place of its own.
fn copy_own(document: &Targets, delegations: Option<Delegations>) -> Result<Targets, AllocError>
    ensures { IfOk result (λ c. tree_doc c
        ≡ regrown (option_map delegations_tree delegations) (tree_doc document.now)) }
{
    let spec_version = document.spec_version.clone()?;
    let targets = copy_listing(&document.targets)?;
    let _extra = copy(&document._extra)?;
    Ok(Targets {
        spec_version,
        version: document.version,
        expires: document.expires,
        targets,
        delegations,
        _extra,
    })
}

// Copies the role, with this document in the place of its own.
fn copy_entry(
    role: &DelegatedRole,
    targets: Option<Signed<DelegatedTargets>>,
) -> Result<DelegatedRole, AllocError>
    ensures { IfOk result (λ c. role_tree c
        ≡ ((role_tree role.now).0, option_map held_doc targets)) }
{
    let name = role.name.clone()?;
    let keyids = copy_keyids(&role.keyids)?;
    let paths = role.paths.clone()?;
    Ok(DelegatedRole {
        name,
        keyids,
        threshold: role.threshold,
        paths,
        terminating: role.terminating,
        targets,
    })
}

// Copies the delegations, with these roles in the place of their own.
fn copy_delegations_over(
    delegations: &Delegations,
    below: Vec<DelegatedRole>,
) -> Result<Delegations, AllocError>
    ensures { IfOk result (λ c. delegations_tree c
        ≡ delegations_over (map role_tree below.items) delegations.now) }
{
    let keys = copy_keys(&delegations.keys)?;
    Ok(Delegations { keys, roles: below })
}

// Copies the document, with these roles in the place of those that it lists.
fn copy_document_over(document: &Targets, below: Vec<DelegatedRole>) -> Result<Targets, AllocError>
    ensures { IfOk result (λ c. tree_doc c
        ≡ document_over (map role_tree below.items) document.now) }
{
    match &document.delegations {
        None => copy_own(document, None),
        Some(delegations) => {
            let copy = copy_delegations_over(delegations, below)?;
            copy_own(document, Some(copy))
        }
    }
}

// Copies the document of a role, with these roles in the place of those that it lists.
fn copy_held_over(
    document: &Signed<DelegatedTargets>,
    below: Vec<DelegatedRole>,
) -> Result<Signed<DelegatedTargets>, AllocError>
    ensures { IfOk result (λ c. held_doc c
        ≡ held_over (map role_tree below.items) document.now) }
{
    let name = document.signed.name.clone()?;
    let targets = copy_document_over(&document.signed.targets, below)?;
    let signatures = copy_signatures(&document.signatures)?;
    Ok(Signed {
        signed: DelegatedTargets { name, targets },
        signatures,
    })
}

// Copies the role, with these roles in the place of those below it.
fn copy_over(role: &DelegatedRole, below: Vec<DelegatedRole>) -> Result<DelegatedRole, AllocError>
    ensures { IfOk result (λ c. role_tree c ≡ rebuilt role.now (map role_tree below.items)) }
{
    match &role.targets {
        None => copy_entry(role, None),
        Some(document) => {
            let copy = copy_held_over(document, below)?;
            copy_entry(role, Some(copy))
        }
    }
}

// What is still to do until roles are copied.
#[derive(Drop)]
enum Step<'a> {
    // To copy these roles, the last one first.
    Copy(&'a [DelegatedRole]),
    // To copy a role. The copies of the roles below it are the last ones.
    Make(&'a DelegatedRole),
}

// The last ones of the copies, the last one first.
fn take_last(
    alloc: Global,
    copies: &mut Vec<DelegatedRole>,
    count: usize,
) -> Result<Vec<DelegatedRole>, AllocError>
    ensures taken { IfOk result
        (λ v. map role_tree v.items ≡ take count (stack copies.old.items)) }
    ensures left { OnOk result (stack copies.new.items ≡ drop count (stack copies.old.items)) }
{
    let mut taken = Vec::new(alloc);
    while taken.len() < count {
        let Some(role) = copies.pop() else {
            return Ok(taken);
        };
        taken.push(role)?;
    }
    Ok(taken)
}

// Adds a copy of the role. It takes the place of the copies of the roles below it.
fn make(
    alloc: Global,
    role: &DelegatedRole,
    copies: &mut Vec<DelegatedRole>,
) -> Result<(), AllocError>
    ensures { OnOk result (stack copies.new.items ≡ made role.now (stack copies.old.items)) }
{
    let below = take_last(alloc, copies, roles_under(role).len())?;
    let copy = copy_over(role, below)?;
    copies.push(copy)?;
    Ok(())
}

// Goes on with the last of these roles, and then with the others.
fn copy_last<'a>(roles: &'a [DelegatedRole], steps: &mut Vec<Step<'a>>) -> Result<(), AllocError>
    ensures copies { OnOk result ((copies : List RoleTree) → all_stepped steps.new.items copies
        ≡ all_stepped steps.old.items (map role_tree roles.now ++ copies)) }
    ensures fewer { OnOk result
        (weights steps.new.items < weights steps.old.items + work roles.now) }
{
    let Some((role, others)) = roles.split_last() else {
        return Ok(());
    };
    steps.push(Step::Copy(others))?;
    steps.push(Step::Make(role))?;
    steps.push(Step::Copy(roles_under(role)))?;
    Ok(())
}

// Copies the roles with all that is below them, without recursion.
fn copy_roles(alloc: Global, roles: &[DelegatedRole]) -> Result<Vec<DelegatedRole>, AllocError>
    ensures { IfOk result (λ v. map role_tree v.items ≡ map role_tree roles.now) }
{
    let mut copies = Vec::new(alloc);
    let mut steps = Vec::new(alloc);
    steps.push(Step::Copy(roles))?;
    while let Some(step) = steps.pop() {
        match step {
            Step::Copy(roles) => copy_last(roles, &mut steps)?,
            Step::Make(role) => make(alloc, role, &mut copies)?,
        }
    }
    let taken = take_last(alloc, &mut copies, roles.len())?;
    Ok(taken)
}

fn copy_delegations(delegations: &Delegations) -> Result<Delegations, AllocError>
    ensures { IfOk result (λ c. delegations_tree c ≡ delegations_tree delegations.now) }
{
    let keys = copy_keys(&delegations.keys)?;
    let roles = copy_roles(*delegations.roles.allocator(), &delegations.roles)?;
    Ok(Delegations { keys, roles })
}

fn copy_document(document: &Targets) -> Result<Targets, AllocError>
    ensures { IfOk result (λ c. tree_doc c ≡ tree_doc document.now) }
{
    match &document.delegations {
        None => copy_own(document, None),
        Some(delegations) => copy_own(document, Some(copy_delegations(delegations)?)),
    }
}

fn copy_named(document: &DelegatedTargets) -> Result<DelegatedTargets, AllocError>
    ensures { IfOk result (λ c. named_tree c ≡ named_tree document.now) }
{
    let name = document.name.clone()?;
    let targets = copy_document(&document.targets)?;
    Ok(DelegatedTargets { name, targets })
}

/// Copies the document of a role, with the documents below it.
pub(crate) fn copy_held(
    document: &Signed<DelegatedTargets>,
) -> Result<Signed<DelegatedTargets>, AllocError>
    ensures { IfOk result (λ c. held_doc c ≡ held_doc document.now) }
{
    let signed = copy_named(&document.signed)?;
    let signatures = copy_signatures(&document.signatures)?;
    Ok(Signed { signed, signatures })
}

fn copy_role(role: &DelegatedRole) -> Result<DelegatedRole, AllocError>
    ensures { IfOk result (λ c. role_tree c ≡ role_tree role.now) }
{
    match &role.targets {
        None => copy_entry(role, None),
        Some(document) => copy_entry(role, Some(copy_held(document)?)),
    }
}

impl Clone for Targets {
    ghost is_clone = { λ t c. tree_doc c ≡ tree_doc t };

    fn clone(&self) -> Result<Targets, AllocError> {
        copy_document(self)
    }
}

impl Clone for DelegatedTargets {
    ghost is_clone = { λ t c. named_tree c ≡ named_tree t };

    fn clone(&self) -> Result<DelegatedTargets, AllocError> {
        copy_named(self)
    }
}

impl Clone for Delegations {
    ghost is_clone = { λ g c. delegations_tree c ≡ delegations_tree g };

    fn clone(&self) -> Result<Delegations, AllocError> {
        copy_delegations(self)
    }
}

impl Clone for DelegatedRole {
    ghost is_clone = { λ r c. role_tree c ≡ role_tree r };

    fn clone(&self) -> Result<DelegatedRole, AllocError> {
        copy_role(self)
    }
}
