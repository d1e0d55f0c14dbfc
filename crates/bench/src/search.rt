//! Searches of trees with many roles.

use anyhow::Error;
use std::alloc::Global;
use std::mem;
use std::num::NonZeroU64;
use std::time::Instant;
use tough::TargetName;
use tough::schema::{DelegatedRole, DelegatedTargets, PathPattern, PathSet, Signed, Targets};

/// Prints how long it takes to look for a name that no document lists, in a chain and in a fan of so many delegated
/// roles whose paths all match, and the same with a tenth of the roles.
pub fn run(rt: &HostRuntime, roles: u32) -> Result<(), Error> {
    for count in [roles / 10, roles] {
        measure(rt, "chain", count, chain(rt.alloc(), count)?)?;
    }
    for count in [roles / 10, roles] {
        measure(rt, "fan", count, fan(rt.alloc(), count)?)?;
    }
    Ok(())
}

// Prints how long a look takes in a tree of this shape.
fn measure(rt: &HostRuntime, shape: &str, count: u32, tree: Targets) -> Result<(), Error> {
    println!(rt; "a {shape} of {count} roles")?;
    let looked = look(rt, &tree);
    drop(tree);
    looked
}

// Looks for a name that isn't there.
fn look(rt: &HostRuntime, tree: &Targets) -> Result<(), Error> {
    let name = TargetName::from_str(rt.alloc(), "x")?;
    let began = Instant::now(rt)?;
    let found = tree.find_target(rt.alloc(), &name, false).is_ok();
    println!(rt; "  found {found}, {} us", began.elapsed(rt)?.as_micros())?;
    Ok(())
}

// Targets that delegate to one role, which delegates to the next, and so on.
fn chain(alloc: Global, count: u32) -> Result<Targets, Error> {
    let mut tree = empty(alloc)?;
    for number in 0..count {
        tree = above(alloc, number, tree)?;
    }
    Ok(tree)
}

// Targets that delegate to a role with this document.
fn above(alloc: Global, number: u32, targets: Targets) -> Result<Targets, Error> {
    let mut role = role(alloc, number)?;
    if let Some(document) = &mut role.targets {
        drop(mem::replace(&mut document.signed.targets, targets));
    }
    delegating(alloc, role)
}

// Targets that delegate to this role.
fn delegating(alloc: Global, role: DelegatedRole) -> Result<Targets, Error> {
    let mut targets = empty(alloc)?;
    add(&mut targets, role)?;
    Ok(targets)
}

// Adds a role to the delegations.
fn add(targets: &mut Targets, role: DelegatedRole) -> Result<(), Error> {
    if let Some(delegations) = &mut targets.delegations {
        delegations.roles.push(role)?;
    }
    Ok(())
}

// Targets that delegate to many roles, none of which delegates further.
fn fan(alloc: Global, count: u32) -> Result<Targets, Error> {
    let mut tree = empty(alloc)?;
    for number in 0..count {
        add(&mut tree, role(alloc, number)?)?;
    }
    Ok(tree)
}

// A role that may list every name, with a document that lists nothing.
fn role(alloc: Global, number: u32) -> Result<DelegatedRole, Error> {
    let mut paths = Vec::new(alloc);
    paths.push(PathPattern::from_str(alloc, "*")?)?;
    let name = format!(in alloc; "role-{number}")?;
    let signed = DelegatedTargets {
        name: name.clone()?,
        targets: empty(alloc)?,
    };
    Ok(DelegatedRole {
        name,
        keyids: Vec::new(alloc),
        threshold: NonZeroU64::MIN,
        paths: PathSet::Paths(paths),
        terminating: false,
        targets: Some(Signed {
            signed,
            signatures: Vec::new(alloc),
        }),
    })
}

// A document that lists nothing and delegates to no role.
fn empty(alloc: Global) -> Result<Targets, Error> {
    let spec_version = String::from_str(alloc, "1.0.0")?;
    Ok(Targets::new(alloc, spec_version, NonZeroU64::MIN, tough_demo::expires()?))
}
