//! Whole repositories.
ghost use Rattle.std.specs.Prelude.{◌≡◌, ◌+◌, ◌*◌, IfOk, OnOk, length};

use crate::builder::{Builder, version};
use crate::documents::targets;
use crate::entries::hashes;
use crate::error::DemoError;
use crate::files::RepositoryFiles;
use crate::roles::{by_pattern, by_prefix, delegate, delegation};
use std::alloc::{AllocError, Global};
use std::collections::BTreeMap;
use tough_names::TargetName;
use tough_schema::{Delegations, Target, Targets};

// Makes so many target files, and lists them in targets of version 2 that delegate to these roles.
fn add_targets(
    alloc: Global,
    count: u64,
    roles: Delegations,
    builder: &mut Builder,
) -> Result<Targets, DemoError>
    ensures { OnOk result
        (length builder.new.files.items ≡ length builder.old.files.items + count) }
{
    let mut listing = BTreeMap::new(alloc);
    for number in 0..count {
        let name = format!(in alloc; "target-{:06}.txt", number + 1)?;
        let text = format!(in alloc; "This is target number {}.\n", number + 1)?;
        builder.add_target(alloc, name, text.into_bytes(), &mut listing)?;
    }
    let mut top = targets(alloc, version(2), listing)?;
    top.delegations = Some(roles);
    Ok(top)
}

/// A repository with so many targets, with or without consistent snapshots: its root has version 1, its targets 2, its
/// snapshot 3 and its timestamp 4.
///
/// The targets are `target-000001.txt` and so on. The files are those of the targets, in their order, and then
/// `targets.json`, `snapshot.json`, `timestamp.json` and `1.root.json`.
pub fn repository(alloc: Global, count: u64, consistent: bool) -> Result<RepositoryFiles, DemoError>
    ensures { IfOk result (λ r. length r.files.items ≡ count + 4) }
{
    let mut builder = Builder::new(alloc, consistent);
    let top = add_targets(alloc, count, Delegations::new(alloc), &mut builder)?;
    builder.finish(alloc, top)
}

// Makes the target file of this name, and lists it.
fn add_named(
    alloc: Global,
    name: String,
    builder: &mut Builder,
    listing: &mut BTreeMap<TargetName, Target>,
) -> Result<(), DemoError>
    ensures { OnOk result (length builder.new.files.items ≡ length builder.old.files.items + 1) }
{
    let text = format!(in alloc; "This is {name}.\n")?;
    builder.add_target(alloc, name, text.into_bytes(), listing)
}

// Makes the document of the role of this name, of version 5, which lists these targets and delegates to these roles.
fn add_role(
    alloc: Global,
    name: &str,
    listing: BTreeMap<TargetName, Target>,
    roles: Delegations,
    builder: &mut Builder,
) -> Result<(), DemoError>
    ensures { OnOk result (length builder.new.files.items ≡ length builder.old.files.items + 1) }
{
    let mut document = targets(alloc, version(5), listing)?;
    document.delegations = Some(roles);
    builder.add_role(alloc, name, document)
}

// Makes the files of the role of this name: so many targets in a folder of this name, and the role's document, which
// delegates to these roles.
fn add_role_of_many(
    alloc: Global,
    name: &str,
    count: usize,
    roles: Delegations,
    builder: &mut Builder,
) -> Result<(), DemoError>
    ensures { OnOk result
        (length builder.new.files.items ≡ length builder.old.files.items + (count + 1)) }
{
    let mut listing = BTreeMap::new(alloc);
    for number in 0..count {
        let target = format!(in alloc; "{name}/target-{number:06}.txt")?;
        add_named(alloc, target, builder, &mut listing)?;
    }
    add_role(alloc, name, listing, roles, builder)
}

// Makes the files of the role of this name: the target `STEM.txt`, and the role's document, which delegates to these
// roles.
fn add_role_of_one(
    alloc: Global,
    name: &str,
    stem: &str,
    roles: Delegations,
    builder: &mut Builder,
) -> Result<(), DemoError>
    ensures { OnOk result (length builder.new.files.items ≡ length builder.old.files.items + 2) }
{
    let mut listing = BTreeMap::new(alloc);
    add_named(
        alloc,
        format!(in alloc; "{stem}.txt")?,
        builder,
        &mut listing,
    )?;
    add_role(alloc, name, listing, roles, builder)
}

// The name of the role of this number.
fn numbered(alloc: Global, number: usize) -> Result<String, AllocError> {
    format!(in alloc; "r{number}")
}

// Delegations to the role of this number, which may list every name, where a chain of so many roles has it; else to no
// role.
fn link(alloc: Global, number: usize, roles: usize) -> Result<Delegations, DemoError> {
    if number < roles {
        let name = numbered(alloc, number)?;
        delegation(alloc, name.as_str(), by_pattern(alloc, "*")?, false)
    } else {
        Ok(Delegations::new(alloc))
    }
}

/// A repository whose targets delegate to the first role of a chain of so many, which delegates to the next, and so on.
/// Each role may list every name, and lists so many targets; the targets list none.
///
/// The roles are `r0` and so on, of version 5, and their targets `r0/target-000000.txt` and so on. The files of each role
/// stand before the four documents, which are as those of `repository` with consistent snapshots.
pub fn chain(alloc: Global, roles: usize, each: usize) -> Result<RepositoryFiles, DemoError>
    ensures { IfOk result (λ r. length r.files.items ≡ roles * (each + 1) + 4) }
{
    let mut builder = Builder::new(alloc, true);
    for number in 0..roles {
        let name = numbered(alloc, number)?;
        let below = link(alloc, number + 1, roles)?;
        add_role_of_many(alloc, name.as_str(), each, below, &mut builder)?;
    }
    let top = add_targets(alloc, 0, link(alloc, 0, roles)?, &mut builder)?;
    builder.finish(alloc, top)
}

/// A repository whose targets delegate to each role of a fan of so many. Each role may list what is below a folder of its
/// own name, and lists so many targets; the targets list none. Names, versions and files are as those of `chain`.
pub fn fan(alloc: Global, roles: usize, each: usize) -> Result<RepositoryFiles, DemoError>
    ensures { IfOk result (λ r. length r.files.items ≡ roles * (each + 1) + 4) }
{
    let mut builder = Builder::new(alloc, true);
    let mut below = Delegations::new(alloc);
    for number in 0..roles {
        let name = numbered(alloc, number)?;
        let pattern = format!(in alloc; "{name}/*")?;
        let paths = by_pattern(alloc, pattern.as_str())?;
        delegate(alloc, &mut below, name.as_str(), paths, false)?;
        add_role_of_many(
            alloc,
            name.as_str(),
            each,
            Delegations::new(alloc),
            &mut builder,
        )?;
    }
    let top = add_targets(alloc, 0, below, &mut builder)?;
    builder.finish(alloc, top)
}

// Delegations to three roles: to `red`, which terminates, to `green`, by the beginning of its target's digest, and to
// `a`.
fn three(alloc: Global) -> Result<Delegations, DemoError> {
    let digest = hashes(alloc, b"green.txt")?.sha256;
    let prefix = digest.as_str().get(..4).unwrap_or("green");
    let mut below = delegation(alloc, "red", by_pattern(alloc, "red*")?, true)?;
    delegate(alloc, &mut below, "green", by_prefix(alloc, prefix)?, false)?;
    delegate(alloc, &mut below, "a", by_pattern(alloc, "a*")?, false)?;
    Ok(below)
}

/// A repository with so many targets of its own, as `repository`, and with four roles, each with one target. The targets
/// delegate to `red`, which terminates, to `green`, by the beginning of its target's digest, and to `a`, which delegates
/// to `a/b`.
pub fn mixed(alloc: Global, count: u64, consistent: bool) -> Result<RepositoryFiles, DemoError>
    ensures { IfOk result (λ r. length r.files.items ≡ count + 12) }
{
    let mut builder = Builder::new(alloc, consistent);
    add_role_of_one(alloc, "red", "red", Delegations::new(alloc), &mut builder)?;
    add_role_of_one(
        alloc,
        "green",
        "green",
        Delegations::new(alloc),
        &mut builder,
    )?;
    let below = delegation(alloc, "a/b", by_pattern(alloc, "a-b*")?, false)?;
    add_role_of_one(alloc, "a", "a", below, &mut builder)?;
    add_role_of_one(alloc, "a/b", "a-b", Delegations::new(alloc), &mut builder)?;
    let top = add_targets(alloc, count, three(alloc)?, &mut builder)?;
    builder.finish(alloc, top)
}
