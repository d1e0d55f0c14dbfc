//! The targets that the documents of a tree list.

ghost use Rattle.std.specs.Prelude.{◌≡◌, ◌++◌, [], None, IfOk, IfErr, OnOk, map};
ghost use Rattle.tough_roles.specs.declared.error.Error.TheVariants as errors;
ghost use Rattle.tough_schema.specs.Target.{target_doc};
ghost use Rattle.tough_schema.specs.Targets.{listing_doc};
ghost use Rattle.tough_schema.specs.Whole.{tree_doc, role_tree};
ghost use Rattle.tough_schema.specs.Entries.{all_listed, listed_of, merged_into, first_missing, IsInvalid};
ghost use Rattle.tough_schema.specs.Gather.{listed_docs, map_docs};

use crate::delegations::DelegatedRole;
use crate::nodes::Nodes;
use crate::target::Target;
use crate::targets::Targets;
use std::alloc::{AllocError, Global};
use std::collections::BTreeMap;
use tough_names::TargetName;
use tough_roles::Error;

// Adds what a document lists, in the order of the names.
fn add_listing<'a>(
    targets: &'a BTreeMap<TargetName, Target>,
    found: &mut Vec<(&'a TargetName, &'a Target)>,
) -> Result<(), AllocError>
    ensures { OnOk result (listed_docs found.new.items
        ≡ listed_docs found.old.items ++ listing_doc targets.now.entries) }
{
    for (name, target) in targets.iter() {
        found.push((name, target))?;
    }
    Ok(())
}

// Adds what a role's document lists, if it has one.
fn add_document<'a>(
    role: &'a DelegatedRole,
    found: &mut Vec<(&'a TargetName, &'a Target)>,
) -> Result<(), AllocError>
    ensures { OnOk result (listed_docs found.new.items
        ≡ listed_docs found.old.items ++ listed_of (role_tree role.now).1) }
{
    if let Some(signed) = &role.targets {
        add_listing(&signed.signed.targets.targets, found)?;
    }
    Ok(())
}

// No document lists the name.
fn not_found(name: &TargetName) -> Result<Error, AllocError>
    ensures { IfOk result (λ e. e ≡ errors.TargetNotFound name.now) }
{
    Ok(Error::TargetNotFound {
        name: name.clone()?,
    })
}

impl Targets {
    /// The targets of the tree: of this document, then of the delegated roles' documents in preorder, each in the order
    /// of its names.
    pub fn targets_iter(&self, alloc: Global) -> Result<Vec<(&TargetName, &Target)>, AllocError>
        ensures { IfOk result (λ v. listed_docs v.items ≡ all_listed (tree_doc self.now)) }
    {
        let entries = self.entries(alloc)?;
        let mut found = Vec::new(alloc);
        add_listing(&self.targets, &mut found)?;
        for role in &entries {
            add_document(role, &mut found)?;
        }
        Ok(found)
    }

    /// The targets of the tree as a map, in which a later target takes the place of an earlier one with its name.
    pub fn targets_map(&self, alloc: Global) -> Result<BTreeMap<TargetName, &Target>, AllocError>
        ensures { IfOk result (λ m. map_docs m.entries
            ≡ merged_into [] (all_listed (tree_doc self.now))) }
    {
        let listed = self.targets_iter(alloc)?;
        let mut found = BTreeMap::new(alloc);
        for entry in &listed {
            let (name, target) = *entry;
            found.insert(name.clone()?, target)?;
        }
        Ok(found)
    }

    /// Checks that the permissive search finds each listed name. `TargetNotFound` with the first name that it doesn't
    /// find, in the order of `targets_iter`.
    pub fn validate(&self, alloc: Global) -> Result<(), Error>
        ensures ok { IfOk result (λ u. first_missing (tree_doc self.now) ≡ None) }
        ensures refused { IfErr result (λ e. IsInvalid (tree_doc self.now) e) }
    {
        let strays = self.strays(alloc)?;
        let nodes = Nodes::of(alloc, self)?;
        for name in &strays {
            let found = nodes.find(alloc, name, true)?;
            if found.is_none() {
                return Err(not_found(name)?);
            }
        }
        Ok(())
    }
}
