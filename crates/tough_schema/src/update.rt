//! Taking the documents of roles over from an older tree.

ghost use Rattle.std.specs.Prelude.{◌≡◌, ◌++◌, IfOk, OnOk, OnErr, map, option_map, string_bytes};
ghost use Rattle.tough_schema.specs.Whole.{tree_doc, role_tree, held_doc};
ghost use Rattle.tough_schema.specs.Update.{document_sought, documents_for, given, all_given, updated, listed_roles, needed, needed_at, with_documents};

use crate::below::roles_of;
use crate::copy::copy_held;
use crate::delegations::DelegatedRole;
use crate::seek::{Seen, seek_in};
use crate::targets::{DelegatedTargets, Targets};
use std::alloc::{AllocError, Global};
use tough_roles::Signed;

// The document of the role that `delegated_role` returns, if it has one.
fn document_of<'a>(
    alloc: Global,
    targets: &'a Targets,
    name: &str,
) -> Result<Option<&'a Signed<DelegatedTargets>>, AllocError>
    ensures { IfOk result (λ o. option_map (λ s. held_doc s.now) o
        ≡ document_sought name.now (tree_doc targets.now)) }
{
    let Seen::Found(role) = seek_in(alloc, targets, name)? else {
        return Ok(None);
    };
    match &role.targets {
        Some(document) => Ok(Some(document)),
        None => Ok(None),
    }
}

// A copy of that document.
fn copy_of(
    alloc: Global,
    old: &Targets,
    name: &str,
) -> Result<Option<Signed<DelegatedTargets>>, AllocError>
    ensures { IfOk result (λ o. option_map held_doc o
        ≡ document_sought name.now (tree_doc old.now)) }
{
    match document_of(alloc, old, name)? {
        Some(document) => Ok(Some(copy_held(document)?)),
        None => Ok(None),
    }
}

// A copy of the document for each role.
fn copies_for(
    alloc: Global,
    old: &Targets,
    roles: &[DelegatedRole],
) -> Result<Vec<Option<Signed<DelegatedTargets>>>, AllocError>
    ensures { IfOk result (λ v. map (option_map held_doc) v.items
        ≡ documents_for (tree_doc old.now) (map role_tree roles.now)) }
{
    let mut copies = Vec::new(alloc);
    for role in roles {
        let copy = copy_of(alloc, old, role.name.as_str())?;
        copies.push(copy)?;
    }
    Ok(copies)
}

// Adds the role's name, if there is none.
fn add_needed(
    alloc: Global,
    old: &Targets,
    role: &DelegatedRole,
    names: &mut Vec<String>,
) -> Result<(), AllocError>
    ensures { OnOk result (map string_bytes names.new.items
        ≡ map string_bytes names.old.items ++ needed_at (tree_doc old.now) (role_tree role.now).0) }
{
    if document_of(alloc, old, role.name.as_str())?.is_none() {
        names.push(role.name.clone()?)?;
    }
    Ok(())
}

// The names of the roles for which there is none.
fn names_without(
    alloc: Global,
    old: &Targets,
    roles: &[DelegatedRole],
) -> Result<Vec<String>, AllocError>
    ensures { IfOk result (λ v. map string_bytes v.items
        ≡ needed (tree_doc old.now) (map (λ r. (role_tree r).0) roles.now)) }
{
    let mut names = Vec::new(alloc);
    for role in roles {
        add_needed(alloc, old, role, &mut names)?;
    }
    Ok(names)
}

// The role gets the document, if there is one.
fn give_to(role: &mut DelegatedRole, document: Option<Signed<DelegatedTargets>>)
    ensures { role_tree role.new ≡ given (role_tree role.old) (option_map held_doc document) }
{
    if let Some(document) = document {
        role.targets = Some(document);
    }
}

// Each role gets the document at its place, if there is one.
fn give(roles: &mut [DelegatedRole], documents: Vec<Option<Signed<DelegatedTargets>>>)
    ensures { map role_tree roles.new
        ≡ all_given (map role_tree roles.old) (map (option_map held_doc) documents.items) }
{
    let mut left = documents.into_iter();
    for role in roles.iter_mut() {
        if let Some(document) = left.next() {
            give_to(role, document);
        }
    }
}

// Each role that a document lists gets the document at its place, if there is one.
fn give_below(document: &mut Targets, documents: Vec<Option<Signed<DelegatedTargets>>>)
    ensures { tree_doc document.new
        ≡ with_documents (map (option_map held_doc) documents.items) (tree_doc document.old) }
{
    if let Some(delegations) = &mut document.delegations {
        give(&mut delegations.roles, documents);
    }
}

impl Targets {
    /// Gives each role that the new document lists a copy of the document that this tree has for the role's name. Returns
    /// the names of the roles for which it has none, in their order. When out of memory, it changes nothing.
    pub fn update_targets(
        &self,
        alloc: Global,
        new_targets: &mut Signed<Targets>,
    ) -> Result<Vec<String>, AllocError>
        ensures updated { OnOk result
            (tree_doc new_targets.new.signed
            ≡ updated (tree_doc self.now) (tree_doc new_targets.old.signed)) }
        ensures needed { IfOk result
            (λ v. map string_bytes v.items
            ≡ needed (tree_doc self.now) (listed_roles (tree_doc new_targets.old.signed))) }
        ensures refused { OnErr result
            (tree_doc new_targets.new.signed ≡ tree_doc new_targets.old.signed) }
        ensures signatures { new_targets.new.signatures ≡ new_targets.old.signatures }
    {
        let roles = roles_of(&new_targets.signed);
        let documents = copies_for(alloc, self, roles)?;
        let names = names_without(alloc, self, roles)?;
        give_below(&mut new_targets.signed, documents);
        Ok(names)
    }
}
