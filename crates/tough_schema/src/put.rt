//! Replacing the document of a role.

ghost use Rattle.std.specs.Prelude.{◌≡◌, List, reverse, Some, OnOk, OnErr, IfErr, IsTrue, option_map};
ghost use Rattle.tough_schema.specs.Put.{with_document, is_role};
ghost use Rattle.tough_schema.specs.Seek.{sought, IsUnsought};
ghost use Rattle.tough_schema.specs.Whole.{HeldDoc, tree_doc, role_tree, held_doc};
ghost use Rattle.tough_schema.specs.Putting.{slot_in, filled_in, held_filled, held_along, along, IsOpen, IsOpenIn, turned_back};

use crate::delegations::DelegatedRole;
use crate::targets::{DelegatedTargets, Targets};
use crate::way::way_to;
use std::alloc::Global;
use std::mem;
use tough_roles::{Error, Signed};

// Gives the role this document, and returns its own.
fn exchange_at(
    role: &mut DelegatedRole,
    new: Option<Signed<DelegatedTargets>>,
) -> Option<Signed<DelegatedTargets>>
    ensures role { role_tree role.new ≡ ((role_tree role.old).0, option_map held_doc new) }
    ensures old { option_map held_doc result ≡ (role_tree role.old).1 }
{
    mem::replace(&mut role.targets, new)
}

// The same of the role at a place of the list of a document, counted from the end.
fn exchange_in(
    document: &mut Targets,
    place: usize,
    new: Option<Signed<DelegatedTargets>>,
) -> Option<Signed<DelegatedTargets>>
    ensures tree { tree_doc document.new
        ≡ filled_in place (option_map held_doc new) (tree_doc document.old) }
    ensures old { option_map held_doc result ≡ slot_in place (tree_doc document.old) }
{
    let mut old = None;
    if let Some(delegations) = &mut document.delegations {
        if let Some(at) = delegations.roles.len().checked_sub(place) {
            if let Some(role) = delegations.roles.get_mut(at) {
                old = exchange_at(role, new);
            }
        }
    }
    old
}

// The same of the list of a role's document.
fn exchange_below(
    document: &mut Signed<DelegatedTargets>,
    place: usize,
    new: Option<Signed<DelegatedTargets>>,
) -> Option<Signed<DelegatedTargets>>
    ensures document { held_doc document.new
        ≡ held_filled place (option_map held_doc new) (held_doc document.old) }
    ensures old { option_map held_doc result ≡ slot_in place (held_doc document.old).below }
{
    exchange_in(&mut document.signed.targets, place, new)
}

// Turns the documents on the way around: each gets, at the place of the one below it, the one above it. Returns the last
// one above the end of the way, and drops the document there.
fn turn(old: Option<Signed<DelegatedTargets>>, way: &[usize]) -> Option<Signed<DelegatedTargets>>
    ensures { IsOpen way.now (option_map held_doc old) → (h : HeldDoc)
        → turned_back (reverse way.now) (option_map held_doc result) (Some h)
        ≡ held_along way.now h (option_map held_doc old) }
{
    let mut above = None;
    let mut here = old;
    for place in way {
        let Some(mut document) = here else {
            return above;
        };
        here = exchange_below(&mut document, *place, above);
        above = Some(document);
    }
    above
}

// Turns them back, with this document at the end of the way.
fn turn_back(
    last: Option<Signed<DelegatedTargets>>,
    way: &[usize],
    new: Signed<DelegatedTargets>,
) -> Option<Signed<DelegatedTargets>>
    ensures { option_map held_doc result
        ≡ turned_back (reverse way.now) (option_map held_doc last) (Some (held_doc new)) }
{
    let mut above = last;
    let mut here = Some(new);
    let mut left = way;
    while let Some((place, others)) = left.split_last() {
        let Some(mut document) = above else {
            return None;
        };
        above = exchange_below(&mut document, *place, here);
        here = Some(document);
        left = others;
    }
    here
}

impl Targets {
    /// The role at the end of the way gets this document. The way has a place for each list that it goes through, from the top on, counted from
    /// the end of the list.
    pub fn put_along(&mut self, way: &[usize], new: Signed<DelegatedTargets>)
        ensures { IsOpenIn way.now (tree_doc self.old)
            → tree_doc self.new ≡ along way.now (held_doc new) (tree_doc self.old) }
    {
        let Some((first, others)) = way.split_first() else {
            return;
        };
        let old = exchange_in(self, *first, None);
        let last = turn(old, others);
        let whole = turn_back(last, others, new);
        exchange_in(self, *first, whole);
    }

    /// Replaces the document of the role that `delegated_role` returns for the name. Its errors, which change nothing.
    pub fn put_document(
        &mut self,
        alloc: Global,
        name: &str,
        document: Signed<DelegatedTargets>,
    ) -> Result<(), Error>
        ensures put { OnOk result (tree_doc self.new
            ≡ with_document name.now (held_doc document) (tree_doc self.old)) }
        ensures there { OnOk result (IsTrue (is_role (sought name.now (tree_doc self.old)))) }
        ensures refused { IfErr result
            (λ e. IsUnsought name.now (sought name.now (tree_doc self.old)) e) }
        ensures unchanged { OnErr result (tree_doc self.new ≡ tree_doc self.old) }
    {
        if let Err(error) = self.delegated_role(alloc, name) {
            return Err(error);
        }
        if let Some(way) = way_to(alloc, self, name)? {
            self.put_along(&way, document);
        }
        Ok(())
    }
}
