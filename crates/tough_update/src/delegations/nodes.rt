//! Documents by numbers.

ghost use Rattle.std.specs.Prelude.{◌≡◌, IfOk, IfErr, drop, option_map};
ghost use Rattle.tough_roles.specs.Signature.{signed_doc};
ghost use Rattle.tough_schema.specs.Whole.{role_tree, tree_doc, held_doc};
ghost use Rattle.tough_update.specs.delegations.Numbered.{targets, also, last_number, last_document, roles_at, tree_of, unnamed, put_at};
ghost use Rattle.tough_update.specs.delegations.Growing.{first_of};
ghost use Rattle.tough_trust.specs.delegations.Dressed.{entries_of};
ghost use Rattle.tough_update.specs.delegations.Documents.{node_doc, nodes_doc};

use std::alloc::{AllocError, Global};
use tough_roles::Signed;
use tough_schema::{DelegatedRole, DelegatedTargets, Targets};
use tough_trust::{roles_of, set_document};

/// A document that has its place.
#[derive(Drop)]
pub(crate) struct Node {
    /// The number of the document that lists its role.
    pub(crate) parent: usize,
    /// The role's place there.
    pub(crate) at: usize,
    /// The document, as it was read.
    pub(crate) document: Signed<DelegatedTargets>,
}

/// The targets, whose number is 0, and the documents that got their places after them, each with the next number.
#[derive(Drop)]
pub(crate) struct Nodes {
    top: Signed<DelegatedTargets>,
    others: Vec<Node>,
}

// The targets of a document.
fn unnamed(document: Signed<DelegatedTargets>) -> Signed<Targets>
    ensures { signed_doc tree_doc result ≡ unnamed (held_doc document) }
{
    let Signed { signed, signatures } = document;
    Signed {
        signed: signed.targets,
        signatures,
    }
}

impl Nodes {
    /// The targets alone.
    pub(crate) fn new(alloc: Global, top: Signed<DelegatedTargets>) -> Nodes
        ensures { nodes_doc result ≡ targets (held_doc top) }
    {
        Nodes {
            top,
            others: Vec::new(alloc),
        }
    }

    /// The number of the last document.
    pub(crate) fn last_number(&self) -> usize
        ensures { result ≡ last_number (nodes_doc self.now) }
    {
        self.others.len()
    }

    /// The last document.
    pub(crate) fn last(&self) -> &Signed<DelegatedTargets>
        ensures { held_doc result.now ≡ last_document (nodes_doc self.now) }
    {
        match self.others.last() {
            Some(node) => &node.document,
            None => &self.top,
        }
    }

    // The roles that the document of a number lists.
    fn roles(&self, number: usize) -> &[DelegatedRole]
        ensures { entries_of result.now ≡ roles_at number (nodes_doc self.now) }
    {
        if number == 0 {
            return roles_of(&self.top);
        }
        match self.others.get(number - 1) {
            Some(node) => roles_of(&node.document),
            None => &[],
        }
    }

    /// The role at a place of the list in the document of a number.
    pub(crate) fn role(&self, number: usize, place: usize) -> Option<&DelegatedRole>
        ensures { option_map (λ r. (role_tree r.now).0) result
            ≡ first_of (drop place (roles_at number (nodes_doc self.now))) }
    {
        self.roles(number).get(place)
    }

    /// Gives a document its place.
    pub(crate) fn push(&mut self, node: Node) -> Result<(), AllocError>
        ensures placed { IfOk result
            (λ _. nodes_doc self.new ≡ also (nodes_doc self.old) (node_doc node)) }
        ensures refused { IfErr result (λ _. nodes_doc self.new ≡ nodes_doc self.old) }
    {
        self.others.push(node)?;
        Ok(())
    }

    // The role at a place of the list in the document of a number gets this document.
    fn put(&mut self, number: usize, place: usize, document: Signed<DelegatedTargets>)
        ensures { nodes_doc self.new
            ≡ put_at number place (held_doc document) (nodes_doc self.old) }
    {
        if number == 0 {
            set_document(&mut self.top, place, document);
            return;
        }
        if let Some(node) = self.others.get_mut(number - 1) {
            set_document(&mut node.document, place, document);
        }
    }

    /// The tree: from the last one on, each document takes its place.
    pub(crate) fn into_tree(mut self) -> Signed<Targets>
        ensures { signed_doc tree_doc result ≡ unnamed (tree_of (nodes_doc self)) }
    {
        while let Some(node) = self.others.pop() {
            let Node {
                parent,
                at,
                document,
            } = node;
            self.put(parent, at, document);
        }
        unnamed(self.top)
    }
}
