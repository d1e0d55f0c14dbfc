//! The documents that have their place, counted.

ghost use Rattle.std.specs.Prelude.{◌≡◌};
ghost use Rattle.tough_update.specs.delegations.Documents.{nodes_doc};
ghost use Rattle.tough_update.specs.growth.Tallies.{counted_tally};

use crate::delegations::nodes::{Node, Nodes};
use std::alloc::{AllocError, Global};
use tough_roles::Signed;
use tough_schema::{DelegatedRole, DelegatedTargets, Targets};
use tough_trust::roles_of;

/// The documents that have their place, and how many roles they list.
#[derive(Drop)]
pub(crate) struct Placed {
    nodes: Nodes,
    // Up to the largest number.
    entries: u64,
    ghost counted: { entries ≡ counted_tally (nodes_doc nodes) },
}

impl Placed {
    ghost use Rattle.std.specs.Prelude.{IfOk, drop, option_map};
    ghost use Rattle.tough_roles.specs.Signature.{signed_doc};
    ghost use Rattle.tough_schema.specs.Whole.{role_tree, tree_doc, held_doc};
    ghost use Rattle.tough_update.specs.delegations.Numbered.{targets, also, last_number, last_document, roles_at, tree_of, unnamed};
    ghost use Rattle.tough_update.specs.delegations.Growing.{first_of};
    ghost use Rattle.tough_update.specs.delegations.Documents.{node_doc};
    ghost use Rattle.tough_update.specs.delegations.Placed.{placed_doc};

    /// The targets alone.
    pub(crate) fn new(alloc: Global, top: Signed<DelegatedTargets>) -> Placed
        ensures { placed_doc result ≡ targets (held_doc top) }
    {
        let entries = roles_of(&top).len() as u64;
        Placed {
            nodes: Nodes::new(alloc, top),
            entries,
        }
    }

    /// How many roles the documents list, up to the largest number.
    pub(crate) fn entries(&self) -> u64
        ensures { result ≡ counted_tally (placed_doc self.now) }
    {
        self.entries
    }

    /// The number of the last document.
    pub(crate) fn last_number(&self) -> usize
        ensures { result ≡ last_number (placed_doc self.now) }
    {
        self.nodes.last_number()
    }

    /// The last document.
    pub(crate) fn last(&self) -> &Signed<DelegatedTargets>
        ensures { held_doc result.now ≡ last_document (placed_doc self.now) }
    {
        self.nodes.last()
    }

    /// The role at a place of the list in the document of a number.
    pub(crate) fn role(&self, number: usize, place: usize) -> Option<&DelegatedRole>
        ensures { option_map (λ r. (role_tree r.now).0) result
            ≡ first_of (drop place (roles_at number (placed_doc self.now))) }
    {
        self.nodes.role(number, place)
    }

    /// Gives a document its place.
    pub(crate) fn push(&mut self, node: Node) -> Result<(), AllocError>
        ensures { IfOk result
            (λ _. placed_doc self.new ≡ also (placed_doc self.old) (node_doc node)) }
    {
        let listed = roles_of(&node.document).len() as u64;
        self.nodes.push(node)?;
        self.entries = self.entries.saturating_add(listed);
        Ok(())
    }

    /// The tree: from the last one on, each document takes its place.
    pub(crate) fn into_tree(self) -> Signed<Targets>
        ensures { signed_doc tree_doc result ≡ unnamed (tree_of (placed_doc self)) }
    {
        let Placed { nodes, .. } = self;
        nodes.into_tree()
    }
}
