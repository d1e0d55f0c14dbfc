//! The turns of the roles of a list.

ghost use Rattle.std.specs.Prelude.{◌≡◌, IfOk, option_map, string_bytes};
ghost use Rattle.tough_schema.specs.Whole.{role_tree};
ghost use Rattle.tough_trust.specs.delegations.Indexed.{names_of};
ghost use Rattle.tough_update.specs.delegations.Growing.{offer_for, fetched_for, fetched_after, place_node, resumed};
ghost use Rattle.tough_update.specs.delegations.Documents.{node_doc};
ghost use Rattle.tough_update.specs.delegations.Placed.{placed_doc};
ghost use Rattle.tough_update.specs.delegations.View.{metas_of, fetched_doc, task_doc, turn_doc, turns_doc};
ghost use Rattle.tough_trust.specs.View.{index_doc};

use crate::delegations::look::{Look, look_from};
use crate::delegations::nodes::Node;
use crate::delegations::placed::Placed;
use std::alloc::{AllocError, Global};
use std::collections::BTreeMap;
use tough_roles::{Metafile, Signed, Snapshot};
use tough_schema::{DelegatedRole, DelegatedTargets};
use tough_trust::{Index, roles_of};

/// A list whose roles get their documents.
#[derive(Drop)]
pub(crate) struct Task {
    /// The number of the document that lists them.
    pub(crate) node: usize,
    /// The place of the role whose turn is next.
    pub(crate) at: usize,
    /// What was fetched for the roles from that one on, by their names.
    pub(crate) fetched: BTreeMap<String, Signed<DelegatedTargets>>,
}

/// Where the turns of a list stop: the list of the last document is to be fetched first.
#[derive(Drop)]
pub(crate) struct Stop<'a> {
    /// What is left of the turns.
    pub(crate) task: Task,
    /// The place in the other list of the role whose document is wanted.
    pub(crate) at: usize,
    /// What the snapshot lists for it.
    pub(crate) entry: &'a Metafile,
}

// The document that a role gets, with its place: the one that was fetched for its name, unless the name was loaded by then.
fn take_offer(task: &mut Task, role: &DelegatedRole, index: &Index) -> Option<Node>
    ensures offer { option_map node_doc result
        ≡ offer_for (names_of (index_doc index.now)) task.old.node task.old.at (role_tree role.now).0
        (fetched_for (role_tree role.now).0 (fetched_doc task.old.fetched.entries)) }
    ensures fetched { fetched_doc task.new.fetched.entries
        ≡ fetched_after (role_tree role.now).0 (fetched_doc task.old.fetched.entries) }
    ensures place { (task.new.node ≡ task.old.node) × (task.new.at ≡ task.old.at) }
{
    let document = task.fetched.remove(role.name.as_str())?;
    if index.contains(role.name.as_str()) {
        return None;
    }
    Some(Node {
        parent: task.node,
        at: task.at,
        document,
    })
}

// A document gets its place, under a role of this name; then its own list is looked at.
fn enter<'a>(
    alloc: Global,
    snapshot: &'a Snapshot,
    nodes: &mut Placed,
    index: &mut Index,
    name: String,
    node: Node,
) -> Result<Option<(usize, &'a Metafile)>, AllocError>
    ensures { IfOk result (λ o. turn_doc (placed_doc nodes.new) (index_doc index.new) o
        ≡ place_node (metas_of snapshot.now) (placed_doc nodes.old) (index_doc index.old)
        (string_bytes name) (node_doc node)) }
{
    nodes.push(node)?;
    index.insert(name, nodes.last_number())?;
    match look_from(alloc, snapshot, index, roles_of(nodes.last()), 0)? {
        Look::Through => Ok(None),
        Look::Unlisted(name) => {
            index.pass_over(name)?;
            Ok(None)
        }
        Look::Wanted(at, entry) => Ok(Some((at, entry))),
    }
}

// The turns of the roles that are left, up to the one for whose document's list something is to be fetched.
pub(crate) fn take_turns<'a>(
    alloc: Global,
    snapshot: &'a Snapshot,
    nodes: &mut Placed,
    index: &mut Index,
    mut task: Task,
) -> Result<Option<Stop<'a>>, AllocError>
    ensures { IfOk result (λ s. turns_doc (placed_doc nodes.new) (index_doc index.new) s
        ≡ resumed (metas_of snapshot.now) (index_doc index.old) (placed_doc nodes.old)
        (task_doc task)) }
{
    while let Some(role) = nodes.role(task.node, task.at) {
        let offer = take_offer(&mut task, role, index);
        task.at += 1;
        if let Some(node) = offer {
            let name = role.name.clone()?;
            if let Some((at, entry)) = enter(alloc, snapshot, nodes, index, name, node)? {
                return Ok(Some(Stop { task, at, entry }));
            }
        }
    }
    Ok(None)
}
