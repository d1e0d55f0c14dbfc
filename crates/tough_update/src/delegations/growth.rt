//! The tree as it grows.

ghost use Rattle.std.specs.Prelude.{◌≡◌, ℕ, List};
ghost use Rattle.tough_update.specs.delegations.Documents.{firsts_doc};
ghost use Rattle.tough_update.specs.delegations.Firsts.{first_places};
ghost use Rattle.tough_update.specs.delegations.Numbered.{last_roles};
ghost use Rattle.tough_update.specs.delegations.Placed.{placed_doc};

use crate::delegations::firsts::Firsts;
use crate::delegations::look::{Look, look_from};
use crate::delegations::placed::Placed;
use crate::delegations::turns::{Stop, Task, take_turns};
use std::alloc::{AllocError, Global};
use std::collections::{BTreeMap, VecDeque};
use tough_roles::{Metafile, Signed, Snapshot};
use tough_schema::{DelegatedRole, DelegatedTargets, Delegations, Targets};
use tough_trust::{Index, RoleHolder, roles_of};

/// A tree of delegated roles that grows: the documents that have their place, and the role whose document is wanted next.
#[derive(Drop)]
pub struct Growth {
    // The documents that have their place; the list of the last one is being fetched.
    nodes: Placed,
    // The lists whose roles get their documents, the innermost first.
    outer: VecDeque<Task>,
    // Where the document of each name stands.
    index: Index,
    // What was fetched for the list, by the names of its roles.
    fetched: BTreeMap<String, Signed<DelegatedTargets>>,
    // The place of the role whose document is wanted.
    at: usize,
    // Where the first role of each name stands in the list.
    firsts: Firsts,
    ghost first: { (name : List ℕ)
        → firsts_doc firsts name ≡ first_places (last_roles (placed_doc nodes)) name },
}

/// How far a tree has grown.
#[derive(Drop)]
pub enum Progress<'a> {
    /// A document is wanted, as the snapshot's entry describes it.
    Wants(Growth, &'a Metafile),
    /// The tree is complete.
    Grown(Signed<Targets>),
}

impl Growth {
    ghost use Rattle.std.specs.Prelude.{[], ◌∷◌, IfOk, OnOk, map, option_map, option_and_then};
    ghost use Rattle.tough_roles.specs.Timestamp.{metafile_doc};
    ghost use Rattle.tough_schema.specs.Delegations.{delegated_role_doc, delegations_doc};
    ghost use Rattle.tough_schema.specs.Verify.{role_named};
    ghost use Rattle.tough_schema.specs.Whole.{role_tree, held_doc};
    ghost use Rattle.tough_update.specs.delegations.Growing.{wants, first_work, settle, give, go_on, first_of, wanted_name, holder_of, with_taken};
    ghost use Rattle.tough_update.specs.Delegated.{role_holder};
    ghost use Rattle.tough_trust.specs.View.{role_holder_doc, index_doc};
    ghost use Rattle.tough_update.specs.delegations.View.{metas_of, top_held, waiting_in, task_doc, work_doc, progress_doc};
    ghost use Rattle.tough_update.specs.delegations.Numbered.{last_number};
    ghost use Rattle.tough_update.specs.growth.Tallies.{counted_tally};

    // The list of the last document is to be fetched, from the role at this place on.
    fn begin(
        alloc: Global,
        nodes: Placed,
        outer: VecDeque<Task>,
        index: Index,
        at: usize,
    ) -> Result<Growth, AllocError>
        ensures { IfOk result (λ g. work_doc g ≡ record {
          nodes = placed_doc nodes;
          outer = map task_doc outer.items;
          index = index_doc index;
          fetched = [];
          waiting = waiting_in (placed_doc nodes) at;
        }) }
    {
        let firsts = Firsts::new(alloc, roles_of(nodes.last()))?;
        Ok(Growth {
            nodes,
            outer,
            index,
            fetched: BTreeMap::new(alloc),
            at,
            firsts,
        })
    }

    // The list of the last document is to be fetched, before the turns of those that stop for it.
    fn stop_at<'a>(
        alloc: Global,
        nodes: Placed,
        mut outer: VecDeque<Task>,
        index: Index,
        stop: Stop<'a>,
    ) -> Result<Progress<'a>, AllocError>
        ensures { IfOk result (λ p. progress_doc p
            ≡ wants (record {
              nodes = placed_doc nodes;
              outer = task_doc stop.entry.task ∷ map task_doc outer.items;
              index = index_doc index;
              fetched = [];
              waiting = waiting_in (placed_doc nodes) stop.entry.at;
            })
            (metafile_doc stop.entry.entry.now)) }
    {
        let Stop { task, at, entry } = stop;
        outer.push_front(task)?;
        let growth = Growth::begin(alloc, nodes, outer, index, at)?;
        Ok(Progress::Wants(growth, entry))
    }

    // A list is done: those that stopped for it go on, and so on outwards.
    fn settle<'a>(
        alloc: Global,
        snapshot: &'a Snapshot,
        mut nodes: Placed,
        mut outer: VecDeque<Task>,
        mut index: Index,
    ) -> Result<Progress<'a>, AllocError>
        ensures { IfOk result (λ p. progress_doc p
            ≡ settle (metas_of snapshot.now) (index_doc index) (placed_doc nodes)
            (map task_doc outer.items)) }
    {
        while let Some(task) = outer.pop_front() {
            if let Some(stop) = take_turns(alloc, snapshot, &mut nodes, &mut index, task)? {
                return Growth::stop_at(alloc, nodes, outer, index, stop);
            }
        }
        Ok(Progress::Grown(nodes.into_tree()))
    }

    // A list was fetched: its roles get their turns.
    fn give<'a>(self, alloc: Global, snapshot: &'a Snapshot) -> Result<Progress<'a>, AllocError>
        ensures { IfOk result (λ p. progress_doc p
            ≡ give (metas_of snapshot.now) (work_doc self)) }
    {
        let Growth {
            nodes,
            mut outer,
            index,
            fetched,
            ..
        } = self;
        let node = nodes.last_number();
        outer.push_front(Task {
            node,
            at: 0,
            fetched,
        })?;
        Growth::settle(alloc, snapshot, nodes, outer, index)
    }

    /// Begins with the targets that the snapshot names.
    pub fn new(alloc: Global, targets: Signed<Targets>) -> Result<Growth, AllocError>
        ensures { IfOk result (λ g. work_doc g ≡ first_work (top_held targets)) }
    {
        let nodes = Placed::new(alloc, Targets::named(targets, String::new(alloc)));
        Growth::begin(alloc, nodes, VecDeque::new(alloc), Index::new(alloc), 0)
    }

    /// How many documents of delegated roles have their place.
    pub(crate) fn placed(&self) -> usize
        ensures { result ≡ last_number (work_doc self.now).nodes }
    {
        self.nodes.last_number()
    }

    /// How many roles the targets and these documents list, up to the largest number.
    pub(crate) fn entries(&self) -> u64
        ensures { result ≡ counted_tally (work_doc self.now).nodes }
    {
        self.nodes.entries()
    }

    /// The role whose document is wanted.
    pub fn role(&self) -> Option<&DelegatedRole>
        ensures { option_map (λ r. (role_tree r.now).0) result
            ≡ first_of (work_doc self.now).waiting }
    {
        roles_of(self.nodes.last()).get(self.at)
    }

    /// The name of the role whose document is wanted.
    pub fn wanted_name(&self) -> &str
        ensures { result.now ≡ wanted_name (work_doc self.now) }
    {
        match self.role() {
            Some(role) => role.name.as_str(),
            None => "",
        }
    }

    // The delegations that the role stands in, under which its document must verify.
    fn delegations(&self) -> Option<&Delegations>
        ensures { option_map (λ g. delegations_doc g.now) result ≡ holder_of (work_doc self.now) }
    {
        match &self.nodes.last().signed.targets.delegations {
            Some(delegations) => Some(delegations),
            None => None,
        }
    }

    // The first role of the name in the list that the wanted role stands in: it says which keys sign a document of this name.
    fn role_named(&self, name: &str) -> Option<&DelegatedRole>
        ensures { option_map (λ r. delegated_role_doc r.now) result
            ≡ option_and_then (λ g. role_named name.now g.roles) (holder_of (work_doc self.now)) }
    {
        let roles = roles_of(self.nodes.last());
        roles.get(self.firsts.get(name)?)
    }

    /// Who vouches for the document that is wanted: the delegations that its role stands in, and the first role of its name.
    pub fn holder(&self) -> RoleHolder<'_>
        ensures { role_holder_doc result ≡ role_holder (work_doc self.now) }
    {
        let name = self.wanted_name();
        RoleHolder {
            name,
            delegations: self.delegations(),
            role: self.role_named(name),
        }
    }

    /// Takes the document that was wanted, under its role's name.
    pub fn take(&mut self, document: Signed<DelegatedTargets>) -> Result<(), AllocError>
        ensures { OnOk result (work_doc self.new
            ≡ with_taken (work_doc self.old) (work_doc self.old).waiting (held_doc document)) }
    {
        let Some(role) = self.role() else {
            return Ok(());
        };
        let name = role.name.clone()?;
        self.fetched.insert(name, document)?;
        self.at += 1;
        Ok(())
    }

    /// How far the tree grows without a further document: the list is looked at from the role on that is next. The snapshot is always the
    /// same.
    pub fn go_on<'a>(
        mut self,
        alloc: Global,
        snapshot: &'a Snapshot,
    ) -> Result<Progress<'a>, AllocError>
        ensures { IfOk result (λ p. progress_doc p
            ≡ go_on (metas_of snapshot.now) (work_doc self)) }
    {
        match look_from(
            alloc,
            snapshot,
            &self.index,
            roles_of(self.nodes.last()),
            self.at,
        )? {
            Look::Through => self.give(alloc, snapshot),
            Look::Unlisted(name) => {
                let Growth {
                    nodes,
                    outer,
                    mut index,
                    ..
                } = self;
                index.pass_over(name)?;
                Growth::settle(alloc, snapshot, nodes, outer, index)
            }
            Look::Wanted(at, entry) => {
                self.at = at;
                Ok(Progress::Wants(self, entry))
            }
        }
    }
}
