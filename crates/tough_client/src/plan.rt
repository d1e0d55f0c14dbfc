//! What is cached, in its order.

ghost use Rattle.std.specs.Prelude.{◌≡◌, [], ◌∷◌, ◌++◌, map, option_map, IfOk, IfSome, IsNone, OnOk};
ghost use Rattle.std.specs.BTreeMap.{get_by, keys};
ghost use Rattle.std.specs.Cmp.Lexicographic.{slice_cmp};
ghost use Rattle.std.specs.Ordering.{nat_cmp};
ghost use Rattle.tough_schema.specs.Whole.{tree_doc};
ghost use Rattle.tough_update.specs.View.{loaded_doc, received_docs};
ghost use Rattle.tough_client.specs.declared.plan.Turn.TheVariants as turn;
ghost use Rattle.tough_client.specs.Plans.{roots_down, turns_in, roots_in, left_in, AddsNamed, AddsTargets, last_place, with_role, role_turns, files_first, metadata_turns, listed_turns, first_root};

use std::alloc::{AllocError, Global};
use std::collections::{BTreeMap, VecDeque};
use std::convert::AsStr;
use tough_load::{Loaded, Received};
use tough_names::TargetName;
use tough_schema::Targets;

/// A file of metadata that is fetched again.
#[derive(Clone, Copy, Drop)]
pub(crate) enum Served {
    /// The snapshot.
    Snapshot,
    /// The targets.
    Targets,
    /// The timestamp.
    Timestamp,
    /// The root of this version.
    Root(u64),
}

/// What is cached at a time.
#[derive(Drop)]
pub(crate) enum Turn {
    /// The target that the text names.
    Named(String),
    /// The target of this name.
    Target(TargetName),
    /// A file of metadata.
    File(Served),
    /// The document of a delegated role, by its place among those that were received.
    Role(usize),
}

/// What is yet to be cached: these, and then the roots from a version down to the first; none where it is 0.
#[derive(Drop)]
pub(crate) struct Plan {
    turns: VecDeque<Turn>,
    roots: u64,
}

impl Plan {
    /// Nothing yet; and then the roots, where they are asked for.
    pub(crate) fn new(alloc: Global, loaded: &Loaded, root_chain: bool) -> Plan
        ensures turns { turns_in result ≡ [] }
        ensures roots { roots_in result ≡ first_root root_chain (loaded_doc loaded.now) }
    {
        let roots = if root_chain {
            loaded.root().signed.version.get()
        } else {
            0
        };
        Plan {
            turns: VecDeque::new(alloc),
            roots,
        }
    }

    // Adds a turn before the roots.
    fn push(&mut self, turn: Turn) -> Result<(), AllocError>
        ensures turns { OnOk result (turns_in self.new ≡ turns_in self.old ++ turn ∷ []) }
        ensures roots { roots_in self.new ≡ roots_in self.old }
    {
        match self.turns.push_back(turn) {
            Ok(()) => Ok(()),
            Err(_) => Err(AllocError),
        }
    }

    /// The next turn, which is taken out.
    pub(crate) fn next(&mut self) -> Option<Turn>
        ensures next { IfSome result (λ turn. left_in self.old ≡ turn ∷ left_in self.new) }
        ensures end { IsNone result → left_in self.old ≡ [] }
    {
        match self.turns.pop_front() {
            Some(turn) => Some(turn),
            None => self.next_root(),
        }
    }

    // The next root.
    fn next_root(&mut self) -> Option<Turn>
        ensures next { IfSome result
            (λ turn. roots_down (roots_in self.old) ≡ turn ∷ roots_down (roots_in self.new)) }
        ensures end { IsNone result → roots_in self.old ≡ 0 }
        ensures turns { turns_in self.new ≡ turns_in self.old }
    {
        let version = self.roots;
        if version == 0 {
            return None;
        }
        self.roots = version - 1;
        Some(Turn::File(Served::Root(version)))
    }

    // Adds the targets that these texts name.
    fn add_named<S: AsStr>(&mut self, alloc: Global, names: &[S]) -> Result<(), AllocError>
        ensures turns { OnOk result
            (AddsNamed (map S.text names.now) (turns_in self.old) (turns_in self.new)) }
        ensures roots { roots_in self.new ≡ roots_in self.old }
    {
        for name in names {
            let text = String::from_str(alloc, name.as_str())?;
            self.push(Turn::Named(text))?;
        }
        Ok(())
    }

    // Adds the targets of these names.
    fn add_all<V>(&mut self, listed: &BTreeMap<TargetName, V>) -> Result<(), AllocError>
        ensures turns { OnOk result
            (turns_in self.new ≡ turns_in self.old ++ map turn.Target (keys listed.now)) }
        ensures roots { roots_in self.new ≡ roots_in self.old }
    {
        for name in listed.keys() {
            self.push(Turn::Target(name.clone()?))?;
        }
        Ok(())
    }

    // Adds all targets that are listed.
    fn add_listed(&mut self, alloc: Global, targets: &Targets) -> Result<(), AllocError>
        ensures turns { OnOk result
            (turns_in self.new ≡ turns_in self.old ++ listed_turns (tree_doc targets.now)) }
        ensures roots { roots_in self.new ≡ roots_in self.old }
    {
        let listed = targets.targets_map(alloc)?;
        self.add_all(&listed)?;
        Ok(())
    }

    /// Adds the targets of the subset, where one is given, or else all that are listed.
    pub(crate) fn add_targets<S: AsStr>(
        &mut self,
        alloc: Global,
        targets: &Targets,
        subset: Option<&[S]>,
    ) -> Result<(), AllocError>
        ensures turns { OnOk result
            (AddsTargets (tree_doc targets.now)
            (option_map (λ names. map S.text names.now) subset.entry)
            (turns_in self.old) (turns_in self.new)) }
        ensures roots { roots_in self.new ≡ roots_in self.old }
    {
        match subset {
            Some(names) => self.add_named(alloc, names),
            None => self.add_listed(alloc, targets),
        }
    }

    // Adds the document of a role, if it was received.
    fn add_role(&mut self, places: &BTreeMap<&str, usize>, role: &str) -> Result<(), AllocError>
        ensures turns { OnOk result
            (turns_in self.new ≡ turns_in self.old ++ with_role
            (get_by (λ k. slice_cmp nat_cmp role.now k.now) places.now) []) }
        ensures roots { roots_in self.new ≡ roots_in self.old }
    {
        match places.get(role) {
            Some(place) => self.push(Turn::Role(*place)),
            None => Ok(()),
        }
    }

    // Adds the documents of the roles of these names, as far as they were received.
    fn add_roles(
        &mut self,
        alloc: Global,
        received: &[Received],
        names: &[&str],
    ) -> Result<(), AllocError>
        ensures turns { OnOk result
            (turns_in self.new ≡ turns_in self.old ++ role_turns (received_docs received.now)
            (map (λ n. n.now) names.now)) }
        ensures roots { roots_in self.new ≡ roots_in self.old }
    {
        let places = places(alloc, received)?;
        for name in names {
            self.add_role(&places, *name)?;
        }
        Ok(())
    }

    // Adds the files of metadata that each repository has.
    fn add_files(&mut self) -> Result<(), AllocError>
        ensures turns { OnOk result (turns_in self.new ≡ turns_in self.old ++ files_first) }
        ensures roots { roots_in self.new ≡ roots_in self.old }
    {
        self.push(Turn::File(Served::Snapshot))?;
        self.push(Turn::File(Served::Targets))?;
        self.push(Turn::File(Served::Timestamp))
    }

    /// Adds the metadata.
    pub(crate) fn add_metadata(&mut self, alloc: Global, loaded: &Loaded) -> Result<(), AllocError>
        ensures turns { OnOk result
            (turns_in self.new ≡ turns_in self.old ++ metadata_turns (loaded_doc loaded.now)) }
        ensures roots { roots_in self.new ≡ roots_in self.old }
    {
        self.add_files()?;
        let names = loaded.targets().signed.role_names(alloc)?;
        self.add_roles(alloc, loaded.received(), names.as_slice())
    }
}

// Where the document of each role stands among those that were received; of two of one role the later counts.
fn places(alloc: Global, received: &[Received]) -> Result<BTreeMap<&str, usize>, AllocError>
    ensures { IfOk result (λ m. (name : _)
        → get_by (λ k. slice_cmp nat_cmp name k.now) m
        ≡ last_place (received_docs received.now) name) }
{
    let mut places = BTreeMap::new(alloc);
    for (place, document) in received.iter().enumerate() {
        places.insert(document.role.as_str(), place)?;
    }
    Ok(places)
}
