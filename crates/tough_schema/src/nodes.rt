//! A tree as numbered nodes: a document, and its delegated roles in preorder.

ghost use Rattle.std.specs.Prelude.{◌≡◌, ◌+◌, ◌++◌, ◌<◌, length, slice_set, is_some, option_map, IfOk, OnOk};
ghost use Rattle.tough_schema.specs.Whole.{tree_doc, role_tree, listing_of};
ghost use Rattle.tough_schema.specs.Entries.{entries};
ghost use Rattle.tough_schema.specs.Gather.{shown};
ghost use Rattle.tough_schema.specs.Preorder.{preorder_below};
ghost use Rattle.tough_schema.specs.Search.{listed};
ghost use Rattle.tough_schema.specs.Visited.{names_in};
ghost use Rattle.tough_schema.specs.Numbered.{spans, node_spans};
ghost use Rattle.tough_schema.specs.Below.{work};
ghost use Rattle.tough_schema.specs.Adding.{added, all_stepped, weights};
ghost use Rattle.tough_schema.specs.Found.{lists, document_of};
ghost use Rattle.tough_schema.specs.Rest.{sight, names_then, end_then, past_to, into_from, course_then, IsOn};

use crate::below::{roles_of, roles_under};
use crate::delegations::DelegatedRole;
use crate::hashed::Hashed;
use crate::target::Target;
use crate::targets::Targets;
use std::alloc::{AllocError, Global};
use std::collections::BTreeSet;
use tough_names::TargetName;
use tough_roles::Error;

// A role, and the place at which its subtree ends.
#[derive(Clone, Copy)]
struct Node<'a> {
    role: &'a DelegatedRole,
    end: usize,
}

/// A document as node 0, and the delegated roles of its tree in preorder: the one at place k is node k + 1.
#[derive(Drop)]
pub struct Nodes<'a> {
    top: &'a Targets,
    entries: Vec<Node<'a>>,
    ghost whole: { ∥ node_spans entries.items ≡ spans (preorder_below 0 (tree_doc top.now)) ∥₁ },
}

/// What a search ends with.
#[derive(Drop)]
pub struct Found {
    /// The number of the document that lists the name, if the search comes to one.
    pub node: Option<usize>,
    /// How many path sets were compared with the name.
    pub tests: u64,
}

// What is still to do until all roles of a tree are nodes.
#[derive(Drop)]
enum Step<'a> {
    // To add these roles, each with what is below it before the next.
    Add(&'a [DelegatedRole]),
    // To close the role at this place, below which all is added.
    Close(&'a DelegatedRole, usize),
}

// Adds the first of these roles. What is below it is to be added then, and the others.
fn add_first<'a>(
    roles: &'a [DelegatedRole],
    steps: &mut Vec<Step<'a>>,
    found: &mut Vec<Node<'a>>,
) -> Result<(), AllocError>
    ensures nodes { OnOk result (all_stepped steps.new.items (node_spans found.new.items)
        ≡ all_stepped steps.old.items (added roles.now (node_spans found.old.items))) }
    ensures fewer { OnOk result
        (weights steps.new.items < weights steps.old.items + work roles.now) }
{
    let Some((role, others)) = roles.split_first() else {
        return Ok(());
    };
    steps.push(Step::Add(others))?;
    steps.push(Step::Close(role, found.len()))?;
    steps.push(Step::Add(roles_under(role)))?;
    found.push(Node { role, end: 0 })?;
    Ok(())
}

// Adds the roles below a document, without recursion.
fn add_below<'a>(
    alloc: Global,
    document: &'a Targets,
    found: &mut Vec<Node<'a>>,
) -> Result<(), AllocError>
    ensures { OnOk result (node_spans found.new.items
        ≡ node_spans found.old.items
        ++ spans (preorder_below (length found.old.items) (tree_doc document.now))) }
{
    let mut steps = Vec::new(alloc);
    steps.push(Step::Add(roles_of(document)))?;
    while let Some(step) = steps.pop() {
        match step {
            Step::Add(roles) => add_first(roles, &mut steps, found)?,
            Step::Close(role, at) => close(role, at, found),
        }
    }
    Ok(())
}

// The subtree of the role at this place ends with the last role that was added.
fn close<'a>(role: &'a DelegatedRole, at: usize, found: &mut Vec<Node<'a>>)
    ensures { node_spans found.new.items
        ≡ slice_set (node_spans found.old.items) at (role_tree role.now, length found.old.items) }
{
    let end = found.len();
    if at < end {
        found[at] = Node { role, end };
    }
}

/// The roles of the tree below a document, in preorder.
pub(crate) fn entries_below<'a>(
    alloc: Global,
    document: &'a Targets,
) -> Result<Vec<&'a DelegatedRole>, AllocError>
    ensures { IfOk result (λ v. shown v.items ≡ entries (tree_doc document.now)) }
{
    let mut nodes = Vec::new(alloc);
    add_below(alloc, document, &mut nodes)?;
    let mut found = Vec::new(alloc);
    for node in &nodes {
        found.push(node.role)?;
    }
    Ok(found)
}

// What a role is to a search.
#[derive(Drop)]
enum Sight {
    // A role of its name was reached.
    Known,
    // Its path set doesn't match.
    Other,
    // It is reached, and has a document that lists the name.
    Lists,
    // It is reached.
    Open,
}

// How far a search has come: the place that it looks at, the place where it ends, and how many path sets it has compared.
#[derive(Clone, Copy)]
struct Course {
    at: usize,
    end: usize,
    tests: u64,
}

// Whether the document lists the name.
fn is_listed(document: &Targets, name: &TargetName) -> bool
    ensures { result ≡ is_some (listed name.now (listing_of (tree_doc document.now))) }
{
    document.targets.contains_key(name)
}

// Whether the role has a document that lists the name.
fn lists(role: &DelegatedRole, name: &TargetName) -> bool
    ensures { result ≡ lists name.now (role_tree role.now) }
{
    match &role.targets {
        Some(signed) => is_listed(&signed.signed.targets, name),
        None => false,
    }
}

// The document of a role, if it has one.
fn document_of<'a>(role: &'a DelegatedRole) -> Option<&'a Targets>
    ensures { option_map (λ d. tree_doc d.now) result ≡ document_of (role_tree role.now) }
{
    match &role.targets {
        Some(signed) => Some(&signed.signed.targets),
        None => None,
    }
}

// Looks at a role, and notes its name if it is reached.
fn see(
    role: &DelegatedRole,
    name: &Hashed<'_>,
    reached: &mut BTreeSet<String>,
) -> Result<Sight, AllocError>
    ensures sight { IfOk result
        (λ s. s ≡ sight name.now.name.now (names_in reached.old) (role_tree role.now)) }
    ensures names { IfOk result
        (λ s. names_in reached.new ≡ names_then s (role_tree role.now) (names_in reached.old)) }
{
    if reached.contains(role.name.as_str()) {
        return Ok(Sight::Known);
    }
    if !role.matches(name) {
        return Ok(Sight::Other);
    }
    reached.insert(role.name.clone()?)?;
    if lists(role, name.name) {
        return Ok(Sight::Lists);
    }
    Ok(Sight::Open)
}

// Where a search ends that has reached the role, whose subtree ends at this place.
fn end_then(role: &DelegatedRole, stop: usize, end: usize, permissive: bool) -> usize
    ensures { result ≡ end_then permissive (role_tree role.now).0 stop end }
{
    if role.terminating && !permissive {
        return end.min(stop);
    }
    end
}

impl Course {
    // Past a subtree, which ends at this place.
    fn past(self, end: usize, tests: u64) -> Course
        ensures { result ≡ past_to end tests self }
    {
        Course {
            at: end,
            end: self.end,
            tests,
        }
    }

    // Into the subtree of a role, whose path set was compared.
    fn into(self, role: &DelegatedRole, end: usize, permissive: bool) -> Course
        requires { IsOn self end }
        ensures { result ≡ into_from permissive (role_tree role.now).0 end self }
    {
        Course {
            at: self.at + 1,
            end: end_then(role, end, self.end, permissive),
            tests: self.tests + 1,
        }
    }

    // How far a search has come that goes on after a role, whose subtree ends at this place.
    fn then(self, sight: Sight, role: &DelegatedRole, end: usize, permissive: bool) -> Course
        requires { IsOn self end }
        ensures { result ≡ course_then permissive sight (role_tree role.now).0 end self }
    {
        match sight {
            Sight::Known => self.past(end, self.tests),
            Sight::Other => self.past(end, self.tests + 1),
            Sight::Lists => self.into(role, end, permissive),
            Sight::Open => self.into(role, end, permissive),
        }
    }
}

impl<'a> Nodes<'a> {
    ghost use Rattle.std.specs.Prelude.{◌≡◌, length, option_map, IfOk, IfErr};
    ghost use Rattle.tough_roles.specs.declared.error.Error.TheVariants as errors;
    ghost use Rattle.tough_schema.specs.Target.{target_doc};
    ghost use Rattle.tough_schema.specs.Whole.{tree_doc};
    ghost use Rattle.tough_schema.specs.Preorder.{preorder_below};
    ghost use Rattle.tough_schema.specs.Numbered.{spans};
    ghost use Rattle.tough_schema.specs.Nodes.{nodes_doc, tree_of, AreWhole};
    ghost use Rattle.tough_schema.specs.Search.{search};
    ghost use Rattle.tough_schema.specs.Found.{found_at, tested, document_in, listed_in};
    ghost use Rattle.tough_schema.specs.Rest.{whole};

    /// Numbers a document and the delegated roles of its tree (section 4.5). `Memory` is the only refusal.
    pub fn of(alloc: Global, targets: &'a Targets) -> Result<Nodes<'a>, Error>
        ensures nodes { IfOk result (λ n. nodes_doc n
            ≡ (tree_doc targets.now, spans (preorder_below 0 (tree_doc targets.now)))) }
        ensures refused { IfErr result (λ e. e ≡ errors.Memory) }
    {
        let mut entries = Vec::new(alloc);
        add_below(alloc, targets, &mut entries)?;
        Ok(Nodes {
            top: targets,
            entries,
        })
    }

    // Searches the roles: from each one into its subtree, or to the end of that.
    fn search_roles(
        &self,
        alloc: Global,
        name: &TargetName,
        permissive: bool,
    ) -> Result<Found, AllocError>
        ensures node { IfOk result
            (λ f. f.node ≡ (whole permissive name.now (tree_of self.now)).node) }
        ensures tests { IfOk result
            (λ f. f.tests ≡ (whole permissive name.now (tree_of self.now)).tests) }
    {
        let hashed = Hashed::new(name);
        let mut reached = BTreeSet::new(alloc);
        let mut course = Course {
            at: 0,
            end: self.entries.len(),
            tests: 0,
        };
        while course.at < course.end {
            let node = self.entries[course.at];
            match see(node.role, &hashed, &mut reached)? {
                Sight::Lists => {
                    return Ok(Found {
                        node: Some(course.at + 1),
                        tests: course.tests + 1,
                    });
                }
                sight => course = course.then(sight, node.role, node.end, permissive),
            }
        }
        Ok(Found {
            node: None,
            tests: course.tests,
        })
    }

    /// Searches for the target of the name (section 5.6): in the document, then in preorder in the documents of the roles
    /// whose path sets match. A search that isn't permissive ends after a terminating role. Each path set is compared at
    /// most once. `Memory` is the only refusal.
    pub fn search(&self, alloc: Global, name: &TargetName, permissive: bool) -> Result<Found, Error>
        ensures node { IfOk result
            (λ f. f.node ≡ found_at permissive name.now (tree_of self.now)) }
        ensures tests { IfOk result
            (λ f. f.tests ≡ length (tested permissive name.now (tree_of self.now))) }
        ensures refused { IfErr result (λ e. e ≡ errors.Memory) }
    {
        if is_listed(self.top, name) {
            return Ok(Found {
                node: Some(0),
                tests: 0,
            });
        }
        let found = self.search_roles(alloc, name, permissive)?;
        Ok(found)
    }

    /// The document of a number, if there is one: that of node 0, or of a role.
    pub fn document(&self, number: usize) -> Option<&'a Targets>
        ensures { option_map (λ d. tree_doc d.now) result ≡ document_in number (nodes_doc self.now) }
    {
        if number == 0 {
            return Some(self.top);
        }
        match self.entries.get(number - 1) {
            Some(node) => document_of(node.role),
            None => None,
        }
    }

    // What the document of a number lists under the name.
    pub(crate) fn target(&self, number: usize, name: &TargetName) -> Option<&'a Target>
        ensures { option_map (λ t. target_doc t.now) result
            ≡ listed_in number name.now (nodes_doc self.now) }
    {
        match self.document(number) {
            Some(document) => document.targets.get(name),
            None => None,
        }
    }

    // The target that a search finds.
    pub(crate) fn find(
        &self,
        alloc: Global,
        name: &TargetName,
        permissive: bool,
    ) -> Result<Option<&'a Target>, Error>
        requires { AreWhole self.now }
        ensures found { IfOk result (λ o. option_map (λ t. target_doc t.now) o
            ≡ search permissive name.now (tree_of self.now)) }
        ensures refused { IfErr result (λ e. e ≡ errors.Memory) }
    {
        let found = self.search(alloc, name, permissive)?;
        match found.node {
            Some(number) => Ok(self.target(number, name)),
            None => Ok(None),
        }
    }
}
