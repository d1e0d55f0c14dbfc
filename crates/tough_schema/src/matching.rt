//! Matching names with path sets.

ghost use Rattle.std.specs.Prelude.{◌≡◌, map};
ghost use Rattle.std.specs.List.{list_any};
ghost use Rattle.tough_schema.specs.Paths.{paths_doc};
ghost use Rattle.tough_schema.specs.Matching.{pattern_matches, prefix_matches, paths_match, some_match};
ghost use Rattle.tough_schema.specs.Delegations.{delegated_role_doc, delegations_doc};

use crate::delegations::{DelegatedRole, Delegations, PathSet};
use crate::hashed::Hashed;
use tough_names::{PathHashPrefix, PathPattern, TargetName};

fn fits(pattern: &PathPattern, name: &TargetName) -> bool
    ensures { result ≡ pattern_matches name.now.resolved pattern.now }
{
    pattern.matches(name)
}

fn some_fits(patterns: &[PathPattern], name: &TargetName) -> bool
    ensures { result ≡ list_any (pattern_matches name.now.resolved) patterns.now }
{
    patterns.iter().any(|pattern| fits(pattern, name))
}

fn some_begins(prefixes: &[PathHashPrefix], name: &Hashed<'_>) -> bool
    ensures { result ≡ list_any (prefix_matches name.now.name.now.resolved) prefixes.now }
{
    prefixes.iter().any(|prefix| name.begins(prefix))
}

impl PathSet {
    /// Whether a pattern or a prefix of the set matches the resolved name.
    pub fn matches(&self, name: &TargetName) -> bool
        ensures { result ≡ paths_match name.now.resolved (paths_doc self.now) }
    {
        match self {
            PathSet::Paths(patterns) => some_fits(patterns, name),
            PathSet::PathHashPrefixes(prefixes) => some_begins(prefixes, &Hashed::new(name)),
        }
    }

    // Whether a pattern or a prefix of the set matches the resolved name.
    pub(crate) fn matches_hashed(&self, name: &Hashed<'_>) -> bool
        ensures { result ≡ paths_match name.now.name.now.resolved (paths_doc self.now) }
    {
        match self {
            PathSet::Paths(patterns) => some_fits(patterns, name.name),
            PathSet::PathHashPrefixes(prefixes) => some_begins(prefixes, name),
        }
    }

    // Whether the set is one of prefixes.
    pub(crate) fn has_prefixes(&self) -> bool {
        match self {
            PathSet::Paths(_) => false,
            PathSet::PathHashPrefixes(_) => true,
        }
    }
}

// Whether a role may list the name.
fn some_role(roles: &[DelegatedRole], name: &TargetName) -> bool
    ensures { result ≡ some_match name.now.resolved (map delegated_role_doc roles.now) }
{
    let hashed = Hashed::new(name);
    for role in roles {
        if role.paths.matches_hashed(&hashed) {
            return true;
        }
    }
    false
}

impl Delegations {
    /// Whether the path set of a role matches the resolved name.
    pub fn target_is_delegated(&self, name: &TargetName) -> bool
        ensures { result ≡ some_match name.now.resolved (delegations_doc self.now).roles }
    {
        some_role(&self.roles, name)
    }
}
