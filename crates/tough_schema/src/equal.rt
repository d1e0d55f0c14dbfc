//! Comparing trees without recursion.

ghost use Rattle.std.specs.Prelude.{◌≡◌, ◌&&◌, ◌+◌, ◌≤◌, MatchBool};
ghost use Rattle.std.specs.Option.{option_eq};
ghost use Rattle.tough_schema.specs.Below.{work};
ghost use Rattle.tough_schema.specs.Equal.{same_keys, same_own, same_held, same_but_below, same_roles, same_delegations};
ghost use Rattle.tough_schema.specs.Equals.{same_delegations-per};
ghost use Rattle.tough_schema.specs.Comparing.{all_same, works};

use crate::below::roles_under;
use crate::delegations::{DelegatedRole, Delegations};
use crate::targets::{DelegatedTargets, Targets};
use std::alloc::Global;
use tough_roles::Signed;

// Whether both have the same keys, or neither delegates.
fn is_same_keys(one: &Option<Delegations>, other: &Option<Delegations>) -> bool
    ensures { result ≡ option_eq same_keys one.now other.now }
{
    match (one, other) {
        (Some(one), Some(other)) => one.keys == other.keys,
        (None, None) => true,
        _ => false,
    }
}

// Whether two documents are the same but for their roles.
fn is_same_own(one: &Targets, other: &Targets) -> bool
    ensures { result ≡ same_own one.now other.now }
{
    one.version == other.version
        && one.expires == other.expires
        && one.spec_version == other.spec_version
        && one._extra == other._extra
        && is_same_keys(&one.delegations, &other.delegations)
        && one.targets == other.targets
}

// Whether neither role has a document, or both have the same one but for its roles.
fn is_same_held(
    one: &Option<Signed<DelegatedTargets>>,
    other: &Option<Signed<DelegatedTargets>>,
) -> bool
    ensures { result ≡ option_eq same_held one.now other.now }
{
    match (one, other) {
        (Some(one), Some(other)) => {
            one.signed.name == other.signed.name
                && one.signatures == other.signatures
                && is_same_own(&one.signed.targets, &other.signed.targets)
        }
        (None, None) => true,
        _ => false,
    }
}

// Whether two roles and their documents are the same but for the roles below.
fn is_same_but_below(one: &DelegatedRole, other: &DelegatedRole) -> bool
    ensures { result ≡ same_but_below one.now other.now }
{
    one.terminating == other.terminating
        && one.threshold == other.threshold
        && one.name == other.name
        && one.keyids == other.keyids
        && one.paths == other.paths
        && is_same_held(&one.targets, &other.targets)
}

// Two lists of roles that are still to compare.
#[derive(Clone, Copy)]
struct Pair<'a> {
    one: &'a [DelegatedRole],
    other: &'a [DelegatedRole],
}

// Keeps two lists, to compare them later; `false` when out of memory. Empty ones need no comparing, and take no memory.
fn keeps<'a>(left: &mut Vec<Pair<'a>>, one: &'a [DelegatedRole], other: &'a [DelegatedRole]) -> bool
    ensures same { MatchBool result
        (all_same left.new.items ≡ (same_roles one.now other.now && all_same left.old.items))
        (left.new.items ≡ left.old.items) }
    ensures more { works left.new.items ≤ works left.old.items + work one.now }
{
    if one.is_empty() && other.is_empty() {
        return true;
    }
    match left.push(Pair { one, other }) {
        Ok(()) => true,
        Err(_) => false,
    }
}

// Whether two lists of roles are the same with all that is below them, from role to role, those below one before the
// ones behind it. When out of memory, those behind it are compared first, by recursion.
fn is_same_roles(alloc: Global, one: &[DelegatedRole], other: &[DelegatedRole]) -> bool
    ensures { result ≡ same_roles one.now other.now }
{
    let mut left = Vec::new(alloc);
    let mut here = Pair { one, other };
    loop {
        if let (Some((x, xs)), Some((y, ys))) = (here.one.split_first(), here.other.split_first()) {
            if !is_same_but_below(x, y) {
                return false;
            }
            if !keeps(&mut left, xs, ys) && !is_same_roles(alloc, xs, ys) {
                return false;
            }
            here = Pair {
                one: roles_under(x),
                other: roles_under(y),
            };
        } else if here.one.is_empty() && here.other.is_empty() {
            let Some(next) = left.pop() else {
                return true;
            };
            here = next;
        } else {
            return false;
        }
    }
}

impl PartialEq for Delegations {
    ghost eq = { same_delegations };

    ghost laws = { same_delegations-per };

    /// Compares the keys, and the roles with all that is below them, without recursion. A chain of roles takes no
    /// memory.
    fn eq(&self, other: &Delegations) -> bool {
        self.keys == other.keys && is_same_roles(*self.roles.allocator(), &self.roles, &other.roles)
    }
}
