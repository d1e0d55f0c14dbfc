//! Dropping a tree without recursion.

ghost use Rattle.std.specs.Prelude.{◌≡◌, ◌<◌, ◌≤◌, ◌++◌, ◌⊎◌, [], IfSome};
ghost use Rattle.tough_schema.specs.Falling.{depth, deepest};

use crate::delegations::DelegatedRole;
use crate::targets::{DelegatedTargets, Targets};
use tough_roles::Signed;

/// The roles below a role, if it has a document that delegates. The rest of the role is dropped.
pub(crate) fn roles_below(role: DelegatedRole) -> Option<Vec<DelegatedRole>>
    ensures { IfSome result (λ rs. deepest rs.items < depth role) }
{
    let DelegatedRole {
        name: _,
        keyids: _,
        threshold: _,
        paths: _,
        terminating: _,
        targets,
    } = role;
    let Some(
        Signed {
            signed,
            signatures: _,
        },
    ) = targets
    else {
        return None;
    };
    let DelegatedTargets { name: _, targets } = signed;
    let Targets {
        spec_version: _,
        version: _,
        expires: _,
        targets: _,
        delegations,
        _extra,
    } = targets;
    match delegations {
        Some(delegations) => Some(delegations.into_roles()),
        None => None,
    }
}

/// Both lists in one. When out of memory, both stay as they are.
pub(crate) fn joined(
    mut first: Vec<DelegatedRole>,
    mut second: Vec<DelegatedRole>,
) -> (Vec<DelegatedRole>, Vec<DelegatedRole>)
    ensures kept { ((result.0.items ≡ first.items ++ second.items) × (result.1.items ≡ []))
        ⊎ ((result.0.items ≡ first.items) × (result.1.items ≡ second.items)) }
    ensures over { deepest result.1.items ≤ deepest second.items }
{
    if first.is_empty() {
        return (second, first);
    }
    let _ = first.append(&mut second);
    (first, second)
}
