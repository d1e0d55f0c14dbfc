//! The roles below a document, or below a role.

ghost use Rattle.std.specs.Prelude.{◌≡◌};
ghost use Rattle.tough_schema.specs.Whole.{tree_doc, role_tree, role_branches};
ghost use Rattle.tough_schema.specs.Below.{branches_in, branches_under, roles_within, roles_beneath};

use crate::delegations::DelegatedRole;
use crate::targets::Targets;

/// The roles that a document lists.
pub(crate) fn roles_of(document: &Targets) -> &[DelegatedRole]
    ensures same { result.now ≡ roles_within document.now }
    ensures branches { role_branches result.now ≡ branches_in (tree_doc document.now) }
{
    match &document.delegations {
        Some(delegations) => &delegations.roles,
        None => &[],
    }
}

/// The roles that the document of a role lists, if it has one.
pub(crate) fn roles_under(role: &DelegatedRole) -> &[DelegatedRole]
    ensures same { result.now ≡ roles_beneath role.now }
    ensures branches { role_branches result.now ≡ branches_under (role_tree role.now).1 }
{
    match &role.targets {
        Some(signed) => roles_of(&signed.signed.targets),
        None => &[],
    }
}
