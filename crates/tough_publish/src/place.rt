//! A document is put in the place of a role.

ghost use Rattle.std.specs.Prelude.{◌≡◌, Some, map, option_map};
ghost use Rattle.tough_schema.specs.Whole.{tree_doc, role_tree, held_doc};
ghost use Rattle.tough_publish.specs.Placing.{with_first_in, first_at, first_next, all_first};

use tough_roles::Signed;
use tough_schema::{DelegatedRole, DelegatedTargets, Targets};

// The role gets the document, if it has the name; else that is left.
fn place_at(
    role: &mut DelegatedRole,
    name: &str,
    document: Signed<DelegatedTargets>,
) -> Option<Signed<DelegatedTargets>>
    ensures role { role_tree role.new
        ≡ (first_at name.now (held_doc document) (role_tree role.old)).0 }
    ensures left { option_map held_doc result
        ≡ (first_at name.now (held_doc document) (role_tree role.old)).1 }
{
    if role.name.as_str() == name {
        role.targets = Some(document);
        return None;
    }
    Some(document)
}

// The same, where the document has no place yet.
fn place_next(
    role: &mut DelegatedRole,
    name: &str,
    left: Option<Signed<DelegatedTargets>>,
) -> Option<Signed<DelegatedTargets>>
    ensures role { role_tree role.new
        ≡ (first_next name.now (option_map held_doc left) (role_tree role.old)).0 }
    ensures left { option_map held_doc result
        ≡ (first_next name.now (option_map held_doc left) (role_tree role.old)).1 }
{
    match left {
        Some(document) => place_at(role, name, document),
        None => None,
    }
}

// The first role of the name gets the document.
fn place_among(roles: &mut [DelegatedRole], name: &str, document: Signed<DelegatedTargets>)
    ensures { map role_tree roles.new
        ≡ all_first name.now (Some (held_doc document)) (map role_tree roles.old) }
{
    let mut left = Some(document);
    for role in roles.iter_mut() {
        left = place_next(role, name, left);
    }
}

/// The first role of the name, of those that the targets list, gets the document.
pub(crate) fn place_first(targets: &mut Targets, name: &str, document: Signed<DelegatedTargets>)
    ensures { tree_doc targets.new
        ≡ with_first_in name.now (held_doc document) (tree_doc targets.old) }
{
    match &mut targets.delegations {
        Some(delegations) => place_among(&mut delegations.roles, name, document),
        None => drop(document),
    }
}
