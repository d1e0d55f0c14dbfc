//! The roles of a document.

ghost use Rattle.std.specs.Prelude.{◌≡◌};
ghost use Rattle.tough_schema.specs.Whole.{held_doc};
ghost use Rattle.tough_trust.specs.delegations.Dressed.{only, dressed, listed_in};

use tough_roles::Signed;
use tough_schema::{DelegatedRole, DelegatedTargets};

/// The roles that a document lists.
pub fn roles_of(document: &Signed<DelegatedTargets>) -> &[DelegatedRole]
    ensures { result.now ≡ listed_in document.now }
{
    match &document.signed.targets.delegations {
        Some(delegations) => &delegations.roles,
        None => &[],
    }
}

/// The role at this place, if there is one, gets its document.
pub fn set_document(
    document: &mut Signed<DelegatedTargets>,
    place: usize,
    held: Signed<DelegatedTargets>,
)
    ensures { held_doc document.new
        ≡ dressed (only place (held_doc held)) (held_doc document.old) }
{
    if let Some(delegations) = &mut document.signed.targets.delegations {
        if let Some(role) = delegations.roles.get_mut(place) {
            role.targets = Some(held);
        }
    }
}
