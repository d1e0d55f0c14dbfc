//! The first role of each name in a list.

ghost use Rattle.std.specs.Prelude.{◌≡◌, IfOk};
ghost use Rattle.tough_trust.specs.delegations.Dressed.{entries_of};
ghost use Rattle.tough_update.specs.delegations.Documents.{firsts_doc};
ghost use Rattle.tough_update.specs.delegations.Firsts.{first_places};

use std::alloc::{AllocError, Global};
use std::collections::BTreeMap;
use tough_schema::DelegatedRole;

/// The place of the first role of each name in a list. To make it costs as n log n for n roles, and a look as log n.
#[derive(Drop)]
pub(crate) struct Firsts {
    places: BTreeMap<String, usize>,
}

impl Firsts {
    /// Those of this list.
    pub(crate) fn new(alloc: Global, roles: &[DelegatedRole]) -> Result<Firsts, AllocError>
        ensures { IfOk result (λ f. firsts_doc f ≡ first_places (entries_of roles.now)) }
    {
        let mut places = BTreeMap::new(alloc);
        for at in (0..roles.len()).rev() {
            places.insert(roles[at].name.clone()?, at)?;
        }
        Ok(Firsts { places })
    }

    /// The place of the first role of the name.
    pub(crate) fn get(&self, name: &str) -> Option<usize>
        ensures { result ≡ firsts_doc self.now name.now }
    {
        self.places.get(name).copied()
    }
}
