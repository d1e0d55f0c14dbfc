//! The laws of a growing tree.

ghost use Rattle.std.specs.Prelude.{IfOk};
ghost use Rattle.tough_schema.specs.Fresh.{IsFresh, IsFreshDelegated};
ghost use Rattle.witnesses.specs.Growing.{HasGrown};

use crate::Unmet;
use std::alloc::Global;
use tough_roles::Signed;
use tough_schema::{DelegatedTargets, Targets};

/// Witness of `tough_update::growth_laws::grows_once` and `tough_update::growth_laws::grows_under`: targets that delegate to one role, whose
/// document is listed and fetched.
pub fn grown_tree()
    ensures { HasGrown }
{}

/// Witness of `tough_update::growth_laws::read_is_bare`: targets, and the document of a delegated role, that were read.
pub fn read_documents(
    alloc: Global,
    targets: &[u8],
    delegated: &[u8],
) -> Result<(Signed<Targets>, Signed<DelegatedTargets>), Unmet>
    ensures top { IfOk result (λ r. IsFresh r.0.signed) }
    ensures document { IfOk result (λ r. IsFreshDelegated r.1.signed) }
{
    let top = match Signed::<Targets>::read(alloc, targets) {
        Ok(top) => top,
        Err(_) => return Err(Unmet::Input),
    };
    let document = match Signed::<DelegatedTargets>::read(alloc, delegated) {
        Ok(document) => document,
        Err(_) => return Err(Unmet::Input),
    };
    Ok((top, document))
}
