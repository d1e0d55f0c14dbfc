//! The checks of a root's step, in their order (TUF specification 5.3).

ghost use Rattle.tough_roles.specs.Signature.{signed_doc};
ghost use Rattle.tough_roles.specs.Root.{root_doc};
ghost use Rattle.tough_roles.specs.declared.role_type.RoleType.TheVariants as types;
ghost use Rattle.tough_checks.specs.Documents.{root_verdict};
ghost use Rattle.tough_checks.specs.StoredDocuments.{root_where};
ghost use Rattle.tough_checks.specs.Checks.{Checked, RefusedBy, verified, root_older, root_against, root_tip, root_after};

use crate::checks::{Refusal, StepError, check_signed};
use std::alloc::Global;
use tough_roles::{RoleType, Root, Signed, Verify};

/// Before the stored root is read: the root verifies itself.
pub fn check_root<V: Verify>(
    alloc: Global,
    verifier: &V,
    new: &Signed<Root>,
) -> Result<(), StepError>
    ensures { Checked (verified types.Root
        (root_verdict (V.verifies verifier.now) (root_doc new.now.signed)
        (signed_doc root_doc new.now))) result }
{
    check_signed(RoleType::Root, new.signed.verify_role(alloc, new, verifier))
}

// The root's version isn't lower than an older one's.
fn check_not_older(old: u64, new: &Root) -> Result<(), Refusal>
    ensures { RefusedBy (root_older old (root_doc new.now)) result }
{
    let new_version = new.version.get();
    if new_version < old {
        return Err(Refusal::OlderMetadata {
            role: RoleType::Root,
            current_version: old,
            new_version,
        });
    }
    Ok(())
}

// Against the stored root.
fn check_against(old: &Option<Signed<Root>>, new: &Root) -> Result<(), Refusal>
    ensures { RefusedBy (root_against (root_where old.now) (root_doc new.now)) result }
{
    let Some(old) = old else {
        return Ok(());
    };
    check_not_older(old.signed.version.get(), new)
}

// Against the tip.
fn check_tip(tip: Option<u64>, new: &Root) -> Result<(), Refusal>
    ensures { RefusedBy (root_tip tip (root_doc new.now)) result }
{
    let Some(tip) = tip else {
        return Ok(());
    };
    check_not_older(tip, new)
}

/// After the stored root was read: against it, and against the tip.
pub fn check_root_late(
    old: &Option<Signed<Root>>,
    tip: Option<u64>,
    new: &Root,
) -> Result<(), Refusal>
    ensures { RefusedBy (root_after (root_where old.now) tip (root_doc new.now)) result }
{
    check_against(old, new)?;
    check_tip(tip, new)
}
