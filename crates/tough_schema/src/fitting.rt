//! Whether what is written for targets is known to be read as them.

ghost use Rattle.std.specs.Prelude.{◌≡◌, ◌<◌, ◌^◌, IfOk, IsTrue, Some};
ghost use Rattle.std.specs.List.Sorted.{IsStrictlySortedBy};
ghost use Rattle.std.specs.Map.{keys_of};
ghost use Rattle.serde_json.specs.Data.{Data};
ghost use Rattle.tough_names.specs.Named.{by_raw_then_resolved};
ghost use Rattle.tough_roles.specs.Orderly.{IsOrderly};
ghost use Rattle.tough_schema.specs.Fitting.{IsFit, AreFit};
ghost use Rattle.tough_schema.specs.Target.{target_doc};
ghost use Rattle.tough_schema.specs.Targets.{listing_doc, targets_doc, targets_json, AreSorted};

use crate::target::Target;
use crate::targets::Targets;
use crate::write_target::is_plain;
use crate::write_targets::members_around;
use serde_json::Value;
use std::alloc::{AllocError, Global};
use std::collections::BTreeMap;
use tough_json::error::WriteError;
use tough_names::TargetName;
use tough_roles::orderly::has_order;

// Whether the target states a length and its SHA-256 alone.
fn is_fit(target: &Target) -> bool
    ensures { IsTrue result → IsFit (target_doc target.now) }
{
    let _length = target.length;
    is_plain(target)
}

// Whether each target does.
fn are_fit(targets: &BTreeMap<TargetName, Target>) -> bool
    ensures fit { IsTrue result → AreFit (listing_doc targets.now.entries) }
    ensures ordered { IsTrue result
        → IsStrictlySortedBy by_raw_then_resolved (keys_of (listing_doc targets.now.entries)) }
{
    for (_, target) in targets.iter() {
        if !is_fit(target) {
            return false;
        }
    }
    true
}

/// Whether the JSON of the targets, if they have one, is known to be orderly, and the listing to be sorted: where each target states
/// its length and its SHA-256 alone. No value of the listing is made; `false` says nothing.
pub(crate) fn targets_read_back(alloc: Global, targets: &Targets) -> Result<bool, AllocError>
    ensures { IfOk result (λ known. IsTrue known → (d : Data)
        → targets_json (targets_doc targets.now) ≡ Some d
        → IsOrderly d × AreSorted (targets_doc targets.now)) }
{
    if !are_fit(&targets.targets) {
        return Ok(false);
    }
    match members_around(alloc, targets, Value::Null) {
        Ok(members) => Ok(has_order(&members)),
        Err(WriteError::Memory) => Err(AllocError),
        Err(WriteError::Unwritable) => Ok(false),
    }
}
