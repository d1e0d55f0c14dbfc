//! Which target is listed under a name (TUF specification 5.6.7 and 5.7).

ghost use Rattle.std.specs.Prelude.{◌≡◌, false, IfOk, option_map};
ghost use Rattle.tough_schema.specs.Target.{target_doc};
ghost use Rattle.tough_schema.specs.Search.{search};
ghost use Rattle.tough_schema.specs.Whole.{tree_doc};

use std::alloc::{AllocError, Global};
use tough_names::TargetName;
use tough_schema::{Target, Targets};

/// What is listed under the name: what the search finds, which ends after a terminating role, and none where it finds nothing.
pub(crate) fn listed_target<'a>(
    alloc: Global,
    targets: &'a Targets,
    name: &TargetName,
) -> Result<Option<&'a Target>, AllocError>
    ensures { IfOk result (λ found. option_map (λ t. target_doc t.now) found
        ≡ search false name.now (tree_doc targets.now)) }
{
    match targets.find_target(alloc, name, false) {
        Ok(target) => Ok(Some(target)),
        Err(error) => {
            let is_memory = error.is_memory();
            drop(error);
            if is_memory { Err(AllocError) } else { Ok(None) }
        }
    }
}
