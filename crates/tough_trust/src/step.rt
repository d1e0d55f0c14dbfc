//! A step that an update asks for, taken on a vault.

ghost use Rattle.std.specs.Prelude.{◌≡◌, OnOk};
ghost use Rattle.tough_vault.specs.Vault.{parts_of};
ghost use Rattle.tough_vault.specs.Act.{Acts};
ghost use Rattle.tough_trust.specs.View.{act_of};
ghost use Rattle.tough_trust.specs.Vaults.{ReadsBack};

use crate::act::Act;
use std::alloc::Global;
use tough_roles::Verify;
use tough_vault::{DocumentName, Receipt, StepError, Store, Vault};

/// Takes the step on the vault. What a time, a root, a timestamp or a snapshot is stored as is read as it was given, where that nests no deeper
/// than is read.
pub fn act_on<S: Store, V: Verify>(
    vault: &mut Vault<S>,
    alloc: Global,
    act: &Act<'_>,
    verifier: &V,
) -> Result<Receipt, StepError>
    ensures acts { Acts S.tells S.files S.count (V.verifies verifier.now) (act_of act.now)
        (parts_of vault.old) (parts_of vault.new) result }
    ensures back { OnOk result (ReadsBack (act_of act.now)) }
{
    match act {
        Act::NoteTime(now) => vault.note_time(*now),
        Act::PutRoot(root) => vault.put_root(*root, verifier),
        Act::ClearRotated => vault.clear_rotated(),
        Act::AdvanceTimestamp {
            root,
            new,
            start,
            enforcement,
        } => vault.advance_timestamp(*root, *new, *start, *enforcement, verifier),
        Act::AdvanceSnapshot {
            root,
            listed,
            new,
            start,
            enforcement,
        } => vault.advance_snapshot(*root, *listed, *new, *start, *enforcement, verifier),
        Act::PutDelegated { name, targets } => vault.put_written(*name, *targets),
        Act::PutTargets(targets) => {
            let Ok(name) = DocumentName::targets(alloc) else {
                return Err(StepError::Memory);
            };
            vault.put_written(&name, *targets)
        }
    }
}
