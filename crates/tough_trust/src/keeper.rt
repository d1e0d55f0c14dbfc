//! What keeps what an update accepts.

ghost use Rattle.std.specs.Prelude.{ℕ, Option, Result};
ghost use Rattle.tough_keys.specs.Same.{Verifies};
ghost use Rattle.tough_roles.specs.Root.{RootDoc};
ghost use Rattle.tough_roles.specs.Signature.{SignedDoc};
ghost use Rattle.tough_vault.specs.Looking.{VouchesLook, look_doc};
ghost use Rattle.tough_vault.proofs.lemmas.Vouching.{look-vouches};
ghost use Rattle.tough_vault.specs.Vault.{parts_of};
ghost use Rattle.tough_checks.specs.declared.checks.StepError.{StepError as Refused};
ghost use Rattle.tough_vault.specs.Act.{Act as ActDoc};
ghost use Rattle.tough_trust.specs.Checking.{CheckedIfOk, vault_checks};
ghost use Rattle.tough_trust.specs.Steps.{TakesStep};
ghost use Rattle.tough_trust.specs.Vaults.{vault_keeps, vault_reads};
ghost use Rattle.tough_trust.specs.View.{act_of, step_doc};

use crate::act::Act;
use crate::step::act_on;
use std::alloc::Global;
use tough_roles::{Root, Signed, Verify};
use tough_vault::{Receipt, StepError, Store, Vault};

/// Takes the steps of an update on a store (TUF specification 5). A lent vault is one.
pub trait Keeper: Drop {
    /// What tells that a step was taken.
    type Receipt: Drop;

    // Holds of a state, what is asked, the answer of that step and the state after, for signatures that verify so.
    ghost keeps: { Verifies → Self → ActDoc → Result Self.Receipt Refused → Self → Type 0 };

    // Holds of a state, a version, the stored root where that is newer and verifies itself, and the state after, for signatures that verify so.
    ghost reads: { Verifies → Self → ℕ → Result (Option (SignedDoc RootDoc)) Refused → Self
        → Type 0 };

    /// The stored root, where it can be read, verifies itself and is newer than this version.
    fn read_root<V: Verify>(
        &mut self,
        first: u64,
        verifier: &V,
    ) -> Result<Option<Signed<Root>>, StepError>
        ensures { reads (V.verifies verifier.now) self.old first (look_doc result) self.new };

    /// Takes a step.
    fn take<V: Verify>(
        &mut self,
        alloc: Global,
        act: &Act<'_>,
        verifier: &V,
    ) -> Result<Self::Receipt, StepError>
        ensures { keeps (V.verifies verifier.now) self.old (act_of act.now) result self.new };

    /// A step that succeeded has made its checks on what it was given.
    ghost checks: { (verifies : Verifies) (old : Self) (act : ActDoc) (result : Result Self.Receipt
        Refused) (new : Self) → keeps verifies old act result new → CheckedIfOk verifies act result };

    /// A root that it reads is newer than the version that was given, and verifies itself.
    ghost vouches: { (verifies : Verifies) (old : Self) (first : ℕ)
        (result : Result (Option (SignedDoc RootDoc)) Refused) (new : Self)
        → reads verifies old first result new → VouchesLook verifies first result };
}

impl<S: Store> Keeper for &mut Vault<S> {
    type Receipt = Receipt;

    ghost keeps = { vault_keeps S.tells S.files S.count };

    ghost checks = { λ verifies old act result new h. vault_checks S.tells S.files S.count verifies
        act (parts_of old.now) (parts_of new.now) result h.0 };

    ghost reads = { vault_reads S.tells S.files S.count };

    ghost vouches = { λ verifies old first result new h. look-vouches S.tells S.files S.count
        verifies first (parts_of old.now) (parts_of new.now) result h.0 };

    fn read_root<V: Verify>(
        &mut self,
        first: u64,
        verifier: &V,
    ) -> Result<Option<Signed<Root>>, StepError> {
        Vault::read_root(self, first, verifier)
    }

    fn take<V: Verify>(
        &mut self,
        alloc: Global,
        act: &Act<'_>,
        verifier: &V,
    ) -> Result<Receipt, StepError> {
        act_on(self, alloc, act, verifier)
    }
}

/// Has the keeper take a step, and puts its receipt by, after those before it. There is room for the receipt before the step is taken:
/// without it nothing is done, and the answer is `Memory`.
pub fn take_step<K: Keeper, V: Verify>(
    alloc: Global,
    keeper: &mut K,
    verifier: &V,
    receipts: &mut Vec<K::Receipt>,
    act: &Act<'_>,
) -> Result<(), StepError>
    ensures { TakesStep K.keeps (V.verifies verifier.now) (act_of act.now)
        (record { keeper = keeper.old; receipts = receipts.old.items }) (step_doc result)
        (record { keeper = keeper.new; receipts = receipts.new.items }) }
{
    if receipts.reserve(1).is_err() {
        return Err(StepError::Memory);
    }
    match keeper.take(alloc, act, verifier) {
        Ok(receipt) => {
            receipts.push_reserved(receipt);
            Ok(())
        }
        Err(error) => Err(error),
    }
}
