//! What the steps of a keeper promise together.

ghost use Rattle.std.specs.Prelude.{ℕ, List, Result, length};
ghost use Rattle.std.specs.Borrow.{MutBor};
ghost use Rattle.tough_keys.specs.Same.{Verifies};
ghost use Rattle.tough_checks.specs.declared.checks.StepError.{StepError};
ghost use Rattle.tough_vault.specs.declared.entry.Receipt.{Receipt as Plain};
ghost use Rattle.tough_vault.specs.declared.vault.Vault.{Vault};
ghost use Rattle.tough_vault.specs.Act.{Act};
ghost use Rattle.tough_vault.specs.Journal.{number_of};
ghost use Rattle.tough_vault.specs.Vault.{notes_in};
ghost use Rattle.tough_trust.specs.Vaults.{vault_keeps};
ghost use Rattle.tough_shared.specs.declared.keeper.SharedKeeper.{SharedKeeper};
ghost use Rattle.tough_shared.specs.declared.receipt.Receipt.{Receipt};
ghost use Rattle.tough_shared.specs.Keeping.{next_of, shared_keeps};
ghost use Rattle.tough_shared.specs.Receipts.{plain_of, untied};
ghost use Rattle.tough_shared.specs.Rising.{RiseFrom, numbers_in, Walks};
ghost use Rattle.tough_shared.specs.Shares.{Shares};
ghost use Rattle.tough_shared.specs.Telling.{AnswersTo};

use crate::front::Naming;
use std::sync::Wait;
use tough_vault::Store;

/// The answer of a step through the lock tells of what that step was given: where it succeeded, its entry tells it, and its checks were made
/// on it; `VerifyMetadata`, `VersionMismatch`, `ExpiredMetadata` and `DatastoreSerialize` come only where that is so of it; and an
/// `OlderMetadata` has its version as the new one, below the current one.
pub fn shared_steps_tell<S: Store, J: Naming>()
    ensures { (begun : ℕ) (verifies : Verifies) (act : Act) (result : Result (Receipt J (record {
      book =
          J.book;
    })) StepError)
        → Shares S.tells S.files S.count S.changes begun verifies act result
        → AnswersTo verifies act (untied result) }
{}

/// The numbers of the receipts of one keeper rise along its steps: those of a lent vault from the length of its journal on, those of a shared
/// store's keeper behind those before.
pub fn receipts_rise<S: Store, R: Wait, J: Naming>()
    ensures vault { (verifies : Verifies) (k new : MutBor (Vault S (record {
      tells = S.tells;
      files = S.files;
      count = S.count;
      removals = S.removals;
      changes = S.changes;
    })))
        (steps : List (Act × Result Plain StepError))
        → Walks (vault_keeps S.tells S.files S.count) verifies k steps new
        → RiseFrom (length (notes_in k.now)) (numbers_in number_of steps) }
    ensures shared { (verifies : Verifies) (k new : SharedKeeper S R J (record {
      tells = S.tells;
      files = S.files;
      count = S.count;
      removals = S.removals;
      changes = S.changes;
    }) (record { book = J.book }))
        (steps : List (Act × Result (Receipt J (record { book = J.book })) StepError))
        → Walks (shared_keeps S.tells S.files S.count) verifies k steps new
        → RiseFrom (next_of k) (numbers_in (λ r. number_of (plain_of r)) steps) }
{}

/// How many laws this file states.
pub const LAWS: usize = 2;
