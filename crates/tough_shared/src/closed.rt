//! A store that no thread has any more.

ghost use Rattle.std.specs.Prelude.{◌≡◌, ◌≢◌, ◌++◌, ◌∷◌, [], true, false, IsSome, IfSome, Some, slice_get};
ghost use Rattle.tough_vault.specs.Journal.{Legal, NothingGoesBack, has_broken, note_of, number_of, entry_of};
ghost use Rattle.tough_vault.specs.Parts.{Holds};
ghost use Rattle.tough_vault.specs.Vault.{store_of, journal_of, notes_in, tip_in, parts_of};
ghost use Rattle.tough_shared.specs.Begins.{Begins};
ghost use Rattle.tough_shared.specs.Lines.{history, begun_in, told};
ghost use Rattle.tough_shared.specs.declared.line.Line.TheVariants.{End};

use crate::front::{Front, Head, Naming};
use crate::locked::Locked;
use crate::receipt::Receipt;
use tough_vault::{Entry, Store, Vault};

/// A closed store, whose journal is final.
#[derive(Drop)]
pub struct ClosedStore<S: Store, J: Naming> {
    vault: Vault<S>,
    front: Front<J>,
    ghost ended: { told front.seen.log ≡ history (begun_in (told front.seen.log)) (notes_in vault) ++ End ∷ [] },
    ghost begins: { ∥ Begins S.tells S.files S.count S.changes (begun_in (told front.seen.log)) (parts_of vault) ∥₁ },
}

impl<S: Store, J: Naming> ClosedStore<S, J> {
    ghost use Rattle.tough_shared.specs.Closed.{vault_of, closed_begun};
    ghost use Rattle.tough_shared.specs.Receipts.{plain_of};

    /// Ends the history, so that nothing is added to the journal any more.
    pub(crate) fn seal(locked: Locked<S, J>, head: &Head<J>, start: &Front<J>) -> ClosedStore<S, J>
        requires { start.now.seen.log ≢ [] }
        ensures vault { vault_of result ≡ locked.vault }
        ensures begun { closed_begun result ≡ begun_in (told start.now.seen.log) }
    {
        locked.tail.front.begins_as(start);
        locked.show();
        let (vault, front) = locked.end(head);
        ClosedStore { vault, front }
    }

    /// All entries, the first one first. Replaying them gives what was accepted last, no entry is below what those before
    /// it leave, and of two accepted documents with no clearing between them the later isn't older. Nothing but the vault's own steps and looks led
    /// here, from an empty journal over the store that was handed in.
    pub fn journal(&self) -> &[Entry]
        ensures entries { result.now ≡ journal_of (vault_of self.now) }
        ensures legal { Legal (notes_in (vault_of self.now)) (tip_in (vault_of self.now)) }
        ensures rising { NothingGoesBack (notes_in (vault_of self.now)) }
        ensures begins { ∥ Begins S.tells S.files S.count S.changes (closed_begun self.now)
            (parts_of (vault_of self.now)) ∥₁ }
    {
        self.vault.journal()
    }

    /// The entry of a receipt that a clone of this store gave. The journal has it at the receipt's number.
    pub fn entry(&self, receipt: &Receipt<J>) -> Option<&Entry>
        ensures stands { slice_get (notes_in (vault_of self.now))
            (number_of (plain_of receipt.now))
            ≡ Some (note_of (entry_of (plain_of receipt.now))) }
        ensures some { IsSome result }
        ensures value { IfSome result
            (λ entry. note_of entry.now ≡ note_of (entry_of (plain_of receipt.now))) }
    {
        self.front
            .has_entry(receipt.front(), receipt.number(), receipt.plain());
        self.vault.journal().get(receipt.number() as usize)
    }

    /// The store. Where no write failed, the files of a store that tells them hold the time, the root, the timestamp and the snapshot that were
    /// accepted last, and there is a file for each other document.
    pub fn into_store(self) -> S
        ensures store { result ≡ store_of (vault_of self) }
        ensures holds { S.tells ≡ true → has_broken (notes_in (vault_of self)) ≡ false
            → ∥ Holds (S.files result) (notes_in (vault_of self)) (tip_in (vault_of self)) ∥₁ }
    {
        let ClosedStore { vault, front: _ } = self;
        let _ = vault.tip();
        vault.into_store()
    }
}
