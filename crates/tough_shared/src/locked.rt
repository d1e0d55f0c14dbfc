//! What lies under the lock: a vault, with the history that its journal is.

ghost use Rattle.std.specs.Prelude.{◌≡◌, ◌≢◌, ◌+◌, ◌<◌, [], ◌∷◌, ◌++◌, ℕ, length, true, IfOk};
ghost use Rattle.tough_vault.specs.Act.{PutDocument, Acts};
ghost use Rattle.tough_vault.specs.Journal.{number_of};
ghost use Rattle.tough_vault.specs.Vault.{parts_of, journal_of, notes_in, store_of};
ghost use Rattle.tough_roles.specs.Written.{compact_by};
ghost use Rattle.tough_checks.specs.DocumentName.{name_of};
ghost use Rattle.tough_vault.specs.Looking.{Looks, look_doc};
ghost use Rattle.tough_trust.specs.View.{act_of};
ghost use Rattle.tough_shared.specs.Begins.{Begins};
ghost use Rattle.tough_shared.specs.Lines.{history, begun_in, is_open, told, Grows};
ghost use Rattle.tough_shared.specs.Receipts.{untied, IsLater};
ghost use Rattle.tough_shared.specs.Shares.{Keeps, Shares, Alone, StepsAlone, LooksAlone, no_signature};
ghost use Rattle.tough_shared.specs.declared.line.Line.TheVariants.{Begun, End};

use crate::front::{Front, Head, Naming, Tail};
use crate::line::Addition;
use crate::receipt::Receipt;
use crate::spare::Tally;
use std::alloc::Global;
use std::sync::ledger::{Book, Share};
use tough_roles::{Role, Root, Signed, Verify};
use tough_trust::{Act, act_on};
use tough_vault::{DocumentName, StepError, Store, Vault};

/// A vault, with the history that its journal is, and the count of its entries by who made them.
#[derive(Drop)]
pub(crate) struct Locked<S: Store, J: Naming> {
    pub(crate) vault: Vault<S>,
    pub(crate) tail: Tail<J>,
    book: Book<Tally<J>>,
    ghost same: { told tail.front.seen.log ≡ history (begun_in (told tail.front.seen.log)) (notes_in vault) },
    ghost counted: { book.total ≡ length (notes_in vault) },
    ghost begins: { ∥ Begins S.tells S.files S.count S.changes (begun_in (told tail.front.seen.log)) (parts_of vault) ∥₁ },
}

impl<S: Store, J: Naming> Locked<S, J> {
    /// A new vault over a store, where the history begins with how often that was changed.
    pub(crate) fn new(alloc: Global, store: S, tail: Tail<J>, book: Book<Tally<J>>) -> Locked<S, J>
        requires begun { told tail.front.seen.log ≡ Begun (S.changes store) ∷ [] }
        requires book { book.total ≡ 0 }
        ensures store { store_of result.vault ≡ store }
        ensures journal { notes_in result.vault ≡ [] }
    {
        Locked {
            vault: Vault::new(alloc, store),
            tail,
            book,
        }
    }

    /// Ends the history, so that nothing is added to the journal any more.
    pub(crate) fn end(self, head: &Head<J>) -> (Vault<S>, Front<J>)
        ensures vault { result.0 ≡ self.vault }
        ensures front { told result.1.seen.log ≡ history (begun_in (told self.tail.front.seen.log)) (notes_in self.vault) ++ End ∷ [] }
    {
        let Locked {
            vault,
            mut tail,
            book: _,
        } = self;
        tail.add(head, &Addition::End);
        (vault, tail.into_front())
    }

    /// The step of the vault, which notes its entry in the history too. It is counted as an entry of `own`, and `me` has then seen the journal
    /// behind it.
    fn take<V: Verify>(
        &mut self,
        head: &Head<J>,
        own: &mut Share<Tally<J>>,
        me: &mut Front<J>,
        alloc: Global,
        act: &Act<'_>,
        verifier: &V,
    ) -> Result<Receipt<J>, StepError>
        requires part { 0 < own.old.parts }
        requires seen { me.old.seen.log ≢ [] }
        ensures step { Acts S.tells S.files S.count (V.verifies verifier.now) (act_of act.now)
            (parts_of self.old.vault) (parts_of self.new.vault) (untied result) }
        ensures begun { begun_in (told self.new.tail.front.seen.log) ≡ begun_in (told me.old.seen.log) }
        ensures begins { begun_in (told self.old.tail.front.seen.log) ≡ begun_in (told me.old.seen.log) }
        ensures alone { Alone (begun_in (told me.old.seen.log)) (notes_in self.old.vault) (notes_in self.new.vault)
            (told me.old.seen.log) (told me.new.seen.log) own.old.amount own.new.amount }
        ensures parts { own.new.parts ≡ own.old.parts }
        ensures later { IfOk result (IsLater (length (told me.old.seen.log))) }
    {
        let Locked { vault, tail, book } = self;
        tail.show(head, me);
        let before = entries_of(vault);
        let answer = act_on(vault, alloc, act, verifier);
        let after = entries_of(vault);
        note(tail, book, own, head, me, before, after, answer)
    }

    /// The same of a document of any role.
    fn put_document<T: Role>(
        &mut self,
        head: &Head<J>,
        own: &mut Share<Tally<J>>,
        me: &mut Front<J>,
        name: &DocumentName,
        role: &Signed<T>,
    ) -> Result<Receipt<J>, StepError>
        requires part { 0 < own.old.parts }
        requires seen { me.old.seen.log ≢ [] }
        ensures step { Acts S.tells S.files S.count no_signature
            (PutDocument (name_of name.now) (compact_by T.json role.now))
            (parts_of self.old.vault) (parts_of self.new.vault) (untied result) }
        ensures begun { begun_in (told self.new.tail.front.seen.log) ≡ begun_in (told me.old.seen.log) }
        ensures begins { begun_in (told self.old.tail.front.seen.log) ≡ begun_in (told me.old.seen.log) }
        ensures parts { own.new.parts ≡ own.old.parts }
    {
        let Locked { vault, tail, book } = self;
        tail.show(head, me);
        let before = entries_of(vault);
        let answer = vault.put_document(name, role);
        let after = entries_of(vault);
        note(tail, book, own, head, me, before, after, answer)
    }

    /// The step of the vault, as it is told through the lock, and nothing beside it.
    pub(crate) fn step<V: Verify>(
        &mut self,
        head: &Head<J>,
        own: &mut Share<Tally<J>>,
        me: &mut Front<J>,
        alloc: Global,
        act: &Act<'_>,
        verifier: &V,
    ) -> Result<Receipt<J>, StepError>
        requires part { 0 < own.old.parts }
        requires seen { me.old.seen.log ≢ [] }
        ensures alone { StepsAlone S.tells S.files S.count S.changes (begun_in (told me.old.seen.log)) (told me.old.seen.log) (told me.new.seen.log)
            own.old.amount own.new.amount (V.verifies verifier.now) (act_of act.now) result }
        ensures parts { own.new.parts ≡ own.old.parts }
        ensures later { IfOk result (IsLater (length (told me.old.seen.log))) }
    {
        self.show();
        let result = self.take(head, own, me, alloc, act, verifier);
        self.show();
        result
    }

    /// The same of a document of any role.
    pub(crate) fn document_step<T: Role>(
        &mut self,
        head: &Head<J>,
        own: &mut Share<Tally<J>>,
        me: &mut Front<J>,
        name: &DocumentName,
        role: &Signed<T>,
    ) -> Result<Receipt<J>, StepError>
        requires part { 0 < own.old.parts }
        requires seen { me.old.seen.log ≢ [] }
        ensures step { Shares S.tells S.files S.count S.changes (begun_in (told me.old.seen.log)) no_signature
            (PutDocument (name_of name.now) (compact_by T.json role.now)) result }
        ensures parts { own.new.parts ≡ own.old.parts }
    {
        self.show();
        let result = self.put_document(head, own, me, name, role);
        self.show();
        result
    }

    // The look of the vault at its stored root. `me` has then seen the journal.
    fn look<V: Verify>(
        &mut self,
        head: &Head<J>,
        me: &mut Front<J>,
        first: u64,
        verifier: &V,
    ) -> Result<Option<Signed<Root>>, StepError>
        requires { me.old.seen.log ≢ [] }
        ensures look { Looks S.tells S.files S.count (V.verifies verifier.now) first
            (parts_of self.old.vault) (parts_of self.new.vault) (look_doc result) }
        ensures begun { begun_in (told self.new.tail.front.seen.log) ≡ begun_in (told me.old.seen.log) }
        ensures begins { begun_in (told self.old.tail.front.seen.log) ≡ begun_in (told me.old.seen.log) }
        ensures alone { (made : ℕ) → Alone (begun_in (told me.old.seen.log)) (notes_in self.old.vault) (notes_in self.new.vault)
            (told me.old.seen.log) (told me.new.seen.log) made made }
    {
        let Locked {
            vault,
            tail,
            book: _,
        } = self;
        tail.show(head, me);
        vault.read_root(first, verifier)
    }

    /// The look of the vault at its stored root, as it is told through the lock, and nothing beside it.
    pub(crate) fn read_root<V: Verify>(
        &mut self,
        head: &Head<J>,
        me: &mut Front<J>,
        first: u64,
        verifier: &V,
    ) -> Result<Option<Signed<Root>>, StepError>
        requires { me.old.seen.log ≢ [] }
        ensures { LooksAlone S.tells S.files S.count S.changes (begun_in (told me.old.seen.log)) (told me.old.seen.log) (told me.new.seen.log)
            (V.verifies verifier.now) first (look_doc result) }
    {
        self.show();
        let result = self.look(head, me, first, verifier);
        self.show();
        result
    }

    /// What the lock keeps, for the proofs.
    pub(crate) fn show(&self)
        ensures { Keeps S.tells S.files S.count S.changes (begun_in (told self.now.tail.front.seen.log))
            (parts_of self.now.vault) }
    {
        let _ = self.vault.journal();
        let _ = self.vault.tip();
    }
}

// How many entries the journal has.
fn entries_of<S: Store>(vault: &Vault<S>) -> u64
    ensures { result ≡ length (journal_of vault.now) }
{
    vault.journal().len() as u64
}

// Adds what a step of the vault noted to the history, counts it, shows the history to `me`, and ties the receipt to it.
fn note<J: Naming>(
    tail: &mut Tail<J>,
    book: &mut Book<Tally<J>>,
    own: &mut Share<Tally<J>>,
    head: &Head<J>,
    me: &mut Front<J>,
    before: u64,
    after: u64,
    answer: Result<tough_vault::Receipt, StepError>,
) -> Result<Receipt<J>, StepError>
    requires open { is_open (told tail.old.front.seen.log) ≡ true }
    requires number { IfOk answer (λ r. number_of r + 1 ≡ length (told tail.old.front.seen.log)) }
    requires fits { IfOk answer (λ r. number_of r + 1 ≡ after) }
    requires part { 0 < own.old.parts }
    requires same { me.old.seen.log ≡ tail.old.front.seen.log }
    ensures answer { untied result ≡ answer }
    ensures grows { Grows before after answer (told tail.old.front.seen.log) (told tail.new.front.seen.log) }
    ensures seen { me.new.seen.log ≡ tail.new.front.seen.log }
    ensures total { book.new.total + length (told tail.old.front.seen.log)
        ≡ book.old.total + length (told tail.new.front.seen.log) }
    ensures own { own.new.amount + length (told tail.old.front.seen.log)
        ≡ own.old.amount + length (told tail.new.front.seen.log) }
    ensures parts { own.new.parts ≡ own.old.parts }
    ensures later { IfOk result (IsLater (length (told tail.old.front.seen.log))) }
{
    match answer {
        Ok(plain) => {
            let added = Addition::Told(plain);
            tail.add(head, &added);
            book.add(own, 1);
            let Addition::Told(plain) = added else {
                unreachable!()
            };
            let receipt = Receipt {
                plain,
                front: tail.front.again(),
            };
            *me = receipt.front.again();
            Ok(receipt)
        }
        Err(error) => {
            if after > before {
                tail.add(head, &Addition::Broken);
                book.add(own, 1);
                *me = tail.front.again();
            }
            Err(error)
        }
    }
}
