//! Who made how many entries: each entry of the journal is counted once, by the keeper that made it or as nobody's.

ghost use Rattle.std.specs.Prelude.{◌≡◌, ◌+◌, ◌≢◌, ◌-◌, ◌^◌, []};
ghost use Rattle.tough_checks.specs.DocumentName.{name_of};
ghost use Rattle.tough_roles.specs.Written.{compact_by};
ghost use Rattle.tough_trust.specs.View.{act_of};
ghost use Rattle.tough_vault.specs.Act.{PutDocument};
ghost use Rattle.tough_shared.specs.Lines.{begun_in, told};
ghost use Rattle.tough_shared.specs.Shares.{Shares, no_signature};

use crate::front::{Front, Head, Licence, Naming};
use crate::locked::Locked;
use crate::receipt::Receipt;
use std::alloc::Global;
use std::marker::PhantomData;
use std::sync::Wait;
use std::sync::ledger::{Ledger, Share};
use tough_roles::{Role, Signed, Verify};
use tough_trust::Act;
use tough_vault::{DocumentName, StepError, Store};

/// The ledger of a history's entries.
pub(crate) struct Tally<J: Naming> {
    of: PhantomData<J>,
}

impl<J: Naming> Ledger for Tally<J> {
    ghost use Rattle.std.specs.Prelude.{◌-◌, ◌^◌};

    ghost name = { J.book.ledger };

    ghost parts = { 2 ^ 64 - 1 };
}

/// The count of the entries that no keeper made, from which the keepers get theirs. A step is counted here by a licence alone.
#[derive(Drop)]
pub(crate) struct Spare<J: Naming> {
    share: Share<Tally<J>>,
    // How many keepers may still get a count.
    left: u64,
    ghost parts: { share.parts ≡ left + 1 },
}

impl<J: Naming> Spare<J> {
    /// The count of all entries, as long as there is no keeper.
    pub(crate) fn new(share: Share<Tally<J>>) -> Spare<J>
        requires { share.parts ≡ 2 ^ 64 - 1 }
    {
        Spare {
            share,
            left: u64::MAX - 1,
        }
    }

    /// A count for a keeper, which has made nothing. A proof knows only that it waits for ever where there were too many.
    pub(crate) fn part<R: Wait>(&mut self, rt: &R, licence: &Licence<J>) -> Share<Tally<J>>
        ensures parts { result.parts ≡ 1 }
        ensures amount { result.amount ≡ 0 }
    {
        let _ = licence;
        if self.left > 0 {
            let Spare { share, left } = self;
            *left -= 1;
            return share.split_off(1, 0);
        }
        for _ in rt.forever() {}
        unreachable!()
    }

    /// A step that no keeper counts.
    pub(crate) fn step<S: Store, V: Verify>(
        &mut self,
        licence: &Licence<J>,
        locked: &mut Locked<S, J>,
        head: &Head<J>,
        me: &mut Front<J>,
        alloc: Global,
        act: &Act<'_>,
        verifier: &V,
    ) -> Result<Receipt<J>, StepError>
        requires { me.old.seen.log ≢ [] }
        ensures { Shares S.tells S.files S.count S.changes (begun_in (told me.old.seen.log))
            (V.verifies verifier.now) (act_of act.now) result }
    {
        let _ = licence;
        let Spare { share, left: _ } = self;
        locked.step(head, share, me, alloc, act, verifier)
    }

    /// The same of a document of any role.
    pub(crate) fn document_step<S: Store, T: Role>(
        &mut self,
        licence: &Licence<J>,
        locked: &mut Locked<S, J>,
        head: &Head<J>,
        me: &mut Front<J>,
        name: &DocumentName,
        role: &Signed<T>,
    ) -> Result<Receipt<J>, StepError>
        requires { me.old.seen.log ≢ [] }
        ensures { Shares S.tells S.files S.count S.changes (begun_in (told me.old.seen.log))
            no_signature (PutDocument (name_of name.now) (compact_by T.json role.now)) result }
    {
        let _ = licence;
        let Spare { share, left: _ } = self;
        locked.document_step(head, share, me, name, role)
    }
}
