//! The first part of a snapshot's step: it reads and checks, and makes all that the write needs.

ghost use Rattle.std.specs.Prelude.{◌≡◌, IfOk, OnOk};
ghost use Rattle.tough_roles.specs.Signature.{signed_doc, signed_json};
ghost use Rattle.tough_roles.specs.Root.{root_doc};
ghost use Rattle.tough_roles.specs.Snapshot.{snapshot_doc, snapshot_json};
ghost use Rattle.tough_checks.specs.Documents.{snapshot_text, snapshot_in, ReadsBack};
ghost use Rattle.tough_checks.specs.StoredDocuments.{content, stored_snapshot};
ghost use Rattle.tough_vault.specs.Journal.{tip_of};
ghost use Rattle.tough_checks.specs.Checks.{snapshot_where, enforces};
ghost use Rattle.tough_vault.specs.Steps.{snapshot_step};
ghost use Rattle.tough_vault.specs.Parts.{Prepares};

use crate::entry::{Entry, Tip};
use crate::parts::Prepared;
use crate::prepare::{SNAPSHOT, read_file};
use crate::store::Store;
use tough_checks::{
    Checker, StepError, check_snapshot, check_snapshot_late, read_snapshot, versions_of,
};
use tough_roles::{Root, Signed, Snapshot, Verify, WriteError};

pub(crate) fn prepare_snapshot<S: Store, V: Verify>(
    checker: &Checker<'_, V>,
    store: &mut S,
    tip: &Tip,
    root: &Root,
    listed: u64,
    new: &Signed<Snapshot>,
) -> Result<Prepared, StepError>
    ensures step { Prepares S.tells S.files S.count
        (snapshot_step (V.verifies checker.now.verifier.now) (root_doc root.now)
        (tip_of tip.now) listed (signed_doc snapshot_doc new.now) checker.now.start.nanosecond
        (enforces checker.now.enforcement)) store.old store.new result }
    ensures unchanged { S.changes store.new ≡ S.changes store.old }
    ensures back { OnOk result
        (ReadsBack snapshot_in (signed_json snapshot_json (signed_doc snapshot_doc new.now))
        (signed_doc snapshot_doc new.now) (snapshot_text (signed_doc snapshot_doc new.now))) }
{
    if let Err(error) = check_snapshot(checker.alloc, checker.verifier, root, listed, new) {
        return Err(error);
    }
    let found = match read_file(checker.alloc, store, SNAPSHOT) {
        Ok(found) => found,
        Err(error) => return Err(error),
    };
    let Ok(old) = read_snapshot(checker.alloc, checker.verifier, root, &found) else {
        return Err(StepError::Memory);
    };
    if let Err(error) = check_snapshot_late(
        checker.alloc,
        &old,
        &tip.snapshot,
        &new.signed,
        checker.start,
        checker.enforcement,
    ) {
        return Err(error);
    }
    let bytes = match new.compact(checker.alloc) {
        Ok(bytes) => bytes,
        Err(WriteError::Memory) => return Err(StepError::Memory),
        Err(WriteError::Unwritable) => unreachable!(),
    };
    let Ok(versions) = versions_of(checker.alloc, &new.signed) else {
        return Err(StepError::Memory);
    };
    Ok(Prepared {
        bytes,
        entry: Entry::Snapshot(versions, old.is_some()),
    })
}
