//! The first part of a root's step, and a look at the stored root.

ghost use Rattle.std.specs.Prelude.{◌≡◌, OnOk};
ghost use Rattle.tough_roles.specs.Signature.{signed_doc, signed_json};
ghost use Rattle.tough_roles.specs.Root.{AreOwn, root_doc, root_json};
ghost use Rattle.tough_checks.specs.Documents.{root_text, root_in, ReadsBack};
ghost use Rattle.tough_vault.specs.Journal.{tip_of};
ghost use Rattle.tough_vault.specs.Looking.{Sees, look_doc};
ghost use Rattle.tough_vault.specs.Steps.{root_step};
ghost use Rattle.tough_vault.specs.Parts.{Prepares};

use crate::entry::{Entry, Tip};
use crate::parts::Prepared;
use crate::prepare::{ROOT, read_file};
use crate::store::Store;
use std::alloc::Global;
use tough_checks::{
    Refusal, StepError, check_root, check_root_late, newer_root, read_root, rotates,
};
use tough_roles::{Root, Signed, Verify, WriteError};

/// The stored root, where it is newer than this version.
pub(crate) fn look<S: Store, V: Verify>(
    alloc: Global,
    store: &mut S,
    first: u64,
    verifier: &V,
) -> Result<Option<Signed<Root>>, StepError>
    ensures { Sees S.tells S.files S.count (V.verifies verifier.now) first store.old store.new
        (look_doc result) }
{
    let found = match read_file(alloc, store, ROOT) {
        Ok(found) => found,
        Err(error) => return Err(error),
    };
    match read_root(alloc, verifier, &found) {
        Ok(root) => Ok(newer_root(first, root)),
        Err(_) => Err(StepError::Memory),
    }
}

pub(crate) fn prepare_root<S: Store, V: Verify>(
    alloc: Global,
    store: &mut S,
    tip: &Tip,
    new: &Signed<Root>,
    verifier: &V,
) -> Result<Prepared, StepError>
    ensures step { Prepares S.tells S.files S.count
        (root_step (V.verifies verifier.now) (tip_of tip.now) (signed_doc root_doc new.now))
        store.old store.new result }
    ensures unchanged { S.changes store.new ≡ S.changes store.old }
    ensures unremoved { S.removals store.new ≡ S.removals store.old }
    ensures back { OnOk result
        (AreOwn (root_doc new.now.signed).keys
        → ReadsBack root_in (signed_json root_json (signed_doc root_doc new.now))
        (signed_doc root_doc new.now) (root_text (signed_doc root_doc new.now))) }
{
    if let Err(error) = check_root(alloc, verifier, new) {
        return Err(error);
    }
    let found = match read_file(alloc, store, ROOT) {
        Ok(found) => found,
        Err(error) => return Err(error),
    };
    let Ok(old) = read_root(alloc, verifier, &found) else {
        return Err(StepError::Memory);
    };
    if let Err(refusal) = check_root_late(&old, tip.root, &new.signed) {
        return Err(StepError::Refused(refusal));
    }
    let bytes = match new.compact(alloc) {
        Ok(bytes) => bytes,
        Err(WriteError::Unwritable) => return Err(StepError::Refused(Refusal::DatastoreSerialize)),
        Err(WriteError::Memory) => return Err(StepError::Memory),
    };
    Ok(Prepared {
        bytes,
        entry: Entry::Root(new.signed.version.get(), rotates(&old, &new.signed)),
    })
}
