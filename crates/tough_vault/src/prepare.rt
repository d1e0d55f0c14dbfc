//! The first part of each step: it reads and checks, and makes all that the write needs.

ghost use Rattle.std.specs.Prelude.{◌≡◌, IfOk, IfErr, OnOk, Some, true};
ghost use Rattle.tough_roles.specs.Signature.{signed_doc, signed_json};
ghost use Rattle.tough_roles.specs.Root.{root_doc};
ghost use Rattle.tough_roles.specs.Timestamp.{timestamp_doc, timestamp_json};
ghost use Rattle.tough_roles.specs.Written.{compact_by};
ghost use Rattle.tough_checks.specs.StoredDocuments.{content, stored_timestamp, stored_time, time_in};
ghost use Rattle.tough_vault.specs.Stored.{SameFiles};
ghost use Rattle.tough_vault.specs.Step.{Finds, Takes, ChangesOnce};
ghost use Rattle.tough_checks.specs.Versions.{time_where};
ghost use Rattle.tough_vault.specs.Journal.{tip_of};
ghost use Rattle.tough_checks.specs.Checks.{timestamp_where, enforces};
ghost use Rattle.tough_checks.specs.Documents.{timestamp_text, timestamp_in, ReadsBack};
ghost use Rattle.tough_checks.specs.DocumentName.{name_of};
ghost use Rattle.tough_vault.specs.Steps.{time_step, timestamp_step, document_step, time_text};
ghost use Rattle.tough_json.specs.Results.{Writes};
ghost use Rattle.tough_vault.specs.Parts.{parts, Prepares, IsReadFault};

use crate::document::document_bytes;
use crate::entry::{Entry, Receipt, Tip};
use crate::parts::{Prepared, write_noted};
use crate::store::{Store, StoreError};
use jiff::Timestamp as Instant;
use serde_json::Value;
use std::alloc::Global;
use tough_checks::{
    Checker, DocumentName, ExpirationEnforcement, Refusal, StepError, TimestampVersions,
    check_time, check_timestamp, check_timestamp_late, read_time, read_timestamp, snapshot_version,
};
use tough_json::text::bytes_of;
use tough_json::{MomentError, moment_text};
use tough_roles::{Role, Root, Signed, Timestamp, Verify, WriteError};

pub(crate) const TIME: &str = "latest_known_time.json";

pub(crate) const ROOT: &str = "root.json";

pub(crate) const TIMESTAMP: &str = "timestamp.json";

pub(crate) const SNAPSHOT: &str = "snapshot.json";

// A file's bytes, if it is there, or the store's fault as a step tells it.
pub(crate) fn read_file<S: Store>(
    alloc: Global,
    store: &mut S,
    name: &str,
) -> Result<Option<Vec<u8>>, StepError>
    ensures found { IfOk result
        (λ found. Finds S.tells (S.files store.old) name.now (content found)) }
    ensures same { S.tells ≡ true → SameFiles (S.files store.old) (S.files store.new) }
    ensures unchanged { S.changes store.new ≡ S.changes store.old }
    ensures unremoved { S.removals store.new ≡ S.removals store.old }
    ensures quiet { OnOk result (S.count store.new ≡ S.count store.old) }
    ensures fault { IfErr result
        (IsReadFault S.tells S.files S.count name.now store.old store.new) }
{
    match store.read(alloc, name) {
        Ok(found) => Ok(found),
        Err(StoreError::Failed) => match String::from_str(alloc, name) {
            Ok(path) => Err(StepError::DatastoreOpen { path }),
            Err(_) => Err(StepError::Memory),
        },
        Err(StoreError::Memory) => Err(StepError::Memory),
    }
}

// The text of an instant in a store; `Unwritable` where it has none.
fn time_bytes(alloc: Global, time: Instant) -> Result<Vec<u8>, WriteError>
    ensures written { Writes (λ b. b.items) result (time_text time.nanosecond) }
    ensures back { IfOk result (λ b. time_in b.items ≡ Some time.nanosecond) }
{
    let text = match moment_text(alloc, time) {
        Ok(text) => text,
        Err(MomentError::Memory) => return Err(WriteError::Memory),
        Err(MomentError::Year) => return Err(WriteError::Unwritable),
    };
    match bytes_of(alloc, &Value::String(text)) {
        Ok(bytes) => Ok(bytes),
        Err(_) => Err(WriteError::Memory),
    }
}

pub(crate) fn prepare_time<S: Store>(
    alloc: Global,
    store: &mut S,
    tip: &Tip,
    now: Instant,
) -> Result<Prepared, StepError>
    ensures step { Prepares S.tells S.files S.count (time_step (tip_of tip.now) now.nanosecond)
        store.old store.new result }
    ensures unchanged { S.changes store.new ≡ S.changes store.old }
    ensures back { OnOk result (stored_time (time_text now.nanosecond) ≡ Some now.nanosecond) }
{
    let found = match read_file(alloc, store, TIME) {
        Ok(found) => found,
        Err(error) => return Err(error),
    };
    let Ok(stored) = read_time(alloc, &found) else {
        return Err(StepError::Memory);
    };
    if let Err(refusal) = check_time(stored, tip.time, now) {
        return Err(StepError::Refused(refusal));
    }
    let bytes = match time_bytes(alloc, now) {
        Ok(bytes) => bytes,
        Err(WriteError::Unwritable) => return Err(StepError::Refused(Refusal::DatastoreSerialize)),
        Err(WriteError::Memory) => return Err(StepError::Memory),
    };
    Ok(Prepared {
        bytes,
        entry: Entry::Noted(now),
    })
}

pub(crate) fn prepare_timestamp<S: Store, V: Verify>(
    checker: &Checker<'_, V>,
    store: &mut S,
    tip: &Tip,
    root: &Root,
    new: &Signed<Timestamp>,
) -> Result<Prepared, StepError>
    ensures step { Prepares S.tells S.files S.count
        (timestamp_step (V.verifies checker.now.verifier.now) (root_doc root.now)
        (tip_of tip.now) (signed_doc timestamp_doc new.now) checker.now.start.nanosecond
        (enforces checker.now.enforcement)) store.old store.new result }
    ensures unchanged { S.changes store.new ≡ S.changes store.old }
    ensures back { OnOk result
        (ReadsBack timestamp_in (signed_json timestamp_json (signed_doc timestamp_doc new.now))
        (signed_doc timestamp_doc new.now) (timestamp_text (signed_doc timestamp_doc new.now))) }
{
    if let Err(error) = check_timestamp(checker.alloc, checker.verifier, root, new) {
        return Err(error);
    }
    let found = match read_file(checker.alloc, store, TIMESTAMP) {
        Ok(found) => found,
        Err(error) => return Err(error),
    };
    let Ok(old) = read_timestamp(checker.alloc, checker.verifier, root, &found) else {
        return Err(StepError::Memory);
    };
    if let Err(refusal) = check_timestamp_late(
        &old,
        tip.timestamp,
        &new.signed,
        checker.start,
        checker.enforcement,
    ) {
        return Err(StepError::Refused(refusal));
    }
    let bytes = match new.compact(checker.alloc) {
        Ok(bytes) => bytes,
        Err(WriteError::Memory) => return Err(StepError::Memory),
        Err(WriteError::Unwritable) => unreachable!(),
    };
    let versions = TimestampVersions {
        version: new.signed.version.get(),
        snapshot: snapshot_version(&new.signed),
    };
    Ok(Prepared {
        bytes,
        entry: Entry::Timestamp(versions, old.is_some()),
    })
}

pub(crate) fn prepare_document<S: Store, T: Role>(
    alloc: Global,
    store: &mut S,
    name: &DocumentName,
    role: &Signed<T>,
) -> Result<Prepared, StepError>
    ensures step { Prepares S.tells S.files S.count
        (document_step (name_of name.now) (compact_by T.json role.now)) store.old store.new result }
    ensures unchanged { S.changes store.new ≡ S.changes store.old }
{
    let bytes = match document_bytes(alloc, role) {
        Ok(bytes) => bytes,
        Err(WriteError::Unwritable) => return Err(StepError::Refused(Refusal::DatastoreSerialize)),
        Err(WriteError::Memory) => return Err(StepError::Memory),
    };
    let Ok(name) = String::from_str(alloc, name.as_str()) else {
        return Err(StepError::Memory);
    };
    Ok(Prepared {
        bytes,
        entry: Entry::Document(name),
    })
}

/// Stores a document of this text under its name, and notes it.
pub(crate) fn put_text<S: Store>(
    store: &mut S,
    journal: &mut Vec<Entry>,
    tip: &mut Tip,
    name: &DocumentName,
    text: &Vec<u8>,
) -> Result<Receipt, StepError>
    ensures takes { Takes S.tells S.files S.count
        (document_step (name_of name.now) (Some text.now.items))
        (parts store.old journal.old.items tip.old)
        (parts store.new journal.new.items tip.new) result }
    ensures once { ChangesOnce S.changes store.old store.new }
{
    let alloc = *journal.allocator();
    let Ok(noted) = String::from_str(alloc, name.as_str()) else {
        return Err(StepError::Memory);
    };
    write_noted(
        store,
        journal,
        tip,
        name.as_str(),
        text.as_slice(),
        Entry::Document(noted),
    )
}
