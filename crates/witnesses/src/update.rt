//! The laws of an update.

ghost use Rattle.std.specs.Prelude.{◌≡◌, ◌≢◌, ◌<◌, [], true, false, None, Some, IfOk, OnOk, length};
ghost use Rattle.tough_keys.specs.Demo.{demo_verifies};
ghost use Rattle.tough_roles.specs.Chain.{ReachesUnder};
ghost use Rattle.tough_roles.specs.Readable.{IsTextOf};
ghost use Rattle.tough_roles.specs.Root.{root_doc};
ghost use Rattle.tough_roles.specs.Signature.{signed_doc};
ghost use Rattle.tough_roles.specs.Snapshot.{snapshot_doc};
ghost use Rattle.tough_roles.specs.Timestamp.{timestamp_doc, metafile_doc, metafile_in};
ghost use Rattle.tough_schema.specs.Whole.{tree_doc};
ghost use Rattle.tough_checks.specs.Checks.{is_expired};
ghost use Rattle.tough_checks.specs.Files.{snapshot_file, targets_file};
ghost use Rattle.tough_vault.specs.Steps.{time_text};
ghost use Rattle.tough_trust.specs.Requests.{fits_request};
ghost use Rattle.tough_trust.specs.View.{request_doc};
ghost use Rattle.std.specs.Prelude.{option_and_then};
ghost use Rattle.tough_json.specs.Pieces.{text_in};
ghost use Rattle.tough_json.specs.declared.pieces.Form.TheVariants as forms;
ghost use Rattle.tough_roles.specs.Document.{document_json};
ghost use Rattle.tough_roles.specs.Root.{root_json};
ghost use Rattle.tough_roles.specs.Snapshot.{snapshot_json};
ghost use Rattle.tough_roles.specs.Timestamp.{timestamp_json};
ghost use Rattle.tough_roles.specs.declared.role_type.RoleType.TheVariants as types;
ghost use Rattle.tough_schema.specs.Entries.{entry_names, first_missing};
ghost use Rattle.tough_schema.specs.Targets.{targets_doc, targets_json};
ghost use Rattle.tough_checks.specs.Documents.{root_in, root_text, timestamp_in, snapshot_in};
ghost use Rattle.tough_trust.specs.Listed.{targets_in, targets_text};
ghost use Rattle.tough_trust.specs.Requests.{timestamp_request, snapshot_request, targets_request};
ghost use Rattle.witnesses.specs.Served.{HasLoadable};

use crate::Unmet;
use jiff::Timestamp as Instant;
use std::alloc::Global;
use tough_net::Limits;
use tough_roles::{DemoVerify, Metafile, Role, RoleType, Root, Signed, Snapshot, Timestamp};
use tough_schema::Targets;
use tough_trust::{Request, check_tree, snapshot_request, targets_request, timestamp_request};
use tough_vault::{ExpirationEnforcement, MemoryStore, Vault, check_expiry};

// A document that hasn't expired by then.
fn in_time(role: RoleType, start: Instant, expires: Instant) -> Result<(), Unmet>
    ensures { OnOk result (is_expired true start.nanosecond expires.nanosecond ≡ false) }
{
    match check_expiry(role, ExpirationEnforcement::Safe, start, expires) {
        Ok(()) => Ok(()),
        Err(_) => Err(Unmet::Input),
    }
}

// Limits that let a root be asked for.
fn has_update(limits: &Limits) -> Result<(), Unmet>
    ensures { OnOk result (0 < limits.now.max_root_updates) }
{
    if limits.max_root_updates == 0 {
        return Err(Unmet::Input);
    }
    Ok(())
}

// A moment that has a text in a store.
fn has_text(alloc: Global, start: Instant) -> Result<(), Unmet>
    ensures { OnOk result (time_text start.nanosecond ≢ None) }
{
    let mut vault = Vault::new(alloc, MemoryStore::new(alloc));
    match vault.note_time(start) {
        Ok(_) => Ok(()),
        Err(_) => Err(Unmet::Input),
    }
}

// Bytes that fit what is asked for.
fn fits(request: &Request, bytes: &[u8]) -> Result<(), Unmet>
    ensures { OnOk result (fits_request (request_doc request.now) bytes.now ≡ true) }
{
    if request.fits(bytes) {
        Ok(())
    } else {
        Err(Unmet::Input)
    }
}

// A document that has a compact text.
fn is_written<T: Role>(alloc: Global, document: &Signed<T>) -> Result<(), Unmet>
    ensures { OnOk result (option_and_then (text_in forms.Compact) (document_json T.json document.now)
        ≢ None) }
{
    match document.compact(alloc) {
        Ok(_) => Ok(()),
        Err(_) => Err(Unmet::Input),
    }
}

// The document that the bytes are, signed as the root demands and not expired.
fn document<T: Role + Drop>(
    alloc: Global,
    root: &Root,
    start: Instant,
    bytes: &[u8],
) -> Result<Signed<T>, Unmet>
    ensures read { IfOk result (λ s. IsTextOf T.is_read s bytes.now) }
    ensures fresh { IfOk result (λ s. T.is_fresh s.signed) }
    ensures signed { IfOk result (λ s. ReachesUnder demo_verifies (root_doc root.now) T.TYPE T.json
        (signed_doc (λ x. x) s)) }
    ensures in_time { IfOk result
        (λ s. is_expired true start.nanosecond (T.head s.signed).expires ≡ false) }
{
    let document = match Signed::<T>::read(alloc, bytes) {
        Ok(document) => document,
        Err(_) => return Err(Unmet::Input),
    };
    if root.verify_role(alloc, &document, &DemoVerify).is_err() {
        return Err(Unmet::Input);
    }
    in_time(T::TYPE, start, document.signed.expires())?;
    Ok(document)
}

// A root of version 1, whose snapshots aren't consistent, and that hasn't expired by then.
fn is_first(start: Instant, root: &Root) -> Result<(), Unmet>
    ensures in_time { OnOk result
        (is_expired true start.nanosecond (root_doc root.now).head.expires ≡ false) }
    ensures first { OnOk result ((root_doc root.now).head.version ≡ 1) }
    ensures plain { OnOk result ((root_doc root.now).consistent_snapshot ≡ false) }
{
    in_time(RoleType::Root, start, root.expires)?;
    if root.version.get() != 1 {
        return Err(Unmet::Input);
    }
    if root.consistent_snapshot {
        return Err(Unmet::Input);
    }
    Ok(())
}

// The root that the bytes are, if it verifies itself.
#[tactic(auto, using(crate::proofs::Plain::reads, crate::proofs::Plain::under))]
fn root_of(alloc: Global, bytes: &[u8]) -> Result<Signed<Root>, Unmet>
    ensures reading { IfOk result (λ s. root_in bytes.now ≡ Some (signed_doc root_doc s)) }
    ensures signed { IfOk result (λ s. ReachesUnder demo_verifies (root_doc s.signed) types.Root
        root_json (signed_doc root_doc s)) }
{
    let Ok(root) = Signed::<Root>::read(alloc, bytes) else {
        return Err(Unmet::Input);
    };
    if root.signed.verify_role(alloc, &root, &DemoVerify).is_err() {
        return Err(Unmet::Input);
    }
    Ok(root)
}

// The root that is handed in.
#[tactic(auto, using(crate::proofs::Plain::reads, crate::proofs::Plain::under))]
pub(crate) fn root_in(alloc: Global, start: Instant, bytes: &[u8]) -> Result<Signed<Root>, Unmet>
    ensures reading { IfOk result (λ s. root_in bytes.now ≡ Some (signed_doc root_doc s)) }
    ensures signed { IfOk result (λ s. ReachesUnder demo_verifies (root_doc s.signed) types.Root
        root_json (signed_doc root_doc s)) }
    ensures in_time { IfOk result
        (λ s. is_expired true start.nanosecond (root_doc s.signed).head.expires ≡ false) }
    ensures stored { IfOk result (λ s. root_text (signed_doc root_doc s) ≢ None) }
    ensures first { IfOk result (λ s. (root_doc s.signed).head.version ≡ 1) }
    ensures plain { IfOk result (λ s. (root_doc s.signed).consistent_snapshot ≡ false) }
{
    let root = root_of(alloc, bytes)?;
    is_written(alloc, &root)?;
    is_first(start, &root.signed)?;
    Ok(root)
}

// The timestamp.
#[tactic(auto, using(crate::proofs::Plain::reads, crate::proofs::Plain::under))]
pub(crate) fn timestamp_in(
    alloc: Global,
    limits: &Limits,
    root: &Root,
    start: Instant,
    bytes: &[u8],
) -> Result<Signed<Timestamp>, Unmet>
    ensures reading { IfOk result
        (λ s. timestamp_in bytes.now ≡ Some (signed_doc timestamp_doc s)) }
    ensures signed { IfOk result (λ s. ReachesUnder demo_verifies (root_doc root.now) types.Timestamp
        timestamp_json (signed_doc timestamp_doc s)) }
    ensures in_time { IfOk result
        (λ s. is_expired true start.nanosecond (timestamp_doc s.signed).head.expires ≡ false) }
    ensures fits { OnOk result (fits_request (timestamp_request limits.now) bytes.now ≡ true) }
    ensures alone { IfOk result (λ s. length (timestamp_doc s.signed).meta ≡ 1) }
{
    let timestamp = document::<Timestamp>(alloc, root, start, bytes)?;
    let request = timestamp_request(alloc, limits)?;
    fits(&request, bytes)?;
    if timestamp.signed.meta.len() != 1 {
        return Err(Unmet::Input);
    }
    Ok(timestamp)
}

// The snapshot that is listed so.
#[tactic(auto, using(crate::proofs::Plain::reads, crate::proofs::Plain::under))]
pub(crate) fn snapshot_in(
    alloc: Global,
    limits: &Limits,
    root: &Root,
    start: Instant,
    listed: &Metafile,
    bytes: &[u8],
) -> Result<Signed<Snapshot>, Unmet>
    ensures reading { IfOk result
        (λ s. snapshot_in bytes.now ≡ Some (signed_doc snapshot_doc s)) }
    ensures signed { IfOk result (λ s. ReachesUnder demo_verifies (root_doc root.now) types.Snapshot
        snapshot_json (signed_doc snapshot_doc s)) }
    ensures in_time { IfOk result
        (λ s. is_expired true start.nanosecond (snapshot_doc s.signed).head.expires ≡ false) }
    ensures fits { OnOk result (fits_request (snapshot_request limits.now false
        (metafile_doc listed.now)) bytes.now ≡ true) }
    ensures version { IfOk result
        (λ s. (snapshot_doc s.signed).head.version ≡ (metafile_doc listed.now).version) }
{
    let snapshot = document::<Snapshot>(alloc, root, start, bytes)?;
    let request = snapshot_request(alloc, limits, false, listed)?;
    fits(&request, bytes)?;
    if snapshot.signed.version.get() != listed.version.get() {
        return Err(Unmet::Input);
    }
    Ok(snapshot)
}

// Targets that delegate to no role.
fn has_no_role(alloc: Global, targets: &Targets) -> Result<(), Unmet>
    ensures { OnOk result (entry_names (tree_doc targets.now) ≡ []) }
{
    if targets.role_names(alloc)?.is_empty() {
        Ok(())
    } else {
        Err(Unmet::Input)
    }
}

// Targets of which each listed name is found.
fn finds_all(alloc: Global, targets: &Targets) -> Result<(), Unmet>
    ensures { OnOk result (first_missing (tree_doc targets.now) ≡ None) }
{
    match check_tree(alloc, targets) {
        Ok(()) => Ok(()),
        Err(_) => Err(Unmet::Input),
    }
}

// The targets that are listed so, which delegate to no role.
#[tactic(auto, using(crate::proofs::Plain::reads, crate::proofs::Plain::under))]
fn targets_in(
    alloc: Global,
    limits: &Limits,
    root: &Root,
    start: Instant,
    listed: &Metafile,
    bytes: &[u8],
) -> Result<Signed<Targets>, Unmet>
    ensures reading { IfOk result
        (λ s. targets_in bytes.now ≡ Some (signed_doc targets_doc s)) }
    ensures signed { IfOk result (λ s. ReachesUnder demo_verifies (root_doc root.now) types.Targets
        targets_json (signed_doc targets_doc s)) }
    ensures in_time { IfOk result
        (λ s. is_expired true start.nanosecond (targets_doc s.signed).head.expires ≡ false) }
    ensures stored { IfOk result (λ s. targets_text (signed_doc targets_doc s) ≢ None) }
    ensures fits { OnOk result (fits_request (targets_request limits.now false
        (metafile_doc listed.now)) bytes.now ≡ true) }
    ensures version { IfOk result
        (λ s. (targets_doc s.signed).head.version ≡ (metafile_doc listed.now).version) }
    ensures alone { IfOk result (λ s. entry_names (tree_doc s.signed) ≡ []) }
    ensures found { IfOk result (λ s. first_missing (tree_doc s.signed) ≡ None) }
{
    let targets = document::<Targets>(alloc, root, start, bytes)?;
    let request = targets_request(alloc, limits, false, listed)?;
    fits(&request, bytes)?;
    if targets.signed.version().get() != listed.version.get() {
        return Err(Unmet::Input);
    }
    is_written(alloc, &targets)?;
    has_no_role(alloc, &targets.signed)?;
    finds_all(alloc, &targets.signed)?;
    Ok(targets)
}

/// Witness of `tough_update::laws::loads`: documents of a repository that was read, of which all is found out that makes them loadable at
/// this moment.
pub fn loadable(
    alloc: Global,
    limits: &Limits,
    start: Instant,
    trusted: &[u8],
    timestamp: &[u8],
    snapshot: &[u8],
    targets: &[u8],
) -> Result<(), Unmet>
    ensures { OnOk result (HasLoadable demo_verifies start.nanosecond limits.now
        (record { trusted = trusted.now; timestamp = timestamp.now; snapshot = snapshot.now; targets = targets.now })) }
{
    tough_schema::laws::trees_tell_their_top();
    has_update(limits)?;
    has_text(alloc, start)?;
    let root = root_in(alloc, start, trusted)?;
    let first = timestamp_in(alloc, limits, &root.signed, start, timestamp)?;
    let Some(listed) = first.signed.metafile("snapshot.json") else {
        return Err(Unmet::Input);
    };
    let second = snapshot_in(alloc, limits, &root.signed, start, listed, snapshot)?;
    let Some(listed) = second.signed.metafile("targets.json") else {
        return Err(Unmet::Input);
    };
    targets_in(alloc, limits, &root.signed, start, listed, targets)?;
    Ok(())
}
