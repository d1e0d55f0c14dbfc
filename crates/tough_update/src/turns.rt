//! What an answer makes of a stage.

ghost use Rattle.std.specs.Prelude.{◌≡◌, OnOk, IfErr, Ok, Err, string_bytes};
ghost use Rattle.tough_keys.specs.Same.{Verifies};
ghost use Rattle.tough_roles.specs.Signature.{signed_doc};
ghost use Rattle.tough_roles.specs.Root.{root_doc};
ghost use Rattle.tough_roles.specs.Timestamp.{timestamp_doc};
ghost use Rattle.tough_roles.specs.Snapshot.{snapshot_doc};
ghost use Rattle.tough_checks.specs.Checks.{enforces};
ghost use Rattle.tough_checks.specs.Documents.{timestamp_in, snapshot_in};
ghost use Rattle.tough_roles.specs.Timestamp.{metafile_in};
ghost use Rattle.tough_checks.specs.Files.{snapshot_file, targets_file};
ghost use Rattle.tough_trust.specs.Failure.{Gives};
ghost use Rattle.tough_trust.specs.Faults.{ends_start, ends_stream};
ghost use Rattle.tough_trust.specs.View.{request_doc, read_doc, step_doc};
ghost use Rattle.tough_vault.specs.Looking.{look_doc};
ghost use Rattle.tough_update.specs.Machine.{walked, began, root_read, new_root, walk_ended, new_timestamp, want_snapshot, new_snapshot, want_targets, new_targets, unfetched, read_wanted, after, stage_after};
ghost use Rattle.tough_update.specs.Stages.{Step};
ghost use Rattle.tough_update.specs.Answered as got;
ghost use Rattle.tough_roles.specs.declared.role_type.RoleType.TheVariants as types;
ghost use Rattle.tough_update.specs.View.{walk_doc, base_doc, known_doc, wanted_doc, pending_doc, stage_doc, setting_doc};

use crate::extent::Extent;
use crate::roles::{end_targets, give_role, take_role};
use crate::stage::{Base, Known, Pending, Stage, Walk, Wanted};
use jiff::Timestamp as Instant;
use std::alloc::Global;
use tough_roles::{ReadError, RoleType, Root, Signed, Snapshot, Timestamp, Verify};
use tough_trust::{
    Fault, Limits, Request, UpdateError, first_root, holder_of, next_request, next_root,
    snapshot_request, targets_from, targets_request, timestamp_request,
};
use tough_vault::{Checker, ExpirationEnforcement, Refusal, StepError, check_expiry};

/// What the caller set.
#[derive(Clone, Copy, Drop)]
pub(crate) struct Setting<'a> {
    pub(crate) alloc: Global,
    pub(crate) trusted: &'a [u8],
    pub(crate) limits: Limits,
    pub(crate) enforcement: ExpirationEnforcement,
    pub(crate) extent: Extent,
}

/// The walk goes on from a root, or ends where there is no later version.
fn go_on(alloc: Global, limits: &Limits, walk: Walk) -> Result<Stage, UpdateError>
    ensures { Gives stage_doc (walked limits.now (walk_doc walk)) result }
{
    let first = walk.first.signed.version.get();
    let last = walk.last().signed.version.get();
    match next_request(alloc, limits, first, last) {
        Ok(Some(request)) => Ok(Stage::Fetch(Wanted::Root(walk), request)),
        Ok(None) => Ok(Stage::Step(Pending::PutLast(walk))),
        Err(error) => {
            drop(walk);
            Err(error)
        }
    }
}

/// The root that was handed in stands.
fn begin<V: Verify>(
    alloc: Global,
    trusted: &[u8],
    start: Instant,
    verifier: &V,
) -> Result<Stage, UpdateError>
    ensures { Gives stage_doc
        (began (V.verifies verifier.now) trusted.now start.nanosecond) result }
{
    match first_root(alloc, trusted, verifier) {
        Ok(first) => Ok(Stage::ReadRoot(Walk {
            start,
            first,
            later: None,
        })),
        Err(error) => Err(error),
    }
}

/// The walk begins, with the stored root where there is one.
pub(crate) fn take_stored(
    alloc: Global,
    limits: &Limits,
    walk: Walk,
    stored: Result<Option<Signed<Root>>, StepError>,
) -> Result<Stage, UpdateError>
    ensures { Gives stage_doc
        (root_read limits.now (walk_doc walk) (read_doc (look_doc stored))) result }
{
    match stored {
        Ok(None) => go_on(alloc, limits, walk),
        Ok(Some(first)) => {
            let start = walk.start;
            drop(walk);
            let walk = Walk {
                start,
                first,
                later: None,
            };
            go_on(alloc, limits, walk)
        }
        Err(error) => {
            drop(walk);
            Err(UpdateError::from(error))
        }
    }
}

fn take_root<V: Verify>(
    alloc: Global,
    walk: Walk,
    bytes: &[u8],
    verifier: &V,
) -> Result<Stage, UpdateError>
    ensures { Gives stage_doc
        (new_root (V.verifies verifier.now) (walk_doc walk) bytes.now) result }
{
    let root = match next_root(alloc, &walk.last().signed, bytes, verifier) {
        Ok(root) => root,
        Err(error) => return Err(error),
    };
    let Walk {
        start,
        first,
        later: _,
    } = walk;
    Ok(Stage::Step(Pending::PutRoot(Walk {
        start,
        first,
        later: Some(root),
    })))
}

/// The last root was stored.
fn end_walk(
    alloc: Global,
    limits: &Limits,
    enforcement: ExpirationEnforcement,
    walk: Walk,
) -> Result<Stage, UpdateError>
    ensures { Gives stage_doc
        (walk_ended limits.now (enforces enforcement) (walk_doc walk)) result }
{
    let last = &walk.last().signed;
    if let Err(refusal) = check_expiry(RoleType::Root, enforcement, walk.start, last.expires) {
        return Err(UpdateError::Step(StepError::Refused(refusal)));
    }
    let request = timestamp_request(alloc, limits)?;
    Ok(Stage::Fetch(Wanted::Timestamp(walk.into_base()), request))
}

fn take_timestamp(alloc: Global, base: Base, bytes: &[u8]) -> Result<Stage, UpdateError>
    ensures { Gives stage_doc (new_timestamp (base_doc base) bytes.now) result }
{
    match Signed::<Timestamp>::read(alloc, bytes) {
        Ok(timestamp) => Ok(Stage::Step(Pending::PutTimestamp(base, timestamp))),
        Err(ReadError::Memory) => Err(UpdateError::Memory),
        Err(source) => Err(UpdateError::ParseMetadata {
            role: RoleType::Timestamp,
            source,
        }),
    }
}

/// The timestamp was accepted.
fn go_to_snapshot(
    alloc: Global,
    limits: &Limits,
    base: Base,
    timestamp: Signed<Timestamp>,
) -> Result<Stage, UpdateError>
    ensures { Gives stage_doc
        (want_snapshot limits.now (base_doc base) (signed_doc timestamp_doc timestamp)
        (metafile_in (timestamp_doc timestamp.signed).meta snapshot_file)) result }
{
    let Some(meta) = timestamp.signed.metafile("snapshot.json") else {
        return Err(UpdateError::from(Refusal::MissingSnapshotMeta {
            version: timestamp.signed.version.get(),
        }));
    };
    let consistent = base.root.signed.consistent_snapshot;
    let request = snapshot_request(alloc, limits, consistent, meta)?;
    let version = meta.version.get();
    Ok(Stage::Fetch(Wanted::Snapshot(base, timestamp, version), request))
}

fn take_snapshot(
    alloc: Global,
    base: Base,
    timestamp: Signed<Timestamp>,
    listed: u64,
    bytes: &[u8],
) -> Result<Stage, UpdateError>
    ensures { Gives stage_doc
        (new_snapshot (base_doc base) (signed_doc timestamp_doc timestamp)
        listed bytes.now) result }
{
    match Signed::<Snapshot>::read(alloc, bytes) {
        Ok(snapshot) => {
            let Base { start, root } = base;
            let known = Known {
                start,
                root,
                timestamp,
                snapshot,
            };
            Ok(Stage::Step(Pending::PutSnapshot(known, listed)))
        }
        Err(ReadError::Memory) => Err(UpdateError::Memory),
        Err(source) => Err(UpdateError::ParseMetadata {
            role: RoleType::Snapshot,
            source,
        }),
    }
}

/// The snapshot was accepted.
fn go_to_targets(alloc: Global, limits: &Limits, known: Known) -> Result<Stage, UpdateError>
    ensures { Gives stage_doc
        (want_targets limits.now (known_doc known)
        (metafile_in (snapshot_doc known.snapshot.signed).meta targets_file)) result }
{
    let Some(meta) = known.snapshot.signed.metafile("targets.json") else {
        return Err(UpdateError::from(Refusal::SnapshotTargetsMetaMissing {
            version: known.snapshot.signed.version.get(),
        }));
    };
    let consistent = known.root.signed.consistent_snapshot;
    let request = targets_request(alloc, limits, consistent, meta)?;
    let version = meta.version.get();
    Ok(Stage::Fetch(Wanted::Targets(known, version), request))
}

fn take_targets<V: Verify>(
    setting: &Setting<'_>,
    known: Known,
    listed: u64,
    bytes: Vec<u8>,
    verifier: &V,
) -> Result<Stage, UpdateError>
    ensures { Gives stage_doc
        (new_targets (V.verifies verifier.now) (enforces setting.now.enforcement) (known_doc known)
        listed bytes.items) result }
{
    let holder = holder_of(&known.root.signed, None);
    let checker = Checker {
        alloc: setting.alloc,
        verifier,
        start: known.start,
        enforcement: setting.enforcement,
    };
    match targets_from(&checker, &holder, listed, bytes) {
        Ok(targets) => Ok(Stage::Step(Pending::PutTargets(known, targets))),
        Err(error) => Err(error),
    }
}

// A fetch that gave no bytes: where it is a root's, it may end the walk.
fn end_fetch(
    wanted: Wanted,
    request: Request,
    ends_walk: bool,
    fault: Fault,
) -> Result<Stage, UpdateError>
    ensures { Gives stage_doc
        (unfetched (wanted_doc wanted) ends_walk (string_bytes request.name) fault) result }
{
    match wanted {
        Wanted::Root(walk) => {
            if ends_walk {
                Ok(Stage::Step(Pending::PutLast(walk)))
            } else {
                Err(fault.into_error(request.name))
            }
        }
        Wanted::Timestamp(_) => Err(fault.into_error(request.name)),
        Wanted::Snapshot(_, _, _) => Err(fault.into_error(request.name)),
        Wanted::Targets(_, _) => Err(fault.into_error(request.name)),
        Wanted::Role(_, _, _) => Err(fault.into_error(request.name)),
    }
}

/// A fetch that didn't start.
pub(crate) fn end_unstarted(
    wanted: Wanted,
    request: Request,
    fault: Fault,
) -> Result<Stage, UpdateError>
    ensures { Gives stage_doc
        (unfetched (wanted_doc wanted) (ends_start fault)
        (string_bytes request.name) fault) result }
{
    let ends = fault.ends_start();
    end_fetch(wanted, request, ends, fault)
}

/// A stream that failed.
pub(crate) fn end_cut(wanted: Wanted, request: Request, fault: Fault) -> Result<Stage, UpdateError>
    ensures { Gives stage_doc
        (unfetched (wanted_doc wanted) (ends_stream fault)
        (string_bytes request.name) fault) result }
{
    let ends = fault.ends_stream();
    end_fetch(wanted, request, ends, fault)
}

/// The bytes of a file.
pub(crate) fn read_wanted<V: Verify>(
    setting: &Setting<'_>,
    wanted: Wanted,
    request: Request,
    bytes: Vec<u8>,
    verifier: &V,
) -> Result<Stage, UpdateError>
    ensures { Gives stage_doc
        (read_wanted (V.verifies verifier.now) (setting_doc setting.now) (wanted_doc wanted)
        (request_doc request) bytes.items) result }
{
    let alloc = setting.alloc;
    let held = bytes.as_slice();
    match wanted {
        Wanted::Root(walk) => take_root(alloc, walk, held, verifier),
        Wanted::Timestamp(base) => take_timestamp(alloc, base, held),
        Wanted::Snapshot(base, timestamp, listed) => {
            take_snapshot(alloc, base, timestamp, listed, held)
        }
        Wanted::Targets(known, listed) => take_targets(setting, known, listed, bytes, verifier),
        Wanted::Role(known, roles, listed) => {
            take_role(setting, known, roles, listed, request.name, bytes, verifier)
        }
    }
}

// A step that was taken.
fn after<V: Verify>(
    setting: &Setting<'_>,
    pending: Pending,
    verifier: &V,
) -> Result<Stage, UpdateError>
    ensures { Gives stage_doc
        (after (V.verifies verifier.now) (setting_doc setting.now) (pending_doc pending)) result }
{
    let alloc = setting.alloc;
    let limits = &setting.limits;
    match pending {
        Pending::NoteTime(now) => begin(alloc, setting.trusted, now, verifier),
        Pending::PutRoot(walk) => go_on(alloc, limits, walk),
        Pending::PutLast(walk) => end_walk(alloc, limits, setting.enforcement, walk),
        Pending::PutTimestamp(base, timestamp) => go_to_snapshot(alloc, limits, base, timestamp),
        Pending::PutSnapshot(known, _) => go_to_targets(alloc, limits, known),
        Pending::PutTargets(known, targets) => {
            end_targets(setting, known, targets.into_document())
        }
        Pending::PutDelegated(known, roles, _, targets) => {
            give_role(alloc, limits, known, roles, targets.into_document())
        }
    }
}

/// The answer of a step.
pub(crate) fn take_step<V: Verify>(
    setting: &Setting<'_>,
    pending: Pending,
    taken: Result<(), StepError>,
    verifier: &V,
) -> Result<Stage, UpdateError>
    ensures { Gives stage_doc
        (stage_after (V.verifies verifier.now) (setting_doc setting.now)
        (Step (pending_doc pending)) (got.Step (step_doc taken))) result }
{
    match taken {
        Ok(()) => after(setting, pending, verifier),
        Err(error) => {
            drop(pending);
            Err(UpdateError::from(error))
        }
    }
}
