//! The checks of the steps, in their order.

ghost use Rattle.std.specs.Prelude.{◌≡◌, ◌==◌, true, not, Ok, Err, IfOk};
ghost use Rattle.tough_roles.specs.Signature.{signed_doc};
ghost use Rattle.tough_roles.specs.Root.{root_doc};
ghost use Rattle.tough_roles.specs.Timestamp.{timestamp_doc};
ghost use Rattle.tough_roles.specs.Verdict.{Answers};
ghost use Rattle.tough_checks.specs.Documents.{timestamp_verdict};
ghost use Rattle.tough_checks.specs.Versions.{pair_of, pair_where, time_where};
ghost use Rattle.tough_checks.specs.Checks.{Checked, RefusedBy, VersionMismatch, refuse, verified, expiry, later, time_after, snapshot_version, timestamp_form, timestamp_first, timestamp_older, timestamp_below, timestamp_against, timestamp_tip, timestamp_after, timestamp_where, enforces};
ghost use Rattle.tough_roles.specs.declared.error.Error.TheVariants as error;
ghost use Rattle.tough_checks.specs.declared.checks.StepError.TheVariants as step;
ghost use Rattle.tough_checks.specs.declared.checks.StepError.TheVariants.{Refused};

use crate::versions::TimestampVersions;
use jiff::Timestamp as Instant;
use std::alloc::Global;
use tough_roles::{Error, RoleType, Root, Signed, Timestamp, Verify};

/// Whether a document that has expired is refused.
#[derive(Clone, Copy, Debug, PartialEq, Eq, Drop)]
pub enum ExpirationEnforcement {
    /// It is refused.
    Safe,
    /// It is accepted.
    Unsafe,
}

impl Default for ExpirationEnforcement {
    ghost is_default = { λ e. enforces e ≡ true };

    fn default() -> ExpirationEnforcement {
        ExpirationEnforcement::Safe
    }
}

impl From<bool> for ExpirationEnforcement {
    ghost from_gives = { λ refused e. enforces e ≡ refused };

    fn from(refused: bool) -> ExpirationEnforcement {
        if refused {
            ExpirationEnforcement::Safe
        } else {
            ExpirationEnforcement::Unsafe
        }
    }
}

impl From<ExpirationEnforcement> for bool {
    ghost from_gives = { λ e refused. refused ≡ enforces e };

    fn from(enforcement: ExpirationEnforcement) -> bool {
        enforcement == ExpirationEnforcement::Safe
    }
}

/// A check of a step that refused (TUF specification 5.3 to 5.6).
#[derive(Debug, Drop, thiserror::Error)]
pub enum Refusal {
    /// A later time than this moment was noted before.
    #[error("System time stepped backward: {sys_time} is before {latest_known_time} (latest_known_time.json)")]
    SystemTimeSteppedBackward {
        /// This moment.
        sys_time: Instant,
        /// The later one.
        latest_known_time: Instant,
    },
    /// What is to be stored has no JSON text.
    #[error("Failed to serialize metadata to JSON for the store")]
    DatastoreSerialize,
    /// The document isn't signed as the root demands.
    #[error("Failed to verify {} metadata: {source}", .role.name())]
    VerifyMetadata {
        /// The document's role.
        role: RoleType,
        /// What was wrong.
        source: Error,
    },
    /// The document hasn't the version under which it is listed.
    #[error("{} metadata version mismatch: fetched {fetched}, expected {expected}", .role.name())]
    VersionMismatch {
        /// The document's role.
        role: RoleType,
        /// Its version.
        fetched: u64,
        /// The listed one.
        expected: u64,
    },
    /// A timestamp doesn't list exactly one name.
    #[error("Timestamp version {version} meta length {meta_length} is not exactly one")]
    TimestampMetaLength {
        /// The timestamp's version.
        version: u64,
        /// How many names it lists.
        meta_length: usize,
    },
    /// A timestamp doesn't list `snapshot.json`.
    #[error("No snapshot meta in timestamp.json version {version}")]
    MissingSnapshotMeta {
        /// The timestamp's version.
        version: u64,
    },
    /// A snapshot doesn't list `targets.json`.
    #[error("Snapshot version {version} does not contain targets.json")]
    SnapshotTargetsMetaMissing {
        /// The snapshot's version.
        version: u64,
    },
    /// The document is older than one that was accepted before.
    #[error("Found version {new_version} of {} metadata when we had previously fetched version {current_version}", .role.name())]
    OlderMetadata {
        /// The document's role.
        role: RoleType,
        /// The version that was accepted before.
        current_version: u64,
        /// The document's version.
        new_version: u64,
    },
    /// The timestamp names an older snapshot than one that was accepted before.
    #[error("Snapshot version {snapshot_new} in timestamp {timestamp_new} is less than {snapshot_old} in timestamp {timestamp_old}")]
    OlderSnapshotInTimestamp {
        /// The snapshot's version in the new timestamp.
        snapshot_new: u64,
        /// The new timestamp's version.
        timestamp_new: u64,
        /// The snapshot's version in the old timestamp.
        snapshot_old: u64,
        /// The old timestamp's version.
        timestamp_old: u64,
    },
    /// A name that the old snapshot lists is missing from the new one.
    #[error("Role {role} appears in snapshot version {old_version} but not version {new_version}")]
    SnapshotRoleMissing {
        /// The name.
        role: String,
        /// The old snapshot's version.
        old_version: u64,
        /// The new snapshot's version.
        new_version: u64,
    },
    /// The new snapshot lists a lower version for a name.
    #[error("Role {role} version {old_role_version} in snapshot {old_snapshot_version} is greater than version {new_role_version} in snapshot {new_snapshot_version}")]
    SnapshotRoleRollback {
        /// The name.
        role: String,
        /// Its version in the old snapshot.
        old_role_version: u64,
        /// The old snapshot's version.
        old_snapshot_version: u64,
        /// Its version in the new snapshot.
        new_role_version: u64,
        /// The new snapshot's version.
        new_snapshot_version: u64,
    },
    /// The document expired before the update began.
    #[error("{} metadata is expired: its expiry is {expires}, and the update began at {now}", .role.name())]
    ExpiredMetadata {
        /// The document's role.
        role: RoleType,
        /// Its expiry.
        expires: Instant,
        /// When the update began.
        now: Instant,
    },
}

/// Why a step was refused.
#[derive(Debug, Drop, thiserror::Error)]
pub enum StepError {
    /// A check refused.
    #[error("{0}")]
    Refused(Refusal),
    /// The store couldn't read a file.
    #[error("Failed to open {path} in the store")]
    DatastoreOpen {
        /// The file's name.
        path: String,
    },
    /// The store couldn't write a file.
    #[error("Failed to write {path} in the store")]
    DatastoreCreate {
        /// The file's name.
        path: String,
    },
    /// The store couldn't remove a file.
    #[error("Failed to remove {path} from the store")]
    DatastoreRemove {
        /// The file's name.
        path: String,
    },
    /// A request for memory was refused.
    #[error("out of memory")]
    Memory,
}

impl From<Refusal> for StepError {
    ghost from_gives = { λ r e. e ≡ Refused r };

    fn from(refusal: Refusal) -> StepError {
        StepError::Refused(refusal)
    }
}

/// The version of the snapshot that a timestamp names; 0 where it names none.
pub fn snapshot_version(timestamp: &Timestamp) -> u64
    ensures { result ≡ snapshot_version (timestamp_doc timestamp.now) }
{
    match timestamp.metafile("snapshot.json") {
        Some(snapshot) => snapshot.version.get(),
        None => 0,
    }
}

// A timestamp lists exactly `snapshot.json`.
fn check_form(timestamp: &Timestamp) -> Result<(), Refusal>
    ensures { RefusedBy (timestamp_form (timestamp_doc timestamp.now)) result }
{
    let version = timestamp.version.get();
    let meta_length = timestamp.meta.len();
    if meta_length != 1 {
        return Err(Refusal::TimestampMetaLength {
            version,
            meta_length,
        });
    }
    if timestamp.metafile("snapshot.json").is_none() {
        return Err(Refusal::MissingSnapshotMeta { version });
    }
    Ok(())
}

/// A document of this role is signed as its keys and threshold demand, by what its verification answers: else `VerifyMetadata` with the
/// refusal, or `Memory` (TUF specification 5.3 to 5.6).
pub fn check_signed<A>(role: RoleType, answer: Result<A, Error>) -> Result<A, StepError>
    ensures signed { (verdict : _) → Answers answer verdict
        → Checked (verified role verdict) result }
    ensures memory { result ≡ Err step.Memory → answer ≡ Err error.Memory }
    ensures given { IfOk result (λ found. answer ≡ Ok found) }
{
    match answer {
        Ok(found) => Ok(found),
        Err(Error::Memory) => Err(StepError::Memory),
        Err(source) => Err(StepError::Refused(Refusal::VerifyMetadata { role, source })),
    }
}

/// A document has the version under which it is listed, or else `VersionMismatch` (TUF specification 5.5.4 and 5.6.4).
pub fn check_version(role: RoleType, fetched: u64, listed: u64) -> Result<(), Refusal>
    ensures { RefusedBy (refuse (not (fetched == listed)) (VersionMismatch role fetched listed))
        result }
{
    if fetched != listed {
        return Err(Refusal::VersionMismatch {
            role,
            fetched,
            expected: listed,
        });
    }
    Ok(())
}

/// Before the stored timestamp is read.
pub fn check_timestamp<V: Verify>(
    alloc: Global,
    verifier: &V,
    root: &Root,
    new: &Signed<Timestamp>,
) -> Result<(), StepError>
    ensures { Checked (timestamp_first
        (timestamp_verdict (V.verifies verifier.now) (root_doc root.now)
        (signed_doc timestamp_doc new.now)) (timestamp_doc new.now.signed)) result }
{
    check_signed(RoleType::Timestamp, root.verify_role(alloc, new, verifier))?;
    Ok(check_form(&new.signed)?)
}

// The timestamp's version isn't lower than an older one's.
fn check_not_older(old: u64, new: &Timestamp) -> Result<(), Refusal>
    ensures { RefusedBy (timestamp_older old (timestamp_doc new.now)) result }
{
    let new_version = new.version.get();
    if new_version < old {
        return Err(Refusal::OlderMetadata {
            role: RoleType::Timestamp,
            current_version: old,
            new_version,
        });
    }
    Ok(())
}

// The snapshot that the timestamp names isn't older than the one of an older timestamp.
fn check_not_below(old: TimestampVersions, new: &Timestamp) -> Result<(), Refusal>
    ensures { RefusedBy (timestamp_below (pair_of old) (timestamp_doc new.now)) result }
{
    let snapshot_new = snapshot_version(new);
    if snapshot_new < old.snapshot {
        return Err(Refusal::OlderSnapshotInTimestamp {
            snapshot_new,
            timestamp_new: new.version.get(),
            snapshot_old: old.snapshot,
            timestamp_old: old.version,
        });
    }
    Ok(())
}

// Against the stored timestamp.
fn check_against(old: &Option<Timestamp>, new: &Timestamp) -> Result<(), Refusal>
    ensures { RefusedBy (timestamp_against (timestamp_where old.now)
        (timestamp_doc new.now)) result }
{
    let Some(old) = old else {
        return Ok(());
    };
    check_not_older(old.version.get(), new)?;
    check_form(old)?;
    let versions = TimestampVersions {
        version: old.version.get(),
        snapshot: snapshot_version(old),
    };
    check_not_below(versions, new)
}

// Against the tip.
fn check_tip(tip: Option<TimestampVersions>, new: &Timestamp) -> Result<(), Refusal>
    ensures { RefusedBy (timestamp_tip (pair_where tip) (timestamp_doc new.now)) result }
{
    let Some(tip) = tip else {
        return Ok(());
    };
    check_not_older(tip.version, new)?;
    check_not_below(tip, new)
}

/// The update began no later than a document of this role expires, where that is enforced, or else `ExpiredMetadata` (TUF specification
/// 5.3.10, 5.4.4, 5.5.6 and 5.6.5).
pub fn check_expiry(
    role: RoleType,
    enforcement: ExpirationEnforcement,
    start: Instant,
    expires: Instant,
) -> Result<(), Refusal>
    ensures { RefusedBy (expiry role (enforces enforcement) start.nanosecond
        expires.nanosecond) result }
{
    match enforcement {
        ExpirationEnforcement::Safe => {
            if expires < start {
                return Err(Refusal::ExpiredMetadata {
                    role,
                    expires,
                    now: start,
                });
            }
            Ok(())
        }
        ExpirationEnforcement::Unsafe => Ok(()),
    }
}

/// After the stored timestamp was read: against it, against the tip, and expiry.
pub fn check_timestamp_late(
    old: &Option<Timestamp>,
    tip: Option<TimestampVersions>,
    new: &Timestamp,
    start: Instant,
    enforcement: ExpirationEnforcement,
) -> Result<(), Refusal>
    ensures { RefusedBy (timestamp_after (timestamp_where old.now) (pair_where tip)
        (timestamp_doc new.now) start.nanosecond (enforces enforcement)) result }
{
    check_against(old, new)?;
    check_tip(tip, new)?;
    check_expiry(RoleType::Timestamp, enforcement, start, new.expires)
}

// No later time was noted.
fn check_not_later(known: Option<Instant>, now: Instant) -> Result<(), Refusal>
    ensures { RefusedBy (later (time_where known) now.nanosecond) result }
{
    if let Some(latest_known_time) = known {
        if now < latest_known_time {
            return Err(Refusal::SystemTimeSteppedBackward {
                sys_time: now,
                latest_known_time,
            });
        }
    }
    Ok(())
}

/// The stored time, then the tip's, isn't later.
pub fn check_time(
    stored: Option<Instant>,
    tip: Option<Instant>,
    now: Instant,
) -> Result<(), Refusal>
    ensures { RefusedBy (time_after (time_where stored) (time_where tip) now.nanosecond) result }
{
    check_not_later(stored, now)?;
    check_not_later(tip, now)
}
