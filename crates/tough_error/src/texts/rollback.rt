//! What is older than it may be.
ghost use Rattle.std.specs.Prelude.{◌≡◌};
ghost use Rattle.tough_error.specs.Kinds.{kind_of};

use crate::error::Error;
use crate::kind::ErrorKind;
use std::fmt::{self, Formatter, Write};

pub(crate) fn tell<W: Write>(error: &Error, f: &mut Formatter<W>) -> fmt::Result
    requires { kind_of error.now ≡ ErrorKind.Rollback }
{
    match error {
        Error::SystemTimeSteppedBackward {
            sys_time,
            latest_known_time,
        } => write!(
            f,
            "System time stepped backward: {sys_time} is before {latest_known_time} (latest_known_time.json)"
        ),
        Error::OlderMetadata {
            role,
            current_version,
            new_version,
        } => write!(
            f,
            "Found version {new_version} of {} metadata when we had previously fetched version {current_version}",
            role.name()
        ),
        Error::OlderSnapshotInTimestamp {
            snapshot_new,
            timestamp_new,
            snapshot_old,
            timestamp_old,
        } => write!(
            f,
            "Snapshot version {snapshot_new} in timestamp {timestamp_new} is less than {snapshot_old} in timestamp {timestamp_old}"
        ),
        Error::SnapshotRoleMissing {
            role,
            old_version,
            new_version,
        } => write!(
            f,
            "Role {role} appears in snapshot version {old_version} but not version {new_version}"
        ),
        Error::SnapshotRoleRollback {
            role,
            old_role_version,
            old_snapshot_version,
            new_role_version,
            new_snapshot_version,
        } => write!(
            f,
            "Role {role} version {old_role_version} in snapshot {old_snapshot_version} is greater than version {new_role_version} in snapshot {new_snapshot_version}"
        ),
        _ => unreachable!(),
    }
}
