//! What failed updates, and the steps and checks in them, are in the wide error.

ghost use Rattle.std.specs.Prelude.{◌≡◌, Some};
ghost use Rattle.tough_checks.specs.Checks.{reason_of};
ghost use Rattle.tough_trust.specs.Failure.{Checked, failure_of, step_failure};
ghost use Rattle.tough_trust.specs.Wide.{failure_in};

use crate::error::UpdateError;
use tough_error::Error;
use tough_vault::{Refusal, StepError};

fn check_error(refusal: Refusal) -> Error
    ensures { failure_in result ≡ Some (Checked (reason_of refusal)) }
{
    match refusal {
        Refusal::SystemTimeSteppedBackward {
            sys_time,
            latest_known_time,
        } => {
            Error::SystemTimeSteppedBackward {
                sys_time,
                latest_known_time,
            }
        }
        Refusal::DatastoreSerialize => Error::DatastoreSerialize,
        Refusal::VerifyMetadata { role, source } => Error::VerifyMetadata { role, source },
        Refusal::VersionMismatch {
            role,
            fetched,
            expected,
        } => {
            Error::VersionMismatch {
                role,
                fetched,
                expected,
            }
        }
        Refusal::TimestampMetaLength {
            version,
            meta_length,
        } => {
            Error::TimestampMetaLength {
                version,
                meta_length,
            }
        }
        Refusal::MissingSnapshotMeta { version } => Error::MissingSnapshotMeta { version },
        Refusal::SnapshotTargetsMetaMissing { version } => {
            Error::SnapshotTargetsMetaMissing { version }
        }
        Refusal::OlderMetadata {
            role,
            current_version,
            new_version,
        } => {
            Error::OlderMetadata {
                role,
                current_version,
                new_version,
            }
        }
        Refusal::OlderSnapshotInTimestamp {
            snapshot_new,
            timestamp_new,
            snapshot_old,
            timestamp_old,
        } => {
            Error::OlderSnapshotInTimestamp {
                snapshot_new,
                timestamp_new,
                snapshot_old,
                timestamp_old,
            }
        }
        Refusal::SnapshotRoleMissing {
            role,
            old_version,
            new_version,
        } => {
            Error::SnapshotRoleMissing {
                role,
                old_version,
                new_version,
            }
        }
        Refusal::SnapshotRoleRollback {
            role,
            old_role_version,
            old_snapshot_version,
            new_role_version,
            new_snapshot_version,
        } => Error::SnapshotRoleRollback {
            role,
            old_role_version,
            old_snapshot_version,
            new_role_version,
            new_snapshot_version,
        },
        Refusal::ExpiredMetadata { role, expires, now } => {
            Error::ExpiredMetadata { role, expires, now }
        }
    }
}

fn step_error(error: StepError) -> Error
    ensures { failure_in result ≡ Some (step_failure error) }
{
    match error {
        StepError::Refused(refusal) => check_error(refusal),
        StepError::DatastoreOpen { path } => Error::DatastoreOpen { path },
        StepError::DatastoreCreate { path } => Error::DatastoreCreate { path },
        StepError::DatastoreRemove { path } => Error::DatastoreRemove { path },
        StepError::Memory => Error::Memory,
    }
}

impl From<UpdateError> for Error {
    ghost from_gives = { λ u e. failure_in e ≡ Some (failure_of u) };

    fn from(error: UpdateError) -> Error {
        match error {
            UpdateError::ParseTrustedMetadata { source } => Error::ParseTrustedMetadata { source },
            UpdateError::VerifyTrustedMetadata { source } => {
                Error::VerifyTrustedMetadata { source }
            }
            UpdateError::ParseMetadata { role, source } => Error::ParseMetadata { role, source },
            UpdateError::MaxUpdatesExceeded { max_root_updates } => {
                Error::MaxUpdatesExceeded { max_root_updates }
            }
            UpdateError::ParseUrl { url, source } => Error::ParseUrl { url, source },
            UpdateError::JoinUrl { path, source } => Error::JoinUrl { path, source },
            UpdateError::Transport { source } => Error::Transport { source },
            UpdateError::InvalidPath { source } => Error::InvalidPath { source },
            UpdateError::Step(error) => step_error(error),
            UpdateError::Memory => Error::Memory,
        }
    }
}
