//! What is checked before a document is stored: the versions, the expiry and the lists, against what the store holds and what was accepted
//! last (TUF specification 5.3 to 5.6).
#![tactic(auto)]

mod checker;
mod checks;
mod document_name;
mod root_checks;
mod rotation;
mod snapshot_checks;
mod stored;
mod stored_root;
mod versions;

pub use checker::Checker;
pub use checks::{
    ExpirationEnforcement, Refusal, StepError, check_expiry, check_signed, check_time,
    check_timestamp, check_timestamp_late, check_version, snapshot_version,
};
pub use document_name::DocumentName;
pub use root_checks::{check_root, check_root_late};
pub use rotation::{is_rotated, rotates};
pub use snapshot_checks::{check_snapshot, check_snapshot_late, read_snapshot, versions_of};
pub use stored::{read_time, read_timestamp};
pub use stored_root::{newer_root, read_root};
pub use versions::{ListedVersion, SnapshotVersions, TimestampVersions};
