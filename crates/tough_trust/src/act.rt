//! The steps of an update on a store.

use jiff::Timestamp as Instant;
use tough_roles::{Root, Signed, Snapshot, Timestamp, Written};
use tough_schema::Targets;
use tough_vault::{DocumentName, ExpirationEnforcement};

/// A step on the store.
#[derive(Drop)]
pub enum Act<'a> {
    /// To note the time.
    NoteTime(Instant),
    /// To store a root.
    PutRoot(&'a Signed<Root>),
    /// To forget timestamp and snapshot.
    ClearRotated,
    /// To accept a timestamp.
    AdvanceTimestamp {
        /// The root that must vouch for it.
        root: &'a Root,
        /// The timestamp.
        new: &'a Signed<Timestamp>,
        /// When the update began.
        start: Instant,
        /// Whether it may have expired.
        enforcement: ExpirationEnforcement,
    },
    /// To accept a snapshot.
    AdvanceSnapshot {
        /// The root that must vouch for it.
        root: &'a Root,
        /// The version that the timestamp lists.
        listed: u64,
        /// The snapshot.
        new: &'a Signed<Snapshot>,
        /// When the update began.
        start: Instant,
        /// Whether it may have expired.
        enforcement: ExpirationEnforcement,
    },
    /// To store the targets.
    PutTargets(&'a Written<Targets>),
    /// To store the document of a delegated role.
    PutDelegated {
        /// The file's name.
        name: &'a DocumentName,
        /// The document.
        targets: &'a Written<Targets>,
    },
}
