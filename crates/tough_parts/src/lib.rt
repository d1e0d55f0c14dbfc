//! A repository taken apart: what its loader leaves, and what its editor begins with.
#![tactic(auto)]

use tough_net::Limits;
use tough_roles::{Root, Signed, Snapshot, Timestamp};
use tough_schema::Targets;

/// The parts of a loaded repository: how its files are fetched, and the four top-level documents.
#[derive(Drop)]
pub struct RepositoryParts<T> {
    /// What fetches the files.
    pub transport: T,
    /// What was accepted at most.
    pub limits: Limits,
    /// The root.
    pub root: Signed<Root>,
    /// The timestamp.
    pub timestamp: Signed<Timestamp>,
    /// The snapshot.
    pub snapshot: Signed<Snapshot>,
    /// The targets, with the documents of their delegated roles.
    pub targets: Signed<Targets>,
}
