//! Signed repositories.

ghost use Rattle.std.specs.Prelude.{◌≡◌};
ghost use Rattle.tough_release.specs.Repository.{root_of, targets_of, snapshot_of, timestamp_of, delegated_of};

use tough_roles::{Root, Snapshot, Timestamp};
use tough_schema::Targets;
use tough_signed::{SignedDelegatedTargets, SignedRole};

/// A repository's metadata, signed, each document with its file (TUF specification 1.0, section 4.1).
#[derive(Drop)]
pub struct SignedRepository {
    pub(crate) root: SignedRole<Root>,
    pub(crate) targets: SignedRole<Targets>,
    pub(crate) snapshot: SignedRole<Snapshot>,
    pub(crate) timestamp: SignedRole<Timestamp>,
    pub(crate) delegated: SignedDelegatedTargets,
}

impl SignedRepository {
    /// The root.
    pub fn root(&self) -> &SignedRole<Root>
        ensures { result.now ≡ root_of self.now }
    {
        &self.root
    }

    /// The targets, with the documents of the roles below them.
    pub fn targets(&self) -> &SignedRole<Targets>
        ensures { result.now ≡ targets_of self.now }
    {
        &self.targets
    }

    /// The snapshot.
    pub fn snapshot(&self) -> &SignedRole<Snapshot>
        ensures { result.now ≡ snapshot_of self.now }
    {
        &self.snapshot
    }

    /// The timestamp.
    pub fn timestamp(&self) -> &SignedRole<Timestamp>
        ensures { result.now ≡ timestamp_of self.now }
    {
        &self.timestamp
    }

    /// The documents of the delegated roles, in preorder, each by itself.
    pub fn delegated_targets(&self) -> &SignedDelegatedTargets
        ensures { result.now ≡ delegated_of self.now }
    {
        &self.delegated
    }
}
