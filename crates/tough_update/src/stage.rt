//! The stages of an update.

ghost use Rattle.std.specs.Prelude.{◌≡◌, OnOk, OnErr};
ghost use Rattle.tough_checks.specs.Checks.{enforces};
ghost use Rattle.tough_update.specs.Machine.{base_of, act_at};
ghost use Rattle.tough_trust.specs.View.{act_of};
ghost use Rattle.tough_schema.specs.Putting.{IsOpenIn};
ghost use Rattle.tough_schema.specs.Whole.{tree_doc, held_doc};
ghost use Rattle.tough_update.specs.Stages.{with_role};
ghost use Rattle.tough_update.specs.View.{latest, walk_doc, base_doc, pending_doc, start_of, root_of, timestamp_of, snapshot_of, targets_of, received_of, loaded_doc};

use crate::delegations::Growth;
use jiff::Timestamp as Instant;
use std::alloc::AllocError;
use tough_roles::{Root, Signed, Snapshot, Timestamp, Written};
use tough_schema::{DelegatedTargets, Targets};
use tough_trust::{Act, Request, UpdateError};
use tough_vault::{DocumentName, ExpirationEnforcement};

/// A walk from root to root.
#[derive(Drop)]
pub(crate) struct Walk {
    pub(crate) start: Instant,
    /// The root that it began with.
    pub(crate) first: Signed<Root>,
    /// The last root, where it is another one.
    pub(crate) later: Option<Signed<Root>>,
}

/// What is known once the walk has ended.
#[derive(Drop)]
pub(crate) struct Base {
    pub(crate) start: Instant,
    pub(crate) root: Signed<Root>,
}

/// What is known once the snapshot is there.
#[derive(Drop)]
pub(crate) struct Known {
    pub(crate) start: Instant,
    pub(crate) root: Signed<Root>,
    pub(crate) timestamp: Signed<Timestamp>,
    pub(crate) snapshot: Signed<Snapshot>,
}

/// The bytes of a delegated role's document, as they were received.
#[derive(Drop)]
pub struct Received {
    /// The role's name.
    pub role: String,
    /// The bytes.
    pub bytes: Vec<u8>,
}

/// The delegated roles as far as their documents were fetched.
#[derive(Drop)]
pub(crate) struct Roles {
    pub(crate) growth: Growth,
    pub(crate) received: Vec<Received>,
}

/// What an update ends with: the last root, and the documents that it vouches for.
#[derive(Drop)]
pub struct Loaded {
    pub(crate) known: Known,
    pub(crate) targets: Signed<Targets>,
    pub(crate) received: Vec<Received>,
}

/// What a file is fetched for.
#[derive(Drop)]
pub(crate) enum Wanted {
    Root(Walk),
    Timestamp(Base),
    /// The version that the timestamp lists.
    Snapshot(Base, Signed<Timestamp>, u64),
    /// The version that the snapshot lists.
    Targets(Known, u64),
    /// The version that the snapshot lists.
    Role(Known, Roles, u64),
}

/// A step on the store that is to be taken.
#[derive(Drop)]
pub(crate) enum Pending {
    NoteTime(Instant),
    PutRoot(Walk),
    PutLast(Walk),
    PutTimestamp(Base, Signed<Timestamp>),
    PutSnapshot(Known, u64),
    PutTargets(Known, Written<Targets>),
    PutDelegated(Known, Roles, DocumentName, Written<Targets>),
}

/// What an update waits for, with what is known by then.
#[derive(Drop)]
pub(crate) enum Stage {
    Moment,
    /// The walk is at the root that was handed in.
    ReadRoot(Walk),
    Fetch(Wanted, Request),
    Step(Pending),
    Done(Result<Loaded, UpdateError>),
    Taken,
}

impl Walk {
    /// The root that the walk is at.
    pub(crate) fn last(&self) -> &Signed<Root>
        ensures { result.now ≡ latest self.now.first self.now.later }
    {
        match &self.later {
            None => &self.first,
            Some(later) => later,
        }
    }

    /// The end of the walk.
    pub(crate) fn into_base(self) -> Base
        ensures { base_doc result ≡ base_of (walk_doc self) }
    {
        let Walk {
            start,
            first,
            later,
        } = self;
        match later {
            None => Base { start, root: first },
            Some(root) => Base { start, root },
        }
    }
}

impl Pending {
    /// The step.
    pub(crate) fn act(&self, enforcement: ExpirationEnforcement) -> Act<'_>
        ensures { act_of result ≡ act_at (enforces enforcement) (pending_doc self.now) }
    {
        match self {
            Pending::NoteTime(now) => Act::NoteTime(*now),
            Pending::PutRoot(walk) => Act::PutRoot(walk.last()),
            Pending::PutLast(walk) => Act::PutRoot(walk.last()),
            Pending::PutTimestamp(base, timestamp) => Act::AdvanceTimestamp {
                root: &base.root.signed,
                new: timestamp,
                start: base.start,
                enforcement,
            },
            Pending::PutSnapshot(known, listed) => Act::AdvanceSnapshot {
                root: &known.root.signed,
                listed: *listed,
                new: &known.snapshot,
                start: known.start,
                enforcement,
            },
            Pending::PutTargets(_, targets) => Act::PutTargets(targets),
            Pending::PutDelegated(_, _, name, targets) => Act::PutDelegated { name, targets },
        }
    }
}

impl Loaded {
    /// The last root of the walk (TUF 1.0, 5.3).
    pub fn root(&self) -> &Signed<Root>
        ensures { result.now ≡ root_of self.now }
    {
        &self.known.root
    }

    /// The timestamp that the root vouches for.
    pub fn timestamp(&self) -> &Signed<Timestamp>
        ensures { result.now ≡ timestamp_of self.now }
    {
        &self.known.timestamp
    }

    /// The snapshot that the timestamp names.
    pub fn snapshot(&self) -> &Signed<Snapshot>
        ensures { result.now ≡ snapshot_of self.now }
    {
        &self.known.snapshot
    }

    /// The targets that the snapshot names, with the documents of the delegated roles, as far as they were loaded (TUF 1.0, 5.6).
    pub fn targets(&self) -> &Signed<Targets>
        ensures { result.now ≡ targets_of self.now }
    {
        &self.targets
    }

    /// When the update began, by its clock.
    pub fn start(&self) -> Instant
        ensures { result ≡ start_of self.now }
    {
        self.known.start
    }

    /// Puts the document of a delegated role at the end of the way, a place for each list of roles from the targets on, each counted from the
    /// end of its list; and these bytes behind those that were received. It checks nothing: the caller has verified the document. Without
    /// memory nothing changes.
    pub fn put_role(
        &mut self,
        way: &[usize],
        document: Signed<DelegatedTargets>,
        bytes: Vec<u8>,
    ) -> Result<(), AllocError>
        ensures put { OnOk result (IsOpenIn way.now (tree_doc (targets_of self.old).signed)
            → loaded_doc self.new
            ≡ with_role way.now (held_doc document) bytes.items (loaded_doc self.old)) }
        ensures refused { OnErr result (loaded_doc self.new ≡ loaded_doc self.old) }
    {
        let role = document.signed.name.clone()?;
        self.received.push(Received { role, bytes })?;
        self.targets.signed.put_along(way, document);
        Ok(())
    }

    /// The four top-level documents: the root, the timestamp, the snapshot and the targets.
    pub fn into_parts(
        self,
    ) -> (
        Signed<Root>,
        Signed<Timestamp>,
        Signed<Snapshot>,
        Signed<Targets>,
    )
        ensures root { result.0 ≡ root_of self }
        ensures timestamp { result.1 ≡ timestamp_of self }
        ensures snapshot { result.2 ≡ snapshot_of self }
        ensures targets { result.3 ≡ targets_of self }
    {
        let Loaded {
            known,
            targets,
            received: _,
        } = self;
        (known.root, known.timestamp, known.snapshot, targets)
    }

    /// The bytes of the delegated roles' documents, in the order in which they were received; of two of one role the later counts.
    pub fn received(&self) -> &[Received]
        ensures { result.now ≡ received_of self.now }
    {
        &self.received
    }
}
