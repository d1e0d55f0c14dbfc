//! Until when what was loaded serves (TUF specification 5.7).

ghost use Rattle.std.specs.Prelude.{◌≡◌};
ghost use Rattle.tough_client.specs.Timely.{expiry_doc, NotesTimely};
ghost use Rattle.tough_client.specs.Timely as spec;
ghost use Rattle.tough_trust.specs.View.{step_doc};

use jiff::Timestamp as Instant;
use std::alloc::Global;
use tough_roles::{Key, RoleType, Verify};
use tough_trust::{Act, Keeper, take_step};
use tough_vault::{Refusal, StepError};

/// A role, and when its document expires.
#[derive(Clone, Copy, Drop)]
pub(crate) struct Expiry {
    /// The role.
    pub(crate) role: RoleType,
    /// The expiry of its document.
    pub(crate) expires: Instant,
}

// The one that comes first; of two that come at once, the first of them.
fn sooner(first: Expiry, second: Expiry) -> Expiry
    ensures { expiry_doc result ≡ spec.sooner (expiry_doc first) (expiry_doc second) }
{
    if second.expires < first.expires {
        second
    } else {
        first
    }
}

// A role whose document expires then.
fn expiring(role: RoleType, expires: Instant) -> Expiry
    ensures { expiry_doc result ≡ record { role = role; time = expires.nanosecond } }
{
    Expiry { role, expires }
}

/// The role whose document expires first, by the expiries of the four: of two that expire at once, the first of root, timestamp, snapshot
/// and targets.
pub(crate) fn earliest(
    root: Instant,
    timestamp: Instant,
    snapshot: Instant,
    targets: Instant,
) -> Expiry
    ensures { expiry_doc result ≡ spec.earliest root.nanosecond timestamp.nanosecond
        snapshot.nanosecond targets.nanosecond }
{
    let root = expiring(RoleType::Root, root);
    let timestamp = expiring(RoleType::Timestamp, timestamp);
    let snapshot = expiring(RoleType::Snapshot, snapshot);
    let targets = expiring(RoleType::Targets, targets);
    sooner(sooner(sooner(root, timestamp), snapshot), targets)
}

// Takes no signature for one. To note a moment verifies nothing, so it doesn't matter which verifier is handed to that step.
struct Unverified;

impl Verify for Unverified {
    ghost verifies = { λ _. spec.nothing_verifies };

    fn verify(&self, _key: &Key, _msg: &[u8], _sig: &[u8]) -> bool {
        false
    }
}

/// Has the keeper note the moment, and puts its receipt by, after those before it. The moment must be before the expiry, or else
/// `ExpiredMetadata` tells that role; the other refusals are the keeper's own, and put no receipt by.
pub(crate) fn note_timely<K: Keeper>(
    alloc: Global,
    keeper: &mut K,
    receipts: &mut Vec<K::Receipt>,
    now: Instant,
    first: Expiry,
) -> Result<(), StepError>
    ensures { NotesTimely K.keeps (expiry_doc first) now.nanosecond
        (record { keeper = keeper.old; receipts = receipts.old.items }) (step_doc result)
        (record { keeper = keeper.new; receipts = receipts.new.items }) }
{
    take_step(alloc, keeper, &Unverified, receipts, &Act::NoteTime(now))?;
    let Expiry { role, expires } = first;
    if now < expires {
        return Ok(());
    }
    Err(StepError::Refused(Refusal::ExpiredMetadata { role, expires, now }))
}
