//! The next version of a root and of a timestamp.

ghost use Rattle.std.specs.Prelude.{◌≡◌, ◌+◌, ◌^◌, IfErr, OnOk, OnErr, MatchOption};
ghost use Rattle.std.specs.Int.NonZero.{non_zero_u64_get};
ghost use Rattle.tough_roles.specs.Root.{root_doc};
ghost use Rattle.tough_roles.specs.Timestamp.{timestamp_doc};
ghost use Rattle.tough_ceremony.specs.Versions.{next_version, renewed, IsLast};

use crate::error::CeremonyError;
use jiff::Timestamp as Instant;
use std::num::NonZeroU64;
use tough_roles::{Root, Timestamp};

// The version after this one; none where it is the last one.
fn after(version: NonZeroU64) -> Option<NonZeroU64>
    ensures { MatchOption result (non_zero_u64_get version + 1 ≡ 2 ^ 64)
        (λ next. non_zero_u64_get next ≡ non_zero_u64_get version + 1) }
{
    match version.get().checked_add(1) {
        Some(next) => NonZeroU64::new(next),
        None => None,
    }
}

/// Gives the root the next version (TUF specification 1.0, section 4.3). `LastVersion` where its version is the last of 64 bits; it stays as it is then.
pub fn next_version(root: &mut Root) -> Result<(), CeremonyError>
    ensures next { OnOk result (root_doc root.new ≡ next_version (root_doc root.old)) }
    ensures refused { IfErr result (IsLast (root_doc root.old).head.version) }
    ensures unchanged { OnErr result (root_doc root.new ≡ root_doc root.old) }
{
    match after(root.version) {
        Some(version) => {
            root.version = version;
            Ok(())
        }
        None => Err(CeremonyError::LastVersion),
    }
}

/// Gives the timestamp the next version and this expiry: it leads to the same snapshot as before (TUF specification 1.0, section 4.6). `LastVersion`
/// where its version is the last of 64 bits; it stays as it is then.
pub fn renew_timestamp(timestamp: &mut Timestamp, expires: Instant) -> Result<(), CeremonyError>
    ensures renewed { OnOk result (timestamp_doc timestamp.new
        ≡ renewed expires.nanosecond (timestamp_doc timestamp.old)) }
    ensures refused { IfErr result (IsLast (timestamp_doc timestamp.old).head.version) }
    ensures unchanged { OnErr result
        (timestamp_doc timestamp.new ≡ timestamp_doc timestamp.old) }
{
    match after(timestamp.version) {
        Some(version) => {
            timestamp.version = version;
            timestamp.expires = expires;
            Ok(())
        }
        None => Err(CeremonyError::LastVersion),
    }
}
