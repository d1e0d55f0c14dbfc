//! The members that each role has.

ghost use Rattle.std.specs.Prelude.{◌≡◌, Some, Ok, Err, option_and_then, string_bytes};
ghost use Rattle.std.specs.Int.NonZero.{non_zero_u64_get};
ghost use Rattle.serde_json.specs.View.{members_view};
ghost use Rattle.tough_json.specs.Moment.{moment_text};
ghost use Rattle.tough_json.specs.Results.{Takes, Writes};
ghost use Rattle.tough_json.specs.Writing.{with};
ghost use Rattle.tough_roles.specs.Head.{Head, head_at, head_json, with_moment};

use serde_json::{Map, Value};
use std::alloc::Global;
use std::num::NonZeroU64;
use tough_json::error::{ReadError, WriteError};
use tough_json::member::{instant, positive, take, text};
use tough_json::moment::{MomentError, moment_text};
use tough_json::write::{positive_value, with, with_text};

/// The version of the specification, the version, and when the role expires; the member `_type` is dropped.
#[tactic(auto, unfolding(crate::specs::Head::head_at))]
pub fn head_of(
    alloc: Global,
    members: &mut Map<String, Value>,
) -> Result<(String, NonZeroU64, jiff::Timestamp), ReadError>
    ensures { Takes (λ p. record {
      spec_version = string_bytes p.0;
      version = non_zero_u64_get p.1;
      expires = p.2.nanosecond;
    }) result (members_view members.new.entries) (head_at (members_view members.old.entries)) }
{
    let spec_version = text(alloc, members, "spec_version")?;
    let version = positive(alloc, members, "version")?;
    let expires = instant(alloc, members, "expires")?;
    drop(take(members, "_type"));
    Ok((spec_version, version, expires))
}

// One more member that is an instant.
fn with_instant(
    alloc: Global,
    members: Map<String, Value>,
    name: &str,
    instant: jiff::Timestamp,
) -> Result<Map<String, Value>, WriteError>
    ensures { Writes (λ m. members_view m.entries) result
        (with_moment name.now instant.nanosecond (members_view members.entries)) }
{
    match moment_text(alloc, instant) {
        Ok(text) => with(alloc, members, name, Value::String(text)),
        Err(MomentError::Memory) => Err(WriteError::Memory),
        Err(MomentError::Year) => Err(WriteError::Unwritable),
    }
}

/// The members with those of a role's head, and the role's name as `_type`.
#[tactic(auto, unfolding(crate::specs::Head::head_json))]
pub fn with_head(
    alloc: Global,
    members: Map<String, Value>,
    kind: &str,
    spec_version: &str,
    version: NonZeroU64,
    expires: jiff::Timestamp,
) -> Result<Map<String, Value>, WriteError>
    ensures { Writes (λ m. members_view m.entries) result
        (head_json kind.now (record {
          spec_version = spec_version.now;
          version = non_zero_u64_get version;
          expires
              = expires.nanosecond;
        }) (members_view members.entries)) }
{
    let typed = with_text(alloc, members, "_type", kind)?;
    let expires = with_instant(alloc, typed, "expires", expires)?;
    let value = positive_value(version);
    let version = with(alloc, expires, "version", value)?;
    with_text(alloc, version, "spec_version", spec_version)
}
