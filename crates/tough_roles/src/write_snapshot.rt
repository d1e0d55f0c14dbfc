//! Snapshots, written as JSON.

ghost use Rattle.std.specs.Prelude.{◌≡◌};
ghost use Rattle.serde_json.specs.View.{view};
ghost use Rattle.tough_json.specs.Results.{Writes};
ghost use Rattle.tough_roles.specs.Snapshot.{snapshot_doc, snapshot_json};

use crate::head::with_head;
use crate::snapshot::Snapshot;
use crate::write_timestamp::metafiles_value;
use serde_json::Value;
use std::alloc::Global;
use tough_json::error::WriteError;
use tough_json::write::{copy_members, with};

#[tactic(auto, unfolding(crate::specs::Snapshot::snapshot_json))]
pub(crate) fn snapshot_value(alloc: Global, snapshot: &Snapshot) -> Result<Value, WriteError>
    ensures { Writes view result (snapshot_json (snapshot_doc snapshot.now)) }
{
    let inner = metafiles_value(alloc, &snapshot.meta)?;
    let extra = copy_members(alloc, &snapshot._extra)?;
    let meta = with(alloc, extra, "meta", Value::Object(inner))?;
    let name = snapshot.spec_version.as_str();
    let members = with_head(
        alloc,
        meta,
        "snapshot",
        name,
        snapshot.version,
        snapshot.expires,
    )?;
    Ok(Value::Object(members))
}
