//! Snapshots, read from JSON.

ghost use Rattle.std.specs.Prelude.{◌≡◌};
ghost use Rattle.serde_json.specs.View.{view};
ghost use Rattle.tough_json.specs.Results.{Reads};
ghost use Rattle.tough_roles.specs.Snapshot.{snapshot_doc, snapshot_at};

use crate::head::head_of;
use crate::read_timestamp::metafiles;
use crate::snapshot::Snapshot;
use serde_json::Value;
use std::alloc::Global;
use tough_json::error::{ReadError, shape};

#[tactic(auto, unfolding(crate::specs::Snapshot::snapshot_at))]
pub(crate) fn snapshot_of(alloc: Global, value: Value) -> Result<Snapshot, ReadError>
    ensures { Reads snapshot_doc result (snapshot_at (view value)) }
{
    let Value::Object(mut members) = value else {
        return Err(shape(alloc, "(no object)"));
    };
    let (spec_version, version, expires) = head_of(alloc, &mut members)?;
    let meta = metafiles(alloc, &mut members, "meta")?;
    Ok(Snapshot {
        spec_version,
        version,
        expires,
        meta,
        _extra: members,
    })
}
