ghost use Rattle.std.specs.Prelude.{◌≡◌, codes, Some, None, ⊤, option_copied, option_map, string_bytes};
ghost use Rattle.tough_json.specs.Results.{ReadsBytes};
ghost use Rattle.tough_roles.specs.Timestamp.{metafile_doc, metafile_in};
ghost use Rattle.tough_roles.specs.Snapshot.{snapshot_doc, snapshot_at, snapshot_json, bare_snapshot};
ghost use Rattle.std.specs.Int.NonZero.{non_zero_u64_get};
ghost use Rattle.std.proofs.Common.{rules};
ghost use Rattle.tough_roles.specs.Names.{file_name};
ghost use Rattle.tough_roles.specs.RoleId.{standard};
ghost use Rattle.tough_roles.specs.declared.role_type.RoleType.TheVariants as types;

use crate::names::file_name;
use crate::read_snapshot::snapshot_of;
use crate::role::Role;
use crate::role_id::RoleId;
use crate::role_type::RoleType;
use crate::timestamp::Metafile;
use crate::write_snapshot::snapshot_value;
use serde_json::{Map, Value};
use std::alloc::{AllocError, Global};
use std::collections::BTreeMap;
use std::num::NonZeroU64;
use tough_json::borrowed::{Borrowed, value_in};
use tough_json::error::{ReadError, WriteError};
use tough_json::text::value_of;

/// Which versions of the other metadata files are current (TUF specification 1.0, section 4.4).
#[derive(Debug, Drop, PartialEq)]
pub struct Snapshot {
    pub spec_version: String,
    pub version: NonZeroU64,
    pub expires: jiff::Timestamp,
    pub meta: BTreeMap<String, Metafile>,
    pub _extra: Map<String, Value>,
}

impl Snapshot {
    /// What is listed for the file of this name.
    pub fn metafile(&self, file: &str) -> Option<&Metafile>
        ensures { option_map metafile_doc (option_copied result)
            ≡ metafile_in (snapshot_doc self.now).meta file.now }
    {
        self.meta.get(file)
    }

    /// A snapshot that tells of no file yet.
    pub fn new(
        alloc: Global,
        spec_version: String,
        version: NonZeroU64,
        expires: jiff::Timestamp,
    ) -> Snapshot
        ensures { snapshot_doc result
            ≡ bare_snapshot (record {
              spec_version = string_bytes spec_version;
              version
                  = non_zero_u64_get version;
              expires = expires.nanosecond;
            }) }
    {
        Snapshot {
            spec_version,
            version,
            expires,
            meta: BTreeMap::new(alloc),
            _extra: Map::new(alloc),
        }
    }
}

impl Snapshot {
    /// The snapshot that the bytes are; `Json` where they are no JSON, `Shape` where that is none.
    pub fn read(alloc: Global, bytes: &[u8]) -> Result<Snapshot, ReadError>
        ensures { ReadsBytes snapshot_doc result bytes.now snapshot_at }
    {
        let value = value_of(alloc, bytes)?;
        snapshot_of(alloc, value)
    }
}

impl Role for Snapshot {
    ghost TYPE = { types.Snapshot };

    const TYPE: RoleType = RoleType::Snapshot;

    ghost head = { λ x. (snapshot_doc x).head };

    ghost is_read = { λ d x. snapshot_at d ≡ Some (snapshot_doc x) };

    ghost is_refused = { λ d. snapshot_at d ≡ None };

    ghost json = { λ x. snapshot_json (snapshot_doc x) };

    ghost is_kept = { λ x. ⊤ };

    ghost is_fresh = { λ x. ⊤ };

    ghost file = { λ x consistent. file_name consistent (snapshot_doc x).head.version
        (codes "snapshot.json") };

    ghost id = { λ x. standard types.Snapshot };

    fn from_borrowed(alloc: Global, value: Borrowed<'_>) -> Result<Snapshot, ReadError> {
        match value_in(alloc, &value) {
            Ok(value) => snapshot_of(alloc, value),
            Err(error) => Err(error),
        }
    }

    fn to_value(&self, alloc: Global) -> Result<Value, WriteError> {
        let value = snapshot_value(alloc, self)?;
        Ok(value)
    }

    fn version(&self) -> NonZeroU64 {
        self.version
    }

    fn expires(&self) -> jiff::Timestamp {
        self.expires
    }

    fn filename(&self, alloc: Global, consistent_snapshot: bool) -> Result<String, AllocError> {
        file_name(alloc, consistent_snapshot, self.version, "snapshot.json")
    }

    fn role_id(&self) -> Result<RoleId, AllocError> {
        Ok(RoleId::StandardRole(RoleType::Snapshot))
    }

    ghost apart = { Prim.search rules };
}
