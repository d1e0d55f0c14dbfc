ghost use Rattle.std.specs.Prelude.{◌≡◌, codes, Some, None, ⊤, option_copied, option_map, string_bytes};
ghost use Rattle.tough_json.specs.Results.{ReadsBytes};
ghost use Rattle.tough_roles.specs.Timestamp.{metafile_doc, metafile_in, timestamp_doc, timestamp_at, timestamp_json, bare_timestamp};
ghost use Rattle.std.specs.Int.NonZero.{non_zero_u64_get};
ghost use Rattle.std.proofs.Common.{rules};
ghost use Rattle.tough_roles.specs.RoleId.{standard};
ghost use Rattle.tough_roles.specs.declared.role_type.RoleType.TheVariants as types;

use crate::read_timestamp::timestamp_of;
use crate::role::Role;
use crate::role_id::RoleId;
use crate::role_type::RoleType;
use crate::write_timestamp::timestamp_value;
use serde_json::{Map, Value};
use std::alloc::{AllocError, Global};
use std::collections::BTreeMap;
use std::num::NonZeroU64;
use tough_decoded::{Decoded, Hex};
use tough_json::borrowed::{Borrowed, value_in};
use tough_json::error::{ReadError, WriteError};
use tough_json::text::value_of;

/// The digests of a file: that of SHA-256, and that of SHA-512 where it is stated.
#[derive(Debug, Drop, PartialEq)]
pub struct Hashes {
    pub sha256: Decoded<Hex>,
    pub sha512: Option<Decoded<Hex>>,
    pub _extra: Map<String, Value>,
}

/// What is said of a metadata file: its version, and its length and digest where they are stated.
#[derive(Debug, Drop, PartialEq)]
pub struct Metafile {
    pub length: Option<u64>,
    pub hashes: Option<Hashes>,
    pub version: NonZeroU64,
    pub _extra: Map<String, Value>,
}

/// Which snapshot is current (TUF specification 1.0, section 4.6).
#[derive(Debug, Drop, PartialEq)]
pub struct Timestamp {
    pub spec_version: String,
    pub version: NonZeroU64,
    pub expires: jiff::Timestamp,
    pub meta: BTreeMap<String, Metafile>,
    pub _extra: Map<String, Value>,
}

impl Timestamp {
    /// What is listed for the file of this name.
    pub fn metafile(&self, file: &str) -> Option<&Metafile>
        ensures { option_map metafile_doc (option_copied result)
            ≡ metafile_in (timestamp_doc self.now).meta file.now }
    {
        self.meta.get(file)
    }

    /// A timestamp that tells of no file yet.
    pub fn new(
        alloc: Global,
        spec_version: String,
        version: NonZeroU64,
        expires: jiff::Timestamp,
    ) -> Timestamp
        ensures { timestamp_doc result
            ≡ bare_timestamp (record {
              spec_version = string_bytes spec_version;
              version
                  = non_zero_u64_get version;
              expires = expires.nanosecond;
            }) }
    {
        Timestamp {
            spec_version,
            version,
            expires,
            meta: BTreeMap::new(alloc),
            _extra: Map::new(alloc),
        }
    }
}

impl Timestamp {
    /// The timestamp that the bytes are; `Json` where they are no JSON, `Shape` where that is none.
    pub fn read(alloc: Global, bytes: &[u8]) -> Result<Timestamp, ReadError>
        ensures { ReadsBytes timestamp_doc result bytes.now timestamp_at }
    {
        let value = value_of(alloc, bytes)?;
        timestamp_of(alloc, value)
    }
}

impl Role for Timestamp {
    ghost TYPE = { types.Timestamp };

    const TYPE: RoleType = RoleType::Timestamp;

    ghost head = { λ x. (timestamp_doc x).head };

    ghost is_read = { λ d x. timestamp_at d ≡ Some (timestamp_doc x) };

    ghost is_refused = { λ d. timestamp_at d ≡ None };

    ghost json = { λ x. timestamp_json (timestamp_doc x) };

    ghost is_kept = { λ x. ⊤ };

    ghost is_fresh = { λ x. ⊤ };

    ghost file = { λ x consistent. codes "timestamp.json" };

    ghost id = { λ x. standard types.Timestamp };

    fn from_borrowed(alloc: Global, value: Borrowed<'_>) -> Result<Timestamp, ReadError> {
        match value_in(alloc, &value) {
            Ok(value) => timestamp_of(alloc, value),
            Err(error) => Err(error),
        }
    }

    fn to_value(&self, alloc: Global) -> Result<Value, WriteError> {
        let value = timestamp_value(alloc, self)?;
        Ok(value)
    }

    fn version(&self) -> NonZeroU64 {
        self.version
    }

    fn expires(&self) -> jiff::Timestamp {
        self.expires
    }

    fn filename(&self, alloc: Global, _consistent_snapshot: bool) -> Result<String, AllocError> {
        String::from_str(alloc, "timestamp.json")
    }

    fn role_id(&self) -> Result<RoleId, AllocError> {
        Ok(RoleId::StandardRole(RoleType::Timestamp))
    }

    ghost apart = { Prim.search rules };
}
