ghost use Rattle.std.specs.Prelude.{◌≡◌, codes, Some, None, ⊤};
ghost use Rattle.std.proofs.Common.{rules};
ghost use Rattle.tough_json.specs.Results.{ReadsBytes};
ghost use Rattle.tough_roles.specs.Root.{root_doc, root_at, root_json, keys_doc, AreOwn};
ghost use Rattle.tough_roles.specs.Names.{versioned};
ghost use Rattle.tough_roles.specs.RoleId.{standard};
ghost use Rattle.tough_roles.specs.declared.role_type.RoleType.TheVariants as types;

use crate::names::versioned;
use crate::read_root::root_of;
use crate::role::Role;
use crate::role_id::RoleId;
use crate::role_type::RoleType;
use crate::write_root::root_value;
use serde_json::{Map, Value};
use std::alloc::{AllocError, Global};
use std::collections::BTreeMap;
use std::num::NonZeroU64;
use tough_decoded::{Decoded, Hex};
use tough_json::borrowed::{Borrowed, value_in};
use tough_json::error::{ReadError, WriteError};
use tough_json::text::value_of;
use tough_keys::Key;

/// The identifiers that a role lists, and how many of them must sign.
#[derive(Debug, Drop, PartialEq)]
pub struct RoleKeys {
    pub keyids: Vec<Decoded<Hex>>,
    pub threshold: NonZeroU64,
    pub _extra: Map<String, Value>,
}

/// The keys of all roles (TUF specification 1.0, section 4.3).
#[derive(Debug, Drop, PartialEq)]
pub struct Root {
    pub spec_version: String,
    pub consistent_snapshot: bool,
    pub version: NonZeroU64,
    pub expires: jiff::Timestamp,
    pub keys: BTreeMap<Decoded<Hex>, Key>,
    pub roles: BTreeMap<RoleType, RoleKeys>,
    pub _extra: Map<String, Value>,
}

impl Root {
    /// The root that the bytes are; `Json` where they are no JSON, `Shape` where that is none.
    pub fn read(alloc: Global, bytes: &[u8]) -> Result<Root, ReadError>
        ensures { ReadsBytes root_doc result bytes.now root_at }
    {
        let value = value_of(alloc, bytes)?;
        root_of(alloc, value)
    }
}

impl Role for Root {
    ghost TYPE = { types.Root };

    const TYPE: RoleType = RoleType::Root;

    ghost head = { λ x. (root_doc x).head };

    ghost is_read = { λ d x. root_at d ≡ Some (root_doc x) };

    ghost is_refused = { λ d. root_at d ≡ None };

    ghost json = { λ x. root_json (root_doc x) };

    ghost is_kept = { λ x. AreOwn (keys_doc x.keys.entries) };

    ghost is_fresh = { λ x. ⊤ };

    ghost file = { λ x consistent. versioned (root_doc x).head.version (codes "root.json") };

    ghost id = { λ x. standard types.Root };

    fn from_borrowed(alloc: Global, value: Borrowed<'_>) -> Result<Root, ReadError> {
        match value_in(alloc, &value) {
            Ok(value) => {
                let root = root_of(alloc, value)?;
                Ok(root)
            }
            Err(error) => Err(error),
        }
    }

    fn to_value(&self, alloc: Global) -> Result<Value, WriteError> {
        let value = root_value(alloc, self)?;
        Ok(value)
    }

    fn version(&self) -> NonZeroU64 {
        self.version
    }

    fn expires(&self) -> jiff::Timestamp {
        self.expires
    }

    fn filename(&self, alloc: Global, _consistent_snapshot: bool) -> Result<String, AllocError> {
        versioned(alloc, self.version.get(), "root.json")
    }

    fn role_id(&self) -> Result<RoleId, AllocError> {
        Ok(RoleId::StandardRole(RoleType::Root))
    }

    ghost apart = { Prim.search rules };
}
