ghost use Rattle.std.specs.Prelude.{◌≡◌, ◌++◌, codes, Some, None, IfOk, string_bytes};
ghost use Rattle.std.proofs.Common.{rules};
ghost use Rattle.std.specs.Int.NonZero.{non_zero_u64_get};
ghost use Rattle.tough_json.specs.Results.{ReadsBytes};
ghost use Rattle.tough_roles.specs.Names.{file_name};
ghost use Rattle.tough_roles.specs.RoleId.{standard};
ghost use Rattle.tough_roles.specs.declared.role_type.RoleType.TheVariants as types;
ghost use Rattle.tough_schema.specs.Fresh.{IsFresh, IsFreshDelegated};
ghost use Rattle.tough_schema.specs.Targets.{targets_doc, delegated_doc, delegated_name, delegated_file, delegated_id, targets_at, targets_json, bare_targets, KeysAreOwn};

use crate::delegations::Delegations;
use crate::fitting::targets_read_back;
use crate::read_targets::targets_in;
use crate::target::Target;
use crate::write_targets::{append_targets, targets_value};
use serde_json::{Map, Value};
use std::alloc::{AllocError, Global};
use std::collections::BTreeMap;
use std::num::NonZeroU64;
use tough_json::borrowed::{Borrowed, Scratch, borrowed};
use tough_json::error::{ReadError, WriteError};
use tough_json::{Form, PieceError};
use tough_names::{TargetName, encode_filename};
use tough_roles::names::file_name;
use tough_roles::{Role, RoleId, RoleType};

/// The targets that a document lists, and the roles that it delegates to (TUF specification 1.0, section 4.5).
#[derive(Debug, Drop, PartialEq)]
#[cycle(tree)]
pub struct Targets {
    pub spec_version: String,
    pub version: NonZeroU64,
    pub expires: jiff::Timestamp,
    pub targets: BTreeMap<TargetName, Target>,
    pub delegations: Option<Delegations>,
    pub _extra: Map<String, Value>,
}

/// The document of a delegated role, with the role's name. Its JSON is the JSON of the targets, without the name.
#[derive(Debug, Drop, PartialEq)]
#[cycle(tree)]
pub struct DelegatedTargets {
    pub name: String,
    pub targets: Targets,
}

impl Targets {
    /// Targets that list nothing yet, with empty delegations.
    pub fn new(
        alloc: Global,
        spec_version: String,
        version: NonZeroU64,
        expires: jiff::Timestamp,
    ) -> Targets
        ensures { targets_doc result
            ≡ bare_targets (record {
              spec_version = string_bytes spec_version;
              version
                  = non_zero_u64_get version;
              expires = expires.nanosecond;
            }) }
    {
        Targets {
            spec_version,
            version,
            expires,
            targets: BTreeMap::new(alloc),
            delegations: Some(Delegations::new(alloc)),
            _extra: Map::new(alloc),
        }
    }
}

impl Targets {
    /// Reads targets. `Json` if the bytes are no JSON, `Shape` if the JSON is no targets document.
    pub fn read(alloc: Global, bytes: &[u8]) -> Result<Targets, ReadError>
        ensures read { ReadsBytes targets_doc result bytes.now targets_at }
        ensures fresh { IfOk result IsFresh }
    {
        let mut scratch = Scratch::new(alloc);
        match borrowed(alloc, bytes, &mut scratch) {
            Ok(value) => targets_in(alloc, value),
            Err(error) => Err(error),
        }
    }
}

impl DelegatedTargets {
    /// Reads the document of a delegated role, with the empty name, since the JSON has none. `Json` if the bytes are no
    /// JSON, `Shape` if the JSON is no targets document.
    pub fn read(alloc: Global, bytes: &[u8]) -> Result<DelegatedTargets, ReadError>
        ensures read { ReadsBytes delegated_doc result bytes.now targets_at }
        ensures fresh { IfOk result IsFreshDelegated }
    {
        match Targets::read(alloc, bytes) {
            Ok(targets) => Ok(DelegatedTargets {
                name: String::new(alloc),
                targets,
            }),
            Err(error) => Err(error),
        }
    }
}

impl Role for Targets {
    ghost TYPE = { types.Targets };

    const TYPE: RoleType = RoleType::Targets;

    ghost head = { λ x. (targets_doc x).head };

    ghost is_read = { λ d x. targets_at d ≡ Some (targets_doc x) };

    ghost is_refused = { λ d. targets_at d ≡ None };

    ghost json = { λ x. targets_json (targets_doc x) };

    ghost is_kept = { λ x. KeysAreOwn (targets_doc x).delegations };

    ghost is_fresh = { IsFresh };

    ghost file = { λ x consistent. file_name consistent (targets_doc x).head.version
        (codes "targets.json") };

    ghost id = { λ x. standard types.Targets };

    fn from_borrowed(alloc: Global, value: Borrowed<'_>) -> Result<Targets, ReadError> {
        match targets_in(alloc, value) {
            Ok(targets) => Ok(targets),
            Err(error) => Err(error),
        }
    }

    fn to_value(&self, alloc: Global) -> Result<Value, WriteError> {
        let value = targets_value(alloc, self)?;
        Ok(value)
    }

    fn append_in_pieces(
        &self,
        alloc: Global,
        form: Form,
        out: Vec<u8>,
    ) -> Result<Vec<u8>, PieceError> {
        let text = append_targets(alloc, self, form, out)?;
        Ok(text)
    }

    fn reads_back(&self, alloc: Global) -> Result<bool, AllocError> {
        let known = targets_read_back(alloc, self)?;
        Ok(known)
    }

    fn version(&self) -> NonZeroU64 {
        self.version
    }

    fn expires(&self) -> jiff::Timestamp {
        self.expires
    }

    fn filename(&self, alloc: Global, consistent_snapshot: bool) -> Result<String, AllocError> {
        file_name(alloc, consistent_snapshot, self.version, "targets.json")
    }

    fn role_id(&self) -> Result<RoleId, AllocError> {
        Ok(RoleId::StandardRole(RoleType::Targets))
    }

    ghost apart = { Prim.search rules };
}

impl Role for DelegatedTargets {
    ghost TYPE = { types.DelegatedTargets };

    const TYPE: RoleType = RoleType::DelegatedTargets;

    ghost head = { λ x. (delegated_doc x).head };

    ghost is_read = { λ d x. targets_at d ≡ Some (delegated_doc x) };

    ghost is_refused = { λ d. targets_at d ≡ None };

    ghost json = { λ x. targets_json (delegated_doc x) };

    ghost is_kept = { λ x. KeysAreOwn (delegated_doc x).delegations };

    ghost is_fresh = { IsFreshDelegated };

    ghost file = { λ x consistent. file_name consistent (delegated_doc x).head.version
        (delegated_file (delegated_name x)) };

    ghost id = { λ x. delegated_id (delegated_name x) };

    fn from_borrowed(alloc: Global, value: Borrowed<'_>) -> Result<DelegatedTargets, ReadError> {
        match targets_in(alloc, value) {
            Ok(targets) => Ok(DelegatedTargets {
                name: String::new(alloc),
                targets,
            }),
            Err(error) => Err(error),
        }
    }

    fn to_value(&self, alloc: Global) -> Result<Value, WriteError> {
        let value = targets_value(alloc, &self.targets)?;
        Ok(value)
    }

    fn append_in_pieces(
        &self,
        alloc: Global,
        form: Form,
        out: Vec<u8>,
    ) -> Result<Vec<u8>, PieceError> {
        let text = append_targets(alloc, &self.targets, form, out)?;
        Ok(text)
    }

    fn reads_back(&self, alloc: Global) -> Result<bool, AllocError> {
        let known = targets_read_back(alloc, &self.targets)?;
        Ok(known)
    }

    fn version(&self) -> NonZeroU64 {
        self.targets.version
    }

    fn expires(&self) -> jiff::Timestamp {
        self.targets.expires
    }

    fn filename(&self, alloc: Global, consistent_snapshot: bool) -> Result<String, AllocError> {
        let mut name = encode_filename(alloc, self.name.as_str())?;
        name.push_str(".json")?;
        file_name(
            alloc,
            consistent_snapshot,
            self.targets.version,
            name.as_str(),
        )
    }

    // The role with the name `targets` is the top-level one.
    fn role_id(&self) -> Result<RoleId, AllocError> {
        if self.name.as_str() == "targets" {
            return Ok(RoleId::StandardRole(RoleType::Targets));
        }
        Ok(RoleId::DelegatedRole(self.name.clone()?))
    }

    ghost apart = { Prim.search rules };
}
