//! The editor.

ghost use Rattle.std.specs.Prelude.{◌≡◌, Some, None, IfOk, OnOk, OnErr, map, option_map};
ghost use Rattle.std.specs.Int.NonZero.{non_zero_u64_get};
ghost use Rattle.tough_schema.specs.Target.{target_doc};
ghost use Rattle.tough_roles.specs.Root.{keys_doc};
ghost use Rattle.tough_schema.specs.Whole.{tree_doc, role_tree, delegations_tree, branches_of};
ghost use Rattle.tough_signed.specs.Holders.{holder_doc};
ghost use Rattle.tough_edit.specs.Edits.{edits_doc, fresh, opened, roles_in, with_target, without_target, without_targets, with_version, with_expiry};

use serde_json::{Map, Value};
use std::alloc::{AllocError, Global};
use std::collections::BTreeMap;
use std::mem;
use std::num::NonZeroU64;
use tough_decoded::{Decoded, Hex};
use tough_keys::Key;
use tough_names::TargetName;
use tough_schema::{DelegatedRole, Delegations, KeyHolder, Target, Targets};

/// An editor of a targets document (TUF specification 1.0, section 4.5), without a transport.
#[derive(Drop)]
pub struct TargetEdits {
    pub(crate) name: String,
    pub(crate) holder: Option<KeyHolder>,
    pub(crate) keys: Option<BTreeMap<Decoded<Hex>, Key>>,
    pub(crate) old_roles: Vec<DelegatedRole>,
    pub(crate) new_roles: Vec<DelegatedRole>,
    pub(crate) old_targets: BTreeMap<TargetName, Target>,
    pub(crate) new_targets: BTreeMap<TargetName, Target>,
    pub(crate) version: Option<NonZeroU64>,
    pub(crate) expires: Option<jiff::Timestamp>,
    pub(crate) extra: Map<String, Value>,
}

// The keys and the roles of delegations.
fn split(
    alloc: Global,
    delegations: Option<Delegations>,
) -> (Option<BTreeMap<Decoded<Hex>, Key>>, Vec<DelegatedRole>)
    ensures keys { option_map (λ m. keys_doc m.entries) result.0
        ≡ option_map (λ g. g.0) (option_map delegations_tree delegations) }
    ensures roles { map role_tree result.1.items
        ≡ roles_in (branches_of (option_map delegations_tree delegations)) }
{
    match delegations {
        None => (None, Vec::new(alloc)),
        Some(mut delegations) => {
            let keys = mem::replace(&mut delegations.keys, BTreeMap::new(alloc));
            let roles = mem::replace(&mut delegations.roles, Vec::new(alloc));
            (Some(keys), roles)
        }
    }
}

impl TargetEdits {
    /// An editor of a new document of that role, with empty delegations and no holder of its keys.
    pub fn new(alloc: Global, name: &str) -> Result<TargetEdits, AllocError>
        ensures { IfOk result (λ e. edits_doc e ≡ fresh name.now) }
    {
        let name = String::from_str(alloc, name)?;
        Ok(TargetEdits {
            name,
            holder: None,
            keys: Some(BTreeMap::new(alloc)),
            old_roles: Vec::new(alloc),
            new_roles: Vec::new(alloc),
            old_targets: BTreeMap::new(alloc),
            new_targets: BTreeMap::new(alloc),
            version: None,
            expires: None,
            extra: Map::new(alloc),
        })
    }

    /// An editor of the role's document, with its targets, its delegations and its extras, without a holder of its keys. Its version and its expiry
    /// aren't taken over.
    pub fn over(alloc: Global, name: &str, targets: Targets) -> Result<TargetEdits, AllocError>
        ensures { IfOk result (λ e. edits_doc e ≡ opened name.now None (tree_doc targets)) }
    {
        let name = String::from_str(alloc, name)?;
        let Targets {
            spec_version: _,
            version: _,
            expires: _,
            targets,
            delegations,
            _extra,
        } = targets;
        let (keys, old_roles) = split(alloc, delegations);
        Ok(TargetEdits {
            name,
            holder: None,
            keys,
            old_roles,
            new_roles: Vec::new(alloc),
            old_targets: targets,
            new_targets: BTreeMap::new(alloc),
            version: None,
            expires: None,
            extra: _extra,
        })
    }

    /// The same, which is signed by the holder's keys.
    pub fn from_targets(
        alloc: Global,
        name: &str,
        targets: Targets,
        holder: KeyHolder,
    ) -> Result<TargetEdits, AllocError>
        ensures { IfOk result (λ e. edits_doc e
            ≡ opened name.now (Some (holder_doc holder)) (tree_doc targets)) }
    {
        let mut edits = TargetEdits::over(alloc, name, targets)?;
        edits.holder = Some(holder);
        Ok(edits)
    }

    /// The role's name.
    pub fn name(&self) -> &str
        ensures { result.now ≡ (edits_doc self.now).name }
    {
        self.name.as_str()
    }

    /// Sets the document's version.
    pub fn version(&mut self, version: NonZeroU64)
        ensures { edits_doc self.new
            ≡ with_version (non_zero_u64_get version) (edits_doc self.old) }
    {
        self.version = Some(version);
    }

    /// Sets when the document expires.
    pub fn expires(&mut self, expires: jiff::Timestamp)
        ensures { edits_doc self.new
            ≡ with_expiry expires.nanosecond (edits_doc self.old) }
    {
        self.expires = Some(expires);
    }

    /// Adds the target to the new ones, in the place of a new one of the name.
    pub fn add_target(&mut self, name: TargetName, target: Target) -> Result<(), AllocError>
        ensures added { OnOk result (edits_doc self.new
            ≡ with_target name (target_doc target) (edits_doc self.old)) }
        ensures unchanged { OnErr result (edits_doc self.new ≡ edits_doc self.old) }
    {
        self.new_targets.insert(name, target)?;
        Ok(())
    }

    /// Removes the name from the old targets and from the new ones.
    pub fn remove_target(&mut self, name: &TargetName)
        ensures { edits_doc self.new ≡ without_target name.now (edits_doc self.old) }
    {
        self.old_targets.remove(name);
        self.new_targets.remove(name);
    }

    /// Removes all targets, old and new.
    pub fn clear_targets(&mut self)
        ensures { edits_doc self.new ≡ without_targets (edits_doc self.old) }
    {
        self.old_targets.clear();
        self.new_targets.clear();
    }
}
