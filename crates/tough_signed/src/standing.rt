//! Documents of delegated roles by themselves.

ghost use Rattle.std.specs.Prelude.{◌≡◌, IfOk, IfErr, map, option_map};
ghost use Rattle.tough_schema.specs.Delegations.{delegated_role_doc, delegations_doc};
ghost use Rattle.tough_schema.specs.Fresh.{HasNoDocument, AreUnloaded, DelegateUnloaded, MayDelegateUnloaded, IsFresh};
ghost use Rattle.tough_schema.specs.Targets.{targets_doc};
ghost use Rattle.tough_schema.specs.Whole.{role_tree, held_doc};
ghost use Rattle.tough_signed.specs.Standing.{IsAlone, IsStanding, IsUnfiledAlone};

use crate::error::EditError;
use crate::signed_role::SignedRole;
use std::alloc::{AllocError, Global};
use tough_keys::clone::copy;
use tough_roles::Signed;
use tough_roles::clone::{copy_keyids, copy_keys, copy_signatures};
use tough_schema::{DelegatedRole, DelegatedTargets, Delegations, Targets, copy_listing};

// The role without its document.
fn bare_role(role: &DelegatedRole) -> Result<DelegatedRole, AllocError>
    ensures same { IfOk result (λ c. delegated_role_doc c ≡ delegated_role_doc role.now) }
    ensures bare { IfOk result HasNoDocument }
{
    let name = role.name.clone()?;
    let keyids = copy_keyids(&role.keyids)?;
    let paths = role.paths.clone()?;
    Ok(DelegatedRole {
        name,
        keyids,
        threshold: role.threshold,
        paths,
        terminating: role.terminating,
        targets: None,
    })
}

// The roles without their documents.
fn bare_roles(alloc: Global, roles: &[DelegatedRole]) -> Result<Vec<DelegatedRole>, AllocError>
    ensures same { IfOk result (λ v. map delegated_role_doc v.items
        ≡ map delegated_role_doc roles.now) }
    ensures bare { IfOk result (λ v. AreUnloaded v.items) }
{
    let mut copies = Vec::new(alloc);
    for role in roles {
        copies.push(bare_role(role)?)?;
    }
    Ok(copies)
}

/// The delegations without the documents of their roles.
pub fn bare_delegations(delegations: &Delegations) -> Result<Delegations, AllocError>
    ensures same { IfOk result (λ c. delegations_doc c ≡ delegations_doc delegations.now) }
    ensures bare { IfOk result DelegateUnloaded }
{
    let keys = copy_keys(&delegations.keys)?;
    let roles = bare_roles(*delegations.roles.allocator(), &delegations.roles)?;
    Ok(Delegations { keys, roles })
}

// The delegations, if there are any, without the documents of their roles.
fn bare_option(delegations: &Option<Delegations>) -> Result<Option<Delegations>, AllocError>
    ensures same { IfOk result
        (λ o. option_map delegations_doc o ≡ option_map delegations_doc delegations.now) }
    ensures bare { IfOk result MayDelegateUnloaded }
{
    match delegations {
        None => Ok(None),
        Some(delegations) => Ok(Some(bare_delegations(delegations)?)),
    }
}

// The document without those of its roles.
fn bare_targets(document: &Targets) -> Result<Targets, AllocError>
    ensures same { IfOk result (λ c. targets_doc c ≡ targets_doc document.now) }
    ensures bare { IfOk result IsFresh }
{
    let spec_version = document.spec_version.clone()?;
    let targets = copy_listing(&document.targets)?;
    let delegations = bare_option(&document.delegations)?;
    let _extra = copy(&document._extra)?;
    Ok(Targets {
        spec_version,
        version: document.version,
        expires: document.expires,
        targets,
        delegations,
        _extra,
    })
}

// The role's document under the role's name, without the documents below it.
fn alone(
    role: &DelegatedRole,
    document: &Signed<DelegatedTargets>,
) -> Result<Signed<DelegatedTargets>, AllocError>
    ensures { IfOk result (IsAlone (role_tree role.now).0 (held_doc document.now)) }
{
    let name = role.name.clone()?;
    let targets = bare_targets(&document.signed.targets)?;
    let signatures = copy_signatures(&document.signatures)?;
    Ok(Signed {
        signed: DelegatedTargets { name, targets },
        signatures,
    })
}

/// The role's document as it stands, under the role's name and without the documents below it; `SerializeSignedRole` where it has no text.
pub fn stand_alone(
    alloc: Global,
    role: &DelegatedRole,
    document: &Signed<DelegatedTargets>,
) -> Result<SignedRole<DelegatedTargets>, EditError>
    ensures standing { IfOk result (IsStanding (role_tree role.now).0 (held_doc document.now)) }
    ensures refused { IfErr result (IsUnfiledAlone (role_tree role.now).0 (held_doc document.now)) }
{
    let document = alone(role, document)?;
    SignedRole::from_signed(alloc, document)
}
