//! Who holds the keys of a role.

ghost use Rattle.std.specs.Prelude.{◌≡◌, IfOk, option_map};
ghost use Rattle.tough_roles.specs.RoleId.{role_id_doc, standard, delegated};
ghost use Rattle.tough_roles.specs.Root.{keys_doc, role_keys_doc, root_doc};
ghost use Rattle.tough_schema.specs.Delegations.{delegations_doc};
ghost use Rattle.tough_sign.specs.Signers.{signers_of, AreKeyed};
ghost use Rattle.tough_signed.specs.Holders.{holder_doc, known_of, keys_for, is_root, is_of_root, are_strangers, by_root, by_delegations};

use std::alloc::{AllocError, Global};
use std::collections::BTreeMap;
use tough_decoded::{Decoded, Hex};
use tough_keys::{Key, Sign};
use tough_roles::{RoleId, RoleKeys, RoleType, Root};
use tough_schema::{Delegations, KeyHolder};
use tough_sign::{KeyedSigner, has_signer};

/// The keys that the holder knows.
pub(crate) fn known_of(holder: &KeyHolder) -> &BTreeMap<Decoded<Hex>, Key>
    ensures { keys_doc result.now.entries ≡ known_of (holder_doc holder.now) }
{
    match holder {
        KeyHolder::Root(root) => &root.keys,
        KeyHolder::Delegations(delegations) => &delegations.keys,
    }
}

// Whether the holder is a root.
fn is_root(holder: &KeyHolder) -> bool
    ensures { result ≡ is_root (holder_doc holder.now) }
{
    match holder {
        KeyHolder::Root(_) => true,
        KeyHolder::Delegations(_) => false,
    }
}

/// Whether the holder is a root of which no signer has a key.
pub(crate) fn are_strangers<S: Sign>(holder: &KeyHolder, signers: &[KeyedSigner<'_, S>]) -> bool
    requires { AreKeyed S.key signers.now }
    ensures { result ≡ are_strangers S.key (holder_doc holder.now) (signers_of signers.now) }
{
    is_root(holder) && !has_signer(known_of(holder), signers)
}

/// Whether the holder is a root, and the role one that a root holds.
pub(crate) fn is_of_root(holder: &KeyHolder, id: &RoleId) -> bool
    ensures { result ≡ is_of_root (holder_doc holder.now) (role_id_doc id.now) }
{
    match holder {
        KeyHolder::Root(_) => match id {
            RoleId::StandardRole(_) => true,
            RoleId::DelegatedRole(_) => false,
        },
        KeyHolder::Delegations(_) => false,
    }
}

// The keys that sign a role of the root.
fn keys_in_root(root: &Root, role: RoleType) -> Result<Option<RoleKeys>, AllocError>
    ensures { IfOk result (λ o. option_map role_keys_doc o
        ≡ keys_for (by_root (root_doc root.now)) (standard role)) }
{
    match root.roles.get(&role) {
        Some(keys) => Ok(Some(keys.clone()?)),
        None => Ok(None),
    }
}

// The keys that sign a role of delegations.
fn keys_in(
    alloc: Global,
    delegations: &Delegations,
    name: &str,
) -> Result<Option<RoleKeys>, AllocError>
    ensures { IfOk result (λ o. option_map role_keys_doc o
        ≡ keys_for (by_delegations (delegations_doc delegations.now)) (delegated name.now)) }
{
    match delegations.first_role(name) {
        Some(role) => Ok(Some(role.keys(alloc)?)),
        None => Ok(None),
    }
}

/// Which keys sign the role, and how many must; none where the holder hasn't the role, or is of the other kind.
pub(crate) fn keys_for(
    alloc: Global,
    holder: &KeyHolder,
    id: &RoleId,
) -> Result<Option<RoleKeys>, AllocError>
    ensures { IfOk result (λ o. option_map role_keys_doc o
        ≡ keys_for (holder_doc holder.now) (role_id_doc id.now)) }
{
    match holder {
        KeyHolder::Root(root) => match id {
            RoleId::StandardRole(role) => keys_in_root(root, *role),
            RoleId::DelegatedRole(_) => Ok(None),
        },
        KeyHolder::Delegations(delegations) => match id {
            RoleId::StandardRole(_) => Ok(None),
            RoleId::DelegatedRole(name) => keys_in(alloc, delegations, name.as_str()),
        },
    }
}
