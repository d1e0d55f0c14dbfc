//! Keys that roles list, and how many of them must sign.

ghost use Rattle.std.specs.Prelude.{◌≡◌, ◌++◌, ◌∷◌, [], ℕ, List, Some, true, false, IsTrue, is_some, IfOk, IfErr, OnOk, OnErr};
ghost use Rattle.std.specs.Int.NonZero.{non_zero_u64_get};
ghost use Rattle.std.specs.BTreeMap.{insert_entry};
ghost use Rattle.tough_keys.specs.Key.{key_doc, key_id_of};
ghost use Rattle.tough_roles.specs.Root.{root_doc, roles_doc, keys_doc, by_bytes};
ghost use Rattle.tough_sign.specs.Making.{is_listed};
ghost use Rattle.tough_sign.specs.Listing.{in_digits};
ghost use Rattle.tough_ceremony.specs.Listing.{Lists, role_in, changed, with_keyids, with_threshold, IsListed, without_id, not_listed, is_used, without_key, unlisted, with_role_threshold};
ghost use Rattle.tough_ceremony.specs.Refusals.{IsAbsent, IsTaken, IsNotListed, IsNotUnlisted, IsUnnamed};

use crate::error::CeremonyError;
use std::alloc::{AllocError, Global};
use std::collections::BTreeMap;
use std::mem;
use std::num::NonZeroU64;
use tough_decoded::{Decoded, Hex};
use tough_json::WriteError;
use tough_keys::Key;
use tough_roles::clone::copy_keyids;
use tough_roles::{RoleKeys, RoleType, Root};

/// Whether an identifier is listed.
pub(crate) fn is_listed(keyids: &[Decoded<Hex>], keyid: &Decoded<Hex>) -> bool
    ensures { result ≡ is_listed keyids.now keyid.now }
{
    for id in keyids {
        if id == keyid {
            return true;
        }
    }
    false
}

// The key's own identifier, in lower-case digits.
fn own_id(alloc: Global, key: &Key) -> Result<Decoded<Hex>, CeremonyError>
    ensures own { IfOk result (λ id. (own : List ℕ) × (key_id_of (key_doc key.now) ≡ Some own)
        × (id ≡ in_digits own)) }
    ensures refused { IfErr result (IsUnnamed (key_doc key.now)) }
{
    match key.key_id(alloc) {
        Ok(id) => Ok(id),
        Err(WriteError::Unwritable) => Err(CeremonyError::NoIdentifier),
        Err(WriteError::Memory) => Err(CeremonyError::Memory),
    }
}

// These identifiers, and this one behind them.
fn and_one(keyids: &Vec<Decoded<Hex>>, id: &Decoded<Hex>) -> Result<Vec<Decoded<Hex>>, AllocError>
    ensures { IfOk result (λ v. v.items ≡ keyids.now.items ++ id.now ∷ []) }
{
    let mut all = copy_keyids(keyids)?;
    all.push(id.clone()?)?;
    Ok(all)
}

// What the role lists with this identifier, which it doesn't list yet.
fn more_keyids(
    root: &Root,
    role: RoleType,
    id: &Decoded<Hex>,
) -> Result<Vec<Decoded<Hex>>, CeremonyError>
    ensures more { IfOk result (λ v. (free : Lists role id.now false (root_doc root.now))
        × (v.items ≡ free.keys.keyids ++ id.now ∷ [])) }
    ensures refused { IfErr result (IsTaken role id.now (root_doc root.now)) }
{
    let Some(keys) = root.roles.get(&role) else {
        return Err(CeremonyError::NoRole { role });
    };
    if is_listed(&keys.keyids, id) {
        return Err(CeremonyError::AlreadyListed);
    }
    let all = and_one(&keys.keyids, id)?;
    Ok(all)
}

// The key's own identifier, and what the role lists with it.
#[tactic(auto, using(crate::proofs::Refusing::taken))]
fn place_of(
    alloc: Global,
    root: &Root,
    role: RoleType,
    key: &Key,
) -> Result<(Decoded<Hex>, Vec<Decoded<Hex>>), CeremonyError>
    ensures place { IfOk result (λ p. (own : List ℕ) × (key_id_of (key_doc key.now) ≡ Some own)
        × (p.0 ≡ in_digits own) × (free : Lists role (in_digits own) false (root_doc root.now))
        × (p.1.items ≡ free.keys.keyids ++ in_digits own ∷ [])) }
    ensures refused { IfErr result (IsNotListed role (key_doc key.now) (root_doc root.now)) }
{
    let id = own_id(alloc, key)?;
    let keyids = more_keyids(root, role, &id)?;
    Ok((id, keyids))
}

// Gives the role these identifiers, if it is there.
fn put_keyids(roles: &mut BTreeMap<RoleType, RoleKeys>, role: RoleType, keyids: Vec<Decoded<Hex>>)
    ensures { roles_doc roles.new.entries
        ≡ changed role (with_keyids keyids.items) (roles_doc roles.old.entries) }
{
    if let Some(keys) = roles.get_mut(&role) {
        let old = mem::replace(&mut keys.keyids, keyids);
        drop(old);
    }
}

// Puts the key under the identifier.
fn put_key(
    keys: &mut BTreeMap<Decoded<Hex>, Key>,
    id: Decoded<Hex>,
    key: Key,
) -> Result<(), AllocError>
    ensures put { OnOk result (keys_doc keys.new.entries
        ≡ insert_entry by_bytes (keys_doc keys.old.entries) id (key_doc key)) }
    ensures unchanged { OnErr result (keys.new.entries ≡ keys.old.entries) }
{
    keys.insert(id, key)?;
    Ok(())
}

/// Lists the key for the role, under its own identifier in lower-case digits, behind those that the role lists, and puts it among the root's keys
/// (TUF specification 1.0, section 4.3). The refusals, in this order: `NoIdentifier` where the key has no canonical form, `NoRole` where the root
/// hasn't the role, `AlreadyListed` where the role lists the key's
/// identifier; `Memory` when out of memory. The root stays as it is then. An entry that stands under the identifier is replaced, and keeps its spelling.
pub fn list_key(
    alloc: Global,
    root: &mut Root,
    role: RoleType,
    key: Key,
) -> Result<(), CeremonyError>
    ensures listed { OnOk result
        (IsListed role (key_doc key) (root_doc root.old) (root_doc root.new)) }
    ensures refused { IfErr result (IsNotListed role (key_doc key) (root_doc root.old)) }
    ensures unchanged { OnErr result (root_doc root.new ≡ root_doc root.old) }
{
    let (id, keyids) = place_of(alloc, root, role, &key)?;
    put_key(&mut root.keys, id, key)?;
    put_keyids(&mut root.roles, role, keyids);
    Ok(())
}

// Whether a role lists the identifier.
fn is_used(roles: &BTreeMap<RoleType, RoleKeys>, id: &Decoded<Hex>) -> bool
    ensures { result ≡ is_used (roles_doc roles.now.entries) id.now }
{
    for (_, keys) in roles.iter() {
        if is_listed(&keys.keyids, id) {
            return true;
        }
    }
    false
}

// Whether the role lists the identifier: `NoRole` where the root hasn't the role, `NotListed` where that doesn't.
fn check_listed(root: &Root, role: RoleType, id: &Decoded<Hex>) -> Result<(), CeremonyError>
    ensures listed { OnOk result (Lists role id.now true (root_doc root.now)) }
    ensures refused { IfErr result (IsNotUnlisted role id.now (root_doc root.now)) }
{
    let Some(keys) = root.roles.get(&role) else {
        return Err(CeremonyError::NoRole { role });
    };
    if !is_listed(&keys.keyids, id) {
        return Err(CeremonyError::NotListed);
    }
    Ok(())
}

// Removes the identifier.
fn drop_keyid(keyids: &mut Vec<Decoded<Hex>>, keyid: &Decoded<Hex>)
    ensures { keyids.new.items ≡ without_id keyid.now keyids.old.items }
{
    keyids.retain(|id| id != keyid);
}

// Removes the identifier from the role, if it is there.
fn drop_listed(roles: &mut BTreeMap<RoleType, RoleKeys>, role: RoleType, id: &Decoded<Hex>)
    ensures { roles_doc roles.new.entries
        ≡ changed role (not_listed id.now) (roles_doc roles.old.entries) }
{
    if let Some(keys) = roles.get_mut(&role) {
        drop_keyid(&mut keys.keyids, id);
    }
}

// Removes the key of the identifier.
fn drop_key(keys: &mut BTreeMap<Decoded<Hex>, Key>, id: &Decoded<Hex>)
    ensures { keys_doc keys.new.entries ≡ without_key id.now (keys_doc keys.old.entries) }
{
    keys.remove(id);
}

/// The role lists the identifier no longer, and its key goes from the root's keys where no role lists it then (TUF specification 1.0, section 4.3).
/// `NoRole` where the root hasn't the role, `NotListed` where the role doesn't list the identifier; the root stays as it is then.
pub fn unlist_key(root: &mut Root, role: RoleType, id: &Decoded<Hex>) -> Result<(), CeremonyError>
    ensures listed { OnOk result (Lists role id.now true (root_doc root.old)) }
    ensures unlisted { OnOk result (root_doc root.new ≡ unlisted role id.now (root_doc root.old)) }
    ensures refused { IfErr result (IsNotUnlisted role id.now (root_doc root.old)) }
    ensures unchanged { OnErr result (root_doc root.new ≡ root_doc root.old) }
{
    check_listed(root, role, id)?;
    drop_listed(&mut root.roles, role, id);
    if !is_used(&root.roles, id) {
        drop_key(&mut root.keys, id);
    }
    Ok(())
}

/// So many of the role's keys must sign from now on (TUF specification 1.0, section 4.3). `NoRole` where the root hasn't the role; it stays as it is then.
pub fn set_threshold(
    root: &mut Root,
    role: RoleType,
    threshold: NonZeroU64,
) -> Result<(), CeremonyError>
    ensures set { OnOk result (root_doc root.new
        ≡ with_role_threshold role (non_zero_u64_get threshold) (root_doc root.old)) }
    ensures there { OnOk result (IsTrue (is_some (role_in role (root_doc root.old)))) }
    ensures refused { IfErr result (IsAbsent role (root_doc root.old)) }
    ensures unchanged { OnErr result (root_doc root.new ≡ root_doc root.old) }
{
    match root.roles.get_mut(&role) {
        Some(keys) => {
            keys.threshold = threshold;
            Ok(())
        }
        None => Err(CeremonyError::NoRole { role }),
    }
}
