//! Keys of the delegations, and the identifiers that the roles list.

ghost use Rattle.std.specs.Prelude.{◌≡◌, Some, None, IfOk, OnOk, OnErr, IfErr, IsTrue, is_some, map, option_map, option_copied};
ghost use Rattle.std.specs.BTreeMap.{insert_entry, is_at};
ghost use Rattle.std.specs.Map.{keys_of, remove_entry};
ghost use Rattle.tough_keys.specs.Key.{key_doc};
ghost use Rattle.tough_roles.specs.Root.{by_bytes, keys_doc};
ghost use Rattle.tough_schema.specs.Whole.{role_tree};
ghost use Rattle.tough_edit.specs.Edits.{edits_doc};
ghost use Rattle.tough_edit.specs.Keys.{has_equal, with_key, with_keys, more_keyids, without_id, with_fewer, with_ids, with_keyids, all_given, key_added, key_removed, IsUndelegated};

use crate::edits::TargetEdits;
use std::alloc::{AllocError, Global};
use std::collections::BTreeMap;
use tough_decoded::{Decoded, Hex};
use tough_keys::Key;
use tough_roles::clone::{copy_keyids, copy_keys};
use tough_schema::DelegatedRole;
use tough_signed::EditError;

// Whether an equal key is there.
fn has_equal(known: &BTreeMap<Decoded<Hex>, Key>, key: &Key) -> bool
    ensures { result ≡ has_equal (keys_doc known.now.entries) (key_doc key.now) }
{
    for (_, other) in known.iter() {
        if key == other {
            return true;
        }
    }
    false
}

/// Takes a copy of the key in under the identifier.
pub(crate) fn put_copy(
    known: &mut BTreeMap<Decoded<Hex>, Key>,
    keyid: &Decoded<Hex>,
    key: &Key,
) -> Result<(), AllocError>
    ensures { OnOk result (keys_doc known.new.entries
        ≡ insert_entry by_bytes (keys_doc known.old.entries) keyid.now (key_doc key.now)) }
{
    let keyid = keyid.clone()?;
    let key = key.clone()?;
    known.insert(keyid, key)?;
    Ok(())
}

// Adds the key where it equals none there.
fn add_one(
    known: &mut BTreeMap<Decoded<Hex>, Key>,
    keyid: &Decoded<Hex>,
    key: &Key,
) -> Result<(), AllocError>
    ensures { OnOk result (keys_doc known.new.entries
        ≡ with_key (keys_doc known.old.entries) keyid.now (key_doc key.now)) }
{
    if !has_equal(known, key) {
        put_copy(known, keyid, key)?;
    }
    Ok(())
}

/// The keys, and each of the others that equals none there, one after another.
pub(crate) fn with_keys(
    known: &BTreeMap<Decoded<Hex>, Key>,
    new: &BTreeMap<Decoded<Hex>, Key>,
) -> Result<BTreeMap<Decoded<Hex>, Key>, AllocError>
    ensures { IfOk result (λ m. keys_doc m.entries
        ≡ with_keys (keys_doc known.now.entries) (keys_doc new.now.entries)) }
{
    let mut all = copy_keys(known)?;
    for (keyid, key) in new.iter() {
        add_one(&mut all, keyid, key)?;
    }
    Ok(all)
}

/// The identifiers of the keys, in their order. `AllocError` when out of memory.
pub fn keyids_of(
    alloc: Global,
    keys: &BTreeMap<Decoded<Hex>, Key>,
) -> Result<Vec<Decoded<Hex>>, AllocError>
    ensures { IfOk result (λ v. v.items ≡ keys_of (keys_doc keys.now.entries)) }
{
    let mut ids = Vec::new(alloc);
    for (keyid, _) in keys.iter() {
        ids.push(keyid.clone()?)?;
    }
    Ok(ids)
}

// The role's identifiers, and where it has the name these after them.
fn more_keyids(
    role: &DelegatedRole,
    name: &str,
    ids: &Vec<Decoded<Hex>>,
) -> Result<Vec<Decoded<Hex>>, AllocError>
    ensures { IfOk result (λ v. v.items
        ≡ more_keyids name.now ids.now.items (role_tree role.now)) }
{
    let mut all = copy_keyids(&role.keyids)?;
    if role.name.as_str() == name {
        for id in ids {
            all.push(id.clone()?)?;
        }
    }
    Ok(all)
}

// The same of each role.
fn all_keyids(
    alloc: Global,
    roles: &[DelegatedRole],
    name: &str,
    ids: &Vec<Decoded<Hex>>,
) -> Result<Vec<Vec<Decoded<Hex>>>, AllocError>
    ensures { IfOk result (λ v. map (λ w. w.items) v.items
        ≡ map (more_keyids name.now ids.now.items) (map role_tree roles.now)) }
{
    let mut all = Vec::new(alloc);
    for role in roles {
        all.push(more_keyids(role, name, ids)?)?;
    }
    Ok(all)
}

// Gives the role these identifiers.
fn put_keyids(role: &mut DelegatedRole, keyids: Vec<Decoded<Hex>>)
    ensures { role_tree role.new ≡ with_keyids keyids.items (role_tree role.old) }
{
    role.keyids = keyids;
}

// Gives each role the identifiers at its place, if there are any.
fn put_all(roles: &mut [DelegatedRole], lists: Vec<Vec<Decoded<Hex>>>)
    ensures { map role_tree roles.new
        ≡ all_given (map role_tree roles.old) (map (λ v. v.items) lists.items) }
{
    let mut left = lists.into_iter();
    for role in roles.iter_mut() {
        if let Some(keyids) = left.next() {
            put_keyids(role, keyids);
        }
    }
}

// Removes the identifier.
fn drop_keyid(keyids: &mut Vec<Decoded<Hex>>, keyid: &Decoded<Hex>)
    ensures { keyids.new.items ≡ without_id keyid.now keyids.old.items }
{
    keyids.retain(|id| id != keyid);
}

// Removes the identifier from the role, if it has the name.
fn remove_keyid(role: &mut DelegatedRole, name: &str, keyid: &Decoded<Hex>)
    ensures { role_tree role.new ≡ with_fewer name.now keyid.now (role_tree role.old) }
{
    if role.name.as_str() == name {
        drop_keyid(&mut role.keyids, keyid);
    }
}

// The same of each role.
fn remove_keyids(roles: &mut [DelegatedRole], name: &str, keyid: &Decoded<Hex>)
    ensures { map role_tree roles.new
        ≡ map (with_fewer name.now keyid.now) (map role_tree roles.old) }
{
    for role in roles.iter_mut() {
        remove_keyid(role, name, keyid);
    }
}

// Removes the key of the identifier.
fn drop_key(keys: &mut BTreeMap<Decoded<Hex>, Key>, keyid: &Decoded<Hex>)
    ensures { keys_doc keys.new.entries
        ≡ remove_entry (is_at (by_bytes keyid.now)) (keys_doc keys.old.entries) }
{
    keys.remove(keyid);
}

impl TargetEdits {
    // Adds the identifiers to each role of the name, and takes these keys.
    fn put_key(
        &mut self,
        alloc: Global,
        name: &str,
        ids: Vec<Decoded<Hex>>,
        keys: BTreeMap<Decoded<Hex>, Key>,
    ) -> Result<(), AllocError>
        ensures put { OnOk result (edits_doc self.new
            ≡ with_ids name.now ids.items (keys_doc keys.entries) (edits_doc self.old)) }
        ensures unchanged { OnErr result (edits_doc self.new ≡ edits_doc self.old) }
    {
        let old = all_keyids(alloc, &self.old_roles, name, &ids)?;
        let new = all_keyids(alloc, &self.new_roles, name, &ids)?;
        put_all(&mut self.old_roles, old);
        put_all(&mut self.new_roles, new);
        self.keys = Some(keys);
        Ok(())
    }

    /// Adds each key that equals none there, one after another, and, where a role's name is given, the identifiers of all of them to each old and
    /// new role of the name; `NoDelegations` where the document delegates to no role.
    pub fn add_key(
        &mut self,
        alloc: Global,
        keys: BTreeMap<Decoded<Hex>, Key>,
        role: Option<&str>,
    ) -> Result<(), EditError>
        ensures added { OnOk result (edits_doc self.new
            ≡ key_added (keys_doc keys.entries) (option_copied role.entry) (edits_doc self.old)) }
        ensures there { OnOk result (IsTrue (is_some (edits_doc self.old).keys)) }
        ensures refused { IfErr result (IsUndelegated (edits_doc self.old)) }
        ensures unchanged { OnErr result (edits_doc self.new ≡ edits_doc self.old) }
    {
        let Some(known) = &self.keys else {
            return Err(EditError::NoDelegations);
        };
        let ids = keyids_of(alloc, &keys)?;
        let keys = with_keys(known, &keys)?;
        match role {
            Some(name) => self.put_key(alloc, name, ids, keys)?,
            None => self.keys = Some(keys),
        }
        Ok(())
    }

    // Removes the identifier from each old role of the name.
    fn remove_from_roles(&mut self, name: &str, keyid: &Decoded<Hex>)
        ensures { edits_doc self.new
            ≡ key_removed keyid.now (Some name.now) (edits_doc self.old) }
    {
        remove_keyids(&mut self.old_roles, name, keyid);
    }

    // Removes the key of the identifier, if there are keys.
    fn remove_from_keys(&mut self, keyid: &Decoded<Hex>)
        ensures { edits_doc self.new ≡ key_removed keyid.now None (edits_doc self.old) }
    {
        if let Some(keys) = &mut self.keys {
            drop_key(keys, keyid);
        }
    }

    /// Removes the identifier from each old role of the name, or, where no name is given, the key from the keys; `NoDelegations` where the document
    /// delegates to no role.
    pub fn remove_key(&mut self, keyid: &Decoded<Hex>, role: Option<&str>) -> Result<(), EditError>
        ensures removed { OnOk result (edits_doc self.new
            ≡ key_removed keyid.now (option_copied role.entry) (edits_doc self.old)) }
        ensures there { OnOk result (IsTrue (is_some (edits_doc self.old).keys)) }
        ensures refused { IfErr result (IsUndelegated (edits_doc self.old)) }
        ensures unchanged { OnErr result (edits_doc self.new ≡ edits_doc self.old) }
    {
        if self.keys.is_none() {
            return Err(EditError::NoDelegations);
        }
        match role {
            Some(name) => self.remove_from_roles(name, keyid),
            None => self.remove_from_keys(keyid),
        }
        Ok(())
    }
}
