//! Keys by their identifiers.

ghost use Rattle.std.specs.Prelude.{◌≡◌, option_map};
ghost use Rattle.std.specs.Iterator.{YieldsFirstRef, item_count};
ghost use Rattle.tough_roles.specs.Keyring.{keys_along, keys_left, listed_ids, id_of};

use crate::role_type::RoleType;
use crate::root::Root;
use std::collections::BTreeMap;
use tough_decoded::{Decoded, Hex};
use tough_keys::Key;

/// The keys of identifiers in their order, which end at the first identifier without a key.
#[derive(Drop)]
pub struct KeysIter<'a> {
    keyids: &'a [Decoded<Hex>],
    keys: &'a BTreeMap<Decoded<Hex>, Key>,
}

impl<'a> Iterator for KeysIter<'a> {
    type Item = &'a Key;

    ghost next_gives = { YieldsFirstRef keys_left };

    ghost remaining = { item_count keys_left };

    fn next(&mut self) -> Option<&'a Key> {
        let (first, others) = self.keyids.split_first()?;
        let key = self.keys.get(first)?;
        self.keyids = others;
        Some(key)
    }
}

/// The keys that the map has for these identifiers.
pub fn keys_of<'a>(
    keys: &'a BTreeMap<Decoded<Hex>, Key>,
    keyids: &'a [Decoded<Hex>],
) -> KeysIter<'a>
    ensures { keys_left result ≡ keys_along keys.now.entries keyids.now }
{
    KeysIter { keyids, keys }
}

/// The first identifier under which a key stands that is equal to the given one.
pub fn key_id_in<'a>(keys: &'a BTreeMap<Decoded<Hex>, Key>, key: &Key) -> Option<&'a Decoded<Hex>>
    ensures { option_map (λ id. id.now) result ≡ id_of key.now keys.now.entries }
{
    for (id, known) in keys.iter() {
        if key == known {
            return Some(id);
        }
    }
    None
}

impl Root {
    // The identifiers that a role lists.
    fn listed_ids(&self, role: RoleType) -> &[Decoded<Hex>]
        ensures { result.now ≡ listed_ids self.now role }
    {
        match self.roles.get(&role) {
            Some(keys) => &keys.keyids,
            None => &[],
        }
    }

    /// The keys of the role in the order of its list, which end at the first identifier without a key; none where the
    /// root hasn't the role.
    pub fn keys(&self, role: RoleType) -> KeysIter<'_>
        ensures { keys_left result ≡ keys_along self.now.keys.entries (listed_ids self.now role) }
    {
        keys_of(&self.keys, self.listed_ids(role))
    }

    /// The identifier under which a key stands that is equal to the given one.
    pub fn key_id(&self, key: &Key) -> Option<&Decoded<Hex>>
        ensures { option_map (λ id. id.now) result ≡ id_of key.now self.now.keys.entries }
    {
        key_id_in(&self.keys, key)
    }
}
