ghost use Rattle.std.specs.Prelude.{◌≡◌, ◌<◌, option_map};
ghost use Rattle.tough_roles.specs.Keyring.{id_of};
ghost use Rattle.tough_schema.specs.Delegations.{delegations_doc, no_delegations, keys_held};
ghost use Rattle.tough_schema.specs.Falling.{depth_of, deepest};

use crate::fall::{joined, roles_below};
use crate::targets::DelegatedTargets;
use std::alloc::Global;
use std::collections::BTreeMap;
use std::num::NonZeroU64;
use tough_decoded::{Decoded, Hex};
use tough_keys::Key;
use tough_names::{PathHashPrefix, PathPattern};
use tough_roles::Signed;
use tough_roles::keyring::key_id_in;

/// The names that a delegated role may list: names that a pattern matches, or names whose digest begins with a prefix
/// (TUF specification 1.0, section 4.5, `paths` and `path_hash_prefixes`).
#[derive(Debug, Drop, PartialEq)]
pub enum PathSet {
    Paths(Vec<PathPattern>),
    PathHashPrefixes(Vec<PathHashPrefix>),
}

/// The roles that a document delegates to, in their order, and their keys (TUF specification 1.0, section 4.5,
/// `delegations`).
#[derive(Debug)]
#[cycle(tree)]
pub struct Delegations {
    pub keys: BTreeMap<Decoded<Hex>, Key>,
    pub roles: Vec<DelegatedRole>,
}

impl Delegations {
    /// Delegations to no role.
    pub fn new(alloc: Global) -> Delegations
        ensures { delegations_doc result ≡ no_delegations }
    {
        Delegations {
            keys: BTreeMap::new(alloc),
            roles: Vec::new(alloc),
        }
    }

    /// The first identifier whose key is equal to the given one.
    pub fn key_id(&self, key: &Key) -> Option<&Decoded<Hex>>
        ensures { option_map (λ id. id.now) result ≡ id_of key.now (keys_held self.now) }
    {
        key_id_in(&self.keys, key)
    }
}

impl Delegations {
    /// Gives the roles out, and drops the keys.
    pub(crate) fn into_roles(self) -> Vec<DelegatedRole>
        ensures { deepest result.items < depth_of self }
    {
        let Delegations { keys: _, roles } = self;
        roles
    }
}

impl Drop for Delegations {
    /// Drops one role after another, without recursion: the roles below a role take its place. When out of memory, they
    /// are dropped before the others.
    #[cycle(fall)]
    fn drop(self) {
        let mut left = self.into_roles();
        for _ in 0..u64::MAX {
            let Some(role) = left.pop() else {
                return;
            };
            if let Some(below) = roles_below(role) {
                let (more, over) = joined(left, below);
                left = more;
                drop(over);
            }
        }
    }
}

/// A delegated role, and its document where that was loaded. The document is no member of the JSON.
#[derive(Debug, Drop, PartialEq)]
#[cycle(tree)]
pub struct DelegatedRole {
    pub name: String,
    pub keyids: Vec<Decoded<Hex>>,
    pub threshold: NonZeroU64,
    pub paths: PathSet,
    pub terminating: bool,
    pub targets: Option<Signed<DelegatedTargets>>,
}
