//! Keys that signers tell.

ghost use Rattle.std.specs.Prelude.{◌≡◌, [], Some, IfOk, IfErr, OnOk, None, map};
ghost use Rattle.tough_keys.specs.Key.{key_doc};
ghost use Rattle.tough_roles.specs.Root.{keys_doc};
ghost use Rattle.tough_signed.specs.Holders.{holder_doc};
ghost use Rattle.tough_edit.specs.Signers.{own_id, AreIds, put_own, own_keys, IsHolderOf, IsKeyless, keys_told, IsIdless, SomeIdless};

use crate::keys::put_copy;
use std::alloc::Global;
use std::collections::BTreeMap;
use std::num::NonZeroU64;
use tough_decoded::{Decoded, Hex};
use tough_json::WriteError;
use tough_keys::{Key, Sign};
use tough_schema::{DelegatedRole, Delegations, KeyHolder, PathSet};
use tough_sign::KeyedSigner;
use tough_signed::{EditError, ask};

// The key's own identifier.
fn own_id(alloc: Global, key: &Key) -> Result<Decoded<Hex>, EditError>
    ensures id { IfOk result (λ id. own_id (key_doc key.now) ≡ Some id) }
    ensures refused { IfErr result (IsIdless (own_id (key_doc key.now) ≡ None)) }
{
    match key.key_id(alloc) {
        Ok(id) => Ok(id),
        Err(WriteError::Unwritable) => Err(EditError::JsonSerialization),
        Err(WriteError::Memory) => Err(EditError::Memory),
    }
}

// The own identifiers of the keys.
fn own_ids<S: Sign>(
    alloc: Global,
    signers: &[KeyedSigner<'_, S>],
) -> Result<Vec<Decoded<Hex>>, EditError>
    ensures ids { IfOk result (λ v. AreIds (keys_told signers.now) v.items) }
    ensures refused { IfErr result (IsIdless (SomeIdless signers.now)) }
{
    let mut ids = Vec::new(alloc);
    for signer in signers {
        match own_id(alloc, signer.key()) {
            Ok(id) => ids.push(id)?,
            Err(error) => return Err(error),
        }
    }
    Ok(ids)
}

// Takes the key in under its own identifier.
fn put_own(
    known: &mut BTreeMap<Decoded<Hex>, Key>,
    alloc: Global,
    key: &Key,
) -> Result<(), EditError>
    ensures put { OnOk result (keys_doc known.new.entries
        ≡ put_own (keys_doc known.old.entries) (own_id (key_doc key.now)) (key_doc key.now)) }
    ensures refused { IfErr result (IsIdless (own_id (key_doc key.now) ≡ None)) }
{
    let id = own_id(alloc, key)?;
    put_copy(known, &id, key)?;
    Ok(())
}

// The keys under their own identifiers.
fn own_keys<S: Sign>(
    alloc: Global,
    signers: &[KeyedSigner<'_, S>],
) -> Result<BTreeMap<Decoded<Hex>, Key>, EditError>
    ensures keys { IfOk result (λ m. keys_doc m.entries ≡ own_keys [] (keys_told signers.now)) }
    ensures refused { IfErr result (IsIdless (SomeIdless signers.now)) }
{
    let mut known = BTreeMap::new(alloc);
    for signer in signers {
        if let Err(error) = put_own(&mut known, alloc, signer.key()) {
            return Err(error);
        }
    }
    Ok(known)
}

/// The identifiers of keys in the signers' order, and the keys under them.
#[derive(Drop)]
pub struct SignersKeys {
    /// The identifiers, in the signers' order.
    pub keyids: Vec<Decoded<Hex>>,
    /// The keys under their identifiers; of two keys with one identifier the later.
    pub keys: BTreeMap<Decoded<Hex>, Key>,
}

/// The keys that the signers tell, under their own identifiers. The refusals, in this order: `SignMessage` where a signer doesn't tell its key,
/// `JsonSerialization` where a key has no identifier.
pub fn signers_keys<S: Sign>(alloc: Global, signers: &[S]) -> Result<SignersKeys, EditError>
    ensures ids { IfOk result (λ k. AreIds (map S.key signers.now) k.keyids.items) }
    ensures keys { IfOk result (λ k. keys_doc k.keys.entries
        ≡ own_keys [] (map S.key signers.now)) }
    ensures refused { IfErr result (IsKeyless S.key S.fails signers.now) }
{
    let told = ask(alloc, signers)?;
    let keyids = match own_ids(alloc, &told) {
        Ok(keyids) => keyids,
        Err(error) => return Err(error),
    };
    match own_keys(alloc, &told) {
        Ok(keys) => Ok(SignersKeys { keyids, keys }),
        Err(error) => Err(error),
    }
}

/// The holder of the signers' keys for the one role of the name, which one of them signs; the refusals of `signers_keys`.
pub(crate) fn holder_of<S: Sign>(
    alloc: Global,
    name: &str,
    signers: &[S],
) -> Result<KeyHolder, EditError>
    ensures holder { IfOk result (λ h. IsHolderOf name.now (map S.key signers.now) (holder_doc h)) }
    ensures refused { IfErr result (IsKeyless S.key S.fails signers.now) }
{
    let SignersKeys { keyids, keys } = signers_keys(alloc, signers)?;
    let name = String::from_str(alloc, name)?;
    let mut roles = Vec::new(alloc);
    roles.push(DelegatedRole {
        name,
        keyids,
        threshold: NonZeroU64::MIN,
        paths: PathSet::Paths(Vec::new(alloc)),
        terminating: false,
        targets: None,
    })?;
    Ok(KeyHolder::Delegations(Delegations { keys, roles }))
}
