//! Signers, and the keys that they sign by.

ghost use Rattle.std.specs.Prelude.{◌≡◌, IfOk, IfErr, option_map};
ghost use Rattle.tough_keys.specs.Key.{key_doc};
ghost use Rattle.tough_keys.specs.Failing.{IsReasoned};
ghost use Rattle.tough_roles.specs.Root.{keys_doc};
ghost use Rattle.tough_sign.specs.Making.{last_of, has_signer};
ghost use Rattle.tough_sign.specs.Signers.{signers_of, AreKeyed, SomeFails};

use std::alloc::Global;
use std::collections::BTreeMap;
use tough_decoded::{Decoded, Hex};
use tough_keys::{Key, Sign, SignError};

/// A signer, and its key as it told it.
#[derive(Drop)]
pub struct KeyedSigner<'a, S> {
    key: Key,
    signer: &'a S,
}

impl<'a, S> KeyedSigner<'a, S> {
    ghost use Rattle.tough_sign.specs.Signers.{key_in};

    /// The key that the signer told.
    pub fn key(&self) -> &Key
        ensures { result.now ≡ key_in self.now }
    {
        &self.key
    }
}

// A signer with its key.
fn ask_key<'a, S: Sign>(alloc: Global, signer: &'a S) -> Result<KeyedSigner<'a, S>, SignError>
    ensures signer { IfOk result (λ k. k.signer.now ≡ signer.now) }
    ensures key { IfOk result (λ k. key_doc k.key ≡ S.key signer.now) }
    ensures failure { IfErr result (IsReasoned (S.fails signer.now)) }
{
    let key = signer.tuf_key(alloc)?;
    Ok(KeyedSigner { key, signer })
}

/// The signers with their keys, each of which is asked for once, in order. Where a signer fails, so does this, for the reason that it gives.
pub fn ask_keys<'a, S: Sign>(
    alloc: Global,
    signers: &'a [S],
) -> Result<Vec<KeyedSigner<'a, S>>, SignError>
    ensures signers { IfOk result (λ v. signers_of v.items ≡ signers.now) }
    ensures keys { IfOk result (λ v. AreKeyed S.key v.items) }
    ensures failure { IfErr result (IsReasoned (SomeFails S.fails signers.now)) }
{
    let mut all = Vec::new(alloc);
    for signer in signers {
        let keyed = ask_key(alloc, signer)?;
        all.push(keyed)?;
    }
    Ok(all)
}

/// The last of the signers whose key equals this one.
pub(crate) fn last_signer<'a, S: Sign>(signers: &[KeyedSigner<'a, S>], key: &Key) -> Option<&'a S>
    requires { AreKeyed S.key signers.now }
    ensures { option_map (λ x. x.now) result
        ≡ last_of S.key (key_doc key.now) (signers_of signers.now) }
{
    let mut found = None;
    for keyed in signers {
        if *key == keyed.key {
            found = Some(keyed.signer);
        }
    }
    found
}

/// Whether a signer has one of the keys.
pub fn has_signer<S: Sign>(
    known: &BTreeMap<Decoded<Hex>, Key>,
    signers: &[KeyedSigner<'_, S>],
) -> bool
    requires { AreKeyed S.key signers.now }
    ensures { result
        ≡ has_signer S.key (keys_doc known.now.entries) (signers_of signers.now) }
{
    for (_, key) in known.iter() {
        if last_signer(signers, key).is_some() {
            return true;
        }
    }
    false
}
