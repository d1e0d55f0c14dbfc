//! The signatures of signers.

ghost use Rattle.std.specs.Prelude.{◌≡◌, IfOk, IfErr, option_map};
ghost use Rattle.tough_keys.specs.Key.{key_doc};
ghost use Rattle.tough_keys.specs.Failing.{IsReasoned};
ghost use Rattle.tough_roles.specs.Signature.{signature_doc, signatures_doc};
ghost use Rattle.tough_roles.specs.Root.{keys_doc};
ghost use Rattle.tough_sign.specs.Making.{AreMade, IsMade, chosen, pick, is_listed, is_first};
ghost use Rattle.tough_sign.specs.Signers.{signers_of, AreKeyed, OneFails, ChosenFails};

use crate::signers::{KeyedSigner, last_signer};
use std::alloc::Global;
use std::collections::BTreeMap;
use tough_decoded::{Decoded, Hex};
use tough_keys::{Key, Sign, SignError};
use tough_roles::Signature;

// Whether an identifier is listed.
fn is_listed(keyids: &[Decoded<Hex>], keyid: &Decoded<Hex>) -> bool
    ensures { result ≡ is_listed keyids.now keyid.now }
{
    for id in keyids {
        if id == keyid {
            return true;
        }
    }
    false
}

// Whether no identifier before this one has an equal key.
fn is_first(known: &BTreeMap<Decoded<Hex>, Key>, keyid: &Decoded<Hex>, key: &Key) -> bool
    ensures { result ≡ is_first (keys_doc known.now.entries) keyid.now (key_doc key.now) }
{
    for (id, other) in known.iter() {
        if key == other {
            return id == keyid;
        }
    }
    true
}

// The signer's signature under this identifier.
fn signature_by<S: Sign>(
    alloc: Global,
    signer: &S,
    keyid: &Decoded<Hex>,
    text: &[u8],
) -> Result<Signature, SignError>
    ensures keyid { IfOk result (λ s. s.keyid ≡ keyid.now) }
    ensures made { IfOk result (λ s. S.signs signer.now text.now s.sig.bytes) }
    ensures failure { IfErr result (IsReasoned (S.fails signer.now)) }
{
    let sig = signer.sign(alloc, text)?;
    let sig = Decoded::from_vec(alloc, sig)?;
    let keyid = keyid.clone()?;
    Ok(Signature { keyid, sig })
}

// The signature under this identifier, if there is one.
fn sign_one<S: Sign>(
    alloc: Global,
    known: &BTreeMap<Decoded<Hex>, Key>,
    keyids: &[Decoded<Hex>],
    signers: &[KeyedSigner<'_, S>],
    keyid: &Decoded<Hex>,
    key: &Key,
    text: &[u8],
) -> Result<Option<Signature>, SignError>
    requires { AreKeyed S.key signers.now }
    ensures made { IfOk result (λ o. IsMade S.signs text.now
        (pick S.key (keys_doc known.now.entries) keyids.now (signers_of signers.now)
        (keyid.now, key_doc key.now)) (option_map signature_doc o)) }
    ensures failure { IfErr result (IsReasoned (OneFails S.fails
        (pick S.key (keys_doc known.now.entries) keyids.now (signers_of signers.now)
        (keyid.now, key_doc key.now)))) }
{
    if !is_listed(keyids, keyid) || !is_first(known, keyid, key) {
        return Ok(None);
    }
    match last_signer(signers, key) {
        Some(signer) => Ok(Some(signature_by(alloc, signer, keyid, text)?)),
        None => Ok(None),
    }
}

/// The signatures over a text of those signers whose keys are known and listed, in the order of their identifiers: each under the first
/// identifier of its key, and of two signers of one key the later one's. Where one of these fails, so does this, for the reason that it gives.
pub fn sign_under<S: Sign>(
    alloc: Global,
    known: &BTreeMap<Decoded<Hex>, Key>,
    keyids: &[Decoded<Hex>],
    signers: &[KeyedSigner<'_, S>],
    text: &[u8],
) -> Result<Vec<Signature>, SignError>
    requires { AreKeyed S.key signers.now }
    ensures made { IfOk result (λ v. AreMade S.signs text.now
        (chosen S.key (keys_doc known.now.entries) keyids.now (signers_of signers.now))
        (signatures_doc v.items)) }
    ensures failure { IfErr result (IsReasoned (ChosenFails S.fails
        (chosen S.key (keys_doc known.now.entries) keyids.now (signers_of signers.now)))) }
{
    let mut signatures = Vec::new(alloc);
    for (keyid, key) in known.iter() {
        if let Some(signature) = sign_one(alloc, known, keyids, signers, keyid, key, text)? {
            signatures.push(signature)?;
        }
    }
    Ok(signatures)
}
