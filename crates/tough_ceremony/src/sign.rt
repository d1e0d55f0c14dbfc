//! Roots are signed by one holder of a key after another.

ghost use Rattle.std.specs.Prelude.{◌≡◌, ◌++◌, [], map, Some, option_map, option_copied, IfOk, IfErr, OnOk, OnErr};
ghost use Rattle.tough_keys.specs.Key.{key_doc};
ghost use Rattle.tough_roles.specs.Chain.{text_by};
ghost use Rattle.tough_roles.specs.Root.{root_doc, keys_doc, root_json};
ghost use Rattle.tough_roles.specs.Signature.{signature_doc, signatures_doc};
ghost use Rattle.tough_ceremony.specs.Signing.{root_ids, is_of, noted, noted_in, signature_under, others, signed_under, AreIds, AreSignedBy};
ghost use Rattle.tough_ceremony.specs.Refusals.{IsUnsigned, IsTextless, IsFailure};

use crate::error::CeremonyError;
use crate::listing::is_listed;
use std::alloc::{AllocError, Global};
use std::collections::BTreeMap;
use std::mem;
use tough_decoded::{Decoded, Hex};
use tough_json::WriteError;
use tough_keys::{Key, Sign};
use tough_roles::{Role, RoleType, Root, Signature, Signed};

// The identifiers that the root lists for roots.
fn root_ids(root: &Root) -> &[Decoded<Hex>]
    ensures { result.now ≡ root_ids (root_doc root.now) }
{
    match root.roles.get(&RoleType::Root) {
        Some(keys) => &keys.keyids,
        None => &[],
    }
}

// Whether an equal key stands under the identifier.
fn is_of(known: &BTreeMap<Decoded<Hex>, Key>, key: &Key, id: &Decoded<Hex>) -> bool
    ensures { result ≡ is_of (keys_doc known.now.entries) (key_doc key.now) id.now }
{
    match known.get(id) {
        Some(other) => other == key,
        None => false,
    }
}

// These identifiers, and behind them each that the root lists for roots, that isn't there yet, and under which an equal key stands.
fn note(ids: Vec<Decoded<Hex>>, root: &Root, key: &Key) -> Result<Vec<Decoded<Hex>>, AllocError>
    ensures { IfOk result (λ v. v.items ≡ noted (keys_doc root.now.keys.entries)
        (key_doc key.now) ids.items (root_ids (root_doc root.now))) }
{
    let listed = root_ids(root);
    let mut all = ids;
    for id in listed {
        if !is_listed(&all, id) && is_of(&root.keys, key, id) {
            all.push(id.clone()?)?;
        }
    }
    Ok(all)
}

// The identifiers under which the roots list the key for roots, each once.
fn identifiers(
    alloc: Global,
    root: &Root,
    old: Option<&Root>,
    key: &Key,
) -> Result<Vec<Decoded<Hex>>, AllocError>
    ensures { IfOk result (λ v. v.items ≡ noted_in (key_doc key.now)
        (noted (keys_doc root.now.keys.entries) (key_doc key.now) [] (root_ids (root_doc root.now)))
        (option_map root_doc (option_copied old.entry))) }
{
    let ids = note(Vec::new(alloc), root, key)?;
    match old {
        Some(old) => note(ids, old, key),
        None => Ok(ids),
    }
}

// The signatures that stand under none of the identifiers.
fn others(
    alloc: Global,
    signatures: &[Signature],
    ids: &[Decoded<Hex>],
) -> Result<Vec<Signature>, AllocError>
    ensures { IfOk result (λ v. signatures_doc v.items
        ≡ others ids.now (signatures_doc signatures.now)) }
{
    let mut all = Vec::new(alloc);
    for signature in signatures {
        if !is_listed(ids, &signature.keyid) {
            all.push(signature.clone()?)?;
        }
    }
    Ok(all)
}

// The signature under the identifier.
fn signature_under(alloc: Global, id: &Decoded<Hex>, sig: &[u8]) -> Result<Signature, AllocError>
    ensures { IfOk result (λ s. signature_doc s ≡ signature_under sig.now id.now) }
{
    let keyid = id.clone()?;
    let sig = Vec::from_slice(alloc, sig)?;
    let sig = Decoded::from_vec(alloc, sig)?;
    Ok(Signature { keyid, sig })
}

// These signatures, and behind them this one under each identifier.
fn add_under(
    alloc: Global,
    signatures: Vec<Signature>,
    ids: &[Decoded<Hex>],
    sig: &[u8],
) -> Result<Vec<Signature>, AllocError>
    ensures { IfOk result (λ v. signatures_doc v.items
        ≡ signatures_doc signatures.items ++ map (signature_under sig.now) ids.now) }
{
    let mut all = signatures;
    for id in ids {
        all.push(signature_under(alloc, id, sig)?)?;
    }
    Ok(all)
}

// The signatures, where this one stands under each of these identifiers in the place of what stood there.
fn replace_under(
    alloc: Global,
    signatures: &[Signature],
    ids: &[Decoded<Hex>],
    sig: &[u8],
) -> Result<Vec<Signature>, AllocError>
    ensures { IfOk result (λ v. signatures_doc v.items
        ≡ signed_under ids.now sig.now (signatures_doc signatures.now)) }
{
    let kept = others(alloc, signatures, ids)?;
    add_under(alloc, kept, ids, sig)
}

/// What the signatures of the root are over: `Unwritable` where it has no canonical form.
pub(crate) fn text_of(alloc: Global, root: &Root) -> Result<Vec<u8>, CeremonyError>
    ensures text { IfOk result (λ t. text_by root_json (root_doc root.now) ≡ Some t.items) }
    ensures refused { IfErr result (IsTextless (root_doc root.now)) }
{
    match root.canonical_form(alloc) {
        Ok(text) => Ok(text),
        Err(WriteError::Unwritable) => Err(CeremonyError::Unwritable),
        Err(WriteError::Memory) => Err(CeremonyError::Memory),
    }
}

// The signer's public key.
fn key_of<S: Sign>(alloc: Global, signer: &S) -> Result<Key, CeremonyError>
    ensures key { IfOk result (λ k. key_doc k ≡ S.key signer.now) }
    ensures failure { IfErr result (IsFailure (S.fails signer.now)) }
{
    match signer.tuf_key(alloc) {
        Ok(key) => Ok(key),
        Err(error) => Err(CeremonyError::from(error)),
    }
}

// The signer's signature.
fn sign_text<S: Sign>(alloc: Global, signer: &S, text: &[u8]) -> Result<Vec<u8>, CeremonyError>
    ensures signature { IfOk result (λ s. S.signs signer.now text.now s.items) }
    ensures failure { IfErr result (IsFailure (S.fails signer.now)) }
{
    match signer.sign(alloc, text) {
        Ok(sig) => Ok(sig),
        Err(error) => Err(CeremonyError::from(error)),
    }
}

// The identifiers under which the roots list the signer's key for roots, each once: `NotListed` where there is none.
fn signer_ids<S: Sign>(
    alloc: Global,
    root: &Root,
    old: Option<&Root>,
    signer: &S,
) -> Result<Vec<Decoded<Hex>>, CeremonyError>
    ensures ids { IfOk result (λ v. AreIds (S.key signer.now) (root_doc root.now)
        (option_map root_doc (option_copied old.entry)) v.items) }
    ensures refused { IfErr result (IsUnsigned (S.fails signer.now) (S.key signer.now)
        (root_doc root.now) (option_map root_doc (option_copied old.entry))) }
{
    let key = key_of(alloc, signer)?;
    let ids = identifiers(alloc, root, old, &key)?;
    if ids.is_empty() {
        return Err(CeremonyError::NotListed);
    }
    Ok(ids)
}

// The signatures of the document, with those by the signer.
#[tactic(auto, using(crate::proofs::Refusing::textless))]
fn signatures_by<S: Sign>(
    alloc: Global,
    document: &Signed<Root>,
    old: Option<&Root>,
    signer: &S,
) -> Result<Vec<Signature>, CeremonyError>
    ensures signed { IfOk result (λ v. AreSignedBy S.key S.signs signer.now
        (root_doc document.now.signed) (option_map root_doc (option_copied old.entry))
        (signatures_doc document.now.signatures.items) (signatures_doc v.items)) }
    ensures refused { IfErr result (IsUnsigned (S.fails signer.now) (S.key signer.now)
        (root_doc document.now.signed) (option_map root_doc (option_copied old.entry))) }
{
    let ids = signer_ids(alloc, &document.signed, old, signer)?;
    let text = text_of(alloc, &document.signed)?;
    let sig = sign_text(alloc, signer, text.as_slice())?;
    let all = replace_under(alloc, &document.signatures, &ids, sig.as_slice())?;
    Ok(all)
}

/// Puts one signature of the root under each identifier under which the root, or the one before it, lists the signer's key for roots: what
/// stood there goes, and the new ones stand behind all other signatures, which stay as they are, in their order (TUF specification 1.0,
/// sections 4.2 and 6.1). No signature is verified here: a tally tells which verify.
/// The refusals: `Signer` where the signer doesn't tell its key, or fails; `NotListed` where no root lists the key; `Unwritable` where one does, and the
/// root has no canonical form; `Memory` when out of memory. The document stays as it is then.
pub fn sign_root<S: Sign>(
    alloc: Global,
    document: &mut Signed<Root>,
    old: Option<&Root>,
    signer: &S,
) -> Result<(), CeremonyError>
    ensures signed { OnOk result (AreSignedBy S.key S.signs signer.now
        (root_doc document.old.signed) (option_map root_doc (option_copied old.entry))
        (signatures_doc document.old.signatures.items)
        (signatures_doc document.new.signatures.items)) }
    ensures same { document.new.signed ≡ document.old.signed }
    ensures refused { IfErr result (IsUnsigned (S.fails signer.now) (S.key signer.now)
        (root_doc document.old.signed) (option_map root_doc (option_copied old.entry))) }
    ensures unchanged { OnErr result
        (document.new.signatures.items ≡ document.old.signatures.items) }
{
    let signatures = signatures_by(alloc, document, old, signer)?;
    let before = mem::replace(&mut document.signatures, signatures);
    drop(before);
    Ok(())
}
