//! Which keys signed a root, and which still have to.

ghost use Rattle.std.specs.Prelude.{◌≡◌, IfOk, IfErr, map, Decides};
ghost use Rattle.std.specs.List.{list_any};
ghost use Rattle.std.specs.Str.{bytes_eq};
ghost use Rattle.tough_keys.specs.Key.{key_doc};
ghost use Rattle.tough_keys.specs.Same.{data_of};
ghost use Rattle.tough_roles.specs.Root.{root_doc, keys_doc, role_keys_doc};
ghost use Rattle.tough_roles.specs.Signature.{signatures_doc, signed_doc};
ghost use Rattle.tough_roles.specs.Verdict.{is_by, some_twice};
ghost use Rattle.tough_ceremony.specs.Tallying.{signed_by, signed_of, waiting_of, signed_in, waiting_in, threshold_in, is_once, is_reached, IsTallyOf, IsTally, IsAccepted};
ghost use Rattle.tough_ceremony.specs.Refusals.{IsUncounted};

use crate::error::CeremonyError;
use crate::listing::is_listed;
use crate::sign::text_of;
use std::alloc::{AllocError, Global};
use std::collections::BTreeMap;
use std::num::NonZeroU64;
use tough_decoded::{Decoded, Hex};
use tough_keys::{Key, Verify};
use tough_roles::{RoleKeys, RoleType, Root, Signature, Signed};

/// Which of the keys that a root lists for roots signed a root, and which still have to (TUF specification 1.0, section 5.3.4). Identifiers are
/// counted, as a client counts them: each is told once, in the order of the root's list, at the last place where it stands there.
#[derive(Drop)]
pub struct Tally<'a> {
    signed: Vec<&'a Decoded<Hex>>,
    waiting: Vec<&'a Decoded<Hex>>,
    threshold: NonZeroU64,
    once: bool,
}

impl<'a> Tally<'a> {
    /// The identifiers whose keys signed.
    pub fn signed(&self) -> &[&'a Decoded<Hex>]
        ensures { map (λ id. id.now) result.now ≡ signed_in self.now }
    {
        &self.signed
    }

    /// The identifiers whose keys still have to sign, or aren't among the root's keys.
    pub fn waiting(&self) -> &[&'a Decoded<Hex>]
        ensures { map (λ id. id.now) result.now ≡ waiting_in self.now }
    {
        &self.waiting
    }

    /// How many keys must sign.
    pub fn threshold(&self) -> u64
        ensures { result ≡ threshold_in self.now }
    {
        self.threshold.get()
    }

    /// Whether no two signatures stand under one identifier, which a client refuses.
    pub fn is_once(&self) -> bool
        ensures { result ≡ is_once self.now }
    {
        self.once
    }

    /// Whether under as many identifiers as must a key signed, and no two signatures stand under one identifier.
    pub fn is_reached(&self) -> bool
        ensures { result ≡ is_reached self.now }
    {
        self.once && self.threshold.get() <= self.signed.len() as u64
    }
}

// Whether a signature stands under the identifier.
fn is_under(signatures: &[Signature], id: &Decoded<Hex>) -> bool
    ensures { result
        ≡ list_any (λ s. bytes_eq s.keyid.bytes id.now.bytes) (signatures_doc signatures.now) }
{
    for signature in signatures {
        if signature.keyid == *id {
            return true;
        }
    }
    false
}

// Whether two signatures stand under one identifier.
fn some_twice(signatures: &[Signature]) -> bool
    ensures { result ≡ some_twice (signatures_doc signatures.now) }
{
    for (place, signature) in signatures.iter().enumerate() {
        if is_under(&signatures[place + 1..], &signature.keyid) {
            return true;
        }
    }
    false
}

// Whether a signature by the key stands under the identifier.
fn is_signed<V: Verify>(
    id: &Decoded<Hex>,
    key: &Key,
    text: &[u8],
    signatures: &[Signature],
    verifier: &V,
) -> bool
    ensures { result ≡ list_any
        (is_by (V.verifies verifier.now) text.now id.now.bytes (data_of (key_doc key.now)))
        (signatures_doc signatures.now) }
{
    for signature in signatures {
        if signature.keyid == *id && verifier.verify(key, text, signature.sig.as_slice()) {
            return true;
        }
    }
    false
}

// Whether the key of the identifier signed.
fn has_signed<V: Verify>(
    known: &BTreeMap<Decoded<Hex>, Key>,
    id: &Decoded<Hex>,
    text: &[u8],
    signatures: &[Signature],
    verifier: &V,
) -> bool
    ensures { result ≡ signed_by (V.verifies verifier.now) (keys_doc known.now.entries) text.now
        (signatures_doc signatures.now) id.now }
{
    match known.get(id) {
        Some(key) => is_signed(id, key, text, signatures, verifier),
        None => false,
    }
}

// The identifiers whose keys signed, and those whose keys still have to.
fn split<'a, V: Verify>(
    alloc: Global,
    known: &BTreeMap<Decoded<Hex>, Key>,
    ids: &'a [Decoded<Hex>],
    text: &[u8],
    signatures: &[Signature],
    verifier: &V,
) -> Result<(Vec<&'a Decoded<Hex>>, Vec<&'a Decoded<Hex>>), AllocError>
    ensures signed { IfOk result (λ p. map (λ id. id.now) p.0.items
        ≡ signed_of (V.verifies verifier.now) (keys_doc known.now.entries) text.now
        (signatures_doc signatures.now) ids.now) }
    ensures waiting { IfOk result (λ p. map (λ id. id.now) p.1.items
        ≡ waiting_of (V.verifies verifier.now) (keys_doc known.now.entries) text.now
        (signatures_doc signatures.now) ids.now) }
{
    let mut signed = Vec::new(alloc);
    let mut waiting = Vec::new(alloc);
    for (place, id) in ids.iter().enumerate() {
        if is_listed(&ids[place + 1..], id) {
            continue;
        }
        if has_signed(known, id, text, signatures, verifier) {
            signed.push(id)?;
        } else {
            waiting.push(id)?;
        }
    }
    Ok((signed, waiting))
}

// The tally of a role's keys.
fn tally_role<'a, V: Verify>(
    alloc: Global,
    known: &BTreeMap<Decoded<Hex>, Key>,
    keys: &'a RoleKeys,
    text: &[u8],
    signatures: &[Signature],
    verifier: &V,
) -> Result<Tally<'a>, AllocError>
    ensures { IfOk result (IsTallyOf (V.verifies verifier.now) (keys_doc known.now.entries)
        (role_keys_doc keys.now) text.now (signatures_doc signatures.now)) }
{
    let (signed, waiting) = split(alloc, known, &keys.keyids, text, signatures, verifier)?;
    Ok(Tally {
        signed,
        waiting,
        threshold: keys.threshold,
        once: !some_twice(signatures),
    })
}

/// Which of the keys that this root lists for roots signed the document. The tally is reached exactly where [`Root::verify_role`] accepts the
/// document under this root, as a client's root step does (TUF specification 1.0, section 5.3.4). `NoRole` where this root has no keys for roots,
/// `Unwritable` where the document's root has no canonical form; `Memory` when out of memory.
pub fn tally_root<'a, V: Verify>(
    alloc: Global,
    by: &'a Root,
    document: &Signed<Root>,
    verifier: &V,
) -> Result<Tally<'a>, CeremonyError>
    ensures tally { IfOk result (IsTally (V.verifies verifier.now) (root_doc by.now)
        (signed_doc root_doc document.now)) }
    ensures reached { IfOk result (λ t. Decides (is_reached t)
        (IsAccepted (V.verifies verifier.now) by.now document.now)) }
    ensures refused { IfErr result
        (IsUncounted (root_doc by.now) (root_doc document.now.signed)) }
{
    let Some(keys) = by.roles.get(&RoleType::Root) else {
        return Err(CeremonyError::NoRole {
            role: RoleType::Root,
        });
    };
    let text = text_of(alloc, &document.signed)?;
    let text = text.as_slice();
    let tally = tally_role(alloc, &by.keys, keys, text, &document.signatures, verifier)?;
    Ok(tally)
}
