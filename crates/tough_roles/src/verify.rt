//! Whether a role is signed by enough keys.

ghost use Rattle.std.specs.Prelude.{◌≡◌, ◌≤◌, ◌<◌, ◌&&◌, ℕ, List, Some, [], true, false, IfOk, MatchOption, count_by, length};
ghost use Rattle.std.specs.List.{list_any, HoldsAt};
ghost use Rattle.std.specs.Str.{bytes_eq};
ghost use Rattle.tough_roles.specs.Signature.{signature_doc, signatures_doc, signed_doc};
ghost use Rattle.tough_roles.specs.Root.{root_doc, keys_doc, role_keys_doc};
ghost use Rattle.tough_roles.specs.Policy.{policy, policy_of};
ghost use Rattle.tough_roles.specs.Verdict.{Refused, MissingRole, verdict, again, Answers, IsOkOrMemory, some_twice};
ghost use Rattle.tough_roles.specs.Counting.{bytes_of, key_of, under, is_valid};
ghost use Rattle.tough_roles.specs.Chain.{text_by, ReachesUnder};

use crate::error::Error;
use crate::role::Role;
use crate::role_type::RoleType;
use crate::root::{RoleKeys, Root};
use crate::signature::Signature;
use crate::signed::Signed;
use std::alloc::{AllocError, Global};
use std::collections::{BTreeMap, BTreeSet};
use tough_decoded::{Decoded, Hex};
use tough_json::error::WriteError;
use tough_keys::{Key, Verify};

// The identifiers that a role lists, and their bytes in order, so that n looks cost n log n.
#[derive(Drop)]
struct Listed<'a> {
    keyids: &'a [Decoded<Hex>],
    bytes: BTreeSet<&'a [u8]>,
    ghost same: { (sought : List ℕ) → list_any (λ k. bytes_eq sought k.now) bytes.keys
        ≡ list_any (λ id. bytes_eq sought id.bytes) keyids.now },
}

impl<'a> Listed<'a> {
    // The identifiers of this list.
    fn of(alloc: Global, keyids: &'a [Decoded<Hex>]) -> Result<Listed<'a>, AllocError>
        ensures { IfOk result (λ l. l.keyids.now ≡ keyids.now) }
    {
        let mut bytes = BTreeSet::new(alloc);
        for keyid in keyids {
            bytes.insert(keyid.as_slice())?;
        }
        Ok(Listed { keyids, bytes })
    }

    // Whether an identifier is listed.
    fn has(&self, keyid: &Decoded<Hex>) -> bool
        ensures { result ≡ list_any (λ id. bytes_eq id.bytes keyid.now.bytes) self.now.keyids.now }
    {
        self.bytes.contains(keyid.as_slice())
    }
}

// Whether a signature is by a known key.
fn is_signed<V: Verify>(
    keys: &BTreeMap<Decoded<Hex>, Key>,
    text: &[u8],
    signature: &Signature,
    verifier: &V,
) -> bool
    ensures { result ≡ under (V.verifies verifier.now) text.now signature.now.sig.bytes
        (key_of (keys_doc keys.now.entries) signature.now.keyid.bytes) }
{
    match keys.get(&signature.keyid) {
        Some(key) => verifier.verify(key, text, signature.sig.as_slice()),
        None => false,
    }
}

// Whether a signature is by a listed and known key.
fn counts<V: Verify>(
    keys: &BTreeMap<Decoded<Hex>, Key>,
    listed: &Listed<'_>,
    text: &[u8],
    signature: &Signature,
    verifier: &V,
) -> bool
    ensures { result ≡ is_valid (V.verifies verifier.now) (keys_doc keys.now.entries)
        (bytes_of listed.now.keyids.now) text.now (signature_doc signature.now) }
{
    listed.has(&signature.keyid) && is_signed(keys, text, signature, verifier)
}

// How many signatures are by listed and known keys.
fn valid_count<V: Verify>(
    keys: &BTreeMap<Decoded<Hex>, Key>,
    listed: &Listed<'_>,
    text: &[u8],
    signatures: &[Signature],
    verifier: &V,
) -> usize
    ensures { result ≡ count_by
        (λ s. is_valid (V.verifies verifier.now) (keys_doc keys.now.entries)
        (bytes_of listed.now.keyids.now) text.now (signature_doc s)) signatures.now }
{
    signatures
        .iter()
        .filter(|signature| counts(keys, listed, text, signature, verifier))
        .count()
}

// The place of the first identifier that stood before; the cost grows as n log n for n signatures.
fn repeated(alloc: Global, signatures: &[Signature]) -> Result<Option<usize>, AllocError>
    ensures { IfOk result (λ place. MatchOption place
        (some_twice (signatures_doc signatures.now) ≡ false)
        (λ i. (i < length signatures.now)
        × HoldsAt (λ s. again [] (signatures_doc signatures.now) ≡ s.keyid.spelling)
        (signatures_doc signatures.now) i
        × (some_twice (signatures_doc signatures.now) ≡ true))) }
{
    let mut seen = BTreeSet::new(alloc);
    for (i, signature) in signatures.iter().enumerate() {
        if !seen.insert(signature.keyid.as_slice())? {
            return Ok(Some(i));
        }
    }
    Ok(None)
}

// Whether the signatures over the text reach the threshold that the role asks for. The refusals, in this order: `DuplicateKeyId`,
// `SignatureThreshold`.
pub(crate) fn judge<V: Verify>(
    alloc: Global,
    known: &BTreeMap<Decoded<Hex>, Key>,
    role: RoleType,
    keys: &RoleKeys,
    text: &[u8],
    signatures: &[Signature],
    verifier: &V,
) -> Result<(), Error>
    ensures { (absent : Refused) → Answers result
        (verdict (V.verifies verifier.now) absent role
        (Some (policy_of (keys_doc known.now.entries) (role_keys_doc keys.now))) (Some text.now)
        (signatures_doc signatures.now)) }
{
    let twice = repeated(alloc, signatures)?;
    if let Some(place) = twice {
        let keyid = String::from_str(alloc, signatures[place].keyid.as_str())?;
        return Err(Error::DuplicateKeyId { keyid });
    }
    let threshold = keys.threshold.get();
    let listed = Listed::of(alloc, &keys.keyids)?;
    let valid = valid_count(known, &listed, text, signatures, verifier) as u64;
    if valid < threshold {
        return Err(Error::SignatureThreshold {
            role,
            threshold,
            valid,
        });
    }
    Ok(())
}

/// Whether the document's signatures reach the threshold that these keys ask for, of those that are known. The refusals, in this order:
/// `JsonSerialization`, `DuplicateKeyId`, `SignatureThreshold`.
pub fn verify_by<T: Role, V: Verify>(
    alloc: Global,
    known: &BTreeMap<Decoded<Hex>, Key>,
    keys: &RoleKeys,
    document: &Signed<T>,
    verifier: &V,
) -> Result<(), Error>
    ensures { (absent : Refused) → Answers result
        (verdict (V.verifies verifier.now) absent T.TYPE
        (Some (policy_of (keys_doc known.now.entries) (role_keys_doc keys.now)))
        (text_by T.json document.now.signed) (signatures_doc document.now.signatures.items)) }
{
    match document.signed.canonical_form(alloc) {
        Ok(text) => {
            let text = text.as_slice();
            judge(
                alloc,
                known,
                T::TYPE,
                keys,
                text,
                &document.signatures,
                verifier,
            )
        }
        Err(WriteError::Memory) => Err(Error::Memory),
        Err(WriteError::Unwritable) => Err(Error::JsonSerialization { what: T::TYPE }),
    }
}

// The verdict on the document's signatures under the root.
fn answer<T: Role, V: Verify>(
    alloc: Global,
    root: &Root,
    role: &Signed<T>,
    verifier: &V,
) -> Result<(), Error>
    ensures { Answers result (verdict (V.verifies verifier.now) (MissingRole T.TYPE) T.TYPE
        (policy (root_doc root.now) T.TYPE) (text_by T.json role.now.signed)
        (signatures_doc role.now.signatures.items)) }
{
    match root.roles.get(&T::TYPE) {
        Some(keys) => verify_by(alloc, &root.keys, keys, role, verifier),
        None => Err(Error::MissingRole { role: T::TYPE }),
    }
}

impl Root {
    /// Whether the document's signatures reach the threshold of its role in this root. The refusals, in this order:
    /// `MissingRole`, `JsonSerialization`, `DuplicateKeyId`, `SignatureThreshold`.
    pub fn verify_role<T: Role, V: Verify>(
        &self,
        alloc: Global,
        role: &Signed<T>,
        verifier: &V,
    ) -> Result<(), Error>
        ensures verdict { Answers result
            (verdict (V.verifies verifier.now) (MissingRole T.TYPE) T.TYPE
            (policy (root_doc self.now) T.TYPE) (text_by T.json role.now.signed)
            (signatures_doc role.now.signatures.items)) }
        ensures ok { IfOk result (λ u. ReachesUnder (V.verifies verifier.now) (root_doc self.now)
            T.TYPE T.json (signed_doc (λ x. x) role.now)) }
        ensures only { ReachesUnder (V.verifies verifier.now) (root_doc self.now) T.TYPE T.json
            (signed_doc (λ x. x) role.now) → IsOkOrMemory result }
    {
        answer(alloc, self, role, verifier)
    }
}
