//! Signed roles with their files.

ghost use Rattle.std.specs.Prelude.{◌≡◌, IfOk, IfErr, length};
ghost use Rattle.sha2.specs.Sha256.{sha256};
ghost use Rattle.sha2.specs.Sha512.{sha512};
ghost use Rattle.serde_json.specs.Read.{max_depth};
ghost use Rattle.tough_roles.specs.Document.{document_json};
ghost use Rattle.tough_roles.specs.Readable.{NestsWithin, IsTextOf};
ghost use Rattle.tough_roles.specs.Signature.{signatures_doc};
ghost use Rattle.tough_sign.specs.Files.{bytes_of};
ghost use Rattle.tough_signed.specs.Holders.{holder_doc};
ghost use Rattle.tough_signed.specs.Refusals.{IsUnfiled, IsUnfiledAs};
ghost use Rattle.tough_signed.specs.Roles.{signed_of, buffer_of, IsWritten, has_signature, added_to};
ghost use Rattle.tough_signed.specs.Signing.{IsSignedFor, IsRoleRefused};

use crate::error::EditError;
use crate::sign::sign_for;
use std::alloc::{AllocError, Global};
use tough_json::WriteError;
use tough_keys::Sign;
use tough_roles::{Role, Signature, Signed};
use tough_schema::KeyHolder;
use tough_sign::{RoleFile, pretty_of};

/// A signed role, with the bytes of its file, their digests and their length.
#[derive(Drop)]
pub struct SignedRole<T> {
    signed: Signed<T>,
    file: RoleFile,
}

impl<T: Role + Drop> SignedRole<T> {
    /// The role, signed by those signers whose keys the holder has and lists for it, in the order of their identifiers: each under the first
    /// identifier of its key, and of two signers of one key the later one's (TUF specification 1.0, section 4.2). Its file is pretty JSON and one
    /// newline. The refusals, in this order: `SignMessage` where a signer doesn't tell its key; `KeysNotFoundInRoot` where the holder is a root and
    /// has no signer's key; `NoRoleKeysinRoot` where the root hasn't the role, or `SigningKeysNotFound` where the delegations haven't it, or the
    /// holder is of the other kind; `SerializeRole` where the role has no canonical form; `SignMessage` where a signer fails; but for a root,
    /// `SigningKeysNotFound` below the threshold; `SerializeSignedRole` where the document has no text.
    pub fn new<S: Sign>(
        alloc: Global,
        role: T,
        holder: &KeyHolder,
        signers: &[S],
    ) -> Result<SignedRole<T>, EditError>
        ensures role { IfOk result (λ r. (signed_of r).signed ≡ role) }
        ensures signed { IfOk result (λ r. IsSignedFor T.json T.TYPE S.key S.signs
            (holder_doc holder.now) (T.id role) signers.now (signed_of r)) }
        ensures file { IfOk result (IsWritten T.json) }
        ensures back { T.is_kept role → IfOk result
            (λ r. NestsWithin max_depth (document_json T.json (signed_of r))
            → IsTextOf T.is_read (signed_of r) (buffer_of r)) }
        ensures refused { IfErr result (IsRoleRefused T.json T.TYPE S.key S.signs S.fails
            (holder_doc holder.now) (T.id role) signers.now role) }
    {
        let signed = sign_for(alloc, role, holder, signers)?;
        SignedRole::from_signed(alloc, signed)
    }

    /// The signed role as it stands. Its file is pretty JSON and one newline; `SerializeSignedRole` where the document has no such text.
    pub fn from_signed(alloc: Global, signed: Signed<T>) -> Result<SignedRole<T>, EditError>
        ensures signed { IfOk result (λ r. signed_of r ≡ signed) }
        ensures file { IfOk result (IsWritten T.json) }
        ensures back { T.is_kept signed.signed
            → NestsWithin max_depth (document_json T.json signed)
            → IfOk result (λ r. IsTextOf T.is_read signed (buffer_of r)) }
        ensures refused { IfErr result (IsUnfiled T.json T.TYPE signed) }
    {
        match pretty_of(alloc, &signed) {
            Ok(text) => Ok(SignedRole {
                signed,
                file: RoleFile::new(text),
            }),
            Err(WriteError::Unwritable) => Err(EditError::SerializeSignedRole { role: T::TYPE }),
            Err(WriteError::Memory) => Err(EditError::Memory),
        }
    }

    /// The signed role, with a file of these bytes.
    pub fn with_file(signed: Signed<T>, bytes: Vec<u8>) -> SignedRole<T>
        ensures signed { signed_of result ≡ signed }
        ensures file { buffer_of result ≡ bytes.items }
    {
        SignedRole {
            signed,
            file: RoleFile::new(bytes),
        }
    }

    /// The document.
    pub fn signed(&self) -> &Signed<T>
        ensures { result.now ≡ signed_of self.now }
    {
        &self.signed
    }

    /// The document, without its file.
    pub fn into_signed(self) -> Signed<T>
        ensures { result ≡ signed_of self }
    {
        self.signed
    }

    /// The file.
    pub fn file(&self) -> &RoleFile
        ensures { bytes_of result.now ≡ buffer_of self.now }
    {
        &self.file
    }

    /// The bytes of the file.
    pub fn buffer(&self) -> &Vec<u8>
        ensures { result.now.items ≡ buffer_of self.now }
    {
        self.file.bytes()
    }

    /// The SHA-256 of the file's bytes.
    pub fn sha256(&self) -> &[u8]
        ensures { result.now ≡ sha256 (buffer_of self.now) }
    {
        self.file.sha256()
    }

    /// The SHA-512 of the file's bytes.
    pub fn sha512(&self) -> &[u8]
        ensures { result.now ≡ sha512 (buffer_of self.now) }
    {
        self.file.sha512()
    }

    /// How many bytes the file has.
    pub fn length(&self) -> u64
        ensures { result ≡ length (buffer_of self.now) }
    {
        self.file.length()
    }

    /// The role with those of the old signatures whose identifiers aren't among its own yet, after its own. Its file is written again;
    /// `SerializeSignedRole` where the document has no text.
    pub fn add_old_signatures(
        self,
        alloc: Global,
        old: Vec<Signature>,
    ) -> Result<SignedRole<T>, EditError>
        ensures role { IfOk result (λ r. (signed_of r).signed ≡ (signed_of self).signed) }
        ensures signatures { IfOk result
            (λ r. signatures_doc (signed_of r).signatures.items
            ≡ added_to (signatures_doc (signed_of self).signatures.items)
            (signatures_doc old.items)) }
        ensures file { IfOk result (IsWritten T.json) }
        ensures refused { IfErr result (IsUnfiledAs T.json T.TYPE (signed_of self).signed) }
    {
        let Signed { signed, signatures } = self.signed;
        let signatures = add_old(signatures, old)?;
        SignedRole::from_signed(alloc, Signed { signed, signatures })
    }
}

// Whether a signature stands under the identifier of this one.
fn has_signature(signatures: &[Signature], other: &Signature) -> bool
    ensures { result ≡ has_signature (signatures_doc signatures.now) other.now.keyid.bytes }
{
    for signature in signatures {
        if signature.keyid == other.keyid {
            return true;
        }
    }
    false
}

// The signatures, and those of the old ones whose identifiers aren't there yet.
fn add_old(signatures: Vec<Signature>, old: Vec<Signature>) -> Result<Vec<Signature>, AllocError>
    ensures { IfOk result (λ v. signatures_doc v.items
        ≡ added_to (signatures_doc signatures.items) (signatures_doc old.items)) }
{
    let mut all = signatures;
    for signature in &old {
        if !has_signature(&all, signature) {
            all.push(signature.clone()?)?;
        }
    }
    Ok(all)
}
