//! Copies of documents.

ghost use Rattle.std.specs.Prelude.{◌≡◌, IfOk};
ghost use Rattle.tough_roles.specs.Root.{keys_doc, role_keys_doc, roles_doc, root_doc};
ghost use Rattle.tough_roles.specs.Signature.{signature_doc, signatures_doc};
ghost use Rattle.tough_roles.specs.Snapshot.{snapshot_doc};
ghost use Rattle.tough_roles.specs.Timestamp.{hashes_doc, metafile_doc, metafiles_doc, timestamp_doc};

use crate::role_type::RoleType;
use crate::root::{RoleKeys, Root};
use crate::signature::Signature;
use crate::signed::Signed;
use crate::snapshot::Snapshot;
use crate::timestamp::{Hashes, Metafile, Timestamp};
use std::alloc::AllocError;
use std::collections::BTreeMap;
use tough_decoded::{Decoded, Hex};
use tough_keys::Key;
use tough_keys::clone::copy;

// The same digest, if it is stated.
fn copy_digest(digest: &Option<Decoded<Hex>>) -> Result<Option<Decoded<Hex>>, AllocError>
    ensures { IfOk result (λ d. d ≡ digest.now) }
{
    match digest {
        None => Ok(None),
        Some(digest) => Ok(Some(digest.clone()?)),
    }
}

impl Clone for Hashes {
    ghost is_clone = { λ h c. hashes_doc c ≡ hashes_doc h };

    fn clone(&self) -> Result<Hashes, AllocError> {
        let sha256 = self.sha256.clone()?;
        let sha512 = copy_digest(&self.sha512)?;
        let _extra = copy(&self._extra)?;
        Ok(Hashes {
            sha256,
            sha512,
            _extra,
        })
    }
}

impl Clone for Metafile {
    ghost is_clone = { λ m c. metafile_doc c ≡ metafile_doc m };

    fn clone(&self) -> Result<Metafile, AllocError> {
        let _extra = copy(&self._extra)?;
        let hashes = match &self.hashes {
            Some(hashes) => Some(hashes.clone()?),
            None => None,
        };
        Ok(Metafile {
            length: self.length,
            hashes,
            version: self.version,
            _extra,
        })
    }
}

// The same metafiles.
fn copy_metafiles(
    metafiles: &BTreeMap<String, Metafile>,
) -> Result<BTreeMap<String, Metafile>, AllocError>
    ensures { IfOk result (λ m. metafiles_doc m.entries ≡ metafiles_doc metafiles.now.entries) }
{
    let copies = metafiles.clone()?;
    Ok(copies)
}

impl Clone for Timestamp {
    ghost is_clone = { λ t c. timestamp_doc c ≡ timestamp_doc t };

    fn clone(&self) -> Result<Timestamp, AllocError> {
        let spec_version = self.spec_version.clone()?;
        let meta = copy_metafiles(&self.meta)?;
        let _extra = copy(&self._extra)?;
        Ok(Timestamp {
            spec_version,
            version: self.version,
            expires: self.expires,
            meta,
            _extra,
        })
    }
}

impl Clone for Snapshot {
    ghost is_clone = { λ s c. snapshot_doc c ≡ snapshot_doc s };

    fn clone(&self) -> Result<Snapshot, AllocError> {
        let spec_version = self.spec_version.clone()?;
        let meta = copy_metafiles(&self.meta)?;
        let _extra = copy(&self._extra)?;
        Ok(Snapshot {
            spec_version,
            version: self.version,
            expires: self.expires,
            meta,
            _extra,
        })
    }
}

/// The same identifiers.
pub fn copy_keyids(keyids: &Vec<Decoded<Hex>>) -> Result<Vec<Decoded<Hex>>, AllocError>
    ensures { IfOk result (λ v. v.items ≡ keyids.now.items) }
{
    let copies = keyids.clone()?;
    Ok(copies)
}

/// The same keys.
pub fn copy_keys(
    keys: &BTreeMap<Decoded<Hex>, Key>,
) -> Result<BTreeMap<Decoded<Hex>, Key>, AllocError>
    ensures { IfOk result (λ m. keys_doc m.entries ≡ keys_doc keys.now.entries) }
{
    let copies = keys.clone()?;
    Ok(copies)
}

impl Clone for RoleKeys {
    ghost is_clone = { λ k c. role_keys_doc c ≡ role_keys_doc k };

    fn clone(&self) -> Result<RoleKeys, AllocError> {
        let keyids = copy_keyids(&self.keyids)?;
        let _extra = copy(&self._extra)?;
        Ok(RoleKeys {
            keyids,
            threshold: self.threshold,
            _extra,
        })
    }
}

// The same roles.
fn copy_roles(
    roles: &BTreeMap<RoleType, RoleKeys>,
) -> Result<BTreeMap<RoleType, RoleKeys>, AllocError>
    ensures { IfOk result (λ m. roles_doc m.entries ≡ roles_doc roles.now.entries) }
{
    let copies = roles.clone()?;
    Ok(copies)
}

impl Clone for Root {
    ghost is_clone = { λ r c. root_doc c ≡ root_doc r };

    fn clone(&self) -> Result<Root, AllocError> {
        let spec_version = self.spec_version.clone()?;
        let keys = copy_keys(&self.keys)?;
        let roles = copy_roles(&self.roles)?;
        let _extra = copy(&self._extra)?;
        Ok(Root {
            spec_version,
            consistent_snapshot: self.consistent_snapshot,
            version: self.version,
            expires: self.expires,
            keys,
            roles,
            _extra,
        })
    }
}

impl Clone for Signature {
    ghost is_clone = { λ s c. signature_doc c ≡ signature_doc s };

    fn clone(&self) -> Result<Signature, AllocError> {
        let keyid = self.keyid.clone()?;
        let sig = self.sig.clone()?;
        Ok(Signature { keyid, sig })
    }
}

/// The same signatures.
pub fn copy_signatures(signatures: &Vec<Signature>) -> Result<Vec<Signature>, AllocError>
    ensures { IfOk result (λ v. signatures_doc v.items ≡ signatures_doc signatures.now.items) }
{
    let copies = signatures.clone()?;
    Ok(copies)
}

impl<T: Clone> Clone for Signed<T> {
    ghost is_clone = { λ s c. T.is_clone s.signed c.signed
        × (signatures_doc c.signatures.items ≡ signatures_doc s.signatures.items) };

    fn clone(&self) -> Result<Signed<T>, AllocError> {
        let signed = self.signed.clone()?;
        let signatures = copy_signatures(&self.signatures)?;
        Ok(Signed { signed, signatures })
    }
}
