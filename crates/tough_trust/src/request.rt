//! Which file is fetched: its name, how long it may be, and which digests it must have (TUF specification 5.3 to 5.6).

ghost use Rattle.std.specs.Prelude.{◌≡◌, Some, IfOk, option_map, string_bytes};
ghost use Rattle.tough_roles.specs.Timestamp.{metafile_doc, hashes_doc};
ghost use Rattle.tough_trust.specs.Requests.{digests_in, stated_digests, bound, targets_specifier, root_request, timestamp_request, snapshot_request, targets_request, role_request, fits_request};
ghost use Rattle.tough_net.specs.Digests.{digests_of};
ghost use Rattle.tough_trust.specs.View.{request_doc};

use std::alloc::{AllocError, Global};
use tough_decoded::{Decoded, Hex};
use tough_names::encode_filename;
use tough_net::{Digests, Limits};
use tough_roles::names::{file_name, versioned};
use tough_roles::{Hashes, Metafile};

/// A metadata file that is to be fetched.
#[derive(Drop)]
pub struct Request {
    /// Its name, to be joined to the base URL of the metadata.
    pub name: String,
    /// How many bytes it may have.
    pub max_size: u64,
    /// Where that bound comes from.
    pub specifier: &'static str,
    /// The digests that it must have, where they are stated.
    pub digests: Digests,
}

impl Request {
    /// Whether the bytes are no longer than asked, and have each digest that was asked for.
    pub fn fits(&self, bytes: &[u8]) -> bool
        ensures { result ≡ fits_request (request_doc self.now) bytes.now }
    {
        if bytes.len() as u64 > self.max_size {
            return false;
        }
        self.digests.are_of(bytes)
    }
}

// The bytes of a digest, if it is stated.
fn bytes_of(alloc: Global, digest: &Option<Decoded<Hex>>) -> Result<Option<Vec<u8>>, AllocError>
    ensures { IfOk result (λ d. option_map (λ v. v.items) d
        ≡ option_map (λ s. s.bytes) digest.now) }
{
    match digest {
        None => Ok(None),
        Some(digest) => Ok(Some(Vec::from_slice(alloc, digest.as_slice())?)),
    }
}

/// The digests that hashes state.
pub fn digests_in(alloc: Global, hashes: &Hashes) -> Result<Digests, AllocError>
    ensures { IfOk result (λ d. digests_of d ≡ digests_in (hashes_doc hashes.now)) }
{
    let sha256 = Vec::from_slice(alloc, hashes.sha256.as_slice())?;
    let sha512 = bytes_of(alloc, &hashes.sha512)?;
    Ok(Digests {
        sha256: Some(sha256),
        sha512,
    })
}

// The digests that are stated, if some are.
fn stated_digests(alloc: Global, hashes: &Option<Hashes>) -> Result<Digests, AllocError>
    ensures { IfOk result (λ d. digests_of d
        ≡ stated_digests (option_map hashes_doc hashes.now)) }
{
    match hashes {
        None => Ok(Digests::none()),
        Some(hashes) => Ok(digests_in(alloc, hashes)?),
    }
}

/// The root of a version.
pub fn root_request(alloc: Global, limits: &Limits, version: u64) -> Result<Request, AllocError>
    ensures { IfOk result (λ r. request_doc r ≡ root_request limits.now version) }
{
    Ok(Request {
        name: versioned(alloc, version, "root.json")?,
        max_size: limits.max_root_size,
        specifier: "max_root_size argument",
        digests: Digests::none(),
    })
}

/// The timestamp.
pub fn timestamp_request(alloc: Global, limits: &Limits) -> Result<Request, AllocError>
    ensures { IfOk result (λ r. request_doc r ≡ timestamp_request limits.now) }
{
    Ok(Request {
        name: String::from_str(alloc, "timestamp.json")?,
        max_size: limits.max_timestamp_size,
        specifier: "max_timestamp_size argument",
        digests: Digests::none(),
    })
}

/// The snapshot that the timestamp's entry describes.
pub fn snapshot_request(
    alloc: Global,
    limits: &Limits,
    consistent: bool,
    meta: &Metafile,
) -> Result<Request, AllocError>
    ensures { IfOk result (λ r. request_doc r
        ≡ snapshot_request limits.now consistent (metafile_doc meta.now)) }
{
    Ok(Request {
        name: file_name(alloc, consistent, meta.version, "snapshot.json")?,
        max_size: meta.length.unwrap_or(limits.max_snapshot_size),
        specifier: "timestamp.json",
        digests: stated_digests(alloc, &meta.hashes)?,
    })
}

// Where the bound on the targets' length comes from.
fn targets_specifier(length: Option<u64>) -> &'static str
    ensures { result.now ≡ targets_specifier length }
{
    match length {
        None => "max_targets_size parameter",
        Some(_) => "snapshot.json",
    }
}

/// The targets that the snapshot's entry describes.
pub fn targets_request(
    alloc: Global,
    limits: &Limits,
    consistent: bool,
    meta: &Metafile,
) -> Result<Request, AllocError>
    ensures { IfOk result (λ r. request_doc r
        ≡ targets_request limits.now consistent (metafile_doc meta.now)) }
{
    Ok(Request {
        name: file_name(alloc, consistent, meta.version, "targets.json")?,
        max_size: meta.length.unwrap_or(limits.max_targets_size),
        specifier: targets_specifier(meta.length),
        digests: stated_digests(alloc, &meta.hashes)?,
    })
}

/// The document of a delegated role that the snapshot's entry describes.
pub fn role_request(
    alloc: Global,
    limits: &Limits,
    consistent: bool,
    role: &str,
    meta: &Metafile,
) -> Result<Request, AllocError>
    ensures { IfOk result (λ r. request_doc r
        ≡ role_request limits.now consistent role.now (metafile_doc meta.now)) }
{
    let mut file = encode_filename(alloc, role)?;
    file.push_str(".json")?;
    let digests = stated_digests(alloc, &meta.hashes)?;
    Ok(Request {
        name: file_name(alloc, consistent, meta.version, file.as_str())?,
        max_size: meta.length.unwrap_or(limits.max_targets_size),
        specifier: targets_specifier(meta.length),
        digests,
    })
}
