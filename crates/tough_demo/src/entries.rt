//! What documents say of files.
ghost use Rattle.std.specs.Prelude.{◌≡◌, Some, IfOk, length, option_map};
ghost use Rattle.std.specs.Int.NonZero.{non_zero_u64_get};
ghost use Rattle.sha2.specs.Sha256.{sha256};

use crate::error::DemoError;
use serde_json::Map;
use sha2::{Digest, Sha256};
use std::alloc::Global;
use std::num::NonZeroU64;
use tough_decoded::Decoded;
use tough_schema::{Hashes, Metafile, Target};

/// The digest of these bytes.
pub fn hashes(alloc: Global, bytes: &[u8]) -> Result<Hashes, DemoError>
    ensures { IfOk result (λ h. h.sha256.bytes ≡ sha256 bytes.now) }
{
    let mut hasher = Sha256::new();
    hasher.update(bytes);
    let digest = Vec::from_slice(alloc, hasher.finalize().as_slice())?;
    Ok(Hashes {
        sha256: Decoded::from_vec(alloc, digest)?,
        sha512: None,
        _extra: Map::new(alloc),
    })
}

/// What a snapshot or a timestamp says of a document that these bytes are: its version, length and digest.
pub fn metafile(alloc: Global, version: NonZeroU64, bytes: &[u8]) -> Result<Metafile, DemoError>
    ensures version { IfOk result (λ m. non_zero_u64_get m.version ≡ non_zero_u64_get version) }
    ensures length { IfOk result (λ m. m.length ≡ Some (length bytes.now)) }
    ensures digest { IfOk result
        (λ m. option_map (λ h. h.sha256.bytes) m.hashes ≡ Some (sha256 bytes.now)) }
{
    let hashes = hashes(alloc, bytes)?;
    Ok(Metafile {
        length: Some(bytes.len() as u64),
        hashes: Some(hashes),
        version,
        _extra: Map::new(alloc),
    })
}

/// What the targets say of a target file that these bytes are: its length and digest.
pub fn target(alloc: Global, bytes: &[u8]) -> Result<Target, DemoError>
    ensures length { IfOk result (λ t. t.length ≡ length bytes.now) }
    ensures digest { IfOk result (λ t. t.hashes.sha256.bytes ≡ sha256 bytes.now) }
{
    let hashes = hashes(alloc, bytes)?;
    Ok(Target {
        length: bytes.len() as u64,
        hashes,
        custom: Map::new(alloc),
        _extra: Map::new(alloc),
    })
}
