//! Targets of files.

ghost use Rattle.std.specs.Prelude.{◌≡◌, true, option_map, IfOk};
ghost use Rattle.tough_files.specs.Contents.{Same};
ghost use Rattle.tough_schema.specs.FileDigest.{there};
ghost use Rattle.tough_schema.specs.FromPath.{in_digits, IsTargetOf};

use crate::file_digest::{Digests, FileError, measure};
use crate::target::Target;
use serde_json::Map;
use std::alloc::{AllocError, Global};
use tough_decoded::{Decoded, Hex};
use tough_files::Files;
use tough_roles::Hashes;

// The bytes in lower-case digits.
fn in_digits(alloc: Global, bytes: &[u8]) -> Result<Decoded<Hex>, AllocError>
    ensures { IfOk result (λ d. d ≡ in_digits bytes.now) }
{
    let bytes = Vec::from_slice(alloc, bytes)?;
    Decoded::from_vec(alloc, bytes)
}

// The same of a SHA-512, where there is one.
fn second_in_digits(
    alloc: Global,
    digest: &Option<[u8; 64]>,
) -> Result<Option<Decoded<Hex>>, AllocError>
    ensures { IfOk result (λ d. d ≡ option_map in_digits digest.now) }
{
    match digest {
        None => Ok(None),
        Some(digest) => Ok(Some(in_digits(alloc, digest.as_slice())?)),
    }
}

impl Target {
    /// The target of the file at the path, with its length, its SHA-256 and its SHA-512. Links are followed. The errors, in this order:
    /// `FileOpen`, `TargetNotAFile`, `FileRead`.
    pub fn from_path<F: Files>(
        alloc: Global,
        files: &mut F,
        path: &str,
    ) -> Result<Target, FileError>
        ensures target { F.tells ≡ true
            → IsTargetOf (there path.now (F.contents files.old)) result }
        ensures kept { F.tells ≡ true → Same (F.contents files.old) (F.contents files.new) }
    {
        match measure(files, path, Digests::Both) {
            Ok(measured) => {
                let sha256 = in_digits(alloc, measured.sha256.as_slice())?;
                let sha512 = second_in_digits(alloc, &measured.sha512)?;
                Ok(Target {
                    length: measured.length,
                    hashes: Hashes {
                        sha256,
                        sha512,
                        _extra: Map::new(alloc),
                    },
                    custom: Map::new(alloc),
                    _extra: Map::new(alloc),
                })
            }
            Err(error) => Err(error),
        }
    }
}
