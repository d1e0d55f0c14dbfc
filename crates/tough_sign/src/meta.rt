//! What a snapshot and a timestamp state of files.

ghost use Rattle.std.specs.Prelude.{◌≡◌, ◌++◌, codes, IfOk, OnOk, OnErr};
ghost use Rattle.std.specs.Int.NonZero.{non_zero_u64_get};
ghost use Rattle.tough_roles.specs.Timestamp.{metafile_doc, metafiles_doc};
ghost use Rattle.tough_sign.specs.Files.{bytes_of};
ghost use Rattle.tough_sign.specs.Listing.{stated, with_meta};

use crate::file::RoleFile;
use serde_json::Map;
use std::alloc::{AllocError, Global};
use std::collections::BTreeMap;
use std::num::NonZeroU64;
use tough_decoded::Decoded;
use tough_roles::{Hashes, Metafile};

/// What is stated of a document's file: its digests, its length and the document's version.
pub fn meta_of(alloc: Global, file: &RoleFile, version: NonZeroU64) -> Result<Metafile, AllocError>
    ensures { IfOk result (λ m. metafile_doc m
        ≡ stated (bytes_of file.now) (non_zero_u64_get version)) }
{
    let digest = Vec::from_slice(alloc, file.sha256())?;
    let sha256 = Decoded::from_vec(alloc, digest)?;
    let digest = Vec::from_slice(alloc, file.sha512())?;
    let sha512 = Decoded::from_vec(alloc, digest)?;
    let hashes = Hashes {
        sha256,
        sha512: Some(sha512),
        _extra: Map::new(alloc),
    };
    Ok(Metafile {
        length: Some(file.length()),
        hashes: Some(hashes),
        version,
        _extra: Map::new(alloc),
    })
}

/// Lists a document's file under the role's name and `.json`. Without memory for it, the list stays as it is.
pub fn list_file(
    alloc: Global,
    metas: &mut BTreeMap<String, Metafile>,
    role: &str,
    file: &RoleFile,
    version: NonZeroU64,
) -> Result<(), AllocError>
    ensures listed { OnOk result (metafiles_doc metas.new.entries
        ≡ with_meta (metafiles_doc metas.old.entries) (role.now ++ codes ".json")
        (stated (bytes_of file.now) (non_zero_u64_get version))) }
    ensures unchanged { OnErr result (metas.new.entries ≡ metas.old.entries) }
{
    let meta = meta_of(alloc, file, version)?;
    let mut name = String::from_str(alloc, role)?;
    name.push_str(".json")?;
    metas.insert(name, meta)?;
    Ok(())
}
