//! The names of the files of metadata.

ghost use Rattle.std.specs.Prelude.{◌≡◌, IfOk, string_bytes};
ghost use Rattle.std.specs.Int.NonZero.{non_zero_u64_get};
ghost use Rattle.tough_roles.specs.Names.{versioned, file_name};

use std::alloc::{AllocError, Global};
use std::num::NonZeroU64;

/// A name behind a version.
pub fn versioned(alloc: Global, version: u64, name: &str) -> Result<String, AllocError>
    ensures { IfOk result (λ s. string_bytes s ≡ versioned version name.now) }
{
    let mut text = version.to_string(alloc)?;
    text.push_str(".")?;
    text.push_str(name)?;
    Ok(text)
}

/// A file's name: with consistent snapshots its version stands before it (TUF specification 1.0, section 6.2).
pub fn file_name(
    alloc: Global,
    consistent_snapshot: bool,
    version: NonZeroU64,
    name: &str,
) -> Result<String, AllocError>
    ensures { IfOk result (λ s. string_bytes s
        ≡ file_name consistent_snapshot (non_zero_u64_get version) name.now) }
{
    if consistent_snapshot {
        versioned(alloc, version.get(), name)
    } else {
        String::from_str(alloc, name)
    }
}
