//! What the program prints.

ghost use Rattle.std.specs.Prelude.{◌≡◌, IfOk, string_bytes};
ghost use Rattle.std.specs.Int.NonZero.{non_zero_u64_get};
ghost use Rattle.tough_update.specs.View.{loaded_doc};
ghost use Rattle.tough.specs.Program.{report_text, version_line, versions_text};

use std::alloc::{AllocError, Global};
use std::num::NonZeroU64;
use tough_load::Loaded;
use tough_names::TargetName;

// A role and its version.
fn line(alloc: Global, role: &str, version: NonZeroU64) -> Result<String, AllocError>
    ensures { IfOk result (λ text. string_bytes text
        ≡ version_line role.now (non_zero_u64_get version)) }
{
    let text = format!(in alloc; "{role} {version}\n")?;
    Ok(text)
}

/// The versions of what was loaded, a line each.
pub(crate) fn versions(alloc: Global, loaded: &Loaded) -> Result<String, AllocError>
    ensures { IfOk result (λ text. string_bytes text ≡ versions_text (loaded_doc loaded.now)) }
{
    let root = line(alloc, "root", loaded.root().signed.version)?;
    let timestamp = line(alloc, "timestamp", loaded.timestamp().signed.version)?;
    let snapshot = line(alloc, "snapshot", loaded.snapshot().signed.version)?;
    let targets = line(alloc, "targets", loaded.targets().signed.version)?;
    let text = format!(in alloc; "{root}{timestamp}{snapshot}{targets}")?;
    Ok(text)
}

/// The versions of what was loaded, and what was saved where.
pub(crate) fn report(
    alloc: Global,
    loaded: &Loaded,
    name: &TargetName,
    outdir: &str,
) -> Result<String, AllocError>
    ensures { IfOk result (λ text. string_bytes text
        ≡ report_text (loaded_doc loaded.now) name.now.resolved outdir.now) }
{
    let versions = versions(alloc, loaded)?;
    let resolved = name.resolved();
    let text = format!(in alloc; "{versions}saved {resolved} in {outdir}\n")?;
    Ok(text)
}
