//! Names of temporary files.
ghost use Rattle.std.specs.Prelude.{◌≡◌, IfOk, string_bytes};
ghost use Rattle.tough_files.specs.Changes as change;

use std::alloc::{AllocError, Global};
use std::path::Path;

// The path of the temporary file with this number.
pub(crate) fn temp_path(alloc: Global, folder: &str, number: usize) -> Result<String, AllocError>
    ensures { IfOk result (λ path. string_bytes path ≡ change.temp_path folder.now number) }
{
    let name = format!(in alloc; ".tmp{number}")?;
    let path = Path::new(folder).join(alloc, name.as_str())?;
    Ok(path.into_string())
}
