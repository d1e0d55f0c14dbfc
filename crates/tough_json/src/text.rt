//! JSON values as bytes.

ghost use Rattle.std.specs.Prelude.{◌≡◌, ◌≤◌, Some, IfOk, false};
ghost use Rattle.serde_json.specs.View.{view};
ghost use Rattle.serde_json.specs.Data.{depth};
ghost use Rattle.serde_json.specs.Read.{max_depth};
ghost use Rattle.serde_json.specs.Written.{has_float, compact_text};
ghost use Rattle.tough_json.specs.Results.{json_of, ReadsJson};

use crate::borrowed::place_in;
use crate::error::ReadError;
use serde_json::Value;
use std::alloc::{AllocError, Global};

/// The JSON value that the bytes are; `Json` where they are none.
pub fn value_of(alloc: Global, bytes: &[u8]) -> Result<Value, ReadError>
    ensures { ReadsJson view result bytes.now }
{
    match Value::from_slice(alloc, bytes) {
        Ok(value) => Ok(value),
        Err(error) if error.is_memory() => Err(ReadError::Memory),
        Err(_) => Err(ReadError::Json(place_in(alloc, bytes))),
    }
}

/// The value as compact JSON; where it nests no deeper than is read, it is read as this value.
pub fn bytes_of(alloc: Global, value: &Value) -> Result<Vec<u8>, AllocError>
    ensures text { IfOk result
        (λ b. has_float (view value.now) ≡ false → b.items ≡ compact_text (view value.now)) }
    ensures back { IfOk result
        (λ b. depth (view value.now) ≤ max_depth → json_of b.items ≡ Some (view value.now)) }
{
    let text = value.to_string(alloc)?;
    Ok(text.into_bytes())
}
