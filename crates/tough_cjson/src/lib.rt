//! Canonical JSON, in the profile of OLPC: the one text of a JSON value that is signed.
#![tactic(auto)]

ghost use Rattle.std.specs.Prelude.{◌≡◌, ◌≢◌, ℕ, List, Some, None, IfOk, IfErr, true, false};
ghost use Rattle.serde_json.specs.View.{view};
ghost use Rattle.serde_json.specs.Written.{has_float};
ghost use Rattle.tough_cjson.specs.Canon.{Canon, IsRefused, IsTextOrMemory};
ghost use Rattle.tough_cjson.specs.CanonicalText.{canonical_of};
ghost use Rattle.tough_cjson.specs.Small.{IsSmall};

mod error;
mod float;
pub mod laws;
mod text;
mod write;

use crate::write::write;
pub use error::CjsonError;
pub use float::holds_float;
use serde_json::Value;
use std::alloc::Global;

/// The value's canonical text.
pub fn canonical(alloc: Global, value: &Value) -> Result<Vec<u8>, CjsonError>
    ensures ok { IfOk result (λ t. Canon (view value.now) t.items) }
    ensures err { IfErr result (λ e. IsRefused (view value.now) e) }
    ensures only { (t : List ℕ) → Canon (view value.now) t → IsTextOrMemory t result }
    ensures text { IfOk result (λ t. canonical_of (view value.now) ≡ Some t.items) }
    ensures none { IfErr result
        (λ e. e ≢ CjsonError.Memory → canonical_of (view value.now) ≡ None) }
    ensures float { has_float (view value.now) ≡ true → result ≡ Err CjsonError.Float }
    ensures small { has_float (view value.now) ≡ false → IsSmall (view value.now) }
{
    if holds_float(value) {
        return Err(CjsonError::Float);
    }
    let mut out = Vec::new(alloc);
    write(alloc, &mut out, value)?;
    Ok(out)
}
