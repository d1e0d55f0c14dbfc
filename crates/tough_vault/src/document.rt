//! Documents as they lie in a store.

ghost use Rattle.std.specs.Prelude.{◌≡◌};
ghost use Rattle.tough_json.specs.Results.{Writes};
ghost use Rattle.tough_roles.specs.Written.{compact_by};

use std::alloc::Global;
use tough_json::Form;
use tough_roles::{Role, Signed, WriteError};

/// The document as compact JSON; `Unwritable` where it has none, or where that holds a float.
pub(crate) fn document_bytes<T: Role>(
    alloc: Global,
    document: &Signed<T>,
) -> Result<Vec<u8>, WriteError>
    ensures { Writes (λ b. b.items) result (compact_by T.json document.now) }
{
    document.text(alloc, Form::Compact)
}
