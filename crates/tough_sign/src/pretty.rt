//! The text of a document as an editor writes it.

ghost use Rattle.std.specs.Prelude.{◌≡◌, ◌≤◌, Some, IfOk, IsTrue, IsUtf8, false, option_and_then};
ghost use Rattle.serde_json.specs.Data.{Data, depth};
ghost use Rattle.serde_json.specs.View.{view};
ghost use Rattle.serde_json.specs.Read.{max_depth};
ghost use Rattle.serde_json.specs.Written.{has_float, compact_text};
ghost use Rattle.tough_json.specs.Results.{Writes, json_of};
ghost use Rattle.tough_roles.specs.Document.{document_json};
ghost use Rattle.tough_roles.specs.Readable.{NestsWithin, IsTextOf};
ghost use Rattle.tough_sign.specs.Pretty.{pretty_text, pretty_in};

use crate::layout::laid_out;
use serde_json::Value;
use std::alloc::{AllocError, Global};
use std::str::from_utf8;
use tough_json::{Form, WriteError, holds_float};
use tough_roles::{Role, Signed};

// The value as pretty JSON, and one newline; where it nests no deeper than is read, it is read as this value.
fn value_text(alloc: Global, value: &Value) -> Result<Vec<u8>, AllocError>
    ensures text { IfOk result
        (λ b. has_float (view value.now) ≡ false → b.items ≡ pretty_text (view value.now)) }
    ensures back { IfOk result
        (λ b. depth (view value.now) ≤ max_depth → json_of b.items ≡ Some (view value.now)) }
{
    let mut text = value.to_vec_pretty(alloc)?;
    text.push(b'\n')?;
    Ok(text)
}

// The text of a document by the value of the whole.
fn text_by_value<T: Role>(alloc: Global, document: &Signed<T>) -> Result<Vec<u8>, WriteError>
    ensures written { Writes (λ t. t.items) result
        (option_and_then pretty_in (document_json T.json document.now)) }
    ensures back { T.is_kept document.now.signed
        → NestsWithin max_depth (document_json T.json document.now)
        → IfOk result (λ t. IsTextOf T.is_read document.now t.items) }
{
    let value = document.to_value(alloc)?;
    if holds_float(&value) {
        return Err(WriteError::Unwritable);
    }
    let text = value_text(alloc, &value)?;
    Ok(text)
}

// Compact JSON laid out, and one newline.
fn laid_text(alloc: Global, text: &[u8]) -> Result<Vec<u8>, AllocError>
    ensures { IfOk result (λ t. (d : Data) → has_float d ≡ false → compact_text d ≡ text.now
        → t.items ≡ pretty_text d) }
{
    let mut laid = laid_out(alloc, text)?;
    laid.push(b'\n')?;
    Ok(laid)
}

// The text of a document by its compact text, of which no value of the whole is made where the role is written in pieces.
fn text_in_pieces<T: Role>(alloc: Global, document: &Signed<T>) -> Result<Vec<u8>, WriteError>
    ensures { Writes (λ t. t.items) result
        (option_and_then pretty_in (document_json T.json document.now)) }
{
    match document.text(alloc, Form::Compact) {
        Ok(text) => {
            let laid = laid_text(alloc, text.as_slice())?;
            Ok(laid)
        }
        Err(WriteError::Memory) => Err(WriteError::Memory),
        Err(WriteError::Unwritable) => Err(WriteError::Unwritable),
    }
}

// Whether the bytes are UTF-8.
fn is_text(bytes: &[u8]) -> bool
    ensures { IsTrue result → IsUtf8 bytes.now }
{
    from_utf8(bytes).is_ok()
}

/// The text of a signed document as an editor writes it: pretty JSON and one newline. Where it nests no deeper than is read, and its keys
/// stand under their own identifiers, it is read as the document. `Unwritable` where its role has no JSON, or that holds a float.
pub fn pretty_of<T: Role>(alloc: Global, document: &Signed<T>) -> Result<Vec<u8>, WriteError>
    ensures written { Writes (λ t. t.items) result
        (option_and_then pretty_in (document_json T.json document.now)) }
    ensures back { T.is_kept document.now.signed
        → NestsWithin max_depth (document_json T.json document.now)
        → IfOk result (λ t. IsTextOf T.is_read document.now t.items) }
{
    let known = document.signed.reads_back(alloc)?;
    if known {
        let text = text_in_pieces(alloc, document)?;
        if is_text(text.as_slice()) {
            return Ok(text);
        }
    }
    text_by_value(alloc, document)
}
