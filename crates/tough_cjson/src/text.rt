//! Texts, in quotes.

ghost use Rattle.std.specs.Prelude.{◌≡◌, ◌++◌, [], ◌∷◌, OnOk, if◌then◌else◌};
ghost use Rattle.tough_cjson.specs.Canon.{quoted, escaped};

use std::alloc::AllocError;

/// Appends the bytes in quotes.
pub(crate) fn append_quoted(out: &mut Vec<u8>, bytes: &[u8]) -> Result<(), AllocError>
    ensures { OnOk result (out.new.items ≡ out.old.items ++ quoted bytes.now) }
{
    out.extend_from_slice(b"\"")?;
    append_escaped(out, bytes)?;
    out.extend_from_slice(b"\"")
}

/// Appends the bytes, with a backslash before each quote and backslash.
fn append_escaped(out: &mut Vec<u8>, bytes: &[u8]) -> Result<(), AllocError>
    ensures { OnOk result (out.new.items ≡ out.old.items ++ escaped bytes.now) }
{
    let mut start = 0;
    for (index, byte) in bytes.iter().enumerate() {
        if *byte == b'"' || *byte == b'\\' {
            out.extend_from_slice(&bytes[start..index])?;
            out.extend_from_slice(b"\\")?;
            start = index;
        }
    }
    out.extend_from_slice(&bytes[start..])
}

/// Appends a comma, unless nothing stands before it.
pub(crate) fn append_comma(out: &mut Vec<u8>, is_first: bool) -> Result<(), AllocError>
    ensures { OnOk result
        (out.new.items ≡ out.old.items ++ (if is_first then [] else 44 ∷ [])) }
{
    if is_first {
        Ok(())
    } else {
        out.extend_from_slice(b",")
    }
}
