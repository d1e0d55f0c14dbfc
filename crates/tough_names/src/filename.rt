//! Names of files.
ghost use Rattle.std.specs.Prelude.{◌≡◌, IfOk, string_bytes};
ghost use Rattle.percent_encoding.specs.Percent.{percent_encode};
ghost use Rattle.tough_names.specs.Apart.{EncodesApart};
ghost use Rattle.tough_names.specs.Filename.{filename_of};
ghost use Rattle.tough_names.specs.declared.filename.TheConstants.{FILE_NAME};

use percent_encoding::{AsciiSet, NON_ALPHANUMERIC, ascii_set, utf8_percent_encode};
use std::alloc::{AllocError, Global};

/// What is escaped: each byte but ASCII letters, digits, `_`, `.`, `-` and `~`.
pub const FILE_NAME: AsciiSet = ascii_set!(
    NON_ALPHANUMERIC
        .remove(b'_')
        .remove(b'.')
        .remove(b'-')
        .remove(b'~')
);

/// The name of the file of a role: each byte of `FILE_NAME` becomes `%` and two upper-case digits (RFC 3986,
/// section 2.1).
pub fn encode_filename(alloc: Global, name: &str) -> Result<String, AllocError>
    ensures name { IfOk result (λ text. string_bytes text ≡ filename_of name.now) }
    ensures encoded { IfOk result (λ text. string_bytes text ≡ percent_encode FILE_NAME name.now) }
{
    let mut out = String::new(alloc);
    utf8_percent_encode(name, FILE_NAME).append_to(&mut out)?;
    Ok(out)
}

/// Different names have different files.
pub fn encodes_apart()
    ensures { EncodesApart }
{}
