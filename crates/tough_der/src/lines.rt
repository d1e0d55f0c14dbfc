//! Textual encodings (RFC 7468), written.

ghost use Rattle.std.specs.Prelude.{◌≡◌, ◌++◌, IfOk, OnOk, IsAscii, string_bytes};
ghost use Rattle.tough_der.specs.Pem.{in_lines, pem_text};

use base64::engine::general_purpose::STANDARD;
use std::alloc::{AllocError, Global};

// Appends the symbols in lines of 64.
fn push_lines(text: &mut String, symbols: &str) -> Result<(), AllocError>
    requires { IsAscii symbols.now }
    ensures { OnOk result (string_bytes text.new
        ≡ string_bytes text.old ++ in_lines 64 symbols.now) }
{
    let mut room: usize = 64;
    for symbol in symbols.as_bytes() {
        if room == 0 {
            text.push('\n')?;
            room = 64;
        }
        text.push(char::from(*symbol))?;
        room -= 1;
    }
    text.push('\n')
}

/// The text of the bytes with this label, in lines of 64 symbols (RFC 7468, 3, the strict form).
#[tactic(auto, unfolding(crate::specs::Pem::pem_text))]
pub fn write_pem(alloc: Global, label: &str, bytes: &[u8]) -> Result<String, AllocError>
    ensures { IfOk result (λ t. string_bytes t ≡ pem_text label.now bytes.now) }
{
    let symbols = STANDARD.encode(alloc, bytes)?;
    let mut text = String::from_str(alloc, "-----BEGIN ")?;
    text.push_str(label)?;
    text.push_str("-----\n")?;
    push_lines(&mut text, symbols.as_str())?;
    text.push_str("-----END ")?;
    text.push_str(label)?;
    text.push_str("-----\n")?;
    Ok(text)
}
