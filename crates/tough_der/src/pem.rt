//! Textual encodings (RFC 7468).

ghost use Rattle.std.specs.Prelude.{◌≡◌, ◌≤◌, ◌<◌, ℕ, List, length, take, Some, None, IfSome, IfNone};
ghost use Rattle.tough_der.specs.Reading.{bytes_view};
ghost use Rattle.std.specs.List.{list_all, position};
ghost use Rattle.tough_der.specs.Pem.{is_space, is_dash, squeezed, after_line, between, bytes_or_none, symbols_of, pem_of};
ghost use Rattle.base64.specs.Engines.{standard};
ghost use Rattle.base64.specs.GeneralPurpose.{decode_of};
ghost use Rattle.base64.specs.Decode.{decoded_estimate};

use crate::element::after;
use base64::engine::general_purpose::STANDARD;

// Whether it is a space or a line end.
fn is_space(byte: u8) -> bool
    ensures { result ≡ is_space byte }
{
    (9 <= byte && byte <= 13) || byte == 32
}

// Whether nothing but spaces and line ends is there.
fn is_blank(text: &[u8]) -> bool
    ensures { result ≡ list_all is_space text.now }
{
    text.iter().all(|&b| is_space(b))
}

// Where the first dash is.
fn dash_at(text: &[u8]) -> Option<usize>
    ensures { result ≡ position is_dash text.now }
{
    text.iter().position(|&b| b == b'-')
}

// What follows the line that begins so and has this label.
#[tactic(auto, unfolding(crate::specs::Pem::after_line))]
fn after_line<'a>(kind: &[u8], label: &[u8], text: &'a [u8]) -> Option<&'a [u8]>
    ensures { bytes_view result ≡ after_line kind.now label.now text.now }
{
    after(b"-----", after(label, after(kind, text)?)?)
}

// What stands between the two lines with this label.
#[tactic(auto, unfolding(crate::specs::Pem::between))]
fn between<'a>(label: &[u8], text: &'a [u8]) -> Option<&'a [u8]>
    ensures { bytes_view result ≡ between label.now text.now }
{
    let body = after_line(b"-----BEGIN ", label, text)?;
    let at = dash_at(body)?;
    let rest = after_line(b"-----END ", label, &body[at..])?;
    if !is_blank(rest) {
        return None;
    }
    Some(&body[..at])
}

// Takes out spaces and line ends. Answers how many symbols there are; none where there are more than room for them.
fn squeeze(text: &[u8], symbols: &mut [u8]) -> Option<usize>
    ensures some { IfSome result (λ n. (n ≤ length symbols.new)
        × (take n symbols.new ≡ squeezed text.now)) }
    ensures none { IfNone result (length symbols.old < length (squeezed text.now)) }
{
    let mut len = 0;
    for byte in text {
        if !is_space(*byte) {
            if len == symbols.len() {
                return None;
            }
            symbols[len] = *byte;
            len += 1;
        }
    }
    Some(len)
}

// The bytes of the symbols.
fn decode(symbols: &[u8], bytes: &mut [u8]) -> Option<usize>
    requires { decoded_estimate (length symbols.now) ≤ length bytes.old }
    ensures some { IfSome result (λ n. (n ≤ length bytes.new)
        × (bytes_or_none (decode_of standard symbols.now) ≡ Some (take n bytes.new))) }
    ensures none { IfNone result (bytes_or_none (decode_of standard symbols.now) ≡ None) }
{
    match STANDARD.decode_slice_unchecked(symbols, bytes) {
        Ok(len) => Some(len),
        Err(_) => None,
    }
}

// The bytes of base64 that spaces and line ends break.
fn decode_lines(inner: &[u8], bytes: &mut [u8]) -> Option<usize>
    requires { 3072 ≤ length bytes.old }
    ensures some { IfSome result (λ n. (n ≤ length bytes.new)
        × (symbols_of inner.now ≡ Some (take n bytes.new))) }
    ensures none { IfNone result (symbols_of inner.now ≡ None) }
{
    let mut symbols = [0; 4096];
    let len = squeeze(inner, &mut symbols)?;
    decode(&symbols[..len], bytes)
}

/// Decodes the text with this label into `bytes`, and answers how many there are: the text is `-----BEGIN LABEL-----`, base64 of no more than
/// 4,096 symbols, broken by spaces and line ends, and `-----END LABEL-----`, after which spaces and line ends may stand (RFC 7468, 3).
#[tactic(auto, unfolding(crate::specs::Pem::pem_of))]
pub fn read_pem(label: &[u8], text: &[u8], bytes: &mut [u8]) -> Option<usize>
    requires { 3072 ≤ length bytes.old }
    ensures some { IfSome result (λ n. (n ≤ length bytes.new)
        × (pem_of label.now text.now ≡ Some (take n bytes.new))) }
    ensures none { IfNone result (pem_of label.now text.now ≡ None) }
{
    decode_lines(between(label, text)?, bytes)
}
