//! Compact JSON laid out prettily.

ghost use Rattle.std.specs.Prelude.{◌≡◌, [], ◌∷◌, ◌++◌, false, IfOk, OnOk};
ghost use Rattle.json.specs.Layout.{line, pretty};
ghost use Rattle.json.specs.Tree.{json_tokens};
ghost use Rattle.serde_json.specs.Data.{Data};
ghost use Rattle.serde_json.specs.Written.{outline, has_float, compact_text};
ghost use Rattle.tough_sign.specs.Laying.{is_opening, is_closing, gap_at, spaced, put_at, after_byte, in_text, place_at, deeper, depth_at};

use std::alloc::{AllocError, Global};

// Where the next byte stands: what was before it outside of texts, or inside of one.
#[derive(Clone, Copy, Drop)]
enum Place {
    Start,
    Bracket,
    Name,
    Value,
    Text,
    Escape,
}

fn is_opening(byte: u8) -> bool
    ensures { result ≡ is_opening byte }
{
    byte == b'{' || byte == b'['
}

fn is_closing(byte: u8) -> bool
    ensures { result ≡ is_closing byte }
{
    byte == b'}' || byte == b']'
}

fn push(out: &mut Vec<u8>, byte: u8) -> Result<(), AllocError>
    ensures { OnOk result (out.new.items ≡ out.old.items ++ byte ∷ []) }
{
    out.push(byte)?;
    Ok(())
}

// Appends a newline and two blanks for each level.
fn put_line(out: &mut Vec<u8>, depth: usize) -> Result<(), AllocError>
    ensures { OnOk result (out.new.items ≡ out.old.items ++ line depth) }
{
    out.push(b'\n')?;
    for _ in 0..depth {
        out.extend_from_slice(b"  ")?;
    }
    Ok(())
}

// Appends what stands before a byte.
fn put_gap(out: &mut Vec<u8>, place: Place, closes: bool, depth: usize) -> Result<(), AllocError>
    ensures { OnOk result (out.new.items ≡ out.old.items ++ gap_at place closes depth) }
{
    match place {
        Place::Name => push(out, b' '),
        Place::Bracket => { if closes { Ok(()) } else { put_line(out, depth) } }
        Place::Value => { if closes { put_line(out, depth) } else { Ok(()) } }
        Place::Start | Place::Text | Place::Escape => Ok(()),
    }
}

// Appends a byte outside of texts, with what stands around it.
fn put_spaced(out: &mut Vec<u8>, place: Place, depth: usize, byte: u8) -> Result<(), AllocError>
    ensures { OnOk result (out.new.items ≡ out.old.items ++ spaced place depth byte) }
{
    if byte == b',' {
        out.push(byte)?;
        return put_line(out, depth);
    }
    if byte == b':' {
        return push(out, byte);
    }
    if is_closing(byte) {
        put_gap(out, place, true, depth.saturating_sub(1))?;
    } else {
        put_gap(out, place, false, depth)?;
    }
    push(out, byte)
}

// Appends a byte.
fn put(out: &mut Vec<u8>, place: Place, depth: usize, byte: u8) -> Result<(), AllocError>
    ensures { OnOk result (out.new.items ≡ out.old.items ++ put_at place depth byte) }
{
    match place {
        Place::Text | Place::Escape => push(out, byte),
        _ => put_spaced(out, place, depth, byte),
    }
}

// Where the byte after this one stands, which is outside of texts.
fn after_byte(byte: u8) -> Place
    ensures { result ≡ after_byte byte }
{
    if byte == b',' {
        Place::Start
    } else if byte == b':' {
        Place::Name
    } else if is_opening(byte) {
        Place::Bracket
    } else if byte == b'"' {
        Place::Text
    } else {
        Place::Value
    }
}

// The same of a byte in a text.
fn in_text(byte: u8) -> Place
    ensures { result ≡ in_text byte }
{
    if byte == b'"' {
        Place::Value
    } else if byte == b'\\' {
        Place::Escape
    } else {
        Place::Text
    }
}

fn place_at(place: Place, byte: u8) -> Place
    ensures { result ≡ place_at place byte }
{
    match place {
        Place::Text => in_text(byte),
        Place::Escape => Place::Text,
        _ => after_byte(byte),
    }
}

// How deep the byte after this one stands.
fn deeper(depth: usize, byte: u8) -> usize
    ensures { result ≡ deeper depth byte }
{
    if is_opening(byte) {
        depth.saturating_add(1)
    } else if is_closing(byte) {
        depth.saturating_sub(1)
    } else {
        depth
    }
}

fn depth_at(place: Place, depth: usize, byte: u8) -> usize
    ensures { result ≡ depth_at place depth byte }
{
    match place {
        Place::Text | Place::Escape => depth,
        _ => deeper(depth, byte),
    }
}

/// Compact JSON with a line for each item and member, two blanks deeper for each bracket.
pub(crate) fn laid_out(alloc: Global, text: &[u8]) -> Result<Vec<u8>, AllocError>
    ensures { IfOk result (λ t. (d : Data) → has_float d ≡ false → compact_text d ≡ text.now
        → t.items ≡ pretty (json_tokens (outline d))) }
{
    let mut out = Vec::new(alloc);
    let mut place = Place::Start;
    let mut depth = 0;
    for byte in text {
        put(&mut out, place, depth, *byte)?;
        depth = depth_at(place, depth, *byte);
        place = place_at(place, *byte);
    }
    Ok(out)
}
