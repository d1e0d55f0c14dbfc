//! Objects written member by member, so that no value of the whole object is made.

ghost use Rattle.std.specs.Prelude.{◌≡◌, ◌++◌, ℕ, List, [], ◌∷◌, false, Some, IfOk, OnOk, IsTrue, ◌&&◌, nat_lt, if◌then◌else◌};
ghost use Rattle.std.specs.List.{list_all};
ghost use Rattle.serde_json.specs.Data.{Data, string, Members, object, no_members};
ghost use Rattle.serde_json.specs.View.{view};
ghost use Rattle.tough_json.specs.Results.{Writes};
ghost use Rattle.tough_json.specs.declared.pieces.Form.{Form as Kind};
ghost use Rattle.tough_json.specs.Pieces.{text_in, is_simple_byte, IsSimple, AreBelow, and_last, piece, Appends, Stands, IsNamed, IsOpen};

use crate::error::WriteError;
use crate::text::bytes_of;
use serde_json::Value;
use std::alloc::{AllocError, Global};
use tough_cjson::{CjsonError, canonical, holds_float};

/// Which text of a value is written.
#[derive(Clone, Copy, Debug, PartialEq, Eq, Drop)]
pub enum Form {
    /// The canonical one (OLPC canonical JSON).
    Canonical,
    /// Compact JSON (RFC 8259), with the members in the order of their names' bytes.
    Compact,
    /// The canonical one, of a value whose compact text is the same; others have none.
    Both,
}

/// Why an object isn't written in pieces.
#[derive(Debug, Drop, thiserror::Error)]
pub enum PieceError {
    /// The pieces don't tell the text, or there is none: the whole value decides.
    #[error("not written in pieces")]
    Refused,
    /// A request for memory was refused.
    #[error("out of memory")]
    Memory,
}

impl From<AllocError> for PieceError {
    fn from(_: AllocError) -> PieceError {
        PieceError::Memory
    }
}

impl From<WriteError> for PieceError {
    fn from(error: WriteError) -> PieceError {
        match error {
            WriteError::Unwritable => PieceError::Refused,
            WriteError::Memory => PieceError::Memory,
        }
    }
}

/// The text of a value; `Unwritable` where it has none, as one with a float.
pub fn text_in(alloc: Global, form: Form, value: &Value) -> Result<Vec<u8>, WriteError>
    ensures { Writes (λ t. t.items) result (text_in form (view value.now)) }
{
    match form {
        Form::Canonical => canonical_text(alloc, value),
        Form::Compact => compact_text(alloc, value),
        Form::Both => common_text(alloc, value),
    }
}

// The canonical text of a value; `Unwritable` where it has none.
fn canonical_text(alloc: Global, value: &Value) -> Result<Vec<u8>, WriteError>
    ensures { Writes (λ t. t.items) result (text_in Kind.Canonical (view value.now)) }
{
    match canonical(alloc, value) {
        Ok(text) => Ok(text),
        Err(CjsonError::Memory) => Err(WriteError::Memory),
        Err(_) => Err(WriteError::Unwritable),
    }
}

// The value as compact JSON; `Unwritable` where it holds a float.
fn compact_text(alloc: Global, value: &Value) -> Result<Vec<u8>, WriteError>
    ensures { Writes (λ t. t.items) result (text_in Kind.Compact (view value.now)) }
{
    if holds_float(value) {
        return Err(WriteError::Unwritable);
    }
    match bytes_of(alloc, value) {
        Ok(bytes) => Ok(bytes),
        Err(_) => Err(WriteError::Memory),
    }
}

// The canonical text of a value, which is its compact text too; `Unwritable` where they differ, or it has none.
fn common_text(alloc: Global, value: &Value) -> Result<Vec<u8>, WriteError>
    ensures { Writes (λ t. t.items) result (text_in Kind.Both (view value.now)) }
{
    let text = canonical_text(alloc, value)?;
    let compact = compact_text(alloc, value)?;
    if text.as_slice() != compact.as_slice() {
        return Err(WriteError::Unwritable);
    }
    Ok(text)
}

// ASCII that is no control character, no quote and no backslash.
fn is_simple_byte(byte: u8) -> bool
    ensures { result ≡ (nat_lt byte 128 && is_simple_byte byte) }
{
    byte < 128 && !(byte < 32) && !(byte == b'"') && !(byte == b'\\')
}

fn has_simple_bytes(name: &[u8]) -> bool
    ensures { result ≡ list_all (λ b. nat_lt b 128 && is_simple_byte b) name.now }
{
    name.iter().all(|byte| is_simple_byte(*byte))
}

// Whether the name stands in quotes as it is.
fn is_simple(name: &str) -> bool
    ensures { IsTrue result → IsSimple name.now }
{
    has_simple_bytes(name.as_bytes())
}

/// The text with that of the value behind it. `Refused` where the value has none.
pub fn append_value(
    alloc: Global,
    form: Form,
    value: &Value,
    mut out: Vec<u8>,
) -> Result<Vec<u8>, PieceError>
    ensures { IfOk result (λ t. Appends out.items (text_in form (view value.now)) t.items) }
{
    let text = text_in(alloc, form, value)?;
    out.extend_from_slice(text.as_slice())?;
    Ok(out)
}

/// The text with another in quotes behind it. `Refused` where that one isn't ASCII, or has a control character, a quote
/// or a backslash.
pub fn append_quoted(mut out: Vec<u8>, text: &str) -> Result<Vec<u8>, PieceError>
    ensures { IfOk result (λ t. (form : Kind)
        → Appends out.items (text_in form (string text.now)) t.items) }
{
    if !is_simple(text) {
        return Err(PieceError::Refused);
    }
    out.extend_from_slice(b"\"")?;
    out.extend_from_slice(text.as_bytes())?;
    out.extend_from_slice(b"\"")?;
    Ok(out)
}

// Appends a member's name in quotes and a colon, with a comma before them unless the member is the first.
fn append_name(out: &mut Vec<u8>, is_first: bool, name: &str) -> Result<(), AllocError>
    ensures { OnOk result (out.new.items
        ≡ out.old.items ++ ((if is_first then [] else 44 ∷ []) ++ piece name.now [])) }
{
    if !is_first {
        out.extend_from_slice(b",")?;
    }
    out.extend_from_slice(b"\"")?;
    out.extend_from_slice(name.as_bytes())?;
    out.extend_from_slice(b"\":")
}

/// The text of an object that is written member by member. After an error it is of no more use.
#[derive(Drop)]
pub struct ObjectText {
    form: Form,
    text: Vec<u8>,
    is_first: bool,
    last: String,
}

/// What an object is without its text, while the value of its last member is written.
#[derive(Drop)]
pub struct OpenObject {
    form: Form,
    last: String,
}

impl ObjectText {
    /// An object with no member yet.
    pub fn new(alloc: Global, form: Form) -> Result<ObjectText, AllocError>
        ensures { IfOk result (Stands [] form no_members) }
    {
        ObjectText::behind(alloc, form, Vec::new(alloc))
    }

    /// The same behind a text.
    pub fn behind(alloc: Global, form: Form, mut text: Vec<u8>) -> Result<ObjectText, AllocError>
        ensures { IfOk result (Stands text.items form no_members) }
    {
        text.extend_from_slice(b"{")?;
        Ok(ObjectText {
            form,
            text,
            is_first: true,
            last: String::new(alloc),
        })
    }

    // Writes the name of one more member, behind the others.
    fn write_name(&mut self, name: &str) -> Result<(), PieceError>
        ensures named { OnOk result ((base : List ℕ) (form : Kind) (ms : Members)
            → Stands base form ms self.old → AreBelow name.now ms
            × IsNamed base form ms name.now self.new.form self.new.last self.new.text.items) }
        ensures more { OnOk result (self.new.is_first ≡ false) }
    {
        if !is_simple(name) {
            return Err(PieceError::Refused);
        }
        if name <= self.last.as_str() {
            return Err(PieceError::Refused);
        }
        append_name(&mut self.text, self.is_first, name)?;
        self.is_first = false;
        self.last.clear();
        self.last.push_str(name)?;
        Ok(())
    }

    /// One more member, behind the others. `Refused` where the value has no text, or the name isn't ASCII, has a control
    /// character, a quote or a backslash, or isn't above those before it by its bytes.
    pub fn push(&mut self, alloc: Global, name: &str, value: &Value) -> Result<(), PieceError>
        ensures { OnOk result ((base : List ℕ) (form : Kind) (ms : Members)
            → Stands base form ms self.old → AreBelow name.now ms
            × Stands base form (and_last ms name.now (view value.now)) self.new) }
    {
        let text = text_in(alloc, self.form, value)?;
        self.push_text(name, text.as_slice())
    }

    /// The same, where the text of the value is known.
    pub fn push_text(&mut self, name: &str, text: &[u8]) -> Result<(), PieceError>
        ensures { OnOk result ((base : List ℕ) (form : Kind) (ms : Members) (d : Data)
            → Stands base form ms self.old → text_in form d ≡ Some text.now
            → AreBelow name.now ms × Stands base form (and_last ms name.now d) self.new) }
    {
        self.write_name(name)?;
        self.text.extend_from_slice(text)?;
        Ok(())
    }

    /// The same, where the text of the value is to be appended to what is written so far, which is given out.
    pub fn open(mut self, name: &str) -> Result<(OpenObject, Vec<u8>), PieceError>
        ensures { IfOk result (λ r. (base : List ℕ) (form : Kind) (ms : Members)
            → Stands base form ms self
            → AreBelow name.now ms × IsOpen base form ms name.now r.0 r.1.items) }
    {
        self.write_name(name)?;
        let ObjectText {
            form,
            text,
            last,
            ..
        } = self;
        Ok((OpenObject { form, last }, text))
    }

    /// The text of the object of these members, behind the one that it was begun behind.
    pub fn finish(self) -> Result<Vec<u8>, AllocError>
        ensures { IfOk result (λ t. (base : List ℕ) (form : Kind) (ms : Members)
            → Stands base form ms self → Appends base (text_in form (object ms)) t.items) }
    {
        let ObjectText { mut text, .. } = self;
        text.extend_from_slice(b"}")?;
        Ok(text)
    }
}

impl OpenObject {
    /// The object again, once the text of the value is appended to what was given out.
    pub fn close(self, text: Vec<u8>) -> ObjectText
        ensures { (base : List ℕ) (form : Kind) (ms : Members) (n : List ℕ) (d : Data)
            (before : List ℕ) → IsOpen base form ms n self before
            → Appends before (text_in form d) text.items
            → Stands base form (and_last ms n d) result }
    {
        let OpenObject { form, last } = self;
        ObjectText {
            form,
            text,
            is_first: false,
            last,
        }
    }
}
