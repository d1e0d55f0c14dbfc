ghost use Rattle.std.specs.Prelude.{◌≡◌, Some, None, IfOk, IsErrOf, option_and_then};
ghost use Rattle.serde_json.specs.Read.{max_depth};
ghost use Rattle.serde_json.specs.View.{view};
ghost use Rattle.tough_json.specs.Results.{Writes};
ghost use Rattle.tough_json.specs.Pieces.{text_in};
ghost use Rattle.tough_json.specs.declared.error.WriteError.TheVariants as writes;
ghost use Rattle.tough_json.specs.declared.pieces.Form.TheVariants as forms;
ghost use Rattle.tough_roles.specs.Readable.{NestsWithin, IsTextOf};
ghost use Rattle.tough_roles.specs.Document.{ReadsText, IsSigned, IsNotSigned, document_json};

use crate::read_signed::signed_of;
use crate::role::Role;
use crate::signature::Signature;
use crate::write_signed::{before_role, signed_value};
use serde_json::Value;
use std::alloc::Global;
use tough_json::borrowed::{Scratch, borrowed};
use tough_json::error::{ReadError, WriteError};
use tough_json::pieces::text_in;
use tough_json::text::bytes_of;
use tough_json::{Form, PieceError, holds_float};

/// A role with its signatures.
#[derive(Debug, Drop, PartialEq)]
pub struct Signed<T> {
    pub signed: T,
    pub signatures: Vec<Signature>,
}

impl<T: Role> Signed<T> {
    /// The document that the bytes are; `Json` where they are no JSON, `Shape` where that is no document.
    pub fn read(alloc: Global, bytes: &[u8]) -> Result<Signed<T>, ReadError>
        ensures read { ReadsText (IsSigned T.is_read) (IsNotSigned T.is_refused) result bytes.now }
        ensures fresh { IfOk result (λ s. T.is_fresh s.signed) }
    {
        let mut scratch = Scratch::new(alloc);
        match borrowed(alloc, bytes, &mut scratch) {
            Ok(document) => signed_of(alloc, document),
            Err(error) => Err(error),
        }
    }

    /// The document as JSON, which is read as it; `Unwritable` where its role has none.
    pub fn to_value(&self, alloc: Global) -> Result<Value, WriteError>
        ensures written { Writes view result (document_json T.json self.now) }
        ensures unwritable { IsErrOf result writes.Unwritable → T.json self.now.signed ≡ None }
        ensures back { T.is_kept self.now.signed
            → IfOk result (λ v. IsSigned T.is_read (view v) self.now) }
    {
        let role = self.signed.to_value(alloc)?;
        Ok(signed_value(alloc, role, &self.signatures)?)
    }

    /// The text of the document as compact JSON, which is read as the document where it nests no deeper than is read;
    /// `Unwritable` where its role has no JSON, or that holds a float.
    pub fn compact(&self, alloc: Global) -> Result<Vec<u8>, WriteError>
        ensures written { Writes (λ t. t.items) result
            (option_and_then (text_in forms.Compact) (document_json T.json self.now)) }
        ensures unwritable { IsErrOf result writes.Unwritable
            → option_and_then (text_in forms.Compact) (T.json self.now.signed) ≡ None }
        ensures back { T.is_kept self.now.signed
            → NestsWithin max_depth (document_json T.json self.now)
            → IfOk result (λ t. IsTextOf T.is_read self.now t.items) }
    {
        let value = self.to_value(alloc)?;
        if holds_float(&value) {
            return Err(WriteError::Unwritable);
        }
        let compact = bytes_of(alloc, &value)?;
        Ok(compact)
    }

    // The same text, where the role is written in pieces.
    fn text_in_pieces(&self, alloc: Global, form: Form) -> Result<Vec<u8>, PieceError>
        ensures { IfOk result (λ t. option_and_then (text_in form)
            (document_json T.json self.now) ≡ Some t.items) }
    {
        let (object, before) = before_role(alloc, form, &self.signatures)?;
        let text = self.signed.append_in_pieces(alloc, form, before)?;
        let whole = object.close(text).finish()?;
        Ok(whole)
    }

    /// The text of the document, canonical or compact; `Unwritable` where its role has no JSON, or that has no such text.
    pub fn text(&self, alloc: Global, form: Form) -> Result<Vec<u8>, WriteError>
        ensures { Writes (λ t. t.items) result
            (option_and_then (text_in form) (document_json T.json self.now)) }
    {
        match self.text_in_pieces(alloc, form) {
            Ok(text) => Ok(text),
            Err(PieceError::Memory) => Err(WriteError::Memory),
            Err(PieceError::Refused) => {
                let value = self.to_value(alloc)?;
                text_in(alloc, form, &value)
            }
        }
    }
}
