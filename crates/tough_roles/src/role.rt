ghost use Rattle.std.specs.Prelude.{◌≡◌, ℕ, List, Bool, Option, Some, IfOk, IsTrue, option_and_then, string_bytes};
ghost use Rattle.std.specs.Int.NonZero.{non_zero_u64_get};
ghost use Rattle.json.specs.Value.{value_view};
ghost use Rattle.serde_json.specs.Data.{Data};
ghost use Rattle.serde_json.specs.Read.{of_json};
ghost use Rattle.serde_json.specs.View.{view};
ghost use Rattle.tough_json.specs.Results.{Writes};
ghost use Rattle.tough_json.specs.Pieces.{text_in, Appends};
ghost use Rattle.tough_roles.specs.Chain.{text_by};
ghost use Rattle.tough_roles.specs.Document.{ReadsValue};
ghost use Rattle.tough_roles.specs.Head.{Head};
ghost use Rattle.tough_roles.specs.Orderly.{IsOrderly};
ghost use Rattle.tough_roles.specs.RoleId.{RoleIdDoc, role_id_doc};
ghost use Rattle.tough_roles.specs.declared.role_type.RoleType.{RoleType as RoleKind};

use crate::role_id::RoleId;
use crate::role_type::RoleType;
use serde_json::Value;
use std::alloc::{AllocError, Global};
use std::num::NonZeroU64;
use tough_json::borrowed::Borrowed;
use tough_json::error::{ReadError, WriteError};
use tough_json::{Form, PieceError};
use tough_keys::text_of;

/// What a signed document holds. `is_read d x` says that the JSON `d` is read as `x`; `json x` is the JSON that is
/// written for it, none where it can't be written; `is_kept x` says what else holds of each value that was read, and
/// `is_fresh x` what holds of it until it is changed; `file x` is the name of its file, by whether snapshots are
/// consistent.
pub trait Role {
    ghost TYPE: { RoleKind };

    ghost head: { Self → Head };

    ghost is_read: { Data → Self → Type 0 };

    ghost is_refused: { Data → Type 0 };

    ghost json: { Self → Option Data };

    ghost is_kept: { Self → Type 0 };

    ghost is_fresh: { Self → Type 0 };

    ghost file: { Self → Bool → List ℕ };

    ghost id: { Self → RoleIdDoc };

    /// The role that the JSON is; `Shape` where it is none.
    fn from_borrowed(alloc: Global, value: Borrowed<'_>) -> Result<Self, ReadError>
        ensures read { (d : Data) → of_json (value_view value.entry) ≡ Some d
            → ReadsValue is_read is_refused result d }
        ensures kept { (d : Data) → of_json (value_view value.entry) ≡ Some d
            → IfOk result is_kept }
        ensures fresh { IfOk result is_fresh };

    /// The role as JSON, which is read as it; `Unwritable` where it has none.
    fn to_value(&self, alloc: Global) -> Result<Value, WriteError>
        ensures written { Writes view result (json self.now) }
        ensures back { is_kept self.now → IfOk result (λ v. is_read (view v) self.now) };

    /// The text with that of the role's JSON behind it, written in pieces, so that no value of the whole is made.
    /// `Refused` where the role isn't written so: the text of `to_value` decides then.
    fn append_in_pieces(
        &self,
        alloc: Global,
        form: Form,
        out: Vec<u8>,
    ) -> Result<Vec<u8>, PieceError>
        ensures { IfOk result (λ t. Appends out.items
            (option_and_then (text_in form) (json self.now)) t.items) }
    {
        Err(PieceError::Refused)
    }

    /// Whether the role's JSON, if it has one, is known to be orderly, and to be read as the role where the role is kept.
    /// No value of the whole is made; `false` says nothing.
    fn reads_back(&self, alloc: Global) -> Result<bool, AllocError>
        ensures { IfOk result (λ known. IsTrue known → (d : Data) → json self.now ≡ Some d
            → IsOrderly d × (is_kept self.now → is_read d self.now)) }
    {
        Ok(false)
    }

    /// The canonical text of the role as it is kept, which is what is signed; `Unwritable` where it has none.
    fn canonical_form(&self, alloc: Global) -> Result<Vec<u8>, WriteError>
        ensures { Writes (λ t. t.items) result (text_by json self.now) }
    {
        match self.append_in_pieces(alloc, Form::Canonical, Vec::new(alloc)) {
            Ok(text) => Ok(text),
            Err(PieceError::Memory) => Err(WriteError::Memory),
            Err(PieceError::Refused) => {
                let value = self.to_value(alloc)?;
                text_of(alloc, &value)
            }
        }
    }

    /// The version of the document.
    fn version(&self) -> NonZeroU64
        ensures { non_zero_u64_get result ≡ (head self.now).version };

    /// When the document expires.
    fn expires(&self) -> jiff::Timestamp
        ensures { result.nanosecond ≡ (head self.now).expires };

    /// The name of the document's file, with consistent snapshots or without (TUF specification 1.0, section 6.2).
    fn filename(&self, alloc: Global, consistent_snapshot: bool) -> Result<String, AllocError>
        ensures { IfOk result (λ s. string_bytes s ≡ file self.now consistent_snapshot) };

    /// Which role the document is of.
    fn role_id(&self) -> Result<RoleId, AllocError>
        ensures { IfOk result (λ r. role_id_doc r ≡ id self.now) };

    ghost apart: { (x : Self) (d : Data) → is_read d x → is_refused d → ⊥ };

    /// Which role of a root signs it.
    const TYPE: RoleType;
}
