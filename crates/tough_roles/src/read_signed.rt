ghost use Rattle.std.specs.Prelude.{◌≡◌, Some, IfOk};
ghost use Rattle.json.specs.Value.{value_view};
ghost use Rattle.serde_json.specs.Data.{Data};
ghost use Rattle.serde_json.specs.Read.{of_json};
ghost use Rattle.tough_roles.specs.Signature.{SignatureDoc, signature_doc, signatures_doc, signature_at, signed_parts};
ghost use Rattle.tough_roles.specs.Document.{ReadsValue, ReadsParts, IsSigned, IsNotSigned};

use crate::role::Role;
use crate::signature::Signature;
use crate::signed::Signed;
use serde_json::Value;
use std::alloc::Global;
use tough_json::borrowed::{Borrowed, take_member};
use tough_json::error::{ReadError, shape, within};
use tough_json::list::{FromJson, list};
use tough_json::member::hexadecimal;

impl FromJson for Signature {
    ghost Doc = { SignatureDoc };

    ghost doc = { signature_doc };

    ghost at = { signature_at };

    #[tactic(auto, unfolding(crate::specs::Signature::signature_at))]
    fn from_json(alloc: Global, value: Value) -> Result<Signature, ReadError> {
        let Value::Object(mut members) = value else {
            return Err(shape(alloc, "(no object)"));
        };
        let keyid = hexadecimal(alloc, &mut members, "keyid")?;
        let sig = hexadecimal(alloc, &mut members, "sig")?;
        Ok(Signature { keyid, sig })
    }
}

// The role's JSON and the signatures.
#[tactic(auto, unfolding(crate::specs::Signature::signed_parts))]
fn parts_of(
    alloc: Global,
    document: Borrowed<'_>,
) -> Result<(Borrowed<'_>, Vec<Signature>), ReadError>
    ensures { (d : Data) → of_json (value_view document.entry) ≡ Some d
        → ReadsParts (λ v. signatures_doc v.items) result (signed_parts d) }
{
    let Borrowed::Object(members) = document else {
        return Err(shape(alloc, "(no object)"));
    };
    let (role, mut others) = take_member(alloc, members, "signed")?;
    let listed = list(alloc, &mut others, "signatures")?;
    Ok((role, listed))
}

// The document that the JSON is.
pub(crate) fn signed_of<T: Role>(
    alloc: Global,
    document: Borrowed<'_>,
) -> Result<Signed<T>, ReadError>
    ensures read { (d : Data) → of_json (value_view document.entry) ≡ Some d
        → ReadsValue (IsSigned T.is_read) (IsNotSigned T.is_refused) result d }
    ensures fresh { IfOk result (λ s. T.is_fresh s.signed) }
{
    let (role, signatures) = match parts_of(alloc, document) {
        Ok(parts) => parts,
        Err(error) => return Err(error),
    };
    match T::from_borrowed(alloc, role) {
        Ok(signed) => Ok(Signed { signed, signatures }),
        Err(error) => Err(within(alloc, "signed", error)),
    }
}
