ghost use Rattle.std.specs.Prelude.{◌≡◌, [], Some, IfOk, codes};
ghost use Rattle.serde_json.specs.Data.{array, Items, no_members, member};
ghost use Rattle.serde_json.specs.View.{view, items_view};
ghost use Rattle.tough_json.specs.Writing.{all_json};
ghost use Rattle.tough_json.specs.Pieces.{IsOpen};
ghost use Rattle.tough_roles.specs.Signature.{signature_doc, signatures_doc, signature_json, signed_parts_json};

use crate::signature::Signature;
use serde_json::{Map, Value};
use std::alloc::{AllocError, Global};
use tough_json::pieces::OpenObject;
use tough_json::write::{digits, put};
use tough_json::{Form, ObjectText, PieceError};

#[tactic(auto, unfolding(crate::specs::Signature::signature_json))]
fn signature_value(alloc: Global, signature: &Signature) -> Result<Value, AllocError>
    ensures { IfOk result (λ v. signature_json (signature_doc signature.now) ≡ Some (view v)) }
{
    let sig = digits(alloc, &signature.sig)?;
    let keyid = digits(alloc, &signature.keyid)?;
    let mut members = Map::new(alloc);
    put(alloc, &mut members, "sig", sig)?;
    put(alloc, &mut members, "keyid", keyid)?;
    Ok(Value::Object(members))
}

// Each signature as an item.
fn signature_values(alloc: Global, signatures: &[Signature]) -> Result<Vec<Value>, AllocError>
    ensures { IfOk result (λ v. all_json signature_json (signatures_doc signatures.now)
        ≡ Some (items_view v.items)) }
{
    let mut values = Vec::new(alloc);
    for signature in signatures {
        let value = signature_value(alloc, signature)?;
        values.push(value)?;
    }
    Ok(values)
}

// The document with that role and these signatures.
#[tactic(auto, unfolding(crate::specs::Signature::signed_parts_json))]
pub(crate) fn signed_value(
    alloc: Global,
    role: Value,
    signatures: &[Signature],
) -> Result<Value, AllocError>
    ensures { IfOk result (λ v. signed_parts_json (view role)
        (signatures_doc signatures.now) ≡ Some (view v)) }
{
    let items = signature_values(alloc, signatures)?;
    let mut members = Map::new(alloc);
    put(alloc, &mut members, "signatures", Value::Array(items))?;
    put(alloc, &mut members, "signed", role)?;
    Ok(Value::Object(members))
}

// The document's text up to its role's, which stands behind these signatures.
pub(crate) fn before_role(
    alloc: Global,
    form: Form,
    signatures: &[Signature],
) -> Result<(OpenObject, Vec<u8>), PieceError>
    ensures { IfOk result (λ r. (items : Items)
        × (all_json signature_json (signatures_doc signatures.now) ≡ Some items)
        × IsOpen [] form (member (codes "signatures") (array items) no_members)
        (codes "signed") r.0 r.1.items) }
{
    let items = Value::Array(signature_values(alloc, signatures)?);
    let mut object = ObjectText::new(alloc, form)?;
    object.push(alloc, "signatures", &items)?;
    let opened = object.open("signed")?;
    Ok(opened)
}
