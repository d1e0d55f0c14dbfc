//! Signed documents, and their texts.
ghost use Rattle.std.specs.Prelude.{◌≡◌, Some, IfOk};
ghost use Rattle.serde_json.specs.Data as Data;
ghost use Rattle.tough_keys.specs.Key.{key_doc};
ghost use Rattle.tough_roles.specs.Chain.{text_by};
ghost use Rattle.tough_roles.specs.Document.{document_json};
ghost use Rattle.tough_roles.specs.Signature.{signatures_doc};
ghost use Rattle.tough_demo.specs.Demo.{IsPretty, IsSignedAlone};

use crate::error::DemoError;
use crate::keys::identifier;
use std::alloc::Global;
use tough_decoded::Decoded;
use tough_schema::{DemoSign, Role, Sign, Signature, Signed};

/// The role with the signature of one signer.
pub fn sign<T: Role + Drop>(
    alloc: Global,
    role: T,
    signer: &DemoSign,
) -> Result<Signed<T>, DemoError>
    ensures role { IfOk result (λ s. s.signed ≡ role) }
    ensures signature { IfOk result
        (λ s. IsSignedAlone (key_doc signer.now.key) (text_by T.json role)
        (signatures_doc s.signatures.items)) }
{
    let text = role.canonical_form(alloc)?;
    let sig = Decoded::from_vec(alloc, signer.sign(alloc, text.as_slice())?)?;
    let keyid = identifier(alloc, &signer.tuf_key(alloc)?)?;
    let mut signatures = Vec::new(alloc);
    signatures.push(Signature { keyid, sig })?;
    Ok(Signed {
        signed: role,
        signatures,
    })
}

/// The document as an editor writes it to a file: JSON with two blanks a level, and a line feed at its end.
pub fn pretty<T: Role>(alloc: Global, document: &Signed<T>) -> Result<Vec<u8>, DemoError>
    ensures { IfOk result (λ b. (d : Data.Data) × (document_json T.json document.now ≡ Some d)
        × IsPretty d b.items) }
{
    let value = document.to_value(alloc)?;
    let mut text = value.to_vec_pretty(alloc)?;
    text.push(b'\n')?;
    Ok(text)
}
