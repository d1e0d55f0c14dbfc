//! Signed documents with the text that a store keeps of them.

ghost use Rattle.std.specs.Prelude.{◌≡◌, Some, IfOk, IfSome};
ghost use Rattle.tough_roles.specs.Chain.{text_by};
ghost use Rattle.tough_roles.specs.Policy.{policy, policy_of};
ghost use Rattle.tough_roles.specs.Root.{root_doc, keys_doc, role_keys_doc};
ghost use Rattle.tough_roles.specs.Signature.{signatures_doc};
ghost use Rattle.tough_roles.specs.Verdict.{Refused, MissingRole, verdict, Answers};
ghost use Rattle.tough_roles.specs.Written.{compact_by, EndsWithRole};

use crate::error::Error;
use crate::role::Role;
use crate::root::{RoleKeys, Root};
use crate::signed::Signed;
use crate::verify::{judge, verify_by};
use crate::write_signed::before_role;
use std::alloc::Global;
use std::collections::BTreeMap;
use std::marker::Model;
use tough_decoded::{Decoded, Hex};
use tough_json::pieces::OpenObject;
use tough_json::{Form, PieceError};
use tough_keys::{Key, Verify};

/// A signed document, and its text as compact JSON where that was made while its signatures were verified. It stands for the document.
#[derive(Drop)]
pub struct Written<T: Role> {
    document: Signed<T>,
    text: Option<Vec<u8>>,
}

impl<T: Role> Model for Written<T> {
    ghost use Rattle.tough_roles.specs.declared.signed.Signed.{Signed};
    ghost use Rattle.tough_roles.specs.Written.{IsTextIfKnown};

    ghost Value = { Signed T };

    ghost view = { λ w. w.document };

    ghost invariant = { λ w. IsTextIfKnown T.json w.document w.text };
}

// The document's text as compact JSON, up to the end of its role's, and where that one begins. `Refused` where the role's canonical
// text is another, or isn't written in pieces.
fn text_to_role<T: Role>(
    alloc: Global,
    document: &Signed<T>,
) -> Result<(OpenObject, usize, Vec<u8>), PieceError>
    ensures { IfOk result (λ r. EndsWithRole T.json document.now r.0 r.1 r.2.items) }
{
    let (object, before) = before_role(alloc, Form::Compact, &document.signatures)?;
    let at = before.len();
    let text = document.signed.append_in_pieces(alloc, Form::Both, before)?;
    Ok((object, at, text))
}

impl<T: Role> Written<T> {
    /// The document, no text of which is known.
    pub fn new(document: Signed<T>) -> Written<T>
        ensures { result ≡ document }
    {
        Written {
            document,
            text: None,
        }
    }

    /// The document.
    pub fn document(&self) -> &Signed<T>
        ensures { result.now ≡ self.now }
    {
        &self.document
    }

    /// The document, without the text.
    pub fn into_document(self) -> Signed<T>
        ensures { result ≡ self }
    {
        let Written { document, text } = self;
        drop(text);
        document
    }

    /// The document's text as compact JSON, if it is known.
    pub fn text(&self) -> Option<&Vec<u8>>
        ensures { IfSome result (λ text. compact_by T.json self.now ≡ Some text.now.items) }
    {
        self.text.as_ref()
    }
}

impl<T: Role + Drop> Written<T> {
    /// The document, if its signatures reach the threshold that these keys ask for, of those that are known; with its text, where the role's
    /// canonical text stands in that. The refusals are those of [`verify_by`].
    pub fn verify_by<V: Verify>(
        alloc: Global,
        known: &BTreeMap<Decoded<Hex>, Key>,
        keys: &RoleKeys,
        document: Signed<T>,
        verifier: &V,
    ) -> Result<Written<T>, Error>
        ensures verdict { (absent : Refused) → Answers result
            (verdict (V.verifies verifier.now) absent T.TYPE
            (Some (policy_of (keys_doc known.now.entries) (role_keys_doc keys.now)))
            (text_by T.json document.signed) (signatures_doc document.signatures.items)) }
        ensures same { IfOk result (λ written. written ≡ document) }
    {
        match text_to_role(alloc, &document) {
            Ok((object, at, text)) => {
                let role = &text[at..];
                judge(
                    alloc,
                    known,
                    T::TYPE,
                    keys,
                    role,
                    &document.signatures,
                    verifier,
                )?;
                let whole = object.close(text).finish()?;
                Ok(Written {
                    document,
                    text: Some(whole),
                })
            }
            Err(PieceError::Memory) => Err(Error::Memory),
            Err(PieceError::Refused) => {
                verify_by(alloc, known, keys, &document, verifier)?;
                Ok(Written::new(document))
            }
        }
    }

    /// The same under the root, as [`Root::verify_role`].
    pub fn verify_role<V: Verify>(
        alloc: Global,
        root: &Root,
        document: Signed<T>,
        verifier: &V,
    ) -> Result<Written<T>, Error>
        ensures verdict { Answers result
            (verdict (V.verifies verifier.now) (MissingRole T.TYPE) T.TYPE
            (policy (root_doc root.now) T.TYPE) (text_by T.json document.signed)
            (signatures_doc document.signatures.items)) }
        ensures same { IfOk result (λ written. written ≡ document) }
    {
        match root.roles.get(&T::TYPE) {
            Some(keys) => Written::verify_by(alloc, &root.keys, keys, document, verifier),
            None => {
                drop(document);
                Err(Error::MissingRole { role: T::TYPE })
            }
        }
    }
}
