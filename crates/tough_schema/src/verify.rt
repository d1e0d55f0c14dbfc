//! Verifying the documents of delegated roles.

ghost use Rattle.std.specs.Prelude.{◌≡◌, Some, None, IfOk, option_map, map};
ghost use Rattle.tough_roles.specs.Root.{role_keys_doc};
ghost use Rattle.tough_roles.specs.Signature.{signatures_doc, signed_doc};
ghost use Rattle.tough_roles.specs.Verdict.{RoleNotFound, verdict, Answers, IsOkOrMemory};
ghost use Rattle.tough_roles.specs.Chain.{text_by};
ghost use Rattle.tough_schema.specs.Delegations.{delegated_role_doc, delegations_doc};
ghost use Rattle.tough_schema.specs.Verify.{role_keys, role_named, delegated_policy, ReachesDelegated};

use crate::delegations::{DelegatedRole, Delegations};
use serde_json::Map;
use std::alloc::{AllocError, Global};
use tough_keys::Verify;
use tough_roles::verify::verify_by;
use tough_roles::{Error, Role, RoleKeys, Signed};

impl DelegatedRole {
    /// The identifiers of the role's keys, and its threshold.
    pub fn keys(&self, alloc: Global) -> Result<RoleKeys, AllocError>
        ensures { IfOk result (λ k. role_keys_doc k ≡ role_keys (delegated_role_doc self.now)) }
    {
        Ok(RoleKeys {
            keyids: self.keyids.clone()?,
            threshold: self.threshold,
            _extra: Map::new(alloc),
        })
    }
}

// The first role with the name.
fn first_named<'a>(roles: &'a [DelegatedRole], name: &str) -> Option<&'a DelegatedRole>
    ensures { option_map (λ r. delegated_role_doc r.now) result
        ≡ role_named name.now (map delegated_role_doc roles.now) }
{
    for role in roles {
        if role.name.as_str() == name {
            return Some(role);
        }
    }
    None
}

// The verdict on the document's signatures, by the first role with the name.
fn answer<T: Role, V: Verify>(
    alloc: Global,
    delegations: &Delegations,
    document: &Signed<T>,
    name: &str,
    verifier: &V,
) -> Result<(), Error>
    ensures { Answers result (verdict (V.verifies verifier.now) (RoleNotFound name.now) T.TYPE
        (delegated_policy (delegations_doc delegations.now) name.now)
        (text_by T.json document.now.signed) (signatures_doc document.now.signatures.items)) }
{
    match first_named(&delegations.roles, name) {
        Some(role) => {
            let keys = role.keys(alloc)?;
            verify_by(alloc, &delegations.keys, &keys, document, verifier)
        }
        None => Err(Error::RoleNotFound {
            name: String::from_str(alloc, name)?,
        }),
    }
}

impl Delegations {
    /// The first role with the name.
    pub fn first_role(&self, name: &str) -> Option<&DelegatedRole>
        ensures { option_map (λ r. delegated_role_doc r.now) result
            ≡ role_named name.now (delegations_doc self.now).roles }
    {
        first_named(&self.roles, name)
    }

    /// Checks that the document's signatures reach the threshold of the first role with the name. The errors, in this order:
    /// `RoleNotFound`, `JsonSerialization`, `DuplicateKeyId`, `SignatureThreshold`.
    pub fn verify_role<T: Role, V: Verify>(
        &self,
        alloc: Global,
        document: &Signed<T>,
        name: &str,
        verifier: &V,
    ) -> Result<(), Error>
        ensures verdict { Answers result
            (verdict (V.verifies verifier.now) (RoleNotFound name.now) T.TYPE
            (delegated_policy (delegations_doc self.now) name.now)
            (text_by T.json document.now.signed) (signatures_doc document.now.signatures.items)) }
        ensures ok { IfOk result (λ u. ReachesDelegated (V.verifies verifier.now)
            (delegations_doc self.now) name.now T.json (signed_doc (λ x. x) document.now)) }
        ensures only { ReachesDelegated (V.verifies verifier.now) (delegations_doc self.now)
            name.now T.json (signed_doc (λ x. x) document.now) → IsOkOrMemory result }
    {
        answer(alloc, self, document, name, verifier)
    }
}
