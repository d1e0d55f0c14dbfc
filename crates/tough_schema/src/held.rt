//! The documents of the roles of a tree.

ghost use Rattle.std.specs.Prelude.{◌≡◌, ◌++◌, ◌∷◌, [], IfOk, OnOk};
ghost use Rattle.tough_schema.specs.Whole.{tree_doc, role_tree, held_docs};
ghost use Rattle.tough_schema.specs.Entries.{documents_of, documents_below};

use crate::delegations::DelegatedRole;
use crate::targets::{DelegatedTargets, Targets};
use std::alloc::{AllocError, Global};
use tough_roles::Signed;

// Adds a role's document, if it has one.
fn add_document<'a>(
    role: &'a DelegatedRole,
    found: &mut Vec<&'a Signed<DelegatedTargets>>,
) -> Result<(), AllocError>
    ensures { OnOk result (held_docs found.new.items
        ≡ held_docs found.old.items ++ documents_of (role_tree role.now ∷ [])) }
{
    if let Some(document) = &role.targets {
        found.push(document)?;
    }
    Ok(())
}

impl Targets {
    /// The documents of the roles of the tree below this document, in preorder.
    pub fn signed_delegated_targets(
        &self,
        alloc: Global,
    ) -> Result<Vec<&Signed<DelegatedTargets>>, AllocError>
        ensures { IfOk result (λ v. held_docs v.items ≡ documents_below (tree_doc self.now)) }
    {
        let entries = self.entries(alloc)?;
        let mut found = Vec::new(alloc);
        for role in &entries {
            add_document(role, &mut found)?;
        }
        Ok(found)
    }
}
