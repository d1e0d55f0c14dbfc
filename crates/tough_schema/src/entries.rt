//! The delegated roles of a tree in preorder.

ghost use Rattle.std.specs.Prelude.{◌≡◌, IfOk, map};
ghost use Rattle.tough_schema.specs.Whole.{tree_doc};
ghost use Rattle.tough_schema.specs.Entries.{entries, entry_names};
ghost use Rattle.tough_schema.specs.Gather.{shown};

use crate::delegations::DelegatedRole;
use crate::nodes::entries_below;
use crate::targets::Targets;
use std::alloc::{AllocError, Global};

impl Targets {
    /// The delegated roles below this document, in preorder.
    pub fn entries(&self, alloc: Global) -> Result<Vec<&DelegatedRole>, AllocError>
        ensures { IfOk result (λ v. shown v.items ≡ entries (tree_doc self.now)) }
    {
        entries_below(alloc, self)
    }

    /// The names of the delegated roles below this document, in preorder.
    pub fn role_names(&self, alloc: Global) -> Result<Vec<&str>, AllocError>
        ensures { IfOk result (λ v. map (λ n. n.now) v.items ≡ entry_names (tree_doc self.now)) }
    {
        let entries = self.entries(alloc)?;
        let mut names = Vec::new(alloc);
        for role in &entries {
            names.push(role.name.as_str())?;
        }
        Ok(names)
    }
}
