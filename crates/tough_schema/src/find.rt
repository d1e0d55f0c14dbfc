//! The search for a target.

ghost use Rattle.std.specs.Prelude.{◌≡◌, Some, IfOk, IfErr};
ghost use Rattle.tough_schema.specs.Whole.{tree_doc, role_tree};
ghost use Rattle.tough_schema.specs.Target.{target_doc};
ghost use Rattle.tough_schema.specs.Search.{matches, search, IsNotFound};

use crate::delegations::DelegatedRole;
use crate::hashed::Hashed;
use crate::nodes::Nodes;
use crate::target::Target;
use crate::targets::Targets;
use std::alloc::Global;
use tough_names::TargetName;
use tough_roles::Error;

impl DelegatedRole {
    /// Whether the role may list the name: its path set matches (TUF specification 1.0, section 4.5, `paths` and `path_hash_prefixes`).
    pub fn matches(&self, name: &Hashed<'_>) -> bool
        ensures { result ≡ matches name.now.name.now (role_tree self.now).0 }
    {
        self.paths.matches_hashed(name)
    }
}

impl Targets {
    /// Searches for the target of the name (section 5.6): in this document, then in preorder in the documents of the roles
    /// whose path sets match. A search that isn't permissive ends after a terminating role. `TargetNotFound` if no
    /// document that it reaches lists the name.
    pub fn find_target(
        &self,
        alloc: Global,
        name: &TargetName,
        permissive: bool,
    ) -> Result<&Target, Error>
        ensures found { IfOk result
            (λ t. search permissive name.now (tree_doc self.now) ≡ Some (target_doc t.now)) }
        ensures missing { IfErr result
            (λ e. IsNotFound name.now (search permissive name.now (tree_doc self.now)) e) }
    {
        let nodes = Nodes::of(alloc, self)?;
        match nodes.find(alloc, name, permissive)? {
            Some(target) => Ok(target),
            None => Err(Error::TargetNotFound {
                name: name.clone()?,
            }),
        }
    }
}
