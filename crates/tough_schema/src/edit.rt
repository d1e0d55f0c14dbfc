//! Adding and removing the targets of a tree.

ghost use Rattle.std.specs.Prelude.{◌≡◌, OnOk, OnErr, option_map, map};
ghost use Rattle.std.specs.BTreeMap.{insert_entry, is_at};
ghost use Rattle.std.specs.Map.{remove_entry};
ghost use Rattle.tough_names.specs.Named.{by_raw_then_resolved};
ghost use Rattle.tough_schema.specs.Target.{target_doc};
ghost use Rattle.tough_schema.specs.Targets.{targets_doc};
ghost use Rattle.tough_schema.specs.Search.{listed};
ghost use Rattle.tough_schema.specs.Whole.{tree_doc, role_tree, with_listing, cleared, role_cleared};

use crate::delegations::DelegatedRole;
use crate::target::Target;
use crate::targets::Targets;
use std::alloc::AllocError;
use tough_names::TargetName;

impl Targets {
    /// Lists the target under the name, in the place of one that this document lists. When out of memory, it changes
    /// nothing.
    pub fn add_target(&mut self, name: TargetName, target: Target) -> Result<(), AllocError>
        ensures added { OnOk result
            (tree_doc self.new ≡ with_listing
            (λ l. insert_entry by_raw_then_resolved l name
            (target_doc target)) (tree_doc self.old)) }
        ensures refused { OnErr result (tree_doc self.new ≡ tree_doc self.old) }
    {
        self.targets.insert(name, target)?;
        Ok(())
    }

    /// Removes the target that this document lists under the name, and returns it.
    pub fn remove_target(&mut self, name: &TargetName) -> Option<Target>
        ensures removed { tree_doc self.new
            ≡ with_listing (remove_entry
            (is_at (by_raw_then_resolved name.now))) (tree_doc self.old) }
        ensures target { option_map target_doc result
            ≡ listed name.now (targets_doc self.old).targets }
    {
        self.targets.remove(name)
    }

    /// Removes all targets of this document and of the documents below it.
    #[cycle(clear)]
    pub fn clear_targets(&mut self)
        ensures { tree_doc self.new ≡ cleared (tree_doc self.old) }
    {
        self.targets.clear();
        if let Some(delegations) = &mut self.delegations {
            clear_roles(&mut delegations.roles);
        }
    }
}

#[cycle(clear)]
fn clear_roles(roles: &mut [DelegatedRole])
    ensures { map role_tree roles.new ≡ map role_cleared (map role_tree roles.old) }
{
    for role in roles.iter_mut() {
        clear_role(role);
    }
}

#[cycle(clear)]
fn clear_role(role: &mut DelegatedRole)
    ensures { role_tree role.new ≡ role_cleared (role_tree role.old) }
{
    if let Some(document) = &mut role.targets {
        document.signed.targets.clear_targets();
    }
}
