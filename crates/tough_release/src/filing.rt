//! The files of targets and of the documents below them.

ghost use Rattle.std.specs.Prelude.{◌≡◌, ◌⊎◌, IfOk, IfErr, OnOk};
ghost use Rattle.tough_roles.specs.Signature.{signed_doc};
ghost use Rattle.tough_schema.specs.Entries.{entries};
ghost use Rattle.tough_schema.specs.Whole.{tree_doc, role_tree};
ghost use Rattle.tough_signed.specs.Standing.{AreStanding};
ghost use Rattle.tough_signed.specs.declared.error.EditError.TheVariants as errors;
ghost use Rattle.tough_release.specs.Files.{AreFiled, IsUnfiledOf, SomeUnfiled, IsUnfiledTree, IsPutAfter};

use std::alloc::Global;
use tough_roles::Signed;
use tough_schema::{DelegatedRole, DelegatedTargets, Targets};
use tough_signed::{EditError, SignedRole, stand_alone};

/// Targets and the documents of the roles below them, each with its file.
#[derive(Drop)]
pub(crate) struct Filed {
    pub(crate) targets: SignedRole<Targets>,
    // In preorder, each by itself.
    pub(crate) delegated: Vec<SignedRole<DelegatedTargets>>,
}

// Adds the role's document by itself, if it has one.
fn put_standing(
    alloc: Global,
    role: &DelegatedRole,
    all: &mut Vec<SignedRole<DelegatedTargets>>,
) -> Result<(), EditError>
    ensures put { OnOk result (IsPutAfter (role_tree role.now) all.old.items all.new.items) }
    ensures refused { IfErr result
        (λ e. (e ≡ errors.Memory) ⊎ IsUnfiledOf (role_tree role.now) e) }
{
    let Some(document) = &role.targets else {
        return Ok(());
    };
    match stand_alone(alloc, role, document) {
        Ok(standing) => all.push(standing)?,
        Err(error) => return Err(error),
    }
    Ok(())
}

// The documents of the roles below the targets, in preorder, each by itself.
fn file_delegated(
    alloc: Global,
    targets: &Targets,
) -> Result<Vec<SignedRole<DelegatedTargets>>, EditError>
    ensures standing { IfOk result
        (λ v. AreStanding (entries (tree_doc targets.now)) v.items) }
    ensures refused { IfErr result (SomeUnfiled (entries (tree_doc targets.now))) }
{
    let entries = targets.entries(alloc)?;
    let mut all = Vec::new(alloc);
    for role in &entries {
        match put_standing(alloc, role, &mut all) {
            Ok(()) => {}
            Err(error) => return Err(error),
        }
    }
    Ok(all)
}

/// The targets with their file, and the documents of the roles below them with theirs. `SerializeSignedRole` where one of them has no text.
pub(crate) fn file_tree(alloc: Global, targets: Signed<Targets>) -> Result<Filed, EditError>
    ensures filed { IfOk result
        (λ f. AreFiled (signed_doc tree_doc targets) f.targets f.delegated.items) }
    ensures refused { IfErr result (IsUnfiledTree (signed_doc tree_doc targets)) }
{
    let targets = match SignedRole::from_signed(alloc, targets) {
        Ok(targets) => targets,
        Err(error) => return Err(error),
    };
    match file_delegated(alloc, &targets.signed().signed) {
        Ok(delegated) => Ok(Filed { targets, delegated }),
        Err(error) => Err(error),
    }
}
