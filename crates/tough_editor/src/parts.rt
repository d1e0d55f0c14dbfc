//! An editor of a role of a loaded repository.

ghost use Rattle.std.specs.Prelude.{◌≡◌, Some, IfOk, IfErr};
ghost use Rattle.tough_roles.specs.Root.{root_doc};
ghost use Rattle.tough_schema.specs.Seek.{sought, document_of};
ghost use Rattle.tough_schema.specs.Whole.{tree_doc, held_doc};
ghost use Rattle.tough_edit.specs.Edits.{edits_doc};
ghost use Rattle.tough_release.specs.Closing.{IsEditorBelow, IsEditorOf};
ghost use Rattle.tough_editor.specs.Editors.{editor_doc};
ghost use Rattle.tough_editor.specs.Taking.{IsTaken, IsUntaken, IsUnfound, unfound_as};

use crate::targets::TargetsEditor;
use std::alloc::Global;
use tough_edit::TargetEdits;
use tough_error::Error;
use tough_parts::RepositoryParts;
use tough_release::top_editor;
use tough_roles::{Error as Fault, Root, Signed};
use tough_schema::{DelegatedTargets, KeyHolder, Targets};
use tough_signed::bare_delegations;

// The error for a role that isn't found.
fn unfound(name: String, source: Fault) -> Error
    ensures { result ≡ unfound_as name source }
{
    match source {
        Fault::Memory => Error::Memory,
        source => {
            drop(source);
            Error::DelegateNotFound { name }
        }
    }
}

// The document of a role below the targets. The errors, in this order: `DelegateNotFound`, `NoTargets`.
fn document_in<'a>(
    alloc: Global,
    targets: &'a Targets,
    name: &str,
) -> Result<&'a Signed<DelegatedTargets>, Error>
    ensures found { IfOk result
        (λ s. document_of (sought name.now (tree_doc targets.now)) ≡ Some (held_doc s.now)) }
    ensures refused { IfErr result (IsUnfound name.now (sought name.now (tree_doc targets.now))) }
{
    let role_name = String::from_str(alloc, name)?;
    let role = match targets.delegated_role(alloc, name) {
        Ok(role) => role,
        Err(source) => return Err(unfound(role_name, source)),
    };
    match &role.targets {
        Some(document) => Ok(document),
        None => Err(Error::NoTargets),
    }
}

// The edits of the document of a role below the targets, which the keys of the delegations sign in which the role stands.
fn edits_below(alloc: Global, targets: &Targets, name: &str) -> Result<TargetEdits, Error>
    ensures opened { IfOk result
        (λ e. IsEditorBelow name.now (tree_doc targets.now) (edits_doc e)) }
    ensures refused { IfErr result (IsUnfound name.now (sought name.now (tree_doc targets.now))) }
{
    let document = match document_in(alloc, targets, name) {
        Ok(document) => document,
        Err(error) => return Err(error),
    };
    // (out of memory: a role that was found stands in some delegations)
    let Ok(parent) = targets.parent_of(alloc, name) else {
        return Err(Error::Memory);
    };
    let delegations = bare_delegations(parent)?;
    let below = document.signed.targets.clone()?;
    let holder = KeyHolder::Delegations(delegations);
    let edits = TargetEdits::from_targets(alloc, name, below, holder)?;
    Ok(edits)
}

// The edits of the role's document; of the role `targets`, of the targets, which the root's keys sign.
fn edits_of(alloc: Global, root: &Root, targets: &Targets, name: &str) -> Result<TargetEdits, Error>
    ensures opened { IfOk result (λ e.
        IsEditorOf name.now (root_doc root.now) (tree_doc targets.now) (edits_doc e)) }
    ensures refused { IfErr result (IsUntaken name.now (tree_doc targets.now)) }
{
    if name == "targets" {
        let edits = top_editor(alloc, root, targets)?;
        return Ok(edits);
    }
    match edits_below(alloc, targets, name) {
        Ok(edits) => Ok(edits),
        Err(error) => Err(error),
    }
}

impl<T> TargetsEditor<T> {
    /// An editor of the role's document of a loaded repository, with its limits and its transport. The document is signed by the keys of the
    /// delegations in which the role stands; that of the role `targets` by the root's (TUF specification 1.0, section 4.5). Its version and its expiry
    /// are to be set anew.
    ///
    /// The errors, in this order: `DelegateNotFound` if the targets have no such role; `NoTargets` if there is no document of it.
    pub fn from_repo(
        alloc: Global,
        parts: RepositoryParts<T>,
        name: &str,
    ) -> Result<TargetsEditor<T>, Error>
    where
        T: Drop,
        ensures taken { IfOk result (λ e. IsTaken parts name.now (editor_doc e)) }
        ensures refused { IfErr result (IsUntaken name.now (tree_doc parts.targets.signed)) }
    {
        let edits = match edits_of(alloc, &parts.root.signed, &parts.targets.signed, name) {
            Ok(edits) => edits,
            Err(error) => return Err(error),
        };
        let RepositoryParts {
            transport,
            limits,
            root: _,
            timestamp: _,
            snapshot: _,
            targets: _,
        } = parts;
        Ok(TargetsEditor {
            alloc,
            edits,
            limits: Some(limits),
            transport: Some(transport),
        })
    }
}
