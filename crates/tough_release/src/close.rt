//! The open editor is signed and closed, and one over another document is opened.

ghost use Rattle.std.specs.Prelude.{◌≡◌, ◌⊎◌, false, Some, IfOk, IfErr, OnOk, OnErr, IsTrue, option_map};
ghost use Rattle.tough_roles.specs.Root.{root_doc};
ghost use Rattle.tough_roles.specs.Signature.{signed_doc};
ghost use Rattle.tough_schema.specs.Put.{is_role};
ghost use Rattle.tough_schema.specs.Seek.{sought, IsUnsought};
ghost use Rattle.tough_schema.specs.Whole.{tree_doc, held_doc};
ghost use Rattle.tough_signed.specs.Holders.{holder_doc};
ghost use Rattle.tough_signed.specs.declared.error.EditError.TheVariants as errors;
ghost use Rattle.tough_edit.specs.Edits.{edits_doc};
ghost use Rattle.tough_release.specs.Edits.{release_doc};
ghost use Rattle.tough_release.specs.Holding.{holder_in, is_top};
ghost use Rattle.tough_release.specs.Closing.{missing, with_role_document, Places, IsUnplaced, IsReplaced, IsClosed, IsUnclosed, IsUnheldIn, IsCreatedIn, IsUncreatedIn, IsEditorBelow, IsEditorOf, IsLost, IsMissing, IsChanged, IsUnchangeable};

use crate::edits::RepositoryEdits;
use crate::parts::top_editor;
use std::alloc::Global;
use std::mem;
use tough_edit::TargetEdits;
use tough_keys::Sign;
use tough_roles::{Error, Root, Signed};
use tough_schema::{DelegatedTargets, KeyHolder, Targets};
use tough_signed::{EditError, bare_delegations};

// The error for a role of the name whose document isn't there.
fn missing(name: String, error: Error) -> EditError
    ensures { result ≡ missing name error }
{
    match error {
        Error::Memory => EditError::Memory,
        source => EditError::DelegateMissing { name, source },
    }
}

// The document becomes that of the role of its name.
fn place_below(
    alloc: Global,
    targets: &mut Signed<Targets>,
    document: Signed<DelegatedTargets>,
) -> Result<(), EditError>
    ensures placed { OnOk result (signed_doc tree_doc targets.new
        ≡ with_role_document (held_doc document) (signed_doc tree_doc targets.old)) }
    ensures there { OnOk result
        (IsTrue (is_role (sought (held_doc document).name (tree_doc targets.old.signed)))) }
    ensures refused { IfErr result (IsMissing (held_doc document).name
        (IsUnsought (held_doc document).name
        (sought (held_doc document).name (tree_doc targets.old.signed)))) }
    ensures unchanged { OnErr result (signed_doc tree_doc targets.new
        ≡ signed_doc tree_doc targets.old) }
{
    let name = document.signed.name.clone()?;
    match targets.signed.put_document(alloc, name.as_str(), document) {
        Ok(()) => Ok(()),
        Err(error) => Err(missing(name, error)),
    }
}

// The document becomes the targets, or that of the role of its name.
fn place(
    alloc: Global,
    targets: &mut Option<Signed<Targets>>,
    document: Signed<DelegatedTargets>,
) -> Result<(), EditError>
    ensures placed { OnOk result (Places (held_doc document)
        (option_map (signed_doc tree_doc) targets.old)
        (option_map (signed_doc tree_doc) targets.new)) }
    ensures refused { IfErr result (λ e. (e ≡ errors.Memory) ⊎ IsUnplaced (held_doc document)
        (option_map (signed_doc tree_doc) targets.old) e) }
    ensures unchanged { OnErr result (option_map (signed_doc tree_doc) targets.new
        ≡ option_map (signed_doc tree_doc) targets.old) }
{
    if document.signed.name.as_str() == "targets" {
        let (_, signed) = DelegatedTargets::unnamed(document);
        *targets = Some(signed);
        return Ok(());
    }
    let Some(signed) = targets else {
        return Err(EditError::NoTargets);
    };
    place_below(alloc, signed, document)
}

// Who holds the keys of the role: the root those of the top-level targets, the delegations in which the role stands those of another.
fn holder_in(
    alloc: Global,
    root: &Root,
    targets: &Option<Signed<Targets>>,
    role: &str,
) -> Result<KeyHolder, EditError>
    ensures holder { IfOk result (λ h. holder_in (root_doc root.now)
        (option_map (signed_doc tree_doc) targets.now) role.now ≡ Some (holder_doc h)) }
    ensures refused { IfErr result (λ e. (e ≡ errors.Memory)
        ⊎ IsUnheldIn role.now (option_map (signed_doc tree_doc) targets.now) e) }
{
    if role == "targets" {
        let root = root.clone()?;
        return Ok(KeyHolder::Root(root));
    }
    let Some(targets) = targets else {
        return Err(EditError::NoTargets);
    };
    let name = String::from_str(alloc, role)?;
    match targets.signed.parent_of(alloc, role) {
        Ok(parent) => {
            let delegations = bare_delegations(parent)?;
            Ok(KeyHolder::Delegations(delegations))
        }
        Err(error) => Err(missing(name, error)),
    }
}

// An editor over the document of a role below the targets, which the keys of the delegations sign in which the role stands.
fn editor_below(alloc: Global, targets: &Targets, role: &str) -> Result<TargetEdits, EditError>
    ensures opened { IfOk result
        (λ e. IsEditorBelow role.now (tree_doc targets.now) (edits_doc e)) }
    ensures refused { IfErr result
        (IsMissing role.now (IsLost role.now (tree_doc targets.now))) }
{
    let name = String::from_str(alloc, role)?;
    let parent = match targets.parent_of(alloc, role) {
        Ok(parent) => parent,
        Err(error) => return Err(missing(name, error)),
    };
    let document = match targets.delegated_targets(alloc, role) {
        Ok(document) => document,
        Err(error) => return Err(missing(name, error)),
    };
    let delegations = bare_delegations(parent)?;
    let below = document.signed.targets.clone()?;
    let holder = KeyHolder::Delegations(delegations);
    let editor = TargetEdits::from_targets(alloc, role, below, holder)?;
    Ok(editor)
}

// An editor over the role's document; of the role `targets`, over the targets, which the root's keys sign.
fn editor_of(
    alloc: Global,
    root: &Root,
    targets: &Targets,
    role: &str,
) -> Result<TargetEdits, EditError>
    ensures opened { IfOk result (λ e.
        IsEditorOf role.now (root_doc root.now) (tree_doc targets.now) (edits_doc e)) }
    ensures refused { IfErr result (λ e. (e ≡ errors.Memory) ⊎ ((is_top role.now ≡ false)
        × IsMissing role.now (IsLost role.now (tree_doc targets.now)) e)) }
{
    if role == "targets" {
        let editor = top_editor(alloc, root, targets)?;
        return Ok(editor);
    }
    editor_below(alloc, targets, role)
}

// What the editor makes, signed for who holds the keys of its role.
fn create_in<S: Sign>(
    alloc: Global,
    root: &Root,
    targets: &Option<Signed<Targets>>,
    editor: &TargetEdits,
    signers: &[S],
) -> Result<Signed<DelegatedTargets>, EditError>
    ensures created { IfOk result (IsCreatedIn S.key S.signs signers.now (edits_doc editor.now)
        (root_doc root.now) (option_map (signed_doc tree_doc) targets.now)) }
    ensures refused { IfErr result (IsUncreatedIn S.key S.fails signers.now
        (edits_doc editor.now) (root_doc root.now)
        (option_map (signed_doc tree_doc) targets.now)) }
{
    let holder = match holder_in(alloc, root, targets, editor.name()) {
        Ok(holder) => holder,
        Err(error) => return Err(error),
    };
    editor.create_signed_for(alloc, &holder, signers)
}

impl RepositoryEdits {
    /// Signs what the open editor makes, if one is open, for who holds the keys of its role, and closes it. The document becomes the signed targets,
    /// or that of the role of the editor's name (TUF specification 1.0, section 4.5). The refusals, in this order: for a delegated role `NoTargets`
    /// without signed targets, and `DelegateMissing` where they have no such role; those of `TargetEdits::create_signed_for`.
    pub fn sign_targets_editor<S: Sign>(
        &mut self,
        alloc: Global,
        signers: &[S],
    ) -> Result<(), EditError>
        ensures signed { OnOk result (IsClosed S.key S.signs signers.now
            (release_doc self.old) (release_doc self.new)) }
        ensures refused { IfErr result
            (IsUnclosed S.key S.signs S.fails signers.now (release_doc self.old)) }
        ensures unchanged { OnErr result (release_doc self.new ≡ release_doc self.old) }
    {
        let Some(editor) = &self.editor else {
            return Ok(());
        };
        let root = &self.root.signed().signed;
        let document = match create_in(alloc, root, &self.targets, editor, signers) {
            Ok(document) => document,
            Err(error) => return Err(error),
        };
        self.replace_targets(alloc, document)
    }

    /// Puts the document in the place of the signed targets, or of that of the role of its name, and closes the open editor, if any. The refusals, in
    /// this order: for a delegated role `NoTargets` without signed targets, and `DelegateMissing` where they have no such role.
    pub fn replace_targets(
        &mut self,
        alloc: Global,
        document: Signed<DelegatedTargets>,
    ) -> Result<(), EditError>
        ensures replaced { OnOk result (IsReplaced (held_doc document)
            (release_doc self.old) (release_doc self.new)) }
        ensures refused { IfErr result (λ e. (e ≡ errors.Memory)
            ⊎ IsUnplaced (held_doc document) (release_doc self.old).targets e) }
        ensures unchanged { OnErr result (release_doc self.new ≡ release_doc self.old) }
    {
        match place(alloc, &mut self.targets, document) {
            Ok(()) => {
                drop(mem::replace(&mut self.editor, None));
                Ok(())
            }
            Err(error) => Err(error),
        }
    }

    /// Opens an editor over the role's document, which the keys of the delegations sign in which the role stands; of the role `targets`, over the
    /// signed targets, which the root's keys sign. The refusals, in this order: `TargetsEditorSome` if an editor is open; `NoTargets` without signed
    /// targets; `DelegateMissing` where no entry has the name, or there is no document of it.
    pub fn change_delegated_targets(&mut self, alloc: Global, role: &str) -> Result<(), EditError>
        ensures changed { OnOk result
            (IsChanged role.now (release_doc self.old) (release_doc self.new)) }
        ensures refused { IfErr result (IsUnchangeable role.now (release_doc self.old)) }
        ensures unchanged { OnErr result (release_doc self.new ≡ release_doc self.old) }
    {
        if self.editor.is_some() {
            return Err(EditError::TargetsEditorSome);
        }
        let Some(targets) = &self.targets else {
            return Err(EditError::NoTargets);
        };
        match editor_of(alloc, &self.root.signed().signed, &targets.signed, role) {
            Ok(editor) => {
                drop(mem::replace(&mut self.editor, Some(editor)));
                Ok(())
            }
            Err(error) => Err(error),
        }
    }
}
