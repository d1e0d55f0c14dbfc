//! The document is signed.

ghost use Rattle.std.specs.Prelude.{◌≡◌, false, IfOk, IfErr, map};
ghost use Rattle.tough_schema.specs.Whole.{role_tree};
ghost use Rattle.tough_signed.specs.Standing.{roles_of, is_consistent, AllStanding};
ghost use Rattle.tough_signed.specs.Holders.{holder_doc};
ghost use Rattle.tough_edit.specs.Edits.{edits_doc};
ghost use Rattle.tough_edit.specs.Signed.{IsCreated, IsCreatedFor, IsUncreated, IsUncreatedFor, AreSigned, IsSigningRefused, IsStandingOf, IsUnstanding, SomeUnstanding};

use crate::edits::TargetEdits;
use crate::signers::holder_of;
use std::alloc::Global;
use tough_keys::Sign;
use tough_roles::Signed;
use tough_schema::{DelegatedRole, DelegatedTargets, KeyHolder};
use tough_signed::{EditError, SignedDelegatedTargets, SignedRole, sign_for, stand_alone};

impl TargetEdits {
    /// What `build_targets` makes, signed for the holder. The refusals, in this order: those of `build_targets`, and those of `SignedRole::new`, up to
    /// the threshold.
    pub fn create_signed_for<S: Sign>(
        &self,
        alloc: Global,
        holder: &KeyHolder,
        signers: &[S],
    ) -> Result<Signed<DelegatedTargets>, EditError>
        ensures signed { IfOk result (IsCreatedFor S.key S.signs (edits_doc self.now)
            (holder_doc holder.now) signers.now) }
        ensures refused { IfErr result (IsUncreatedFor S.key S.fails (edits_doc self.now)
            (holder_doc holder.now) signers.now) }
    {
        let document = self.build_targets(alloc)?;
        sign_for(alloc, document, holder, signers)
    }

    /// What `build_targets` makes, signed for the holder of its keys, or, where the editor has none, for the holder of the signers' keys, one of which
    /// must sign. The refusals, in this order: without a holder `SignMessage` and `JsonSerialization`, where a signer doesn't tell its key, and where
    /// that has no identifier; those of `build_targets`; those of `SignedRole::new`, up to the threshold.
    pub fn create_signed<S: Sign>(
        &self,
        alloc: Global,
        signers: &[S],
    ) -> Result<Signed<DelegatedTargets>, EditError>
        ensures signed { IfOk result (IsCreated S.key S.signs (edits_doc self.now) signers.now) }
        ensures refused { IfErr result
            (IsUncreated S.key S.fails (edits_doc self.now) signers.now) }
    {
        match &self.holder {
            Some(holder) => self.create_signed_for(alloc, holder, signers),
            None => {
                let holder = holder_of(alloc, self.name.as_str(), signers)?;
                self.create_signed_for(alloc, &holder, signers)
            }
        }
    }

    /// What `create_signed` makes, with its file, and after it the documents of the new roles as they stand, each under its role's name and without the
    /// documents below it. The refusals, in this order: those of `create_signed`; `SerializeSignedRole` where that has no text; for each new role
    /// `NoTargets` where it has no document, and `SerializeSignedRole`.
    pub fn sign<S: Sign>(
        &self,
        alloc: Global,
        signers: &[S],
    ) -> Result<SignedDelegatedTargets, EditError>
        ensures signed { IfOk result (λ s. AreSigned S.key S.signs (edits_doc self.now) signers.now
            (roles_of s)) }
        ensures plain { IfOk result (λ s. is_consistent s ≡ false) }
        ensures refused { IfErr result
            (IsSigningRefused S.key S.signs S.fails (edits_doc self.now) signers.now) }
    {
        let document = self.create_signed(alloc, signers)?;
        let mut roles = Vec::new(alloc);
        match SignedRole::from_signed(alloc, document) {
            Ok(first) => roles.push(first)?,
            Err(error) => return Err(error),
        }
        match all_standing(alloc, &self.new_roles) {
            Ok(mut rest) => roles.append(&mut rest)?,
            Err(error) => return Err(error),
        }
        Ok(SignedDelegatedTargets::new(roles, false))
    }
}

// The role's document as it stands.
fn standing_of(
    alloc: Global,
    role: &DelegatedRole,
) -> Result<SignedRole<DelegatedTargets>, EditError>
    ensures standing { IfOk result (IsStandingOf (role_tree role.now)) }
    ensures refused { IfErr result (IsUnstanding (role_tree role.now)) }
{
    match &role.targets {
        Some(document) => stand_alone(alloc, role, document),
        None => Err(EditError::NoTargets),
    }
}

// The same of each role.
fn all_standing(
    alloc: Global,
    roles: &[DelegatedRole],
) -> Result<Vec<SignedRole<DelegatedTargets>>, EditError>
    ensures standing { IfOk result (λ v. AllStanding (map role_tree roles.now) v.items) }
    ensures refused { IfErr result (SomeUnstanding (map role_tree roles.now)) }
{
    let mut all = Vec::new(alloc);
    for role in roles {
        match standing_of(alloc, role) {
            Ok(standing) => all.push(standing)?,
            Err(error) => return Err(error),
        }
    }
    Ok(all)
}
