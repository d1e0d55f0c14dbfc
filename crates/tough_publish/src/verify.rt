//! Which documents are taken for a role.

ghost use Rattle.std.specs.Prelude.{◌≡◌, is_some, IfOk, IfErr, OnOk, map, string_bytes};
ghost use Rattle.tough_roles.specs.Root.{root_doc};
ghost use Rattle.tough_schema.specs.Delegations.{delegations_doc};
ghost use Rattle.tough_schema.specs.Update.{updated, needed, listed_roles};
ghost use Rattle.tough_schema.specs.Whole.{tree_doc};
ghost use Rattle.tough_editor.specs.Fetched.{held_as};
ghost use Rattle.tough_publish.specs.Placing.{with_first_in};
ghost use Rattle.tough_publish.specs.Verifying.{IsUnverified, unverified_as, missing_as, IsVouchedBy, verdict_by, IsVouchedByRoot, verdict_by_root, IsVouchedBelow, IsUnvouchedBelow, IsVouched, IsUnvouched, version_of, delegations_in, IsNewer, IsNoNewer, IsTakable, IsUntakable};

use crate::place::place_first;
use std::alloc::Global;
use tough_error::Error;
use tough_keys::Verify;
use tough_roles::{Error as Fault, RoleType, Root, Signed};
use tough_schema::{Delegations, Targets};

// The error for signatures that are refused.
fn unverified(name: String, source: Fault) -> Error
    ensures { result ≡ unverified_as name source }
{
    match source {
        Fault::Memory => Error::Memory,
        source => Error::VerifyRoleMetadata { role: name, source },
    }
}

// The error for a role that isn't there.
fn missing(name: String, source: Fault) -> Error
    ensures { result ≡ missing_as name source }
{
    match source {
        Fault::Memory => Error::Memory,
        source => Error::DelegateMissing { name, source },
    }
}

// Whether the delegations vouch for the document of the role.
fn verify_by<V: Verify>(
    alloc: Global,
    delegations: &Delegations,
    name: &str,
    document: &Signed<Targets>,
    verifier: &V,
) -> Result<(), Error>
    ensures vouched { IfOk result (λ u. IsVouchedBy (V.verifies verifier.now)
        (delegations_doc delegations.now) name.now document.now) }
    ensures refused { IfErr result (IsUnverified name.now (verdict_by (V.verifies verifier.now)
        (delegations_doc delegations.now) name.now document.now)) }
{
    let role = String::from_str(alloc, name)?;
    match delegations.verify_role(alloc, document, name, verifier) {
        Ok(()) => Ok(()),
        Err(source) => Err(unverified(role, source)),
    }
}

// Whether the root vouches for the targets.
fn verify_by_root<V: Verify>(
    alloc: Global,
    root: &Root,
    name: &str,
    document: &Signed<Targets>,
    verifier: &V,
) -> Result<(), Error>
    ensures vouched { IfOk result (λ u. IsVouchedByRoot (V.verifies verifier.now)
        (root_doc root.now) document.now) }
    ensures refused { IfErr result (IsUnverified name.now (verdict_by_root
        (V.verifies verifier.now) (root_doc root.now) document.now)) }
{
    let role = String::from_str(alloc, name)?;
    match root.verify_role(alloc, document, verifier) {
        Ok(()) => Ok(()),
        Err(source) => Err(unverified(role, source)),
    }
}

// The old document of a role below the targets, where the delegations in which it stands vouch for the new one.
fn vouched_below<'a, V: Verify>(
    alloc: Global,
    targets: &'a Targets,
    name: &str,
    document: &Signed<Targets>,
    verifier: &V,
) -> Result<&'a Targets, Error>
    ensures vouched { IfOk result (λ old. IsVouchedBelow (V.verifies verifier.now)
        (tree_doc targets.now) name.now document.now (tree_doc old.now)) }
    ensures refused { IfErr result (IsUnvouchedBelow (V.verifies verifier.now)
        (tree_doc targets.now) name.now document.now) }
{
    let role = String::from_str(alloc, name)?;
    let parent = match targets.parent_of(alloc, name) {
        Ok(parent) => parent,
        Err(source) => return Err(missing(role, source)),
    };
    let held = match targets.delegated_targets(alloc, name) {
        Ok(held) => held,
        Err(source) => return Err(missing(role, source)),
    };
    match verify_by(alloc, parent, name, document, verifier) {
        Ok(()) => Ok(&held.signed.targets),
        Err(error) => Err(error),
    }
}

/// The old document of the role, where who holds its keys vouches for the new one. The errors, in this order: `DelegateMissing`,
/// `VerifyRoleMetadata`.
pub(crate) fn vouched<'a, V: Verify>(
    alloc: Global,
    root: &Root,
    targets: &'a Targets,
    name: &str,
    document: &Signed<Targets>,
    verifier: &V,
) -> Result<&'a Targets, Error>
    ensures vouched { IfOk result (λ old. IsVouched (V.verifies verifier.now) (root_doc root.now)
        (tree_doc targets.now) name.now document.now (tree_doc old.now)) }
    ensures refused { IfErr result (IsUnvouched (V.verifies verifier.now) (root_doc root.now)
        (tree_doc targets.now) name.now document.now) }
{
    if name == "targets" {
        return match verify_by_root(alloc, root, name, document, verifier) {
            Ok(()) => Ok(targets),
            Err(error) => Err(error),
        };
    }
    match vouched_below(alloc, targets, name, document, verifier) {
        Ok(old) => Ok(old),
        Err(error) => Err(error),
    }
}

// The document's version.
fn version_of(targets: &Targets) -> u64
    ensures { result ≡ version_of (tree_doc targets.now) }
{
    targets.version.get()
}

// Whether the document has delegations.
fn delegates(targets: &Targets) -> bool
    ensures { result ≡ is_some (delegations_in (tree_doc targets.now)) }
{
    targets.delegations.is_some()
}

// Whether the document is no older, and has delegations.
fn check_newer(old: &Targets, new: &Targets) -> Result<(), Error>
    ensures newer { IfOk result (λ u. IsNewer (tree_doc old.now) (tree_doc new.now)) }
    ensures refused { IfErr result (IsNoNewer (tree_doc old.now) (tree_doc new.now)) }
{
    let expected = version_of(old);
    let fetched = version_of(new);
    if fetched < expected {
        return Err(Error::VersionMismatch {
            role: RoleType::Targets,
            fetched,
            expected,
        });
    }
    if !delegates(new) {
        return Err(Error::NoDelegations);
    }
    Ok(())
}

/// Gives the roles of the new document the documents that the old one has for them, and returns the names of the others. The errors, in this order:
/// `VersionMismatch` where it is older, `NoDelegations`.
pub(crate) fn renew(
    alloc: Global,
    old: &Targets,
    document: &mut Signed<Targets>,
) -> Result<Vec<String>, Error>
    ensures newer { IfOk result
        (λ v. IsNewer (tree_doc old.now) (tree_doc document.old.signed)) }
    ensures updated { OnOk result (tree_doc document.new.signed
        ≡ updated (tree_doc old.now) (tree_doc document.old.signed)) }
    ensures needed { IfOk result (λ v. map string_bytes v.items
        ≡ needed (tree_doc old.now) (listed_roles (tree_doc document.old.signed))) }
    ensures signatures { document.new.signatures ≡ document.old.signatures }
    ensures refused { IfErr result
        (IsNoNewer (tree_doc old.now) (tree_doc document.old.signed)) }
{
    if let Err(error) = check_newer(old, &document.signed) {
        return Err(error);
    }
    match old.update_targets(alloc, document) {
        Ok(names) => Ok(names),
        Err(_) => Err(Error::Memory),
    }
}

// Whether the delegations that list a new role vouch for its document.
fn check_new_role<V: Verify>(
    alloc: Global,
    targets: &Targets,
    name: &str,
    document: &Signed<Targets>,
    verifier: &V,
) -> Result<(), Error>
    ensures takable { IfOk result (λ u. IsTakable (V.verifies verifier.now) (tree_doc targets.now)
        name.now document.now) }
    ensures refused { IfErr result (IsUntakable (V.verifies verifier.now) (tree_doc targets.now)
        name.now document.now) }
{
    let Some(delegations) = &targets.delegations else {
        return Err(Error::NoDelegations);
    };
    match verify_by(alloc, delegations, name, document, verifier) {
        Ok(()) => Ok(()),
        Err(error) => Err(error),
    }
}

/// Puts the document of a new role in its place. `NoDelegations`, or `VerifyRoleMetadata` where the delegations that list the role don't vouch for it.
pub(crate) fn take_new_role<V: Verify>(
    alloc: Global,
    targets: &mut Targets,
    name: &str,
    document: Signed<Targets>,
    verifier: &V,
) -> Result<(), Error>
    ensures takable { IfOk result (λ u. IsTakable (V.verifies verifier.now) (tree_doc targets.old)
        name.now document) }
    ensures placed { OnOk result (tree_doc targets.new
        ≡ with_first_in name.now (held_as name.now document) (tree_doc targets.old)) }
    ensures refused { IfErr result (IsUntakable (V.verifies verifier.now) (tree_doc targets.old)
        name.now document) }
{
    let role = String::from_str(alloc, name)?;
    match check_new_role(alloc, targets, name, &document, verifier) {
        Ok(()) => {
            place_first(targets, name, Targets::named(document, role));
            Ok(())
        }
        Err(error) => Err(error),
    }
}
