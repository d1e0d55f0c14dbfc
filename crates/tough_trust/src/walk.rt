//! The walk from root to root (TUF specification 5.3).

ghost use Rattle.std.specs.Prelude.{◌≡◌, ◌+◌, ◌==◌, not, IfOk, IfErr, option_map};
ghost use Rattle.tough_roles.specs.Signature.{SignedDoc, signed_doc};
ghost use Rattle.tough_roles.specs.Root.{RootDoc, root_doc, root_json};
ghost use Rattle.tough_roles.specs.Chain.{ReachesUnder, IsNext};
ghost use Rattle.tough_roles.specs.declared.role_type.RoleType.TheVariants as types;
ghost use Rattle.tough_checks.specs.Checks.{Checked, RefusedBy, OlderMetadata, refuse};
ghost use Rattle.tough_trust.specs.Failure.{Gives, MaxUpdatesExceeded, failure_of};
ghost use Rattle.tough_trust.specs.Walk.{first_root, next_root, root_refusal, next_version, next_request};
ghost use Rattle.tough_trust.specs.View.{request_doc};

use crate::error::UpdateError;
use crate::request::{Request, root_request};
use std::alloc::Global;
use tough_net::Limits;
use tough_roles::{self as schema, ReadError, RoleType, Root, Signed, Verify};
use tough_vault::{Refusal, StepError, check_signed};

/// The root that was handed in: `ParseTrustedMetadata` where the bytes are no signed root, `VerifyTrustedMetadata`
/// where it doesn't reach its own threshold.
pub fn first_root<V: Verify>(
    alloc: Global,
    bytes: &[u8],
    verifier: &V,
) -> Result<Signed<Root>, UpdateError>
    ensures answer { Gives (signed_doc root_doc)
        (first_root (V.verifies verifier.now) bytes.now) result }
    ensures signed { IfOk result
        (λ root. ReachesUnder (V.verifies verifier.now) (root_doc root.signed) types.Root root_json
        (signed_doc root_doc root)) }
{
    let root = match Signed::<Root>::read(alloc, bytes) {
        Ok(root) => root,
        Err(ReadError::Memory) => return Err(UpdateError::Memory),
        Err(source) => return Err(UpdateError::ParseTrustedMetadata { source }),
    };
    match root.signed.verify_role(alloc, &root, verifier) {
        Ok(()) => Ok(root),
        Err(schema::Error::Memory) => Err(UpdateError::Memory),
        Err(source) => Err(UpdateError::VerifyTrustedMetadata { source }),
    }
}

// The version is one more than that of the root before, or else `OlderMetadata`.
fn check_next_version(old: &Root, new: &Root) -> Result<(), Refusal>
    ensures { RefusedBy (refuse (not ((root_doc new.now).head.version
        == (root_doc old.now).head.version + 1)) (OlderMetadata types.Root
        (root_doc old.now).head.version (root_doc new.now).head.version)) result }
{
    let current_version = old.version.get();
    let new_version = new.version.get();
    if current_version == u64::MAX || new_version != current_version + 1 {
        return Err(Refusal::OlderMetadata {
            role: RoleType::Root,
            current_version,
            new_version,
        });
    }
    Ok(())
}

// The new root reaches the threshold of the one before, then its own, and has the next version.
fn check<V: Verify>(
    alloc: Global,
    old: &Root,
    new: &Signed<Root>,
    verifier: &V,
) -> Result<(), StepError>
    ensures { Checked (root_refusal (V.verifies verifier.now) (root_doc old.now)
        (signed_doc root_doc new.now)) result }
{
    check_signed(RoleType::Root, old.verify_role(alloc, new, verifier))?;
    check_signed(RoleType::Root, new.signed.verify_role(alloc, new, verifier))?;
    Ok(check_next_version(old, &new.signed)?)
}

/// The root after another: `ParseMetadata` where the bytes are no signed root, `VerifyMetadata` where it doesn't reach
/// the threshold of the root before it, then its own, and `OlderMetadata` where its version isn't one more.
pub fn next_root<V: Verify>(
    alloc: Global,
    old: &Root,
    bytes: &[u8],
    verifier: &V,
) -> Result<Signed<Root>, UpdateError>
    ensures answer { Gives (signed_doc root_doc)
        (next_root (V.verifies verifier.now) (root_doc old.now) bytes.now) result }
    ensures next { (before : SignedDoc RootDoc) → before.role ≡ root_doc old.now
        → IfOk result (λ new. IsNext (V.verifies verifier.now) before (signed_doc root_doc new)) }
{
    let new = match Signed::<Root>::read(alloc, bytes) {
        Ok(new) => new,
        Err(ReadError::Memory) => return Err(UpdateError::Memory),
        Err(source) => {
            return Err(UpdateError::ParseMetadata {
                role: RoleType::Root,
                source,
            });
        }
    };
    match check(alloc, old, &new, verifier) {
        Ok(()) => Ok(new),
        Err(error) => Err(UpdateError::from(error)),
    }
}

/// The version of the root that is fetched after the last one, of a walk that began with the first: `MaxUpdatesExceeded` where as many
/// roots as the limit allows came after the first, and none where no version is later.
pub fn next_version(limits: &Limits, first: u64, last: u64) -> Result<Option<u64>, UpdateError>
    ensures version { Gives (λ version. version) (next_version limits.now first last) result }
    ensures told { IfErr result
        (λ e. failure_of e ≡ MaxUpdatesExceeded limits.now.max_root_updates) }
{
    if last.saturating_sub(first) >= limits.max_root_updates {
        return Err(UpdateError::MaxUpdatesExceeded {
            max_root_updates: limits.max_root_updates,
        });
    }
    Ok(last.checked_add(1))
}

/// The request for that root, where there is one.
pub fn next_request(
    alloc: Global,
    limits: &Limits,
    first: u64,
    last: u64,
) -> Result<Option<Request>, UpdateError>
    ensures { Gives (option_map request_doc) (next_request limits.now first last) result }
{
    match next_version(limits, first, last) {
        Ok(Some(version)) => Ok(Some(root_request(alloc, limits, version)?)),
        Ok(None) => Ok(None),
        Err(error) => Err(error),
    }
}
