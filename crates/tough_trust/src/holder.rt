//! Whether targets are taken: those of a repository, and those of a delegated role (TUF specification 5.6).

ghost use Rattle.std.specs.Prelude.{◌≡◌, IfOk, option_map};
ghost use Rattle.tough_roles.specs.Signature.{signed_doc};
ghost use Rattle.tough_roles.specs.Root.{root_doc};
ghost use Rattle.tough_roles.specs.Verdict.{Answers};
ghost use Rattle.tough_checks.specs.Checks.{Checked, enforces};
ghost use Rattle.tough_schema.specs.Fresh.{IsFresh};
ghost use Rattle.tough_schema.specs.Targets.{targets_doc};
ghost use Rattle.tough_schema.specs.Whole.{tree_doc};
ghost use Rattle.tough_schema.specs.Entries.{first_missing};
ghost use Rattle.tough_trust.specs.Failure.{Gives};
ghost use Rattle.tough_trust.specs.Listed.{holder_in, targets_verdict, targets_refusal, parsed, judged, all_found};
ghost use Rattle.tough_trust.specs.View.{holder_doc, role_holder_doc};

use crate::error::UpdateError;
use std::alloc::Global;
use tough_roles::{self as schema, ReadError, RoleType, Root, Signed, Verify, Written};
use tough_schema::{DelegatedRole, Delegations, Targets};
use tough_vault::{Checker, StepError, check_expiry, check_signed, check_version};

/// Who vouches for the document of a delegated role: the delegations that the role stands in, and of these the role that says which keys
/// sign for its name, where there is one.
#[derive(Clone, Copy, Drop)]
pub struct RoleHolder<'a> {
    /// The role's name.
    pub name: &'a str,
    /// The delegations.
    pub delegations: Option<&'a Delegations>,
    /// The first role of the name.
    pub role: Option<&'a DelegatedRole>,
}

/// Who vouches for targets: a root, or delegations.
#[derive(Drop)]
pub enum Holder<'a> {
    /// A root.
    Root(&'a Root),
    /// Delegations, for the document of a role.
    Role(RoleHolder<'a>),
}

/// Who vouches for the targets that are wanted: the root, or, where the document of a delegated role is wanted, the delegations that the
/// role stands in.
pub fn holder_of<'a>(root: &'a Root, role: Option<RoleHolder<'a>>) -> Holder<'a>
    ensures { holder_doc result
        ≡ holder_in (root_doc root.now) (option_map role_holder_doc role.entry) }
{
    match role {
        None => Holder::Root(root),
        Some(role) => Holder::Role(role),
    }
}

impl RoleHolder<'_> {
    // The targets, if they reach the threshold of the role.
    fn verify<V: Verify>(
        &self,
        alloc: Global,
        targets: Signed<Targets>,
        verifier: &V,
    ) -> Result<Written<Targets>, schema::Error>
        ensures verdict { Answers result (targets_verdict (V.verifies verifier.now)
            (role_holder_doc self.now) (signed_doc targets_doc targets)) }
        ensures same { IfOk result (λ written. written ≡ targets) }
    {
        if let Some(delegations) = self.delegations {
            if let Some(role) = self.role {
                let keys = role.keys(alloc)?;
                return Written::verify_by(alloc, &delegations.keys, &keys, targets, verifier);
            }
        }
        Err(schema::Error::RoleNotFound {
            name: String::from_str(alloc, self.name)?,
        })
    }
}

impl Holder<'_> {
    // The targets, if they reach the threshold.
    fn verify<V: Verify>(
        &self,
        alloc: Global,
        targets: Signed<Targets>,
        verifier: &V,
    ) -> Result<Written<Targets>, schema::Error>
        ensures verdict { Answers result (targets_verdict (V.verifies verifier.now)
            (holder_doc self.now) (signed_doc targets_doc targets)) }
        ensures same { IfOk result (λ written. written ≡ targets) }
    {
        match self {
            Holder::Root(root) => Written::verify_role(alloc, root, targets, verifier),
            Holder::Role(role) => role.verify(alloc, targets, verifier),
        }
    }
}

// The targets, if they reach the holder's threshold, have the listed version and aren't expired.
fn check<V: Verify>(
    checker: &Checker<'_, V>,
    holder: &Holder<'_>,
    listed: u64,
    targets: Signed<Targets>,
) -> Result<Written<Targets>, StepError>
    ensures checked { Checked (targets_refusal (V.verifies checker.now.verifier.now)
        (enforces checker.now.enforcement) checker.now.start.nanosecond (holder_doc holder.now)
        listed (signed_doc targets_doc targets)) result }
    ensures same { IfOk result (λ written. written ≡ targets) }
{
    let role = RoleType::Targets;
    let answer = holder.verify(checker.alloc, targets, checker.verifier);
    let written = check_signed(role, answer)?;
    let told = &written.document().signed;
    check_version(role, told.version.get(), listed)?;
    check_expiry(role, checker.enforcement, checker.start, told.expires)?;
    Ok(written)
}

// The signed targets that the bytes are; `ParseMetadata` where they are none.
fn parse(alloc: Global, bytes: &[u8]) -> Result<Signed<Targets>, UpdateError>
    ensures read { Gives (signed_doc targets_doc) (parsed bytes.now) result }
    ensures fresh { IfOk result (λ s. IsFresh s.signed) }
{
    match Signed::<Targets>::read(alloc, bytes) {
        Ok(targets) => Ok(targets),
        Err(ReadError::Memory) => Err(UpdateError::Memory),
        Err(source) => Err(UpdateError::ParseMetadata {
            role: RoleType::Targets,
            source,
        }),
    }
}

/// Reads targets, and checks them in this order: `ParseMetadata` where the bytes are no signed targets, `VerifyMetadata` where they don't
/// reach the holder's threshold, `VersionMismatch` where they haven't the listed version, `ExpiredMetadata` where the update began after
/// they expired (TUF specification 5.6).
pub fn read_targets<V: Verify>(
    checker: &Checker<'_, V>,
    holder: &Holder<'_>,
    listed: u64,
    bytes: &[u8],
) -> Result<Written<Targets>, UpdateError>
    ensures { Gives (signed_doc tree_doc)
        (judged (V.verifies checker.now.verifier.now) (enforces checker.now.enforcement)
        checker.now.start.nanosecond (holder_doc holder.now) listed bytes.now) result }
{
    let targets = parse(checker.alloc, bytes)?;
    let written = check(checker, holder, listed, targets)?;
    Ok(written)
}

/// The same of bytes that are given up: they are let go of before the checks, which make a text of the document.
pub fn targets_from<V: Verify>(
    checker: &Checker<'_, V>,
    holder: &Holder<'_>,
    listed: u64,
    bytes: Vec<u8>,
) -> Result<Written<Targets>, UpdateError>
    ensures { Gives (signed_doc tree_doc)
        (judged (V.verifies checker.now.verifier.now) (enforces checker.now.enforcement)
        checker.now.start.nanosecond (holder_doc holder.now) listed bytes.items) result }
{
    let parsed = parse(checker.alloc, bytes.as_slice());
    drop(bytes);
    let targets = parsed?;
    let written = check(checker, holder, listed, targets)?;
    Ok(written)
}

/// Each name that a document of the tree lists is found by the permissive search for it, or else `InvalidPath` tells the first that isn't.
pub fn check_tree(alloc: Global, targets: &Targets) -> Result<(), UpdateError>
    ensures { Gives (λ _. tt {0}) (all_found (first_missing (tree_doc targets.now))) result }
{
    match targets.validate(alloc) {
        Ok(()) => Ok(()),
        Err(schema::Error::Memory) => Err(UpdateError::Memory),
        Err(source) => Err(UpdateError::InvalidPath { source }),
    }
}
