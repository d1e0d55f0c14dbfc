//! What an editor lacks or refuses.
ghost use Rattle.std.specs.Prelude.{◌≡◌};
ghost use Rattle.tough_error.specs.Kinds.{kind_of};

use crate::error::Error;
use crate::kind::ErrorKind;
use std::fmt::{self, Formatter, Write};

pub(crate) fn tell<W: Write>(error: &Error, f: &mut Formatter<W>) -> fmt::Result
    requires { kind_of error.now ≡ ErrorKind.Editing }
{
    match error {
        Error::Missing { field } => write!(
            f,
            "Missing '{field}' when building repo from RepositoryEditor"
        ),
        Error::MissingLimits => f.write_str("No limits in editor"),
        Error::MissingTransport => f.write_str("The transport is not in editor"),
        Error::TargetsEditorSome => f.write_str("The targets editor was not cleared"),
        Error::NoTargets => f.write_str("Delegation doesn't contain targets field"),
        Error::NoDelegations => f.write_str("Targets doesn't contain delegations field"),
        Error::DelegateNotFound { name } => write!(f, "Delegated role not found: {name}"),
        Error::DelegateMissing { name, .. } => write!(f, "Delegated role not found: {name}"),
        Error::TargetsNotFound { name, source } => write!(
            f,
            "Targets role '{name}' not found: {source}"
        ),
        Error::DelegatedRolesNotConsistent { name } => write!(
            f,
            "Delegated roles are not consistent for {name}"
        ),
        Error::InvalidPathPermission { name, source, .. } => write!(
            f,
            "Invalid path permission of {name}: {source}"
        ),
        Error::SpecVersion { given, supported } => write!(
            f,
            "Tried to use role metadata with spec version '{given}', version '{supported}' is supported"
        ),
        Error::UnstableRoot {
            role,
            actual,
            threshold,
        } => write!(
            f,
            "Unstable root; found {actual} keys for role {}, threshold is {threshold}",
            role.name()
        ),
        Error::InvalidRoleCount { count } => write!(
            f,
            "Exactly 1 role was required, but {count} were created"
        ),
        Error::TargetsMap { source } => write!(f, "Could not create a targets map: {source}"),
        Error::InvalidInto => f.write_str("Invalid number"),
        Error::InvalidThreshold => f.write_str("Invalid threshold number"),
        Error::JoinSpawnBlockingTask { source } => write!(
            f,
            "Failed to join spawn_blocking task: {source}"
        ),
        _ => unreachable!(),
    }
}
