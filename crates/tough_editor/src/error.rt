//! Which wide error tells a refused edit.

ghost use Rattle.std.specs.Prelude.{◌≡◌, IfOk, string_bytes};
ghost use Rattle.tough_roles.specs.Roles.{role_name};
ghost use Rattle.tough_editor.specs.Wide.{Says, Tells};

use std::alloc::{AllocError, Global};
use tough_error::Error;
use tough_roles::{Error as SchemaError, RoleType};
use tough_signed::EditError;

const SPEC_VERSION: &str = "1.0.0";

// The name of a role.
fn named(alloc: Global, role: RoleType) -> Result<String, AllocError>
    ensures { IfOk result (λ s. string_bytes s ≡ role_name role) }
{
    String::from_str(alloc, role.name())
}

// The wide error that tells the refusal, where there is memory for its texts.
fn try_wide(alloc: Global, error: EditError) -> Result<Error, AllocError>
    ensures { IfOk result (Says error) }
{
    match error {
        EditError::FileRead { path, source } => Ok(Error::FileRead { path, source }),
        EditError::FileParseJson { path, source } => Ok(Error::FileParseJson { path, source }),
        EditError::UnstableRoot {
            role,
            actual,
            threshold,
        } => {
            Ok(Error::UnstableRoot {
                role,
                actual,
                threshold,
            })
        }
        EditError::SpecVersion { given } => {
            let supported = String::from_str(alloc, SPEC_VERSION)?;
            Ok(Error::SpecVersion { given, supported })
        }
        EditError::NoFileName { path } => Ok(Error::NoFileName { path }),
        EditError::Name(error) => Ok(Error::from(error)),
        EditError::TargetFromPath { path, source } => {
            let file = path.clone()?;
            let source = source.at(file);
            Ok(Error::TargetFromPath { path, source })
        }
        EditError::Missing { field } => {
            let field = String::from_str(alloc, field)?;
            Ok(Error::Missing { field })
        }
        EditError::TargetsEditorSome => Ok(Error::TargetsEditorSome),
        EditError::NoTargets => Ok(Error::NoTargets),
        EditError::NoDelegations => Ok(Error::NoDelegations),
        EditError::DelegateMissing { name, source } => Ok(Error::DelegateMissing { name, source }),
        EditError::InvalidPath { source } => Ok(Error::InvalidPath { source }),
        EditError::SignMessage { source } => Ok(Error::SignMessage { source }),
        EditError::KeysNotFoundInRoot => Ok(Error::KeysNotFoundInRoot),
        EditError::NoRoleKeysinRoot { role } => {
            let role = named(alloc, role)?;
            Ok(Error::NoRoleKeysinRoot { role })
        }
        EditError::SigningKeysNotFound { role } => {
            let role = named(alloc, role)?;
            Ok(Error::SigningKeysNotFound { role })
        }
        EditError::SerializeRole { role: what } => {
            let role = named(alloc, what)?;
            let source = SchemaError::JsonSerialization { what };
            Ok(Error::SerializeRole { role, source })
        }
        EditError::SerializeSignedRole { role: what } => {
            let role = named(alloc, what)?;
            let source = SchemaError::JsonSerialization { what };
            Ok(Error::SerializeSignedRole { role, source })
        }
        EditError::JsonSerialization => {
            let what = RoleType::DelegatedTargets;
            let source = SchemaError::JsonSerialization { what };
            Ok(Error::JsonSerialization { source })
        }
        EditError::Memory => Ok(Error::Memory),
    }
}

/// The wide error that tells a refused edit: `Memory` too where its texts find none.
pub fn wide(alloc: Global, error: EditError) -> Error
    ensures { Tells error result }
{
    match try_wide(alloc, error) {
        Ok(told) => told,
        Err(_) => Error::Memory,
    }
}
