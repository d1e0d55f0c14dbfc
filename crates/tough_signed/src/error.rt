ghost use Rattle.std.specs.Prelude.{◌≡◌};

use std::alloc::{AllocError, AllocFailed};
use tough_files::FilesError;
use tough_keys::SignError;
use tough_names::NameError;
use tough_roles::{Error, ReadError, RoleType};
use tough_schema::FileError;

/// Why an edit, or a signing, was refused.
#[derive(Debug, Drop, thiserror::Error)]
pub enum EditError {
    /// A file couldn't be read.
    #[error("Failed to read {path}: {source}")]
    FileRead {
        /// The file.
        path: String,
        /// What was wrong.
        source: FilesError,
    },
    /// A file isn't the document that it should be.
    #[error("Failed to parse {path}: {source}")]
    FileParseJson {
        /// The file.
        path: String,
        /// What was wrong.
        source: ReadError,
    },
    /// A role of the root has fewer keys than its threshold.
    #[error("Unstable root; role {role} has {actual} keys and the threshold {threshold}")]
    UnstableRoot {
        /// The role.
        role: RoleType,
        /// How many keys it has.
        actual: usize,
        /// Its threshold.
        threshold: u64,
    },
    /// A document's specification version isn't `1.0.0`.
    #[error("Unsupported specification version {given}")]
    SpecVersion {
        /// The document's version.
        given: String,
    },
    /// A path has no last component.
    #[error("No file name in path {path}")]
    NoFileName {
        /// The path.
        path: String,
    },
    /// A text is no target's name.
    #[error("{0}")]
    Name(NameError),
    /// A target can't be made of a file.
    #[error("Failed to make a target of {path}: {source}")]
    TargetFromPath {
        /// The file.
        path: String,
        /// What was wrong.
        source: FileError,
    },
    /// A field of a document isn't set.
    #[error("Missing '{field}'")]
    Missing {
        /// The field.
        field: &'static str,
    },
    /// The open editor of targets wasn't closed.
    #[error("The open targets editor wasn't signed")]
    TargetsEditorSome,
    /// There are no targets: no editor of them is open, or a role has no document.
    #[error("No targets")]
    NoTargets,
    /// The targets delegate to no role.
    #[error("No delegations")]
    NoDelegations,
    /// No delegated role of the name has a document.
    #[error("Delegated role {name} not found: {source}")]
    DelegateMissing {
        /// The name.
        name: String,
        /// What was wrong.
        source: Error,
    },
    /// A name that a document of the tree lists isn't found by the search for it.
    #[error("Invalid path: {source}")]
    InvalidPath {
        /// What was wrong.
        source: Error,
    },
    /// A signer failed, for the reason that it gives.
    #[error("Failed to sign message: {source}")]
    SignMessage {
        /// The reason.
        source: String,
    },
    /// No signer has a key of the root.
    #[error("No signer has a key of the root")]
    KeysNotFoundInRoot,
    /// The root has no keys for the role.
    #[error("The root has no keys for role {role}")]
    NoRoleKeysinRoot {
        /// The role.
        role: RoleType,
    },
    /// Fewer signers than the threshold have a key of the role.
    #[error("Too few signers for role {role}")]
    SigningKeysNotFound {
        /// The kind of document.
        role: RoleType,
    },
    /// A role has no canonical form.
    #[error("Failed to serialize role {role} for signing")]
    SerializeRole {
        /// The kind of document.
        role: RoleType,
    },
    /// A signed document has no JSON text.
    #[error("Failed to serialize signed role {role}")]
    SerializeSignedRole {
        /// The kind of document.
        role: RoleType,
    },
    /// A key has no canonical form.
    #[error("Failed to serialize a key")]
    JsonSerialization,
    /// A request for memory was refused.
    #[error("out of memory")]
    Memory,
}

impl From<AllocError> for EditError {
    ghost use Rattle.tough_signed.specs.declared.error.EditError.TheVariants.{Memory};

    ghost from_gives = { λ _ e. e ≡ Memory };

    fn from(_: AllocError) -> EditError {
        EditError::Memory
    }
}

impl<X: Drop> From<AllocFailed<X>> for EditError {
    ghost use Rattle.tough_signed.specs.declared.error.EditError.TheVariants.{Memory};

    ghost from_gives = { λ _ e. e ≡ Memory };

    fn from(_: AllocFailed<X>) -> EditError {
        EditError::Memory
    }
}

impl From<SignError> for EditError {
    ghost use Rattle.tough_signed.specs.Refusals.{sign_error};

    ghost from_gives = { λ s e. e ≡ sign_error s };

    fn from(error: SignError) -> EditError {
        match error {
            SignError::Failed(source) => EditError::SignMessage { source },
            SignError::Memory => EditError::Memory,
        }
    }
}
