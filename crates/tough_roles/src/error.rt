use crate::role_type::RoleType;
use std::alloc::AllocError;
use thiserror::Error as ThisError;
use tough_decoded::DecodeError;
use tough_names::{PatternError, TargetName};

/// Why a role isn't verified, a query of a tree of targets has no answer, or a value of a document can't be made.
#[derive(Debug, Drop, ThisError)]
pub enum Error {
    /// No delegated role has the name.
    #[error("Role not found: {name}")]
    RoleNotFound {
        name: String,
    },
    /// No document that the search comes to lists the name.
    #[error("Target file not delegated: {}", .name.raw())]
    TargetNotFound {
        name: TargetName,
    },
    /// The document delegates to no role.
    #[error("Targets doesn't contain delegations field")]
    NoDelegations,
    /// The delegated role has no document.
    #[error("Delegation doesn't contain targets field")]
    NoTargets,
    /// The root hasn't the role.
    #[error("Role {role} missing from root metadata")]
    MissingRole {
        role: RoleType,
    },
    /// The role has no canonical form.
    #[error("Failed to serialize {what} role to JSON")]
    JsonSerialization {
        what: RoleType,
    },
    /// An identifier stands twice among the signatures, spelled so at the later of the two.
    #[error("Duplicate key ID: {keyid}")]
    DuplicateKeyId {
        keyid: String,
    },
    /// Fewer identifiers than the threshold have a signature that is valid over the role's canonical form: one over another spelling of the
    /// same document doesn't count.
    #[error("Signature threshold of {threshold} not met for role {role} ({valid} valid signatures over its canonical form)")]
    SignatureThreshold {
        role: RoleType,
        threshold: u64,
        valid: u64,
    },
    /// A text is no pattern of paths.
    #[error("Failed to parse path pattern as a glob")]
    Glob,
    /// A text isn't hexadecimal.
    #[error("Invalid hex string")]
    HexDecode,
    /// A text has no armour of PEM.
    #[error("Invalid PEM string")]
    PemDecode,
    /// A file can't be opened.
    #[error("Failed to open '{path}'")]
    FileOpen {
        path: String,
    },
    /// A file can't be read.
    #[error("Failed to read '{path}'")]
    FileRead {
        path: String,
    },
    /// What stands at a path is no file.
    #[error("TUF targets must be files, given: '{path}'")]
    TargetNotAFile {
        path: String,
    },
    /// A key stands under an identifier that isn't its own. No call answers it: such a document isn't read (`Shape`).
    #[error("Invalid key ID {keyid}: calculated {calculated}")]
    InvalidKeyId {
        keyid: String,
        calculated: String,
    },
    /// Two roles have one name. No call answers it.
    #[error("Duplicate role name: {name}")]
    DuplicateRoleName {
        name: String,
    },
    /// A key's form isn't known. No call answers it, since no key is parsed.
    #[error("Invalid SubjectPublicKeyInfo document")]
    SpkiDecode,
    /// A role has a path that its parent doesn't delegate. No call answers it.
    #[error("Invalid file permissions from parent delegation: {child}")]
    UnmatchedPath {
        child: String,
    },
    /// A request for memory was refused.
    #[error("out of memory")]
    Memory,
}

/// What a call on documents answers.
pub type Result<T> = std::result::Result<T, Error>;

impl Error {
    ghost use Rattle.std.specs.Prelude.{◌≡◌};
    ghost use Rattle.tough_roles.specs.Carried.{wants_memory};

    /// Whether a request for memory was refused.
    pub fn is_memory(&self) -> bool
        ensures { result ≡ wants_memory self.now }
    {
        matches!(self, Error::Memory)
    }
}

impl From<AllocError> for Error {
    ghost use Rattle.std.specs.Prelude.{◌≡◌};
    ghost use Rattle.tough_roles.specs.declared.error.Error.TheVariants.{Memory};

    ghost from_gives = { λ _ e. e ≡ Memory };

    fn from(_: AllocError) -> Error {
        Error::Memory
    }
}

impl From<DecodeError> for Error {
    ghost use Rattle.std.specs.Prelude.{◌≡◌};
    ghost use Rattle.tough_roles.specs.Carried.{decode_error};

    ghost from_gives = { λ d e. e ≡ decode_error d };

    fn from(error: DecodeError) -> Error {
        match error {
            DecodeError::HexDecode => Error::HexDecode,
            DecodeError::PemDecode => Error::PemDecode,
            DecodeError::Memory => Error::Memory,
        }
    }
}

impl From<PatternError> for Error {
    ghost use Rattle.std.specs.Prelude.{◌≡◌};
    ghost use Rattle.tough_roles.specs.Carried.{pattern_error};

    ghost from_gives = { λ p e. e ≡ pattern_error p };

    fn from(error: PatternError) -> Error {
        match error {
            PatternError::Glob => Error::Glob,
            PatternError::Memory => Error::Memory,
        }
    }
}
