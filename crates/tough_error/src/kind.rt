//! What kind of thing went wrong.
ghost use Rattle.std.specs.Prelude.{◌≡◌};
ghost use Rattle.tough_error.specs.Kinds.{kind_of};

use crate::error::Error;

/// What kind of thing went wrong, for who doesn't ask for each variant of an error.
#[derive(Clone, Copy, Debug, PartialEq, Eq, Drop)]
pub enum ErrorKind {
    /// Metadata of the repository is not signed, of the form or of the version that it must be.
    Metadata,
    /// Metadata is older than what was accepted before, or the time is.
    Rollback,
    /// Metadata has expired.
    Expired,
    /// A file could not be fetched, or its URL is none.
    Fetch,
    /// The store of what was accepted failed.
    Store,
    /// A file or folder could not be read, written or made.
    File,
    /// A target is not there, is not what is listed, or has no place.
    Target,
    /// A text is no target name, or one that leads elsewhere.
    Name,
    /// An editor lacks something, or what it was given does not fit.
    Editing,
    /// A signer failed, has no key of the role, or there is no text to sign.
    Signing,
    /// A request for memory was refused.
    Memory,
}

impl Error {
    /// What kind of thing went wrong.
    pub fn kind(&self) -> ErrorKind
        ensures { result ≡ kind_of self.now }
    {
        match self {
            Error::ParseTrustedMetadata { .. }
            | Error::VerifyTrustedMetadata { .. }
            | Error::ParseMetadata { .. }
            | Error::VerifyMetadata { .. }
            | Error::VerifyRoleMetadata { .. }
            | Error::VersionMismatch { .. }
            | Error::TimestampMetaLength { .. }
            | Error::MissingSnapshotMeta { .. }
            | Error::SnapshotTargetsMetaMissing { .. }
            | Error::MaxUpdatesExceeded { .. }
            | Error::InvalidPath { .. }
            | Error::HashMismatch { .. }
            | Error::MetaMissing { .. }
            | Error::RoleNotInMeta { .. } => ErrorKind::Metadata,
            Error::SystemTimeSteppedBackward { .. }
            | Error::OlderMetadata { .. }
            | Error::OlderSnapshotInTimestamp { .. }
            | Error::SnapshotRoleMissing { .. }
            | Error::SnapshotRoleRollback { .. } => ErrorKind::Rollback,
            Error::ExpiredMetadata { .. } => ErrorKind::Expired,
            Error::ParseUrl { .. }
            | Error::JoinUrl { .. }
            | Error::JoinUrlEncoded { .. }
            | Error::Transport { .. }
            | Error::MaxSizeExceeded { .. }
            | Error::FileUrl { .. } => ErrorKind::Fetch,
            Error::DatastoreOpen { .. }
            | Error::DatastoreCreate { .. }
            | Error::DatastoreRemove { .. }
            | Error::DatastoreSerialize
            | Error::DatastoreInit { .. } => ErrorKind::Store,
            Error::AbsolutePath { .. }
            | Error::DirCreate { .. }
            | Error::FileMetadata { .. }
            | Error::FileOpen { .. }
            | Error::FileRead { .. }
            | Error::FileParseJson { .. }
            | Error::FileWrite { .. }
            | Error::LinkCreate { .. }
            | Error::RemoveTarget { .. }
            | Error::WalkDir { .. }
            | Error::NamedTempFileCreate { .. }
            | Error::NamedTempFilePersist { .. }
            | Error::CacheDirectoryCreate { .. }
            | Error::CacheFileRead { .. }
            | Error::CacheFileWrite { .. }
            | Error::CacheTargetWrite { .. } => ErrorKind::File,
            Error::InvalidFileType { .. }
            | Error::NoFileName { .. }
            | Error::PathExistsFail { .. }
            | Error::PathIsNotFile { .. }
            | Error::PathIsNotTarget { .. }
            | Error::PathUtf8 { .. }
            | Error::UnixPathUtf8 { .. }
            | Error::TargetFileTypeMismatch { .. }
            | Error::TargetFromPath { .. }
            | Error::SaveTargetOutdirCanonicalize { .. }
            | Error::SaveTargetOutdir { .. }
            | Error::SaveTargetDirInfo { .. }
            | Error::SaveTargetNoParent { .. }
            | Error::SaveTargetNotFound { .. }
            | Error::SaveTargetUnsafePath { .. }
            | Error::CacheTargetMissing { .. } => ErrorKind::Target,
            Error::InvalidTargetName { .. }
            | Error::UnsafeTargetNameDotDot
            | Error::UnsafeTargetNameEmpty
            | Error::UnsafeTargetNameSlash
            | Error::TargetNameResolve { .. }
            | Error::TargetNameComponentsEmpty { .. }
            | Error::TargetNameRootMissing { .. } => ErrorKind::Name,
            Error::Missing { .. }
            | Error::MissingLimits
            | Error::MissingTransport
            | Error::TargetsEditorSome
            | Error::NoTargets
            | Error::NoDelegations
            | Error::DelegateNotFound { .. }
            | Error::DelegateMissing { .. }
            | Error::TargetsNotFound { .. }
            | Error::DelegatedRolesNotConsistent { .. }
            | Error::InvalidPathPermission { .. }
            | Error::SpecVersion { .. }
            | Error::UnstableRoot { .. }
            | Error::InvalidRoleCount { .. }
            | Error::TargetsMap { .. }
            | Error::InvalidInto
            | Error::InvalidThreshold
            | Error::JoinSpawnBlockingTask { .. } => ErrorKind::Editing,
            Error::SerializeRole { .. }
            | Error::SerializeSignedRole { .. }
            | Error::JsonSerialization { .. }
            | Error::Sign
            | Error::SignMessage { .. }
            | Error::KeysNotFoundInRoot
            | Error::NoRoleKeysinRoot { .. }
            | Error::SigningKeysNotFound { .. }
            | Error::KeyNotFound { .. }
            | Error::NoKeys { .. }
            | Error::NoKeyHolder
            | Error::DuplicateKeyid { .. }
            | Error::KeyPairFromKeySource { .. }
            | Error::KeyRejected { .. }
            | Error::KeyUnrecognized => ErrorKind::Signing,
            Error::Memory => ErrorKind::Memory,
        }
    }
}
