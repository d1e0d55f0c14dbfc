//! The wide error.

use jiff::Timestamp as Instant;
use tough_files::FilesError;
use tough_names::TargetName;
use tough_net::TransportError;
use tough_roles::{self as schema, ReadError, RoleType};
use url::ParseError;

/// What a call on a repository or on an editor answers.
pub type Result<T> = std::result::Result<T, Error>;

/// Why a call on a repository, or on an editor of one, failed. Of some variants it is said that no call answers them: they stand for
/// callers who match on the original's.
#[derive(Drop)]
pub enum Error {
    // Reading and updating.
    /// The bytes that were handed in are no signed root.
    ParseTrustedMetadata {
        /// What was wrong.
        source: ReadError,
    },
    /// The root that was handed in doesn't reach its own threshold.
    VerifyTrustedMetadata {
        /// What was wrong.
        source: schema::Error,
    },
    /// The bytes are no signed document of the role.
    ParseMetadata {
        /// The role.
        role: RoleType,
        /// What was wrong.
        source: ReadError,
    },
    /// More new roots than the limit allows.
    MaxUpdatesExceeded {
        /// The limit.
        max_root_updates: u64,
    },
    /// A URL can't be parsed.
    ParseUrl {
        /// The URL's text.
        url: String,
        /// What was wrong.
        source: ParseError,
    },
    /// A file's name can't be joined to the base URL.
    JoinUrl {
        /// The file's name.
        path: String,
        /// What was wrong.
        source: ParseError,
    },
    /// The name of a role's file can't be joined to a URL.
    JoinUrlEncoded {
        /// The role's name.
        original: String,
        /// The name as it stands in the file's name.
        encoded: String,
        /// The file's name.
        filename: String,
        /// What was wrong.
        source: ParseError,
    },
    /// A file couldn't be fetched.
    Transport {
        /// What was wrong.
        source: TransportError,
    },
    /// More bytes than a limit allows. No call answers it: it is the cause of a transport's error.
    MaxSizeExceeded {
        /// The limit, in bytes.
        max_size: u64,
        /// Where the limit comes from.
        specifier: &'static str,
    },
    /// Bytes haven't the digest that is listed.
    HashMismatch {
        /// Which bytes: a URL, or a path.
        context: String,
        /// Their digest, in hexadecimal digits.
        calculated: String,
        /// The listed digest, in hexadecimal digits.
        expected: String,
    },
    /// A name that a document of the tree lists isn't found by the search for it.
    InvalidPath {
        /// What was wrong.
        source: schema::Error,
    },
    /// A later time than this moment was noted before.
    SystemTimeSteppedBackward {
        /// This moment.
        sys_time: Instant,
        /// The later one.
        latest_known_time: Instant,
    },
    /// The document isn't signed as its holder demands.
    VerifyMetadata {
        /// The document's role.
        role: RoleType,
        /// What was wrong.
        source: schema::Error,
    },
    /// The document of a delegated role isn't signed as its parent demands.
    VerifyRoleMetadata {
        /// The role's name.
        role: String,
        /// What was wrong.
        source: schema::Error,
    },
    /// The document hasn't the version under which it is listed.
    VersionMismatch {
        /// The document's role.
        role: RoleType,
        /// Its version.
        fetched: u64,
        /// The listed one.
        expected: u64,
    },
    /// A timestamp doesn't list exactly one name.
    TimestampMetaLength {
        /// The timestamp's version.
        version: u64,
        /// How many names it lists.
        meta_length: usize,
    },
    /// A timestamp doesn't list `snapshot.json`.
    MissingSnapshotMeta {
        /// The timestamp's version.
        version: u64,
    },
    /// A snapshot doesn't list `targets.json`.
    SnapshotTargetsMetaMissing {
        /// The snapshot's version.
        version: u64,
    },
    /// The document is older than one that was accepted before.
    OlderMetadata {
        /// The document's role.
        role: RoleType,
        /// The version that was accepted before.
        current_version: u64,
        /// The document's version.
        new_version: u64,
    },
    /// The timestamp names an older snapshot than one that was accepted before.
    OlderSnapshotInTimestamp {
        /// The snapshot's version in the new timestamp.
        snapshot_new: u64,
        /// The new timestamp's version.
        timestamp_new: u64,
        /// The snapshot's version in the old timestamp.
        snapshot_old: u64,
        /// The old timestamp's version.
        timestamp_old: u64,
    },
    /// A name that the old snapshot lists is missing from the new one.
    SnapshotRoleMissing {
        /// The name.
        role: String,
        /// The old snapshot's version.
        old_version: u64,
        /// The new snapshot's version.
        new_version: u64,
    },
    /// The new snapshot lists a lower version for a name.
    SnapshotRoleRollback {
        /// The name.
        role: String,
        /// Its version in the old snapshot.
        old_role_version: u64,
        /// The old snapshot's version.
        old_snapshot_version: u64,
        /// Its version in the new snapshot.
        new_role_version: u64,
        /// The new snapshot's version.
        new_snapshot_version: u64,
    },
    /// The document expired before the update, or the reading of a target, began.
    ExpiredMetadata {
        /// The document's role.
        role: RoleType,
        /// Its expiry.
        expires: Instant,
        /// The moment that was noted.
        now: Instant,
    },

    // The store.
    /// The store couldn't read a file.
    DatastoreOpen {
        /// The file's name.
        path: String,
    },
    /// The store couldn't write a file.
    DatastoreCreate {
        /// The file's name.
        path: String,
    },
    /// The store couldn't remove a file.
    DatastoreRemove {
        /// The file's name.
        path: String,
    },
    /// What is to be stored has no JSON text.
    DatastoreSerialize,
    /// The store couldn't be made. No call answers it.
    DatastoreInit {
        /// What was wrong.
        source: FilesError,
    },

    // Files.
    /// A path's canonical form couldn't be found.
    AbsolutePath {
        /// The path.
        path: String,
        /// What was wrong.
        source: FilesError,
    },
    /// A folder couldn't be made.
    DirCreate {
        /// The folder.
        path: String,
        /// What was wrong.
        source: FilesError,
    },
    /// What stands at a path couldn't be told.
    FileMetadata {
        /// The path.
        path: String,
        /// What was wrong.
        source: FilesError,
    },
    /// A file couldn't be opened. No call answers it.
    FileOpen {
        /// The file.
        path: String,
        /// What was wrong.
        source: FilesError,
    },
    /// A file couldn't be read.
    FileRead {
        /// The file.
        path: String,
        /// What was wrong.
        source: FilesError,
    },
    /// A file isn't the document that it should be.
    FileParseJson {
        /// The file.
        path: String,
        /// What was wrong.
        source: ReadError,
    },
    /// A path can't be made a URL. No call answers it.
    FileUrl {
        /// The path.
        path: String,
    },
    /// A file couldn't be written.
    FileWrite {
        /// The file.
        path: String,
        /// What was wrong.
        source: FilesError,
    },
    /// What stands at a target's path is neither a file nor a link.
    InvalidFileType {
        /// The path.
        path: String,
    },
    /// A link couldn't be made.
    LinkCreate {
        /// The link.
        path: String,
        /// What was wrong.
        source: FilesError,
    },
    /// A path has no last component.
    NoFileName {
        /// The path.
        path: String,
    },
    /// Something stands at a target's path already, and the caller asked to fail then.
    PathExistsFail {
        /// The path.
        path: String,
    },
    /// What is to be copied or linked is no file.
    PathIsNotFile {
        /// The path.
        path: String,
    },
    /// What is to be copied or linked is no target of the repository.
    PathIsNotTarget {
        /// The path.
        path: String,
    },
    /// A path isn't UTF-8. No call answers it, since paths are texts.
    PathUtf8 {
        /// The path.
        path: String,
    },
    /// A path of Unix isn't UTF-8. No call answers it, since paths are texts.
    UnixPathUtf8 {
        /// The path.
        path: String,
    },
    /// What stands at a target's path couldn't be removed.
    RemoveTarget {
        /// The path.
        path: String,
        /// What was wrong.
        source: FilesError,
    },
    /// What stands at a target's path is of another kind than what is to be made.
    TargetFileTypeMismatch {
        /// What is to be made.
        expected: String,
        /// What stands there.
        found: String,
        /// The path.
        path: String,
    },
    /// A target can't be made of a file.
    TargetFromPath {
        /// The file.
        path: String,
        /// What was wrong.
        source: schema::Error,
    },
    /// A folder couldn't be walked.
    WalkDir {
        /// The folder.
        directory: String,
        /// What was wrong.
        source: FilesError,
    },

    // Saving targets.
    /// A target's name leads out of the base URL of the targets.
    InvalidTargetName {
        /// The name.
        inner: String,
    },
    /// The output folder's canonical path couldn't be found.
    SaveTargetOutdirCanonicalize {
        /// The output folder.
        path: String,
        /// What was wrong.
        source: FilesError,
    },
    /// What stands at the output folder's path is no folder.
    SaveTargetOutdir {
        /// The output folder.
        path: String,
    },
    /// What stands at the output folder's path couldn't be told. No call answers it.
    SaveTargetDirInfo {
        /// The output folder.
        path: String,
        /// What was wrong.
        source: FilesError,
    },
    /// The path of the file to be saved has no parent.
    SaveTargetNoParent {
        /// The path.
        path: String,
        /// The target's name.
        name: TargetName,
    },
    /// No document lists the target.
    SaveTargetNotFound {
        /// The target's name.
        name: TargetName,
    },
    /// The file to be saved would lie outside the output folder.
    SaveTargetUnsafePath {
        /// The target's name.
        name: TargetName,
        /// The output folder.
        outdir: String,
        /// Where the file would lie.
        filepath: String,
    },
    /// A temporary file couldn't be made.
    NamedTempFileCreate {
        /// The folder.
        path: String,
        /// What was wrong.
        source: FilesError,
    },
    /// A temporary file couldn't be given its name.
    NamedTempFilePersist {
        /// The path under which it was to stand.
        path: String,
        /// What was wrong.
        source: FilesError,
    },

    // Caching a repository.
    /// A folder of the cache couldn't be made.
    CacheDirectoryCreate {
        /// The folder.
        path: String,
        /// What was wrong.
        source: FilesError,
    },
    /// What is to be cached couldn't be read. No call answers it: such a fault is `Transport`.
    CacheFileRead {
        /// The URL's text.
        url: String,
        /// What was wrong.
        source: FilesError,
    },
    /// A file of the cache couldn't be written.
    CacheFileWrite {
        /// The file.
        path: String,
        /// What was wrong.
        source: FilesError,
    },
    /// A target's file couldn't be written. No call answers it: such a fault is `FileWrite`.
    CacheTargetWrite {
        /// The file.
        path: String,
        /// What was wrong.
        source: FilesError,
    },
    /// No document lists the target that is to be saved under its digest.
    CacheTargetMissing {
        /// The target's name.
        target_name: TargetName,
        /// What was wrong.
        source: schema::Error,
    },

    // Target names.
    /// A target's name is `..`.
    UnsafeTargetNameDotDot,
    /// A target's name is empty, or resolves to nothing.
    UnsafeTargetNameEmpty,
    /// A target's name resolves to `/`.
    UnsafeTargetNameSlash,
    /// A target's name can't be resolved. No call answers it.
    TargetNameResolve {
        /// The name.
        name: String,
        /// What was wrong.
        source: FilesError,
    },
    /// A target's name resolves to no components. No call answers it.
    TargetNameComponentsEmpty {
        /// The name.
        name: String,
    },
    /// A target's name resolves to a path without a root. No call answers it.
    TargetNameRootMissing {
        /// The name.
        name: String,
    },

    // Editing.
    /// A field of a document isn't set.
    Missing {
        /// The field.
        field: String,
    },
    /// The editor has no limits.
    MissingLimits,
    /// The editor has no transport.
    MissingTransport,
    /// The open editor of targets wasn't closed.
    TargetsEditorSome,
    /// There are no targets: no editor of them is open, or a role has no document.
    NoTargets,
    /// The targets delegate to no role.
    NoDelegations,
    /// No delegated role has the name.
    DelegateNotFound {
        /// The name.
        name: String,
    },
    /// No delegated role of the name has a document.
    DelegateMissing {
        /// The name.
        name: String,
        /// What was wrong.
        source: schema::Error,
    },
    /// No targets have the name. No call answers it.
    TargetsNotFound {
        /// The name.
        name: String,
        /// What was wrong.
        source: schema::Error,
    },
    /// Delegated roles contradict each other. No call answers it.
    DelegatedRolesNotConsistent {
        /// The name.
        name: String,
    },
    /// The snapshot doesn't list a role. No call answers it.
    RoleNotInMeta {
        /// The role's name.
        name: String,
        /// Its parent's name.
        parent: String,
    },
    /// The document of a role doesn't list a file that is to be cached.
    MetaMissing {
        /// The file's name.
        file: &'static str,
        /// The role.
        role: RoleType,
    },
    /// Paths aren't delegated to the role's parent. No call answers it.
    InvalidPathPermission {
        /// The role's name.
        name: String,
        /// The paths.
        paths: Vec<String>,
        /// What was wrong.
        source: schema::Error,
    },
    /// A document's specification version isn't the supported one.
    SpecVersion {
        /// The document's version.
        given: String,
        /// The supported one.
        supported: String,
    },
    /// A role of the root has fewer keys than its threshold.
    UnstableRoot {
        /// The role.
        role: RoleType,
        /// How many keys it has.
        actual: usize,
        /// Its threshold.
        threshold: u64,
    },
    /// Not exactly one role was made. No call answers it.
    InvalidRoleCount {
        /// How many were made.
        count: usize,
    },
    /// Targets couldn't be gathered by name. No call answers it.
    TargetsMap {
        /// What was wrong.
        source: schema::Error,
    },
    /// A number is out of range. No call answers it.
    InvalidInto,
    /// A threshold is out of range. No call answers it.
    InvalidThreshold,

    // Signing.
    /// A document has no canonical form.
    SerializeRole {
        /// The role's name.
        role: String,
        /// What was wrong.
        source: schema::Error,
    },
    /// A signed document has no JSON text.
    SerializeSignedRole {
        /// The role's name.
        role: String,
        /// What was wrong.
        source: schema::Error,
    },
    /// A key has no canonical form.
    JsonSerialization {
        /// What was wrong.
        source: schema::Error,
    },
    /// Nothing was signed. No call answers it: such a fault is `SignMessage`.
    Sign,
    /// A signer failed, for the reason that it gives.
    SignMessage {
        /// The reason.
        source: String,
    },
    /// No signer has a key of the root.
    KeysNotFoundInRoot,
    /// The root has no keys for the role.
    NoRoleKeysinRoot {
        /// The role's name.
        role: String,
    },
    /// Fewer signers than the threshold have a key of the role.
    SigningKeysNotFound {
        /// The role's name.
        role: String,
    },
    /// A role's key wasn't handed in. No call answers it.
    KeyNotFound {
        /// The role's name.
        role: String,
        /// What was wrong.
        source: schema::Error,
    },
    /// A role has no keys. No call answers it.
    NoKeys {
        /// The role's name.
        role: String,
    },
    /// There is no key holder. No call answers it.
    NoKeyHolder,
    /// An identifier stands twice among signatures. No call answers it.
    DuplicateKeyid {
        /// The identifier.
        keyid: String,
    },
    /// A source gave no key. No call answers it, since signers are handed in.
    KeyPairFromKeySource {
        /// What was wrong.
        source: String,
    },
    /// A private key was rejected. No call answers it, since signers are handed in.
    KeyRejected {
        /// What was wrong.
        source: String,
    },
    /// A private key's format isn't known. No call answers it, since signers are handed in.
    KeyUnrecognized,
    /// A task couldn't be waited for. No call answers it.
    JoinSpawnBlockingTask {
        /// What was wrong.
        source: String,
    },

    /// A request for memory was refused.
    Memory,
}
