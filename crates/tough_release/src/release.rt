//! A repository is signed.

ghost use Rattle.std.specs.Prelude.{◌≡◌, IfOk, IfErr};
ghost use Rattle.tough_roles.specs.Root.{root_doc};
ghost use Rattle.tough_roles.specs.Signature.{signed_doc};
ghost use Rattle.tough_schema.specs.Entries.{IsValid};
ghost use Rattle.tough_schema.specs.Whole.{tree_doc};
ghost use Rattle.tough_signed.specs.Holders.{by_root};
ghost use Rattle.tough_signed.specs.Standing.{roles_of, is_consistent};
ghost use Rattle.tough_release.specs.Documents.{snapshot_metas, timestamp_metas};
ghost use Rattle.tough_release.specs.Edits.{release_doc, heading_doc};
ghost use Rattle.tough_release.specs.Files.{AreFiled};
ghost use Rattle.tough_release.specs.Release.{IsPathless, IsSnapshotBy, IsTimestampBy, IsMade, IsReleased, IsTreeRefused, IsUnmade, IsReleaseRefused};
ghost use Rattle.tough_release.specs.Repository.{root_of, targets_of, snapshot_of, timestamp_of, delegated_of};

use crate::documents::sign_both;
use crate::edits::RepositoryEdits;
use crate::filing::{Filed, file_tree};
use crate::heading::Heading;
use crate::repository::SignedRepository;
use std::alloc::Global;
use tough_keys::Sign;
use tough_roles::{Error, Root, Signed, Snapshot, Timestamp};
use tough_schema::Targets;
use tough_signed::{EditError, SignedDelegatedTargets, SignedRole};

// Whether each listed name is found; else `InvalidPath`.
fn check_paths(alloc: Global, targets: &Targets) -> Result<(), EditError>
    ensures valid { IfOk result (λ u. IsValid (tree_doc targets.now)) }
    ensures refused { IfErr result (IsPathless (tree_doc targets.now)) }
{
    tough_schema::laws::valid_where_none_is_missing();
    match targets.validate(alloc) {
        Ok(()) => Ok(()),
        Err(Error::Memory) => Err(EditError::Memory),
        Err(source) => Err(EditError::InvalidPath { source }),
    }
}

impl RepositoryEdits {
    /// The signed repository. The open editor, if any, is signed and closed; each document gets its file; the snapshot lists exactly the targets and
    /// the documents of the delegated roles, and the timestamp exactly the snapshot, each with its digest, length and version, and the root's keys
    /// sign both (TUF specification 1.0, sections 4.4 and 4.6). The refusals, in this order: those of `sign_targets_editor`; `NoTargets` without
    /// signed targets; `SerializeSignedRole` where a document has no text; `Missing` with `snapshot version` and `snapshot expiration`; those of
    /// `SignedRole::new` for the snapshot; the same for the timestamp; `InvalidPath` where a listed name isn't found by the search for it.
    pub fn sign<S: Sign>(self, alloc: Global, signers: &[S]) -> Result<SignedRepository, EditError>
        ensures released { IfOk result
            (IsReleased S.key S.signs signers.now (release_doc self)) }
        ensures refused { IfErr result
            (IsReleaseRefused S.key S.signs S.fails signers.now (release_doc self)) }
    {
        let mut edits = self;
        match edits.sign_targets_editor(alloc, signers) {
            Ok(()) => edits.make(alloc, signers),
            Err(error) => {
                drop(edits);
                Err(error)
            }
        }
    }

    // The same, where no editor is open.
    fn make<S: Sign>(self, alloc: Global, signers: &[S]) -> Result<SignedRepository, EditError>
        ensures made { IfOk result (IsMade S.key S.signs signers.now (release_doc self)) }
        ensures refused { IfErr result
            (IsUnmade S.key S.signs S.fails signers.now (release_doc self)) }
    {
        let RepositoryEdits {
            root,
            targets,
            editor: _,
            snapshot,
            timestamp,
        } = self;
        let Some(targets) = targets else {
            return Err(EditError::NoTargets);
        };
        let signed = &root.signed().signed;
        let consistent = signed.consistent_snapshot;
        match sign_tree(alloc, signed, targets, snapshot, timestamp, signers) {
            Ok(tree) => Ok(with_root(root, consistent, tree)),
            Err(error) => Err(error),
        }
    }
}

// The documents of a repository but for its root.
#[derive(Drop)]
struct SignedTree {
    filed: Filed,
    snapshot: SignedRole<Snapshot>,
    timestamp: SignedRole<Timestamp>,
}

// The repository of these documents.
fn with_root(root: SignedRole<Root>, consistent: bool, tree: SignedTree) -> SignedRepository
    ensures root { root_of result ≡ root }
    ensures targets { targets_of result ≡ tree.filed.targets }
    ensures delegated { roles_of (delegated_of result) ≡ tree.filed.delegated.items }
    ensures consistent { is_consistent (delegated_of result) ≡ consistent }
    ensures snapshot { snapshot_of result ≡ tree.snapshot }
    ensures timestamp { timestamp_of result ≡ tree.timestamp }
{
    let SignedTree {
        filed,
        snapshot,
        timestamp,
    } = tree;
    let Filed { targets, delegated } = filed;
    SignedRepository {
        root,
        targets,
        snapshot,
        timestamp,
        delegated: SignedDelegatedTargets::new(delegated, consistent),
    }
}

// The files of the targets and of the documents below them, the snapshot and the timestamp, where each listed name is found.
fn sign_tree<S: Sign>(
    alloc: Global,
    root: &Root,
    targets: Signed<Targets>,
    first: Heading,
    second: Heading,
    signers: &[S],
) -> Result<SignedTree, EditError>
    ensures files { IfOk result (λ m. AreFiled (signed_doc tree_doc targets)
        m.filed.targets m.filed.delegated.items) }
    ensures snapshot { IfOk result (λ m. IsSnapshotBy S.key S.signs (by_root (root_doc root.now))
        signers.now (heading_doc first)
        (snapshot_metas m.filed.targets m.filed.delegated.items) m.snapshot) }
    ensures timestamp { IfOk result (λ m. IsTimestampBy S.key S.signs (by_root (root_doc root.now))
        signers.now (heading_doc second) (timestamp_metas m.snapshot) m.timestamp) }
    ensures valid { IfOk result (λ m. IsValid (tree_doc targets.signed)) }
    ensures refused { IfErr result (IsTreeRefused S.key S.signs S.fails
        (by_root (root_doc root.now)) signers.now (heading_doc first) (heading_doc second)
        (signed_doc tree_doc targets)) }
{
    let filed = match file_tree(alloc, targets) {
        Ok(filed) => filed,
        Err(error) => return Err(error),
    };
    let (snapshot, timestamp) = match sign_both(alloc, root, first, second, &filed, signers) {
        Ok(both) => both,
        Err(error) => return Err(error),
    };
    match check_paths(alloc, &filed.targets.signed().signed) {
        Ok(()) => Ok(SignedTree {
            filed,
            snapshot,
            timestamp,
        }),
        Err(error) => Err(error),
    }
}
