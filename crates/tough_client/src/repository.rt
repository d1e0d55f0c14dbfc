//! A repository that was loaded.

ghost use Rattle.std.specs.Prelude.{◌≡◌, IfOk, OnOk, OnErr, option_map};
ghost use Rattle.tough_schema.specs.Entries.{all_listed};
ghost use Rattle.tough_schema.specs.Gather.{listed_docs};
ghost use Rattle.tough_schema.specs.Seek.{sought, role_of};
ghost use Rattle.tough_schema.specs.Putting.{IsOpenIn};
ghost use Rattle.tough_schema.specs.Whole.{tree_doc, role_tree, held_doc};
ghost use Rattle.tough_update.specs.Stages.{with_role};
ghost use Rattle.tough_update.specs.View.{root_of, timestamp_of, snapshot_of, targets_of};
ghost use Rattle.tough_checks.specs.Checks.{enforces};
ghost use Rattle.tough_trust.specs.Steps.{TakesStep};
ghost use Rattle.tough_trust.specs.View.{act_of, step_doc};
ghost use Rattle.tough_client.specs.Repositories.{IsMadeOf, IsLeftOf, IsKept, IsServedAs, alloc_of, loaded_of, documents_of, transport_of, metadata_base_of, limits_of, enforced_of, clock_of, keeping_of, held_of, receipts_of};

use std::alloc::{AllocError, Global};
use tough_load::{
    Act, Clock, ExpirationEnforcement, Keeper, Limits, Load, LoadParts, Loaded, StepError,
};
use tough_names::TargetName;
use tough_net::Transport;
use tough_parts::RepositoryParts;
use tough_roles::{Root, Signed, Snapshot, Timestamp, Verify};
use tough_schema::{DelegatedRole, DelegatedTargets, Target, Targets};
use tough_trust::take_step;
use url::Url;

/// A repository that was loaded (TUF specification 5): the metadata that the load verified, and the calls that read and save targets.
#[derive(Drop)]
pub struct Repository<T, K: Keeper, C> {
    pub(crate) alloc: Global,
    pub(crate) loaded: Loaded,
    pub(crate) transport: T,
    pub(crate) keeper: K,
    pub(crate) clock: C,
    pub(crate) metadata_base_url: Url,
    pub(crate) targets_base_url: Url,
    pub(crate) limits: Limits,
    pub(crate) enforcement: ExpirationEnforcement,
    pub(crate) receipts: Vec<K::Receipt>,
}

impl<T, K: Keeper, C> Repository<T, K, C> {
    /// The repository of a load, with every part of it.
    pub fn new<V>(load: Load<T, K, C, V>, loaded: Loaded) -> Repository<T, K, C>
    where
        T: Transport,
        C: Clock + Drop,
        V: Verify + Drop,
        ensures { IsMadeOf load loaded result }
    {
        let LoadParts {
            alloc,
            transport,
            keeper,
            clock,
            metadata_base_url,
            targets_base_url,
            limits,
            enforcement,
            receipts,
        } = load.into_parts();
        Repository {
            alloc,
            loaded,
            transport,
            keeper,
            clock,
            metadata_base_url,
            targets_base_url,
            limits,
            enforcement,
            receipts,
        }
    }

    /// The allocator.
    pub fn alloc(&self) -> Global
        ensures { result ≡ alloc_of self.now }
    {
        self.alloc
    }

    /// What fetches the files.
    pub fn transport(&self) -> &T
        ensures { result.now ≡ transport_of self.now }
    {
        &self.transport
    }

    /// The URL that the names of metadata files are joined to.
    pub fn metadata_base_url(&self) -> &Url
        ensures { result.now ≡ metadata_base_of self.now }
    {
        &self.metadata_base_url
    }

    /// What an update takes at most.
    pub fn limits(&self) -> Limits
        ensures { result ≡ limits_of self.now }
    {
        self.limits
    }

    /// Whether what has expired is refused.
    pub fn expiration_enforcement(&self) -> ExpirationEnforcement
        ensures { enforces result ≡ enforced_of self.now }
    {
        self.enforcement
    }

    /// Puts the document of a delegated role into the tree, as `Loaded::put_role` does: it checks nothing, the caller has verified the document.
    /// Without memory nothing changes.
    pub fn put_role(
        &mut self,
        way: &[usize],
        document: Signed<DelegatedTargets>,
        bytes: Vec<u8>,
    ) -> Result<(), AllocError>
        ensures put { OnOk result
            (IsOpenIn way.now (tree_doc (targets_of (loaded_of self.old)).signed)
            → documents_of self.new
            ≡ with_role way.now (held_doc document) bytes.items (documents_of self.old)) }
        ensures refused { OnErr result (documents_of self.new ≡ documents_of self.old) }
        ensures held { held_of self.new ≡ held_of self.old }
        ensures others { IsServedAs self.old self.new }
    {
        self.loaded.put_role(way, document, bytes)
    }

    /// Has the keeper take a step, and puts its receipt by, after those before it.
    pub fn keep<V: Verify>(&mut self, verifier: &V, act: &Act<'_>) -> Result<(), StepError>
        ensures taken { TakesStep K.keeps (V.verifies verifier.now) (act_of act.now)
            (keeping_of self.old) (step_doc result) (keeping_of self.new) }
        ensures clock { clock_of self.new ≡ clock_of self.old }
        ensures alloc { alloc_of self.new ≡ alloc_of self.old }
        ensures others { IsKept self.old self.new }
    {
        take_step(
            self.alloc,
            &mut self.keeper,
            verifier,
            &mut self.receipts,
            act,
        )
    }

    /// The documents that were loaded.
    pub fn documents(&self) -> &Loaded
        ensures { result.now ≡ loaded_of self.now }
    {
        &self.loaded
    }

    /// The root.
    pub fn root(&self) -> &Signed<Root>
        ensures { result.now ≡ root_of (loaded_of self.now) }
    {
        self.loaded.root()
    }

    /// The timestamp.
    pub fn timestamp(&self) -> &Signed<Timestamp>
        ensures { result.now ≡ timestamp_of (loaded_of self.now) }
    {
        self.loaded.timestamp()
    }

    /// The snapshot.
    pub fn snapshot(&self) -> &Signed<Snapshot>
        ensures { result.now ≡ snapshot_of (loaded_of self.now) }
    {
        self.loaded.snapshot()
    }

    /// The targets, with the documents of the delegated roles, as far as they were loaded.
    pub fn targets(&self) -> &Signed<Targets>
        ensures { result.now ≡ targets_of (loaded_of self.now) }
    {
        self.loaded.targets()
    }

    /// What the documents list: the targets' own before all, then those of the delegated roles in preorder.
    pub fn all_targets(&self) -> Result<Vec<(&TargetName, &Target)>, AllocError>
        ensures { IfOk result (λ v. listed_docs v.items
            ≡ all_listed (tree_doc (targets_of (loaded_of self.now)).signed)) }
    {
        self.loaded.targets().signed.targets_iter(self.alloc)
    }

    /// The delegated role of the name, as `Targets::delegated_role` answers it.
    pub fn delegated_role(&self, name: &str) -> Result<Option<&DelegatedRole>, AllocError>
        ensures { IfOk result (λ o. option_map (λ r. role_tree r.now) o
            ≡ role_of (sought name.now (tree_doc (targets_of (loaded_of self.now)).signed))) }
    {
        match self
            .loaded
            .targets()
            .signed
            .delegated_role(self.alloc, name)
        {
            Ok(role) => Ok(Some(role)),
            Err(error) => {
                let is_memory = error.is_memory();
                drop(error);
                if is_memory { Err(AllocError) } else { Ok(None) }
            }
        }
    }

    /// The receipts of the steps of the load, and of those that noted the time since, in order.
    pub fn receipts(&self) -> &[K::Receipt]
        ensures { result.now ≡ receipts_of self.now }
    {
        self.receipts.as_slice()
    }
}

impl<T: Drop, K: Keeper, C: Drop> Repository<T, K, C> {
    /// Takes the repository apart, for an editor: the transport, the limits and the documents.
    pub fn into_parts(self) -> RepositoryParts<T>
        ensures { IsLeftOf self result }
    {
        let (root, timestamp, snapshot, targets) = self.loaded.into_parts();
        RepositoryParts {
            transport: self.transport,
            limits: self.limits,
            root,
            timestamp,
            snapshot,
            targets,
        }
    }
}
