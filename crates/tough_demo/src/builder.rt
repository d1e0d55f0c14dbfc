//! A repository, made file by file.
ghost use Rattle.std.specs.Prelude.{◌≡◌, ◌+◌, ◌<◌, IfOk, OnOk, length};
ghost use Rattle.std.specs.Int.NonZero.{non_zero_u64_get};

use crate::documents::{root_with, snapshot_of, timestamp_of};
use crate::entries::{metafile, target};
use crate::error::DemoError;
use crate::files::{RepositoryFile, RepositoryFiles};
use crate::keys::{PUBLIC, demo_signer, ed25519};
use crate::roles::role_key;
use crate::text::{pretty, sign};
use std::alloc::{AllocError, Global};
use std::collections::BTreeMap;
use std::mem;
use std::num::NonZeroU64;
use tough_names::TargetName;
use tough_schema::{DelegatedTargets, DemoSign, Metafile, Role, Target, Targets};

/// A repository in the making.
#[derive(Drop)]
pub struct Builder {
    /// Whether versions and digests stand before the names of files.
    pub consistent: bool,
    /// The files that are made.
    pub files: Vec<RepositoryFile>,
    /// What the snapshot is to say of the documents that are made.
    pub meta: BTreeMap<String, Metafile>,
}

/// The version that a number is.
pub fn version(number: u64) -> NonZeroU64
    requires { 0 < number }
    ensures { non_zero_u64_get result ≡ number }
{
    NonZeroU64::new(number).unwrap()
}

// Where a target file lies: with consistent snapshots its digest stands before its name
// (TUF specification 1.0, section 6.2).
fn target_path(
    alloc: Global,
    target: &Target,
    name: &str,
    consistent: bool,
) -> Result<String, AllocError> {
    if consistent {
        format!(in alloc; "targets/{}.{name}", target.hashes.sha256.as_str())
    } else {
        format!(in alloc; "targets/{name}")
    }
}

// The file of a role's document, which this signer signs.
fn document_file<T: Role + Drop>(
    alloc: Global,
    role: T,
    signer: &DemoSign,
    consistent: bool,
) -> Result<RepositoryFile, DemoError> {
    let path = format!(in alloc; "metadata/{}", role.filename(alloc, consistent)?)?;
    let document = sign(alloc, role, signer)?;
    let bytes = pretty(alloc, &document)?;
    Ok(RepositoryFile { path, bytes })
}

impl Builder {
    /// A repository without files, with or without consistent snapshots.
    pub fn new(alloc: Global, consistent: bool) -> Builder
        ensures files { length result.files.items ≡ 0 }
        ensures consistent { result.consistent ≡ consistent }
    {
        Builder {
            consistent,
            files: Vec::new(alloc),
            meta: BTreeMap::new(alloc),
        }
    }

    /// Makes the target file of this name, and lists it.
    pub fn add_target(
        &mut self,
        alloc: Global,
        name: String,
        bytes: Vec<u8>,
        listing: &mut BTreeMap<TargetName, Target>,
    ) -> Result<(), DemoError>
        ensures { OnOk result (length self.new.files.items ≡ length self.old.files.items + 1) }
    {
        let listed = target(alloc, bytes.as_slice())?;
        let path = target_path(alloc, &listed, name.as_str(), self.consistent)?;
        listing.insert(TargetName::new(alloc, name)?, listed)?;
        self.files.push(RepositoryFile { path, bytes })?;
        Ok(())
    }

    // Makes the document of a role, which this signer signs, and returns what is said of it.
    fn add_document<T: Role + Drop>(
        &mut self,
        alloc: Global,
        role: T,
        signer: &DemoSign,
    ) -> Result<Metafile, DemoError>
        ensures { OnOk result (length self.new.files.items ≡ length self.old.files.items + 1) }
    {
        let version = role.version();
        let file = document_file(alloc, role, signer, self.consistent)?;
        let listed = metafile(alloc, version, file.bytes.as_slice())?;
        self.files.push(file)?;
        Ok(listed)
    }

    /// Makes the document of the delegated role of this name, which its own key signs.
    pub fn add_role(
        &mut self,
        alloc: Global,
        name: &str,
        document: Targets,
    ) -> Result<(), DemoError>
        ensures { OnOk result (length self.new.files.items ≡ length self.old.files.items + 1) }
    {
        let signer = DemoSign {
            key: role_key(alloc, name)?,
        };
        let role = DelegatedTargets {
            name: String::from_str(alloc, name)?,
            targets: document,
        };
        let listed = self.add_document(alloc, role, &signer)?;
        self.meta.insert(format!(in alloc; "{name}.json")?, listed)?;
        Ok(())
    }

    // Makes the documents of these targets, of a snapshot of version 3, and of a timestamp of version 4.
    fn add_listing(
        &mut self,
        alloc: Global,
        top: Targets,
        signer: &DemoSign,
    ) -> Result<(), DemoError>
        ensures { OnOk result (length self.new.files.items ≡ length self.old.files.items + 3) }
    {
        let listed = self.add_document(alloc, top, signer)?;
        self.meta
            .insert(String::from_str(alloc, "targets.json")?, listed)?;
        let meta = mem::replace(&mut self.meta, BTreeMap::new(alloc));
        let listed = self.add_document(alloc, snapshot_of(alloc, version(3), meta)?, signer)?;
        self.add_document(alloc, timestamp_of(alloc, version(4), listed)?, signer)?;
        Ok(())
    }

    /// The repository with the four documents after its files: these targets, a snapshot of version 3, a timestamp of
    /// version 4, and a root of version 1.
    pub fn finish(mut self, alloc: Global, top: Targets) -> Result<RepositoryFiles, DemoError>
        ensures { IfOk result (λ r. length r.files.items ≡ length self.files.items + 4) }
    {
        let signer = demo_signer(alloc)?;
        self.add_listing(alloc, top, &signer)?;
        let key = ed25519(alloc, PUBLIC)?;
        let root = root_with(alloc, version(1), key, self.consistent)?;
        let file = document_file(alloc, root, &signer, self.consistent)?;
        let root = file.bytes.clone()?;
        let mut files = self.files;
        files.push(file)?;
        Ok(RepositoryFiles { root, files })
    }
}
