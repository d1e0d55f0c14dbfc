//! The versions of a document, and those that it lists.

ghost use Rattle.std.specs.Prelude.{◌≡◌, IfOk};
ghost use Rattle.tough_checks.specs.Versions.{roles_of};

use std::alloc::{AllocError, Global};

/// A name, with the version that a snapshot lists for it.
#[derive(Debug, Drop)]
pub struct ListedVersion {
    /// The file name, as `targets.json`.
    pub name: String,
    /// The version.
    pub version: u64,
}

/// A timestamp's version, with the version of the snapshot that it names.
#[derive(Clone, Copy, Debug, PartialEq, Eq, Drop)]
pub struct TimestampVersions {
    /// The timestamp's version.
    pub version: u64,
    /// The snapshot's version.
    pub snapshot: u64,
}

/// A snapshot's version, with the versions that it lists.
#[derive(Debug, Drop)]
pub struct SnapshotVersions {
    /// The snapshot's version.
    pub version: u64,
    /// The listed names, in order.
    pub roles: Vec<ListedVersion>,
}

impl SnapshotVersions {
    /// A copy.
    pub fn copy(&self, alloc: Global) -> Result<SnapshotVersions, AllocError>
        ensures { IfOk result (λ copy. roles_of copy ≡ roles_of self.now) }
    {
        let mut roles = Vec::new(alloc);
        for role in &self.roles {
            let name = String::from_str(alloc, role.name.as_str())?;
            let version = role.version;
            roles.push(ListedVersion { name, version })?;
        }
        Ok(SnapshotVersions {
            version: self.version,
            roles,
        })
    }
}
