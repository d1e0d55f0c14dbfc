//! Signed documents of delegated roles.

ghost use Rattle.std.specs.Prelude.{◌≡◌};
ghost use Rattle.tough_signed.specs.Standing.{roles_of, is_consistent};

use crate::signed_role::SignedRole;
use tough_schema::DelegatedTargets;

/// Signed documents of delegated roles, each with its file.
#[derive(Drop)]
pub struct SignedDelegatedTargets {
    roles: Vec<SignedRole<DelegatedTargets>>,
    consistent_snapshot: bool,
}

impl SignedDelegatedTargets {
    /// These documents; the names of their files have versions where snapshots are consistent.
    pub fn new(
        roles: Vec<SignedRole<DelegatedTargets>>,
        consistent_snapshot: bool,
    ) -> SignedDelegatedTargets
        ensures roles { roles_of result ≡ roles.items }
        ensures consistent { is_consistent result ≡ consistent_snapshot }
    {
        SignedDelegatedTargets {
            roles,
            consistent_snapshot,
        }
    }

    /// The documents.
    pub fn roles(&self) -> &[SignedRole<DelegatedTargets>]
        ensures { result.now ≡ roles_of self.now }
    {
        &self.roles
    }

    /// Whether the names of their files have versions.
    pub fn consistent_snapshot(&self) -> bool
        ensures { result ≡ is_consistent self.now }
    {
        self.consistent_snapshot
    }
}
