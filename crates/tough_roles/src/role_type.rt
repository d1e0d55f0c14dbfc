ghost use Rattle.std.specs.Prelude.{◌≡◌, Some, nat_eq};
ghost use Rattle.std.specs.Ordering.{nat_cmp, on, as_partial_cmp};
ghost use Rattle.std.specs.Cmp.{partial_order_from_own_ties};
ghost use Rattle.std.specs.Cmp.Rules.{comparing};
ghost use Rattle.std.proofs.Common.{rules};
ghost use Rattle.tough_json.specs.Results.{Reads};
ghost use Rattle.tough_roles.specs.Roles.{rank, role_name, role_type, role_cmp};

use std::alloc::Global;
use std::cmp::Ordering;
use std::fmt;
use tough_json::error::{ReadError, shape};

/// The roles that a root lists (TUF specification 1.0, section 2.1), in their order.
#[derive(Clone, Copy, Debug, Drop)]
pub enum RoleType {
    Root,
    Snapshot,
    Targets,
    Timestamp,
    DelegatedTargets,
}

impl RoleType {
    // The place in the order.
    fn rank(self) -> u8
        ensures { result ≡ rank self }
    {
        match self {
            RoleType::Root => 0,
            RoleType::Snapshot => 1,
            RoleType::Targets => 2,
            RoleType::Timestamp => 3,
            RoleType::DelegatedTargets => 4,
        }
    }

    /// The name of the role in a root's `roles`.
    pub fn name(self) -> &'static str
        ensures { result.now ≡ role_name self }
    {
        match self {
            RoleType::Root => "root",
            RoleType::Snapshot => "snapshot",
            RoleType::Targets => "targets",
            RoleType::Timestamp => "timestamp",
            RoleType::DelegatedTargets => "delegated-targets",
        }
    }

    /// The role of the name, if it is one's.
    pub fn of(name: &str) -> Option<RoleType>
        ensures { result ≡ role_type name.now }
    {
        if name == "root" {
            Some(RoleType::Root)
        } else if name == "snapshot" {
            Some(RoleType::Snapshot)
        } else if name == "targets" {
            Some(RoleType::Targets)
        } else if name == "timestamp" {
            Some(RoleType::Timestamp)
        } else if name == "delegated-targets" {
            Some(RoleType::DelegatedTargets)
        } else {
            None
        }
    }

    /// The role of the name; `Shape` where it is none's.
    pub fn from_str(alloc: Global, name: &str) -> Result<RoleType, ReadError>
        ensures { Reads (λ r. r) result (role_type name.now) }
    {
        match RoleType::of(name) {
            Some(role) => Ok(role),
            None => Err(shape(alloc, name)),
        }
    }
}

impl fmt::Display for RoleType {
    ghost output = { λ r. Some (role_name r) };

    fn fmt<W: fmt::Write>(&self, f: &mut fmt::Formatter<W>) -> fmt::Result {
        f.write_str(self.name())
    }
}

impl PartialEq for RoleType {
    ghost eq = { on rank nat_eq };

    ghost laws = { Prim.search (comparing, rules) };

    fn eq(&self, other: &RoleType) -> bool {
        self.rank() == other.rank()
    }
}

impl Eq for RoleType {
    ghost laws = { Prim.search (comparing, rules) };
}

impl PartialOrd for RoleType {
    ghost partial_cmp = { as_partial_cmp role_cmp };

    ghost laws = { partial_order_from_own_ties (Prim.search (comparing, rules))
        (Prim.search (comparing, rules)) };

    fn partial_cmp(&self, other: &RoleType) -> Option<Ordering> {
        Some(self.cmp(other))
    }
}

impl Ord for RoleType {
    ghost cmp = { role_cmp };

    ghost total = { Prim.search (comparing, rules) };

    ghost matches_partial_cmp = { Prim.search (comparing, rules) };

    ghost matches_eq = { Prim.search (comparing, rules) };

    fn cmp(&self, other: &RoleType) -> Ordering {
        self.rank().cmp(&other.rank())
    }
}
