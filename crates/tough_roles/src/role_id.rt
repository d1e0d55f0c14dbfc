use crate::role_type::RoleType;

/// Which role a document is of: a top-level one, or a delegated one by its name.
#[derive(Clone, Debug, Drop, PartialEq, Eq)]
pub enum RoleId {
    StandardRole(RoleType),
    DelegatedRole(String),
}
