use crate::delegations::Delegations;
use tough_roles::Root;

/// The document that lists the keys of a role: a root, or the delegations of a targets document.
#[derive(Debug, Drop, PartialEq)]
pub enum KeyHolder {
    Delegations(Delegations),
    Root(Root),
}
