//! What an update asks for, and what it trusts (TUF specification 5): which file is fetched, under which bound and digests, whether what
//! came is taken, and who takes the steps on a store.
#![tactic(auto)]

mod act;
mod delegations;
mod error;
mod fault;
mod holder;
mod keeper;
mod request;
mod step;
mod walk;
mod wide;

pub use act::Act;
pub use delegations::{Index, roles_of, set_document};
pub use error::UpdateError;
pub use fault::Fault;
pub use holder::{Holder, RoleHolder, check_tree, holder_of, read_targets, targets_from};
pub use keeper::{Keeper, take_step};
pub use request::{
    Request, digests_in, role_request, root_request, snapshot_request, targets_request,
    timestamp_request,
};
pub use step::act_on;
pub use tough_checks::is_rotated;
pub use tough_net::Limits;
pub use walk::{first_root, next_request, next_root, next_version};
