//! The client's workflow (TUF specification 5): from the bytes of a trusted root to what it vouches for.
#![tactic(auto)]

mod ask;
mod counts;
pub mod delegations;
mod extent;
pub mod growth_laws;
pub mod laws;
mod machine;
mod roles;
mod stage;
mod turns;

pub use ask::{Answer, Ask};
pub use counts::Counts;
pub use extent::Extent;
pub use machine::Core;
pub use stage::{Loaded, Received};
pub use tough_trust::{Act, Fault, Limits, Request, UpdateError};
pub use tough_vault::{
    Entry, ExpirationEnforcement, ListedVersion, MemoryStore, Receipt, Refusal, SnapshotVersions,
    StepError, Store, StoreError, TimestampVersions, Tip, Vault,
};
