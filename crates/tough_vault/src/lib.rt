//! Where a client keeps what it accepted, the steps by which that is replaced, and the journal of these.
#![tactic(auto)]

mod clock;
mod document;
mod entry;
mod folder;
mod held;
pub mod laws;
mod memory;
mod parts;
mod prepare;
mod root_step;
mod rotated;
mod snapshot_step;
mod store;
mod vault;

pub use clock::{Clock, FixedClock, SystemClock};
pub use entry::{Entry, Receipt, Tip};
pub use folder::DirStore;
pub use memory::MemoryStore;
pub use store::{Replaced, Store, StoreError};
pub use tough_checks::{
    Checker, DocumentName, ExpirationEnforcement, ListedVersion, Refusal, SnapshotVersions,
    StepError, TimestampVersions, check_expiry, check_signed, check_version, is_rotated,
};
pub use vault::Vault;
