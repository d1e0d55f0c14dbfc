//! Loads repositories (TUF specification 5): what is fetched, verified, compared and stored, in which order.
#![tactic(auto)]

mod driving;
mod hashes;
pub mod laws;
mod load;
mod loader;
mod run;

pub use driving::drive;
pub use hashes::fetch_hashes;
pub use load::{Load, LoadParts, fetch_file};
pub use loader::{RepositoryLoader, Unset};
pub use run::LoadRun;
pub use tough_trust::Keeper;
pub use tough_update::{
    Act, Answer, Ask, Core, Counts, Extent, Fault, Limits, Loaded, Received, Request, UpdateError,
};
pub use tough_vault::{
    Clock, DirStore, DocumentName, Entry, ExpirationEnforcement, FixedClock, ListedVersion,
    MemoryStore, Receipt, Refusal, Replaced, SnapshotVersions, StepError, Store, StoreError,
    SystemClock, TimestampVersions, Tip, Vault,
};
