//! A repository that was loaded: its documents, and the targets that are read and saved by them (TUF specification 5.7).
#![tactic(auto)]

mod cache;
mod driving;
mod failure;
mod listed;
mod metadata;
mod plan;
mod read;
mod repository;
mod save;
mod timely;

pub use cache::{Cache, CacheMetadata};
pub use driving::{drive, finish};
pub use read::ReadTarget;
pub use repository::Repository;
pub use save::{Prefix, SaveTarget};
pub use tough_error::{Error, Result};
pub use tough_load::{
    Act, Answer, Ask, Clock, Core, Counts, DirStore, DocumentName, Entry, ExpirationEnforcement,
    Extent, Fault, FixedClock, Keeper, Limits, ListedVersion, Load, LoadParts, LoadRun, Loaded,
    MemoryStore, Receipt, Received, Refusal, Replaced, RepositoryLoader, Request, SnapshotVersions,
    StepError, Store, StoreError, SystemClock, TimestampVersions, Tip, Unset, UpdateError, Vault,
};
pub use tough_parts::RepositoryParts;
pub use tough_save::TargetStream;
