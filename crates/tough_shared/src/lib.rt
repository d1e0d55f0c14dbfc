//! A vault that threads share: one lock, receipts that stay tied to their store, and the journal once it is closed.
#![tactic(auto)]

mod closed;
mod front;
mod keeper;
pub mod laws;
mod line;
mod locked;
mod receipt;
mod shared_store;
mod spare;

pub use closed::ClosedStore;
pub use front::{Naming, Opened};
pub use keeper::SharedKeeper;
pub use receipt::Receipt;
pub use shared_store::SharedStore;
pub use tough_trust::{Act, Keeper};
pub use tough_vault::{Entry, StepError, Store};
