//! A vault that threads share.

pub use tough_shared::{ClosedStore, Naming, Opened, Receipt, SharedKeeper, SharedStore};
