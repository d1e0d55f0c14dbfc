//! Several updates on one vault, by turns of any schedule, and lives of such vaults on one store.
#![tactic(auto)]

pub mod laws;
mod lives;
mod turns;
mod world;

pub use lives::{Life, run_lives};
pub use tough_update::{Core, Entry, Fault, Store, Vault};
pub use turns::{Answer, Turn, TurnError};
pub use world::World;
