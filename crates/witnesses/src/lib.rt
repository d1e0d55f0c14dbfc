//! Examples on plain devices, of which the premises of the laws hold.
#![tactic(auto)]

pub mod growth;
pub mod honest;
pub mod lives;
pub mod load;
pub mod steps;
pub mod streams;
#[cfg(test)]
mod tests;
mod unmet;
pub mod update;
pub mod vectors;

pub use unmet::Unmet;
