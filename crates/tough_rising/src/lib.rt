//! The receipts of a load: laws alone.
#![tactic(auto)]

pub mod laws;
