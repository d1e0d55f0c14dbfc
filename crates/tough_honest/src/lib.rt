//! What a load comes to where nothing fails: laws alone (TUF specification 5).
#![tactic(auto)]

pub mod laws;
