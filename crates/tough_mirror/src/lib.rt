//! What a publisher signs and writes is loaded equal: laws alone (TUF specification 5).
#![tactic(auto)]

pub mod laws;
pub mod replacing_laws;
