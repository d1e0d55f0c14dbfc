//! What loads answer, for the cases of `trials`: what loads, what the machine of a load, and what reading, saving and caching answer; what
//! hostile servers and stops lead to, of loads that are polled by hand over a transport that answers by a script; and what updates on one
//! store come to, by turns and side by side.
#![tactic(auto)]

pub mod errors;
mod held;
mod journal;
pub mod load;
pub mod loading;
mod outcome;
mod polling;
pub mod saves;
pub mod schedule;
mod scripted;
pub mod shared;
pub mod stops;
pub mod update;
