//! What the calls of editors, and of what they write, answer, for the cases of `trials`.
#![tactic(auto)]

pub mod editing;
mod fetching;
mod given;
mod loading;
pub mod publishing;
pub mod putting;
