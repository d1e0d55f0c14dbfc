//! The documents of delegated roles: which one is fetched next, and the tree that they make (TUF specification 1.0, section 5.6.7).

mod firsts;
mod growth;
mod look;
mod nodes;
mod placed;
mod turns;

pub use growth::{Growth, Progress};
