//! A transport that keeps what it received under a name with a version, and serves it from a folder the next time.
//!
//! Nothing rests on what the folder holds: a load verifies each document, wherever it comes from. Not promised: that a file is kept.
#![tactic(auto)]

mod caching;
mod keeping;
mod kept;
mod name;

pub use caching::{CachingStream, CachingTransport};
pub use keeping::Keeping;
pub use kept::KeptFile;
