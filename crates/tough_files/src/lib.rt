//! Files behind a trait, with two implementations: files in memory that tell their contents and their calls, and the
//! files of the operating system.
#![tactic(auto)]

mod files;
mod log;
mod memory;
mod system;
mod temp;
mod tree;

pub use files::{FileKind, Files, FilesError};
pub use log::{Answer, Call, Request};
pub use memory::MemoryFiles;
pub use system::OsFiles;
