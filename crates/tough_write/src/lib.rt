//! Signed roles as files of a folder, written there or replaced whole, and the files of targets copied or linked into one.
#![tactic(auto)]

mod error;
pub mod laws;
mod path_exists;
mod put;
pub mod replace;
mod target_files;
mod walk;
mod wide;
mod write;

pub use error::OutputError;
pub use path_exists::PathExists;
pub use replace::{NewFile, ReplaceError, replace_file, replace_files, replace_repository};
pub use target_files::TargetFiles;
pub use write::{NamedFile, WriteSigned, write_role, write_roles};
