//! Names of targets and files, and the patterns and prefixes that names are matched with.
#![tactic(auto)]

mod filename;
mod name;
mod pattern;
mod prefix;

pub use filename::{FILE_NAME, encode_filename, encodes_apart};
pub use name::{NameError, TargetName, resolves_once};
pub use pattern::{PathPattern, PatternError};
pub use prefix::{PathHashPrefix, digits_of};
