//! Saves a stream as a file of a folder: into a temporary file beside its place, which is renamed once the stream has ended well.
#![tactic(auto)]

mod error;
mod folder;
pub mod laws;
mod place;
mod saving;
mod target;
mod whole;

pub use error::{SaveError, Step};
pub use folder::{make_temp, open_folder};
pub use place::Place;
pub use saving::Saving;
pub use target::{FetchError, TargetStream, fetch_target, file_name};
pub use whole::write_file;
