//! Files behind a trait, and the calls that files in memory tell.

pub use tough_files::{Answer, Call, FileKind, Files, FilesError, MemoryFiles, OsFiles, Request};
