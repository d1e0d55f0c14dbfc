//! The files of a repository.

/// A file: its path under the repository's folder, whose parts `/` joins, and its bytes.
#[derive(Drop)]
pub struct RepositoryFile {
    pub path: String,
    pub bytes: Vec<u8>,
}

/// All files of a repository, and the root that its clients trust from the beginning.
#[derive(Drop)]
pub struct RepositoryFiles {
    pub root: Vec<u8>,
    pub files: Vec<RepositoryFile>,
}
