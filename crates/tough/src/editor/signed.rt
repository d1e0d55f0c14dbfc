//! Signed documents with their files, which are written into folders or take the place of others there, and the files of targets, which are copied
//! or linked beside them.

pub use tough_publish::SignedRepository;
pub use tough_signed::{SignedDelegatedTargets, SignedRole};
pub use tough_write::{
    NamedFile, NewFile, OutputError, PathExists, ReplaceError, TargetFiles, WriteSigned,
    replace_file, replace_files, replace_repository, write_role, write_roles,
};
