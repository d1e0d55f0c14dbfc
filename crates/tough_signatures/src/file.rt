//! Files of secrets.

use std::fs::OpenOptions;
use std::io::Write;
use std::os::unix::fs::OpenOptionsExt;
use std::{io, rt};

/// Writes a new file, which its owner alone may read and write (mode 0600). An error where something stands at the path.
pub fn write_new<R: rt::Files>(files: &R, path: &str, text: &str) -> io::Result<()> {
    let mut file = OpenOptions::new()
        .write(true)
        .create_new(true)
        .mode(0o600)
        .open(files, path)?;
    file.write_all(text.as_bytes())
}
