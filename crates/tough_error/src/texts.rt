//! The texts of errors: a file for each kind of error, and in it a text for each of its variants.

mod editing;
mod expired;
mod fetch;
mod file;
mod metadata;
mod name;
mod rollback;
mod signing;
mod store;
mod target;

use crate::error::Error;
use crate::kind::ErrorKind;
use std::fmt::{self, Debug, Display, Formatter, Write};

impl Display for Error {
    fn fmt<W: Write>(&self, f: &mut Formatter<W>) -> fmt::Result {
        match self.kind() {
            ErrorKind::Metadata => metadata::tell(self, f),
            ErrorKind::Rollback => rollback::tell(self, f),
            ErrorKind::Expired => expired::tell(self, f),
            ErrorKind::Fetch => fetch::tell(self, f),
            ErrorKind::Store => store::tell(self, f),
            ErrorKind::File => file::tell(self, f),
            ErrorKind::Target => target::tell(self, f),
            ErrorKind::Name => name::tell(self, f),
            ErrorKind::Editing => editing::tell(self, f),
            ErrorKind::Signing => signing::tell(self, f),
            ErrorKind::Memory => f.write_str("out of memory"),
        }
    }
}

// The same text: it names the variant's fields already, and a program that ends with its error shows that form.
impl Debug for Error {
    fn fmt<W: Write>(&self, f: &mut Formatter<W>) -> fmt::Result {
        Display::fmt(self, f)
    }
}

impl std::error::Error for Error {}
