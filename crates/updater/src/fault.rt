//! Why the updater ended without the target, as its line says.

ghost use Rattle.std.specs.Prelude.{⊤};

use std::alloc::{AllocError, AllocGlobal, Global};
use std::fmt::{self, Display, Formatter};
use std::{fs, io, rt};
use tough::{Error, NameError, UpdateError, Url};

/// Why nothing was saved.
#[derive(Drop)]
pub enum Fault {
    /// The library refused.
    Refused(Error),
    /// Something else failed, in these words.
    Told(String),
    /// The system failed.
    System(io::Error),
    /// A request for memory was refused.
    Memory,
}

impl Fault {
    /// The system failed to do this with a file or folder.
    pub fn in_file(alloc: Global, what: &str, path: &str, error: io::Error) -> Fault {
        match format!(in alloc; "Failed to {what} {path}: {error}") {
            Ok(text) => Fault::Told(text),
            Err(_) => Fault::Memory,
        }
    }

    /// A refusal, with what the system said of this folder, if it said something.
    pub fn with_cause(
        alloc: Global,
        error: Error,
        folder: &str,
        cause: Option<&io::Error>,
    ) -> Fault {
        let Some(cause) = cause else {
            return Fault::Refused(error);
        };
        match format!(in alloc; "{error} ({folder}): {cause}") {
            Ok(text) => Fault::Told(text),
            Err(_) => Fault::Memory,
        }
    }
}

/// The bytes of a file.
pub fn read<R: rt::Files + AllocGlobal>(rt: &R, path: &str) -> Result<Vec<u8>, Fault> {
    match fs::read(rt, path) {
        Ok(bytes) => Ok(bytes),
        Err(error) => Err(Fault::in_file(rt.alloc(), "read", path, error)),
    }
}

/// The URL of a word.
pub fn url(alloc: Global, word: &str) -> Result<Url, Fault> {
    match Url::parse(alloc, word) {
        Ok(url) => Ok(url),
        Err(source) => {
            let hint = "a URL has a scheme, as in file:///srv/repository or http://host/path";
            let text = format!(in alloc; "{word} is no URL ({source}): {hint}")?;
            Err(Fault::Told(text))
        }
    }
}

impl From<AllocError> for Fault {
    ghost from_gives = { λ _ _. ⊤ };

    fn from(_: AllocError) -> Fault {
        Fault::Memory
    }
}

impl From<NameError> for Fault {
    ghost from_gives = { λ _ _. ⊤ };

    fn from(error: NameError) -> Fault {
        Fault::Refused(Error::from(error))
    }
}

impl From<UpdateError> for Fault {
    ghost from_gives = { λ _ _. ⊤ };

    fn from(error: UpdateError) -> Fault {
        Fault::Refused(Error::from(error))
    }
}

impl From<Error> for Fault {
    ghost from_gives = { λ _ _. ⊤ };

    fn from(error: Error) -> Fault {
        Fault::Refused(error)
    }
}

impl From<io::Error> for Fault {
    ghost from_gives = { λ _ _. ⊤ };

    fn from(error: io::Error) -> Fault {
        Fault::System(error)
    }
}

impl Display for Fault {
    fn fmt<W: fmt::Write>(&self, f: &mut Formatter<W>) -> fmt::Result {
        match self {
            Fault::Refused(error) => Display::fmt(error, f),
            Fault::Told(text) => Display::fmt(text, f),
            Fault::System(error) => Display::fmt(error, f),
            Fault::Memory => f.write_str("out of memory"),
        }
    }
}
