//! Why a verb ended without what it was asked for, as its line says.

ghost use Rattle.std.specs.Prelude.{⊤};

use std::alloc::{AllocError, AllocFailed, Global};
use std::fmt::{self, Display, Formatter};
use std::io;

/// Why nothing came of a verb.
#[derive(Drop)]
pub(crate) enum Fault {
    /// The words ask for nothing that there is.
    Usage(String),
    /// It was refused, in these words.
    Told(String),
    /// The system failed.
    System(io::Error),
    /// A request for memory was refused.
    Memory,
}

impl Fault {
    /// The status that the program ends with.
    pub(crate) fn status(&self) -> u8 {
        match self {
            Fault::Usage(_) => 2,
            _ => 1,
        }
    }
}

/// What an error says about a file, a role or a word.
pub(crate) fn about<E: Display>(alloc: Global, what: &str, error: &E) -> Fault {
    match format!(in alloc; "{what}: {error}") {
        Ok(text) => Fault::Told(text),
        Err(_) => Fault::Memory,
    }
}

/// The value, or what its error says about a file, a role or a word.
pub(crate) fn or_told<T, E: Display + Drop>(
    alloc: Global,
    what: &str,
    outcome: Result<T, E>,
) -> Result<T, Fault> {
    match outcome {
        Ok(value) => Ok(value),
        Err(error) => Err(about(alloc, what, &error)),
    }
}

/// A refusal about a file, a role or a word, in these words.
pub(crate) fn refused(alloc: Global, what: &str, why: &str) -> Fault {
    match format!(in alloc; "{what}: {why}") {
        Ok(text) => Fault::Told(text),
        Err(_) => Fault::Memory,
    }
}

/// A word that names nothing, and what would.
pub(crate) fn misspelt(alloc: Global, word: &str, wanted: &str) -> Fault {
    match format!(in alloc; "'{word}': expected {wanted}") {
        Ok(text) => Fault::Usage(text),
        Err(_) => Fault::Memory,
    }
}

impl From<AllocError> for Fault {
    ghost from_gives = { λ _ _. ⊤ };

    fn from(_: AllocError) -> Fault {
        Fault::Memory
    }
}

impl<X: Drop> From<AllocFailed<X>> for Fault {
    ghost from_gives = { λ _ _. ⊤ };

    fn from(_: AllocFailed<X>) -> Fault {
        Fault::Memory
    }
}

impl From<io::Error> for Fault {
    ghost from_gives = { λ _ _. ⊤ };

    fn from(error: io::Error) -> Fault {
        Fault::System(error)
    }
}

impl Display for Fault {
    fn fmt<W: fmt::Write>(&self, f: &mut Formatter<W>) -> fmt::Result {
        match self {
            Fault::Usage(text) | Fault::Told(text) => Display::fmt(text, f),
            Fault::System(error) => Display::fmt(error, f),
            Fault::Memory => f.write_str("out of memory"),
        }
    }
}
