//! Errors of other crates as causes.

ghost use Rattle.std.specs.Prelude.{◌≡◌};

use std::error::Error;
use std::fmt::{self, Debug, Display, Formatter};

/// A value that shows itself as the one inside, and is an error.
#[derive(Drop)]
pub struct Compat<T: Drop>(pub T);

impl<T: Drop + Debug> Debug for Compat<T> {
    ghost debug_output = { λ c. T.debug_output c.0 };

    fn fmt<W: fmt::Write>(&self, f: &mut Formatter<W>) -> fmt::Result {
        self.0.fmt(f)
    }
}

impl<T: Drop + Display> Display for Compat<T> {
    ghost output = { λ c. T.output c.0 };

    ghost styled_output = { λ c. T.styled_output c.0 };

    fn fmt<W: fmt::Write>(&self, f: &mut Formatter<W>) -> fmt::Result {
        self.0.fmt(f)
    }
}

impl<T: Drop + Debug + Display> Error for Compat<T> {}
