//! The one wide error of all calls, with the names of the original. What stands below has narrow errors of its own, which become this one by `From`
//! where they stand.
#![tactic(auto)]

mod convert;
mod error;
mod kind;
mod texts;

pub use error::{Error, Result};
pub use kind::ErrorKind;
