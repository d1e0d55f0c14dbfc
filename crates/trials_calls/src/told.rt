//! What calls came to, as text.

use std::alloc::{AllocError, Global};
use std::fmt::Debug;

/// The word where a call succeeded, or else its error.
pub(crate) fn came_to<T: Drop, E: Debug + Drop>(
    alloc: Global,
    word: &str,
    outcome: Result<T, E>,
) -> Result<String, AllocError> {
    match outcome {
        Ok(_) => String::from_str(alloc, word),
        Err(error) => format!(in alloc; "{error:?}"),
    }
}
