//! Versions of documents.

use crate::fault::{Fault, refused};
use std::alloc::Global;
use std::num::NonZeroU64;

/// Why no version follows.
pub(crate) const LAST: &str = "no version follows the last one";

/// The version after this one.
pub(crate) fn after(alloc: Global, what: &str, version: NonZeroU64) -> Result<NonZeroU64, Fault> {
    match version.get().checked_add(1).and_then(NonZeroU64::new) {
        Some(next) => Ok(next),
        None => Err(refused(alloc, what, LAST)),
    }
}
