//! What the checks of documents need.

use crate::checks::ExpirationEnforcement;
use jiff::Timestamp as Instant;
use std::alloc::Global;

/// By whom signatures are verified, when the update began, and whether expiry counts.
#[derive(Drop)]
pub struct Checker<'a, V> {
    /// The allocator.
    pub alloc: Global,
    /// Who verifies signatures.
    pub verifier: &'a V,
    /// When the update began (TUF specification 5.1).
    pub start: Instant,
    /// Whether a document that had expired by then is refused.
    pub enforcement: ExpirationEnforcement,
}
