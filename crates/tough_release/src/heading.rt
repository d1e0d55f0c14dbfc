//! What is set of a document that is to be signed.

ghost use Rattle.std.specs.Prelude.{◌≡◌};
ghost use Rattle.tough_release.specs.Edits.{heading_doc, bare_heading};

use serde_json::{Map, Value};
use std::alloc::Global;
use std::num::NonZeroU64;

/// The version, the expiry and the extras of a document that is to be signed.
#[derive(Drop)]
pub(crate) struct Heading {
    pub(crate) version: Option<NonZeroU64>,
    pub(crate) expires: Option<jiff::Timestamp>,
    pub(crate) extra: Map<String, Value>,
}

impl Heading {
    /// One of which nothing is set.
    pub(crate) fn new(alloc: Global) -> Heading
        ensures { heading_doc result ≡ bare_heading }
    {
        Heading {
            version: None,
            expires: None,
            extra: Map::new(alloc),
        }
    }
}
