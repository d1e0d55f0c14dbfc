//! What is done where something stands already.

ghost use Rattle.std.specs.Prelude.{◌≡◌};
ghost use Rattle.tough_json.specs.Results.{Reads};
ghost use Rattle.tough_write.specs.Existing.{path_exists};

use std::alloc::Global;
use tough_json::ReadError;
use tough_json::error::shape;

/// What is done where something stands at a target's path already: nothing, to remove it and make it anew, or to fail.
#[derive(Clone, Copy, Debug, PartialEq, Eq, Drop)]
pub enum PathExists {
    Skip,
    Replace,
    Fail,
}

impl PathExists {
    // What the word means, if it means anything.
    fn of(name: &str) -> Option<PathExists>
        ensures { result ≡ path_exists name.now }
    {
        if name == "skip" {
            Some(PathExists::Skip)
        } else if name == "replace" {
            Some(PathExists::Replace)
        } else if name == "fail" {
            Some(PathExists::Fail)
        } else {
            None
        }
    }

    /// What the word means, of `skip`, `replace` and `fail`; `Shape` for any other.
    pub fn from_str(alloc: Global, name: &str) -> Result<PathExists, ReadError>
        ensures { Reads (λ p. p) result (path_exists name.now) }
    {
        match PathExists::of(name) {
            Some(exists) => Ok(exists),
            None => Err(shape(alloc, name)),
        }
    }
}
