//! Names that are compared with path sets.

ghost use Rattle.std.specs.Prelude.{◌≡◌, List, ℕ, Some};
ghost use Rattle.sha2.specs.Sha256.{sha256};
ghost use Rattle.hex.specs.Hex.{encode_lower};
ghost use Rattle.tough_schema.specs.Matching.{prefix_matches};

use tough_names::{PathHashPrefix, TargetName, digits_of};

/// A name, with its digest's digits where they were computed: once, however many prefixes it is compared with.
#[derive(Drop)]
pub struct Hashed<'a> {
    /// The name.
    pub name: &'a TargetName,
    digits: Option<[u8; 64]>,
    ghost right: { (d : List ℕ) → digits ≡ Some d
        → d ≡ encode_lower (sha256 name.now.resolved) },
}

impl<'a> Hashed<'a> {
    /// The name with its digits.
    pub fn new(name: &'a TargetName) -> Hashed<'a>
        ensures { result.name.now ≡ name.now }
    {
        Hashed {
            name,
            digits: Some(digits_of(name)),
        }
    }

    /// The name alone: its digest is computed for each prefix.
    pub(crate) fn bare(name: &'a TargetName) -> Hashed<'a>
        ensures { result.name.now ≡ name.now }
    {
        Hashed { name, digits: None }
    }

    /// Whether the prefix matches the name.
    pub(crate) fn begins(&self, prefix: &PathHashPrefix) -> bool
        ensures { result ≡ prefix_matches self.now.name.now.resolved prefix.now }
    {
        match &self.digits {
            Some(digits) => prefix.begins(digits),
            None => prefix.matches(self.name),
        }
    }
}
