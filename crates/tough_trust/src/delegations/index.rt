//! Names and the numbers of their documents.

ghost use Rattle.std.specs.Prelude.{◌≡◌, None, OnOk, Some, string_bytes};
ghost use Rattle.tough_trust.specs.delegations.Indexed.{names_of, no_index, put};
ghost use Rattle.tough_trust.specs.View.{index_doc};

use std::alloc::{AllocError, Global};
use std::collections::BTreeMap;

/// The names of roles that had their turn, each with the number of its document. A name that the snapshot doesn't list has none.
#[derive(Drop)]
pub struct Index {
    numbers: BTreeMap<String, Option<usize>>,
}

impl Index {
    /// No name had its turn.
    pub fn new(alloc: Global) -> Index
        ensures { index_doc result ≡ no_index }
    {
        Index {
            numbers: BTreeMap::new(alloc),
        }
    }

    /// Whether the name had its turn.
    pub fn contains(&self, name: &str) -> bool
        ensures { result ≡ names_of (index_doc self.now) name.now }
    {
        self.numbers.contains_key(name)
    }

    /// The document of this number has the name.
    pub fn insert(&mut self, name: String, number: usize) -> Result<(), AllocError>
        ensures { OnOk result (index_doc self.new
            ≡ put (string_bytes name) (Some number) (index_doc self.old)) }
    {
        self.numbers.insert(name, Some(number))?;
        Ok(())
    }

    /// The snapshot doesn't list the name.
    pub fn pass_over(&mut self, name: String) -> Result<(), AllocError>
        ensures { OnOk result (index_doc self.new
            ≡ put (string_bytes name) None (index_doc self.old)) }
    {
        self.numbers.insert(name, None)?;
        Ok(())
    }
}
