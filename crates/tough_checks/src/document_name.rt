//! Names under which documents are stored.

ghost use Rattle.std.specs.Prelude.{◌≡◌, IfOk, MatchOption, string_bytes};
ghost use Rattle.tough_checks.specs.Files.{IsFree, IsReserved, targets_file};

use std::alloc::{AllocError, Global};

/// A file name that is none of the four files that a vault keeps for itself.
#[derive(Debug, Drop)]
pub struct DocumentName {
    text: String,
    ghost free: { IsFree (string_bytes text) },
}

impl DocumentName {
    ghost use Rattle.tough_checks.specs.DocumentName.{name_of};

    /// The name of the targets, `targets.json`.
    pub fn targets(alloc: Global) -> Result<DocumentName, AllocError>
        ensures { IfOk result (λ name. name_of name ≡ targets_file) }
    {
        let text = String::from_str(alloc, "targets.json")?;
        Ok(DocumentName { text })
    }

    /// The name of a delegated document, as the file's name that it was fetched by. There is none for `root.json`,
    /// `timestamp.json`, `snapshot.json`, `targets.json` and `latest_known_time.json`: a document under one of these
    /// would stand in the place of a file that the vault or its targets need.
    pub fn delegated(file: String) -> Option<DocumentName>
        ensures { MatchOption result (IsReserved (string_bytes file))
            (λ name. (name_of name ≡ string_bytes file) × (IsReserved (string_bytes file) → ⊥)) }
    {
        let name = file.as_str();
        if name == "root.json"
            || name == "timestamp.json"
            || name == "snapshot.json"
            || name == "targets.json"
            || name == "latest_known_time.json"
        {
            return None;
        }
        Some(DocumentName { text: file })
    }

    /// The name.
    pub fn as_str(&self) -> &str
        ensures { result.now ≡ name_of self.now }
    {
        self.text.as_str()
    }
}
