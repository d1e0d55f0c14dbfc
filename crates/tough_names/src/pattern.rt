//! Patterns.
ghost use Rattle.std.specs.Prelude.{◌≡◌, ◌≢◌, ◌↔◌, IsTrue, IfOk, IfErr, chars, string_bytes, bytes_eq};
ghost use Rattle.std.proofs.Common.{rules};
ghost use Rattle.std.specs.Cmp.Rules.{comparing};

mod begins;
mod item;
mod matching;
mod reading;

use crate::TargetName;
use crate::pattern::begins::begin_alike;
use crate::pattern::item::Item;
use crate::pattern::matching::fits;
pub use crate::pattern::reading::PatternError;
use crate::pattern::reading::read;
use std::alloc::{AllocError, Global};
use std::marker::Model;

/// A pattern over resolved names (TUF specification 1.0, section 4.5, PATHPATTERN): `*` is any run of
/// characters, `?` any one, `[a-z_]` one of a class, `[!a-z]` one outside it, and `\\c` the character `c`. All of
/// them take `/` too. Patterns are equal by their text.
#[derive(Debug, Drop)]
pub struct PathPattern {
    text: String,
    items: Vec<Item>,
}

impl Model for PathPattern {
    ghost use Rattle.std.specs.Prelude.{◌≡◌, List, ℕ, Some, string_bytes, chars};
    ghost use Rattle.tough_names.specs.Grammar.{parts_in};
    ghost use Rattle.tough_names.specs.Items.{parts_of};

    ghost Value = { List ℕ };

    ghost view = { λ p. string_bytes p.text };

    ghost invariant = { λ p. parts_in (chars (string_bytes p.text))
        ≡ Some (parts_of p.items.items) };
}

impl PathPattern {
    ghost use Rattle.tough_names.specs.Spelling.{IsPattern, Matches};

    /// The pattern that a text is.
    pub fn new(alloc: Global, text: String) -> Result<PathPattern, PatternError>
        ensures value { IfOk result (λ pattern. pattern ≡ string_bytes text) }
        ensures accepts { IfOk result (λ _. IsPattern (chars (string_bytes text))) }
        ensures refuses { IfErr result
            (λ e. e ≢ PatternError.Memory → (e ≡ PatternError.Glob)
            × (IsPattern (chars (string_bytes text)) → ⊥)) }
    {
        let items = read(alloc, text.as_str())?;
        Ok(PathPattern { text, items })
    }

    /// The pattern that a text is.
    pub fn from_str(alloc: Global, text: &str) -> Result<PathPattern, PatternError>
        ensures value { IfOk result (λ pattern. pattern ≡ text.now) }
        ensures accepts { IfOk result (λ _. IsPattern (chars text.now)) }
        ensures refuses { IfErr result (λ e. e ≢ PatternError.Memory
            → (e ≡ PatternError.Glob) × (IsPattern (chars text.now) → ⊥)) }
    {
        PathPattern::new(alloc, String::from_str(alloc, text)?)
    }

    /// The text, which is a pattern.
    pub fn value(&self) -> &str
        ensures text { result.now ≡ self.now }
        ensures pattern { IsPattern (chars self.now) }
    {
        self.text.as_str()
    }

    /// Whether the pattern fits the whole resolved name. It takes no memory. Plain characters between two `*` cost time in step with them
    /// and the name; what stands there with `?` or a class may cost its own length times the name's.
    pub fn matches(&self, name: &TargetName) -> bool
        ensures { IsTrue result ↔ Matches (chars self.now) (chars name.now.resolved) }
    {
        if !begin_alike(self.value().as_bytes(), name.resolved().as_bytes()) {
            return false;
        }
        fits(self.items.as_slice(), name.resolved())
    }
}

impl Clone for PathPattern {
    ghost is_clone = { λ x y. y ≡ x };

    fn clone(&self) -> Result<PathPattern, AllocError> {
        Ok(PathPattern {
            text: self.text.clone()?,
            items: self.items.clone()?,
        })
    }
}

impl PartialEq for PathPattern {
    ghost eq = { bytes_eq };

    ghost laws = { Prim.search (comparing, rules) };

    fn eq(&self, other: &PathPattern) -> bool {
        self.text == other.text
    }
}

impl Eq for PathPattern {
    ghost laws = { Prim.search (comparing, rules) };
}
