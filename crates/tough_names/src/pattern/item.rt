//! What a pattern is made of.
ghost use Rattle.std.specs.Prelude.{◌≡◌};
ghost use Rattle.tough_names.specs.Items.{just};

use std::alloc::{AllocError, Global};

/// The characters from `first` to `last`, both included.
#[derive(Clone, Copy, Debug)]
pub(crate) struct Span {
    pub(crate) first: char,
    pub(crate) last: char,
}

/// Which characters may stand in one place.
#[derive(Debug, Drop)]
pub(crate) enum CharSet {
    Any,
    OneOf(Vec<Span>),
    NoneOf(Vec<Span>),
}

/// A part of a pattern.
#[derive(Debug, Drop)]
pub(crate) enum Item {
    Run,
    One(CharSet),
    /// These characters, one after another.
    Text(String),
}

impl Clone for CharSet {
    ghost use Rattle.tough_names.specs.Items.{set_part};

    ghost is_clone = { λ x y. set_part y ≡ set_part x };

    fn clone(&self) -> Result<CharSet, AllocError> {
        Ok(match self {
            CharSet::Any => CharSet::Any,
            CharSet::OneOf(spans) => CharSet::OneOf(spans.clone()?),
            CharSet::NoneOf(spans) => CharSet::NoneOf(spans.clone()?),
        })
    }
}

impl Clone for Item {
    ghost use Rattle.tough_names.specs.Items.{item_parts};

    ghost is_clone = { λ x y. item_parts y ≡ item_parts x };

    fn clone(&self) -> Result<Item, AllocError> {
        Ok(match self {
            Item::Run => Item::Run,
            Item::One(set) => Item::One(set.clone()?),
            Item::Text(text) => Item::Text(text.clone()?),
        })
    }
}

impl Span {
    pub(crate) fn just(c: char) -> Span
        ensures { result ≡ just c }
    {
        Span { first: c, last: c }
    }
}
