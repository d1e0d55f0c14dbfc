//! Reading a pattern, a character at a time.
ghost use Rattle.std.specs.Prelude.{◌≡◌, ◌≢◌, OnOk, IfOk, IfErr, Some, None, [], ◌∷◌, false, chars, string_bytes};
ghost use Rattle.tough_names.specs.Grammar as grammar;
ghost use Rattle.tough_names.specs.Glob.{Part};
ghost use Rattle.tough_names.specs.Reader.{state_of};
ghost use Rattle.tough_names.specs.Items.{item_parts, literal, parts_of};

use crate::pattern::item::{CharSet, Item, Span};
use crate::pattern::matching::split_first;
use std::alloc::{AllocError, AllocFailed, Global};
use std::mem;
use thiserror::Error;

/// Why a text is no pattern.
#[derive(Debug, Drop, PartialEq, Eq, Error)]
pub enum PatternError {
    /// The text isn't of the grammar.
    #[error("Failed to parse path pattern as a glob")]
    Glob,
    #[error("out of memory")]
    Memory,
}

impl From<AllocError> for PatternError {
    ghost use Rattle.tough_names.specs.declared.pattern.reading.PatternError.TheVariants.{Memory};

    ghost from_gives = { λ _ e. e ≡ Memory };

    fn from(_: AllocError) -> PatternError {
        PatternError::Memory
    }
}

impl<T: Drop> From<AllocFailed<T>> for PatternError {
    ghost use Rattle.tough_names.specs.declared.pattern.reading.PatternError.TheVariants.{Memory};

    ghost from_gives = { λ _ e. e ≡ Memory };

    fn from(_: AllocFailed<T>) -> PatternError {
        PatternError::Memory
    }
}

/// Where the reader stands.
#[derive(Clone, Copy, Debug)]
pub(crate) enum Place {
    Outside,
    AfterRun,
    Escaped,
    /// Behind `[`.
    Opened,
    /// Behind `[!`.
    Negated,
    Between,
    /// Behind a character that may begin a range.
    Single(char),
    /// Behind a character and `-`.
    Range(char),
    /// Behind a last `-`.
    Ended,
}

/// What a character does.
#[derive(Clone, Copy, Debug)]
pub(crate) enum Action {
    Refuse,
    AddRun,
    AddAny,
    AddLiteral(char),
    Open,
    Negate,
    Go(Place),
    AddSpan(Span, Place),
    Close,
    CloseWith(Span),
    CloseWithDash(Span),
}

fn decide_outside(after_run: bool, c: char) -> Action
    ensures { result ≡ grammar.outside after_run c }
{
    match c {
        '*' if after_run => Action::Refuse,
        '*' => Action::AddRun,
        '?' => Action::AddAny,
        '[' => Action::Open,
        '\\' => Action::Go(Place::Escaped),
        '{' | '}' => Action::Refuse,
        _ => Action::AddLiteral(c),
    }
}

fn decide_first(c: char) -> Action
    ensures { result ≡ grammar.first_member c }
{
    match c {
        '-' => Action::AddSpan(Span::just('-'), Place::Between),
        ']' | '\\' => Action::Refuse,
        _ => Action::Go(Place::Single(c)),
    }
}

fn decide(place: Place, c: char) -> Action
    ensures { result ≡ grammar.decide place c }
{
    match place {
        Place::Outside => decide_outside(false, c),
        Place::AfterRun => decide_outside(true, c),
        Place::Escaped => Action::AddLiteral(c),
        Place::Opened => match c {
            '!' => Action::Negate,
            '^' => Action::Refuse,
            _ => decide_first(c),
        },
        Place::Negated => decide_first(c),
        Place::Between => match c {
            '-' => Action::AddSpan(Span::just('-'), Place::Ended),
            ']' => Action::Close,
            '\\' => Action::Refuse,
            _ => Action::Go(Place::Single(c)),
        },
        Place::Single(low) => match c {
            '-' => Action::Go(Place::Range(low)),
            ']' => Action::CloseWith(Span::just(low)),
            '\\' => Action::Refuse,
            _ => Action::AddSpan(Span::just(low), Place::Single(c)),
        },
        Place::Range(low) => match c {
            '-' => Action::Refuse,
            ']' => Action::CloseWithDash(Span::just(low)),
            '\\' => Action::Refuse,
            _ if low <= c => Action::AddSpan(
                Span {
                    first: low,
                    last: c,
                },
                Place::Between,
            ),
            _ => Action::Refuse,
        },
        Place::Ended => match c {
            ']' => Action::Close,
            _ => Action::Refuse,
        },
    }
}

/// The items so far, the plain characters after them, and the members of the open class.
#[derive(Drop)]
pub(crate) struct Reader {
    items: Vec<Item>,
    text: String,
    spans: Vec<Span>,
    negated: bool,
    place: Place,
}

impl Reader {
    // Makes the plain characters an item.
    fn end_text(&mut self, alloc: Global) -> Result<(), PatternError>
        ensures ok { OnOk result ((state_of self.new ≡ state_of self.old)
            × (string_bytes self.new.text ≡ [])) }
        ensures err { IfErr result (λ e. e ≡ PatternError.Memory) }
    {
        if self.text.is_empty() {
            return Ok(());
        }
        let text = mem::replace(&mut self.text, String::new(alloc));
        self.items.push(Item::Text(text))?;
        Ok(())
    }

    fn begin(&mut self, place: Place)
        ensures { state_of self.new ≡ record (state_of self.old) {
          spans = [];
          negated = false;
          place = place;
        } }
    {
        self.spans.clear();
        self.negated = false;
        self.place = place;
    }

    fn add(&mut self, alloc: Global, item: Item, place: Place) -> Result<(), PatternError>
        ensures ok { OnOk result ((part : Part) → item_parts item ≡ part ∷ []
            → state_of self.new ≡ grammar.with_part (state_of self.old) part place) }
        ensures err { IfErr result (λ e. e ≡ PatternError.Memory) }
    {
        self.end_text(alloc)?;
        self.items.push(item)?;
        self.begin(place);
        Ok(())
    }

    fn add_literal(&mut self, c: char) -> Result<(), PatternError>
        ensures ok { OnOk result (state_of self.new
            ≡ grammar.with_part (state_of self.old) (literal c) Place.Outside) }
        ensures err { IfErr result (λ e. e ≡ PatternError.Memory) }
    {
        self.text.push(c)?;
        self.begin(Place::Outside);
        Ok(())
    }

    /// Ends the open class.
    fn close(&mut self, alloc: Global) -> Result<(), PatternError>
        ensures ok { OnOk result (grammar.act (state_of self.old) Action.Close
            ≡ Some (state_of self.new)) }
        ensures err { IfErr result (λ e. e ≡ PatternError.Memory) }
    {
        let spans = mem::replace(&mut self.spans, Vec::new(alloc));
        let set = if self.negated {
            CharSet::NoneOf(spans)
        } else {
            CharSet::OneOf(spans)
        };
        self.add(alloc, Item::One(set), Place::Outside)
    }

    fn act(&mut self, alloc: Global, action: Action) -> Result<(), PatternError>
        ensures ok { OnOk result (grammar.act (state_of self.old) action
            ≡ Some (state_of self.new)) }
        ensures err { IfErr result
            (λ e. e ≢ PatternError.Memory → (e ≡ PatternError.Glob)
            × (grammar.act (state_of self.old) action ≡ None)) }
    {
        match action {
            Action::Refuse => Err(PatternError::Glob),
            Action::AddRun => self.add(alloc, Item::Run, Place::AfterRun),
            Action::AddAny => self.add(alloc, Item::One(CharSet::Any), Place::Outside),
            Action::AddLiteral(c) => self.add_literal(c),
            Action::Open => {
                self.spans.clear();
                self.negated = false;
                self.place = Place::Opened;
                Ok(())
            }
            Action::Negate => {
                self.negated = true;
                self.place = Place::Negated;
                Ok(())
            }
            Action::Go(place) => {
                self.place = place;
                Ok(())
            }
            Action::AddSpan(span, place) => {
                self.spans.push(span)?;
                self.place = place;
                Ok(())
            }
            Action::Close => self.close(alloc),
            Action::CloseWith(span) => {
                self.spans.push(span)?;
                self.close(alloc)
            }
            Action::CloseWithDash(span) => {
                self.spans.push(span)?;
                self.spans.push(Span::just('-'))?;
                self.close(alloc)
            }
        }
    }
}

impl Reader {
    fn new(alloc: Global) -> Reader
        ensures { state_of result ≡ grammar.start }
    {
        Reader {
            items: Vec::new(alloc),
            text: String::new(alloc),
            spans: Vec::new(alloc),
            negated: false,
            place: Place::Outside,
        }
    }

    /// The items, where the text may end here.
    fn finish(mut self, alloc: Global) -> Result<Vec<Item>, PatternError>
        ensures ok { IfOk result (λ items. grammar.finish (state_of self)
            ≡ Some (parts_of items.items)) }
        ensures err { IfErr result
            (λ e. e ≢ PatternError.Memory → (e ≡ PatternError.Glob)
            × (grammar.finish (state_of self) ≡ None)) }
    {
        match self.place {
            Place::Outside | Place::AfterRun => {
                self.end_text(alloc)?;
                Ok(self.items)
            }
            _ => Err(PatternError::Glob),
        }
    }
}

/// The items that a text spells.
pub(crate) fn read(alloc: Global, text: &str) -> Result<Vec<Item>, PatternError>
    ensures ok { IfOk result (λ items. grammar.parts_in (chars text.now)
        ≡ Some (parts_of items.items)) }
    ensures err { IfErr result
        (λ e. e ≢ PatternError.Memory → (e ≡ PatternError.Glob)
        × (grammar.parts_in (chars text.now) ≡ None)) }
{
    let mut reader = Reader::new(alloc);
    let mut rest = text;
    while let Some((c, tail)) = split_first(rest) {
        let action = decide(reader.place, c);
        reader.act(alloc, action)?;
        rest = tail;
    }
    reader.finish(alloc)
}
