//! Matching a text, with constant memory.
ghost use Rattle.std.specs.Prelude.{◌≡◌, ◌↔◌, ◌++◌, List, MatchOption, IsTrue, chars, [], length, true};
ghost use Rattle.tough_names.specs.Glob.{Fits, Part, accepts, is_one_of, is_in};
ghost use Rattle.tough_names.specs.Items.{is_negated, literals, parts_of, spans_of};
ghost use Rattle.tough_names.specs.Steps.{Seeks, Steps, IsTail};

use crate::pattern::item::{CharSet, Item, Span};

/// What the first item and the first character allow.
pub(crate) enum Step<'a> {
    /// The items fit the text.
    Done,
    /// The first item is a run; these items follow it.
    Widen(&'a [Item]),
    /// The first item takes the text's beginning; these items and this text follow.
    Advance(&'a [Item], &'a str),
    /// The items don't fit the text.
    Stuck,
}

/// The first character, and the text after it.
pub(crate) fn split_first(text: &str) -> Option<(char, &str)>
    ensures { MatchOption result (chars text.now ≡ [])
        (λ found. IsTail text.now found.1.now found.0) }
{
    let mut rest = text.chars();
    let first = rest.next()?;
    Some((first, rest.as_str()))
}

impl Span {
    fn contains(self, c: char) -> bool
        ensures { result ≡ is_in c self }
    {
        self.first <= c && c <= self.last
    }
}

fn is_one_of_spans(spans: &[Span], c: char) -> bool
    ensures { result ≡ is_one_of spans.now c }
{
    spans.iter().any(|span| span.contains(c))
}

impl CharSet {
    fn contains(&self, c: char) -> bool
        ensures { result ≡ accepts (is_negated self.now) (spans_of self.now) c }
    {
        match self {
            CharSet::Any => true,
            CharSet::OneOf(spans) => is_one_of_spans(spans, c),
            CharSet::NoneOf(spans) => !is_one_of_spans(spans, c),
        }
    }
}

fn next_step<'a>(items: &'a [Item], text: &'a str) -> Step<'a>
    ensures { Steps items.now text.now result }
{
    match items.split_first() {
        None => {
            if text.is_empty() {
                Step::Done
            } else {
                Step::Stuck
            }
        }
        Some((Item::Run, after)) => {
            if after.is_empty() {
                Step::Done
            } else {
                Step::Widen(after)
            }
        }
        Some((Item::Text(plain), after)) => match text.strip_prefix(plain.as_str()) {
            Some(tail) => Step::Advance(after, tail),
            None => Step::Stuck,
        },
        Some((Item::One(set), after)) => match split_first(text) {
            Some((c, tail)) if set.contains(c) => Step::Advance(after, tail),
            _ => Step::Stuck,
        },
    }
}

// The text from the first place on where these characters stand.
fn first_place<'a>(plain: &str, text: &'a str) -> Option<&'a str>
    ensures { (parts : List Part) → Seeks (literals (chars plain.now) ++ parts) text.now result }
{
    match text.find(plain) {
        Some(at) => Some(&text[at..]),
        None => None,
    }
}

// The text from the last place on where these characters stand, if they end it.
fn last_place<'a>(plain: &str, text: &'a str) -> Option<&'a str>
    ensures { Seeks (literals (chars plain.now)) text.now result }
{
    if text.ends_with(plain) {
        Some(&text[text.len() - plain.len()..])
    } else {
        None
    }
}

/// Where the items may begin to fit behind a run. Plain characters are searched for in time in step with them and the text.
fn seek<'a>(items: &[Item], text: &'a str) -> Option<&'a str>
    ensures { Seeks (parts_of items.now) text.now result }
{
    match items.split_first() {
        Some((Item::Text(plain), after)) => {
            if after.is_empty() {
                last_place(plain.as_str(), text)
            } else {
                first_place(plain.as_str(), text)
            }
        }
        _ => Some(text),
    }
}

/// Whether the items fit the text. Between two runs, plain characters cost their own number and that of the characters they are sought
/// in; items that hold others may cost the product.
pub(crate) fn fits(items: &[Item], text: &str) -> bool
    ensures { IsTrue result ↔ Fits (parts_of items.now) (chars text.now) }
{
    let mut left = items;
    let mut rest = text;
    let mut retry: Option<(&[Item], &str)> = None;
    loop {
        match next_step(left, rest) {
            Step::Done => return true,
            Step::Widen(after) => {
                let Some(from) = seek(after, rest) else {
                    return false;
                };
                left = after;
                rest = from;
                retry = Some((after, from));
            }
            Step::Advance(after, tail) => {
                left = after;
                rest = tail;
            }
            Step::Stuck => {
                let Some((after, from)) = retry else {
                    return false;
                };
                let Some((_, tail)) = split_first(from) else {
                    return false;
                };
                let Some(again) = seek(after, tail) else {
                    return false;
                };
                left = after;
                rest = again;
                retry = Some((after, again));
            }
        }
    }
}
