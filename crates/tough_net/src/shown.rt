//! How texts stand before a reader.
ghost use Rattle.std.specs.Prelude.{◌≡◌, ◌<◌, Some, option_map};
ghost use Rattle.std.specs.Fmt.{WritesOnOk};
ghost use Rattle.std.specs.Option.{option_copied};
ghost use Rattle.tough_net.specs.Shown.{mark, printable, split, until, ahead, past, parts, shown};
ghost use Rattle.tough_net.specs.ShownParts.{parts_in};

use std::fmt;
use std::fmt::{Display, Formatter};

// The most characters of a text that are shown.
const MOST: usize = 1024;

// A character for a reader.
#[derive(Clone, Copy, Drop)]
struct Mark(char);

impl Display for Mark {
    ghost output = { λ m. Some (mark m.0) };

    fn fmt<W: fmt::Write>(&self, f: &mut Formatter<W>) -> fmt::Result {
        let c = self.0;
        if c.is_control() {
            let number = u32::from(c);
            write!(f, "\\u{{{number:x}}}")
        } else {
            f.write_char(c)
        }
    }
}

/// A text for a reader: a control character is told by its number, as `\u{1b}`, and behind 1,024 characters `...` stands for
/// the others.
#[derive(Clone, Copy, Drop)]
pub struct Printable<'a>(pub &'a str);

impl Display for Printable<'_> {
    ghost output = { λ t. Some (printable t.0.now) };

    fn fmt<W: fmt::Write>(&self, f: &mut Formatter<W>) -> fmt::Result {
        write_printable(self.0, f)
    }
}

// Writes the first characters, and dots for the others.
fn write_printable<W: fmt::Write>(text: &str, f: &mut Formatter<W>) -> fmt::Result
    ensures { WritesOnOk W.write_str_gives f.old result (printable text.now) f.new }
{
    let mut rest = text.chars();
    for _shown in 0..MOST {
        let Some(c) = rest.next() else {
            return Ok(());
        };
        let mark = Mark(c);
        write!(f, "{mark}")?;
    }
    match rest.next() {
        Some(_) => f.write_str("..."),
        None => Ok(()),
    }
}

// The parts of a URL's text that has a password.
#[derive(Clone, Copy, Drop)]
struct Parts<'a> {
    scheme: &'a str,
    user: &'a str,
    // All that stands behind the password.
    behind: &'a str,
}

// Up to the first such character, and behind it.
fn split(text: &str, mark: char) -> Option<(&str, &str)>
    requires { mark < 128 }
    ensures { option_map (λ both. (both.0.now, both.1.now)) result ≡ split mark text.now }
{
    text.split_once(mark)
}

// Up to the first such character, or all.
fn until(text: &str, mark: char) -> &str
    requires { mark < 128 }
    ensures { result.now ≡ until mark text.now }
{
    match text.split_once(mark) {
        Some((before, _)) => before,
        None => text,
    }
}

// Up to the last such character.
fn ahead(text: &str, mark: char) -> Option<&str>
    requires { mark < 128 }
    ensures { option_copied result ≡ ahead mark text.now }
{
    match text.rsplit_once(mark) {
        Some((before, _)) => Some(before),
        None => None,
    }
}

// Behind this beginning.
fn past<'a>(front: &str, text: &'a str) -> Option<&'a str>
    ensures { option_copied result ≡ past front.now text.now }
{
    text.strip_prefix(front)
}

impl<'a> Parts<'a> {
    // None where the text isn't a URL's, or has no password.
    fn of(text: &'a str) -> Option<Parts<'a>>
        ensures { option_map parts_in result ≡ parts text.now }
    {
        let (scheme, rest) = split(text, ':')?;
        let rest = past("//", rest)?;
        let authority = until(until(until(rest, '/'), '?'), '#');
        let info = ahead(authority, '@')?;
        let (user, _) = split(info, ':')?;
        let behind = past(info, rest)?;
        Some(Parts {
            scheme,
            user,
            behind,
        })
    }
}

/// The text of a URL for a reader: printable, and with `***` in the place of a password (RFC 3986, section 3.2.1).
#[derive(Clone, Copy, Drop)]
pub struct Shown<'a>(pub &'a str);

impl Display for Shown<'_> {
    ghost output = { λ t. Some (shown t.0.now) };

    fn fmt<W: fmt::Write>(&self, f: &mut Formatter<W>) -> fmt::Result {
        match Parts::of(self.0) {
            Some(found) => {
                let (scheme, user) = (Printable(found.scheme), Printable(found.user));
                let behind = Printable(found.behind);
                write!(f, "{scheme}://{user}:***{behind}")
            }
            None => {
                let text = Printable(self.0);
                write!(f, "{text}")
            }
        }
    }
}
