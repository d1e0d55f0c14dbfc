//! The journal as all threads may know it: a history that only grows, kept by the proofs alone.

ghost use Rattle.std.specs.Prelude.{◌≡◌, ◌≢◌, ◌<◌, ◌-◌, ◌^◌, [], ◌∷◌, ◌++◌, List, length, Some, IfSome, slice_get, true};
ghost use mathlib.Core.List.{IsPrefix};
ghost use Rattle.tough_vault.specs.Journal.{Note, note_of, entry_of};
ghost use Rattle.logbook.specs.Pages.{may_write};
ghost use Rattle.tough_shared.specs.Lines.{is_open, line_of, line_added, history, begun_in, entry_at, told};
ghost use Rattle.tough_shared.specs.Rules.{head_of, turn_of};
ghost use Rattle.tough_shared.specs.declared.line.Line.TheVariants.{Begun, End};

use crate::line::{Addition, Mark};
use crate::spare::{Spare, Tally};
use logbook::{Gain, Offer, Pen, Plain, Play, Rule, Seen, Start, Word};
use std::marker::{Brand, PhantomData};
use std::sync::ledger::{Blank, Book};
use tough_vault::{Receipt, Store};

/// The rule of the history.
pub(crate) struct Law;

impl Rule<Mark, u64> for Law {
    ghost use Rattle.std.specs.Prelude.{[]};
    ghost use base.Fml.{ftrue};
    ghost use Rattle.tough_shared.specs.Rules.{IsKept};

    ghost holds = { λ cells log. IsKept cells log };

    ghost first = { [] };

    ghost hinted = { λ n log. Unit {0} };

    ghost shows = { λ log. [] };

    ghost keeps = { λ names log. ftrue };

    ghost moves = { λ ask before after answer. Unit {0} };
}

/// Callers trade nothing.
pub(crate) struct Nothing;

impl Gain<Mark, u64> for Nothing {
    ghost use base.Fml.{ftrue};

    ghost after = { λ names about answer. ftrue };
}

/// What is added first, and the pen that adds the next line.
#[derive(Drop)]
pub(crate) struct Opening<'a, S: Store> {
    store: &'a S,
    next: &'a Pen,
}

/// What is added, and the pen that adds the next line.
#[derive(Drop)]
pub(crate) struct Handing<'a> {
    line: &'a Addition,
    next: &'a Pen,
}

/// A step that adds the first line.
pub(crate) struct Open;

impl Play<Mark, u64> for Open {
    ghost use Rattle.tough_shared.specs.Rules.{Opens};

    ghost then = { Opens };
}

impl<'a, S: Store> Plain<Opening<'a, S>, Mark, u64> for Open {
    ghost use Rattle.std.specs.Prelude.{None};
    ghost use Rattle.tough_shared.specs.Lines.{mark};
    ghost use Rattle.tough_shared.specs.declared.line.Line.TheVariants.{Begun};

    ghost ask = { λ o. mark (Begun (S.changes o.store.now)) o.next.now.nib.key };

    ghost state = { λ o. None };
}

/// A step that adds a line.
pub(crate) struct Add;

impl Play<Mark, u64> for Add {
    ghost use Rattle.tough_shared.specs.Rules.{Adds};

    ghost then = { Adds };
}

impl<'a> Plain<Handing<'a>, Mark, u64> for Add {
    ghost use Rattle.std.specs.Prelude.{None};
    ghost use Rattle.tough_shared.specs.Lines.{mark, line_added};

    ghost ask = { λ h. mark (line_added h.line.now) h.next.now.nib.key };

    ghost state = { λ h. None };
}

/// A step that draws a pen.
pub(crate) struct Draw;

impl Play<Mark, u64> for Draw {
    ghost use Rattle.tough_shared.specs.Rules.{Draws};

    ghost then = { Draws };
}

/// A step that looks at the history.
pub(crate) struct Look;

impl Play<Mark, u64> for Look {
    ghost use Rattle.tough_shared.specs.Rules.{Sees};

    ghost then = { Sees };
}

/// Of a step that adds nothing.
impl Plain<(), Mark, u64> for Look {
    ghost use Rattle.std.specs.Prelude.{None};
    ghost use Rattle.tough_shared.specs.Lines.{mark};
    ghost use Rattle.tough_shared.specs.declared.line.Line.TheVariants.{End};

    ghost ask = { λ u. mark End 0 };

    ghost state = { λ u. None };
}

/// Which history it is: what ties a receipt to its store. Each call of a program picks it; `Brand` serves.
pub trait Naming {
    ghost use Rattle.tough_shared.specs.Histories.{History};

    ghost book: { History };
}

impl Naming for Brand {
    ghost book = { record {
      pages = record { number = 0; log_name = 0; cells_name = 0 };
      ledger =
          0;
    } };
}

/// An empty history, which has no name yet. A shared store begins with one.
pub struct Opened {
    head: Word<Mark, u64, Law>,
    seen: Seen<Mark, u64, Law>,
    blank: Blank,
    ghost empty: { seen.log ≡ [] },
    ghost head_is: { head ≡ head_of seen.book },
    ghost parts: { blank.parts ≡ 2 ^ 64 - 1 },
}

/// A history under a name: its head, what is seen of it, and the count of its entries by who made them.
pub(crate) struct Named<J: Naming> {
    pub(crate) head: Head<J>,
    pub(crate) front: Front<J>,
    pub(crate) book: Book<Tally<J>>,
    pub(crate) spare: Spare<J>,
    pub(crate) licence: Licence<J>,
}

impl Opened {
    ghost use Rattle.tough_shared.specs.Opened.{book_of};

    /// An empty history.
    pub fn new() -> Opened {
        let (seen, mut first, _second) = Seen::open(Start::alone(), 0, 0);
        Opened {
            head: Word::tracked(0, &mut first),
            seen,
            blank: Blank::new(u64::MAX),
        }
    }

    /// The history under a name.
    pub(crate) fn named<J: Naming>(self) -> Named<J>
        requires { book_of self ≡ J.book }
        ensures front { result.front.seen.log ≡ [] }
        ensures book { result.book.total ≡ 0 }
    {
        let Opened { head, seen, blank } = self;
        let (book, share) = blank.open::<Tally<J>>();
        Named {
            head: Head {
                word: head,
                of: PhantomData,
            },
            front: Front {
                seen,
                of: PhantomData,
            },
            book,
            spare: Spare::new(share),
            licence: Licence { of: PhantomData },
        }
    }
}

/// The leave to take steps that no keeper counts.
#[derive(Drop)]
pub(crate) struct Licence<J: Naming> {
    of: PhantomData<J>,
}

impl<J: Naming> Licence<J> {
    /// A copy.
    pub(crate) fn again(&self) -> Licence<J> {
        Licence { of: PhantomData }
    }

    /// Puts it away, while a keeper has the store.
    pub(crate) fn park(self) -> Parked<J> {
        Parked { licence: self }
    }
}

/// A licence that no step can use.
#[derive(Drop)]
pub(crate) struct Parked<J: Naming> {
    licence: Licence<J>,
}

impl<J: Naming> Parked<J> {
    /// The licence, which gives this up.
    pub(crate) fn into_licence(self) -> Licence<J> {
        let Parked { licence } = self;
        licence
    }
}

/// The word through which all steps go. It tells whether the history has begun.
#[derive(Drop)]
pub(crate) struct Head<J: Naming> {
    word: Word<Mark, u64, Law>,
    of: PhantomData<J>,
    ghost word_is: { word ≡ head_of J.book.pages },
}

impl<J: Naming> Head<J> {
    // A new pen.
    fn draw(&self, front: &Front<J>) -> Pen
        ensures book { result.book ≡ J.book.pages }
        ensures right { result.nib.right ≡ may_write }
        ensures key { 0 < result.nib.key }
    {
        let mut seen = front.seen.again();
        let mut offer: Offer<Mark, u64, Law, Nothing> = seen.plain::<Nothing, (), Look>(&());
        let mut pen = seen.no_pen();
        self.word
            .compare_exchange::<Draw, Nothing>(0, 0, &mut seen, &mut offer, &mut pen);
        let _ = Word::<Mark, u64, Law>::tracked(0, &mut pen);
        pen
    }
}

/// A beginning of the history that was seen.
#[derive(Drop)]
pub(crate) struct Front<J: Naming> {
    pub(crate) seen: Seen<Mark, u64, Law>,
    of: PhantomData<J>,
    ghost book_is: { seen.book ≡ J.book.pages },
}

impl<J: Naming> Front<J> {
    /// A copy.
    pub(crate) fn again(&self) -> Front<J>
        ensures { result.seen.log ≡ self.now.seen.log }
    {
        Front {
            seen: self.seen.again(),
            of: PhantomData,
        }
    }

    /// Begins an empty history with how often the store has been changed.
    pub(crate) fn begin<S: Store>(self, head: &Head<J>, store: &S) -> Option<Tail<J>>
        requires { self.seen.log ≡ [] }
        ensures { IfSome result (λ t. told t.front.seen.log ≡ Begun (S.changes store.now) ∷ []) }
    {
        let next = head.draw(&self);
        let Front { mut seen, of: _ } = self;
        let opening = Opening { store, next: &next };
        let mut offer: Offer<Mark, u64, Law, Nothing> = seen.plain::<Nothing, Opening<'_, S>, Open>(
            &opening,
        );
        let mut pen = seen.no_pen();
        let found = head
            .word
            .compare_exchange::<Open, Nothing>(0, 1, &mut seen, &mut offer, &mut pen);
        if found != 0 {
            return None;
        }
        Some(grown(seen, next))
    }

    /// Two fronts of one history begin alike. It does nothing when it runs.
    pub(crate) fn begins_as(&self, other: &Front<J>)
        requires this { self.now.seen.log ≢ [] }
        requires that { other.now.seen.log ≢ [] }
        ensures { begun_in (told self.now.seen.log) ≡ begun_in (told other.now.seen.log) }
    {
        let mut both = self.seen.again();
        both.learn(&other.seen);
    }

    /// In a history that has ended, what another front has seen stands at the same place. It does nothing when it runs.
    pub(crate) fn has_entry(&self, other: &Front<J>, number: u64, receipt: &Receipt)
        requires { entry_at (told other.now.seen.log) number
            ≡ Some (line_of (note_of (entry_of receipt.now))) }
        ensures { (ns : List Note)
            → told self.now.seen.log
            ≡ history (begun_in (told self.now.seen.log)) ns ++ End ∷ []
            → slice_get ns number ≡ Some (note_of (entry_of receipt.now)) }
    {
        let mut both = self.seen.again();
        both.learn(&other.seen);
    }
}

/// The end of the history, which its owner alone lengthens.
#[derive(Drop)]
pub(crate) struct Tail<J: Naming> {
    pub(crate) front: Front<J>,
    pen: Pen,
    ghost some: { front.seen.log ≢ [] },
    ghost pen_is: { pen.book ≡ J.book.pages },
    ghost right: { pen.nib.right ≡ may_write },
    ghost key: { 0 < pen.nib.key },
    ghost turn: { turn_of front.seen.log ≡ pen.nib.key },
}

impl<J: Naming> Tail<J> {
    /// What was seen, which nothing is added to any more.
    pub(crate) fn into_front(self) -> Front<J>
        ensures { result.seen.log ≡ self.front.seen.log }
    {
        let Tail { front, pen: _ } = self;
        front
    }

    /// Adds a line.
    pub(crate) fn add(&mut self, head: &Head<J>, line: &Addition)
        requires { is_open (told self.old.front.seen.log) ≡ true }
        ensures { told self.new.front.seen.log ≡ told self.old.front.seen.log ++ line_added line.now ∷ [] }
    {
        let next = head.draw(&self.front);
        let mut seen = self.front.seen.again();
        let handing = Handing { line, next: &next };
        let mut offer: Offer<Mark, u64, Law, Nothing> = seen.plain::<Nothing, Handing<'_>, Add>(
            &handing,
        );
        let Tail { front, pen } = self;
        head.word
            .compare_exchange::<Add, Nothing>(1, 1, &mut seen, &mut offer, pen);
        *front = Front {
            seen,
            of: PhantomData,
        };
        *pen = next;
    }

    /// Shows all of the history to `me`, which had seen no more.
    pub(crate) fn show(&mut self, head: &Head<J>, me: &mut Front<J>)
        ensures begins { IsPrefix (told me.old.seen.log) (told self.old.front.seen.log) }
        ensures same { me.new.seen.log ≡ self.old.front.seen.log }
        ensures whole { self.new.front.seen.log ≡ self.old.front.seen.log }
    {
        let mut seen = self.front.seen.again();
        seen.learn(&me.seen);
        let mut offer: Offer<Mark, u64, Law, Nothing> = seen.plain::<Nothing, (), Look>(&());
        let Tail { front, pen } = self;
        head.word
            .compare_exchange::<Look, Nothing>(1, 1, &mut seen, &mut offer, pen);
        *me = front.again();
    }
}

fn grown<J: Naming>(seen: Seen<Mark, u64, Law>, pen: Pen) -> Tail<J>
    requires book { seen.book ≡ J.book.pages }
    requires some { seen.log ≢ [] }
    requires pen { pen.book ≡ J.book.pages }
    requires right { pen.nib.right ≡ may_write }
    requires key { 0 < pen.nib.key }
    requires turn { turn_of seen.log ≡ pen.nib.key }
    ensures { result.front.seen.log ≡ seen.log }
{
    Tail {
        front: Front {
            seen,
            of: PhantomData,
        },
        pen,
    }
}
