//! The history of a board, which only grows, and beginnings of it that were seen.

ghost use Rattle.std.specs.Prelude.{◌≡◌, ◌+◌, ◌==◌, ◌<◌, ◌^◌, ◌++◌, ◌∷◌, [], length, MatchBool};
ghost use mathlib.Core.List.{IsPrefix};
ghost use Rattle.topic_board.specs.Rules.{IsLonger, head_of};

use logbook::{Gain, Offer, Plain, Play, Rule, Seen, Start, Word};
use std::marker::{Brand, Model, PhantomData};
use topic_core::Transition;

/// The rule of the book: its word is the length of the history.
pub struct Law;

impl Rule<Transition, u64> for Law {
    ghost use Rattle.std.specs.Prelude.{[]};
    ghost use base.Fml.{ftrue};
    ghost use Rattle.topic_board.specs.Rules.{IsKept};

    ghost holds = { λ cells log. IsKept cells log };

    ghost first = { [] };

    ghost hinted = { λ n log. Unit {0} };

    ghost shows = { λ log. [] };

    ghost keeps = { λ names log. ftrue };

    ghost moves = { λ ask before after answer. Unit {0} };
}

/// Callers trade nothing.
pub struct Nothing;

impl Gain<Transition, u64> for Nothing {
    ghost use base.Fml.{ftrue};

    ghost after = { λ names about answer. ftrue };
}

/// A step that adds a transition.
pub struct Add;

impl Play<Transition, u64> for Add {
    ghost use Rattle.topic_board.specs.Rules.{Adds};

    ghost then = { Adds };
}

/// What a step asks for.
impl Plain<Transition, Transition, u64> for Add {
    ghost use Rattle.std.specs.Prelude.{None};

    ghost ask = { λ t. t };

    ghost state = { λ t. None };
}

/// Which board it is. Each call of a program that makes a board picks it.
pub trait Naming {
    ghost use Rattle.logbook.specs.Pages.{Book};

    ghost book: { Book };
}

impl Naming for Brand {
    ghost book = { record { number = 0; log_name = 0; cells_name = 0 } };
}

/// A book with an empty history, which stands for no board yet. Contracts see which book it is.
pub struct Opened {
    head: Word<Transition, u64, Law>,
    seen: Seen<Transition, u64, Law>,
}

impl Model for Opened {
    ghost use Rattle.std.specs.Prelude.{◌≡◌, []};
    ghost use Rattle.logbook.specs.Pages.{Book};
    ghost use Rattle.topic_board.specs.Rules.{head_of};

    ghost Value = { Book };

    ghost view = { λ o. o.seen.book };

    ghost invariant = { λ o. (o.seen.log ≡ []) × (o.head ≡ head_of o.seen.book) };
}

impl Opened {
    /// A book of its own.
    pub fn new() -> Opened {
        let (seen, mut first, _second) = Seen::open(Start::alone(), 0, 0);
        Opened {
            head: Word::tracked(0, &mut first),
            seen,
        }
    }

    /// The book of the board, and the front that has seen nothing.
    pub(crate) fn named<J: Naming>(self) -> (Book<J>, Front<J>)
        requires { self ≡ J.book }
        ensures { result.1 ≡ [] }
    {
        let Opened { head, seen } = self;
        (
            Book {
                head,
                of: PhantomData,
            },
            Front {
                count: 0,
                seen,
                of: PhantomData,
            },
        )
    }
}

/// The word that holds the length of the history.
#[derive(Drop)]
pub(crate) struct Book<J: Naming> {
    head: Word<Transition, u64, Law>,
    of: PhantomData<J>,
    ghost head_is: { head ≡ head_of J.book },
}

/// A beginning of a board's history that was seen. It keeps no transition, only how many there are; contracts
/// see the transitions.
#[derive(Drop)]
pub struct Front<J: Naming> {
    count: u64,
    seen: Seen<Transition, u64, Law>,
    of: PhantomData<J>,
}

impl<J: Naming> Model for Front<J> {
    ghost use Rattle.std.specs.Prelude.{◌≡◌, List, length};
    ghost use Rattle.topic_core.specs.declared.transition.Transition.{Transition};

    ghost Value = { List Transition };

    ghost view = { λ f. f.seen.log };

    ghost invariant = { λ f. (f.count ≡ length f.seen.log) × (f.seen.book ≡ J.book) };
}

impl<J: Naming> Front<J> {
    /// How many transitions it has.
    pub fn len(&self) -> u64
        ensures { result ≡ length self.now }
    {
        self.count
    }

    /// The same beginning again. It takes no memory.
    pub fn again(&self) -> Front<J>
        ensures { result ≡ self.now }
    {
        Front {
            count: self.count,
            seen: self.seen.again(),
            of: PhantomData,
        }
    }

    /// Whether the other begins with this one. Else it begins this one.
    pub fn begins(&self, other: &Front<J>) -> bool
        ensures { MatchBool result (IsPrefix self.now other.now) (IsPrefix other.now self.now) }
    {
        let mut both = self.seen.again();
        both.learn(&other.seen);
        if self.count > other.count {
            return false;
        }
        true
    }

    /// Adds a transition to all that was seen, and says whether it did. It did not where the history is
    /// longer.
    pub(crate) fn add(&mut self, book: &Book<J>, transition: &Transition) -> bool
        requires { length self.old < 2 ^ 62 }
        ensures { MatchBool result (self.new ≡ self.old ++ transition.now ∷ [])
            (IsLonger self.old self.new) }
    {
        let mut offer: Offer<Transition, u64, Law, Nothing> = self
            .seen
            .plain::<Nothing, Transition, Add>(transition);
        let mut pen = self.seen.no_pen();
        let count = self.count;
        let found = book
            .head
            .compare_exchange::<Add, Nothing>(
                count,
                count + 1,
                &mut self.seen,
                &mut offer,
                &mut pen,
            );
        self.count = if found == count { count + 1 } else { found };
        found == count
    }
}
