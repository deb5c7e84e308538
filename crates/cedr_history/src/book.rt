//! A history that only grows, which exists in proofs alone, and its beginnings that were seen.
ghost use Rattle.std.specs.Prelude.{◌≡◌, ◌+◌, ◌==◌, ◌<◌, ◌≤◌, ◌^◌, ◌++◌, ◌∷◌, ◌⊎◌, [], length, MatchBool};
ghost use mathlib.Core.List.{IsPrefix};
ghost use Rattle.cedr_history.specs.Sights.{SightBegins};
ghost use Rattle.cedr_history.specs.Rules.{head_of};

use crate::step::Step;
use logbook::{Gain, Offer, Plain, Play, Rule, Seen, Start, Word};
use std::marker::Model;

/// The rule of the book.
pub struct Law;

impl Rule<Step, u64> for Law {
    ghost use Rattle.std.specs.Prelude.{[]};
    ghost use base.Fml.{ftrue};
    ghost use Rattle.cedr_history.specs.Rules.{IsKept};

    ghost holds = { λ cells log. IsKept cells log };

    ghost first = { [] };

    ghost hinted = { λ n log. Unit {0} };

    ghost shows = { λ log. [] };

    ghost keeps = { λ names log. ftrue };

    ghost moves = { λ ask before after answer. Unit {0} };
}

/// Callers trade nothing.
pub struct Nothing;

impl Gain<Step, u64> for Nothing {
    ghost use base.Fml.{ftrue};

    ghost after = { λ names about answer. ftrue };
}

/// A step that adds an entry.
pub struct Add;

impl Play<Step, u64> for Add {
    ghost use Rattle.cedr_history.specs.Rules.{Adds};

    ghost then = { Adds };
}

/// What a step asks for: the entry.
impl Plain<Step, Step, u64> for Add {
    ghost use Rattle.std.specs.Prelude.{None};

    ghost ask = { λ step. step };

    ghost state = { λ step. None };
}

/// The word of a history, its length. Who has it adds to the history.
pub type Head = Word<Step, u64, Law>;

/// A beginning of the history that was seen. Contracts see its book and its steps.
#[derive(Drop)]
pub struct Front {
    count: u64,
    seen: Seen<Step, u64, Law>,
}

impl Model for Front {
    ghost use Rattle.std.specs.Prelude.{◌≡◌, length};
    ghost use Rattle.cedr_history.specs.Sights.{Sight};

    ghost Value = { Sight };

    ghost view = { λ f. record { book = f.seen.book; steps = f.seen.log } };

    ghost invariant = { λ f. f.count ≡ length f.seen.log };
}

/// A new history, with no step.
pub fn open() -> (Head, Front)
    ensures head { result.0 ≡ head_of result.1.book }
    ensures empty { result.1.steps ≡ [] }
{
    let (seen, mut first, _second) = Seen::open(Start::alone(), 0, 0);
    (Word::tracked(0, &mut first), Front { count: 0, seen })
}

impl Front {
    /// How many steps it has.
    pub fn len(&self) -> u64
        ensures { result ≡ length self.now.steps }
    {
        self.count
    }

    /// A copy.
    pub fn again(&self) -> Front
        ensures { result ≡ self.now }
    {
        Front {
            count: self.count,
            seen: self.seen.again(),
        }
    }

    /// The longer of two fronts of one history, which the other begins.
    pub fn longer(&self, other: &Front) -> Front
        requires { other.now.book ≡ self.now.book }
        ensures one { (result ≡ self.now) ⊎ (result ≡ other.now) }
        ensures this { SightBegins self.now result }
        ensures that { SightBegins other.now result }
    {
        let mut both = self.seen.again();
        both.learn(&other.seen);
        if self.count < other.count {
            other.again()
        } else {
            self.again()
        }
    }

    /// Adds a step to all that was seen, and says whether it did.
    pub fn add(&mut self, head: &Head, step: &Step) -> bool
        requires head { head.now ≡ head_of self.old.book }
        requires room { length self.old.steps < 2 ^ 62 }
        ensures { MatchBool result (self.new ≡ record self.old { steps = self.old.steps ++ step.now ∷ [] }) (self.new.book ≡ self.old.book) }
    {
        let mut offer: Offer<Step, u64, Law, Nothing> = self.seen.plain::<Nothing, Step, Add>(step);
        let mut pen = self.seen.no_pen();
        let count = self.count;
        let found = head.compare_exchange::<Add, Nothing>(
            count,
            count + 1,
            &mut self.seen,
            &mut offer,
            &mut pen,
        );
        self.count = if found == count { count + 1 } else { found };
        found == count
    }
}
