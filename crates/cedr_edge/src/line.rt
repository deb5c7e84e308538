ghost use Rattle.std.specs.Prelude.{◌≡◌, true, false, [], ◌∷◌, ◌++◌, ◌≤◌, length};
ghost use Rattle.cedr_base.specs.Messages.{IsLegal};

use cedr_base::Message;
use crossbeam_queue::protocol::{Join, Lesson, Outcome, Protocol, Split};
use crossbeam_queue::{Pass, RuledArrayQueue};
use std::collections::LinkedList;

/// What a pass of an edge's queue may do, what it has put and what it has taken. No value of it is made.
pub struct Hand {
    pub puts: bool,
    pub takes: bool,
    pub sent: LinkedList<Message>,
    pub taken: LinkedList<Message>,
}

/// The rule of an edge.
pub struct InOrder;

impl Protocol<Message, Hand> for InOrder {
    ghost use Rattle.std.specs.Prelude.{true, []};
    ghost use Rattle.cedr_edge.specs.Line.{hand, IsInOrder};

    ghost holds = { IsInOrder };

    ghost first = { hand true true [] [] };
}

/// How the two ends part, and how they come together again.
pub struct Ends;

impl Split<Hand> for Ends {
    ghost use Rattle.std.specs.Prelude.{true, false, []};
    ghost use Rattle.cedr_edge.specs.Line.{hand};

    ghost left = { λ v. hand true false v.sent [] };

    ghost right = { λ v. hand false true [] v.taken };
}

impl Join<Hand> for Ends {
    ghost use Rattle.std.specs.Prelude.{true, false, []};
    ghost use Rattle.cedr_edge.specs.Line.{hand};

    ghost both = { λ v w. hand true true w.sent v.taken };

    ghost spent = { hand false false [] [] };
}

/// A put. Where it finds the queue full, at least as many messages were sent as the queue holds.
pub struct Puts;

impl Outcome<Message, Hand> for Puts {
    ghost use Rattle.std.specs.Prelude.{◌≡◌, [], ◌∷◌, ◌++◌};
    ghost use Rattle.cedr_edge.specs.Line.{hand};

    ghost then = { λ v x w. w ≡ hand v.puts v.takes (v.sent ++ x ∷ []) v.taken };
}

impl Lesson<Message, Hand> for Puts {
    ghost fact = { λ v items. length items ≤ length v.sent };
}

/// A take. Where it finds the queue empty it learns nothing.
pub struct Takes;

impl Outcome<Message, Hand> for Takes {
    ghost use Rattle.std.specs.Prelude.{◌≡◌, [], ◌∷◌, ◌++◌};
    ghost use Rattle.cedr_base.specs.Messages.{IsLegal};
    ghost use Rattle.cedr_edge.specs.Line.{hand};

    ghost then = { λ v x w. (w ≡ hand v.puts v.takes v.sent (v.taken ++ x ∷ [])) × IsLegal (v.taken ++ x ∷ []) };
}

impl Lesson<Message, Hand> for Takes {
    ghost fact = { λ v items. Unit {0} };
}

/// Both ends together know what the queue holds.
pub struct Total;

impl Lesson<Message, Hand> for Total {
    ghost fact = { λ v items. (v.sent ≡ v.taken ++ items) × IsLegal v.sent };
}

/// The queue of an edge.
pub type Line = RuledArrayQueue<Message, Hand, InOrder>;

/// A pass of it.
pub type EdgePass = Pass<Message, Hand>;
