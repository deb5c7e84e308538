//! The rule of a pool's queue, and the kinds of step on it.
use crate::claim::Claim;
use crate::numbered::{Numbered, Placed};
use crossbeam_queue::protocol::{Join, Lesson, Outcome, Protocol, Split};
use crossbeam_queue::{Pass, RuledArrayQueue};

/// The rule of a pool's queue.
pub struct Once;

impl<T: Placed<X> + Drop, X: Drop> Protocol<Numbered<T>, Claim<X>> for Once {
    ghost use Rattle.std.specs.Prelude.{[]};
    ghost use Rattle.pool_queue.specs.Once.{all_parts, claim, IsOnce};

    ghost holds = { IsOnce T.place };

    ghost first = { claim all_parts [] [] };
}

/// How a pass of one part is cut off another, and how two passes come together again.
pub struct Cut;

impl<X> Split<Claim<X>> for Cut {
    ghost use Rattle.std.specs.Prelude.{◌-◌, []};
    ghost use Rattle.pool_queue.specs.Once.{claim};

    ghost left = { λ v. claim (v.parts - 1) v.opened v.held };

    ghost right = { λ v. claim 1 v.opened [] };
}

impl<X> Join<Claim<X>> for Cut {
    ghost use Rattle.std.specs.Prelude.{◌+◌, ◌++◌, []};
    ghost use Rattle.pool_queue.specs.Once.{claim};

    ghost both = { λ v w. claim (v.parts + w.parts) v.opened (v.held ++ w.held) };

    ghost spent = { claim 0 [] [] };
}

/// A put of a task that wasn't opened before, while there is one pass. It never finds the queue full.
pub struct Opens;

impl<T: Placed<X> + Drop, X: Drop> Outcome<Numbered<T>, Claim<X>> for Opens {
    ghost use Rattle.std.specs.Prelude.{◌≡◌, [], ◌∷◌, ◌++◌};
    ghost use Rattle.pool_queue.specs.Entries.{entry_of};
    ghost use Rattle.pool_queue.specs.Once.{claim};

    ghost then = { λ v x w. w ≡ claim v.parts (v.opened ++ entry_of T.place x ∷ []) v.held };
}

impl<T: Drop, X> Lesson<Numbered<T>, Claim<X>> for Opens {
    ghost use Rattle.std.specs.Prelude.{◌≤◌, length};

    ghost fact = { λ v items. length items ≤ length v.opened };
}

/// A put of a task that the pass holds. It never finds the queue full.
pub struct Puts;

impl<T: Placed<X> + Drop, X: Drop> Outcome<Numbered<T>, Claim<X>> for Puts {
    ghost use Rattle.std.specs.Prelude.{◌≡◌};
    ghost use Rattle.pool_queue.specs.Entries.{other_than};
    ghost use Rattle.pool_queue.specs.Once.{claim};

    ghost then = { λ v x w. w ≡ claim v.parts v.opened (other_than x.number v.held) };
}

impl<T: Drop, X> Lesson<Numbered<T>, Claim<X>> for Puts {
    ghost use Rattle.std.specs.Prelude.{◌<◌, length};

    ghost fact = { λ v items. length items < length v.opened };
}

/// A take. Where it finds the queue empty it learns nothing.
pub struct Takes;

impl<T: Placed<X> + Drop, X: Drop> Outcome<Numbered<T>, Claim<X>> for Takes {
    ghost use Rattle.std.specs.Prelude.{◌≡◌, ◌≤◌, ◌∷◌, length};
    ghost use Rattle.std.specs.List.{Contains};
    ghost use Rattle.pool_queue.specs.Entries.{entry_of, times};
    ghost use Rattle.pool_queue.specs.Once.{claim};

    ghost then = { λ v x w. (w ≡ claim v.parts v.opened (entry_of T.place x ∷ v.held)) × Contains v.opened (entry_of T.place x) × (times x.number v.held ≡ 0) × (length w.held ≤ length w.opened) };
}

impl<T: Drop, X> Lesson<Numbered<T>, Claim<X>> for Takes {
    ghost fact = { λ v items. Unit {0} };
}

/// A take by the pass that has all parts. Where it finds the queue empty, the pass holds all that was opened.
pub struct Drains;

impl<T: Placed<X> + Drop, X: Drop> Outcome<Numbered<T>, Claim<X>> for Drains {
    ghost use Rattle.std.specs.Prelude.{◌≡◌, ◌≤◌, [], ◌∷◌, ◌++◌, length};
    ghost use Rattle.pool_queue.specs.Entries.{entry_of};
    ghost use Rattle.pool_queue.specs.Once.{claim};

    ghost then = { λ v x w. (w ≡ claim v.parts v.opened (v.held ++ entry_of T.place x ∷ [])) × (length w.held ≤ length w.opened) };
}

impl<T: Placed<X> + Drop, X: Drop> Lesson<Numbered<T>, Claim<X>> for Drains {
    ghost use Rattle.std.specs.Prelude.{◌++◌, map, IsPermutation};
    ghost use Rattle.pool_queue.specs.Entries.{entry_of};

    ghost fact = { λ v items. IsPermutation (map (entry_of T.place) items ++ v.held) v.opened };
}

/// The queue of a pool.
pub type Tasks<T, X> = RuledArrayQueue<Numbered<T>, Claim<X>, Once>;

/// A pass of it.
pub type QueuePass<T, X> = Pass<Numbered<T>, Claim<X>>;
