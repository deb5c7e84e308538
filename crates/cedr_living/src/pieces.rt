ghost use Rattle.std.specs.Prelude.{◌≡◌, ◌+◌, ◌<◌, ◌≤◌, ◌^◌, ◌&&◌, ℕ, OnOk, [], ◌↔◌, IsTrue, IsOk, true, false, nat_eq, if◌then◌else◌};
ghost use Rattle.cedr_living.specs.declared.place.Place.{Place as PlaceValue};
ghost use Rattle.cedr_living.specs.Counts.{moved_by};
ghost use Rattle.cedr_living.specs.Pieces.{pieces, steps, open_pieces, is_rest, one_if};
ghost use Rattle.cedr_living.specs.Indexes.{ShowsCounts, comes, is_of, is_on};

use crate::counts::{lower, raise};
use crate::place::Place;
use cedr_base::{OutOfMemory, Time};
use std::alloc::Global;
use std::collections::BTreeMap;

/// How many lives have a piece, by the places of the pieces, and from which level on and below which one there are some.
pub(crate) struct Pieces {
    pub(crate) counts: BTreeMap<Place, usize>,
    pub(crate) low: usize,
    pub(crate) high: usize,
}

impl Drop for Pieces {
    fn drop(self) {
        let Pieces {
            counts: _,
            low: _,
            high: _,
        } = self;
    }
}

/// Whether a life comes, which takes memory, or goes, which takes none.
#[derive(Clone, Copy)]
pub(crate) enum Way {
    In(Global),
    Out,
}

impl Pieces {
    /// No pieces. It takes no memory.
    pub(crate) fn new(alloc: Global) -> Pieces
        ensures { result.counts.entries ≡ [] }
    {
        Pieces {
            counts: BTreeMap::new(alloc),
            low: usize::MAX,
            high: 0,
        }
    }

    /// Whether no life has a piece. It takes no memory. O(1).
    pub(crate) fn is_empty(&self) -> bool
        ensures { IsTrue result ↔ (self.now.counts.entries ≡ []) }
    {
        self.counts.is_empty()
    }

    /// A life more has a piece.
    fn shift_in(&mut self, alloc: Global, place: &Place) -> Result<(), OutOfMemory>
        requires { place.now.level + 1 < 2 ^ 64 }
        ensures { OnOk result ((counts : PlaceValue → ℕ) → ShowsCounts self.old counts → ShowsCounts self.new (λ q. moved_by true (counts q) (if is_on place.now q then one_if true place.now.at q.at else 0))) }
    {
        let copied = place.copy(alloc)?;
        raise(&mut self.counts, copied)?;
        self.low = self.low.min(place.level);
        self.high = self.high.max(place.level + 1);
        Ok(())
    }

    /// A life more or a life less has a piece.
    pub(crate) fn shift(&mut self, place: &Place, way: Way) -> Result<(), OutOfMemory>
        requires { place.now.level + 1 < 2 ^ 64 }
        ensures ok { OnOk result ((counts : PlaceValue → ℕ) → ShowsCounts self.old counts → ShowsCounts self.new (λ q. moved_by (comes way) (counts q) (if is_on place.now q then one_if true place.now.at q.at else 0))) }
        ensures out { comes way ≡ false → IsOk result }
    {
        match way {
            Way::In(alloc) => self.shift_in(alloc, place),
            Way::Out => {
                lower(&mut self.counts, place);
                Ok(())
            }
        }
    }

    /// A piece at a place's level is one of a life that comes or goes, if it is told to be.
    fn shift_if(
        &mut self,
        place: &mut Place,
        there: bool,
        at: Time,
        way: Way,
    ) -> Result<(), OutOfMemory>
        requires { place.old.level + 1 < 2 ^ 64 }
        ensures ok { OnOk result ((counts : PlaceValue → ℕ) → ShowsCounts self.old counts → ShowsCounts self.new (λ q. moved_by (comes way) (counts q) (if is_on place.old q then one_if there at q.at else 0))) }
        ensures out { comes way ≡ false → IsOk result }
        ensures column { place.new.column ≡ place.old.column }
        ensures level { place.new.level ≡ place.old.level }
        ensures field { place.new.field ≡ place.old.field }
    {
        if there {
            place.at = at;
            return self.shift(place, way);
        }
        Ok(())
    }

    /// A life comes or goes at one level.
    fn shift_level(
        &mut self,
        place: &mut Place,
        begin: Time,
        end: Time,
        way: Way,
    ) -> Result<(), OutOfMemory>
        requires level { place.old.level + 1 < 2 ^ 64 }
        requires lives { begin < end }
        ensures ok { OnOk result ((counts : PlaceValue → ℕ) → ShowsCounts self.old counts → ShowsCounts self.new (λ q. moved_by (comes way) (counts q) (if is_on place.old q then pieces 0 begin end q.at else 0))) }
        ensures out { comes way ≡ false → IsOk result }
        ensures column { place.new.column ≡ place.old.column }
        ensures level { place.new.level ≡ place.old.level }
        ensures field { place.new.field ≡ place.old.field }
    {
        self.shift_if(place, begin % 2 == 1, begin, way)?;
        self.shift_if(place, end % 2 == 1, end - 1, way)
    }

    /// A life comes or goes, of a place's column and field. O(log n) for each level that it has pieces at.
    pub(crate) fn shift_life(
        &mut self,
        place: &mut Place,
        begin: Time,
        end: Time,
        way: Way,
    ) -> Result<(), OutOfMemory>
        ensures ok { OnOk result ((counts : PlaceValue → ℕ) → ShowsCounts self.old counts → ShowsCounts self.new (λ q. moved_by (comes way) (counts q) (if is_of place.old.column place.old.field q then pieces q.level begin end q.at else 0))) }
        ensures out { comes way ≡ false → IsOk result }
        ensures column { place.new.column ≡ place.old.column }
        ensures field { place.new.field ≡ place.old.field }
    {
        let mut from = begin;
        let mut to = end;
        place.level = 0;
        while from < to {
            self.shift_level(place, from, to, way)?;
            from = from / 2 + from % 2;
            to /= 2;
            place.level += 1;
        }
        Ok(())
    }

    /// A life without end comes or goes, of a place's column and field, up to where its begin is 1. The place is then at
    /// that level.
    fn shift_steps(&mut self, place: &mut Place, begin: Time, way: Way) -> Result<(), OutOfMemory>
        ensures ok { OnOk result ((counts : PlaceValue → ℕ) → ShowsCounts self.old counts → ShowsCounts self.new (λ q. moved_by (comes way) (counts q) (if is_of place.old.column place.old.field q then steps q.level begin q.at else 0))) }
        ensures out { comes way ≡ false → IsOk result }
        ensures rest { OnOk result ((k : ℕ) → is_rest k begin ≡ nat_eq place.new.level k) }
        ensures room { OnOk result (place.new.level + 1 < 2 ^ 64) }
        ensures column { place.new.column ≡ place.old.column }
        ensures field { place.new.field ≡ place.old.field }
    {
        let mut from = begin;
        place.level = 0;
        while from > 1 {
            self.shift_if(place, from % 2 == 1, from, way)?;
            from = from / 2 + from % 2;
            place.level += 1;
        }
        Ok(())
    }

    /// A life without end comes or goes, of a place's column and field, but for the rest that begins with piece 1 of the
    /// level that the place then has. O(log n) for each level up to that one.
    pub(crate) fn shift_open(
        &mut self,
        place: &mut Place,
        begin: Time,
        way: Way,
    ) -> Result<(), OutOfMemory>
        ensures ok { OnOk result ((counts : PlaceValue → ℕ) → ShowsCounts self.old counts → ShowsCounts self.new (λ q. moved_by (comes way) (counts q) (if is_of place.old.column place.old.field q then open_pieces q.level begin q.at else 0))) }
        ensures out { comes way ≡ false → IsOk result }
        ensures rest { OnOk result ((k : ℕ) → is_rest k begin ≡ nat_eq place.new.level k) }
        ensures room { OnOk result (place.new.level + 1 < 2 ^ 64) }
        ensures column { place.new.column ≡ place.old.column }
        ensures field { place.new.field ≡ place.old.field }
    {
        place.level = 0;
        self.shift_if(place, begin == 0, 0, way)?;
        self.shift_steps(place, begin, way)
    }
}
