ghost use Rattle.std.specs.Prelude.{◌≡◌, ◌<◌, ◌↔◌, ℕ, List, Option, OnOk, IsOk, IsTrue, Some, true, false, option_copied, if◌then◌else◌};
ghost use Rattle.cedr_base.specs.declared.field.Field.{Field as FieldValue};
ghost use Rattle.cedr_base.specs.declared.time.TheConstants.{FOREVER};
ghost use Rattle.cedr_living.specs.declared.place.Place.{Place as PlaceValue};
ghost use Rattle.cedr_living.specs.Fields.{first_by};
ghost use Rattle.cedr_living.specs.Lives.{Living, fields_at};
ghost use Rattle.cedr_living.specs.Counts.{moved_by};
ghost use Rattle.cedr_living.specs.Pieces.{open_pieces, is_rest, one_if};
ghost use Rattle.cedr_living.specs.Ends.{life_of};
ghost use Rattle.cedr_living.specs.Indexes.{Indexes, IsBareIndex, Changes, Loses, ShowsCounts, comes, is_of};
ghost use Rattle.cedr_living.specs.Outer.{outer_cmp};

use crate::ending::Ending;
use crate::outer::{Side, outer};
use crate::pieces::{Pieces, Way};
use crate::place::Place;
use cedr_base::{FOREVER, Field, OutOfMemory, Time};
use std::alloc::Global;

/// An ordered bag of fields, each of which is of a column and lives from a begin on and before an end, in pieces of time.
///
/// A life that ends counts once in each of its pieces of time, at most two of each length. Of a life that doesn't end
/// the pieces from some length on are one entry. Where memory runs out nothing is promised of what the index keeps.
pub(crate) struct Index {
    pub(crate) pieces: Pieces,
    pub(crate) rests: Pieces,
}

impl Drop for Index {
    fn drop(self) {
        let Index {
            pieces: _,
            rests: _,
        } = self;
    }
}

impl Index {
    /// An index of no life. It takes no memory.
    pub(crate) fn new(alloc: Global) -> Index
        ensures { IsBareIndex result }
    {
        Index {
            pieces: Pieces::new(alloc),
            rests: Pieces::new(alloc),
        }
    }

    /// Whether there is no entry. It takes no memory. O(1).
    pub(crate) fn is_bare(&self) -> bool
        ensures { IsTrue result ↔ IsBareIndex self.now }
    {
        self.pieces.is_empty() && self.rests.is_empty()
    }

    /// A life without end comes or goes, of a place's column and field.
    fn change_open(&mut self, place: &mut Place, begin: Time, way: Way) -> Result<(), OutOfMemory>
        ensures pieces { OnOk result ((counts : PlaceValue → ℕ) → ShowsCounts self.old.pieces counts → ShowsCounts self.new.pieces (λ q. moved_by (comes way) (counts q) (if is_of place.old.column place.old.field q then open_pieces q.level begin q.at else 0))) }
        ensures rests { OnOk result ((counts : PlaceValue → ℕ) → ShowsCounts self.old.rests counts → ShowsCounts self.new.rests (λ q. moved_by (comes way) (counts q) (if is_of place.old.column place.old.field q then one_if (is_rest q.level begin) 1 q.at else 0))) }
        ensures out { comes way ≡ false → IsOk result }
        ensures column { place.new.column ≡ place.old.column }
        ensures field { place.new.field ≡ place.old.field }
    {
        self.pieces.shift_open(place, begin, way)?;
        place.at = 1;
        self.rests.shift(place, way)
    }

    /// A life comes or goes, of a place's column and field.
    fn change(
        &mut self,
        place: &mut Place,
        begin: Time,
        end: Time,
        way: Way,
    ) -> Result<(), OutOfMemory>
        ensures ok { OnOk result ((field : FieldValue) → place.old.field ≡ Some field → Changes (comes way) self.old self.new (record { column = place.old.column; begin = begin; end = end; field = field })) }
        ensures out { comes way ≡ false → IsOk result }
        ensures column { place.new.column ≡ place.old.column }
        ensures field { place.new.field ≡ place.old.field }
    {
        if end < FOREVER {
            return self.pieces.shift_life(place, begin, end, way);
        }
        self.change_open(place, begin, way)
    }

    /// A life comes. O(log n) comparisons for each length of its pieces.
    pub(crate) fn add(&mut self, alloc: Global, life: Ending) -> Result<(), OutOfMemory>
        ensures { OnOk result (Changes true self.old self.new (life_of life)) }
    {
        let begin = life.begin;
        let end = life.end;
        let mut place = life.into_place();
        self.change(&mut place, begin, end, Way::In(alloc))
    }

    /// A life goes, of a place's column and field. It takes no memory.
    fn take_one(&mut self, place: &mut Place, begin: Time, end: Time)
        ensures gone { (field : FieldValue) → place.old.field ≡ Some field → Changes false self.old self.new (record { column = place.old.column; begin = begin; end = end; field = field }) }
        ensures column { place.new.column ≡ place.old.column }
        ensures field { place.new.field ≡ place.old.field }
    {
        // What goes takes no memory, so this can't fail.
        let _ = self.change(place, begin, end, Way::Out);
    }

    /// So many equal lives go. It takes no memory. O(log n) comparisons for each of them and each length of its pieces.
    pub(crate) fn take(&mut self, life: Ending, count: usize)
        ensures { Loses count self.old self.new (life_of life) }
    {
        let begin = life.begin;
        let end = life.end;
        let mut place = life.into_place();
        for _ in 0..count {
            self.take_one(&mut place, begin, end);
        }
    }

    /// The first field of a column that lives at a time, seen from a side.
    pub(crate) fn outermost(&self, side: Side, column: usize, at: Time) -> Option<&Field>
        requires { at < FOREVER }
        ensures { (lives : List Living) → Indexes self.now lives → option_copied result ≡ first_by (outer_cmp side) (fields_at column at lives) }
    {
        let piece = self.pieces.outermost(side, false, column, at);
        let rest = self.rests.outermost(side, true, column, at);
        outer(side, piece, rest)
    }
}
