ghost use Rattle.std.specs.Prelude.{◌≡◌, ◌≤◌, ◌<◌, ◌+◌, ◌^◌, option_copied, None};
ghost use Rattle.std.specs.Ordering.{is_gt};
ghost use Rattle.cedr_living.specs.Pieces.{seen_piece};
ghost use Rattle.cedr_living.specs.Fields.{IsFirstField, field_cmp_back};
ghost use Rattle.cedr_living.specs.Indexes.{IsIn};
ghost use Rattle.cedr_base.specs.Order.{field_cmp};
ghost use Rattle.cedr_living.specs.Outer.{first_of_both, outer_cmp, IsSeenField, IsNextPlace, IsLastPlace, field_in};

use crate::pieces::Pieces;
use crate::place::Place;
use cedr_base::{Field, Time};
use std::collections::BTreeMap;
use std::ops::Bound;

/// Which end of the order of fields is asked for.
#[derive(Clone, Copy)]
pub(crate) enum Side {
    Least,
    Greatest,
}

/// The first of two fields on a side, where there are any.
pub(crate) fn outer<'a>(
    side: Side,
    one: Option<&'a Field>,
    other: Option<&'a Field>,
) -> Option<&'a Field>
    ensures { option_copied result ≡ first_of_both (outer_cmp side) (option_copied one.entry) (option_copied other.entry) }
{
    match (one, other) {
        (None, _) => other,
        (_, None) => one,
        (Some(f), Some(g)) => if comes_after(side, f, g) { other } else { one },
    }
}

/// Whether a field comes after another one, seen from a side.
fn comes_after(side: Side, field: &Field, other: &Field) -> bool
    ensures { result ≡ is_gt (outer_cmp side field.now other.now) }
{
    match side {
        Side::Least => field > other,
        Side::Greatest => other > field,
    }
}

/// The first place after another one.
fn place_after(counts: &BTreeMap<Place, usize>, from: Place) -> Option<&Place>
    ensures { IsNextPlace counts.now.entries from (option_copied result) }
{
    match counts
        .range((Bound::Excluded(from), Bound::Unbounded))
        .next()
    {
        Some((place, _)) => Some(place),
        None => None,
    }
}

/// The last place before another one.
fn place_before(counts: &BTreeMap<Place, usize>, to: Place) -> Option<&Place>
    ensures { IsLastPlace counts.now.entries to (option_copied result) }
{
    match counts.range(..to).next_back() {
        Some((place, _)) => Some(place),
        None => None,
    }
}

/// The field of a place, if it is of a column in a piece.
fn field_in(found: Option<&Place>, column: usize, level: usize, at: Time) -> Option<&Field>
    ensures { option_copied result ≡ field_in column level at (option_copied found.entry) }
{
    match found {
        Some(place) if place.column == column && place.level == level && place.at == at => place
            .field
            .as_ref(),
        _ => None,
    }
}

/// The least field of a column in a piece.
fn least_in(
    counts: &BTreeMap<Place, usize>,
    column: usize,
    level: usize,
    at: Time,
) -> Option<&Field>
    ensures { IsFirstField field_cmp (IsIn counts.now.entries column level at) (option_copied result) }
{
    let from = Place {
        column,
        level,
        at,
        field: None,
    };
    field_in(place_after(counts, from), column, level, at)
}

/// The greatest field of a column in a piece.
fn greatest_in(
    counts: &BTreeMap<Place, usize>,
    column: usize,
    level: usize,
    at: Time,
) -> Option<&Field>
    requires { at + 1 < 2 ^ 64 }
    ensures { IsFirstField field_cmp_back (IsIn counts.now.entries column level at) (option_copied result) }
{
    let to = Place {
        column,
        level,
        at: at + 1,
        field: None,
    };
    field_in(place_before(counts, to), column, level, at)
}

/// The first field of a column in a piece, seen from a side. O(log n).
fn outer_in(
    counts: &BTreeMap<Place, usize>,
    side: Side,
    column: usize,
    level: usize,
    at: Time,
) -> Option<&Field>
    requires { at + 1 < 2 ^ 64 }
    ensures { IsFirstField (outer_cmp side) (IsIn counts.now.entries column level at) (option_copied result) }
{
    match side {
        Side::Least => least_in(counts, column, level, at),
        Side::Greatest => greatest_in(counts, column, level, at),
    }
}

/// The piece that is looked at where a time is in a piece: it, or 1 for each one from 1 on where rests are asked for.
fn seen_piece(rests: bool, piece: Time) -> Time
    ensures { result ≡ seen_piece rests piece }
{
    if rests { piece.min(1) } else { piece }
}

impl Pieces {
    /// The first field of a column in a piece, where there are any at its level.
    fn outer_at(&self, side: Side, column: usize, level: usize, at: Time) -> Option<&Field>
        requires { at + 1 < 2 ^ 64 }
        ensures none { level < self.now.low → option_copied result ≡ None }
        ensures some { self.now.low ≤ level → IsFirstField (outer_cmp side) (IsIn self.now.counts.entries column level at) (option_copied result) }
    {
        if level < self.low {
            return None;
        }
        outer_in(&self.counts, side, column, level, at)
    }

    /// The first field of a column in all pieces that a time is in, seen from a side. O(log n) for each level.
    pub(crate) fn outermost(
        &self,
        side: Side,
        rests: bool,
        column: usize,
        at: Time,
    ) -> Option<&Field>
        requires { at + 1 < 2 ^ 64 }
        ensures { IsFirstField (outer_cmp side) (IsSeenField self.now rests column at) (option_copied result) }
    {
        let mut best = None;
        let mut piece = at;
        for level in 0..self.high {
            best = outer(
                side,
                best,
                self.outer_at(side, column, level, seen_piece(rests, piece)),
            );
            piece /= 2;
        }
        best
    }
}
