ghost use Rattle.std.specs.Prelude.{◌≡◌, ◌+◌, ◌-◌, ◌<◌, ◌≤◌, ◌⊎◌, ℕ, List, Option, Some, None, IfOk, IfSome, OnOk, cond, nat_le, nat_lt, ◌&&◌, true, false, option_map, is_some, if◌then◌else◌};
ghost use Rattle.std.specs.List.{filter};
ghost use Rattle.cedr_base.specs.declared.time.TheConstants.{FOREVER};
ghost use Rattle.cedr_base.specs.declared.row.Row.{Row};
ghost use Rattle.op_group.specs.Cuts.{ShowsCuts, StaysBetweenCuts, IsEdit, IsNextCut, IsLastCut, IsFirstTouched, IsLastTouched, IsCarried, edges_in, edges_taken, segment_at, one_at, edge_raised, segment_shifted, tally_shifted};
ghost use Rattle.op_group.specs.Groups.{lives_at};
ghost use Rattle.op_group.specs.Measures.{no_totals, extremes_of};
ghost use Rattle.op_group.specs.Sides.{Passes, PassesBetween, Tells, TellsBetween, HasExtremes, HaveExtremes, TalliesExtremes};
ghost use Rattle.op_group.specs.Tallies.{Tally};

use crate::extremes::Passing;
use crate::segment::{Segment, Totalled, Totals};
use cedr_base::{Change, OutOfMemory, Time};
use cedr_living::LivingFields;
use std::alloc::Global;
use std::collections::BTreeMap;

/// The cut points of one group: all begins and ends of its rows.
pub(crate) type Cuts = BTreeMap<Time, Segment>;

/// The first cut point from a time on, or the last number where there is none.
pub(crate) fn cut_from(cuts: &Cuts, from: Time) -> Time
    ensures { IsNextCut cuts.now.entries from result }
{
    match cuts.range(from..).next() {
        Some((at, _)) => *at,
        None => Time::MAX,
    }
}

/// The last cut point before a time, or that time where there is none.
fn cut_before(cuts: &Cuts, to: Time) -> Time
    ensures { IsLastCut cuts.now.entries to result }
{
    match cuts.range(..to).next_back() {
        Some((at, _)) => *at,
        None => to,
    }
}

/// How many begins and ends a change may take away at one time.
pub(crate) fn edges_taken(change: &Change) -> usize
    ensures { result ≡ edges_taken change.now }
{
    match change {
        Change::Add(_) => 0,
        Change::Cut(_, _) => 1,
    }
}

/// The first time of the rows of the result that a change may touch which is seen at a time: the row that ends at a cut
/// point that stays isn't one of them.
pub(crate) fn first_touched(cuts: &Cuts, at: Time, taken: usize) -> Time
    ensures touched { IsFirstTouched cuts.now.entries at taken result }
    ensures before { result ≤ at }
{
    let Some((last, segment)) = cuts.range(..=at).next_back() else {
        return at;
    };
    if *last < at {
        return *last;
    }
    if taken < segment.edges {
        return at;
    }
    cut_before(cuts, at)
}

/// The last time of the rows of the result that a change may touch up to a time.
pub(crate) fn last_touched(cuts: &Cuts, at: Time, taken: usize) -> Time
    requires { at ≤ FOREVER }
    ensures touched { IsLastTouched cuts.now.entries at taken result }
    ensures after { at ≤ result }
{
    let Some((first, segment)) = cuts.range(at..).next() else {
        return Time::MAX;
    };
    if at < *first {
        return *first;
    }
    if taken < segment.edges {
        return at;
    }
    cut_from(cuts, at + 1)
}

/// A cut point with one begin or end, that has what is valid just before it; none where a cut point stands there already.
fn carried(
    alloc: Global,
    asked: &Totalled,
    cuts: &Cuts,
    at: Time,
) -> Result<Option<Segment>, OutOfMemory>
    ensures there { IfOk result (λ found. found ≡ None → is_some (segment_at at cuts.now.entries) ≡ true) }
    ensures carried { IfOk result (λ found. IfSome found (λ s. (is_some (segment_at at cuts.now.entries) ≡ false) × IsCarried cuts.now.entries at (no_totals asked.now) s)) }
{
    let Some((last, before)) = cuts.range(..=at).next_back() else {
        let totals = Totals::nothing(alloc, asked)?;
        return Ok(Some(Segment {
            edges: 1,
            living: 0,
            totals,
        }));
    };
    if *last < at {
        let totals = before.totals.copy(alloc)?;
        return Ok(Some(Segment {
            edges: 1,
            living: before.living,
            totals,
        }));
    }
    Ok(None)
}

/// A begin or an end more stands at a cut point.
fn raise(cuts: &mut Cuts, at: Time) -> Result<(), OutOfMemory>
    ensures { OnOk result (IsEdit at (option_map edge_raised (segment_at at cuts.old.entries)) cuts.old.entries cuts.new.entries) }
{
    match cuts.get_mut(&at) {
        Some(segment) => segment.add_edge(),
        None => Ok(()),
    }
}

/// A begin or an end more stands at a time.
fn add_edge(alloc: Global, asked: &Totalled, cuts: &mut Cuts, at: Time) -> Result<(), OutOfMemory>
    ensures { OnOk result ((edges : ℕ → ℕ) (living : ℕ → ℕ) (tally : ℕ → Tally) → ShowsCuts cuts.old.entries edges living tally → StaysBetweenCuts (no_totals asked.now) edges living tally → ShowsCuts cuts.new.entries (λ t. edges t + one_at at t) living tally) }
{
    match carried(alloc, asked, cuts, at)? {
        Some(segment) => {
            cuts.insert(at, segment)?;
            Ok(())
        }
        None => raise(cuts, at),
    }
}

/// A begin or an end less stands at a cut point, which goes with the last one.
fn take_edge(cuts: &mut Cuts, at: Time)
    ensures { (edges : ℕ → ℕ) (living : ℕ → ℕ) (tally : ℕ → Tally) → ShowsCuts cuts.old.entries edges living tally → 0 < edges at → ShowsCuts cuts.new.entries (λ t. edges t - one_at at t) living tally }
{
    let edges = match cuts.get(&at) {
        Some(segment) => segment.edges,
        None => 0,
    };
    if edges <= 1 {
        cuts.remove(&at);
    } else if let Some(segment) = cuts.get_mut(&at) {
        segment.edges = edges - 1;
    }
}

/// A row more is valid from a cut point on, or a row less.
fn shift_at(
    alloc: Global,
    asked: &Totalled,
    cuts: &mut Cuts,
    at: Time,
    passing: &Passing,
    living: &LivingFields,
) -> Result<(), OutOfMemory>
    requires { at < FOREVER }
    ensures { OnOk result ((old new : List Row) → Passes passing.now.up passing.now.payload old new → Tells asked.now living.now at new → HasExtremes asked.now old (segment_at at cuts.old.entries) → IsEdit at (option_map (segment_shifted passing.now.up passing.now.numbers (extremes_of asked.now new)) (segment_at at cuts.old.entries)) cuts.old.entries cuts.new.entries) }
{
    match cuts.get_mut(&at) {
        Some(segment) => segment.shift(alloc, asked, at, passing, living),
        None => Ok(()),
    }
}

/// A row more is valid from each cut point between two times on, or a row less. O(log n) for each of them, and a question
/// to `living` for each field that goes with the row and was the least or the greatest there.
fn shift_between(
    alloc: Global,
    asked: &Totalled,
    cuts: &mut Cuts,
    from: Time,
    to: Time,
    passing: &Passing,
    living: &LivingFields,
) -> Result<(), OutOfMemory>
    requires { to ≤ FOREVER }
    ensures { OnOk result ((old new : List Row) → PassesBetween passing.now from to old new → TellsBetween asked.now living.now from to new → HaveExtremes asked.now from to old cuts.old.entries → (u : ℕ) → segment_at u cuts.new.entries ≡ (if nat_le from u && nat_lt u to then option_map (segment_shifted passing.now.up passing.now.numbers (extremes_of asked.now (filter (lives_at u) new))) (segment_at u cuts.old.entries) else segment_at u cuts.old.entries)) }
{
    let mut at = from;
    while at < to {
        shift_at(alloc, asked, cuts, at, passing, living)?;
        at = cut_from(cuts, at + 1);
    }
    Ok(())
}

/// A row comes.
pub(crate) fn add_row(
    alloc: Global,
    asked: &Totalled,
    cuts: &mut Cuts,
    begin: Time,
    end: Time,
    passing: &Passing,
    living: &LivingFields,
) -> Result<(), OutOfMemory>
    requires comes { passing.now.up ≡ true }
    requires ends { end ≤ FOREVER }
    ensures { OnOk result ((old new : List Row) → PassesBetween passing.now begin end old new → TellsBetween asked.now living.now begin end new → (edges : ℕ → ℕ) (living : ℕ → ℕ) (tally : ℕ → Tally) → ShowsCuts cuts.old.entries edges living tally → StaysBetweenCuts (no_totals asked.now) edges living tally → TalliesExtremes asked.now begin end old tally
        → ShowsCuts cuts.new.entries (λ t. edges t + one_at begin t + one_at end t) (λ t. if nat_le begin t && nat_lt t end then living t + 1 else living t) (λ t. if nat_le begin t && nat_lt t end then tally_shifted passing.now.numbers (extremes_of asked.now (filter (lives_at t) new)) (tally t) else tally t)) }
{
    add_edge(alloc, asked, cuts, begin)?;
    add_edge(alloc, asked, cuts, end)?;
    shift_between(alloc, asked, cuts, begin, end, passing, living)
}

/// A cut row ends at a cut point, where anything is left of it.
fn add_earlier_end(
    alloc: Global,
    asked: &Totalled,
    cuts: &mut Cuts,
    begin: Time,
    earlier: Time,
) -> Result<(), OutOfMemory>
    ensures { OnOk result ((edges : ℕ → ℕ) (living : ℕ → ℕ) (tally : ℕ → Tally) → ShowsCuts cuts.old.entries edges living tally → StaysBetweenCuts (no_totals asked.now) edges living tally → ShowsCuts cuts.new.entries (λ t. edges t + (if nat_lt begin earlier then one_at earlier t else 0)) living tally) }
{
    if begin < earlier {
        return add_edge(alloc, asked, cuts, earlier);
    }
    Ok(())
}

/// A cut row begins no more, where nothing is left of it.
fn take_begin(cuts: &mut Cuts, begin: Time, earlier: Time)
    ensures { (edges : ℕ → ℕ) (living : ℕ → ℕ) (tally : ℕ → Tally) → ShowsCuts cuts.old.entries edges living tally → (earlier ≤ begin → 0 < edges begin) → ShowsCuts cuts.new.entries (λ t. edges t - (if nat_lt begin earlier then 0 else one_at begin t)) living tally }
{
    if earlier <= begin {
        take_edge(cuts, begin);
    }
}

/// A row gets an earlier end. Where that is its begin it goes.
pub(crate) fn cut_row(
    alloc: Global,
    asked: &Totalled,
    cuts: &mut Cuts,
    begin: Time,
    end: Time,
    earlier: Time,
    passing: &Passing,
    living: &LivingFields,
) -> Result<(), OutOfMemory>
    requires goes { passing.now.up ≡ false }
    requires ends { end ≤ FOREVER }
    ensures { OnOk result ((old new : List Row) → PassesBetween passing.now earlier end old new → TellsBetween asked.now living.now earlier end new → (edges : ℕ → ℕ) (living : ℕ → ℕ) (tally : ℕ → Tally) → ShowsCuts cuts.old.entries edges living tally → StaysBetweenCuts (no_totals asked.now) edges living tally → TalliesExtremes asked.now earlier end old tally → (earlier ≤ begin → 0 < edges begin) → 0 < edges end → begin < end
        → ShowsCuts cuts.new.entries (λ t. (edges t + (if nat_lt begin earlier then one_at earlier t else 0)) - one_at end t - (if nat_lt begin earlier then 0 else one_at begin t)) (λ t. if nat_le earlier t && nat_lt t end then living t - 1 else living t) (λ t. if nat_le earlier t && nat_lt t end then tally_shifted passing.now.numbers (extremes_of asked.now (filter (lives_at t) new)) (tally t) else tally t)) }
{
    add_earlier_end(alloc, asked, cuts, begin, earlier)?;
    shift_between(alloc, asked, cuts, earlier, end, passing, living)?;
    take_edge(cuts, end);
    take_begin(cuts, begin, earlier);
    Ok(())
}
