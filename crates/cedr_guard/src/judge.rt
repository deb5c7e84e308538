ghost use Rattle.std.specs.Prelude.{◌≡◌, ◌++◌, ◌∷◌, [], List, None, Some, IfOk, IfSome, IfNone, OnOk, OnErr, map, nat_lt, ℕ, ◌<◌, ◌≤◌, length, slice_index_or, All, AllPairs};
ghost use Rattle.cedr_base.specs.declared.row.Row.{Row};
ghost use Rattle.cedr_text.specs.declared.event_line.EventLine.{EventLine};
ghost use Rattle.cedr_text.specs.declared.event_line.EventLine.TheVariants.{Insert, Retract, Revise, Promise};
ghost use Rattle.cedr_guard.specs.Judging.{fault_behind, guarantee_fault, retraction_fault, revision_fault, guarantee_of, event_with};
ghost use Rattle.cedr_guard.specs.History.{rows_among};
ghost use Rattle.cedr_guard.specs.Ids.{place_among, AreRising};
ghost use Rattle.cedr_guard.specs.Spelt.{state_in, event_interval, lines_of, IsFit};
ghost use Rattle.cedr_guard.specs.Standing.{StandsFor, Judges, IsEventOf, interval_of, place_of_event, place_in};

use crate::fault::GuardFault;
use crate::ids::{IdPlace, Ids};
use crate::state::{EventState, SourceState};
use cedr_base::{Interval, OutOfMemory, Time};
use cedr_text::LineFault;
use std::alloc::Global;

/// The event that a retraction or a revision is about.
#[derive(Clone, Copy)]
pub(crate) struct FoundEvent {
    /// Its place among the insertions, from 0 on.
    pub(crate) place: usize,
    /// When it was valid before.
    pub(crate) interval: Interval,
}

/// Judges event lines against the accepted lines before them, by ids and times alone. It stands for the
/// list of the accepted lines.
///
/// It keeps 32 bytes for each insertion whose id is above all before it, and for another one 16 bytes and a
/// place in an ordered map.
#[derive(Drop)]
pub struct Judge {
    /// Where the interval of an id's event stands.
    ids: Ids,
    /// One for each insertion, in order: that of its event as it is now. A retraction may have left it empty.
    intervals: Vec<Interval>,
    /// The greatest guarantee, 0 at first.
    mark: Time,
}

impl Judge {
    /// It takes no memory.
    pub fn new(alloc: Global) -> Judge
        ensures { StandsFor result [] }
    {
        Judge {
            ids: Ids::new(alloc),
            intervals: Vec::new(alloc),
            mark: 0,
        }
    }

    /// Accepts an insertion with this id and valid interval, or answers its least fault, which changes
    /// nothing. O(1) where the id is above all before it, else O(log n) in the insertions before it.
    pub fn insert(&mut self, id: u64, begin: Time, end: Time) -> Result<(), GuardFault>
        ensures judged { (before : List EventLine) (row : Row) → StandsFor self.old before → interval_of row ≡ record { begin = begin; end = end }
            → Judges result (fault_behind before (Insert id row)) }
        ensures stands { OnOk result ((before : List EventLine) (row : Row) → StandsFor self.old before → interval_of row ≡ record { begin = begin; end = end }
            → StandsFor self.new (before ++ Insert id row ∷ [])) }
        ensures stays { OnErr result ((before : List EventLine) → StandsFor self.old before → StandsFor self.new before) }
    {
        if let Some(fault) = guarantee_fault(begin, self.mark) {
            let known = self.ids.place(id).is_some();
            return Err(GuardFault::Line(if known { LineFault::KnownId } else { fault }));
        }
        self.intervals.reserve(1).map_err(OutOfMemory::from)?;
        let place = self.intervals.len();
        if !self.ids.insert(id, place)? {
            return Err(GuardFault::Line(LineFault::KnownId));
        }
        self.intervals.push(Interval { begin, end })?;
        Ok(())
    }

    /// Accepts a retraction of the event with this id to a new end, or answers its least fault, which changes
    /// nothing. O(1) where the ids before it ascended with even gaps, else O(log n) in the insertions before it.
    pub fn retract(&mut self, id: u64, end: Time) -> Result<(), GuardFault>
        ensures judged { (before : List EventLine) → StandsFor self.old before → Judges result (fault_behind before (Retract id end)) }
        ensures stands { OnOk result ((before : List EventLine) → StandsFor self.old before → StandsFor self.new (before ++ Retract id end ∷ [])) }
        ensures stays { OnErr result (self.new ≡ self.old) }
    {
        let found = self.find(id, end)?;
        self.cut(found.place, end);
        Ok(())
    }

    /// Accepts a revision of the event with this id, which is valid in this interval from now on, and answers the
    /// event's place among the insertions; or answers its least fault, which changes nothing. Its cost is that of a
    /// retraction.
    pub fn revise(&mut self, id: u64, begin: Time, end: Time) -> Result<usize, GuardFault>
        ensures judged { (before : List EventLine) (row : Row) → StandsFor self.old before → interval_of row ≡ record { begin = begin; end = end }
            → Judges result (fault_behind before (Revise id row)) }
        ensures place { IfOk result (λ place. (before : List EventLine) → StandsFor self.old before → place_of_event id before ≡ Some place) }
        ensures stands { OnOk result ((before : List EventLine) (row : Row) → StandsFor self.old before → interval_of row ≡ record { begin = begin; end = end }
            → StandsFor self.new (before ++ Revise id row ∷ [])) }
        ensures stays { OnErr result (self.new ≡ self.old) }
    {
        let found = self.find_revised(id, begin)?;
        self.replace(found.place, Interval { begin, end });
        Ok(found.place)
    }

    /// The event with this id.
    fn event(&self, id: u64) -> Option<FoundEvent>
        ensures some { IfSome result (λ found. (before : List EventLine) → StandsFor self.now before → IsEventOf id before found) }
        ensures none { IfNone result ((before : List EventLine) → StandsFor self.now before → event_with id before ≡ None) }
        ensures within { IfSome result (λ found. found.place < length self.now.intervals.items) }
    {
        let place = self.ids.place(id)?;
        let interval = self.intervals.get(place).copied()?;
        Some(FoundEvent { place, interval })
    }

    /// The event that a retraction is about, or the retraction's least fault.
    pub(crate) fn find(&self, id: u64, end: Time) -> Result<FoundEvent, GuardFault>
        ensures judged { (before : List EventLine) → StandsFor self.now before → Judges result (fault_behind before (Retract id end)) }
        ensures event { IfOk result (λ found. (before : List EventLine) → StandsFor self.now before → IsEventOf id before found) }
        ensures within { IfOk result (λ found. found.place < length self.now.intervals.items) }
    {
        let Some(found) = self.event(id) else {
            return Err(GuardFault::Line(LineFault::UnknownId));
        };
        match retraction_fault(found.interval, end, self.mark) {
            Some(fault) => Err(GuardFault::Line(fault)),
            None => Ok(found),
        }
    }

    /// The event that a revision with this begin is about, or the revision's least fault.
    pub(crate) fn find_revised(&self, id: u64, begin: Time) -> Result<FoundEvent, GuardFault>
        ensures judged { (before : List EventLine) (row : Row) → StandsFor self.now before → row.begin ≡ begin → Judges result (fault_behind before (Revise id row)) }
        ensures event { IfOk result (λ found. (before : List EventLine) → StandsFor self.now before → IsEventOf id before found) }
        ensures within { IfOk result (λ found. found.place < length self.now.intervals.items) }
    {
        let Some(found) = self.event(id) else {
            return Err(GuardFault::Line(LineFault::UnknownId));
        };
        match revision_fault(found.interval, begin, self.mark) {
            Some(fault) => Err(GuardFault::Line(fault)),
            None => Ok(found),
        }
    }

    /// Ends the event at this place earlier.
    pub(crate) fn cut(&mut self, place: usize, end: Time)
        requires { place < length self.old.intervals.items }
        ensures { (before : List EventLine) (id : ℕ) → StandsFor self.old before → place_of_event id before ≡ Some place → fault_behind before (Retract id end) ≡ None
            → StandsFor self.new (before ++ Retract id end ∷ []) }
    {
        self.intervals[place].end = end;
    }

    /// Makes the event at this place valid in this interval instead.
    pub(crate) fn replace(&mut self, place: usize, interval: Interval)
        requires { place < length self.old.intervals.items }
        ensures { (before : List EventLine) (id : ℕ) (row : Row) → StandsFor self.old before → place_of_event id before ≡ Some place → interval_of row ≡ interval
            → StandsFor self.new (before ++ Revise id row ∷ []) }
    {
        self.intervals[place] = interval;
    }

    /// Takes a guarantee, and answers whether it is above the greatest earlier one, or above 0 where there was
    /// none.
    pub fn promise(&mut self, time: Time) -> bool
        ensures rises { (before : List EventLine) → StandsFor self.old before → result ≡ nat_lt (guarantee_of before) time }
        ensures stands { (before : List EventLine) → StandsFor self.old before → StandsFor self.new (before ++ Promise time ∷ []) }
    {
        let rises = self.mark < time;
        self.mark = self.mark.max(time);
        rises
    }

    /// The greatest guarantee, 0 where there was none.
    pub fn mark(&self) -> Time
        ensures { (lines : List EventLine) → StandsFor self.now lines → result ≡ guarantee_of lines }
    {
        self.mark
    }

    /// A judge of lines that have come to this state. O(n) in its events.
    pub fn restore(alloc: Global, state: &SourceState) -> Result<Judge, OutOfMemory>
        requires { IsFit (state_in state.now) }
        ensures { IfOk result (λ judge. StandsFor judge (lines_of (state_in state.now))) }
    {
        let ids = Ids::of_events(alloc, &state.events)?;
        let intervals = intervals_of(alloc, &state.events)?;
        Ok(Judge {
            ids,
            intervals,
            mark: state.mark,
        })
    }

    /// Each known id with its place, by ascending ids. O(n log n).
    pub(crate) fn places(&self) -> Result<Vec<IdPlace>, OutOfMemory>
        ensures rising { IfOk result (λ entries. AreRising entries.items) }
        ensures places { IfOk result (λ entries. (id : ℕ) → place_among id entries.items ≡ place_in self.now.ids id) }
    {
        self.ids.in_order(*self.intervals.allocator())
    }

    /// The valid interval at a place, and an empty one where there is none.
    pub(crate) fn interval(&self, place: usize) -> Interval
        ensures { result ≡ slice_index_or self.now.intervals.items place (record { begin = 0; end = 0 }) }
    {
        match self.intervals.get(place) {
            Some(interval) => *interval,
            None => Interval { begin: 0, end: 0 },
        }
    }

    /// The valid interval of each insertion's event as the accepted lines leave it, in the order of the
    /// insertions.
    pub fn into_intervals(self) -> Vec<Interval>
        ensures { (lines : List EventLine) → StandsFor self lines → result.items ≡ map interval_of (rows_among lines) }
    {
        self.intervals
    }
}

/// When each of the events is valid.
fn intervals_of(alloc: Global, events: &[EventState]) -> Result<Vec<Interval>, OutOfMemory>
    ensures { IfOk result (λ intervals. intervals.items ≡ map event_interval events.now) }
{
    let mut intervals = Vec::with_capacity(alloc, events.len())?;
    for event in events {
        intervals.push(Interval {
            begin: event.begin,
            end: event.end,
        })?;
    }
    Ok(intervals)
}

/// The fault of a sync that is below the guarantee.
fn guarantee_fault(sync: Time, mark: Time) -> Option<LineFault>
    ensures { result ≡ guarantee_fault sync mark }
{
    if sync < mark {
        Some(LineFault::BeforeGuarantee { sync, mark })
    } else {
        None
    }
}

/// The fault of a new end for an event with this valid interval.
fn retraction_fault(interval: Interval, end: Time, mark: Time) -> Option<LineFault>
    ensures { (row : Row) → interval_of row ≡ interval → result ≡ retraction_fault (Some row) end mark }
{
    if end < interval.begin || interval.end <= end {
        return Some(LineFault::BadEnd {
            begin: interval.begin,
            end: interval.end,
        });
    }
    guarantee_fault(end, mark)
}

/// The fault of a revision with this begin, for an event with this valid interval: its sync is the lesser begin,
/// or its own where the event is withdrawn.
fn revision_fault(interval: Interval, begin: Time, mark: Time) -> Option<LineFault>
    ensures { (row : Row) → interval_of row ≡ interval → result ≡ revision_fault (Some row) begin mark }
{
    let lives = interval.begin < interval.end;
    let sync = if lives {
        interval.begin.min(begin)
    } else {
        begin
    };
    guarantee_fault(sync, mark)
}
