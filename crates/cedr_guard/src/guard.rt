ghost use Rattle.std.specs.Prelude.{◌≡◌, ◌≤◌, ◌<◌, ◌++◌, ◌∷◌, [], List, length, map, IfOk, IfSome, IfNone, OnOk, OnErr, slice_index_or, slice_set};
ghost use Rattle.cedr_guard.specs.declared.state.EventState.{EventState};
ghost use Rattle.cedr_text.specs.declared.event_line.EventLine.{EventLine};
ghost use Rattle.cedr_text.specs.declared.event_line.EventLine.TheVariants.{Insert, Retract, Revise, Promise};
ghost use Rattle.cedr_guard.specs.Judging.{fault_behind, guarantee_of};
ghost use Rattle.cedr_text.specs.Reading.{IsEvent};
ghost use Rattle.cedr_guard.specs.Messages.{line_messages, Appended};
ghost use Rattle.cedr_guard.specs.Spelt.{state_in, state_of, state_row, lines_of, IsFit};
ghost use Rattle.cedr_guard.specs.Standing.{Guards, Judges, row_payload, stored_event};

use crate::fault::GuardFault;
use crate::ids::IdPlace;
use crate::judge::{FoundEvent, Judge};
use crate::state::{EventState, SourceState};
use cedr_base::{Change, Interval, Message, OutOfMemory, Payload, Row, Time};
use cedr_text::{EventLine, LineFault};
use std::alloc::Global;
use std::mem::replace;

/// Judges event lines against the accepted lines before them, and gives the messages that an accepted line
/// becomes. It stands for the list of the accepted lines.
///
/// It keeps the payload of each insertion's event as it is now, besides what a `Judge` keeps.
pub struct Guard {
    judge: Judge,
    /// One for each insertion, in order.
    payloads: Vec<Payload>,
}

impl Drop for Guard {
    fn drop(self) {
        let Guard {
            judge: _,
            payloads: _,
        } = self;
    }
}

impl Guard {
    /// It takes no memory.
    pub fn new(alloc: Global) -> Guard
        ensures { Guards result [] }
    {
        Guard {
            judge: Judge::new(alloc),
            payloads: Vec::new(alloc),
        }
    }

    /// A guard that judges as one whose earlier lines have come to this state. The payloads are shared, not copied.
    /// O(n) in the events.
    pub fn restore(alloc: Global, state: &SourceState) -> Result<Guard, OutOfMemory>
        requires { IsFit (state_in state.now) }
        ensures { IfOk result (λ guard. Guards guard (lines_of (state_in state.now))) }
    {
        let judge = Judge::restore(alloc, state)?;
        let payloads = payloads_of(alloc, &state.events)?;
        Ok(Guard { judge, payloads })
    }

    /// What the accepted lines have come to. The payloads are shared, not copied. O(n log n) in the insertions.
    pub fn state(&self) -> Result<SourceState, OutOfMemory>
        ensures { IfOk result (λ state. (lines : List EventLine) → Guards self.now lines → state_in state ≡ state_of lines) }
    {
        let places = self.judge.places()?;
        let mut events = Vec::with_capacity(*self.payloads.allocator(), places.len())?;
        for entry in &places {
            events.push(self.stored_event(*entry)?)?;
        }
        Ok(SourceState {
            mark: self.judge.mark(),
            events,
        })
    }

    /// The event with this id that stands at this place, as it is.
    fn stored_event(&self, entry: IdPlace) -> Result<EventState, OutOfMemory>
        ensures { IfOk result (λ event. event ≡ stored_event self.now entry) }
    {
        let alloc = *self.payloads.allocator();
        let Interval { begin, end } = self.judge.interval(entry.place);
        let payload = match self.payloads.get(entry.place) {
            Some(payload) if begin < end => payload.copy(alloc)?,
            _ => Payload::new(alloc),
        };
        Ok(EventState {
            id: entry.id,
            begin,
            end,
            payload,
        })
    }

    /// Accepts the line and appends its messages, at most two, or answers its least fault, which changes neither the
    /// guard nor `out`. A guarantee that isn't above `mark()` has no message. The payload is shared, not copied. O(1)
    /// for an insertion whose id is above all before it, else O(log n) in the insertions before it.
    pub fn accept(&mut self, line: &EventLine, out: &mut Vec<Message>) -> Result<(), GuardFault>
        requires event { IsEvent line.now }
        ensures judged { (before : List EventLine) → Guards self.old before → Judges result (fault_behind before line.now) }
        ensures appends { OnOk result ((before : List EventLine) → Guards self.old before → out.new.items ≡ out.old.items ++ line_messages before line.now) }
        ensures appended { Appended out.old.items out.new.items }
        ensures kept { OnErr result (out.new.items ≡ out.old.items) }
        ensures stands { OnOk result ((before : List EventLine) → Guards self.old before → Guards self.new (before ++ line.now ∷ [])) }
        ensures stays { OnErr result ((before : List EventLine) → Guards self.old before → Guards self.new before) }
    {
        match line {
            EventLine::Insert { id, row } => self.insert(*id, row, out),
            EventLine::Retract { id, end } => self.retract(*id, *end, out),
            EventLine::Revise { id, row } => self.revise(*id, row, out),
            EventLine::Promise(time) => self.promise(*time, out),
        }
    }

    fn promise(&mut self, time: Time, out: &mut Vec<Message>) -> Result<(), GuardFault>
        requires event { IsEvent (Promise time) }
        ensures judged { (before : List EventLine) → Guards self.old before → Judges result (fault_behind before (Promise time)) }
        ensures appends { OnOk result ((before : List EventLine) → Guards self.old before → out.new.items ≡ out.old.items ++ line_messages before (Promise time)) }
        ensures appended { Appended out.old.items out.new.items }
        ensures kept { OnErr result (out.new.items ≡ out.old.items) }
        ensures stands { OnOk result ((before : List EventLine) → Guards self.old before → Guards self.new (before ++ Promise time ∷ [])) }
        ensures stays { OnErr result (self.new ≡ self.old) }
    {
        if self.judge.mark() < time {
            out.push(Message::Mark(time))?;
        }
        self.judge.promise(time);
        Ok(())
    }

    fn insert(&mut self, id: u64, row: &Row, out: &mut Vec<Message>) -> Result<(), GuardFault>
        requires event { IsEvent (Insert id row.now) }
        ensures judged { (before : List EventLine) → Guards self.old before → Judges result (fault_behind before (Insert id row.now)) }
        ensures appends { OnOk result ((before : List EventLine) → Guards self.old before → out.new.items ≡ out.old.items ++ line_messages before (Insert id row.now)) }
        ensures appended { Appended out.old.items out.new.items }
        ensures kept { OnErr result (out.new.items ≡ out.old.items) }
        ensures stands { OnOk result ((before : List EventLine) → Guards self.old before → Guards self.new (before ++ Insert id row.now ∷ [])) }
        ensures stays { OnErr result ((before : List EventLine) → Guards self.old before → Guards self.new before) }
    {
        let alloc = *self.payloads.allocator();
        let added = row.copy(alloc)?;
        let kept = row.payload.copy(alloc)?;
        out.reserve(1).map_err(OutOfMemory::from)?;
        self.payloads.push(kept)?;
        if let Err(fault) = self.judge.insert(id, row.begin, row.end) {
            self.payloads.pop();
            return Err(fault);
        }
        out.push(Message::Change(Change::Add(added)))?;
        Ok(())
    }

    fn retract(&mut self, id: u64, end: Time, out: &mut Vec<Message>) -> Result<(), GuardFault>
        requires event { IsEvent (Retract id end) }
        ensures judged { (before : List EventLine) → Guards self.old before → Judges result (fault_behind before (Retract id end)) }
        ensures appends { OnOk result ((before : List EventLine) → Guards self.old before → out.new.items ≡ out.old.items ++ line_messages before (Retract id end)) }
        ensures appended { Appended out.old.items out.new.items }
        ensures kept { OnErr result (out.new.items ≡ out.old.items) }
        ensures stands { OnOk result ((before : List EventLine) → Guards self.old before → Guards self.new (before ++ Retract id end ∷ [])) }
        ensures stays { OnErr result (self.new ≡ self.old) }
    {
        let FoundEvent { place, interval } = self.judge.find(id, end)?;
        let Some(payload) = self.payloads.get(place) else {
            return Err(GuardFault::Line(LineFault::UnknownId));
        };
        let payload = payload.copy(*self.payloads.allocator())?;
        let row = Row {
            end: interval.end,
            begin: interval.begin,
            payload,
        };
        out.push(Message::Change(Change::Cut(row, end)))?;
        self.judge.cut(place, end);
        Ok(())
    }

    fn revise(&mut self, id: u64, row: &Row, out: &mut Vec<Message>) -> Result<(), GuardFault>
        requires event { IsEvent (Revise id row.now) }
        ensures judged { (before : List EventLine) → Guards self.old before → Judges result (fault_behind before (Revise id row.now)) }
        ensures appends { OnOk result ((before : List EventLine) → Guards self.old before → out.new.items ≡ out.old.items ++ line_messages before (Revise id row.now)) }
        ensures appended { Appended out.old.items out.new.items }
        ensures kept { OnErr result (out.new.items ≡ out.old.items) }
        ensures stands { OnOk result ((before : List EventLine) → Guards self.old before → Guards self.new (before ++ Revise id row.now ∷ [])) }
        ensures stays { OnErr result (self.new ≡ self.old) }
    {
        let FoundEvent { place, interval } = self.judge.find_revised(id, row.begin)?;
        let alloc = *self.payloads.allocator();
        let added = row.copy(alloc)?;
        let kept = row.payload.copy(alloc)?;
        out.reserve(2).map_err(OutOfMemory::from)?;
        let Some(payload) = put_payload(&mut self.payloads, place, kept) else {
            return Err(GuardFault::Line(LineFault::UnknownId));
        };
        if interval.begin < interval.end {
            let withdrawn = Row {
                end: interval.end,
                begin: interval.begin,
                payload,
            };
            out.push(Message::Change(Change::Cut(withdrawn, interval.begin)))?;
        }
        out.push(Message::Change(Change::Add(added)))?;
        let interval = Interval {
            begin: row.begin,
            end: row.end,
        };
        self.judge.replace(place, interval);
        Ok(())
    }

    /// The greatest guarantee, 0 where there was none. It takes no memory.
    pub fn mark(&self) -> Time
        ensures { (lines : List EventLine) → Guards self.now lines → result ≡ guarantee_of lines }
    {
        self.judge.mark()
    }
}

/// The payload of each of the events.
fn payloads_of(alloc: Global, events: &[EventState]) -> Result<Vec<Payload>, OutOfMemory>
    ensures { IfOk result (λ payloads. payloads.items ≡ map (λ (e : EventState). e.payload) events.now) }
{
    let mut payloads = Vec::with_capacity(alloc, events.len())?;
    for event in events {
        payloads.push(event.payload.copy(alloc)?)?;
    }
    Ok(payloads)
}

/// Puts a payload at a place, and answers the one that was there.
fn put_payload(payloads: &mut Vec<Payload>, place: usize, payload: Payload) -> Option<Payload>
    ensures some { IfSome result (λ old. (place < length payloads.old.items) × (slice_index_or payloads.old.items place old ≡ old) × (payloads.new.items ≡ slice_set payloads.old.items place payload)) }
    ensures none { IfNone result ((length payloads.old.items ≤ place) × (payloads.new ≡ payloads.old)) }
{
    if place < payloads.len() {
        Some(replace(&mut payloads[place], payload))
    } else {
        None
    }
}
