ghost use Rattle.std.specs.Prelude.{◌≡◌, ◌++◌, [], List, Some, None, IfOk, OnOk, OnErr, is_some};
ghost use Rattle.cedr_text.specs.declared.event_line.EventLine.{EventLine};
ghost use Rattle.cedr_text.specs.declared.event_line.EventLine.TheVariants.{Insert, Retract, Revise, Promise};
ghost use Rattle.cedr_text.specs.Reading.{IsEvent};
ghost use Rattle.cedr_base.specs.declared.row.Row.{Row as RowValue};
ghost use Rattle.cedr_guard.specs.Judging.{fault_behind, guarantee_of, retraction_fault, revision_fault};
ghost use Rattle.cedr_guard.specs.Messages.{line_messages, Appended};
ghost use Rattle.cedr_guard.specs.Spelt.{state_in, state_row, lines_of, IsFit};
ghost use Rattle.cedr_guard.specs.Standing.{Judges};
ghost use Rattle.cedr_guard.specs.States.{as_it_is};
ghost use Rattle.open_events.specs.Events.{open_row};
ghost use Rattle.source_memory.specs.Opened.{Recalls};
ghost use Rattle.source_memory.specs.Remembered.{remembered_lines, kept_with};

use crate::fault::{guarantee_fault, retraction_fault, revision_fault};
use cedr_base::{Change, Interval, Message, OutOfMemory, Payload, Row, Time};
use cedr_guard::{EventState, GuardFault, SourceState};
use cedr_text::{EventLine, LineFault};
use open_events::OpenEvents;
use std::alloc::Global;

/// Judges event lines against what is remembered of the accepted lines before them, and gives the messages that an accepted
/// line becomes. It stands for the list of the lines that are kept: after a guarantee that rose the events that end below it
/// are forgotten, so that later lines are judged as if their ids had never been inserted.
///
/// It keeps the row of each event that isn't over, without the fields where the event is withdrawn.
pub struct OpenGuard {
    events: OpenEvents,
    /// The greatest guarantee, 0 at first.
    mark: Time,
}

impl Drop for OpenGuard {
    fn drop(self) {
        let OpenGuard { events: _, mark: _ } = self;
    }
}

/// The row of an event, as it is.
fn row_as_it_is(
    alloc: Global,
    begin: Time,
    end: Time,
    payload: &Payload,
) -> Result<Row, OutOfMemory>
    ensures { IfOk result (λ row. row ≡ as_it_is (record { end = end; begin = begin; payload = payload.now })) }
{
    let payload = if begin < end {
        payload.copy(alloc)?
    } else {
        Payload::new(alloc)
    };
    Ok(Row {
        end,
        begin,
        payload,
    })
}

/// The row of an event of a state, as it is.
fn event_row(alloc: Global, event: &EventState) -> Result<Row, OutOfMemory>
    ensures { IfOk result (λ row. row ≡ as_it_is (state_row event.now)) }
{
    row_as_it_is(alloc, event.begin, event.end, &event.payload)
}

impl OpenGuard {
    /// It takes no memory.
    pub fn new(alloc: Global) -> OpenGuard
        ensures { Recalls result [] }
    {
        OpenGuard {
            events: OpenEvents::new(alloc),
            mark: 0,
        }
    }

    /// A guard that judges by what is remembered of the lines that spell this state. The payloads are shared, not copied.
    /// O(n log n) in the events.
    pub fn restore(alloc: Global, state: &SourceState) -> Result<OpenGuard, OutOfMemory>
        requires { IsFit (state_in state.now) }
        ensures { IfOk result (λ guard. Recalls guard (remembered_lines (lines_of (state_in state.now)))) }
    {
        let mark = state.mark;
        let mut events = OpenEvents::new(alloc);
        for event in &state.events {
            if event.end < mark {
                continue;
            }
            let row = event_row(alloc, event)?;
            events.put(event.id, row)?;
        }
        Ok(OpenGuard { events, mark })
    }

    /// Accepts the line and appends its messages, at most two, or answers its least fault, which changes neither the
    /// guard nor `out`. A guarantee that isn't above `mark()` has no message; one that is makes the guard forget the events
    /// that end below it. The payload is shared, not copied. O(log n) in the events that aren't over, and O(log n) for each
    /// event that is forgotten.
    pub fn accept(&mut self, line: &EventLine, out: &mut Vec<Message>) -> Result<(), GuardFault>
        requires event { IsEvent line.now }
        ensures judged { (kept : List EventLine) → Recalls self.old kept → Judges result (fault_behind kept line.now) }
        ensures appends { OnOk result ((kept : List EventLine) → Recalls self.old kept → out.new.items ≡ out.old.items ++ line_messages kept line.now) }
        ensures appended { Appended out.old.items out.new.items }
        ensures kept { OnErr result (out.new.items ≡ out.old.items) }
        ensures stands { OnOk result ((kept : List EventLine) → Recalls self.old kept → Recalls self.new (kept_with kept line.now)) }
        ensures stays { OnErr result ((kept : List EventLine) → Recalls self.old kept → Recalls self.new kept) }
    {
        match line {
            EventLine::Insert { id, row } => self.insert(*id, row, out),
            EventLine::Retract { id, end } => self.retract(*id, *end, out),
            EventLine::Revise { id, row } => self.revise(*id, row, out),
            EventLine::Promise(time) => self.promise(*time, out),
        }
    }

    /// Whether an id has an event that isn't over.
    fn knows(&self, id: u64) -> bool
        ensures { result ≡ is_some (open_row self.now.events id) }
    {
        self.events.get(id).is_some()
    }

    /// A copy of the row of the event that a retraction is about, or the retraction's least fault.
    fn find(&self, alloc: Global, id: u64, end: Time) -> Result<Row, GuardFault>
        ensures judged { (kept : List EventLine) → Recalls self.now kept → Judges result (fault_behind kept (Retract id end)) }
        ensures found { IfOk result (λ row. (open_row self.now.events id ≡ Some row) × (retraction_fault (Some row) end self.now.mark ≡ None)) }
    {
        let Some(event) = self.events.get(id) else {
            return Err(GuardFault::Line(LineFault::UnknownId));
        };
        match retraction_fault(event, end, self.mark) {
            Some(fault) => Err(GuardFault::Line(fault)),
            None => Ok(event.copy(alloc)?),
        }
    }

    /// A copy of the row of the event that a revision with this begin is about, or the revision's least fault.
    fn find_revised(&self, alloc: Global, id: u64, begin: Time) -> Result<Row, GuardFault>
        ensures judged { (kept : List EventLine) (row : RowValue) → Recalls self.now kept → row.begin ≡ begin → Judges result (fault_behind kept (Revise id row)) }
        ensures found { IfOk result (λ row. (open_row self.now.events id ≡ Some row) × (revision_fault (Some row) begin self.now.mark ≡ None)) }
    {
        let Some(event) = self.events.get(id) else {
            return Err(GuardFault::Line(LineFault::UnknownId));
        };
        match revision_fault(event, begin, self.mark) {
            Some(fault) => Err(GuardFault::Line(fault)),
            None => Ok(event.copy(alloc)?),
        }
    }

    fn promise(&mut self, time: Time, out: &mut Vec<Message>) -> Result<(), GuardFault>
        requires event { IsEvent (Promise time) }
        ensures judged { (kept : List EventLine) → Recalls self.old kept → Judges result (fault_behind kept (Promise time)) }
        ensures appends { OnOk result ((kept : List EventLine) → Recalls self.old kept → out.new.items ≡ out.old.items ++ line_messages kept (Promise time)) }
        ensures appended { Appended out.old.items out.new.items }
        ensures kept { OnErr result (out.new.items ≡ out.old.items) }
        ensures stands { OnOk result ((kept : List EventLine) → Recalls self.old kept → Recalls self.new (kept_with kept (Promise time))) }
        ensures stays { OnErr result (self.new ≡ self.old) }
    {
        let mark = self.mark;
        if time <= mark {
            return Ok(());
        }
        out.push(Message::Mark(time))?;
        self.mark = time;
        self.events.forget_ended(time);
        Ok(())
    }

    fn insert(&mut self, id: u64, row: &Row, out: &mut Vec<Message>) -> Result<(), GuardFault>
        requires event { IsEvent (Insert id row.now) }
        ensures judged { (kept : List EventLine) → Recalls self.old kept → Judges result (fault_behind kept (Insert id row.now)) }
        ensures appends { OnOk result ((kept : List EventLine) → Recalls self.old kept → out.new.items ≡ out.old.items ++ line_messages kept (Insert id row.now)) }
        ensures appended { Appended out.old.items out.new.items }
        ensures kept { OnErr result (out.new.items ≡ out.old.items) }
        ensures stands { OnOk result ((kept : List EventLine) → Recalls self.old kept → Recalls self.new (kept_with kept (Insert id row.now))) }
        ensures stays { OnErr result ((kept : List EventLine) → Recalls self.old kept → Recalls self.new kept) }
    {
        if self.knows(id) {
            return Err(GuardFault::Line(LineFault::KnownId));
        }
        if let Some(fault) = guarantee_fault(row.begin, self.mark) {
            return Err(GuardFault::Line(fault));
        }
        let alloc = *out.allocator();
        let added = row.copy(alloc)?;
        let kept = row.copy(alloc)?;
        out.reserve(1).map_err(OutOfMemory::from)?;
        self.events.put(id, kept)?;
        out.push(Message::Change(Change::Add(added)))?;
        Ok(())
    }

    fn retract(&mut self, id: u64, end: Time, out: &mut Vec<Message>) -> Result<(), GuardFault>
        requires event { IsEvent (Retract id end) }
        ensures judged { (kept : List EventLine) → Recalls self.old kept → Judges result (fault_behind kept (Retract id end)) }
        ensures appends { OnOk result ((kept : List EventLine) → Recalls self.old kept → out.new.items ≡ out.old.items ++ line_messages kept (Retract id end)) }
        ensures appended { Appended out.old.items out.new.items }
        ensures kept { OnErr result (out.new.items ≡ out.old.items) }
        ensures stands { OnOk result ((kept : List EventLine) → Recalls self.old kept → Recalls self.new (kept_with kept (Retract id end))) }
        ensures stays { OnErr result ((kept : List EventLine) → Recalls self.old kept → Recalls self.new kept) }
    {
        let alloc = *out.allocator();
        let before = self.find(alloc, id, end)?;
        let left = row_as_it_is(alloc, before.begin, end, &before.payload)?;
        out.reserve(1).map_err(OutOfMemory::from)?;
        self.events.put(id, left)?;
        out.push(Message::Change(Change::Cut(before, end)))?;
        Ok(())
    }

    fn revise(&mut self, id: u64, row: &Row, out: &mut Vec<Message>) -> Result<(), GuardFault>
        requires event { IsEvent (Revise id row.now) }
        ensures judged { (kept : List EventLine) → Recalls self.old kept → Judges result (fault_behind kept (Revise id row.now)) }
        ensures appends { OnOk result ((kept : List EventLine) → Recalls self.old kept → out.new.items ≡ out.old.items ++ line_messages kept (Revise id row.now)) }
        ensures appended { Appended out.old.items out.new.items }
        ensures kept { OnErr result (out.new.items ≡ out.old.items) }
        ensures stands { OnOk result ((kept : List EventLine) → Recalls self.old kept → Recalls self.new (kept_with kept (Revise id row.now))) }
        ensures stays { OnErr result ((kept : List EventLine) → Recalls self.old kept → Recalls self.new kept) }
    {
        let alloc = *out.allocator();
        let before = self.find_revised(alloc, id, row.begin)?;
        let interval = Interval {
            begin: before.begin,
            end: before.end,
        };
        let added = row.copy(alloc)?;
        let kept = row.copy(alloc)?;
        out.reserve(2).map_err(OutOfMemory::from)?;
        self.events.put(id, kept)?;
        if interval.begin < interval.end {
            out.push(Message::Change(Change::Cut(before, interval.begin)))?;
        }
        out.push(Message::Change(Change::Add(added)))?;
        Ok(())
    }

    /// The greatest guarantee, 0 where there was none. It takes no memory.
    pub fn mark(&self) -> Time
        ensures { (kept : List EventLine) → Recalls self.now kept → result ≡ guarantee_of kept }
    {
        self.mark
    }
}
