ghost use Rattle.std.specs.Prelude.{◌≡◌, ◌++◌, ◌∷◌, [], List, IfOk, OnOk, filter};
ghost use Rattle.cedr_text.specs.declared.event_line.EventLine.{EventLine};
ghost use Rattle.cedr_text.specs.EventTexts.{as_line};
ghost use Rattle.cedr_guard.specs.Judging.{fault_behind, row_lives};
ghost use Rattle.cedr_guard.specs.History.{rows_among};
ghost use Rattle.cedr_guard.specs.Standing.{Judges};
ghost use Rattle.cedr_commands.specs.Events.{AreEventsOf, living_rows};

use cedr_base::{Interval, OutOfMemory};
use cedr_guard::{GuardFault, Judge};
use cedr_text::{EventText, PayloadText, TextRow};
use std::alloc::Global;

/// The events of a file's accepted lines. The payload of a line without quotes stays in the bytes of the
/// file.
#[derive(Drop)]
pub(crate) struct Events<'a> {
    judge: Judge,
    /// One for each insertion, in order: that of its event's last version.
    payloads: Vec<PayloadText<'a>>,
}

impl<'a> Events<'a> {
    pub(crate) fn new(alloc: Global) -> Events<'a>
        ensures { AreEventsOf result [] }
    {
        Events {
            judge: Judge::new(alloc),
            payloads: Vec::new(alloc),
        }
    }

    /// Takes one more line, or answers its least fault. O(log n) in the insertions before it. After a fault,
    /// want of memory among them, the events are only to be dropped.
    pub(crate) fn take(&mut self, line: EventText<'a>) -> Result<(), GuardFault>
        ensures judged { (before : List EventLine) → AreEventsOf self.old before → Judges result (fault_behind before (as_line line.entry)) }
        ensures taken { OnOk result ((before : List EventLine) → AreEventsOf self.old before → AreEventsOf self.new (before ++ as_line line.entry ∷ [])) }
    {
        match line {
            EventText::Insert { id, row } => {
                self.judge.insert(id, row.begin, row.end)?;
                self.payloads.push(row.payload)?;
                Ok(())
            }
            EventText::Retract { id, end } => self.judge.retract(id, end),
            EventText::Revise { id, row } => {
                let place = self.judge.revise(id, row.begin, row.end)?;
                if place < self.payloads.len() {
                    self.payloads[place] = row.payload;
                }
                Ok(())
            }
            EventText::Promise(time) => {
                self.judge.promise(time);
                Ok(())
            }
        }
    }

    /// The rows of the events that are left, in the order of their insertions.
    pub(crate) fn into_rows(self, alloc: Global) -> Result<Vec<TextRow<'a>>, OutOfMemory>
        ensures { IfOk result (λ rows. (lines : List EventLine) → AreEventsOf self.entry lines → rows.items ≡ filter row_lives (rows_among lines)) }
    {
        living_rows(alloc, self.judge.into_intervals(), self.payloads)
    }
}

/// The rows with these valid intervals and payloads, without the empty ones.
fn living_rows<'a>(
    alloc: Global,
    intervals: Vec<Interval>,
    payloads: Vec<PayloadText<'a>>,
) -> Result<Vec<TextRow<'a>>, OutOfMemory>
    ensures { IfOk result (λ rows. rows.items ≡ living_rows intervals.items payloads.entry.items) }
{
    let mut rows = Vec::new(alloc);
    rows.try_reserve(intervals.len())?;
    let mut payloads = payloads.into_iter();
    for interval in intervals {
        let Some(payload) = payloads.next() else {
            break;
        };
        if interval.begin < interval.end {
            let (begin, end) = (interval.begin, interval.end);
            rows.push(TextRow {
                end,
                begin,
                payload,
            })?;
        }
    }
    Ok(rows)
}
