ghost use Rattle.std.specs.Prelude.{◌≡◌, ◌<◌, ◌≤◌, ◌+◌, ◌^◌, ◌++◌, ◌∷◌, [], List, true, false, not, length, replicate, OnOk, IfOk, IfSome, IfNone};
ghost use Rattle.std.specs.List.{filter};
ghost use Rattle.cedr_base.specs.declared.change.Message.{Message};
ghost use Rattle.cedr_base.specs.declared.change.Message.TheVariants as message;
ghost use Rattle.cedr_base.specs.Messages.{MayCome, IsLegalBehind};
ghost use Rattle.cedr_base.specs.Rows.{in_order, SameRows};
ghost use Rattle.cedr_table.specs.Counted.{ends_after};
ghost use Rattle.cedr_net.specs.Keeping.{keeps_all, hands_on, taken_number};
ghost use Rattle.cedr_net.specs.Networks.{AreAnswerRows, HoldsAnswer, IsAnswerOf, TakesOn};

use crate::keeping::Keeping;
use cedr_base::{Change, Message, OutOfMemory, Row, Time};
use cedr_table::{Table, apply_change};
use op_driver::take_only;
use std::alloc::Global;
use std::mem::replace;

/// What is kept of the messages that came of an output: the table of their changes and, where they are kept, these changes;
/// or the messages alone that weren't taken yet.
///
/// Of what ends below the last mark nothing changes any more, so these rows have left the ordered map of the others.
#[derive(Drop)]
pub(crate) struct Answer {
    pub(crate) keeps: Keeping,
    /// The messages that weren't taken yet. None where they aren't handed on.
    pub(crate) fresh: Vec<Message>,
    /// None where they aren't kept.
    pub(crate) changes: Vec<Change>,
    /// The rows that end below the last mark, in canonical order.
    pub(crate) final_rows: Vec<Row>,
    /// The others.
    pub(crate) table: Table,
}

/// Appends copies of rows.
fn push_rows(rows: &mut Vec<Row>, others: &[Row]) -> Result<(), OutOfMemory>
    ensures { OnOk result (rows.new.items ≡ rows.old.items ++ others.now) }
{
    for row in others {
        let copied = row.copy(*rows.allocator())?;
        rows.push(copied)?;
    }
    Ok(())
}

/// Appends this many copies of a row, the last of which is the row itself.
fn push_copies(rows: &mut Vec<Row>, row: Row, count: usize) -> Result<(), OutOfMemory>
    requires { 0 < count }
    ensures { OnOk result (rows.new.items ≡ rows.old.items ++ replicate count row) }
{
    for _ in 1..count {
        let copied = row.copy(*rows.allocator())?;
        rows.push(copied)?;
    }
    rows.push(row)?;
    Ok(())
}

/// Takes the rows out of a table that end at a time or before, and appends them in canonical order. O(log n) for each of
/// them that differs from the others, and for one that stays.
fn take_ended(table: &mut Table, time: Time, rows: &mut Vec<Row>) -> Result<(), OutOfMemory>
    ensures taken { OnOk result (rows.new.items ≡ rows.old.items ++ in_order (filter (λ r. not (ends_after time r)) table.old)) }
    ensures left { OnOk result (SameRows table.new (filter (ends_after time) table.old)) }
{
    while let Some((row, count)) = table.pop_ended(time) {
        push_copies(rows, row, count)?;
    }
    Ok(())
}

/// Takes all rows out of a table, and appends them in canonical order.
fn take_rest(mut table: Table, rows: &mut Vec<Row>) -> Result<(), OutOfMemory>
    ensures { OnOk result (rows.new.items ≡ rows.old.items ++ in_order table) }
{
    while let Some((row, count)) = table.pop_first() {
        push_copies(rows, row, count)?;
    }
    Ok(())
}

impl Answer {
    /// Nothing came.
    pub(crate) fn new(alloc: Global, keeps: Keeping) -> Answer
        requires { taken_number keeps ≡ 0 }
        ensures answer { IsAnswerOf result [] }
        ensures keeps { result.keeps ≡ keeps }
    {
        Answer {
            keeps,
            fresh: Vec::new(alloc),
            changes: Vec::new(alloc),
            final_rows: Vec::new(alloc),
            table: Table::new(alloc),
        }
    }

    /// Keeps a copy of a change, where changes are kept.
    fn keep(&mut self, change: &Change) -> Result<(), OutOfMemory>
        ensures kept { OnOk result (keeps_all self.old.keeps ≡ true → self.new.changes.items ≡ self.old.changes.items ++ change.now ∷ []) }
        ensures others { (self.new.keeps ≡ self.old.keeps) × (self.new.final_rows ≡ self.old.final_rows) × (self.new.table ≡ self.old.table) }
    {
        if self.keeps.keeps_changes() {
            let copied = change.copy(*self.changes.allocator())?;
            self.changes.push(copied)?;
        }
        Ok(())
    }

    fn note_change(&mut self, change: Change) -> Result<(), OutOfMemory>
        requires { (given : List Message) × HoldsAnswer self.old given × MayCome given (message.Change change) }
        ensures noted { OnOk result ((given : List Message) → HoldsAnswer self.old given → MayCome given (message.Change change) → HoldsAnswer self.new (given ++ message.Change change ∷ [])) }
        ensures keeps { self.new.keeps ≡ self.old.keeps }
    {
        self.keep(&change)?;
        apply_change(&mut self.table, change)?;
        Ok(())
    }

    /// The rows that end below the mark are final: a change that comes behind it leaves no row with such an end, and takes
    /// none. One that ends at the mark isn't, since a row may still be cut to that end, and stand before it.
    fn note_mark(&mut self, mark: Time) -> Result<(), OutOfMemory>
        requires { (given : List Message) × HoldsAnswer self.old given × MayCome given (message.Mark mark) }
        ensures noted { OnOk result ((given : List Message) → HoldsAnswer self.old given → MayCome given (message.Mark mark) → HoldsAnswer self.new (given ++ message.Mark mark ∷ [])) }
        ensures keeps { self.new.keeps ≡ self.old.keeps }
    {
        take_ended(&mut self.table, mark - 1, &mut self.final_rows)?;
        Ok(())
    }

    fn note(&mut self, message: Message) -> Result<(), OutOfMemory>
        requires { (given : List Message) × HoldsAnswer self.old given × MayCome given message }
        ensures noted { OnOk result ((given : List Message) → HoldsAnswer self.old given → MayCome given message → HoldsAnswer self.new (given ++ message ∷ [])) }
        ensures keeps { self.new.keeps ≡ self.old.keeps }
    {
        match message {
            Message::Change(change) => self.note_change(change),
            Message::Mark(mark) => self.note_mark(mark),
            Message::End => Ok(()),
            Message::Broken => Ok(()),
        }
    }

    /// A piece came of the output. It is moved out of its list, whatever its length is.
    fn note_each(&mut self, piece: &mut Vec<Message>) -> Result<(), OutOfMemory>
        requires { (given : List Message) × HoldsAnswer self.old given × IsLegalBehind given piece.old.items }
        ensures noted { OnOk result ((given : List Message) → HoldsAnswer self.old given → IsLegalBehind given piece.old.items → HoldsAnswer self.new (given ++ piece.old.items)) }
        ensures keeps { self.new.keeps ≡ self.old.keeps }
    {
        for message in piece.drain(..) {
            self.note(message)?;
        }
        Ok(())
    }

    /// A piece came of the output, whose rows are kept. It is moved out of its list.
    fn note_rows(&mut self, piece: &mut Vec<Message>) -> Result<(), OutOfMemory>
        requires { (given : List Message) × HoldsAnswer self.old given × IsLegalBehind given piece.old.items }
        ensures noted { OnOk result ((given : List Message) → HoldsAnswer self.old given → IsLegalBehind given piece.old.items → HoldsAnswer self.new (given ++ piece.old.items)) }
        ensures keeps { self.new.keeps ≡ self.old.keeps }
    {
        match take_only(piece) {
            Some(message) => self.note(message),
            None => self.note_each(piece),
        }
    }

    /// A piece came of the output. It is moved out of its list.
    pub(crate) fn note_all(&mut self, piece: &mut Vec<Message>) -> Result<(), OutOfMemory>
        requires { (given : List Message) × IsAnswerOf self.old given × IsLegalBehind given piece.old.items }
        ensures noted { OnOk result ((given : List Message) → IsAnswerOf self.old given → IsLegalBehind given piece.old.items → IsAnswerOf self.new (given ++ piece.old.items)) }
        ensures keeps { self.new.keeps ≡ self.old.keeps }
    {
        if self.keeps.hands_on() {
            self.fresh.append(piece)?;
            return Ok(());
        }
        self.note_rows(piece)
    }

    /// Takes the messages from the one of this number on, from 0, where it is the first that wasn't taken. It takes no memory.
    pub(crate) fn take_from(&mut self, from: u64) -> Option<Vec<Message>>
        ensures some { IfSome result (λ taken. (given : List Message) → IsAnswerOf self.old given → TakesOn given from taken.items × IsAnswerOf self.new given) }
        ensures next { IfSome result (λ taken. (from ≡ taken_number self.old.keeps) × (taken_number self.new.keeps ≡ from + length taken.items) × (self.new.fresh.items ≡ [])) }
        ensures none { IfNone result ((self.new ≡ self.old) × (hands_on self.old.keeps ≡ true → from ≡ taken_number self.old.keeps → 2 ^ 64 ≤ from + length self.old.fresh.items)) }
        ensures keeps { hands_on self.new.keeps ≡ hands_on self.old.keeps }
    {
        if !self.keeps.is_next(from) {
            return None;
        }
        let next = from.checked_add(self.fresh.len() as u64)?;
        let alloc = *self.fresh.allocator();
        self.keeps = Keeping::Messages(next);
        Some(replace(&mut self.fresh, Vec::new(alloc)))
    }

    /// Copies of the rows in canonical order.
    pub(crate) fn rows(&self) -> Result<Vec<Row>, OutOfMemory>
        requires { hands_on self.now.keeps ≡ false }
        ensures { IfOk result (λ rows. (given : List Message) → IsAnswerOf self.now given → AreAnswerRows given rows.items) }
    {
        let mut others = self.table.canonical()?;
        let room = self.final_rows.len() + others.len();
        let mut rows = Vec::with_capacity(*self.final_rows.allocator(), room)?;
        push_rows(&mut rows, self.final_rows.as_slice())?;
        rows.append(&mut others)?;
        Ok(rows)
    }

    /// The rows in canonical order.
    pub(crate) fn into_rows(self) -> Result<Vec<Row>, OutOfMemory>
        requires { hands_on self.keeps ≡ false }
        ensures { IfOk result (λ rows. (given : List Message) → IsAnswerOf self given → AreAnswerRows given rows.items) }
    {
        let Answer {
            keeps: _,
            fresh: _fresh,
            changes: _changes,
            final_rows: mut rows,
            table,
        } = self;
        take_rest(table, &mut rows)?;
        Ok(rows)
    }
}
