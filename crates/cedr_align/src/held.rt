ghost use Rattle.std.specs.Prelude.{ℕ, ◌≡◌, ◌<◌, ◌≤◌, ◌++◌, ◌∷◌, [], List, Option, true, false, nat_lt, not, filter, replicate, IfOk, IfSome, IfNone, OnOk, MatchBool, ◌≢◌};
ghost use Rattle.cedr_base.specs.declared.row.Row.{Row};
ghost use Rattle.cedr_base.specs.declared.change.Change.TheVariants.{Cut};
ghost use Rattle.cedr_base.specs.Rows.{count_of, SameRows};
ghost use Rattle.cedr_base.specs.Changes.{puts, takes};
ghost use Rattle.node_laws.specs.Pass.{is_blocked, is_held, least_begin};
ghost use Rattle.cedr_table.specs.Counted.{IsTakenOut};
ghost use Rattle.cedr_align.specs.Moving.{turned, has_ended, IsMovedOut, IsPopped};
ghost use Rattle.cedr_align.specs.Released.{IsReleased};

use cedr_base::{OutOfMemory, Row, Time, sort_rows};
use cedr_table::Table;
use std::alloc::Global;
use std::marker::Model;

/// A bag of rows that wait, in two orders: by end, and by begin.
///
/// A row leaves by its end where the mark passed it, and by its begin where the block did. The second table has
/// each row with its begin and its end exchanged, so that its canonical order is that of the begins.
#[derive(Drop)]
pub(crate) struct Held {
    by_end: Table,
    by_begin: Table,
}

impl Model for Held {
    ghost use Rattle.std.specs.Prelude.{List};
    ghost use Rattle.cedr_base.specs.declared.row.Row.{Row};
    ghost use Rattle.cedr_base.specs.Rows.{SameRows};
    ghost use Rattle.cedr_align.specs.Moving.{all_turned};

    ghost Value = { List Row };

    ghost view = { λ h. h.by_end };

    ghost invariant = { λ h. SameRows h.by_begin (all_turned h.by_end) };
}

/// The block has passed for a row that begins at this time.
fn has_passed(block: Option<u64>, high: Time, begin: Time) -> bool
    ensures { (r : Row) → r.begin ≡ begin → result ≡ not (is_blocked block high r) }
{
    match block {
        None => false,
        Some(block) => begin <= high && block <= high - begin,
    }
}

/// A row must wait: the mark hasn't passed its end, nor the block its begin, and the list hasn't ended.
pub(crate) fn must_wait(block: Option<u64>, ended: bool, mark: Time, high: Time, row: &Row) -> bool
    ensures { result ≡ is_held block ended mark high row.now }
{
    !ended && row.end >= mark && !has_passed(block, high, row.begin)
}

/// The row with its begin and its end exchanged.
fn turn(mut row: Row) -> Row
    ensures { result ≡ turned row }
{
    let end = row.end;
    row.end = row.begin;
    row.begin = end;
    row
}

impl Held {
    /// No row waits. It takes no memory.
    pub(crate) fn new(alloc: Global) -> Held
        ensures { result ≡ [] }
    {
        Held {
            by_end: Table::new(alloc),
            by_begin: Table::new(alloc),
        }
    }

    /// Whether no row waits. It takes no memory. O(1).
    pub(crate) fn is_empty(&self) -> bool
        ensures { MatchBool result (self.now ≡ []) (self.now ≢ []) }
    {
        self.by_end.len() == 0
    }

    /// How many copies of a row wait.
    pub(crate) fn count(&self, row: &Row) -> usize
        ensures { result ≡ count_of row.now self.now }
    {
        self.by_end.count(row)
    }

    /// Adds a row. Where memory runs out all rows may be lost.
    pub(crate) fn insert(&mut self, alloc: Global, row: Row) -> Result<(), OutOfMemory>
        ensures ok { OnOk result (SameRows self.new (row ∷ self.old)) }
    {
        let other = turn(row.copy(alloc)?);
        self.by_end.insert(row)?;
        match self.by_begin.insert(other) {
            Ok(()) => Ok(()),
            Err(OutOfMemory) => {
                self.by_end = Table::new(alloc);
                self.by_begin = Table::new(alloc);
                Err(OutOfMemory)
            }
        }
    }

    /// Takes a copy of a row away, where one waits. Gives the row back, and says whether one did.
    fn take(&mut self, row: Row) -> (bool, Row)
        ensures row { result.1 ≡ row }
        ensures was_there { result.0 ≡ nat_lt 0 (count_of row self.old) }
        ensures taken { result.0 ≡ true → SameRows (row ∷ self.new) self.old }
        ensures missing { result.0 ≡ false → self.new ≡ self.old }
    {
        if !self.by_end.take(&row) {
            return (false, row);
        }
        let other = turn(row);
        self.by_begin.take(&other);
        (true, turn(other))
    }

    /// Cuts a copy of a row that waits, or gives the row back where none does. Where memory runs out rows may be missing.
    pub(crate) fn cut(
        &mut self,
        alloc: Global,
        row: Row,
        end: Time,
    ) -> Result<Option<Row>, OutOfMemory>
        ensures cut { IfOk result (λ back. IfNone back ((0 < count_of row self.old) × SameRows (self.new ++ takes (Cut row end)) (self.old ++ puts (Cut row end)))) }
        ensures back { IfOk result (λ back. IfSome back (λ r. (r ≡ row) × (count_of row self.old ≡ 0) × (self.new ≡ self.old))) }
    {
        let (found, mut row) = self.take(row);
        if !found {
            return Ok(Some(row));
        }
        if row.begin < end {
            row.end = end;
            self.insert(alloc, row)?;
        }
        Ok(None)
    }

    /// Takes the first row by end away, all copies of it, and gives it with their number.
    fn pop_by_end(&mut self) -> Option<(Row, usize)>
        ensures some { IfSome result (λ found. IsPopped found.0 found.1 self.old self.new × ((r : Row) → 0 < count_of r self.old → found.0.end ≤ r.end)) }
        ensures none { IfNone result ((self.old ≡ []) × (self.new ≡ [])) }
    {
        match self.by_end.pop_first() {
            Some((row, count)) => {
                let other = turn(row);
                self.by_begin.remove(&other);
                Some((turn(other), count))
            }
            None => None,
        }
    }

    /// Takes the first row by begin away, all copies of it, and gives it with their number.
    fn pop_by_begin(&mut self) -> Option<(Row, usize)>
        ensures some { IfSome result (λ found. IsPopped found.0 found.1 self.old self.new × ((r : Row) → 0 < count_of r self.old → found.0.begin ≤ r.begin)) }
        ensures none { IfNone result ((self.old ≡ []) × (self.new ≡ [])) }
    {
        match self.by_begin.pop_first() {
            Some((other, count)) => {
                let row = turn(other);
                self.by_end.remove(&row);
                Some((row, count))
            }
            None => None,
        }
    }
}

/// Appends this many copies of a row, the last of which is the row itself.
fn push_copies(
    alloc: Global,
    rows: &mut Vec<Row>,
    row: Row,
    count: usize,
) -> Result<(), OutOfMemory>
    requires { 0 < count }
    ensures { OnOk result (rows.new.items ≡ rows.old.items ++ replicate count row) }
{
    for _ in 1..count {
        let copied = row.copy(alloc)?;
        rows.push(copied)?;
    }
    rows.push(row)?;
    Ok(())
}

impl Held {
    /// Takes out the first row by end, where it needn't wait for its end.
    fn take_ended(&mut self, ended: bool, mark: Time) -> Option<(Row, usize)>
        ensures { IsTakenOut (has_ended ended mark) self.old self.new result }
    {
        match self.by_end.first() {
            Some(row) if ended || row.end < mark => self.pop_by_end(),
            _ => None,
        }
    }

    /// Takes out the first row by begin, where the block has passed for it.
    fn take_unblocked(&mut self, block: Option<u64>, high: Time) -> Option<(Row, usize)>
        ensures { IsTakenOut (λ r. not (is_blocked block high r)) self.old self.new result }
    {
        match self.by_begin.first() {
            None => None,
            Some(other) => {
                if !has_passed(block, high, other.end) {
                    return None;
                }
                self.pop_by_begin()
            }
        }
    }

    /// Moves out the rows that needn't wait for their ends.
    fn release_ended(
        &mut self,
        alloc: Global,
        ended: bool,
        mark: Time,
        released: &mut Vec<Row>,
    ) -> Result<(), OutOfMemory>
        ensures { OnOk result (IsMovedOut (has_ended ended mark) self.old self.new released.old.items released.new.items) }
    {
        while let Some((row, count)) = self.take_ended(ended, mark) {
            push_copies(alloc, released, row, count)?;
        }
        Ok(())
    }

    /// Moves out the rows for which the block has passed.
    fn release_unblocked(
        &mut self,
        alloc: Global,
        block: Option<u64>,
        high: Time,
        released: &mut Vec<Row>,
    ) -> Result<(), OutOfMemory>
        ensures { OnOk result (IsMovedOut (λ r. not (is_blocked block high r)) self.old self.new released.old.items released.new.items) }
    {
        while let Some((row, count)) = self.take_unblocked(block, high) {
            push_copies(alloc, released, row, count)?;
        }
        Ok(())
    }

    /// Takes out the rows that needn't wait any longer. They stand in the list in canonical order, in place of what stood
    /// there. O(log n) for each of them and for one that stays.
    pub(crate) fn release(
        &mut self,
        alloc: Global,
        block: Option<u64>,
        ended: bool,
        mark: Time,
        high: Time,
        released: &mut Vec<Row>,
    ) -> Result<(), OutOfMemory>
        ensures kept { OnOk result (SameRows self.new (filter (is_held block ended mark high) self.old)) }
        ensures released { OnOk result (IsReleased (is_held block ended mark high) self.old released.new.items) }
    {
        released.clear();
        self.release_ended(alloc, ended, mark, released)?;
        self.release_unblocked(alloc, block, high, released)?;
        sort_rows(released)?;
        Ok(())
    }

    /// The least of a time and the begins of the rows.
    pub(crate) fn least_begin(&self, time: Time) -> Time
        ensures { result ≡ least_begin time self.now }
    {
        match self.by_begin.first() {
            None => time,
            Some(other) => time.min(other.end),
        }
    }
}
