ghost use Rattle.std.specs.Prelude.{ℕ, ◌≡◌, ◌≢◌, ◌+◌, ◌<◌, ◌≤◌, ◌++◌, ◌∷◌, [], true, false, length, IfOk, OnOk};
ghost use Rattle.std.specs.List.{filter, Contains};
ghost use Rattle.std.specs.BTreeMap.{IsOrdered};
ghost use Rattle.std.specs.Ordering.{nat_cmp};
ghost use Rattle.cedr_base.specs.declared.time.TheConstants.{FOREVER};
ghost use Rattle.cedr_base.specs.declared.row.Row.{Row as RowValue};
ghost use Rattle.cedr_base.specs.Rows.{count_of, SameRows};
ghost use Rattle.cedr_base.specs.Changes.{puts, takes, remnant};
ghost use Rattle.cedr_table.specs.Counted.{LacksRow, ends_after};
ghost use Rattle.filed_rows.specs.Filed.{under, all_under, filed_at, IsInUse};
ghost use Rattle.filed_rows.specs.Ends.{AreEnds};

use crate::spans::Spans;
use cedr_base::{Change, FOREVER, OutOfMemory, Row, Time};
use due_tags::DueTags;
use std::alloc::Global;
use std::collections::BTreeMap;
use std::collections::btree_map::Entry;

/// Rows by their tags. No tag stands there without a row.
pub type ByTag = BTreeMap<u64, Spans>;

/// Rows by their tags, and the ends of those that end, each with its row's tag: by these the rows that ended are found
/// without a look at the others. The end of a row that was cut or taken away stays there until it is due, or until the
/// ends have outgrown the rows and are noted anew.
pub struct Filed {
    pub by_tag: ByTag,
    pub ends: DueTags,
    /// How many rows there are, each copy counted.
    len: usize,
}

impl Drop for Filed {
    fn drop(self) {
        let Filed {
            by_tag: _,
            ends: _,
            len: _,
        } = self;
    }
}

/// Cuts a row that is there. Where memory runs out it may be lost.
fn cut_row(rows: &mut Spans, mut row: Row, end: Time) -> Result<(), OutOfMemory>
    requires { 0 < count_of row rows.old }
    ensures { OnOk result (SameRows (rows.new ++ row ∷ []) (rows.old ++ remnant row end)) }
{
    rows.take(&row);
    if row.begin < end {
        row.end = end;
        rows.insert(row)?;
    }
    Ok(())
}

/// Adds a row under its tag. Where memory runs out the rows there may be lost. One search for the tag.
fn add_under(alloc: Global, by_tag: &mut ByTag, tag: u64, row: Row) -> Result<(), OutOfMemory>
    ensures here { OnOk result (SameRows (under by_tag.new.entries tag) (row ∷ under by_tag.old.entries tag)) }
    ensures others { OnOk result ((q : ℕ) → q ≢ tag → under by_tag.new.entries q ≡ under by_tag.old.entries q) }
    ensures apart { OnOk result ((q : ℕ) → q ≢ tag → filed_at by_tag.new.entries q ≡ filed_at by_tag.old.entries q) }
    ensures ordered { OnOk result (IsOrdered nat_cmp by_tag.new) }
{
    let rows = by_tag.entry(tag)?.or_insert(Spans::new(alloc));
    rows.insert(row)?;
    Ok(())
}

/// Cuts a row under its tag. Where memory runs out the rows there may be lost. One search for the tag.
fn cut_under(by_tag: &mut ByTag, tag: u64, row: Row, end: Time) -> Result<(), OutOfMemory>
    requires { 0 < count_of row (under by_tag.old.entries tag) }
    ensures here { OnOk result (SameRows (under by_tag.new.entries tag ++ row ∷ []) (under by_tag.old.entries tag ++ remnant row end)) }
    ensures others { OnOk result ((q : ℕ) → q ≢ tag → under by_tag.new.entries q ≡ under by_tag.old.entries q) }
    ensures apart { OnOk result ((q : ℕ) → q ≢ tag → filed_at by_tag.new.entries q ≡ filed_at by_tag.old.entries q) }
    ensures in_use { OnOk result (IsInUse by_tag.new.entries tag) }
    ensures ordered { OnOk result (IsOrdered nat_cmp by_tag.new) }
{
    match by_tag.entry(tag)? {
        Entry::Occupied(mut found) => {
            let rows = found.get_mut();
            cut_row(rows, row, end)?;
            if rows.is_empty() {
                found.remove();
            }
            Ok(())
        }
        Entry::Vacant(_) => Ok(()),
    }
}

/// Applies a change to the rows under its row's tag. Where memory runs out rows there may be lost.
/// O(log n) comparisons.
fn note_row(alloc: Global, by_tag: &mut ByTag, tag: u64, change: Change) -> Result<(), OutOfMemory>
    requires { LacksRow (under by_tag.old.entries tag) change → ⊥ }
    ensures here { OnOk result (SameRows (under by_tag.new.entries tag ++ takes change) (under by_tag.old.entries tag ++ puts change)) }
    ensures others { OnOk result ((q : ℕ) → q ≢ tag → under by_tag.new.entries q ≡ under by_tag.old.entries q) }
    ensures apart { OnOk result ((q : ℕ) → q ≢ tag → filed_at by_tag.new.entries q ≡ filed_at by_tag.old.entries q) }
    ensures in_use { OnOk result (IsInUse by_tag.new.entries tag) }
    ensures ordered { OnOk result (IsOrdered nat_cmp by_tag.new) }
{
    match change {
        Change::Add(row) => add_under(alloc, by_tag, tag, row),
        Change::Cut(row, end) => cut_under(by_tag, tag, row, end),
    }
}

/// Notes the end of a row under a tag, where it ends.
fn push_end(ends: &mut DueTags, tag: u64, end: Time) -> Result<(), OutOfMemory>
    ensures there { OnOk result (end < FOREVER → Contains ends.new (end, tag)) }
    ensures others { OnOk result ((due : ℕ × ℕ) → Contains ends.old due → Contains ends.new due) }
{
    if end < FOREVER {
        ends.push(end, tag)
    } else {
        Ok(())
    }
}

/// Notes the end of the row under a tag that a change puts.
fn note_end(ends: &mut DueTags, tag: u64, change: &Change) -> Result<(), OutOfMemory>
    ensures there { OnOk result ((r : RowValue) → 0 < count_of r (puts change.now) → r.end < FOREVER → Contains ends.new (r.end, tag)) }
    ensures others { OnOk result ((due : ℕ × ℕ) → Contains ends.old due → Contains ends.new due) }
{
    match change {
        Change::Add(row) => push_end(ends, tag, row.end),
        Change::Cut(row, end) => {
            if row.begin < *end {
                push_end(ends, tag, *end)
            } else {
                Ok(())
            }
        }
    }
}

/// Notes the end of each row that ends of those under a tag.
fn push_ends(alloc: Global, ends: &mut DueTags, tag: u64, rows: &Spans) -> Result<(), OutOfMemory>
    ensures there { OnOk result ((r : RowValue) → 0 < count_of r rows.now → r.end < FOREVER → Contains ends.new (r.end, tag)) }
    ensures others { OnOk result ((due : ℕ × ℕ) → Contains ends.old due → Contains ends.new due) }
{
    for (row, _) in rows.ended_by(alloc, FOREVER - 1) {
        ends.push(row.end, tag)?;
    }
    Ok(())
}

/// Notes the ends anew: those of the rows that are there, one for each different row. These were all noted before, so
/// there is room for them. O(log n) for each of them, and a look at each tag.
fn renew_ends(alloc: Global, by_tag: &ByTag, ends: &mut DueTags) -> Result<(), OutOfMemory>
    requires { (tag : ℕ) → IsInUse by_tag.now.entries tag }
    ensures { OnOk result (AreEnds by_tag.now.entries ends.new) }
{
    ends.clear();
    for (tag, rows) in by_tag {
        push_ends(alloc, ends, *tag, rows)?;
    }
    Ok(())
}

/// Notes the ends anew where they have outgrown the rows, of which there are this many, each copy counted: where there
/// are more than twice as many and 64.
fn limit_ends(
    alloc: Global,
    by_tag: &ByTag,
    ends: &mut DueTags,
    len: usize,
) -> Result<(), OutOfMemory>
    requires { AreEnds by_tag.now.entries ends.old }
    ensures { OnOk result (AreEnds by_tag.now.entries ends.new) }
{
    if ends.len() > len.saturating_mul(2).saturating_add(64) {
        renew_ends(alloc, by_tag, ends)?;
    }
    Ok(())
}

/// How many rows there are after a change.
fn len_after(len: usize, change: &Change) -> usize
    ensures { len < usize.MAX → length (takes change.now) ≤ len → result + length (takes change.now) ≡ len + length (puts change.now) }
{
    match change {
        Change::Add(_) => len.saturating_add(1),
        Change::Cut(row, end) if row.begin >= *end => len.saturating_sub(1),
        Change::Cut(..) => len,
    }
}

impl Filed {
    /// No row. It takes no memory.
    pub fn new(alloc: Global) -> Filed
        ensures ends { AreEnds result.by_tag.entries result.ends }
        ensures none { (q : ℕ) → under result.by_tag.entries q ≡ [] }
        ensures ordered { IsOrdered nat_cmp result.by_tag }
    {
        Filed {
            by_tag: BTreeMap::new(alloc),
            ends: DueTags::new(alloc),
            len: 0,
        }
    }

    /// Applies a change to the rows under its row's tag. Where memory runs out rows may be lost.
    /// O(log n) comparisons.
    ///
    /// It leaves at most twice as many ends as rows, each copy counted, and 64. Where there would be more, they are noted anew:
    /// more rows that end were cut since the last time than there are rows and 64, so it costs less than one end and one look
    /// at a tag for each of them. No clause speaks of this bound and of this cost.
    pub fn note(&mut self, alloc: Global, tag: u64, change: Change) -> Result<(), OutOfMemory>
        requires there { LacksRow (under self.old.by_tag.entries tag) change → ⊥ }
        requires ends { AreEnds self.old.by_tag.entries self.old.ends }
        ensures here { OnOk result (SameRows (under self.new.by_tag.entries tag ++ takes change) (under self.old.by_tag.entries tag ++ puts change)) }
        ensures others { OnOk result ((q : ℕ) → q ≢ tag → under self.new.by_tag.entries q ≡ under self.old.by_tag.entries q) }
        ensures ends { OnOk result (AreEnds self.new.by_tag.entries self.new.ends) }
        ensures ordered { OnOk result (IsOrdered nat_cmp self.new.by_tag) }
    {
        note_end(&mut self.ends, tag, &change)?;
        self.len = len_after(self.len, &change);
        note_row(alloc, &mut self.by_tag, tag, change)?;
        limit_ends(alloc, &self.by_tag, &mut self.ends, self.len)?;
        Ok(())
    }

    /// Forgets the rows that end at a time or before. It takes no memory. O(log n) comparisons for each end that is due,
    /// and a look at the first one where none is. At `FOREVER` it goes through all tags.
    pub fn forget_ended(&mut self, time: Time)
        requires ends { AreEnds self.old.by_tag.entries self.old.ends }
        requires ordered { IsOrdered nat_cmp self.old.by_tag }
        ensures kept { (q : ℕ) → SameRows (under self.new.by_tag.entries q) (filter (ends_after time) (under self.old.by_tag.entries q)) }
        ensures ends { AreEnds self.new.by_tag.entries self.new.ends }
        ensures ordered { IsOrdered nat_cmp self.new.by_tag }
    {
        if time < FOREVER {
            let gone = forget_due(&mut self.by_tag, &mut self.ends, time);
            self.len = self.len.saturating_sub(gone);
        } else {
            forget_all(&mut self.by_tag, time);
            self.ends.clear();
            self.len = 0;
        }
    }
}

/// Forgets the rows that end at a time or before, and says how many they were: each has its end among these.
fn forget_due(by_tag: &mut ByTag, ends: &mut DueTags, time: Time) -> usize
    requires time { time < FOREVER }
    requires ends { AreEnds by_tag.old.entries ends.old }
    requires ordered { IsOrdered nat_cmp by_tag.old }
    ensures kept { (q : ℕ) → SameRows (under by_tag.new.entries q) (filter (ends_after time) (under by_tag.old.entries q)) }
    ensures ends { AreEnds by_tag.new.entries ends.new }
    ensures ordered { IsOrdered nat_cmp by_tag.new }
{
    let mut gone = 0usize;
    while let Some((_, tag)) = ends.pop_due(time) {
        gone = gone.saturating_add(forget_under(by_tag, tag, time));
    }
    gone
}

/// Forgets the rows of each tag that end at a time or before.
fn forget_all(by_tag: &mut ByTag, time: Time)
    requires { IsOrdered nat_cmp by_tag.old }
    ensures kept { (q : ℕ) → SameRows (under by_tag.new.entries q) (filter (ends_after time) (under by_tag.old.entries q)) }
    ensures in_use { (tag : ℕ) → IsInUse by_tag.new.entries tag }
    ensures ordered { IsOrdered nat_cmp by_tag.new }
{
    by_tag.retain(|_tag, rows| shorten(rows, time));
}

/// Forgets the rows that end at a time or before, and says whether one is left.
fn shorten(rows: &mut Spans, time: Time) -> bool
    ensures left { SameRows rows.new (filter (ends_after time) rows.old) }
    ensures emptied { result ≡ false → rows.new ≡ [] }
    ensures some { result ≡ true → rows.new ≢ [] }
{
    rows.forget_ended(time);
    !rows.is_empty()
}

/// Forgets the rows under a tag that end at a time or before, and says how many of those that end they were.
fn forget_under(by_tag: &mut ByTag, tag: u64, time: Time) -> usize
    ensures here { SameRows (under by_tag.new.entries tag) (filter (ends_after time) (under by_tag.old.entries tag)) }
    ensures others { (q : ℕ) → q ≢ tag → under by_tag.new.entries q ≡ under by_tag.old.entries q }
    ensures apart { (q : ℕ) → q ≢ tag → filed_at by_tag.new.entries q ≡ filed_at by_tag.old.entries q }
    ensures in_use { IsInUse by_tag.new.entries tag }
    ensures ordered { IsOrdered nat_cmp by_tag.new }
{
    let (gone, emptied) = shorten_under(by_tag, tag, time);
    if emptied {
        by_tag.remove(&tag);
    }
    gone
}

/// The same, and says whether no row is left under the tag.
fn shorten_under(by_tag: &mut ByTag, tag: u64, time: Time) -> (usize, bool)
    ensures here { SameRows (under by_tag.new.entries tag) (filter (ends_after time) (under by_tag.old.entries tag)) }
    ensures others { (q : ℕ) → q ≢ tag → under by_tag.new.entries q ≡ under by_tag.old.entries q }
    ensures apart { (q : ℕ) → q ≢ tag → filed_at by_tag.new.entries q ≡ filed_at by_tag.old.entries q }
    ensures emptied { result.1 ≡ true → under by_tag.new.entries tag ≡ [] }
    ensures in_use { result.1 ≡ false → IsInUse by_tag.new.entries tag }
    ensures ordered { IsOrdered nat_cmp by_tag.new }
{
    match by_tag.get_mut(&tag) {
        Some(rows) => {
            let before = rows.ending_len();
            let left = shorten(rows, time);
            (before.saturating_sub(rows.ending_len()), !left)
        }
        None => (0, false),
    }
}

/// Copies of the rows under all tags.
pub fn all_rows(alloc: Global, by_tag: &ByTag) -> Result<Vec<Row>, OutOfMemory>
    ensures rows { IfOk result (λ rows. SameRows rows.items (all_under by_tag.now.entries)) }
    ensures ordered { OnOk result (IsOrdered nat_cmp by_tag.now) }
{
    let mut rows = Vec::with_capacity(alloc, by_tag.len())?;
    for (_, filed) in by_tag {
        filed.push_to(&mut rows)?;
    }
    Ok(rows)
}
