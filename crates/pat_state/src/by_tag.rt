ghost use Rattle.std.specs.Prelude.{ℕ, ◌≡◌, ◌<◌, ◌∷◌, ◌++◌, [], List, length, true, replicate, OnOk, OnErr, IfOk};
ghost use Rattle.std.specs.List.{filter};
ghost use Rattle.cedr_base.specs.declared.row.Row.{Row as RowValue};
ghost use Rattle.cedr_base.specs.Rows.{count_of, in_order, SameRows};
ghost use Rattle.cedr_table.specs.Counted.{spread, AreThere};
ghost use Rattle.pat_state.specs.Starts.{AreInScope};
ghost use Rattle.pat_state.specs.Keys.{LackTag};
ghost use Rattle.pat_state.specs.Tags.{marked, has_tag_within, HasMarked, IsRetagged};

use cedr_base::{Change, OutOfMemory, Payload, Row, Time};
use cedr_table::Table;
use std::alloc::Global;
use std::collections::btree_map::Range;
use std::marker::Model;

/// A bag of rows, each with a number, its tag, by which it is found: of rows with one tag those that begin within some
/// times. Contracts see a list of the rows, each with its tag as its end.
///
/// It is a table of these rows, whose canonical order is that of the tags, and of one tag that of the begins.
#[derive(Drop)]
pub(crate) struct ByTag {
    rows: Table,
}

impl Model for ByTag {
    ghost use Rattle.std.specs.Prelude.{List};
    ghost use Rattle.cedr_base.specs.declared.row.Row.{Row};

    ghost Value = { List Row };

    ghost view = { λ t. t.rows };
}

/// A copy of a row with a tag in place of its end.
fn marked(alloc: Global, tag: u64, row: &Row) -> Result<Row, OutOfMemory>
    ensures { IfOk result (λ r. r ≡ marked tag row.now) }
{
    let payload = row.payload.copy(alloc)?;
    Ok(Row {
        end: tag,
        begin: row.begin,
        payload,
    })
}

/// What comes before each row of a tag that begins at a time.
fn first_of(alloc: Global, tag: u64, begin: Time) -> Row
    ensures { result ≡ record { end = tag; begin = begin; payload = [] } }
{
    Row {
        end: tag,
        begin,
        payload: Payload::new(alloc),
    }
}

impl ByTag {
    /// A bag with no row. It takes no memory.
    pub(crate) fn new(alloc: Global) -> ByTag
        ensures { result ≡ [] }
    {
        ByTag {
            rows: Table::new(alloc),
        }
    }

    /// Adds a row with a tag. O(log n) comparisons in the different rows. Where memory runs out nothing changes.
    pub(crate) fn insert(&mut self, alloc: Global, tag: u64, row: &Row) -> Result<(), OutOfMemory>
        ensures ok { OnOk result (SameRows self.new (marked tag row.now ∷ self.old)) }
        ensures err { OnErr result (self.new ≡ self.old) }
    {
        let marked = marked(alloc, tag, row)?;
        self.rows.insert(marked)?;
        Ok(())
    }

    /// Takes a copy of a row with a tag away. O(log n) comparisons in the different rows. Where memory runs out nothing
    /// changes.
    pub(crate) fn take(&mut self, alloc: Global, tag: u64, row: &Row) -> Result<(), OutOfMemory>
        requires { 0 < count_of (marked tag row.now) self.old }
        ensures ok { OnOk result (SameRows (marked tag row.now ∷ self.new) self.old) }
        ensures err { OnErr result (self.new ≡ self.old) }
    {
        let marked = marked(alloc, tag, row)?;
        self.rows.take(&marked);
        Ok(())
    }

    /// Takes all copies of a row with a tag away, and gives the row with the tag back. It takes no memory. O(log n)
    /// comparisons in the different rows, and one search.
    pub(crate) fn remove_copies(&mut self, tag: u64, row: Row) -> Row
        ensures row { result ≡ marked tag row }
        ensures left { (count : ℕ) (rest : List RowValue) → count_of (marked tag row) rest ≡ 0 → SameRows self.old (replicate count (marked tag row) ++ rest) → SameRows self.new rest }
    {
        let mut marked = row;
        marked.end = tag;
        self.rows.remove(&marked);
        marked
    }

    /// How many rows there are. It takes no memory. O(1).
    pub(crate) fn len(&self) -> usize
        ensures { result ≡ length self.now }
    {
        self.rows.len()
    }

    /// Takes all copies of a row away, whose end is its tag. It takes no memory. O(log n) comparisons in the different rows.
    pub(crate) fn remove(&mut self, row: &Row)
        ensures { SameRows (replicate (count_of row.now self.old) row.now ++ self.new) self.old }
    {
        self.rows.remove(row);
    }

    /// Copies of the rows in order of tag, each as often as it is there. O(n).
    pub(crate) fn canonical(&self) -> Result<Vec<Row>, OutOfMemory>
        ensures { IfOk result (λ rows. rows.items ≡ in_order self.now) }
    {
        self.rows.canonical()
    }

    /// Whether no row has the tag 0. It takes no memory. O(log n).
    pub(crate) fn lacks_zero(&self) -> bool
        ensures { result ≡ true → LackTag 0 self.now }
    {
        match self.rows.first() {
            Some(row) => row.end > 0,
            None => true,
        }
    }

    /// The rows of a tag that begin at a time or later, and before another one, with the number of their copies: in
    /// order of begin. It takes no memory. O(log n) comparisons, and O(1) for each row that is taken from it.
    pub(crate) fn within(
        &self,
        alloc: Global,
        tag: u64,
        from: Time,
        before: Time,
    ) -> Range<'_, Row, usize>
        ensures rows { spread result ≡ filter (has_tag_within tag from before) self.now }
        ensures within { AreInScope from before result }
    {
        let low = first_of(alloc, tag, from);
        let high = first_of(alloc, tag, from.max(before));
        self.rows.range(low..high)
    }

    /// The rows of all tags, with the number of their copies. It takes no memory. O(log n), and O(1) for each row that is
    /// taken from it.
    pub(crate) fn all(&self) -> Range<'_, Row, usize>
        ensures rows { spread result ≡ self.now }
        ensures there { AreThere result }
    {
        self.rows.range(..)
    }
}

/// Applies a change to the rows with tags, of which the row's begin and its payload count. Where memory runs out they are as
/// before.
pub(crate) fn apply_tagged(
    alloc: Global,
    tags: &mut ByTag,
    tag: u64,
    change: &Change,
) -> Result<(), OutOfMemory>
    requires { HasMarked tag tags.old change.now }
    ensures ok { OnOk result (IsRetagged tag change.now tags.old tags.new) }
    ensures err { OnErr result (tags.new ≡ tags.old) }
{
    match change {
        Change::Add(row) => tags.insert(alloc, tag, row),
        Change::Cut(row, end) => {
            if *end <= row.begin {
                tags.take(alloc, tag, row)
            } else {
                Ok(())
            }
        }
    }
}
