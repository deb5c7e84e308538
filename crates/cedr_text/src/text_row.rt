ghost use Rattle.std.specs.Prelude.{◌≡◌, ◌++◌, OnOk, OnErr};
ghost use Rattle.cedr_base.specs.Rows.{in_order};
ghost use Rattle.cedr_text.specs.Texts.{row_text, rows_text};
ghost use Rattle.cedr_text.specs.RowWriters.{text_of, IsAtRow};

use crate::payload_text::{PayloadText, put_payload_text};
use crate::write::{append_written, end_row, put_times, row_writer};
use cedr_base::{OutOfMemory, Time, canonical_order};
use csv::Writer;
use std::alloc::Global;
use std::cmp::Ordering;
use std::marker::Model;

/// A row of a table whose payload may still stand in the bytes of a file. Contracts see the row.
///
/// Rows compare in the canonical order, by end, then by begin, then by payload.
#[derive(Drop)]
pub struct TextRow<'a> {
    pub end: Time,
    pub begin: Time,
    pub payload: PayloadText<'a>,
}

impl<'a> Model for TextRow<'a> {
    ghost use Rattle.cedr_base.specs.declared.row.Row.{Row};

    ghost Value = { Row };

    ghost view = { λ row. record { end = row.end; begin = row.begin; payload = row.payload } };
}

impl PartialEq for TextRow<'_> {
    ghost use Rattle.std.specs.Cmp.{partial_equiv_from_equiv, eq_by_cmp_equiv};
    ghost use Rattle.std.specs.Ordering.{eq_by_cmp};
    ghost use Rattle.cedr_base.specs.Rows.{row_cmp};
    ghost use Rattle.cedr_base.specs.RowLaws.{row_total};

    ghost eq = { eq_by_cmp row_cmp };

    ghost laws = { partial_equiv_from_equiv (eq_by_cmp_equiv row_total) };

    fn eq(&self, other: &Self) -> bool {
        self.cmp(other).is_eq()
    }
}

impl Eq for TextRow<'_> {
    ghost use Rattle.std.specs.Cmp.{eq_by_cmp_equiv};
    ghost use Rattle.cedr_base.specs.RowLaws.{row_total};

    ghost laws = { eq_by_cmp_equiv row_total };
}

impl PartialOrd for TextRow<'_> {
    ghost use Rattle.std.specs.Cmp.{partial_order_from_total};
    ghost use Rattle.std.specs.Ordering.{as_partial_cmp};
    ghost use Rattle.cedr_base.specs.Rows.{row_cmp};
    ghost use Rattle.cedr_base.specs.RowLaws.{row_total};

    ghost partial_cmp = { as_partial_cmp row_cmp };

    ghost laws = { partial_order_from_total row_total };

    fn partial_cmp(&self, other: &Self) -> Option<Ordering> {
        Some(self.cmp(other))
    }
}

impl Ord for TextRow<'_> {
    ghost use Rattle.std.specs.Cmp.Rules.{comparing};
    ghost use Rattle.std.proofs.Common.{rules};
    ghost use Rattle.cedr_base.specs.Rows.{row_cmp};
    ghost use Rattle.cedr_base.specs.RowLaws.{row_total};

    ghost cmp = { row_cmp };

    ghost total = { row_total };

    ghost matches_partial_cmp = { Prim.search (comparing, rules) };

    ghost matches_eq = { Prim.search (comparing, rules) };

    fn cmp(&self, other: &Self) -> Ordering {
        if self.end != other.end {
            self.end.cmp(&other.end)
        } else if self.begin != other.begin {
            self.begin.cmp(&other.begin)
        } else {
            self.payload.cmp(&other.payload)
        }
    }
}

/// Puts rows into canonical order, equal ones beside each other. O(n log n) comparisons, and no memory.
pub fn sort_text_rows(rows: &mut Vec<TextRow<'_>>)
    ensures { rows.new.items ≡ in_order rows.old.items }
{
    canonical_order();
    rows.sort_unstable();
}

/// Appends the rows as `write_rows` does. Their text is made in memory of its own, and copied where `out` is
/// not empty. Where memory runs out `out` is as before.
pub fn write_text_rows(rows: &[TextRow<'_>], out: &mut Vec<u8>) -> Result<(), OutOfMemory>
    ensures ok { OnOk result (out.new.items ≡ out.old.items ++ rows_text rows.now) }
    ensures err { OnErr result (out.new.items ≡ out.old.items) }
{
    let alloc = *out.allocator();
    let mut writer = row_writer(alloc);
    put_text_rows(alloc, rows, &mut writer)?;
    append_written(writer, out)
}

fn put_text_rows(
    alloc: Global,
    rows: &[TextRow<'_>],
    writer: &mut Writer<Vec<u8>>,
) -> Result<(), OutOfMemory>
    requires { IsAtRow writer.old }
    ensures text { OnOk result (text_of writer.new ≡ text_of writer.old ++ rows_text rows.now) }
{
    for row in rows {
        put_text_row(alloc, row, writer)?;
    }
    Ok(())
}

fn put_text_row(
    alloc: Global,
    row: &TextRow<'_>,
    writer: &mut Writer<Vec<u8>>,
) -> Result<(), OutOfMemory>
    requires { IsAtRow writer.old }
    ensures text { OnOk result (text_of writer.new ≡ text_of writer.old ++ row_text row.now) }
    ensures at_row { OnOk result (IsAtRow writer.new) }
{
    put_times(row.begin, row.end, writer)?;
    put_payload_text(alloc, &row.payload, writer)?;
    end_row(writer)
}
