ghost use Rattle.std.specs.Prelude.{◌≡◌, ◌++◌, OnOk, OnErr, IfOk};
ghost use Rattle.cedr_make.specs.Summary.{total_length, summary_text};

use cedr_base::{OutOfMemory, Row};
use cedr_text::write_number;
use std::alloc::Global;

/// For how long the rows are valid together, in application time.
fn total_length(rows: &[Row]) -> u128
    ensures { result ≡ total_length rows.now }
{
    let mut total = 0u128;
    for row in rows {
        total += u128::from(row.end.saturating_sub(row.begin));
    }
    total
}

fn summary_text(alloc: Global, rows: &[Row]) -> Result<Vec<u8>, OutOfMemory>
    ensures { IfOk result (λ text. text.items ≡ summary_text rows.now) }
{
    let mut text = Vec::new(alloc);
    text.extend_from_slice(b"rows ")?;
    write_number(rows.len(), &mut text)?;
    text.extend_from_slice(b" length ")?;
    write_number(total_length(rows), &mut text)?;
    text.push(b'\n')?;
    Ok(text)
}

/// Appends `rows R length L` and a line feed: how many rows there are, and for how long they are valid together, in
/// application time. A row without an end counts up to `FOREVER`. Where memory runs out `out` is as before. O(n).
pub fn write_summary(rows: &[Row], out: &mut Vec<u8>) -> Result<(), OutOfMemory>
    ensures ok { OnOk result (out.new.items ≡ out.old.items ++ summary_text rows.now) }
    ensures err { OnErr result (out.new.items ≡ out.old.items) }
{
    let text = summary_text(*out.allocator(), rows)?;
    out.extend_from_slice(text.as_slice())?;
    Ok(())
}
