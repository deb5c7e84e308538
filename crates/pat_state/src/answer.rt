ghost use Rattle.std.specs.Prelude.{◌≡◌, ◌++◌, OnOk, OnErr, map, take, length};
ghost use Rattle.pat_state.specs.Answers.{answered};

use cedr_base::{Change, OutOfMemory, Row};

/// What becomes of whole rows of a result.
#[derive(Clone, Copy, PartialEq, Eq)]
pub enum Way {
    /// They join it.
    Comes,
    /// They leave it: each is cut to its begin.
    Goes,
}

impl Way {
    fn change(self, row: Row) -> Change
        ensures { result ≡ answered self row }
    {
        match self {
            Way::Comes => Change::Add(row),
            Way::Goes => {
                let begin = row.begin;
                Change::Cut(row, begin)
            }
        }
    }
}

/// Appends a change for each row. Where memory runs out some of them may stand there.
fn push_all(way: Way, rows: Vec<Row>, out: &mut Vec<Change>) -> Result<(), OutOfMemory>
    ensures ok { OnOk result (out.new.items ≡ out.old.items ++ map (answered way) rows.items) }
    ensures err { OnErr result (take (length out.old.items) out.new.items ≡ out.old.items) }
{
    for row in rows {
        out.push(way.change(row))?;
    }
    Ok(())
}

/// Appends a change for each row. Where memory runs out nothing is appended.
pub fn push_answers(way: Way, rows: Vec<Row>, out: &mut Vec<Change>) -> Result<(), OutOfMemory>
    ensures ok { OnOk result (out.new.items ≡ out.old.items ++ map (answered way) rows.items) }
    ensures err { OnErr result (out.new.items ≡ out.old.items) }
{
    let before = out.len();
    let done = push_all(way, rows, out);
    if done.is_err() {
        out.truncate(before);
    }
    done
}
