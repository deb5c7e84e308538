ghost use Rattle.std.specs.Prelude.{◌≡◌, ◌++◌, ◌∷◌, [], OnOk, Option, length, take};
ghost use Rattle.cedr_base.specs.Rows.{SameRows};
ghost use Rattle.cedr_base.specs.declared.change.Message.TheVariants as message;
ghost use Rattle.cedr_base.specs.Changes.{all_puts, all_takes, puts, takes};
ghost use Rattle.change_laws.specs.Repairs.{wrapped};
ghost use Rattle.node_laws.specs.Kept.{is_late};
ghost use Rattle.cedr_align.specs.Released.{own_of, other_of, cause_at, AreApplied};

use crate::held::Held;
use cedr_base::{Change, Message, OutOfMemory, Time};
use cedr_table::Table;
use node_laws::Cause;
use std::alloc::Global;

/// A change is seen more than the memory before the greatest time that came.
fn comes_late(memory: u64, high: Time, change: &Change) -> bool
    ensures { result ≡ is_late (Some memory) high change.now }
{
    let sync = change.sync();
    sync < high && high - sync > memory
}

/// Why a change is forgotten, if it is. Where the memory has no limit none is, and nothing is looked up.
pub(crate) fn find_cause(
    memory: Option<u64>,
    high: Time,
    held: &Held,
    passed: &Table,
    change: &Change,
) -> Option<Cause>
    ensures { result ≡ cause_at memory high held.now passed.now change.now }
{
    let memory = memory?;
    if comes_late(memory, high, change) {
        return Some(Cause::Late);
    }
    match change {
        Change::Add(_) => None,
        Change::Cut(row, _) => {
            if held.count(row) == 0 && passed.count(row) == 0 {
                Some(Cause::Orphan)
            } else {
                None
            }
        }
    }
}

/// Applies a change to a table that has its row.
fn apply(passed: &mut Table, change: Change) -> Result<(), OutOfMemory>
    ensures { OnOk result (SameRows (passed.new ++ takes change) (passed.old ++ puts change)) }
{
    match passed.apply(change) {
        Ok(()) => Ok(()),
        Err(_) => Err(OutOfMemory),
    }
}

/// Applies a change to the passed rows, where any are remembered.
pub(crate) fn apply_where(
    alloc: Global,
    memory: Option<u64>,
    passed: &mut Table,
    change: &Change,
) -> Result<(), OutOfMemory>
    ensures { OnOk result (AreApplied memory (change.now ∷ []) passed.old passed.new) }
{
    match memory {
        None => Ok(()),
        Some(_) => apply(passed, change.copy(alloc)?),
    }
}

/// Passes a change on, and applies it to the passed rows, where any are remembered.
fn pass_on(
    alloc: Global,
    memory: Option<u64>,
    passed: &mut Table,
    change: Change,
    out: &mut Vec<Message>,
) -> Result<(), OutOfMemory>
    ensures passed { OnOk result (AreApplied memory (change ∷ []) passed.old passed.new) }
    ensures out { OnOk result (out.new.items ≡ out.old.items ++ message.Change change ∷ []) }
    ensures kept { take (length out.old.items) out.new.items ≡ out.old.items }
{
    apply_where(alloc, memory, passed, &change)?;
    out.push(Message::Change(change))?;
    Ok(())
}

/// Applies a change that isn't forgotten to the held rows, or to the passed ones and passes it on there.
pub(crate) fn keep(
    alloc: Global,
    memory: Option<u64>,
    held: &mut Held,
    passed: &mut Table,
    change: Change,
    out: &mut Vec<Message>,
) -> Result<(), OutOfMemory>
    ensures held { OnOk result (SameRows (held.new ++ all_takes (other_of held.old change)) (held.old ++ all_puts (other_of held.old change))) }
    ensures passed { OnOk result (AreApplied memory (own_of held.old change) passed.old passed.new) }
    ensures out { OnOk result (out.new.items ≡ out.old.items ++ wrapped (own_of held.old change)) }
    ensures kept { take (length out.old.items) out.new.items ≡ out.old.items }
{
    match change {
        Change::Add(row) => held.insert(alloc, row),
        Change::Cut(row, end) => match held.cut(alloc, row, end)? {
            None => Ok(()),
            Some(row) => pass_on(alloc, memory, passed, Change::Cut(row, end), out),
        },
    }
}
