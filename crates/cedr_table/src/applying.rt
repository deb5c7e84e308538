ghost use Rattle.std.specs.Prelude.{[], OnOk};
ghost use Rattle.cedr_base.specs.Changes.{MayFollow};
ghost use Rattle.change_laws.specs.Repairs.{IsMoved, AreLegal, Leads};

use crate::fault::TableFault;
use crate::table::Table;
use cedr_base::{Change, OutOfMemory};
use std::alloc::Global;

/// Applies a change that may follow in a table. O(log n).
pub fn apply_change(table: &mut Table, change: Change) -> Result<(), OutOfMemory>
    requires { MayFollow table.old [] change }
    ensures { OnOk result (IsMoved change table.old table.new) }
{
    match table.apply(change) {
        Ok(()) => Ok(()),
        Err(TableFault::OutOfMemory) => Err(OutOfMemory),
        Err(TableFault::NoSuchRow) => unreachable!(),
    }
}

/// Applies a copy of a change.
fn apply_one(alloc: Global, table: &mut Table, change: &Change) -> Result<(), OutOfMemory>
    requires { MayFollow table.old [] change.now }
    ensures { OnOk result (IsMoved change.now table.old table.new) }
{
    let copied = change.copy(alloc)?;
    apply_change(table, copied)
}

/// Applies changes that are legal from a table on. Where memory runs out some of them may be applied. O(n log n).
pub fn apply_all(alloc: Global, table: &mut Table, changes: &[Change]) -> Result<(), OutOfMemory>
    requires { AreLegal table.old [] changes.now }
    ensures { OnOk result (Leads table.old changes.now table.new) }
{
    for change in changes {
        apply_one(alloc, table, change)?;
    }
    Ok(())
}
