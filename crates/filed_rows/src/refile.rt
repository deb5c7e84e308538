ghost use Rattle.std.specs.Prelude.{OnOk, IfOk};
ghost use Rattle.std.specs.BTreeMap.{IsOrdered};
ghost use Rattle.std.specs.Ordering.{nat_cmp};
ghost use Rattle.cedr_expr.specs.Tags.{right_tag};
ghost use Rattle.filed_rows.specs.Filed.{Files, all_under};
ghost use Rattle.filed_rows.specs.Ends.{AreEnds};

use crate::filed::{ByTag, Filed, all_rows};
use cedr_base::{Change, OutOfMemory};
use cedr_expr::{Side, Tests};
use std::alloc::Global;

/// Copies of the right rows, filed beside left payloads of this width. O(n log n).
pub fn refiled(
    alloc: Global,
    width: usize,
    tests: &Tests,
    right: &ByTag,
) -> Result<Filed, OutOfMemory>
    ensures filed { IfOk result (λ filed. Files (right_tag width tests.now) filed.by_tag.entries (all_under right.now.entries)) }
    ensures ends { IfOk result (λ filed. AreEnds filed.by_tag.entries filed.ends) }
    ensures ordered { IfOk result (λ filed. IsOrdered nat_cmp filed.by_tag) }
    ensures was_ordered { OnOk result (IsOrdered nat_cmp right.now) }
{
    let rows = all_rows(alloc, right)?;
    let mut filed = Filed::new(alloc);
    for row in rows {
        let tag = tests.tag(Side::Right, width, &row.payload);
        filed.note(alloc, tag, Change::Add(row))?;
    }
    Ok(filed)
}
