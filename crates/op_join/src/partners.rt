ghost use Rattle.std.specs.Prelude.{◌≡◌, ◌<◌, ◌++◌, OnOk, OnErr, take, length};
ghost use Rattle.std.specs.BTreeMap.{IsOrdered};
ghost use Rattle.std.specs.Ordering.{nat_cmp};
ghost use Rattle.cedr_base.specs.declared.time.TheConstants.{FOREVER};
ghost use Rattle.cedr_base.specs.Changes.{sync_of};
ghost use Rattle.cedr_expr.specs.Tests.{passes};
ghost use Rattle.cedr_expr.specs.declared.side.Side.TheVariants.{Left, Right};
ghost use Rattle.filed_rows.specs.Filed.{under, all_under, left_partners, right_partners};
ghost use Rattle.op_join.specs.Pairs.{all_changes};

use crate::pairs::repair_pairs;
use cedr_base::{Change, OutOfMemory};
use cedr_expr::{Side, Tests};
use filed_rows::ByTag;
use std::alloc::Global;

/// Appends what a change does to the rows of its pairs with the rows under a tag. Where memory runs out a part may
/// stand there.
fn repair_under(
    alloc: Global,
    tests: &Tests,
    side: Side,
    change: &Change,
    filed: &ByTag,
    tag: u64,
    out: &mut Vec<Change>,
) -> Result<(), OutOfMemory>
    requires { sync_of change.now < FOREVER }
    ensures ok { OnOk result (out.new.items ≡ out.old.items ++ all_changes (passes tests.now) side change.now (under filed.now.entries tag)) }
    ensures err { OnErr result (take (length out.old.items) out.new.items ≡ out.old.items) }
{
    match filed.get(&tag) {
        Some(rows) => repair_pairs(alloc, tests, side, change, rows, out),
        None => Ok(()),
    }
}

/// The same with the rows under all tags.
fn repair_all(
    alloc: Global,
    tests: &Tests,
    side: Side,
    change: &Change,
    filed: &ByTag,
    out: &mut Vec<Change>,
) -> Result<(), OutOfMemory>
    requires { sync_of change.now < FOREVER }
    ensures ok { OnOk result (out.new.items ≡ out.old.items ++ all_changes (passes tests.now) side change.now (all_under filed.now.entries)) }
    ensures err { OnErr result (take (length out.old.items) out.new.items ≡ out.old.items) }
    ensures ordered { OnOk result (IsOrdered nat_cmp filed.now) }
{
    for (_, rows) in filed {
        repair_pairs(alloc, tests, side, change, rows, out)?;
    }
    Ok(())
}

/// Appends what a change of a left row of this tag does to the rows of its pairs: with all right rows where the tag is
/// 0, that of another width. Where memory runs out a part may stand there.
pub(crate) fn repair_right(
    alloc: Global,
    tests: &Tests,
    change: &Change,
    right: &ByTag,
    tag: u64,
    out: &mut Vec<Change>,
) -> Result<(), OutOfMemory>
    requires { sync_of change.now < FOREVER }
    ensures ok { OnOk result (out.new.items ≡ out.old.items ++ all_changes (passes tests.now) Left change.now (right_partners right.now.entries tag)) }
    ensures err { OnErr result (take (length out.old.items) out.new.items ≡ out.old.items) }
    ensures ordered { OnOk result (tag ≡ 0 → IsOrdered nat_cmp right.now) }
{
    if tag == 0 {
        repair_all(alloc, tests, Side::Left, change, right, out)
    } else {
        repair_under(alloc, tests, Side::Left, change, right, tag, out)
    }
}

/// Appends what a change of a right row of this tag does to the rows of its pairs: with left rows of the tag, and those
/// of the tag 0. Where memory runs out a part may stand there.
pub(crate) fn repair_left(
    alloc: Global,
    tests: &Tests,
    change: &Change,
    left: &ByTag,
    tag: u64,
    out: &mut Vec<Change>,
) -> Result<(), OutOfMemory>
    requires { sync_of change.now < FOREVER }
    ensures ok { OnOk result (out.new.items ≡ out.old.items ++ all_changes (passes tests.now) Right change.now (left_partners left.now.entries tag)) }
    ensures err { OnErr result (take (length out.old.items) out.new.items ≡ out.old.items) }
{
    repair_under(alloc, tests, Side::Right, change, left, tag, out)?;
    repair_under(alloc, tests, Side::Right, change, left, 0, out)
}
