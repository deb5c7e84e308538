ghost use Rattle.std.specs.Prelude.{◌≡◌, ◌<◌, ◌≤◌, All, IfOk, length, replicate};
ghost use Rattle.std.specs.List.{list_all};
ghost use Rattle.plan_key_choice.specs.Ranges.{is_in, may_have, may_rename, may_keep_first, may_repeat, is_alike, are_alike, common_range, may_keep, IsNarrowRange, IsNarrow, RepeatsFew};

use crate::range::{ColumnRange, RangedPort, is_in};
use crate::tie::may_be_tied;
use cedr_base::OutOfMemory;
use cedr_expr::Test;
use cedr_plan::NodeKind;
use std::alloc::Global;

/// Whether a node of this kind may keep the key with these ports and this column of its result: some columns of the ports are
/// right, as far as each test and each port alone tell. Where each port has one column that is what decides.
pub(crate) fn may_keep(
    alloc: Global,
    kind: &NodeKind,
    ports: &[RangedPort],
    column: usize,
) -> Result<bool, OutOfMemory>
    requires few { length ports.now ≤ 4 }
    requires narrow { All IsNarrow ports.now }
    requires repeats { RepeatsFew kind.now }
    ensures { IfOk result (λ may. may ≡ may_keep kind.now ports.now column) }
{
    match kind {
        NodeKind::Source { file: _ } => Ok(true),
        NodeKind::Project(keep) => Ok(may_rename(keep.columns(), ports, column)),
        NodeKind::Group {
            keys,
            count: _,
            sums: _,
            least: _,
            greatest: _,
        } => Ok(may_rename(keys.columns(), ports, column)),
        NodeKind::Join(tests) => may_be_tied(alloc, tests.as_slice(), ports, column),
        NodeKind::Sequence { scope: _, tests } => {
            may_be_tied(alloc, tests.as_slice(), ports, column)
        }
        NodeKind::Unless {
            scope: _,
            hold: _,
            tests,
        } => may_keep_first(alloc, tests.as_slice(), ports, column),
        NodeKind::Except(tests) => may_keep_first(alloc, tests.as_slice(), ports, column),
        NodeKind::AtLeast {
            number,
            scope: _,
            tests,
        } => may_repeat(alloc, *number, tests.as_slice(), ports, column),
        _ => Ok(may_have(column, ports)),
    }
}

/// Whether all ports may have this column.
fn may_have(column: usize, ports: &[RangedPort]) -> bool
    ensures { result ≡ may_have column ports.now }
{
    ports.iter().all(|port| is_in(column, &port.columns))
}

/// Whether all ports may have the column that is kept at this place.
fn may_rename(kept: &[usize], ports: &[RangedPort], column: usize) -> bool
    ensures { result ≡ may_rename kept.now ports.now column }
{
    match kept.get(column) {
        Some(column) => may_have(*column, ports),
        None => ports.is_empty(),
    }
}

/// Whether tests may tie the key columns of all ports, where the first one's is this column.
fn may_keep_first(
    alloc: Global,
    tests: &[Test],
    ports: &[RangedPort],
    column: usize,
) -> Result<bool, OutOfMemory>
    requires few { length ports.now ≤ 4 }
    requires narrow { All IsNarrow ports.now }
    ensures { IfOk result (λ may. may ≡ may_keep_first tests.now ports.now column) }
{
    let Some(first) = ports.first() else {
        return Ok(true);
    };
    if !is_in(column, &first.columns) {
        return Ok(false);
    }
    may_be_tied(alloc, tests, ports, column)
}

/// Whether the ports may have one column, and tests tie so many payloads of it.
fn may_repeat(
    alloc: Global,
    number: usize,
    tests: &[Test],
    ports: &[RangedPort],
    column: usize,
) -> Result<bool, OutOfMemory>
    requires number { number ≤ 4 }
    requires narrow { All IsNarrow ports.now }
    ensures { IfOk result (λ may. may ≡ may_repeat number tests.now ports.now column) }
{
    let Some(first) = ports.first() else {
        return may_be_tied(alloc, tests, ports, column);
    };
    if !are_alike(first, ports) {
        return Ok(false);
    }
    let common = RangedPort {
        columns: common_range(ports, first.columns),
        width: first.width,
    };
    let repeated = repeated(alloc, number, common)?;
    may_be_tied(alloc, tests, &repeated, column)
}

/// Whether all ports may have the first one's column and have its width.
fn are_alike(first: &RangedPort, ports: &[RangedPort]) -> bool
    ensures { result ≡ are_alike first.now ports.now }
{
    ports.iter().all(|port| is_alike(first, port))
}

fn is_alike(one: &RangedPort, other: &RangedPort) -> bool
    ensures { result ≡ is_alike one.now other.now }
{
    one.width == other.width
        && one.columns.least <= other.columns.most
        && other.columns.least <= one.columns.most
}

/// The columns of the range that all ports may have.
fn common_range(ports: &[RangedPort], range: ColumnRange) -> ColumnRange
    requires range { IsNarrowRange range }
    requires narrow { All IsNarrow ports.now }
    ensures common { result ≡ common_range ports.now range }
    ensures narrow { IsNarrowRange result }
{
    let mut common = range;
    for port in ports {
        common = ColumnRange {
            least: common.least.max(port.columns.least),
            most: common.most.min(port.columns.most),
        };
    }
    common
}

/// So many ports, each like this one.
fn repeated(alloc: Global, number: usize, port: RangedPort) -> Result<Vec<RangedPort>, OutOfMemory>
    ensures { IfOk result (λ ports. ports.items ≡ replicate number port) }
{
    let mut ports = Vec::with_capacity(alloc, number)?;
    for _ in 0..number {
        ports.push(port)?;
    }
    Ok(ports)
}
