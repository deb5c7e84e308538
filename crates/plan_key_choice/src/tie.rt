ghost use Rattle.std.specs.Prelude.{◌≡◌, ◌<◌, ◌≤◌, ℕ, [], All, IfOk, length};
ghost use Rattle.std.specs.List.{list_all, list_any};
ghost use Rattle.plan_key_choice.specs.declared.range.RangedPort.{RangedPort};
ghost use Rattle.plan_key_choice.specs.Ranges.{is_in, narrowed, shifted_range, place_ranges, may_compare, may_tie, is_tied_behind, are_tied, is_wide, may_tie_places, may_be_tied, IsNarrow};

use crate::range::{ColumnRange, RangedPort, is_in};
use cedr_base::OutOfMemory;
use cedr_expr::{Op, Operand, Test};
use std::alloc::Global;

/// Whether tests may tie the key columns of all ports, where this is one of them in the payloads of all ports, one after the
/// other.
pub(crate) fn may_be_tied(
    alloc: Global,
    tests: &[Test],
    ports: &[RangedPort],
    column: usize,
) -> Result<bool, OutOfMemory>
    requires few { length ports.now ≤ 4 }
    requires narrow { All IsNarrow ports.now }
    ensures { IfOk result (λ may. may ≡ may_be_tied tests.now ports.now column) }
{
    let places = place_ranges(alloc, ports, column)?;
    Ok(may_tie_places(tests, ports, column, &places))
}

fn may_tie_places(
    tests: &[Test],
    ports: &[RangedPort],
    column: usize,
    places: &[ColumnRange],
) -> bool
    ensures { result ≡ may_tie_places tests.now ports.now column places.now }
{
    are_wide(ports) && has_place(column, places) && are_tied(tests, places)
}

fn are_wide(ports: &[RangedPort]) -> bool
    ensures { result ≡ list_all is_wide ports.now }
{
    ports.iter().all(|port| is_wide(port))
}

/// Whether a column of the range is there.
fn is_wide(port: &RangedPort) -> bool
    ensures { result ≡ is_wide port.now }
{
    port.columns.least < port.width
}

fn has_place(column: usize, places: &[ColumnRange]) -> bool
    ensures { result ≡ list_any (is_in column) places.now }
{
    places.iter().any(|place| is_in(column, place))
}

/// Where the key column of each port may stand in the payloads of all ports. A port that may have this column has it.
fn place_ranges(
    alloc: Global,
    ports: &[RangedPort],
    column: usize,
) -> Result<Vec<ColumnRange>, OutOfMemory>
    requires few { length ports.now ≤ 4 }
    requires narrow { All IsNarrow ports.now }
    ensures { IfOk result (λ places. places.items ≡ place_ranges 0 column ports.now) }
{
    let mut places = Vec::with_capacity(alloc, ports.len())?;
    let mut first = 0;
    for port in ports {
        places.push(narrowed(column, shifted_range(first, port)))?;
        first += port.width;
    }
    Ok(places)
}

fn shifted_range(first: usize, port: &RangedPort) -> ColumnRange
    requires first { first ≤ 64 }
    requires narrow { IsNarrow port.now }
    ensures { result ≡ shifted_range first port.now.columns }
{
    ColumnRange {
        least: first + port.columns.least,
        most: first + port.columns.most,
    }
}

fn narrowed(column: usize, range: ColumnRange) -> ColumnRange
    ensures { result ≡ narrowed column range }
{
    if is_in(column, &range) {
        ColumnRange {
            least: column,
            most: column,
        }
    } else {
        range
    }
}

/// Whether tests may tie each place but the first to an earlier one.
fn are_tied(tests: &[Test], places: &[ColumnRange]) -> bool
    ensures { result ≡ are_tied tests.now [] places.now }
{
    for (k, place) in places.iter().enumerate() {
        if !is_tied_behind(tests, &places[..k], place) {
            return false;
        }
    }
    true
}

fn is_tied_behind(tests: &[Test], earlier: &[ColumnRange], place: &ColumnRange) -> bool
    ensures { result ≡ is_tied_behind tests.now earlier.now place.now }
{
    earlier.is_empty() || is_tied_to(tests, earlier, place)
}

fn is_tied_to(tests: &[Test], earlier: &[ColumnRange], place: &ColumnRange) -> bool
    ensures { result ≡ list_any (λ one. list_any (may_tie one place.now) tests.now) earlier.now }
{
    earlier.iter().any(|one| may_tie(tests, one, place))
}

/// Whether a test may want a column of one range equal to one of the other.
fn may_tie(tests: &[Test], one: &ColumnRange, other: &ColumnRange) -> bool
    ensures { result ≡ list_any (may_tie one.now other.now) tests.now }
{
    tests.iter().any(|test| may_compare(one, other, test))
}

fn may_compare(one: &ColumnRange, other: &ColumnRange, test: &Test) -> bool
    ensures { result ≡ may_tie one.now other.now test.now }
{
    match (test.op, &test.right) {
        (Op::Eq, Operand::Column(right)) => {
            (is_in(test.left, one) && is_in(*right, other))
                || (is_in(test.left, other) && is_in(*right, one))
        }
        _ => false,
    }
}
