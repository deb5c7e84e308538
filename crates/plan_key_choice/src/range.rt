ghost use Rattle.std.specs.Prelude.{◌≡◌, IfOk, map};
ghost use Rattle.plan_keys.specs.Keys.{width_at};
ghost use Rattle.plan_key_choice.specs.Partial.{chosen_at};
ghost use Rattle.plan_key_choice.specs.Ranges.{is_in, column_range, ranged_port};

use cedr_base::OutOfMemory;
use cedr_plan::PlanNode;
use std::alloc::Global;

/// The columns from the least one to the most.
#[derive(Clone, Copy, Drop)]
pub(crate) struct ColumnRange {
    pub(crate) least: usize,
    pub(crate) most: usize,
}

/// A port: which columns its key column may be, and how many fields its rows have.
#[derive(Clone, Copy, Drop)]
pub(crate) struct RangedPort {
    pub(crate) columns: ColumnRange,
    pub(crate) width: usize,
}

/// Whether a column is in the range.
pub(crate) fn is_in(column: usize, range: &ColumnRange) -> bool
    ensures { result ≡ is_in column range.now }
{
    range.least <= column && column <= range.most
}

/// The ports of a node behind those before it, where some columns are chosen.
pub(crate) fn ranged_ports(
    alloc: Global,
    before: &[PlanNode],
    choice: &[Option<usize>],
    inputs: &[usize],
) -> Result<Vec<RangedPort>, OutOfMemory>
    ensures { IfOk result (λ ports. ports.items ≡ map (ranged_port choice.now before.now) inputs.now) }
{
    let ports = inputs
        .iter()
        .map(|place| ranged_port(choice, before, *place))
        .collect(alloc)?;
    Ok(ports)
}

fn ranged_port(choice: &[Option<usize>], before: &[PlanNode], place: usize) -> RangedPort
    ensures { result ≡ ranged_port choice.now before.now place }
{
    let width = width_at(before, place);
    RangedPort {
        columns: column_range(chosen_at(choice, place), width),
        width,
    }
}

/// How many fields the rows of the node at the place have, and 0 where there is none.
pub(crate) fn width_at(nodes: &[PlanNode], place: usize) -> usize
    ensures { result ≡ width_at nodes.now place }
{
    match nodes.get(place) {
        Some(node) => node.types.len(),
        None => 0,
    }
}

/// The column that is chosen for the node at the place.
pub(crate) fn chosen_at(choice: &[Option<usize>], place: usize) -> Option<usize>
    ensures { result ≡ chosen_at choice.now place }
{
    match choice.get(place) {
        Some(column) => *column,
        None => None,
    }
}

/// The chosen column, where it is one of so many, and else all of them.
fn column_range(chosen: Option<usize>, width: usize) -> ColumnRange
    ensures { result ≡ column_range chosen width }
{
    let most = width.saturating_sub(1);
    match chosen {
        Some(column) if column <= most => ColumnRange {
            least: column,
            most: column,
        },
        _ => ColumnRange { least: 0, most },
    }
}
