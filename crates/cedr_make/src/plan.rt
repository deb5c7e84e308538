ghost use Rattle.std.specs.Prelude.{◌≡◌, ◌<◌, ◌∷◌, [], IfOk, map};
ghost use Rattle.cedr_plan.specs.Drawn.{node_of, drawn};
ghost use Rattle.cedr_plan.specs.Rules.{IsPlan};
ghost use Rattle.cedr_make.specs.BuiltIn.{node, source_node, same_keys, totals_node, built_in};

use cedr_base::{FieldType, Level, OutOfMemory, Text};
use cedr_expr::{Keep, Op, Operand, Test, Tests};
use cedr_plan::{NodeKind, Plan, PlanNode};
use std::alloc::Global;

const MIDDLE: Level = Level {
    block: Some(0),
    memory: None,
};

/// The fields of an event: its key and its value.
const EVENT: [FieldType; 2] = [FieldType::Bytes, FieldType::Number];

/// Those of a pair of events.
const PAIR: [FieldType; 4] = [
    FieldType::Bytes,
    FieldType::Number,
    FieldType::Bytes,
    FieldType::Number,
];

/// A key, how many pairs it has, and the sum of the values of their left sides.
const TOTALS: [FieldType; 3] = [FieldType::Bytes, FieldType::Number, FieldType::Number];

fn make_node(
    alloc: Global,
    name: &[u8],
    kind: NodeKind,
    inputs: &[usize],
    types: &[FieldType],
) -> Result<PlanNode, OutOfMemory>
    ensures { IfOk result (λ made. node_of made ≡ node name.now kind inputs.now types.now) }
{
    Ok(PlanNode {
        name: Text::from_slice(alloc, name)?,
        kind,
        inputs: Vec::from_slice(alloc, inputs)?,
        level: MIDDLE,
        types: Vec::from_slice(alloc, types)?,
    })
}

/// A source whose file has its name.
fn make_source(alloc: Global, name: &[u8]) -> Result<PlanNode, OutOfMemory>
    ensures { IfOk result (λ made. node_of made ≡ source_node name.now) }
{
    let file = Text::from_slice(alloc, name)?;
    make_node(alloc, name, NodeKind::Source { file }, &[], &EVENT)
}

fn make_tests(alloc: Global) -> Result<Tests, OutOfMemory>
    ensures { IfOk result (λ tests. tests ≡ same_keys) }
{
    let mut tests = Vec::new(alloc);
    tests.push(Test {
        left: 0,
        op: Op::Eq,
        right: Operand::Column(2),
    })?;
    match Tests::new(tests, &PAIR, &[]) {
        Ok(tests) => Ok(tests),
        Err(_) => unreachable!(),
    }
}

/// One column of a pair.
fn make_column(alloc: Global, column: usize) -> Result<Keep, OutOfMemory>
    requires { column < 4 }
    ensures { IfOk result (λ kept. kept ≡ column ∷ []) }
{
    let mut columns = Vec::new(alloc);
    columns.push(column)?;
    match Keep::new(columns, &PAIR) {
        Ok(kept) => Ok(kept),
        Err(_) => unreachable!(),
    }
}

fn no_columns(alloc: Global) -> Keep
    ensures { result ≡ [] }
{
    match Keep::new(Vec::new(alloc), &PAIR) {
        Ok(kept) => kept,
        Err(_) => unreachable!(),
    }
}

fn make_group(alloc: Global) -> Result<PlanNode, OutOfMemory>
    ensures { IfOk result (λ made. node_of made ≡ totals_node) }
{
    let keys = make_column(alloc, 0)?;
    let sums = make_column(alloc, 1)?;
    let kind = NodeKind::Group {
        keys,
        count: true,
        sums,
        least: no_columns(alloc),
        greatest: no_columns(alloc),
    };
    make_node(alloc, b"g", kind, &[2], &TOTALS)
}

fn make_nodes(alloc: Global) -> Result<Vec<PlanNode>, OutOfMemory>
    ensures { IfOk result (λ nodes. map node_of nodes.items ≡ built_in.nodes) }
{
    let mut nodes = Vec::new(alloc);
    nodes.push(make_source(alloc, b"a")?)?;
    nodes.push(make_source(alloc, b"b")?)?;
    let tests = make_tests(alloc)?;
    nodes.push(make_node(alloc, b"j", NodeKind::Join(tests), &[0, 1], &PAIR)?)?;
    nodes.push(make_group(alloc)?)?;
    nodes.push(make_node(alloc, b"out", NodeKind::Output, &[3], &TOTALS)?)?;
    Ok(nodes)
}

/// The plan of the workload, which reads the files `a` and `b`, its two sources. They are joined by their keys. For
/// each key the answer has how many pairs there are, and the sum of the values of `a` in them. Each level is middle,
/// and an edge holds 64 messages. O(1).
pub fn made_plan(alloc: Global) -> Result<Plan, OutOfMemory>
    ensures made { IfOk result (λ plan. drawn plan ≡ built_in) }
    ensures sound { IfOk result (λ plan. IsPlan plan) }
{
    let nodes = make_nodes(alloc)?;
    Ok(Plan { nodes, edge: 64 })
}
