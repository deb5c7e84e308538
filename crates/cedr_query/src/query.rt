ghost use Rattle.std.specs.Prelude.{ℕ, ◌≡◌, ◌<◌, ◌≤◌, [], All, IfOk, true, false, length};
ghost use Rattle.cedr_base.specs.Rows.{SameRows, AreRows};
ghost use Rattle.cedr_table.specs.Operators.{Tables, AreTimes, SameTables, table_at, mark_at, HaveRows};
ghost use Rattle.cedr_base.specs.declared.time.TheConstants.{FOREVER};
ghost use Rattle.cedr_query.specs.Queries.{query, reaches, each_node, node_table, node_mark};
ghost use Rattle.cedr_plan.specs.Places.{is_source, output_place, source_count};
ghost use Rattle.op_node.specs.Ready.{IsReady};
ghost use Rattle.cedr_plan.specs.Rules.{IsPlan};

use crate::node::ask_node;
use cedr_base::{OutOfMemory, Time};
use cedr_plan::{Plan, PlanNode, count_sources, find_output, is_source};
use cedr_table::{Table, no_marks};
use std::alloc::Global;

/// The table of a node, from those of the nodes before it.
fn find_table(
    alloc: Global,
    before: &[PlanNode],
    node: &PlanNode,
    sources: &[Table],
    tables: &[Table],
) -> Result<Table, OutOfMemory>
    requires source { is_source node.now.kind ≡ true → source_count before.now < length sources.now }
    requires ready { is_source node.now.kind ≡ false → IsReady node.now.kind (length node.now.inputs.items) }
    requires inputs { All (λ place. place < length tables.now) node.now.inputs.items }
    requires rows { HaveRows tables.now }
    requires source_rows { HaveRows sources.now }
    ensures same { IfOk result (λ table. (others : Tables) → SameTables tables.now others → SameRows table (node_table sources.now before.now others node.now)) }
    ensures rows { IfOk result AreRows }
{
    if is_source(&node.kind) {
        let copied = sources[count_sources(before)].copy()?;
        return Ok(copied);
    }
    let marks = no_marks(alloc, node.inputs.len())?;
    let answer = ask_node(alloc, node, tables, marks.as_slice())?;
    Ok(answer.rows)
}

/// The tables of all nodes.
fn find_tables(alloc: Global, plan: &Plan, sources: &[Table]) -> Result<Vec<Table>, OutOfMemory>
    requires plan { IsPlan plan.now }
    requires count { length sources.now ≡ source_count plan.now.nodes.items }
    requires rows { HaveRows sources.now }
    ensures same { IfOk result (λ tables. SameTables tables.items (query sources.now plan.now.nodes.items)) }
    ensures rows { IfOk result (λ tables. HaveRows tables.items) }
    ensures len { IfOk result (λ tables. length tables.items ≡ length plan.now.nodes.items) }
{
    let nodes = plan.nodes.as_slice();
    let mut tables = Vec::new(alloc);
    for place in 0..nodes.len() {
        let table = find_table(
            alloc,
            &nodes[..place],
            &nodes[place],
            sources,
            tables.as_slice(),
        )?;
        tables.push(table)?;
    }
    Ok(tables)
}

/// The mark of a node, from the tables of all nodes and the marks of the nodes before it.
fn find_mark(
    alloc: Global,
    before: &[PlanNode],
    node: &PlanNode,
    tables: &[Table],
    sources: &[Time],
    marks: &[Time],
) -> Result<Time, OutOfMemory>
    requires source { is_source node.now.kind ≡ true → source_count before.now < length sources.now }
    requires ready { is_source node.now.kind ≡ false → IsReady node.now.kind (length node.now.inputs.items) }
    requires inputs { All (λ place. place < length tables.now) node.now.inputs.items }
    requires earlier { All (λ place. place < length marks.now) node.now.inputs.items }
    requires rows { HaveRows tables.now }
    requires source_times { AreTimes sources.now }
    requires times { AreTimes marks.now }
    ensures is { IfOk result (λ mark. (others : Tables) → SameTables tables.now others → mark ≡ node_mark others sources.now before.now marks.now node.now) }
    ensures time { IfOk result (λ mark. mark ≤ FOREVER) }
{
    if is_source(&node.kind) {
        return Ok(sources[count_sources(before)]);
    }
    let mut given = Vec::new(alloc);
    for input in node.inputs.as_slice() {
        given.push(marks[*input])?;
    }
    let answer = ask_node(alloc, node, tables, given.as_slice())?;
    Ok(answer.mark)
}

/// The marks of all nodes, from their tables.
fn find_marks(
    alloc: Global,
    plan: &Plan,
    tables: &[Table],
    sources: &[Time],
) -> Result<Vec<Time>, OutOfMemory>
    requires plan { IsPlan plan.now }
    requires count { length sources.now ≡ source_count plan.now.nodes.items }
    requires tables { length tables.now ≡ length plan.now.nodes.items }
    requires rows { HaveRows tables.now }
    requires times { AreTimes sources.now }
    ensures len { IfOk result (λ marks. length marks.items ≡ length plan.now.nodes.items) }
    ensures marks { IfOk result (λ marks. (others : Tables) → SameTables tables.now others → marks.items ≡ each_node (node_mark others sources.now) [] [] plan.now.nodes.items) }
{
    let nodes = plan.nodes.as_slice();
    let mut marks = Vec::new(alloc);
    for place in 0..nodes.len() {
        let mark = find_mark(
            alloc,
            &nodes[..place],
            &nodes[place],
            tables,
            sources,
            marks.as_slice(),
        )?;
        marks.push(mark)?;
    }
    Ok(marks)
}

/// The query of a plan from scratch: the rows of its output, from one table for each source, in plan order. It takes a
/// change for each row that a node reads. The tables are left as they are.
///
/// A [`Table`] doesn't say that each of its rows begins before it ends (an aligner files rows with these two exchanged),
/// so that is asked for here. The table of a legal list of messages has rows only.
pub fn evaluate(alloc: Global, plan: &Plan, sources: &[Table]) -> Result<Table, OutOfMemory>
    requires plan { IsPlan plan.now }
    requires count { length sources.now ≡ source_count plan.now.nodes.items }
    requires rows { HaveRows sources.now }
    ensures { IfOk result (λ table. SameRows table (table_at (query sources.now plan.now.nodes.items) (output_place plan.now.nodes.items))) }
{
    let mut tables = find_tables(alloc, plan, sources)?;
    let place = find_output(plan.nodes.as_slice());
    Ok(tables.remove(place))
}

/// How far a plan's output reaches from scratch: the guarantee that its output has, from one table and one guarantee for
/// each source, in plan order. It takes two changes for each row that a node reads. The tables are left as they are.
///
/// A [`Table`] doesn't say that each of its rows begins before it ends (an aligner files rows with these two exchanged),
/// so that is asked for here. The table of a legal list of messages has rows only.
pub fn reach(
    alloc: Global,
    plan: &Plan,
    sources: &[Table],
    marks: &[Time],
) -> Result<Time, OutOfMemory>
    requires plan { IsPlan plan.now }
    requires count { length sources.now ≡ source_count plan.now.nodes.items }
    requires marks { length marks.now ≡ source_count plan.now.nodes.items }
    requires times { AreTimes marks.now }
    requires rows { HaveRows sources.now }
    ensures { IfOk result (λ mark. mark ≡ mark_at (reaches sources.now marks.now plan.now.nodes.items) (output_place plan.now.nodes.items)) }
{
    let tables = find_tables(alloc, plan, sources)?;
    let reached = find_marks(alloc, plan, tables.as_slice(), marks)?;
    Ok(reached[find_output(plan.nodes.as_slice())])
}
