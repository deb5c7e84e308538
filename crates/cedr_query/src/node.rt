ghost use Rattle.std.specs.Prelude.{ℕ, ◌≡◌, ◌<◌, All, IfOk, length};
ghost use Rattle.cedr_table.specs.Operators.{Tables, AreTimes, SameTables, HaveRows};
ghost use Rattle.cedr_query.specs.Asked.{IsAnswer};
ghost use Rattle.cedr_query.specs.Queries.{input_tables};
ghost use Rattle.op_node.specs.Meanings.{meaning_of};
ghost use Rattle.op_node.specs.Ready.{IsReady};

use crate::ask::{Answer, ask};
use cedr_base::{OutOfMemory, Time};
use cedr_plan::PlanNode;
use cedr_table::Table;
use op_node::node_operator;
use std::alloc::Global;

/// What a node makes of the tables that it reads and of a mark for each port. The tables are those of the nodes before
/// it. The node is no source.
pub(crate) fn ask_node(
    alloc: Global,
    node: &PlanNode,
    tables: &[Table],
    marks: &[Time],
) -> Result<Answer, OutOfMemory>
    requires ready { IsReady node.now.kind (length node.now.inputs.items) }
    requires inputs { All (λ place. place < length tables.now) node.now.inputs.items }
    requires rows { HaveRows tables.now }
    requires marks { length marks.now ≡ length node.now.inputs.items }
    requires times { AreTimes marks.now }
    ensures { IfOk result (λ answer. (others : Tables) → SameTables (input_tables tables.now node.now) others → IsAnswer (meaning_of node.now) others marks.now answer.rows answer.mark) }
{
    let op = node_operator(alloc, &node.kind, node.inputs.len())?;
    ask(alloc, op, tables, node.inputs.as_slice(), marks)
}
