ghost use Rattle.std.specs.Prelude.{◌≡◌, ◌||◌, IfOk};
ghost use Rattle.cedr_base.specs.Rows.{in_order};
ghost use Rattle.node_laws.specs.Lists.{AreTables};
ghost use Rattle.cedr_plan.specs.Rules.{IsPlan};
ghost use Rattle.cedr_query.specs.Queries.{query};
ghost use Rattle.cedr_plan.specs.Places.{output_place, source_count};
ghost use Rattle.plan_runs.specs.Runs.{AllWhole, sources_in};
ghost use Rattle.plan_runs.specs.Without.{Remembers};
ghost use Rattle.cedr_table.specs.Operators.{Tables, table_at};
ghost use Rattle.plan_answer.specs.Answers.{has_memory};
ghost use Rattle.plan_serial.specs.Feeding.{AreSources, AnswersInRounds, IsWholeRun};
ghost use Rattle.plan_serial.specs.Rounds.{all_messages};

use crate::answer::write_answer;
use crate::feeding::feed_all;
use crate::law::fed_sources;
use cedr_base::{OutOfMemory, Row};
use cedr_net::{SerialNet, network_runs};
use cedr_plan::{Plan, PlanNode};
use cedr_source::Entries;
use plan_answer::has_memory;
use std::alloc::Global;

/// The network of a plan, to which all sources were fed.
fn feed_sources(
    alloc: Global,
    plan: &Plan,
    mut left: Vec<Entries>,
) -> Result<SerialNet, OutOfMemory>
    requires plan { IsPlan plan.now }
    requires sources { AreSources plan.now.nodes.items left.items }
    ensures { IfOk result (λ net. IsWholeRun plan.now.nodes.items net left.items) }
{
    fed_sources();
    let mut net = SerialNet::of_table(alloc, plan)?;
    feed_all(alloc, &mut net, &mut left)?;
    Ok(net)
}

/// Whether what was forgotten is listed.
fn is_told(always: bool, nodes: &[PlanNode]) -> bool
    ensures { result ≡ (always || has_memory nodes.now) }
{
    always || has_memory(nodes)
}

/// The text of a plan's answer over whole sources: the rows and, where some port has a finite memory or `always`, what was
/// forgotten. Its lists came in rounds. Its one error is want of memory. O(n log n) in the messages, besides what the
/// operators cost.
pub fn answer_sources(
    alloc: Global,
    plan: &Plan,
    always: bool,
    left: Vec<Entries>,
) -> Result<Vec<u8>, OutOfMemory>
    requires plan { IsPlan plan.now }
    requires sources { AreSources plan.now.nodes.items left.items }
    ensures { IfOk result (λ text. (histories : Tables) → AllWhole (source_count plan.now.nodes.items) (sources_in plan.now.nodes.items (all_messages left.items)) → AreTables (sources_in plan.now.nodes.items (all_messages left.items)) histories → AnswersInRounds always plan.now.nodes.items left.items histories text.items) }
{
    network_runs();
    let net = feed_sources(alloc, plan, left)?;
    let nodes = plan.nodes.as_slice();
    let mut text = Vec::new(alloc);
    write_answer(nodes, net, is_told(always, nodes), &mut text)?;
    Ok(text)
}

/// The rows of a plan's answer over whole sources in canonical order. Where no port has a finite memory they are those of the
/// query. Its one error is want of memory. O(n log n) in the messages, besides what the operators cost.
pub fn answer_rows(alloc: Global, plan: &Plan, left: Vec<Entries>) -> Result<Vec<Row>, OutOfMemory>
    requires plan { IsPlan plan.now }
    requires sources { AreSources plan.now.nodes.items left.items }
    ensures { IfOk result (λ rows. (histories : Tables) → AllWhole (source_count plan.now.nodes.items) (sources_in plan.now.nodes.items (all_messages left.items)) → AreTables (sources_in plan.now.nodes.items (all_messages left.items)) histories → Remembers plan.now.nodes.items → rows.items ≡ in_order (table_at (query histories plan.now.nodes.items) (output_place plan.now.nodes.items))) }
{
    network_runs();
    let net = feed_sources(alloc, plan, left)?;
    let rows = net.into_rows()?;
    Ok(rows)
}
