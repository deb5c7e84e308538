ghost use Rattle.std.specs.Prelude.{ℕ, ◌≡◌, ◌+◌, ◌<◌, ◌≤◌, ◌∷◌, List, [], IfOk, length};
ghost use Rattle.std.specs.Thread.{IsSync};
ghost use Rattle.cedr_base.specs.Rows.{in_order};
ghost use Rattle.cedr_plan.specs.Places.{output_place, source_count};
ghost use Rattle.cedr_plan.specs.Rules.{IsPlan};
ghost use Rattle.cedr_query.specs.Queries.{query};
ghost use Rattle.cedr_table.specs.Operators.{Tables, table_at};
ghost use Rattle.node_laws.specs.Lists.{AreTables};
ghost use Rattle.plan_keys.specs.Keys.{AreKeyed, AreSourceTables};
ghost use Rattle.plan_runs.specs.Runs.{AllWhole, sources_in};
ghost use Rattle.plan_runs.specs.Without.{Remembers};
ghost use Rattle.plan_parts.specs.Answers.{AnswersParts};
ghost use Rattle.plan_serial.specs.Feeding.{AreSources};
ghost use Rattle.plan_serial.specs.Rounds.{all_messages};
ghost use Rattle.plan_parts.specs.Parts.{AreLists, keys_of, shares_from};

use crate::feeding::feed_whole;
use crate::law::key_shares;
use crate::messages::{SourceMessages, messages_of_entries};
use crate::share::Share;
use cedr_base::{OutOfMemory, Row, sort_rows};
use cedr_net::{SerialNet, network_runs};
use cedr_plan::Plan;
use cedr_source::Entries;
use plan_keys::keyed_plans;
use std::alloc::Global;
use std::thread::{Threads, join};

/// The rows of one part's answer in canonical order, by a network of its own. O(n) in all messages, besides what the network
/// does with its own.
fn answer_part(
    alloc: Global,
    plan: &Plan,
    columns: &[usize],
    share: Share,
    lists: &[SourceMessages],
    round: usize,
) -> Result<Vec<Row>, OutOfMemory>
    requires plan { IsPlan plan.now }
    requires columns { length columns.now ≡ length plan.now.nodes.items }
    requires share { 0 < share.count }
    requires lists { AreLists plan.now.nodes.items lists.now }
    requires round { 0 < round }
    ensures { IfOk result (λ rows. AnswersParts plan.now.nodes.items lists.now columns.now (keys_of share ∷ []) rows.items) }
{
    network_runs();
    let mut net = SerialNet::of_table(alloc, plan)?;
    feed_whole(
        alloc,
        share,
        plan.nodes.as_slice(),
        columns,
        &mut net,
        lists,
        round,
    )?;
    let rows = net.into_rows()?;
    Ok(rows)
}

/// The rows of the answers of so many parts, from one on, together in canonical order. Where there are several, they are
/// halved, and one half goes to a thread of its own where one can be made. The rows of both halves are in order, so putting
/// them together takes O(n) comparisons.
#[cycle(parts)]
fn answer_parts<R: Threads + Sync>(
    rt: &R,
    alloc: Global,
    plan: &Plan,
    columns: &[usize],
    first: Share,
    number: usize,
    lists: &[SourceMessages],
    round: usize,
) -> Result<Vec<Row>, OutOfMemory>
    requires plan { IsPlan plan.now }
    requires columns { length columns.now ≡ length plan.now.nodes.items }
    requires number { 0 < number }
    requires parts { first.part + number ≤ first.count }
    requires lists { AreLists plan.now.nodes.items lists.now }
    requires round { 0 < round }
    ensures { IfOk result (λ rows. AnswersParts plan.now.nodes.items lists.now columns.now (shares_from first.count first.part number) rows.items) }
{
    if number == 1 {
        return answer_part(alloc, plan, columns, first, lists, round);
    }
    let low = number / 2;
    let high = number - low;
    let next = Share {
        count: first.count,
        part: first.part + low,
    };
    let front = move || -> Result<Vec<Row>, OutOfMemory>
        requires { IsSync R.row × IsPlan plan.now × (length columns.now ≡ length plan.now.nodes.items) × (0 < low) × (first.part + low ≤ first.count) × AreLists plan.now.nodes.items lists.now × (0 < round) }
        ensures { IfOk result (λ rows. AnswersParts plan.entry.now.nodes.items lists.entry.now columns.entry.now (shares_from first.count first.part low) rows.items) }
    { answer_parts(rt, alloc, plan, columns, first, low, lists, round) };
    let back = move || -> Result<Vec<Row>, OutOfMemory>
        requires { IsSync R.row × IsPlan plan.now × (length columns.now ≡ length plan.now.nodes.items) × (0 < high) × (next.part + high ≤ next.count) × AreLists plan.now.nodes.items lists.now × (0 < round) }
        ensures { IfOk result (λ rows. AnswersParts plan.entry.now.nodes.items lists.entry.now columns.entry.now (shares_from next.count next.part high) rows.items) }
    { answer_parts(rt, alloc, plan, columns, next, high, lists, round) };
    let (one, other) = join(rt, front, back);
    let mut rows = one?;
    let mut others = other?;
    rows.append(&mut others)?;
    sort_rows(&mut rows)?;
    Ok(rows)
}

/// The rows of a keyed plan's answer in canonical order, by so many parts of its keys. The columns are a key column of each
/// node, by its place, and the lists the messages of each node, by its place: those of what is no source count for
/// nothing. Each part is fed in rounds of so many messages of each source, which says only how often its network settles.
///
/// Each part but one is answered on a thread of its own, and where a thread is refused by the thread that asked for it. All
/// read the same lists: O(n) in all messages for each part, besides what its network does with its own. Where no port has a
/// finite memory the rows are those of the query over the tables of the sources. Its one error is want of memory, after
/// which no network and no thread is left.
pub fn answer_in_parts<R: Threads + Sync>(
    rt: &R,
    alloc: Global,
    plan: &Plan,
    columns: &[usize],
    count: usize,
    lists: &[SourceMessages],
    round: usize,
) -> Result<Vec<Row>, OutOfMemory>
    requires plan { IsPlan plan.now }
    requires count { 0 < count }
    requires columns { length columns.now ≡ length plan.now.nodes.items }
    requires keyed { AreKeyed columns.now [] plan.now.nodes.items }
    requires lists { AreLists plan.now.nodes.items lists.now }
    requires round { 0 < round }
    ensures { IfOk result (λ rows. (histories : Tables) → AllWhole (source_count plan.now.nodes.items) (sources_in plan.now.nodes.items lists.now) → AreTables (sources_in plan.now.nodes.items lists.now) histories → AreSourceTables plan.now.nodes.items histories → Remembers plan.now.nodes.items → rows.items ≡ in_order (table_at (query histories plan.now.nodes.items) (output_place plan.now.nodes.items))) }
{
    keyed_plans();
    key_shares();
    let first = Share { count, part: 0 };
    let rows = answer_parts(rt, alloc, plan, columns, first, count, lists, round)?;
    Ok(rows)
}

/// The same of what was read of the sources line by line; a round is counted in messages here as well, and not in lines.
pub fn answer_entries<R: Threads + Sync>(
    rt: &R,
    alloc: Global,
    plan: &Plan,
    columns: &[usize],
    count: usize,
    left: Vec<Entries>,
    round: usize,
) -> Result<Vec<Row>, OutOfMemory>
    requires plan { IsPlan plan.now }
    requires count { 0 < count }
    requires columns { length columns.now ≡ length plan.now.nodes.items }
    requires keyed { AreKeyed columns.now [] plan.now.nodes.items }
    requires sources { AreSources plan.now.nodes.items left.items }
    requires round { 0 < round }
    ensures { IfOk result (λ rows. (histories : Tables) → AllWhole (source_count plan.now.nodes.items) (sources_in plan.now.nodes.items (all_messages left.items)) → AreTables (sources_in plan.now.nodes.items (all_messages left.items)) histories → AreSourceTables plan.now.nodes.items histories → Remembers plan.now.nodes.items → rows.items ≡ in_order (table_at (query histories plan.now.nodes.items) (output_place plan.now.nodes.items))) }
{
    let lists = messages_of_entries(alloc, left)?;
    let rows = answer_in_parts(rt, alloc, plan, columns, count, lists.as_slice(), round)?;
    Ok(rows)
}
