use anyhow::{Result, bail};
use cedr_base::{Payload, Row};
use cedr_expr::{Operand, Test};
use cedr_make::{made_bytes, made_plan, write_summary};
use cedr_plan::{NodeKind, Plan, PlanNode, read_plan, write_check};
use std::alloc::Global;

/// Writes the lines of a source of the workload of so many events.
pub(crate) fn tell_source(rt: &impl Print, alloc: Global, name: &str, count: &str) -> Result<()> {
    let source = match name {
        "a" => 0,
        "b" => 1,
        _ => bail!("no such source: {name}"),
    };
    let count = count.parse::<u64>()?;
    if count < 1 || count > 100_000 {
        bail!("no such workload: {count}");
    }
    print_text(rt, made_bytes(alloc, count, source)?.as_slice())
}

fn print_text(rt: &impl Print, text: &[u8]) -> Result<()> {
    print!(rt; "{}", std::str::from_utf8(text)?)?;
    Ok(())
}

/// Writes the plan of the workload.
pub(crate) fn tell_made_plan(rt: &impl Print, alloc: Global) -> Result<()> {
    tell_plan(rt, alloc, &made_plan(alloc)?)
}

/// Writes the plan that these bytes describe.
pub(crate) fn tell_read_plan(rt: &impl Print, alloc: Global, bytes: &[u8]) -> Result<()> {
    tell_plan(rt, alloc, &read_plan(alloc, bytes)?)
}

/// Writes what `check` says of a plan, how many messages an edge holds, and the nodes.
fn tell_plan(rt: &impl Print, alloc: Global, plan: &Plan) -> Result<()> {
    let mut text = Vec::new(alloc);
    write_check(plan, &mut text)?;
    print_text(rt, text.as_slice())?;
    println!(rt; "  edge {}", plan.edge)?;
    for node in &plan.nodes {
        tell_node(rt, node)?;
    }
    Ok(())
}

/// Writes a node's name, its inputs, its level, and what it does.
fn tell_node(rt: &impl Print, node: &PlanNode) -> Result<()> {
    println!(rt;
        "  {} from {:?} {:?}",
        node.name.bytes().escape_ascii(),
        node.inputs,
        node.level
    )?;
    tell_kind(rt, &node.kind)
}

fn tell_kind(rt: &impl Print, kind: &NodeKind) -> Result<()> {
    match kind {
        NodeKind::Source { file } => println!(rt; "    source {}", file.bytes().escape_ascii())?,
        NodeKind::Join(tests) => tell_tests(rt, tests.as_slice())?,
        NodeKind::Group {
            keys,
            count,
            sums,
            least,
            greatest,
        } => {
            println!(rt;
                "    group by {:?}, count {count}, sums {:?}, least {:?}, greatest {:?}",
                keys.columns(),
                sums.columns(),
                least.columns(),
                greatest.columns()
            )?;
        }
        NodeKind::Output => println!(rt; "    output")?,
        _ => bail!("no such node"),
    }
    Ok(())
}

/// Writes the tests of a join, each of two columns.
fn tell_tests(rt: &impl Print, tests: &[Test]) -> Result<()> {
    for test in tests {
        match test.right {
            Operand::Column(right) => {
                println!(rt; "    join where {} {:?} {right}", test.left, test.op)?;
            }
            _ => bail!("no such test"),
        }
    }
    Ok(())
}

/// Writes the summary of rows, each valid for a span.
pub(crate) fn tell_summary(rt: &impl Print, alloc: Global, spans: &[&str]) -> Result<()> {
    let mut rows = Vec::new(alloc);
    for span in spans {
        rows.push(row(alloc, span)?)?;
    }
    let mut text = Vec::from_slice(alloc, b"  ")?;
    write_summary(rows.as_slice(), &mut text)?;
    print_text(rt, text.as_slice())
}

/// A row of no field that is valid for a span, `BEGIN-END`.
fn row(alloc: Global, span: &str) -> Result<Row> {
    let Some((begin, end)) = span.split_once('-') else {
        bail!("no such span: {span}");
    };
    let (begin, end) = (begin.parse::<u64>()?, end.parse::<u64>()?);
    Ok(Row::new(begin, end, Payload::new(alloc))?)
}
