use crate::bytes::{bytes, tell};
use crate::row::payload;
use anyhow::{Result, bail};
use cedr_base::{OutOfMemory, Payload, Row};
use cedr_plan::{NodeKind, Plan, PlanFault, PlanNode, read_plan, write_check};
use cedr_text::write_row;
use std::alloc::Global;

/// What stands before the version.
const VERSION: &str = r#"{"version":"#;

/// What stands between the version and the nodes of a document that has two sources.
const FRONT: &str =
    r#","nodes":[{"name":"l","op":"source","file":"l.csv","fields":["text","int"]},{"name":"r","op":"source","file":"r.csv","fields":["int"]},"#;

/// What stands behind the nodes: an output that reads the node `n`.
const BEHIND: &str = r#",{"name":"out","op":"output","from":["n"]}]}"#;

/// Reads a document, and writes its plan or its fault.
pub(crate) fn plan(rt: &impl Print, alloc: Global, document: &str) -> Result<()> {
    match read_plan(alloc, bytes(alloc, document)?.as_slice()) {
        Ok(plan) => tell_plan(rt, alloc, &plan),
        Err(PlanFault::Refused { kind, node }) => {
            println!(rt; "  fault {} at node {node}: {kind}", kind.number())?;
            Ok(())
        }
        Err(PlanFault::OutOfMemory) => bail!("out of memory"),
    }
}

/// The same of nodes between two sources and an output, in this version.
pub(crate) fn node(rt: &impl Print, alloc: Global, version: u64, nodes: &str) -> Result<()> {
    let document = format!(in alloc; "{VERSION}{version}{FRONT}{nodes}{BEHIND}")?;
    plan(rt, alloc, document.as_str())
}

fn tell_plan(rt: &impl Print, alloc: Global, plan: &Plan) -> Result<()> {
    println!(rt; "  edge {}", plan.edge)?;
    let mut out = Vec::new(alloc);
    write_check(plan, &mut out)?;
    tell(rt, alloc, out.as_slice())?;
    for node in &plan.nodes {
        println!(rt; "  inputs {:?}, {:?}", node.inputs, node.level)?;
    }
    Ok(())
}

/// Copies each node of a plan, and writes the copies and what they do to two payloads.
pub(crate) fn copied(
    rt: &impl Print,
    alloc: Global,
    left: &str,
    right: &str,
    document: &str,
) -> Result<()> {
    let plan = read_plan(alloc, bytes(alloc, document)?.as_slice())?;
    let (left, right) = (payload(alloc, left)?, payload(alloc, right)?);
    let copies = Plan {
        nodes: copies(alloc, plan.nodes.as_slice())?,
        edge: plan.edge,
    };
    tell_plan(rt, alloc, &copies)?;
    for node in &copies.nodes {
        tell_kind(rt, alloc, &node.kind, &left, &right)?;
    }
    Ok(())
}

fn copies(alloc: Global, nodes: &[PlanNode]) -> Result<Vec<PlanNode>, OutOfMemory> {
    let mut copies = Vec::new(alloc);
    for node in nodes {
        copies.push(node.copy(alloc)?)?;
    }
    Ok(copies)
}

/// Writes the file, the numbers, and what becomes of the payloads.
fn tell_kind(
    rt: &impl Print,
    alloc: Global,
    kind: &NodeKind,
    left: &Payload,
    right: &Payload,
) -> Result<()> {
    match kind {
        NodeKind::Source { file } => tell(rt, alloc, file.bytes()),
        NodeKind::Hop { every, width } => {
            println!(rt; "  every {every}, width {width}")?;
            Ok(())
        }
        NodeKind::Unless { scope, hold, tests } => {
            let passed = tests.holds(left, right);
            println!(rt; "  scope {scope}, hold {hold}, passed: {passed}")?;
            Ok(())
        }
        NodeKind::AtLeast {
            number,
            scope,
            tests,
        } => {
            let passed = tests.holds(left, right);
            println!(rt; "  number {number}, scope {scope}, passed: {passed}")?;
            Ok(())
        }
        NodeKind::Except(tests) => {
            println!(rt; "  passed: {}", tests.holds(left, right))?;
            Ok(())
        }
        NodeKind::Group {
            keys,
            count,
            sums,
            least,
            greatest,
        } => {
            println!(rt;
                "  counts: {count}, sums {:?}, least {:?}, greatest {:?}",
                sums.columns(),
                least.columns(),
                greatest.columns()
            )?;
            tell_kept(rt, alloc, keys.apply(alloc, left)?)
        }
        NodeKind::Output => {
            println!(rt; "  output")?;
            Ok(())
        }
        _ => bail!("a node whose copy isn't looked at"),
    }
}

/// Writes the fields that are kept, as a row from 0 to 1.
fn tell_kept(rt: &impl Print, alloc: Global, payload: Payload) -> Result<()> {
    let row = Row {
        end: 1,
        begin: 0,
        payload,
    };
    let mut out = Vec::new(alloc);
    write_row(&row, &mut out)?;
    tell(rt, alloc, out.as_slice())
}
