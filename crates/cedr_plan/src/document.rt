ghost use Rattle.std.specs.Prelude.{◌≡◌, [], IfOk, IfErr, map, length, is_some, codes, not};
ghost use Rattle.serde_json.specs.Find.{as_array};
ghost use Rattle.serde_json.specs.View.{view};
ghost use Rattle.cedr_plan.specs.Drawn.{node_of, drawn};
ghost use Rattle.cedr_plan.specs.Json.{has, is_number};
ghost use Rattle.cedr_plan.specs.Plans.{is_version, version_at, lacks_part, has_too_many_nodes, has_bad_edge, document_fault, edge_of, node_values, nodes_from, plan_with, plan_of_value, IsFaultIn};

use crate::fault::{NodeFault, PlanFault, PlanKind};
use crate::json::{is_whole_within, values_at};
use crate::lists::number_at;
use crate::node::read_node;
use crate::plan::{Plan, PlanNode};
use crate::whole::{find_excess_output, find_unused};
use serde_json::Value;
use std::alloc::Global;

/// The newest version of the plan language.
const NEWEST: u64 = 2;

const MOST_NODES: usize = 64;

const GREATEST_EDGE: u64 = 1024;

const DEFAULT_EDGE: u64 = 64;

/// The first fault of the document.
pub(crate) fn document_fault(document: &Value) -> Option<PlanKind>
    ensures { result ≡ document_fault (view document.now) }
{
    if lacks_part(document) {
        return Some(PlanKind::MissingPart);
    }
    if has_too_many_nodes(document) {
        return Some(PlanKind::TooMany);
    }
    if has_bad_edge(document) {
        return Some(PlanKind::BadNumber);
    }
    None
}

#[tactic(auto, unfolding(crate::specs::Plans::lacks_part))]
fn lacks_part(document: &Value) -> bool
    ensures { result ≡ lacks_part (view document.now) }
{
    !document.is_object()
        || !has_version(document)
        || !has_nodes(document)
        || has_odd_edge(document)
}

fn has_version(document: &Value) -> bool
    ensures { result ≡ has (codes "version") is_version (view document.now) }
{
    match document.get("version") {
        Some(version) => is_version(version),
        None => false,
    }
}

fn is_version(value: &Value) -> bool
    ensures { result ≡ is_version (view value.now) }
{
    is_whole_within(1, NEWEST, value)
}

/// The version that the document states.
fn version_at(document: &Value) -> u64
    ensures { result ≡ version_at (view document.now) }
{
    number_at(document, "version")
}

fn has_nodes(document: &Value) -> bool
    ensures { result ≡ has (codes "nodes") (λ nodes. is_some (as_array nodes)) (view document.now) }
{
    match document.get("nodes") {
        Some(nodes) => nodes.is_array(),
        None => false,
    }
}

fn has_odd_edge(document: &Value) -> bool
    ensures { result ≡ has (codes "edge") (λ edge. not (is_number edge)) (view document.now) }
{
    match document.get("edge") {
        Some(edge) => !edge.is_number(),
        None => false,
    }
}

#[tactic(auto, unfolding(crate::specs::Plans::has_too_many_nodes))]
fn has_too_many_nodes(document: &Value) -> bool
    ensures { result ≡ has_too_many_nodes (view document.now) }
{
    MOST_NODES < node_count(document)
}

#[tactic(auto, using(crate::proofs::ListLemmas::length_of_map))]
fn node_count(document: &Value) -> usize
    ensures { result ≡ length (node_values (view document.now)) }
{
    values_at(document, "nodes").len()
}

#[tactic(auto, unfolding(crate::specs::Plans::has_bad_edge))]
fn has_bad_edge(document: &Value) -> bool
    ensures { result ≡ has_bad_edge (view document.now) }
{
    match document.get("edge") {
        Some(edge) => !is_whole_within(1, GREATEST_EDGE, edge),
        None => false,
    }
}

/// How many messages an edge holds.
fn edge_of(document: &Value) -> u64
    ensures { result ≡ edge_of (view document.now) }
{
    match document.get("edge") {
        Some(edge) => edge.as_u64().unwrap_or(DEFAULT_EDGE),
        None => DEFAULT_EDGE,
    }
}

/// The plan of a document, or its first fault.
pub(crate) fn plan_of_value(alloc: Global, document: &Value) -> Result<Plan, PlanFault>
    ensures plan { IfOk result (λ plan. plan_of_value (view document.now) ≡ Ok (drawn plan)) }
    ensures fault { IfErr result (IsFaultIn (plan_of_value (view document.now))) }
{
    if let Some(kind) = document_fault(document) {
        return Err(PlanFault::Refused { kind, node: 0 });
    }
    let nodes = read_nodes(alloc, version_at(document), values_at(document, "nodes"))?;
    plan_with(edge_of(document) as usize, nodes)
}

/// The nodes that the values are in this version, or the first fault.
fn read_nodes(alloc: Global, version: u64, values: &[Value]) -> Result<Vec<PlanNode>, PlanFault>
    ensures nodes { IfOk result (λ nodes. nodes_from version [] (map view values.now) ≡ Ok (map node_of nodes.items)) }
    ensures fault { IfErr result (IsFaultIn (nodes_from version [] (map view values.now))) }
{
    let mut nodes = Vec::new(alloc);
    for value in values {
        match read_node(alloc, version, nodes.as_slice(), value) {
            Ok(node) => nodes.push(node)?,
            Err(NodeFault::Fault(kind)) => {
                let node = nodes.len() + 1;
                return Err(PlanFault::Refused { kind, node });
            }
            Err(NodeFault::OutOfMemory) => return Err(PlanFault::OutOfMemory),
        }
    }
    Ok(nodes)
}

/// The plan of these nodes, or its first fault as a whole.
fn plan_with(edge: usize, nodes: Vec<PlanNode>) -> Result<Plan, PlanFault>
    ensures plan { IfOk result (λ plan. plan_with edge (map node_of nodes.items) ≡ Ok (drawn plan)) }
    ensures fault { IfErr result (IsFaultIn (plan_with edge (map node_of nodes.items))) }
{
    if let Some(node) = find_excess_output(false, 1, nodes.as_slice()) {
        return Err(PlanFault::Refused {
            kind: PlanKind::NotOneOutput,
            node,
        });
    }
    if let Some(node) = find_unused(0, nodes.as_slice()) {
        return Err(PlanFault::Refused {
            kind: PlanKind::Unused,
            node,
        });
    }
    Ok(Plan { nodes, edge })
}
