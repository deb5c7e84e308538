ghost use Rattle.std.specs.Prelude.{◌≡◌, ◌∷◌, [], IfOk, OnOk, IfErr, None, false, codes, is_some};
ghost use Rattle.std.specs.List.{list_any};
ghost use Rattle.cedr_plan.specs.declared.operator.Operator.TheVariants as operator;
ghost use Rattle.serde_json.specs.View.{view};
ghost use Rattle.cedr_plan.specs.Nodes.{text_at, tests_at, truth_at, columns_at, kind_from, is_text_column, first_fault};
ghost use Rattle.cedr_plan.specs.declared.plan.NodeKind.TheVariants as kind;
ghost use Rattle.cedr_plan.specs.declared.fault.PlanKind.TheVariants as fault;
ghost use Rattle.cedr_expr.specs.Types.{first_past_end};
ghost use Rattle.cedr_plan.specs.NodeFaults.{IsNodeFault, column_fault};
ghost use Rattle.cedr_plan.specs.Operators.{operator_row};
ghost use Rattle.cedr_plan.specs.declared.operator.Member.TheVariants.{Where, Keep as KeepMember, Keys, Count, Sum, Least, Greatest};

use crate::fault::{NodeFault, PlanKind, kind_of_types};
use crate::lists::{columns_at, number_at, tests_at, text_at, truth_at};
use crate::operator::Operator;
use crate::plan::NodeKind;
use cedr_base::{FieldType, OutOfMemory, Text};
use cedr_expr::{Keep, Tests};
use serde_json::Value;
use std::alloc::Global;

/// What the node does, where each column that it names is there and has the type that is asked for.
pub(crate) fn read_kind(
    alloc: Global,
    operator: Operator,
    node: &Value,
    types: &[FieldType],
) -> Result<NodeKind, NodeFault>
    ensures kind { IfOk result (λ kind. kind ≡ kind_from operator (view node.now)) }
    ensures fit { OnOk result (column_fault types.now (operator_row operator).members (view node.now) ≡ None) }
    ensures fault { IfErr result (IsNodeFault (column_fault types.now (operator_row operator).members (view node.now))) }
{
    match operator {
        Operator::Source => Ok(NodeKind::Source {
            file: read_file(alloc, node)?,
        }),
        Operator::Select => Ok(NodeKind::Select(read_tests(alloc, node, types)?)),
        Operator::Project => Ok(NodeKind::Project(read_keep(alloc, node, types)?)),
        Operator::Union => Ok(NodeKind::Union),
        Operator::Join => Ok(NodeKind::Join(read_tests(alloc, node, types)?)),
        Operator::Window => Ok(NodeKind::Window {
            width: number_at(node, "width"),
        }),
        Operator::Shift => Ok(NodeKind::Shift {
            by: number_at(node, "by"),
        }),
        Operator::Hop => Ok(NodeKind::Hop {
            every: number_at(node, "every"),
            width: number_at(node, "width"),
        }),
        Operator::Starts => Ok(NodeKind::Starts),
        Operator::Ends => Ok(NodeKind::Ends),
        Operator::Group => read_group(alloc, node, types, no_columns(alloc), no_columns(alloc)),
        Operator::RangedGroup => read_ranged_group(alloc, node, types),
        Operator::Sequence => Ok(NodeKind::Sequence {
            scope: number_at(node, "scope"),
            tests: read_tests(alloc, node, types)?,
        }),
        Operator::Unless => Ok(NodeKind::Unless {
            scope: number_at(node, "scope"),
            hold: number_at(node, "hold"),
            tests: read_tests(alloc, node, types)?,
        }),
        Operator::AtLeast => Ok(NodeKind::AtLeast {
            number: number_at(node, "number") as usize,
            scope: number_at(node, "scope"),
            tests: read_tests(alloc, node, types)?,
        }),
        Operator::Except => Ok(NodeKind::Except(read_tests(alloc, node, types)?)),
        Operator::Output => Ok(NodeKind::Output),
    }
}

fn read_file(alloc: Global, node: &Value) -> Result<Text, OutOfMemory>
    ensures { IfOk result (λ file. file ≡ text_at (codes "file") (view node.now)) }
{
    Text::from_slice(alloc, text_at(node, "file").as_bytes())
}

/// The node's tests, where they fit these types.
fn read_tests(alloc: Global, node: &Value, types: &[FieldType]) -> Result<Tests, NodeFault>
    ensures tests { IfOk result (λ tests. tests ≡ tests_at (view node.now)) }
    ensures fit { OnOk result (column_fault types.now (Where ∷ []) (view node.now) ≡ None) }
    ensures fault { IfErr result (IsNodeFault (column_fault types.now (Where ∷ []) (view node.now))) }
{
    let tests = tests_at(alloc, node)?;
    match Tests::new(tests, types, &[]) {
        Ok(tests) => Ok(tests),
        Err(fault) => Err(NodeFault::Fault(kind_of_types(fault))),
    }
}

/// The columns that a projection keeps, where each is there.
fn read_keep(alloc: Global, node: &Value, types: &[FieldType]) -> Result<Keep, NodeFault>
    ensures keep { IfOk result (λ keep. keep ≡ columns_at (codes "keep") (view node.now)) }
    ensures fit { OnOk result (column_fault types.now (KeepMember ∷ []) (view node.now) ≡ None) }
    ensures fault { IfErr result (IsNodeFault (column_fault types.now (KeepMember ∷ []) (view node.now))) }
{
    read_columns(alloc, node, "keep", types)
}

/// A group that says whose least and greatest fields it has, where each column is there and each sum's is a number.
fn read_ranged_group(
    alloc: Global,
    node: &Value,
    types: &[FieldType],
) -> Result<NodeKind, NodeFault>
    ensures kind { IfOk result (λ kind. kind ≡ kind_from operator.RangedGroup (view node.now)) }
    ensures fit { OnOk result (column_fault types.now (Keys ∷ Count ∷ Sum ∷ Least ∷ Greatest ∷ []) (view node.now) ≡ None) }
    ensures fault { IfErr result (IsNodeFault (column_fault types.now (Keys ∷ Count ∷ Sum ∷ Least ∷ Greatest ∷ []) (view node.now))) }
{
    let least = read_columns(alloc, node, "least", types)?;
    let greatest = read_columns(alloc, node, "greatest", types)?;
    read_group(alloc, node, types, least, greatest)
}

/// The columns of the member, where each is there.
fn read_columns(
    alloc: Global,
    node: &Value,
    key: &str,
    types: &[FieldType],
) -> Result<Keep, NodeFault>
    ensures columns { IfOk result (λ keep. keep ≡ columns_at key.now (view node.now)) }
    ensures fit { OnOk result (is_some (first_past_end (columns_at key.now (view node.now)) types.now) ≡ false) }
    ensures fault { IfErr result (IsNodeFault (first_fault ((is_some (first_past_end (columns_at key.now (view node.now)) types.now), fault.BadColumn) ∷ []))) }
{
    match Keep::new(columns_at(alloc, node, key)?, types) {
        Ok(keep) => Ok(keep),
        Err(fault) => Err(NodeFault::Fault(kind_of_types(fault))),
    }
}

fn no_columns(alloc: Global) -> Keep
    ensures { result ≡ [] }
{
    match Keep::new(Vec::new(alloc), &[]) {
        Ok(keep) => keep,
        Err(_) => unreachable!(),
    }
}

/// A group with these least and greatest fields, where each key and sum is there and each sum's is a number.
fn read_group(
    alloc: Global,
    node: &Value,
    types: &[FieldType],
    least: Keep,
    greatest: Keep,
) -> Result<NodeKind, NodeFault>
    ensures kind { IfOk result (λ made. made ≡ kind.Group (columns_at (codes "keys") (view node.now)) (truth_at (codes "count") (view node.now)) (columns_at (codes "sum") (view node.now)) least greatest) }
    ensures fit { OnOk result (column_fault types.now (Keys ∷ Count ∷ Sum ∷ []) (view node.now) ≡ None) }
    ensures fault { IfErr result (IsNodeFault (column_fault types.now (Keys ∷ Count ∷ Sum ∷ []) (view node.now))) }
{
    let keys = read_columns(alloc, node, "keys", types)?;
    let sums = read_columns(alloc, node, "sum", types)?;
    if has_text_column(sums.columns(), types) {
        return Err(NodeFault::Fault(PlanKind::TypeDiffers));
    }
    Ok(NodeKind::Group {
        keys,
        count: truth_at(node, "count"),
        sums,
        least,
        greatest,
    })
}

fn has_text_column(columns: &[usize], types: &[FieldType]) -> bool
    ensures { result ≡ list_any (is_text_column types.now) columns.now }
{
    columns.iter().any(|column| is_text_column(types, *column))
}

fn is_text_column(types: &[FieldType], column: usize) -> bool
    ensures { result ≡ is_text_column types.now column }
{
    match types.get(column) {
        Some(field_type) => *field_type == FieldType::Bytes,
        None => false,
    }
}
