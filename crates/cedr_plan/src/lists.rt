ghost use Rattle.std.specs.Prelude.{◌≡◌, IfOk, map, option_and_then};
ghost use Rattle.std.specs.List.{filter_map};
ghost use Rattle.serde_json.specs.Find.{get};
ghost use Rattle.serde_json.specs.View.{view};
ghost use Rattle.cedr_plan.specs.Json.{as_whole};
ghost use Rattle.cedr_plan.specs.Nodes.{as_type, text_at, number_at, truth_at, columns_at, tests_at, types_at};
ghost use Rattle.cedr_plan.specs.Tests.{test_of};

use crate::form::as_type;
use crate::json::values_at;
use crate::test::read_test;
use cedr_base::{FieldType, OutOfMemory};
use cedr_expr::Test;
use serde_json::Value;
use std::alloc::Global;

/// The text of the member, and the empty one where it is no text.
pub(crate) fn text_at<'a>(node: &'a Value, key: &str) -> &'a str
    ensures { result.now ≡ text_at key.now (view node.now) }
{
    node.get(key).and_then(Value::as_str).unwrap_or("")
}

/// The number of the member, and 0 where it isn't whole.
pub(crate) fn number_at(node: &Value, key: &str) -> u64
    ensures { result ≡ number_at key.now (view node.now) }
{
    node.get(key).and_then(Value::as_u64).unwrap_or(0)
}

pub(crate) fn truth_at(node: &Value, key: &str) -> bool
    ensures { result ≡ truth_at key.now (view node.now) }
{
    node.get(key).and_then(Value::as_bool).unwrap_or(false)
}

/// The whole numbers of the array that the member is.
pub(crate) fn columns_at(alloc: Global, node: &Value, key: &str) -> Result<Vec<usize>, OutOfMemory>
    ensures { IfOk result (λ columns. columns.items ≡ columns_at key.now (view node.now)) }
{
    read_columns(alloc, values_at(node, key))
}

fn read_columns(alloc: Global, values: &[Value]) -> Result<Vec<usize>, OutOfMemory>
    ensures { IfOk result (λ columns. columns.items ≡ filter_map as_whole (map view values.now)) }
{
    let mut columns = Vec::new(alloc);
    for value in values {
        if let Some(column) = value.as_u64() {
            columns.push(column as usize)?;
        }
    }
    Ok(columns)
}

/// The tests of the node's `where`.
pub(crate) fn tests_at(alloc: Global, node: &Value) -> Result<Vec<Test>, OutOfMemory>
    ensures { IfOk result (λ tests. tests.items ≡ tests_at (view node.now)) }
{
    read_tests(alloc, values_at(node, "where"))
}

fn read_tests(alloc: Global, values: &[Value]) -> Result<Vec<Test>, OutOfMemory>
    ensures { IfOk result (λ tests. tests.items ≡ filter_map test_of (map view values.now)) }
{
    let mut tests = Vec::new(alloc);
    for value in values {
        if let Some(test) = read_test(alloc, value)? {
            tests.push(test)?;
        }
    }
    Ok(tests)
}

/// The field types of the node's `fields`.
pub(crate) fn types_at(alloc: Global, node: &Value) -> Result<Vec<FieldType>, OutOfMemory>
    ensures { IfOk result (λ types. types.items ≡ types_at (view node.now)) }
{
    read_types(alloc, values_at(node, "fields"))
}

fn read_types(alloc: Global, values: &[Value]) -> Result<Vec<FieldType>, OutOfMemory>
    ensures { IfOk result (λ types. types.items ≡ filter_map as_type (map view values.now)) }
{
    let mut types = Vec::new(alloc);
    for value in values {
        if let Some(field_type) = as_type(value) {
            types.push(field_type)?;
        }
    }
    Ok(types)
}
