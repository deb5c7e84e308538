ghost use Rattle.std.specs.Prelude.{◌≡◌, IfOk, option_map};
ghost use Rattle.serde_json.specs.View.{view};
ghost use Rattle.serde_json.specs.Find.{as_str};
ghost use Rattle.cedr_expr.specs.declared.test.Operand.TheVariants.{Bytes};
ghost use Rattle.cedr_plan.specs.Tests.{op_of, as_op, is_side, is_bad_side, side_of, is_test, is_bad_test, test_of};

use crate::json::as_list;
use cedr_base::{OutOfMemory, Text};
use cedr_expr::{Op, Operand, Test};
use serde_json::Value;
use std::alloc::Global;

/// Whether the value has a test's form: an array of a column, a comparison and a right side.
pub(crate) fn is_test(value: &Value) -> bool
    ensures { result ≡ is_test (view value.now) }
{
    match as_list(value) {
        Some([left, op, right]) => left.is_number() && as_op(op).is_some() && is_side(right),
        _ => false,
    }
}

/// Whether a number in the test isn't one that it may be.
pub(crate) fn is_bad_test(value: &Value) -> bool
    ensures { result ≡ is_bad_test (view value.now) }
{
    match as_list(value) {
        Some([left, _, right]) => left.as_u64().is_none() || is_bad_side(right),
        _ => false,
    }
}

/// The test that the value is, if it is one.
pub(crate) fn read_test(alloc: Global, value: &Value) -> Result<Option<Test>, OutOfMemory>
    ensures { IfOk result (λ test. test ≡ test_of (view value.now)) }
{
    let Some([left, op, right]) = as_list(value) else {
        return Ok(None);
    };
    let Some(left) = left.as_u64() else {
        return Ok(None);
    };
    let Some(op) = as_op(op) else {
        return Ok(None);
    };
    match read_side(alloc, right)? {
        Some(right) => Ok(Some(Test {
            left: left as usize,
            op,
            right,
        })),
        None => Ok(None),
    }
}

fn as_op(value: &Value) -> Option<Op>
    ensures { result ≡ as_op (view value.now) }
{
    match value.as_str() {
        Some(word) => op_of(word),
        None => None,
    }
}

fn op_of(word: &str) -> Option<Op>
    ensures { result ≡ op_of word.now }
{
    match word {
        "=" => Some(Op::Eq),
        "!=" => Some(Op::Ne),
        "<" => Some(Op::Lt),
        "<=" => Some(Op::Le),
        ">" => Some(Op::Gt),
        ">=" => Some(Op::Ge),
        _ => None,
    }
}

/// Whether the first of the members of a right side that is there has its kind.
fn is_side(value: &Value) -> bool
    ensures { result ≡ is_side (view value.now) }
{
    if let Some(column) = value.get("column") {
        return column.is_number();
    }
    if let Some(number) = value.get("int") {
        return number.is_number();
    }
    match value.get("text") {
        Some(text) => text.is_string(),
        None => false,
    }
}

fn is_bad_side(value: &Value) -> bool
    ensures { result ≡ is_bad_side (view value.now) }
{
    if let Some(column) = value.get("column") {
        return column.as_u64().is_none();
    }
    match value.get("int") {
        Some(number) => number.as_i64().is_none(),
        None => false,
    }
}

fn read_side(alloc: Global, value: &Value) -> Result<Option<Operand>, OutOfMemory>
    ensures { IfOk result (λ side. side ≡ side_of (view value.now)) }
{
    if let Some(column) = value.get("column") {
        return Ok(column.as_u64().map(|place| Operand::Column(place as usize)));
    }
    if let Some(number) = value.get("int") {
        return Ok(number.as_i64().map(|number| Operand::Number(number)));
    }
    match value.get("text") {
        Some(text) => read_text(alloc, text),
        None => Ok(None),
    }
}

fn read_text(alloc: Global, value: &Value) -> Result<Option<Operand>, OutOfMemory>
    ensures { IfOk result (λ side. side ≡ option_map Bytes (as_str (view value.now))) }
{
    match value.as_str() {
        Some(text) => Ok(Some(Operand::Bytes(Text::from_slice(alloc, text.as_bytes())?))),
        None => Ok(None),
    }
}
