ghost use Rattle.std.specs.Prelude.{◌≡◌, map, length, option_map, is_some, is_none, nat_lt, false};
ghost use Rattle.std.specs.List.{list_all, list_any};
ghost use Rattle.std.specs.Option.{option_map_or};
ghost use Rattle.serde_json.specs.View.{view};
ghost use Rattle.cedr_plan.specs.Json.{as_list, as_whole, is_list, is_number, values_of};
ghost use Rattle.cedr_plan.specs.Nodes.{as_type, has_form, is_too_long, is_bad_number};
ghost use Rattle.cedr_plan.specs.Tests.{is_test, is_bad_test};

use crate::json::{as_list, is_whole_within};
use crate::operator::Form;
use crate::test::{is_bad_test, is_test};
use cedr_base::FieldType;
use serde_json::Value;

const GREATEST_NUMBER: u64 = 1 << 40;

const MOST: usize = 16;

/// Whether the value is what a member has to be, before its numbers are looked at.
pub(crate) fn has_form(form: Form, value: &Value) -> bool
    ensures { result ≡ has_form form (view value.now) }
{
    match form {
        Form::Text => value.is_string(),
        Form::Types => are_types(value),
        Form::Tests => are_tests(value),
        Form::Columns | Form::Sums | Form::OptionalColumns => are_numbers(value),
        Form::Truth => value.is_boolean(),
        Form::Number | Form::InputCount => value.is_number(),
    }
}

fn are_types(value: &Value) -> bool
    ensures { result ≡ is_list (λ x. is_some (as_type x)) (view value.now) }
{
    match as_list(value) {
        Some(list) => each_is_type(list),
        None => false,
    }
}

fn are_tests(value: &Value) -> bool
    ensures { result ≡ is_list is_test (view value.now) }
{
    match as_list(value) {
        Some(list) => each_is_test(list),
        None => false,
    }
}

fn are_numbers(value: &Value) -> bool
    ensures { result ≡ is_list is_number (view value.now) }
{
    match as_list(value) {
        Some(list) => each_is_number(list),
        None => false,
    }
}

/// The field type that the value names.
pub(crate) fn as_type(value: &Value) -> Option<FieldType>
    ensures { result ≡ as_type (view value.now) }
{
    match value.as_str() {
        Some("int") => Some(FieldType::Number),
        Some("text") => Some(FieldType::Bytes),
        _ => None,
    }
}

/// Whether the value has over 16 field types or tests.
pub(crate) fn is_too_long(form: Form, value: &Value) -> bool
    ensures { result ≡ is_too_long form (view value.now) }
{
    match form {
        Form::Types | Form::Tests => has_over_sixteen(value),
        Form::Text
        | Form::Columns
        | Form::Sums
        | Form::OptionalColumns
        | Form::Truth
        | Form::Number
        | Form::InputCount => false,
    }
}

fn has_over_sixteen(value: &Value) -> bool
    ensures { result ≡ option_map_or (λ list. nat_lt 16 (length list)) (as_list (view value.now)) false }
{
    match as_list(value) {
        Some(list) => MOST < list.len(),
        None => false,
    }
}

/// Whether a number in the value isn't whole or isn't in its range, at a node that has so many inputs.
pub(crate) fn is_bad_number(inputs: usize, form: Form, value: &Value) -> bool
    ensures { result ≡ is_bad_number inputs form (view value.now) }
{
    match form {
        Form::Tests => has_bad_test(value),
        Form::Columns | Form::Sums | Form::OptionalColumns => has_odd_column(value),
        Form::Number => !is_whole_within(1, GREATEST_NUMBER, value),
        Form::InputCount => !is_whole_within(1, inputs as u64, value),
        Form::Text | Form::Types | Form::Truth => false,
    }
}

fn has_bad_test(value: &Value) -> bool
    ensures { result ≡ option_map_or (list_any is_bad_test) (as_list (view value.now)) false }
{
    match as_list(value) {
        Some(list) => some_is_bad_test(list),
        None => false,
    }
}

fn has_odd_column(value: &Value) -> bool
    ensures { result ≡ option_map_or (list_any (λ column. is_none (as_whole column))) (as_list (view value.now)) false }
{
    match as_list(value) {
        Some(list) => some_is_odd_column(list),
        None => false,
    }
}

fn each_is_type(values: &[Value]) -> bool
    ensures { result ≡ list_all (λ value. is_some (as_type (view value))) values.now }
{
    values.iter().all(|item| as_type(item).is_some())
}

fn each_is_test(values: &[Value]) -> bool
    ensures { result ≡ list_all (λ value. is_test (view value)) values.now }
{
    values.iter().all(|item| is_test(item))
}

fn each_is_number(values: &[Value]) -> bool
    ensures { result ≡ list_all (λ value. is_number (view value)) values.now }
{
    values.iter().all(|item| item.is_number())
}

fn some_is_bad_test(values: &[Value]) -> bool
    ensures { result ≡ list_any (λ value. is_bad_test (view value)) values.now }
{
    values.iter().any(|item| is_bad_test(item))
}

fn some_is_odd_column(values: &[Value]) -> bool
    ensures { result ≡ list_any (λ value. is_none (as_whole (view value))) values.now }
{
    values.iter().any(|item| item.as_u64().is_none())
}
