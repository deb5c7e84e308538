ghost use Rattle.std.specs.Prelude.{◌≡◌, option_map, map};
ghost use Rattle.serde_json.specs.View.{view};
ghost use Rattle.cedr_plan.specs.Json.{as_list, is_word, is_whole_within, values_of};
ghost use Rattle.serde_json.specs.Find.{get};

use serde_json::Value;

/// The values of an array.
pub(crate) fn as_list(value: &Value) -> Option<&[Value]>
    ensures { option_map (λ list. map view list.now) result ≡ as_list (view value.now) }
{
    match value.as_array() {
        Some(list) => Some(list.as_slice()),
        None => None,
    }
}

/// Whether the value is this text.
pub(crate) fn is_word(word: &str, value: &Value) -> bool
    ensures { result ≡ is_word word.now (view value.now) }
{
    match value.as_str() {
        Some(text) => word == text,
        None => false,
    }
}

/// Whether the value is a whole number from the least to the greatest.
pub(crate) fn is_whole_within(least: u64, most: u64, value: &Value) -> bool
    ensures { result ≡ is_whole_within least most (view value.now) }
{
    match value.as_u64() {
        Some(number) => least <= number && number <= most,
        None => false,
    }
}

/// The values of the array that the member is, and none where it is no array.
pub(crate) fn values_at<'a>(node: &'a Value, key: &str) -> &'a [Value]
    ensures { map view result.now ≡ values_of (get key.now (view node.now)) }
{
    match node.get(key).and_then(as_list) {
        Some(values) => values,
        None => &[],
    }
}
