ghost use Rattle.std.specs.Prelude.{◌≡◌, ◌||◌};
ghost use Rattle.serde_json.specs.View.{view};
ghost use Rattle.cedr_plan.specs.Levels.{is_bound, is_level, is_bad_bound, has_bad_bound, is_unknown_level, bound_at, level_of, has_block_over_memory};
ghost use Rattle.cedr_plan.specs.Json.{has};

use crate::json::{is_whole_within, is_word};
use cedr_base::Level;
use serde_json::Value;

const GREATEST_BOUND: u64 = 1 << 40;

const STRONG: Level = Level {
    block: None,
    memory: None,
};

/// The level of a port where none is given.
pub(crate) const MIDDLE: Level = Level {
    block: Some(0),
    memory: None,
};

/// Whether the value has a level's form: a text, or an object with both bounds.
pub(crate) fn is_level(value: &Value) -> bool
    ensures { result ≡ is_level (view value.now) }
{
    value.is_string() || has_bound(value, "block") && has_bound(value, "memory")
}

fn has_bound(value: &Value, key: &str) -> bool
    ensures { result ≡ has key.now is_bound (view value.now) }
{
    match value.get(key) {
        Some(bound) => bound.is_number() || is_word("inf", bound),
        None => false,
    }
}

/// Whether a bound of the level is a number that isn't whole or isn't in its range.
pub(crate) fn has_bad_bound(value: &Value) -> bool
    ensures { result ≡ has_bad_bound (view value.now) }
{
    has_bad_bound_at(value, "block") || has_bad_bound_at(value, "memory")
}

fn has_bad_bound_at(value: &Value, key: &str) -> bool
    ensures { result ≡ has key.now is_bad_bound (view value.now) }
{
    match value.get(key) {
        Some(bound) => bound.is_number() && !is_whole_within(0, GREATEST_BOUND, bound),
        None => false,
    }
}

/// Whether the value is no level's name, or a block over its memory.
pub(crate) fn is_bad_level(value: &Value) -> bool
    ensures { result ≡ is_unknown_level (view value.now) || has_block_over_memory (level_of (view value.now)) }
{
    is_unknown_level(value) || has_block_over_memory(level_of(value))
}

fn is_unknown_level(value: &Value) -> bool
    ensures { result ≡ is_unknown_level (view value.now) }
{
    value.is_string() && !(is_word("strong", value) || is_word("middle", value))
}

/// A block without limit is over each memory that has one.
fn has_block_over_memory(level: Level) -> bool
    ensures { result ≡ has_block_over_memory level }
{
    match (level.block, level.memory) {
        (_, None) => false,
        (None, Some(_)) => true,
        (Some(block), Some(memory)) => memory < block,
    }
}

/// The level that the value is.
pub(crate) fn level_of(value: &Value) -> Level
    ensures { result ≡ level_of (view value.now) }
{
    if !value.is_string() {
        return Level {
            block: bound_at(value, "block"),
            memory: bound_at(value, "memory"),
        };
    }
    if is_word("strong", value) {
        STRONG
    } else {
        MIDDLE
    }
}

fn bound_at(value: &Value, key: &str) -> Option<u64>
    ensures { result ≡ bound_at key.now (view value.now) }
{
    value.get(key).and_then(Value::as_u64)
}
