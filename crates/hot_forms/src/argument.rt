//! The arguments of constraints.
ghost use Rattle.std.specs.Prelude.{◌≡◌, ◌∷◌, [], ◌&&◌, codes};
ghost use Rattle.heat_value.specs.Meaning.{data_of, members_of};
ghost use Rattle.hot_forms.specs.Constraints.{is_whole as the_is_whole, is_count as the_is_count};
ghost use Rattle.hot_forms.specs.Constraints.{is_empty as the_is_empty, are_bounds as the_are_bounds};
ghost use Rattle.hot_forms.specs.Constraints.{are_counts as the_are_counts, is_range as the_is_range};
ghost use Rattle.hot_forms.specs.Constraints.{is_step as the_is_step, is_modulo as the_is_modulo};
ghost use Rattle.hot_forms.specs.Constraints.{is_argument as the_is_argument};
ghost use Rattle.hot_forms.specs.Checks.{is_among as the_is_among};
ghost use Rattle.hot_forms.specs.Shapes.{members_in};

use crate::Rule;
use crate::check::is_among;
use crate::shape::{is_list, is_text};
use heat_value::{Member, Props, Value};

/// Whether a value is of the form of a constraint's argument.
pub fn is_argument(rule: Rule, value: &Value) -> bool
    ensures { result ≡ the_is_argument rule (data_of value.now) }
{
    match rule {
        Rule::Length => is_range(value) && counts(value),
        Rule::Range => is_range(value),
        Rule::Modulo => is_modulo(value),
        Rule::Values => is_list(value),
        Rule::Pattern | Rule::Custom => is_text(value),
    }
}

// Whether a value is an object of `min`, `max`, at least one, any whole numbers.
fn is_range(value: &Value) -> bool
    ensures { result ≡ the_is_range (data_of value.now) }
{
    match value {
        Value::Fields(bounds) => !is_empty(bounds.as_slice()) && are_bounds(bounds),
        Value::Null | Value::Flag(_) | Value::Whole(_) | Value::Words(_) | Value::Items(_) => false,
    }
}

// Whether there is no bound.
fn is_empty(bounds: &[Member]) -> bool
    ensures { result ≡ the_is_empty (members_of bounds.now) }
{
    match bounds {
        [] => true,
        _ => false,
    }
}

// Whether each key is `min` or `max`, with a whole number.
fn are_bounds(bounds: &Props) -> bool
    ensures { result ≡ the_are_bounds bounds.now }
{
    for bound in bounds.as_slice() {
        if !is_bound(bound) {
            return false;
        }
    }
    true
}

// Whether it is `max` or `min`, with a whole number.
fn is_bound(bound: &Member) -> bool
    ensures { result ≡ (the_is_among (codes "max" ∷ codes "min" ∷ []) bound.now.key
        && the_is_whole (data_of bound.now.value)) }
{
    is_among(&["max", "min"], bound.key.as_str()) && is_whole(&bound.value)
}

// Whether a value is a whole number.
fn is_whole(value: &Value) -> bool
    ensures { result ≡ the_is_whole (data_of value.now) }
{
    matches!(value, Value::Whole(_))
}

// Whether each part of an object is 0 or more.
fn counts(value: &Value) -> bool
    ensures { result ≡ the_are_counts (members_in (data_of value.now)) }
{
    match value {
        Value::Fields(bounds) => are_counts(bounds),
        Value::Null | Value::Flag(_) | Value::Whole(_) | Value::Words(_) | Value::Items(_) => true,
    }
}

// Whether every bound is a whole number, 0 or more.
fn are_counts(bounds: &Props) -> bool
    ensures { result ≡ the_are_counts bounds.now }
{
    for bound in bounds.as_slice() {
        if !is_count(&bound.value) {
            return false;
        }
    }
    true
}

// Whether a value is a whole number, 0 or more.
fn is_count(value: &Value) -> bool
    ensures { result ≡ the_is_count (data_of value.now) }
{
    match value {
        Value::Whole(number) => 0 <= *number,
        Value::Null | Value::Flag(_) | Value::Words(_) | Value::Items(_) | Value::Fields(_) => {
            false
        }
    }
}

// Whether a value is an object of just `offset` and `step`, which fit each other.
fn is_modulo(value: &Value) -> bool
    ensures { result ≡ the_is_modulo (members_in (data_of value.now)) }
{
    match value {
        Value::Fields(parts) => is_offset_and_step(parts.as_slice()),
        Value::Null | Value::Flag(_) | Value::Whole(_) | Value::Words(_) | Value::Items(_) => false,
    }
}

// Whether these are an offset and a step that it suits.
fn is_offset_and_step(parts: &[Member]) -> bool
    ensures { result ≡ the_is_modulo (members_of parts.now) }
{
    match parts {
        [offset, step] => {
            offset.key.as_str() == "offset"
                && step.key.as_str() == "step"
                && is_step(&offset.value, &step.value)
        }
        _ => false,
    }
}

// Whether the step is at least 1, and the offset from 0 to step - 1.
fn is_step(offset: &Value, step: &Value) -> bool
    ensures { result ≡ the_is_step (data_of offset.now) (data_of step.now) }
{
    match (offset, step) {
        (Value::Whole(offset), Value::Whole(step)) => 1 <= *step && 0 <= *offset && *offset < *step,
        _ => false,
    }
}
