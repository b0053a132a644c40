//! What stands at a path in a value.
ghost use Rattle.std.specs.Prelude.{◌≡◌, IfOk, MatchOption, Some, None, option_map};
ghost use Rattle.heat_value.specs.Meaning.{data_of, nodes_of};
ghost use Rattle.eval_words.specs.Lookups.{walked as the_walked, step_into as the_step_into};
ghost use Rattle.eval_words.specs.Lookups.{step_into_list as the_step_into_list, place_in as the_place_in};

use heat_value::{Value, text_of};
use std::alloc::{AllocError, Global};

/// What stands at a path.
pub(crate) fn walked<'a>(
    alloc: Global,
    value: &'a Value,
    path: &[Value],
) -> Result<Option<&'a Value>, AllocError>
    ensures { IfOk result (λ o. option_map (λ v. data_of v.now) o
        ≡ the_walked (nodes_of path.now) (data_of value.now)) }
{
    let mut at = value;
    for step in path {
        match step_into(alloc, at, step)? {
            Some(inner) => at = inner,
            None => return Ok(None),
        }
    }
    Ok(Some(at))
}

// An object is walked by the text of a key, a list by a whole number.
fn step_into<'a>(
    alloc: Global,
    value: &'a Value,
    step: &Value,
) -> Result<Option<&'a Value>, AllocError>
    ensures { IfOk result (λ o. option_map (λ v. data_of v.now) o
        ≡ the_step_into (data_of value.now) (data_of step.now)) }
{
    match value {
        Value::Fields(fields) => Ok(fields.get(&text_of(alloc, step)?)),
        Value::Items(items) => Ok(step_into_list(items.as_slice(), step)),
        Value::Null | Value::Flag(_) | Value::Whole(_) | Value::Words(_) => Ok(None),
    }
}

/// The item of a list at the place that a step tells.
pub(crate) fn step_into_list<'a>(values: &'a [Value], step: &Value) -> Option<&'a Value>
    ensures { option_map (λ v. data_of v.now) result
        ≡ the_step_into_list (nodes_of values.now) (data_of step.now) }
{
    match place_in(step) {
        Some(at) => values.get(at),
        None => None,
    }
}

// The place that a step names.
fn place_in(step: &Value) -> Option<usize>
    ensures { MatchOption result (the_place_in (data_of step.now) ≡ None)
        (λ at. the_place_in (data_of step.now) ≡ Some at) }
{
    match step {
        Value::Whole(whole) => usize::try_from(*whole).ok(),
        _ => None,
    }
}
