//! Allowed values.
ghost use Rattle.std.specs.Prelude.{◌≢◌, ◌↔◌, IfOk, IsTrue, Some};
ghost use Rattle.heat_value.specs.Meaning.{data_of};
ghost use Rattle.hot_forms.specs.Parameters.{nodes_in};
ghost use Rattle.hot_forms.specs.declared.sort.Sort.TheVariants as sort_of;
ghost use Rattle.hot_params.specs.Conversions.{ConvertsTo};
ghost use Rattle.hot_params.specs.Rules.{IsAmong, AreAmong, IsAllowed};

use crate::conversion::converted;
use crate::strings::{is_one_of, sorted_strings};
use heat_value::{Equals, Items, Value};
use hot_forms::Sort;
use std::alloc::{AllocError, Global};

/// Whether a value equals a member as the type; of a list each item, as a string.
pub fn is_allowed(
    alloc: Global,
    sort: Option<Sort>,
    allowed: &Items,
    value: &Value,
) -> Result<bool, AllocError>
    ensures { IfOk result (λ b. IsTrue b ↔ IsAllowed sort allowed.now (data_of value.now)) }
{
    match sort {
        Some(Sort::Words) => is_among(alloc, Sort::Words, allowed, value),
        Some(Sort::Number) => is_among(alloc, Sort::Number, allowed, value),
        Some(Sort::Flag) => is_among(alloc, Sort::Flag, allowed, value),
        Some(Sort::List) => items_are_among(alloc, allowed, value),
        Some(Sort::Json) | None => Ok(false),
    }
}

// Whether each item of a list is among them, as a string.
fn items_are_among(alloc: Global, allowed: &Items, value: &Value) -> Result<bool, AllocError>
    ensures { IfOk result (λ b. IsTrue b
        ↔ AreAmong allowed.now (nodes_in (Some (data_of value.now)))) }
{
    match value {
        Value::Items(items) => are_among(alloc, allowed, items),
        Value::Null | Value::Flag(_) | Value::Whole(_) | Value::Words(_) | Value::Fields(_) => {
            Ok(true)
        }
    }
}

// Whether every item is allowed, as a text. The members are converted and sorted once.
fn are_among(alloc: Global, allowed: &Items, items: &Items) -> Result<bool, AllocError>
    ensures { IfOk result (λ b. IsTrue b ↔ AreAmong allowed.now items.now) }
{
    let strings = sorted_strings(alloc, allowed)?;
    for value in items.as_slice() {
        if !is_one_of(strings.as_slice(), value) {
            return Ok(false);
        }
    }
    Ok(true)
}

// Whether a member of the list converts to the value.
fn is_among(alloc: Global, sort: Sort, allowed: &Items, value: &Value) -> Result<bool, AllocError>
    requires { sort ≢ sort_of.Json }
    ensures { IfOk result (λ b. IsTrue b ↔ IsAmong sort allowed.now (data_of value.now)) }
{
    for member in allowed.as_slice() {
        if is_member(alloc, sort, member, value)? {
            return Ok(true);
        }
    }
    Ok(false)
}

// Whether a member converts to the value.
fn is_member(alloc: Global, sort: Sort, member: &Value, value: &Value) -> Result<bool, AllocError>
    requires { sort ≢ sort_of.Json }
    ensures { IfOk result (λ b. IsTrue b
        ↔ ConvertsTo (Some sort) (data_of member.now) (data_of value.now)) }
{
    match converted(alloc, Some(sort), member)? {
        Some(found) => Ok(found.equals(value)),
        None => Ok(false),
    }
}
