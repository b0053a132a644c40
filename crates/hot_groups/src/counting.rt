//! How many members a group has: a number that is written, or one that a parameter is bound to.
ghost use Rattle.std.specs.Prelude.{◌≡◌, ◌||◌, IfOk, option_map, option_and_then, codes};
ghost use Rattle.heat_value.specs.Data.{lookup};
ghost use Rattle.heat_value.specs.Meaning.{data_of, nodes_of, members_of};
ghost use Rattle.eval_words.specs.Sorts.{parts as the_parts};
ghost use Rattle.hot_groups.specs.Groups.{count_of as the_count_of, count_there as the_count_there};
ghost use Rattle.hot_groups.specs.Groups.{counted as the_counted, count_by as the_count_by};
ghost use Rattle.hot_groups.specs.Groups.{within_count as the_within_count, as_count as the_as_count};
ghost use Rattle.hot_groups.specs.Groups.{bound_by as the_bound_by, bound_at as the_bound_at};
ghost use Rattle.hot_groups.specs.Groups.{has_function as the_has_function, is_function as the_is_function};
ghost use Rattle.hot_groups.specs.Groups.{has_function_among as the_has_function_among};
ghost use Rattle.hot_groups.specs.Groups.{has_function_under as the_has_function_under};
ghost use Rattle.hot_functions.specs.Forms.{lone as the_lone};

use crate::paths::walked;
use heat_value::{Member, Props, Value};
use hot_forms::found;
use hot_functions::{form_of, lone};
use std::alloc::{AllocError, Global};

/// How many members a group with these properties has, where its count is one.
pub(crate) fn count_of(alloc: Global, bound: &Props, props: &Props) -> Result<usize, AllocError>
    ensures { IfOk result (λ n. n ≡ the_count_of bound.now props.now) }
{
    match count_there(alloc, bound, found(alloc, props, "count")?)? {
        Some(count) => Ok(count),
        None => Ok(0),
    }
}

// The count that stands there; 1 where none is written.
fn count_there(
    alloc: Global,
    bound: &Props,
    value: Option<&Value>,
) -> Result<Option<usize>, AllocError>
    ensures { IfOk result (λ o. o
        ≡ the_count_there bound.now (option_map (λ v. data_of v.now) value.entry)) }
{
    match value {
        Some(value) => counted(alloc, bound, value),
        None => Ok(Some(1)),
    }
}

/// The count that a value is, or that the parameter is bound to which it reads.
pub(crate) fn counted(
    alloc: Global,
    bound: &Props,
    value: &Value,
) -> Result<Option<usize>, AllocError>
    ensures { IfOk result (λ o. o ≡ the_counted bound.now (data_of value.now)) }
{
    match value {
        Value::Whole(whole) => Ok(within_count(*whole)),
        Value::Fields(fields) => match lone(fields.as_slice()) {
            Some(member) => count_by(alloc, bound, member),
            None => Ok(None),
        },
        Value::Null | Value::Flag(_) | Value::Words(_) | Value::Items(_) => Ok(None),
    }
}

// A count is 0 to 1,000.
fn within_count(whole: i64) -> Option<usize>
    ensures { result ≡ the_within_count whole }
{
    match usize::try_from(whole) {
        Ok(count) => if count <= 1000 { Some(count) } else { None },
        Err(_) => None,
    }
}

// The count that a get_param gives.
fn count_by(alloc: Global, bound: &Props, member: &Member) -> Result<Option<usize>, AllocError>
    ensures { IfOk result (λ o. o
        ≡ the_count_by bound.now (member.now.key, data_of member.now.value)) }
{
    if member.key.as_str() != "get_param" {
        return Ok(None);
    }
    Ok(as_count(bound_in(alloc, bound, &member.value)?))
}

// The count that a bound value is.
fn as_count(value: Option<&Value>) -> Option<usize>
    ensures { result ≡ option_and_then the_as_count (option_map (λ v. data_of v.now) value.entry) }
{
    match value {
        Some(Value::Whole(whole)) => within_count(*whole),
        Some(Value::Null | Value::Flag(_) | Value::Words(_)) => None,
        Some(Value::Items(_) | Value::Fields(_)) | None => None,
    }
}

// What get_param's argument reads: a name, or a list of a name and a path.
fn bound_in<'a>(
    alloc: Global,
    bound: &'a Props,
    argument: &Value,
) -> Result<Option<&'a Value>, AllocError>
    ensures { IfOk result (λ o. option_map (λ v. data_of v.now) o
        ≡ the_bound_by bound.now (the_parts (data_of argument.now))) }
{
    match argument {
        Value::Words(_) => bound_at(alloc, bound, argument, &[]),
        Value::Items(items) => bound_by(alloc, bound, items.as_slice()),
        Value::Null | Value::Flag(_) | Value::Whole(_) | Value::Fields(_) => Ok(None),
    }
}

// The same of a list's values.
fn bound_by<'a>(
    alloc: Global,
    bound: &'a Props,
    parts: &[Value],
) -> Result<Option<&'a Value>, AllocError>
    ensures { IfOk result (λ o. option_map (λ v. data_of v.now) o
        ≡ the_bound_by bound.now (nodes_of parts.now)) }
{
    match parts {
        [] => Ok(None),
        [name, path @ ..] => bound_at(alloc, bound, name, path),
    }
}

// What a parameter is bound to, at a path in which no function stands.
fn bound_at<'a>(
    alloc: Global,
    bound: &'a Props,
    name: &Value,
    path: &[Value],
) -> Result<Option<&'a Value>, AllocError>
    ensures { IfOk result (λ o. option_map (λ v. data_of v.now) o
        ≡ the_bound_at bound.now (data_of name.now) (nodes_of path.now)) }
{
    if has_function_among(path) {
        return Ok(None);
    }
    match name {
        Value::Words(name) => match bound.get(name) {
            Some(value) => walked(alloc, value, path),
            None => Ok(None),
        },
        Value::Null | Value::Flag(_) | Value::Whole(_) | Value::Items(_) | Value::Fields(_) => {
            Ok(None)
        }
    }
}

// Whether a function stands somewhere in a value.
#[cycle(functions)]
fn has_function(value: &Value) -> bool
    ensures { result ≡ the_has_function (data_of value.now) }
{
    match value {
        Value::Items(items) => has_function_among(items.as_slice()),
        Value::Fields(fields) => {
            let members = fields.as_slice();
            is_function(members) || has_function_under(members)
        }
        Value::Null | Value::Flag(_) | Value::Whole(_) | Value::Words(_) => false,
    }
}

// Whether one stands in a list.
#[cycle(functions)]
#[tactic(auto, using(crate::proofs::Weights::for_walks))]
fn has_function_among(values: &[Value]) -> bool
    ensures { result ≡ the_has_function_among (nodes_of values.now) }
{
    for value in values {
        if has_function(value) {
            return true;
        }
    }
    false
}

// Whether one stands under an object's keys.
#[cycle(functions)]
#[tactic(auto, using(crate::proofs::Weights::for_walks))]
fn has_function_under(members: &[Member]) -> bool
    ensures { result ≡ the_has_function_under (members_of members.now) }
{
    for member in members {
        if has_function(&member.value) {
            return true;
        }
    }
    false
}

// Whether an object is a function.
fn is_function(members: &[Member]) -> bool
    ensures { result ≡ the_is_function (the_lone (members_of members.now)) }
{
    match lone(members) {
        Some(member) => form_of(member.key.as_str()).is_some(),
        None => false,
    }
}
