//! H22 and H24 of one resource and one output.
ghost use Rattle.std.specs.Prelude.{◌≡◌, IfOk, option_map};
ghost use Rattle.heat_value.specs.Meaning.{data_of};
ghost use Rattle.hot_tree.specs.Functions.{value_there as the_value_there, value_under as the_value_under};
ghost use Rattle.hot_tree.specs.Functions.{members_there, property_functions as the_property_functions};
ghost use Rattle.hot_tree.specs.Functions.{resource_functions as the_resource_functions};
ghost use Rattle.hot_tree.specs.Functions.{output_functions as the_output_functions};
ghost use Rattle.hot_functions.specs.Walk.{members_flaw as the_members_flaw};

use heat_value::{Props, Value};
use hot_forms::{Flaw, found, under_name};
use hot_functions::{Place, members_flaw, value_flaw};
use std::alloc::{AllocError, Global};

/// A resource's `condition`, then its properties; the resource seen from its value on.
pub fn resource_functions(
    alloc: Global,
    params: &Props,
    conds: &Props,
    value: &Value,
) -> Result<Option<Flaw>, AllocError>
    ensures { IfOk result (λ o. o
        ≡ the_resource_functions params.now conds.now (data_of value.now)) }
{
    let Value::Fields(fields) = value else {
        return Ok(None);
    };
    let place = Place::Condition;
    if let Some(flaw) = value_under(alloc, params, conds, place, "condition", fields)? {
        return Ok(Some(flaw));
    }
    property_functions(alloc, params, conds, fields)
}

/// An output's `condition`, then its value; the output seen from its value on.
pub fn output_functions(
    alloc: Global,
    params: &Props,
    conds: &Props,
    value: &Value,
) -> Result<Option<Flaw>, AllocError>
    ensures { IfOk result (λ o. o
        ≡ the_output_functions params.now conds.now (data_of value.now)) }
{
    let Value::Fields(fields) = value else {
        return Ok(None);
    };
    let place = Place::Condition;
    if let Some(flaw) = value_under(alloc, params, conds, place, "condition", fields)? {
        return Ok(Some(flaw));
    }
    value_under(alloc, params, conds, Place::Open, "value", fields)
}

// What stands under a key, read so.
fn value_under(
    alloc: Global,
    params: &Props,
    conds: &Props,
    place: Place,
    key: &str,
    fields: &Props,
) -> Result<Option<Flaw>, AllocError>
    ensures { IfOk result (λ o. o
        ≡ the_value_under params.now conds.now place key.now fields.now) }
{
    let value = found(alloc, fields, key)?;
    under_name(alloc, key, value_there(alloc, params, conds, place, value)?)
}

// What is wrong with the functions in a value, where there is one.
fn value_there(
    alloc: Global,
    params: &Props,
    conds: &Props,
    place: Place,
    value: Option<&Value>,
) -> Result<Option<Flaw>, AllocError>
    ensures { IfOk result (λ o. o ≡ the_value_there params.now conds.now place
        (option_map (λ v. data_of v.now) value.entry)) }
{
    match value {
        Some(value) => value_flaw(alloc, params, conds, place, value),
        None => Ok(None),
    }
}

// The property map itself is never a function.
fn property_functions(
    alloc: Global,
    params: &Props,
    conds: &Props,
    fields: &Props,
) -> Result<Option<Flaw>, AllocError>
    ensures { IfOk result (λ o. o ≡ the_property_functions params.now conds.now fields.now) }
{
    let value = found(alloc, fields, "properties")?;
    under_name(
        alloc,
        "properties",
        members_of_value(alloc, params, conds, value)?,
    )
}

// What is wrong with the functions in an object's values; nothing elsewhere.
fn members_of_value(
    alloc: Global,
    params: &Props,
    conds: &Props,
    value: Option<&Value>,
) -> Result<Option<Flaw>, AllocError>
    ensures { IfOk result (λ o. o ≡ the_members_flaw params.now conds.now Place.Open
        (members_there (option_map (λ v. data_of v.now) value.entry))) }
{
    match value {
        Some(Value::Fields(fields)) => {
            members_flaw(alloc, params, conds, Place::Open, fields.as_slice())
        }
        Some(Value::Null | Value::Flag(_) | Value::Whole(_)) => Ok(None),
        Some(Value::Words(_) | Value::Items(_)) | None => Ok(None),
    }
}
