//! One parameter by itself.
ghost use Rattle.std.specs.Prelude.{◌≡◌, IfOk, option_map};
ghost use Rattle.heat_value.specs.Meaning.{data_of};
ghost use Rattle.hot_forms.specs.Parameters.{untyped as the_untyped, with_no_sort as the_with_no_sort};
ghost use Rattle.hot_forms.specs.Parameters.{with_wrong_words as the_with_wrong_words};
ghost use Rattle.hot_forms.specs.Parameters.{unlisted_constraints as the_unlisted_constraints};
ghost use Rattle.hot_forms.specs.Parameters.{with_no_constraints as the_with_no_constraints, nodes_in};
ghost use Rattle.hot_forms.specs.Parameters.{unsuited as the_unsuited};
ghost use Rattle.hot_forms.specs.Parameters.{with_wrong_constraint as the_with_wrong_constraint};
ghost use Rattle.hot_forms.specs.Parameters.{parts_flaw as the_parts_flaw, described as the_described};
ghost use Rattle.hot_forms.specs.Parameters.{parameter_flaw as the_parameter_flaw};

use crate::check::{under_name, unknown_key, unless};
use crate::constraint::{constraints_flaw, is_constraint_list};
use crate::name::misnamed;
use crate::shape::{found, misshapen};
use crate::sort::sort_in;
use crate::{Flaw, HotCode, Shape, Sort};
use heat_value::{Props, Text, Value};
use std::alloc::{AllocError, Global};

// The keys of a parameter, in byte order.
const PARAMETER_KEYS: [&str; 8] = [
    "constraints",
    "default",
    "description",
    "hidden",
    "immutable",
    "label",
    "tags",
    "type",
];

/// The first of H07 to H12 of a parameter under its name, seen from its value on.
pub fn parameter_flaw(alloc: Global, name: &Text, value: &Value) -> Result<Option<Flaw>, AllocError>
    ensures { IfOk result (λ o. o ≡ the_parameter_flaw name.now (data_of value.now)) }
{
    if let Some(flaw) = misnamed(alloc, name.as_str()) {
        return Ok(Some(flaw));
    }
    described(alloc, value)
}

// H08 to H12.
fn described(alloc: Global, value: &Value) -> Result<Option<Flaw>, AllocError>
    ensures { IfOk result (λ o. o ≡ the_described (data_of value.now)) }
{
    match value {
        Value::Fields(fields) => parts_flaw(alloc, fields),
        Value::Null | Value::Flag(_) | Value::Whole(_) | Value::Words(_) | Value::Items(_) => {
            Ok(Some(Flaw::at_root(alloc, HotCode::H08)))
        }
    }
}

// H08 to H12 of an object, in this order.
fn parts_flaw(alloc: Global, fields: &Props) -> Result<Option<Flaw>, AllocError>
    ensures { IfOk result (λ o. o ≡ the_parts_flaw fields.now) }
{
    if let Some(flaw) = unknown_key(alloc, HotCode::H08, &PARAMETER_KEYS, fields)? {
        return Ok(Some(flaw));
    }
    if let Some(flaw) = with_no_sort(alloc, fields)? {
        return Ok(Some(flaw));
    }
    if let Some(flaw) = with_wrong_words(alloc, fields)? {
        return Ok(Some(flaw));
    }
    if let Some(flaw) = with_no_constraints(alloc, fields)? {
        return Ok(Some(flaw));
    }
    with_wrong_constraint(alloc, fields)
}

// H09.
fn with_no_sort(alloc: Global, fields: &Props) -> Result<Option<Flaw>, AllocError>
    ensures { IfOk result (λ o. o ≡ the_with_no_sort fields.now) }
{
    untyped(alloc, found(alloc, fields, "type")?)
}

// A missing type, or one that is none of the five.
fn untyped(alloc: Global, value: Option<&Value>) -> Result<Option<Flaw>, AllocError>
    ensures { IfOk result (λ o. o ≡ the_untyped (option_map (λ v. data_of v.now) value.entry)) }
{
    if value.is_none() {
        return Ok(Some(Flaw::at_root(alloc, HotCode::H09)));
    }
    let typed = sort_in(value).is_some();
    under_name(alloc, "type", unless(alloc, typed, HotCode::H09))
}

// H10, in byte order of the keys.
fn with_wrong_words(alloc: Global, fields: &Props) -> Result<Option<Flaw>, AllocError>
    ensures { IfOk result (λ o. o ≡ the_with_wrong_words fields.now) }
{
    let code = HotCode::H10;
    if let Some(flaw) = misshapen(alloc, code, "description", Shape::Text, fields)? {
        return Ok(Some(flaw));
    }
    if let Some(flaw) = misshapen(alloc, code, "hidden", Shape::Flag, fields)? {
        return Ok(Some(flaw));
    }
    if let Some(flaw) = misshapen(alloc, code, "immutable", Shape::Flag, fields)? {
        return Ok(Some(flaw));
    }
    if let Some(flaw) = misshapen(alloc, code, "label", Shape::Text, fields)? {
        return Ok(Some(flaw));
    }
    misshapen(alloc, code, "tags", Shape::Texts, fields)
}

// H11.
fn with_no_constraints(alloc: Global, fields: &Props) -> Result<Option<Flaw>, AllocError>
    ensures { IfOk result (λ o. o ≡ the_with_no_constraints fields.now) }
{
    let held = found(alloc, fields, "constraints")?;
    under_name(alloc, "constraints", unlisted_constraints(alloc, held))
}

// A value that stands there and is no list of constraints.
fn unlisted_constraints(alloc: Global, value: Option<&Value>) -> Option<Flaw>
    ensures { result ≡ the_unlisted_constraints (option_map (λ v. data_of v.now) value.entry) }
{
    match value {
        Some(value) => unless(alloc, is_constraint_list(value), HotCode::H11),
        None => None,
    }
}

// H12.
fn with_wrong_constraint(alloc: Global, fields: &Props) -> Result<Option<Flaw>, AllocError>
    ensures { IfOk result (λ o. o ≡ the_with_wrong_constraint fields.now) }
{
    let sort = sort_in(found(alloc, fields, "type")?);
    let listed = found(alloc, fields, "constraints")?;
    under_name(alloc, "constraints", unsuited(alloc, sort, listed)?)
}

// The first constraint that is wrong for the type.
fn unsuited(
    alloc: Global,
    sort: Option<Sort>,
    value: Option<&Value>,
) -> Result<Option<Flaw>, AllocError>
    ensures { IfOk result (λ o. o
        ≡ the_unsuited sort (nodes_in (option_map (λ v. data_of v.now) value.entry))) }
{
    match (sort, value) {
        (Some(sort), Some(Value::Items(items))) => constraints_flaw(alloc, sort, items),
        _ => Ok(None),
    }
}
