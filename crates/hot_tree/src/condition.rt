//! Conditions: the entries of `conditions`, and those of resources and outputs.
ghost use Rattle.std.specs.Prelude.{◌≡◌, IfOk, option_map};
ghost use Rattle.heat_value.specs.Meaning.{data_of};
ghost use Rattle.hot_tree.specs.Entries.{uncondition as the_uncondition, condition_flaw as the_condition_flaw};
ghost use Rattle.hot_tree.specs.Entries.{uncondition_in as the_uncondition_in};
ghost use Rattle.hot_tree.specs.Entries.{with_no_condition as the_with_no_condition};

use heat_value::{Props, Text, Value};
use hot_forms::{Flaw, HotCode, found, misnamed, under_name};
use hot_functions::{is_condition, reference_in};
use std::alloc::{AllocError, Global};

/// H07 and H23 of an entry of `conditions`.
pub fn condition_flaw(alloc: Global, name: &Text, value: &Value) -> Result<Option<Flaw>, AllocError>
    ensures { IfOk result (λ o. o ≡ the_condition_flaw name.now (data_of value.now)) }
{
    if let Some(flaw) = misnamed(alloc, name.as_str()) {
        return Ok(Some(flaw));
    }
    uncondition(alloc, HotCode::H23, value)
}

// The code where a value is no condition expression, else H23 where it refers to a resource.
fn uncondition(alloc: Global, code: HotCode, value: &Value) -> Result<Option<Flaw>, AllocError>
    ensures { IfOk result (λ o. o ≡ the_uncondition code (data_of value.now)) }
{
    if !is_condition(value) {
        return Ok(Some(Flaw::at_root(alloc, code)));
    }
    reference_in(alloc, value)
}

/// The same of the `condition` of a resource or output, where there is one.
pub fn with_no_condition(
    alloc: Global,
    code: HotCode,
    fields: &Props,
) -> Result<Option<Flaw>, AllocError>
    ensures { IfOk result (λ o. o ≡ the_with_no_condition code fields.now) }
{
    let value = found(alloc, fields, "condition")?;
    under_name(alloc, "condition", uncondition_in(alloc, code, value)?)
}

// What is no condition in a value, where there is one.
fn uncondition_in(
    alloc: Global,
    code: HotCode,
    value: Option<&Value>,
) -> Result<Option<Flaw>, AllocError>
    ensures { IfOk result (λ o. o
        ≡ the_uncondition_in code (option_map (λ v. data_of v.now) value.entry)) }
{
    match value {
        Some(value) => uncondition(alloc, code, value),
        None => Ok(None),
    }
}
