//! One output by itself.
ghost use Rattle.std.specs.Prelude.{◌≡◌, IfOk};
ghost use Rattle.heat_value.specs.Meaning.{data_of};
ghost use Rattle.hot_tree.specs.Entries.{without_value as the_without_value, output_parts as the_output_parts};
ghost use Rattle.hot_tree.specs.Entries.{output_described as the_output_described, output_flaw as the_output_flaw};

use crate::condition::with_no_condition;
use heat_value::{Props, Text, Value};
use hot_forms::{Flaw, HotCode, found, misnamed, unknown_key, unless};
use std::alloc::{AllocError, Global};

// The keys of an output, in byte order.
const OUTPUT_KEYS: [&str; 3] = ["condition", "description", "value"];

/// The first of H07, H21 and H23 of an output under its name, seen from its value on.
pub fn output_flaw(alloc: Global, name: &Text, value: &Value) -> Result<Option<Flaw>, AllocError>
    ensures { IfOk result (λ o. o ≡ the_output_flaw name.now (data_of value.now)) }
{
    if let Some(flaw) = misnamed(alloc, name.as_str()) {
        return Ok(Some(flaw));
    }
    described(alloc, value)
}

// H21 and H23.
fn described(alloc: Global, value: &Value) -> Result<Option<Flaw>, AllocError>
    ensures { IfOk result (λ o. o ≡ the_output_described (data_of value.now)) }
{
    match value {
        Value::Fields(fields) => parts_flaw(alloc, fields),
        Value::Null | Value::Flag(_) | Value::Whole(_) | Value::Words(_) | Value::Items(_) => {
            Ok(Some(Flaw::at_root(alloc, HotCode::H21)))
        }
    }
}

// H21 and H23 of an object, in this order.
fn parts_flaw(alloc: Global, fields: &Props) -> Result<Option<Flaw>, AllocError>
    ensures { IfOk result (λ o. o ≡ the_output_parts fields.now) }
{
    if let Some(flaw) = without_value(alloc, fields)? {
        return Ok(Some(flaw));
    }
    if let Some(flaw) = unknown_key(alloc, HotCode::H21, &OUTPUT_KEYS, fields)? {
        return Ok(Some(flaw));
    }
    with_no_condition(alloc, HotCode::H23, fields)
}

// H21 where the value is missing.
fn without_value(alloc: Global, fields: &Props) -> Result<Option<Flaw>, AllocError>
    ensures { IfOk result (λ o. o ≡ the_without_value fields.now) }
{
    let stands = found(alloc, fields, "value")?.is_some();
    Ok(unless(alloc, stands, HotCode::H21))
}
