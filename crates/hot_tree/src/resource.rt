//! One resource by itself.
ghost use Rattle.std.specs.Prelude.{◌≡◌, IfOk, option_map};
ghost use Rattle.heat_value.specs.Meaning.{data_of};
ghost use Rattle.hot_tree.specs.Entries.{untyped as the_untyped, with_no_type as the_with_no_type};
ghost use Rattle.hot_tree.specs.Entries.{is_policy as the_is_policy, unlisted as the_unlisted};
ghost use Rattle.hot_tree.specs.Entries.{with_no_policy as the_with_no_policy};
ghost use Rattle.hot_tree.specs.Entries.{resource_parts as the_resource_parts};
ghost use Rattle.hot_tree.specs.Entries.{resource_described as the_resource_described};
ghost use Rattle.hot_tree.specs.Entries.{resource_flaw as the_resource_flaw};

use crate::condition::with_no_condition;
use heat_value::{Props, Text, Value};
use hot_forms::{
    Flaw, HotCode, Shape, found, is_among, is_text, misnamed, misshapen, under_name, unknown_key,
    unless,
};
use std::alloc::{AllocError, Global};

// The keys of a resource, in byte order.
const RESOURCE_KEYS: [&str; 8] = [
    "condition",
    "deletion_policy",
    "depends_on",
    "external_id",
    "metadata",
    "properties",
    "type",
    "update_policy",
];

// The policies, as spelled in the language and in lower case.
const POLICIES: [&str; 6] = [
    "Delete", "delete", "Retain", "retain", "Snapshot", "snapshot",
];

/// The first of H07, H13 to H20 and H23 of a resource under its name, seen from its value on.
pub fn resource_flaw(alloc: Global, name: &Text, value: &Value) -> Result<Option<Flaw>, AllocError>
    ensures { IfOk result (λ o. o ≡ the_resource_flaw name.now (data_of value.now)) }
{
    if let Some(flaw) = misnamed(alloc, name.as_str()) {
        return Ok(Some(flaw));
    }
    described(alloc, value)
}

// H13 to H20 and H23.
fn described(alloc: Global, value: &Value) -> Result<Option<Flaw>, AllocError>
    ensures { IfOk result (λ o. o ≡ the_resource_described (data_of value.now)) }
{
    match value {
        Value::Fields(fields) => parts_flaw(alloc, fields),
        Value::Null | Value::Flag(_) | Value::Whole(_) | Value::Words(_) | Value::Items(_) => {
            Ok(Some(Flaw::at_root(alloc, HotCode::H13)))
        }
    }
}

// H13 to H20 and H23 of an object, in this order.
fn parts_flaw(alloc: Global, fields: &Props) -> Result<Option<Flaw>, AllocError>
    ensures { IfOk result (λ o. o ≡ the_resource_parts fields.now) }
{
    if let Some(flaw) = unknown_key(alloc, HotCode::H13, &RESOURCE_KEYS, fields)? {
        return Ok(Some(flaw));
    }
    if let Some(flaw) = with_no_type(alloc, fields)? {
        return Ok(Some(flaw));
    }
    let or_null = Shape::ObjectOrNull;
    if let Some(flaw) = misshapen(alloc, HotCode::H15, "properties", or_null, fields)? {
        return Ok(Some(flaw));
    }
    if let Some(flaw) = misshapen(alloc, HotCode::H16, "metadata", or_null, fields)? {
        return Ok(Some(flaw));
    }
    let texts = Shape::TextOrTexts;
    if let Some(flaw) = misshapen(alloc, HotCode::H17, "depends_on", texts, fields)? {
        return Ok(Some(flaw));
    }
    if let Some(flaw) = with_no_policy(alloc, fields)? {
        return Ok(Some(flaw));
    }
    if let Some(flaw) = misshapen(alloc, HotCode::H19, "update_policy", or_null, fields)? {
        return Ok(Some(flaw));
    }
    with_no_condition(alloc, HotCode::H20, fields)
}

// H14.
fn with_no_type(alloc: Global, fields: &Props) -> Result<Option<Flaw>, AllocError>
    ensures { IfOk result (λ o. o ≡ the_with_no_type fields.now) }
{
    untyped(alloc, found(alloc, fields, "type")?)
}

// A missing type, or one that isn't text.
fn untyped(alloc: Global, value: Option<&Value>) -> Result<Option<Flaw>, AllocError>
    ensures { IfOk result (λ o. o ≡ the_untyped (option_map (λ v. data_of v.now) value.entry)) }
{
    match value {
        Some(value) => {
            let found = unless(alloc, is_text(value), HotCode::H14);
            under_name(alloc, "type", found)
        }
        None => Ok(Some(Flaw::at_root(alloc, HotCode::H14))),
    }
}

// H18.
fn with_no_policy(alloc: Global, fields: &Props) -> Result<Option<Flaw>, AllocError>
    ensures { IfOk result (λ o. o ≡ the_with_no_policy fields.now) }
{
    let value = found(alloc, fields, "deletion_policy")?;
    under_name(alloc, "deletion_policy", unlisted(alloc, value))
}

// A value that stands there and is no policy.
fn unlisted(alloc: Global, value: Option<&Value>) -> Option<Flaw>
    ensures { result ≡ the_unlisted (option_map (λ v. data_of v.now) value.entry) }
{
    match value {
        Some(value) => unless(alloc, is_policy(value), HotCode::H18),
        None => None,
    }
}

// Whether a value is the text of a policy.
fn is_policy(value: &Value) -> bool
    ensures { result ≡ the_is_policy (data_of value.now) }
{
    match value {
        Value::Words(words) => is_among(&POLICIES, words.as_str()),
        Value::Null | Value::Flag(_) | Value::Whole(_) | Value::Items(_) | Value::Fields(_) => {
            false
        }
    }
}
