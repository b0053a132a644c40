//! V01 and V02 of an environment.
ghost use Rattle.std.specs.Prelude.{◌≡◌, [], Some, IfOk, nat_eq};
ghost use Rattle.heat_value.specs.Data.{fields as fields_data};
ghost use Rattle.heat_value.specs.Meaning.{data_of};
ghost use Rattle.hot_forms.specs.Checks.{is_among as the_is_among};
ghost use Rattle.hot_forms.specs.Shapes.{members_in};
ghost use Rattle.hot_tree.specs.Readings.{text_or};
ghost use Rattle.hot_env.specs.Codes.{first_entry};
ghost use Rattle.hot_env.specs.Checks.{left_out, is_registry as the_is_registry, is_of_resources as the_is_of_resources};
ghost use Rattle.hot_env.specs.Checks.{misshapen_entry as the_misshapen_entry, misshapen as the_misshapen};
ghost use Rattle.hot_env.specs.Checks.{misshapen_registry as the_misshapen_registry};
ghost use Rattle.hot_env.specs.Checks.{has_part as the_has_part, is_unsupported as the_is_unsupported};
ghost use Rattle.hot_env.specs.Checks.{unsupported_entry as the_unsupported_entry, unsupported as the_unsupported};
ghost use Rattle.hot_env.specs.Checks.{environment_flaw as the_environment_flaw, flaw_in as the_flaw_in};

use crate::flaw::{under, unless};
use crate::{EnvCode, EnvFlaw};
use heat_value::{Member, Props, Text, Value};
use hot_forms::{is_among, is_object, is_text};
use std::alloc::{AllocError, Global};

/// The first flaw of an environment, by its path from the body's root.
pub(crate) fn environment_flaw(alloc: Global, value: &Value) -> Result<Option<EnvFlaw>, AllocError>
    ensures { IfOk result (λ o. o ≡ the_environment_flaw (data_of value.now)) }
{
    let key = Text::from_str(alloc, "environment")?;
    under(&key, flaw_in(alloc, value)?)
}

// The first flaw: V01 of all keys, then V02 of all.
fn flaw_in(alloc: Global, value: &Value) -> Result<Option<EnvFlaw>, AllocError>
    ensures { IfOk result (λ o. o ≡ the_flaw_in (data_of value.now)) }
{
    match value {
        Value::Fields(fields) => fields_flaw(alloc, fields),
        Value::Null | Value::Flag(_) | Value::Whole(_) | Value::Words(_) | Value::Items(_) => {
            Ok(Some(EnvFlaw::here(alloc, EnvCode::V01)))
        }
    }
}

// The same of an object.
fn fields_flaw(alloc: Global, fields: &Props) -> Result<Option<EnvFlaw>, AllocError>
    ensures { IfOk result (λ o. o ≡ the_flaw_in (fields_data fields.now)) }
{
    let found = first_misshapen(alloc, fields)?;
    if found.is_some() {
        return Ok(found);
    }
    first_unsupported(alloc, fields)
}

// ---- V01

// V01 at the first key.
fn first_misshapen(alloc: Global, fields: &Props) -> Result<Option<EnvFlaw>, AllocError>
    ensures { IfOk result (λ o. o ≡ first_entry the_misshapen fields.now) }
{
    for member in fields.as_slice() {
        let found = under(&member.key, misshapen(alloc, member)?)?;
        if found.is_some() {
            return Ok(found);
        }
    }
    Ok(None)
}

// V01 at this key.
fn misshapen(alloc: Global, member: &Member) -> Result<Option<EnvFlaw>, AllocError>
    ensures { IfOk result (λ o. o ≡ the_misshapen member.now.key (data_of member.now.value)) }
{
    let key = member.key.as_str();
    if is_registry(key) {
        return misshapen_registry(alloc, &member.value);
    }
    if is_among(&["parameter_defaults", "parameters"], key) {
        return Ok(unless(alloc, is_object(&member.value), EnvCode::V01));
    }
    Ok(unless(alloc, is_left_out(key), EnvCode::V01))
}

// Whether the key is that of types' other names.
fn is_registry(key: &str) -> bool
    ensures { result ≡ the_is_registry key.now }
{
    key == "resource_registry"
}

// Whether the key is one that has no meaning here.
fn is_left_out(key: &str) -> bool
    ensures { result ≡ the_is_among left_out key.now }
{
    is_among(
        &[
            "encrypted_param_names",
            "event_sinks",
            "parameter_merge_strategies",
        ],
        key,
    )
}

// V01 of the registry.
fn misshapen_registry(alloc: Global, value: &Value) -> Result<Option<EnvFlaw>, AllocError>
    ensures { IfOk result (λ o. o ≡ the_misshapen_registry (data_of value.now)) }
{
    match value {
        Value::Fields(fields) => misshapen_entry(alloc, fields),
        Value::Null | Value::Flag(_) | Value::Whole(_) | Value::Words(_) | Value::Items(_) => {
            Ok(Some(EnvFlaw::here(alloc, EnvCode::V01)))
        }
    }
}

// V01 at the first entry of the registry.
fn misshapen_entry(alloc: Global, fields: &Props) -> Result<Option<EnvFlaw>, AllocError>
    ensures { IfOk result (λ o. o ≡ first_entry the_misshapen_entry fields.now) }
{
    for member in fields.as_slice() {
        let holds = is_of_resources(member.key.as_str()) || is_text(&member.value);
        let found = under(&member.key, unless(alloc, holds, EnvCode::V01))?;
        if found.is_some() {
            return Ok(found);
        }
    }
    Ok(None)
}

// Whether the entry is that for single resources.
fn is_of_resources(key: &str) -> bool
    ensures { result ≡ the_is_of_resources key.now }
{
    key == "resources"
}

// ---- V02

// V02 at the first key.
fn first_unsupported(alloc: Global, fields: &Props) -> Result<Option<EnvFlaw>, AllocError>
    ensures { IfOk result (λ o. o ≡ first_entry the_unsupported fields.now) }
{
    for member in fields.as_slice() {
        let found = under(&member.key, unsupported(alloc, member)?)?;
        if found.is_some() {
            return Ok(found);
        }
    }
    Ok(None)
}

// V02 at this key.
fn unsupported(alloc: Global, member: &Member) -> Result<Option<EnvFlaw>, AllocError>
    ensures { IfOk result (λ o. o ≡ the_unsupported member.now.key (data_of member.now.value)) }
{
    let key = member.key.as_str();
    if is_registry(key) {
        return unsupported_in(alloc, &member.value);
    }
    Ok(unless(alloc, !is_left_out(key), EnvCode::V02))
}

// V02 of the registry; what is no object has no entry.
fn unsupported_in(alloc: Global, value: &Value) -> Result<Option<EnvFlaw>, AllocError>
    ensures { IfOk result (λ o. o
        ≡ first_entry the_unsupported_entry (members_in (data_of value.now))) }
{
    match value {
        Value::Fields(fields) => unsupported_entry(alloc, fields),
        Value::Null | Value::Flag(_) | Value::Whole(_) | Value::Words(_) | Value::Items(_) => {
            Ok(None)
        }
    }
}

// V02 at the first entry of the registry.
fn unsupported_entry(alloc: Global, fields: &Props) -> Result<Option<EnvFlaw>, AllocError>
    ensures { IfOk result (λ o. o ≡ first_entry the_unsupported_entry fields.now) }
{
    for member in fields.as_slice() {
        let holds = !is_unsupported(member.key.as_str(), text_in(&member.value));
        let found = under(&member.key, unless(alloc, holds, EnvCode::V02))?;
        if found.is_some() {
            return Ok(found);
        }
    }
    Ok(None)
}

// The text that stands there, else the empty one.
fn text_in(value: &Value) -> &str
    ensures { result.now ≡ text_or [] (Some (data_of value.now)) }
{
    match value {
        Value::Words(words) => words.as_str(),
        Value::Null | Value::Flag(_) | Value::Whole(_) | Value::Items(_) | Value::Fields(_) => "",
    }
}

// Whether an entry stands for more than one type by another.
fn is_unsupported(key: &str, text: &str) -> bool
    ensures { result ≡ the_is_unsupported key.now text.now }
{
    let bytes = text.as_bytes();
    is_of_resources(key)
        || has_part(b"*", key.as_bytes())
        || has_part(b"*", bytes)
        || has_part(b"://", bytes)
        || bytes.ends_with(b".yaml")
        || bytes.ends_with(b".template")
}

// Whether a part stands somewhere in a text.
fn has_part(part: &[u8], text: &[u8]) -> bool
    ensures { result ≡ the_has_part part.now text.now }
{
    for i in 0..text.len() {
        if text[i..].starts_with(part) {
            return true;
        }
    }
    false
}
