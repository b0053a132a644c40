//! Resources whose types have other names.
ghost use Rattle.std.specs.Prelude.{◌≡◌, IfOk, bytes_eq, option_map, codes, if◌then◌else◌};
ghost use Rattle.heat_value.specs.Meaning.{data_of};
ghost use Rattle.hot_tree.specs.Readings.{text_or};
ghost use Rattle.hot_env.specs.Applied.{each_value, within, retyped as the_retyped, retyped_in as the_retyped_in};
ghost use Rattle.hot_env.specs.Applied.{inner_retyped as the_inner_retyped, with_inner as the_with_inner};
ghost use Rattle.hot_env.specs.Applied.{is_group as the_is_group, renamed as the_renamed, group_kind};
ghost use Rattle.hot_env.specs.Applied.{type_for as the_type_for, under_key};

use heat_value::{Member, Props, Text, TryCopy, Value};
use hot_forms::found;
use std::alloc::{AllocError, Global};

/// The section `resources` with the types' other names.
pub(crate) fn resources_renamed(
    alloc: Global,
    types: &Props,
    value: &Value,
) -> Result<Value, AllocError>
    ensures { IfOk result (λ v. data_of v
        ≡ within (each_value (the_renamed types.now)) (data_of value.now)) }
{
    match value {
        Value::Fields(resources) => Ok(Value::Fields(each_renamed(alloc, types, resources)?)),
        Value::Null | Value::Flag(_) | Value::Whole(_) | Value::Words(_) | Value::Items(_) => {
            value.copy()
        }
    }
}

// Each resource, renamed.
fn each_renamed(alloc: Global, types: &Props, resources: &Props) -> Result<Props, AllocError>
    ensures { IfOk result (λ p. p ≡ each_value (the_renamed types.now) resources.now) }
{
    let mut all = Props::new(alloc);
    for member in resources.as_slice() {
        all.put(member.key.copy()?, renamed(alloc, types, member)?)?;
    }
    Ok(all)
}

// A resource with the type's other name, and the inner type's, where it is a group then.
fn renamed(alloc: Global, types: &Props, resource: &Member) -> Result<Value, AllocError>
    ensures { IfOk result (λ v. data_of v
        ≡ the_renamed types.now resource.now.key (data_of resource.now.value)) }
{
    match &resource.value {
        Value::Fields(fields) => {
            let fields = retyped_in(alloc, types, fields)?;
            Ok(Value::Fields(with_inner(alloc, types, fields)?))
        }
        Value::Null | Value::Flag(_) | Value::Whole(_) | Value::Words(_) | Value::Items(_) => {
            resource.value.copy()
        }
    }
}

// ---- the type of a definition

// The definition with the other name of its type.
fn retyped_in(alloc: Global, types: &Props, fields: &Props) -> Result<Props, AllocError>
    ensures { IfOk result (λ p. p ≡ the_retyped_in types.now fields.now) }
{
    let mut all = Props::new(alloc);
    for member in fields.as_slice() {
        all.put(member.key.copy()?, type_retyped(types, member)?)?;
    }
    Ok(all)
}

// What stands under `type` by its other name; anything else as it is.
fn type_retyped(types: &Props, member: &Member) -> Result<Value, AllocError>
    ensures { IfOk result (λ v. data_of v ≡ (if bytes_eq member.now.key (codes "type")
        then the_retyped types.now (data_of member.now.value) else data_of member.now.value)) }
{
    if member.key.as_str() == "type" {
        return retyped(types, &member.value);
    }
    member.value.copy()
}

// A text by its other name, if it has one; anything else as it is.
fn retyped(types: &Props, value: &Value) -> Result<Value, AllocError>
    ensures { IfOk result (λ v. data_of v ≡ the_retyped types.now (data_of value.now)) }
{
    match value {
        Value::Words(words) => Ok(Value::Words(type_for(types, words)?)),
        Value::Null | Value::Flag(_) | Value::Whole(_) | Value::Items(_) | Value::Fields(_) => {
            value.copy()
        }
    }
}

// The type that stands for this one.
fn type_for(types: &Props, words: &Text) -> Result<Text, AllocError>
    ensures { IfOk result (λ t. t ≡ the_type_for types.now words.now) }
{
    text_or_own(words, types.get(words))
}

// The text that stands there, or else this one.
fn text_or_own(words: &Text, value: Option<&Value>) -> Result<Text, AllocError>
    ensures { IfOk result (λ t. t
        ≡ text_or words.now (option_map (λ v. data_of v.now) value.entry)) }
{
    match value {
        Some(Value::Words(other)) => other.copy(),
        Some(Value::Null | Value::Flag(_) | Value::Whole(_)) => words.copy(),
        Some(Value::Items(_) | Value::Fields(_)) | None => words.copy(),
    }
}

// ---- the inner type of a group

// The resource with the other name of its inner type, where it is a group.
fn with_inner(alloc: Global, types: &Props, fields: Props) -> Result<Props, AllocError>
    ensures { IfOk result (λ p. p ≡ the_with_inner types.now fields) }
{
    if is_group(alloc, &fields)? {
        return properties_retyped_in(alloc, types, &fields);
    }
    Ok(fields)
}

// Whether the resource has the type of groups.
fn is_group(alloc: Global, fields: &Props) -> Result<bool, AllocError>
    ensures { IfOk result (λ b. b ≡ the_is_group fields.now) }
{
    Ok(is_group_kind(found(alloc, fields, "type")?))
}

// Whether the type of groups stands there.
fn is_group_kind(value: Option<&Value>) -> bool
    ensures { result ≡ bytes_eq
        (text_or (codes "") (option_map (λ v. data_of v.now) value.entry)) group_kind }
{
    match value {
        Some(Value::Words(words)) => words.as_str() == "OS::Heat::ResourceGroup",
        Some(Value::Null | Value::Flag(_) | Value::Whole(_)) => false,
        Some(Value::Items(_) | Value::Fields(_)) | None => false,
    }
}

// The group with its properties made over.
fn properties_retyped_in(alloc: Global, types: &Props, fields: &Props) -> Result<Props, AllocError>
    ensures { IfOk result (λ p. p
        ≡ under_key (codes "properties") (within (the_inner_retyped types.now)) fields.now) }
{
    let mut all = Props::new(alloc);
    for member in fields.as_slice() {
        all.put(
            member.key.copy()?,
            properties_retyped(alloc, types, member)?,
        )?;
    }
    Ok(all)
}

// What stands under `properties` made over; anything else as it is.
fn properties_retyped(alloc: Global, types: &Props, member: &Member) -> Result<Value, AllocError>
    ensures { IfOk result (λ v. data_of v ≡ (if bytes_eq member.now.key (codes "properties")
        then within (the_inner_retyped types.now) (data_of member.now.value) else data_of member.now.value)) }
{
    match &member.value {
        Value::Fields(props) => if member.key.as_str() == "properties" {
            Ok(Value::Fields(inner_retyped(alloc, types, props)?))
        } else {
            member.value.copy()
        },
        Value::Null | Value::Flag(_) | Value::Whole(_) | Value::Words(_) | Value::Items(_) => {
            member.value.copy()
        }
    }
}

// A group's properties with the other name of the inner type.
fn inner_retyped(alloc: Global, types: &Props, props: &Props) -> Result<Props, AllocError>
    ensures { IfOk result (λ p. p ≡ the_inner_retyped types.now props.now) }
{
    let mut all = Props::new(alloc);
    for member in props.as_slice() {
        all.put(
            member.key.copy()?,
            definition_retyped(alloc, types, member)?,
        )?;
    }
    Ok(all)
}

// What stands under `resource_def` with its type's other name; anything else as it is.
fn definition_retyped(alloc: Global, types: &Props, member: &Member) -> Result<Value, AllocError>
    ensures { IfOk result (λ v. data_of v ≡ (if bytes_eq member.now.key (codes "resource_def")
        then within (the_retyped_in types.now) (data_of member.now.value) else data_of member.now.value)) }
{
    match &member.value {
        Value::Fields(fields) => if member.key.as_str() == "resource_def" {
            Ok(Value::Fields(retyped_in(alloc, types, fields)?))
        } else {
            member.value.copy()
        },
        Value::Null | Value::Flag(_) | Value::Whole(_) | Value::Words(_) | Value::Items(_) => {
            member.value.copy()
        }
    }
}
