//! What stands in a resource, read whatever it is.
ghost use Rattle.std.specs.Prelude.{◌≡◌, IfOk, option_map, bytes_eq, codes};
ghost use Rattle.heat_value.specs.Data.{lookup, no_members};
ghost use Rattle.heat_value.specs.Meaning.{data_of};
ghost use Rattle.hot_env.specs.Applied.{group_kind};
ghost use Rattle.hot_forms.specs.Shapes.{members_in as the_members_in};
ghost use Rattle.hot_groups.specs.Groups.{is_group as the_is_group, props_of as the_props_of};
ghost use Rattle.hot_groups.specs.Groups.{index_var_of as the_index_var_of};
ghost use Rattle.hot_tree.specs.Readings.{object_in as the_object_in, text_or, entries as the_entries};

use heat_value::{Props, Text, TryCopy, Value};
use hot_forms::{found, section};
use std::alloc::{AllocError, Global};

/// The members of an object; any other value has none, as `none` has.
pub(crate) fn members_in<'a>(value: &'a Value, none: &'a Props) -> &'a Props
    requires { none.now ≡ no_members }
    ensures { result.now ≡ the_members_in (data_of value.now) }
{
    match value {
        Value::Fields(fields) => fields,
        Value::Null | Value::Flag(_) | Value::Whole(_) | Value::Words(_) | Value::Items(_) => none,
    }
}

// The members of the object that stands there; anything else has none, as `none` has.
fn object_in<'a>(value: Option<&'a Value>, none: &'a Props) -> &'a Props
    requires { none.now ≡ no_members }
    ensures { result.now ≡ the_object_in (option_map (λ v. data_of v.now) value.entry) }
{
    match value {
        Some(value) => members_in(value, none),
        None => none,
    }
}

/// The members of the object under a key; anything else has none, as `none` has.
pub(crate) fn object_at<'a>(
    alloc: Global,
    fields: &'a Props,
    key: &str,
    none: &'a Props,
) -> Result<&'a Props, AllocError>
    requires { none.now ≡ no_members }
    ensures { IfOk result (λ p. p.now ≡ the_object_in (lookup key.now fields.now)) }
{
    Ok(object_in(found(alloc, fields, key)?, none))
}

/// The entries of a section of a template; an absent one has none, as `none` has.
pub(crate) fn entries<'a>(
    alloc: Global,
    key: &str,
    template: &'a Props,
    none: &'a Props,
) -> Result<&'a Props, AllocError>
    requires { none.now ≡ no_members }
    ensures { IfOk result (λ p. p.now ≡ the_entries key.now template.now) }
{
    Ok(object_in(section(alloc, template, key)?, none))
}

/// The properties of a resource; absent ones are none, as `none` has.
pub(crate) fn props_of<'a>(
    alloc: Global,
    resource: &'a Value,
    none: &'a Props,
) -> Result<&'a Props, AllocError>
    requires { none.now ≡ no_members }
    ensures { IfOk result (λ p. p.now ≡ the_props_of (data_of resource.now)) }
{
    object_at(alloc, members_in(resource, none), "properties", none)
}

/// The text that a member's number stands in place of.
pub(crate) fn index_var_of(alloc: Global, props: &Props) -> Result<Text, AllocError>
    ensures { IfOk result (λ t. t ≡ the_index_var_of props.now) }
{
    text_or_usual(alloc, found(alloc, props, "index_var")?)
}

// The text that stands there, or else the usual one.
fn text_or_usual(alloc: Global, value: Option<&Value>) -> Result<Text, AllocError>
    ensures { IfOk result (λ t. t
        ≡ text_or (codes "%index%") (option_map (λ v. data_of v.now) value.entry)) }
{
    match value {
        Some(Value::Words(words)) => words.copy(),
        Some(Value::Null | Value::Flag(_) | Value::Whole(_)) => Text::from_str(alloc, "%index%"),
        Some(Value::Items(_) | Value::Fields(_)) | None => Text::from_str(alloc, "%index%"),
    }
}

/// Whether a resource has the type of groups.
pub(crate) fn is_group(alloc: Global, resource: &Value) -> Result<bool, AllocError>
    ensures { IfOk result (λ b. b ≡ the_is_group (data_of resource.now)) }
{
    let none = Props::new(alloc);
    Ok(is_group_kind(found(alloc, members_in(resource, &none), "type")?))
}

// Whether the type of groups stands there.
pub(crate) fn is_group_kind(value: Option<&Value>) -> bool
    ensures { result ≡ bytes_eq
        (text_or (codes "") (option_map (λ v. data_of v.now) value.entry)) group_kind }
{
    match value {
        Some(Value::Words(words)) => words.as_str() == "OS::Heat::ResourceGroup",
        Some(Value::Null | Value::Flag(_) | Value::Whole(_)) => false,
        Some(Value::Items(_) | Value::Fields(_)) | None => false,
    }
}
