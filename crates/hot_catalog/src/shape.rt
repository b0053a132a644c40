//! The shape of a definition.
ghost use Rattle.std.specs.Prelude.{◌≡◌, IfOk, option_map, codes};
ghost use Rattle.heat_value.specs.Data.{fields};
ghost use Rattle.heat_value.specs.Meaning.{data_of};
ghost use Rattle.hot_catalog.specs.Flaws.{attributes_shape as the_attributes_shape};
ghost use Rattle.hot_catalog.specs.Flaws.{unflagged as the_unflagged, flag_shape as the_flag_shape};
ghost use Rattle.hot_catalog.specs.Flaws.{property_shape as the_property_shape};
ghost use Rattle.hot_catalog.specs.Flaws.{with_no_property as the_with_no_property};
ghost use Rattle.hot_catalog.specs.Flaws.{properties_shape as the_properties_shape};
ghost use Rattle.hot_catalog.specs.Flaws.{definition_shape as the_definition_shape, part_shape};
ghost use Rattle.hot_forms.specs.Shapes.{is_flag as the_is_flag, are_texts as the_are_texts};

use crate::check::{behind_key, behind_name, here_unless};
use heat_value::{Items, Path, Props, Value};
use hot_forms::{found, is_text};
use std::alloc::{AllocError, Global};

/// Where a definition has another shape.
pub fn definition_shape(alloc: Global, definition: &Value) -> Result<Option<Path>, AllocError>
    ensures { IfOk result (λ o. o ≡ the_definition_shape (data_of definition.now)) }
{
    match definition {
        Value::Fields(parts) => parts_shape(alloc, parts),
        Value::Null | Value::Flag(_) | Value::Whole(_) | Value::Words(_) | Value::Items(_) => {
            Ok(Some(Path::root(alloc)))
        }
    }
}

// The attributes, then the properties.
fn parts_shape(alloc: Global, parts: &Props) -> Result<Option<Path>, AllocError>
    ensures { IfOk result (λ o. o ≡ the_definition_shape (fields parts.now)) }
{
    if let Some(path) = attributes_part(alloc, parts)? {
        return Ok(Some(path));
    }
    properties_part(alloc, parts)
}

// The place of what is wrong with the attributes, where there are some.
fn attributes_part(alloc: Global, parts: &Props) -> Result<Option<Path>, AllocError>
    ensures { IfOk result (λ o. o ≡ part_shape (codes "attributes") the_attributes_shape parts.now) }
{
    match found(alloc, parts, "attributes")? {
        Some(value) => behind_name(alloc, "attributes", attributes_shape(alloc, value)),
        None => Ok(None),
    }
}

// The place of what is wrong with the properties, where there are some.
fn properties_part(alloc: Global, parts: &Props) -> Result<Option<Path>, AllocError>
    ensures { IfOk result (λ o. o ≡ part_shape (codes "properties") the_properties_shape parts.now) }
{
    match found(alloc, parts, "properties")? {
        Some(value) => behind_name(alloc, "properties", properties_shape(alloc, value)?),
        None => Ok(None),
    }
}

// Neither a list of texts nor an object.
fn attributes_shape(alloc: Global, value: &Value) -> Option<Path>
    ensures { result ≡ the_attributes_shape (data_of value.now) }
{
    match value {
        Value::Items(items) => here_unless(alloc, are_texts(items)),
        Value::Fields(_) => None,
        Value::Null | Value::Flag(_) | Value::Whole(_) | Value::Words(_) => Some(Path::root(alloc)),
    }
}

// Whether each item is a text.
fn are_texts(items: &Items) -> bool
    ensures { result ≡ the_are_texts items.now }
{
    for value in items.as_slice() {
        if !is_text(value) {
            return false;
        }
    }
    true
}

// The place of what is wrong with them: no object, or one of them.
fn properties_shape(alloc: Global, value: &Value) -> Result<Option<Path>, AllocError>
    ensures { IfOk result (λ o. o ≡ the_properties_shape (data_of value.now)) }
{
    match value {
        Value::Fields(props) => with_no_property(alloc, props),
        Value::Null | Value::Flag(_) | Value::Whole(_) | Value::Words(_) | Value::Items(_) => {
            Ok(Some(Path::root(alloc)))
        }
    }
}

// The first property, in byte order, of another shape.
fn with_no_property(alloc: Global, props: &Props) -> Result<Option<Path>, AllocError>
    ensures { IfOk result (λ o. o ≡ the_with_no_property props.now) }
{
    for prop in props.as_slice() {
        let found = behind_key(&prop.key, property_shape(alloc, &prop.value)?)?;
        if found.is_some() {
            return Ok(found);
        }
    }
    Ok(None)
}

// A property's definition isn't an object, or one of its flags is none.
fn property_shape(alloc: Global, value: &Value) -> Result<Option<Path>, AllocError>
    ensures { IfOk result (λ o. o ≡ the_property_shape (data_of value.now)) }
{
    match value {
        Value::Fields(flags) => flags_shape(alloc, flags),
        Value::Null | Value::Flag(_) | Value::Whole(_) | Value::Words(_) | Value::Items(_) => {
            Ok(Some(Path::root(alloc)))
        }
    }
}

// The place of the first of a property's two flags that is none.
fn flags_shape(alloc: Global, flags: &Props) -> Result<Option<Path>, AllocError>
    ensures { IfOk result (λ o. o ≡ the_property_shape (fields flags.now)) }
{
    if let Some(path) = flag_shape(alloc, "required", flags)? {
        return Ok(Some(path));
    }
    flag_shape(alloc, "update_allowed", flags)
}

// The place of this key, where it is there and no flag.
fn flag_shape(alloc: Global, key: &str, flags: &Props) -> Result<Option<Path>, AllocError>
    ensures { IfOk result (λ o. o ≡ the_flag_shape key.now flags.now) }
{
    let held = found(alloc, flags, key)?;
    behind_name(alloc, key, unflagged(alloc, held))
}

// What stands there isn't a flag.
fn unflagged(alloc: Global, value: Option<&Value>) -> Option<Path>
    ensures { result ≡ the_unflagged (option_map (λ v. data_of v.now) value.entry) }
{
    match value {
        Some(value) => here_unless(alloc, is_flag(value)),
        None => None,
    }
}

// Whether a value is true or false.
fn is_flag(value: &Value) -> bool
    ensures { result ≡ the_is_flag (data_of value.now) }
{
    matches!(value, Value::Flag(_))
}
