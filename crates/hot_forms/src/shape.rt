//! The shapes that a template wants of values.
ghost use Rattle.std.specs.Prelude.{◌≡◌, IfOk, option_map};
ghost use Rattle.heat_value.specs.Data.{lookup};
ghost use Rattle.heat_value.specs.Meaning.{data_of};
ghost use Rattle.hot_forms.specs.Shapes.{is_null as the_is_null, is_flag as the_is_flag, is_text as the_is_text};
ghost use Rattle.hot_forms.specs.Shapes.{is_list as the_is_list, is_object as the_is_object};
ghost use Rattle.hot_forms.specs.Shapes.{are_texts as the_are_texts, is_text_list as the_is_text_list};
ghost use Rattle.hot_forms.specs.Shapes.{has_shape as the_has_shape, unshaped as the_unshaped};
ghost use Rattle.hot_forms.specs.Shapes.{misshapen as the_misshapen};

use crate::check::{under_name, unless};
use crate::{Flaw, HotCode};
use heat_value::{Items, Props, Text, Value};
use std::alloc::{AllocError, Global};

/// A shape that is wanted.
#[derive(Clone, Copy, Debug, PartialEq, Eq)]
pub enum Shape {
    Text,
    Flag,
    List,
    Object,
    /// A list of texts.
    Texts,
    /// A text or a list of texts.
    TextOrTexts,
    ObjectOrNull,
}

/// What stands under a key, if the key is there.
pub fn found<'a>(
    alloc: Global,
    members: &'a Props,
    key: &str,
) -> Result<Option<&'a Value>, AllocError>
    ensures { IfOk result (λ o. option_map (λ v. data_of v.now) o ≡ lookup key.now members.now) }
{
    Ok(members.get(&Text::from_str(alloc, key)?))
}

/// What stands under a key has another shape.
pub fn misshapen(
    alloc: Global,
    code: HotCode,
    key: &str,
    shape: Shape,
    members: &Props,
) -> Result<Option<Flaw>, AllocError>
    ensures { IfOk result (λ o. o ≡ the_misshapen code key.now shape members.now) }
{
    under_name(
        alloc,
        key,
        unshaped(alloc, code, shape, found(alloc, members, key)?),
    )
}

/// What stands there, if anything does, has another shape.
pub(crate) fn unshaped(
    alloc: Global,
    code: HotCode,
    shape: Shape,
    value: Option<&Value>,
) -> Option<Flaw>
    ensures { result ≡ the_unshaped code shape (option_map (λ v. data_of v.now) value.entry) }
{
    match value {
        Some(value) => unless(alloc, has_shape(shape, value), code),
        None => None,
    }
}

// Whether a value has this shape.
fn has_shape(shape: Shape, value: &Value) -> bool
    ensures { result ≡ the_has_shape shape (data_of value.now) }
{
    match shape {
        Shape::Text => is_text(value),
        Shape::Flag => is_flag(value),
        Shape::List => is_list(value),
        Shape::Object => is_object(value),
        Shape::Texts => is_text_list(value),
        Shape::TextOrTexts => is_text(value) || is_text_list(value),
        Shape::ObjectOrNull => is_object(value) || is_null(value),
    }
}

// Whether a value is null.
fn is_null(value: &Value) -> bool
    ensures { result ≡ the_is_null (data_of value.now) }
{
    matches!(value, Value::Null)
}

// Whether a value is true or false.
fn is_flag(value: &Value) -> bool
    ensures { result ≡ the_is_flag (data_of value.now) }
{
    matches!(value, Value::Flag(_))
}

/// Whether a value is a text.
pub fn is_text(value: &Value) -> bool
    ensures { result ≡ the_is_text (data_of value.now) }
{
    matches!(value, Value::Words(_))
}

/// Whether a value is a list.
pub(crate) fn is_list(value: &Value) -> bool
    ensures { result ≡ the_is_list (data_of value.now) }
{
    matches!(value, Value::Items(_))
}

/// Whether a value is an object.
pub fn is_object(value: &Value) -> bool
    ensures { result ≡ the_is_object (data_of value.now) }
{
    matches!(value, Value::Fields(_))
}

// Whether a value is a list of texts.
fn is_text_list(value: &Value) -> bool
    ensures { result ≡ the_is_text_list (data_of value.now) }
{
    match value {
        Value::Items(items) => are_texts(items),
        Value::Null | Value::Flag(_) | Value::Whole(_) | Value::Words(_) | Value::Fields(_) => {
            false
        }
    }
}

// Whether each is a text.
fn are_texts(items: &Items) -> bool
    ensures { result ≡ the_are_texts items.now }
{
    for value in items.as_slice() {
        if !is_text(value) {
            return false;
        }
    }
    true
}
