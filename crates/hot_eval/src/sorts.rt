//! What an argument is taken as, once it is evaluated.
ghost use Rattle.std.specs.Prelude.{◌≡◌, IfOk, option_map, ok_or};
ghost use Rattle.heat_value.specs.Meaning.{data_of, nodes_of, members_of};
ghost use Rattle.heat_value.specs.Data.{lookup};
ghost use Rattle.hot_forms.specs.Shapes.{members_in};
ghost use Rattle.eval_words.specs.Sorts.{text_in as the_text_in, text_taken as the_text_taken};
ghost use Rattle.eval_words.specs.Sorts.{flag_in as the_flag_in, list_in as the_list_in, object_in as the_object_in};
ghost use Rattle.eval_words.specs.Sorts.{list_or_null as the_list_or_null, object_or_null as the_object_or_null};
ghost use Rattle.eval_words.specs.Sorts.{listed, first_and_rest as the_first_and_rest, two_of as the_two_of};

use crate::{FaultCode, FunctionFault};
use heat_value::{Member, Props, Text, TryCopy, Value, text_of};
use std::alloc::{AllocError, Global};

/// F01 where an argument is of the wrong sort, or names what isn't there.
pub fn wanted<T>(found: Option<T>) -> Result<T, FunctionFault>
    ensures { result ≡ ok_or found (FunctionFault.Wrong FaultCode.F01) }
{
    match found {
        Some(value) => Ok(value),
        None => Err(FunctionFault::Wrong(FaultCode::F01)),
    }
}

/// A text, where nothing else counts as one.
pub fn text_in(value: &Value) -> Option<&Text>
    ensures { option_map (λ t. t.now) result ≡ the_text_in (data_of value.now) }
{
    match value {
        Value::Words(words) => Some(words),
        Value::Null | Value::Flag(_) | Value::Whole(_) | Value::Items(_) | Value::Fields(_) => None,
    }
}

/// A text; a whole number or a flag by its text.
pub fn text_taken(alloc: Global, value: &Value) -> Result<Option<Text>, AllocError>
    ensures { IfOk result (λ o. o ≡ the_text_taken (data_of value.now)) }
{
    match value {
        Value::Words(words) => Ok(Some(words.copy()?)),
        Value::Flag(_) | Value::Whole(_) => Ok(Some(text_of(alloc, value)?)),
        Value::Null | Value::Items(_) | Value::Fields(_) => Ok(None),
    }
}

/// A flag.
pub fn flag_in(value: &Value) -> Option<bool>
    ensures { result ≡ the_flag_in (data_of value.now) }
{
    match value {
        Value::Flag(flag) => Some(*flag),
        Value::Null | Value::Whole(_) | Value::Words(_) | Value::Items(_) | Value::Fields(_) => {
            None
        }
    }
}

/// The items of a list.
pub fn list_in(value: &Value) -> Option<&[Value]>
    ensures { option_map (λ vs. nodes_of vs.now) result ≡ the_list_in (data_of value.now) }
{
    match value {
        Value::Items(items) => Some(items.as_slice()),
        Value::Null | Value::Flag(_) | Value::Whole(_) | Value::Words(_) | Value::Fields(_) => None,
    }
}

/// The items of a list, of which null counts as an empty one.
pub fn list_or_null(value: &Value) -> Option<&[Value]>
    ensures { option_map (λ vs. nodes_of vs.now) result ≡ the_list_or_null (data_of value.now) }
{
    match value {
        Value::Null => Some(&[]),
        _ => list_in(value),
    }
}

/// An object.
pub fn object_in(value: &Value) -> Option<&Props>
    ensures { option_map (λ ms. ms.now) result ≡ the_object_in (data_of value.now) }
{
    match value {
        Value::Fields(fields) => Some(fields),
        Value::Null | Value::Flag(_) | Value::Whole(_) | Value::Words(_) | Value::Items(_) => None,
    }
}

/// The members of an object, of which null counts as an empty one.
pub fn object_or_null(value: &Value) -> Option<&[Member]>
    ensures { option_map (λ ms. members_of ms.now) result ≡ the_object_or_null (data_of value.now) }
{
    match value {
        Value::Null => Some(&[]),
        Value::Fields(fields) => Some(fields.as_slice()),
        Value::Flag(_) | Value::Whole(_) | Value::Words(_) | Value::Items(_) => None,
    }
}

/// The parts of a list; anything else has none.
pub fn parts(value: &Value) -> &[Value]
    ensures { nodes_of result.now ≡ listed (data_of value.now) }
{
    match value {
        Value::Items(items) => items.as_slice(),
        Value::Null | Value::Flag(_) | Value::Whole(_) | Value::Words(_) | Value::Fields(_) => &[],
    }
}

/// The first of a list, and those behind it.
pub fn first_and_rest(values: &[Value]) -> Option<(&Value, &[Value])>
    ensures { option_map (λ p. (data_of p.0.now, nodes_of p.1.now)) result
        ≡ the_first_and_rest (nodes_of values.now) }
{
    match values {
        [] => None,
        [first, rest @ ..] => Some((first, rest)),
    }
}

/// The parts of a list of two.
pub fn two_of(values: &[Value]) -> Option<(&Value, &Value)>
    ensures { option_map (λ p. (data_of p.0.now, data_of p.1.now)) result
        ≡ the_two_of (nodes_of values.now) }
{
    match values {
        [] => None,
        [_] => None,
        [first, second] => Some((first, second)),
        [_, _, _, ..] => None,
    }
}

/// What stands under a key.
pub fn under<'a>(
    alloc: Global,
    key: &str,
    value: &'a Value,
) -> Result<Option<&'a Value>, AllocError>
    ensures { IfOk result (λ o. option_map (λ v. data_of v.now) o
        ≡ lookup key.now (members_in (data_of value.now))) }
{
    match value {
        Value::Fields(fields) => Ok(fields.get(&Text::from_str(alloc, key)?)),
        Value::Null | Value::Flag(_) | Value::Whole(_) | Value::Words(_) | Value::Items(_) => {
            Ok(None)
        }
    }
}
