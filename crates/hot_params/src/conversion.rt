//! Values as parameters of a type.
ghost use Rattle.std.specs.Prelude.{◌≡◌, IfOk, option_map};
ghost use Rattle.heat_value.specs.Data.{words, whole as whole_data};
ghost use Rattle.heat_value.specs.Meaning.{data_of};
ghost use Rattle.hot_forms.specs.declared.sort.Sort.TheVariants as sort;
ghost use Rattle.hot_params.specs.Conversions.{IsConversion, collected};

use crate::listing::{listed_in, texts_of};
use crate::saying::{flag_said, whole_said};
use heat_value::{Text, TryCopy, Value, ValueFault, text_of};
use hot_forms::Sort;
use std::alloc::{AllocError, Global};

/// What a value is as a parameter of this type; nothing where it doesn't convert.
pub fn converted(
    alloc: Global,
    sort: Option<Sort>,
    value: &Value,
) -> Result<Option<Value>, AllocError>
    ensures { IfOk result (λ o. IsConversion sort (data_of value.now) (option_map data_of o)) }
{
    match sort {
        Some(Sort::Words) => string_in(alloc, value),
        Some(Sort::Number) => Ok(number_in(value)),
        Some(Sort::Flag) => Ok(flag_in(value)),
        Some(Sort::Json) => json_in(alloc, value),
        Some(Sort::List) => list_in(alloc, value),
        None => Ok(None),
    }
}

// A text; a whole number or flag by its text.
fn string_in(alloc: Global, value: &Value) -> Result<Option<Value>, AllocError>
    ensures { IfOk result (λ o.
        IsConversion (Some sort.Words) (data_of value.now) (option_map data_of o)) }
{
    match value {
        Value::Words(_) | Value::Whole(_) | Value::Flag(_) => {
            Ok(Some(Value::Words(text_of(alloc, value)?)))
        }
        Value::Null | Value::Items(_) | Value::Fields(_) => Ok(None),
    }
}

// A whole number; a text that writes one.
fn number_in(value: &Value) -> Option<Value>
    ensures { IsConversion (Some sort.Number) (data_of value.now) (option_map data_of result) }
{
    match value {
        Value::Whole(whole) => Some(Value::Whole(*whole)),
        Value::Words(words) => number_said(words),
        Value::Null | Value::Flag(_) | Value::Items(_) | Value::Fields(_) => None,
    }
}

// The whole number that a text says.
fn number_said(text: &Text) -> Option<Value>
    ensures { IsConversion (Some sort.Number) (words text.now) (option_map data_of result) }
{
    match whole_said(text.as_str()) {
        Some(whole) => Some(Value::Whole(whole)),
        None => None,
    }
}

// A flag; 1 and 0; a text that says one.
fn flag_in(value: &Value) -> Option<Value>
    ensures { IsConversion (Some sort.Flag) (data_of value.now) (option_map data_of result) }
{
    match value {
        Value::Flag(flag) => Some(Value::Flag(*flag)),
        Value::Whole(whole) => flag_numbered(*whole),
        Value::Words(words) => said_flag(words.as_str()),
        Value::Null | Value::Items(_) | Value::Fields(_) => None,
    }
}

// The flag that a number stands for, 1 or 0.
fn flag_numbered(whole: i64) -> Option<Value>
    ensures { IsConversion (Some sort.Flag) (whole_data whole) (option_map data_of result) }
{
    if whole == 1 {
        return Some(Value::Flag(true));
    }
    if whole == 0 {
        return Some(Value::Flag(false));
    }
    None
}

// The flag that a text says.
fn said_flag(text: &str) -> Option<Value>
    ensures { IsConversion (Some sort.Flag) (words text.now) (option_map data_of result) }
{
    match flag_said(text) {
        Some(flag) => Some(Value::Flag(flag)),
        None => None,
    }
}

// An object or list; a text that is read as one.
fn json_in(alloc: Global, value: &Value) -> Result<Option<Value>, AllocError>
    ensures { IfOk result (λ o.
        IsConversion (Some sort.Json) (data_of value.now) (option_map data_of o)) }
{
    match value {
        Value::Items(_) | Value::Fields(_) => Ok(Some(value.copy()?)),
        Value::Words(words) => json_said(alloc, words),
        Value::Null | Value::Flag(_) | Value::Whole(_) => Ok(None),
    }
}

// The object or list that a text is read as.
fn json_said(alloc: Global, text: &Text) -> Result<Option<Value>, AllocError>
    ensures { IfOk result (λ o.
        IsConversion (Some sort.Json) (words text.now) (option_map data_of o)) }
{
    match Value::read(alloc, text.as_str().as_bytes()) {
        Ok(value) => Ok(collection(value)),
        Err(ValueFault::NotJson) => Ok(None),
        Err(ValueFault::TooDeep) => Ok(None),
        Err(ValueFault::BadNumber(_)) => Ok(None),
        Err(ValueFault::Memory) => Err(AllocError),
    }
}

// The value, where it is an object or list.
fn collection(value: Value) -> Option<Value>
    ensures { option_map data_of result ≡ collected (data_of value) }
{
    match &value {
        Value::Items(_) | Value::Fields(_) => Some(value),
        Value::Null | Value::Flag(_) | Value::Whole(_) | Value::Words(_) => None,
    }
}

// A list, each item by its text; a text by what it lists.
fn list_in(alloc: Global, value: &Value) -> Result<Option<Value>, AllocError>
    ensures { IfOk result (λ o.
        IsConversion (Some sort.List) (data_of value.now) (option_map data_of o)) }
{
    match value {
        Value::Items(items) => Ok(Some(Value::Items(texts_of(alloc, items)?))),
        Value::Words(words) => Ok(Some(Value::Items(listed_in(alloc, words.as_str())?))),
        Value::Null | Value::Flag(_) | Value::Whole(_) | Value::Fields(_) => Ok(None),
    }
}
