//! The types of parameters.
ghost use Rattle.std.specs.Prelude.{◌≡◌, option_map};
ghost use Rattle.heat_value.specs.Meaning.{data_of};
ghost use Rattle.hot_forms.specs.Parameters.{sort_named as the_sort_named, sort_in as the_sort_in};

use heat_value::Value;

/// A parameter's type.
#[derive(Clone, Copy, Debug, PartialEq, Eq)]
pub enum Sort {
    /// `string`
    Words,
    /// `number`
    Number,
    /// `boolean`
    Flag,
    /// `json`
    Json,
    /// `comma_delimited_list`
    List,
}

/// The type that a text names.
pub fn sort_named(name: &str) -> Option<Sort>
    ensures { result ≡ the_sort_named name.now }
{
    if name == "string" {
        return Some(Sort::Words);
    }
    if name == "number" {
        return Some(Sort::Number);
    }
    if name == "boolean" {
        return Some(Sort::Flag);
    }
    if name == "json" {
        return Some(Sort::Json);
    }
    if name == "comma_delimited_list" {
        return Some(Sort::List);
    }
    None
}

/// The type that stands there.
pub fn sort_in(value: Option<&Value>) -> Option<Sort>
    ensures { result ≡ the_sort_in (option_map (λ v. data_of v.now) value.entry) }
{
    match value {
        Some(Value::Words(words)) => sort_named(words.as_str()),
        Some(Value::Null | Value::Flag(_) | Value::Whole(_)) => None,
        Some(Value::Items(_) | Value::Fields(_)) | None => None,
    }
}
