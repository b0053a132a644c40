//! What values are as strings, in byte order, and whether a value is one of them.
ghost use Rattle.std.specs.Prelude.{◌≡◌, ◌++◌, ℕ, List, IfOk, OnOk, IsSorted};
ghost use Rattle.std.specs.Cmp.Lexicographic.{slice_cmp};
ghost use Rattle.std.specs.Ordering.{nat_cmp};
ghost use Rattle.heat_value.specs.Meaning.{data_of};
ghost use Rattle.hot_forms.specs.Checks.{is_among};
ghost use Rattle.hot_params.specs.Conversions.{string_in};
ghost use Rattle.hot_params.specs.Strings.{strings_among, strings_of, is_one_of as the_is_one_of};

use heat_value::{Items, Text, Value, text_of};
use std::alloc::{AllocError, Global};

/// Each value's string, where it has one: made once, and sorted.
pub fn sorted_strings(alloc: Global, values: &Items) -> Result<Vec<Text>, AllocError>
    ensures sorted { IfOk result (λ ts. IsSorted (slice_cmp nat_cmp) ts.items) }
    ensures exact { IfOk result (λ ts. (s : List ℕ)
        → is_among ts.items s ≡ is_among (strings_among values.now) s) }
{
    let mut strings = strings_in(alloc, values)?;
    strings.sort_unstable();
    Ok(strings)
}

// The strings in the order of the values.
fn strings_in(alloc: Global, values: &Items) -> Result<Vec<Text>, AllocError>
    ensures { IfOk result (λ ts. ts.items ≡ strings_among values.now) }
{
    let mut strings = Vec::new(alloc);
    for value in values.as_slice() {
        add_string(alloc, value, &mut strings)?;
    }
    Ok(strings)
}

// Puts a value's string, where it has one, behind the last.
fn add_string(alloc: Global, value: &Value, strings: &mut Vec<Text>) -> Result<(), AllocError>
    ensures { OnOk result (strings.new.items
        ≡ strings.old.items ++ strings_of (string_in (data_of value.now))) }
{
    match value {
        Value::Words(_) | Value::Whole(_) | Value::Flag(_) => {
            strings.push(text_of(alloc, value)?)?;
            Ok(())
        }
        Value::Null | Value::Items(_) | Value::Fields(_) => Ok(()),
    }
}

/// Whether a value is one of these texts, which stand in byte order.
pub fn is_one_of(strings: &[Text], value: &Value) -> bool
    requires { IsSorted (slice_cmp nat_cmp) strings.now }
    ensures { result ≡ the_is_one_of strings.now (data_of value.now) }
{
    match value {
        Value::Words(text) => is_listed(strings, text),
        Value::Null | Value::Flag(_) | Value::Whole(_) | Value::Items(_) | Value::Fields(_) =>
            false,
    }
}

// Whether a text is one of these, found by binary search.
fn is_listed(strings: &[Text], text: &Text) -> bool
    requires { IsSorted (slice_cmp nat_cmp) strings.now }
    ensures { result ≡ is_among strings.now text.now }
{
    match strings.binary_search(text) {
        Ok(_) => true,
        Err(_) => false,
    }
}
