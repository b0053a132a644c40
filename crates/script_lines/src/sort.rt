//! The sorts of what stands under a body's keys, and the first key that is wrong.
ghost use Rattle.std.specs.Prelude.{◌≡◌, ◌↔◌, IsTrue, MatchOption};
ghost use Rattle.heat_value.specs.Meaning.{data_of};
ghost use Rattle.script_lines.specs.BodyKeys.{sort_of as the_sort_of, IsText, AreTexts, HoldsTexts};
ghost use Rattle.script_lines.specs.BodyKeys.{IsOfSort, IsRight, AreRight, IsFirstWrong};

use heat_value::{Member, Props, Text, Value};

/// The sort of a value.
#[derive(Clone, Copy)]
pub enum Sort {
    Any,
    Object,
    /// An object of texts.
    Texts,
    Flag,
}

/// The first key that is unknown, or has a value of another sort.
pub fn first_wrong(members: &Props) -> Option<&Text>
    ensures { MatchOption result (AreRight members.now) (λ k. IsFirstWrong members.now k.now) }
{
    for member in members.as_slice() {
        if !is_right(member) {
            return Some(&member.key);
        }
    }
    None
}

// Whether a body has this key, and the value is of its sort.
fn is_right(member: &Member) -> bool
    ensures { IsTrue result ↔ IsRight member.now.key (data_of member.now.value) }
{
    match sort_of(member.key.as_str()) {
        Some(sort) => is_of_sort(&member.value, sort),
        None => false,
    }
}

// The sort of what stands under a body's key.
fn sort_of(key: &str) -> Option<Sort>
    ensures { result ≡ the_sort_of key.now }
{
    if key == "template" {
        return Some(Sort::Any);
    }
    if key == "parameters" {
        return Some(Sort::Object);
    }
    if key == "files" {
        return Some(Sort::Texts);
    }
    if key == "disable_rollback" {
        return Some(Sort::Flag);
    }
    None
}

// Whether a value is of this sort.
fn is_of_sort(value: &Value, sort: Sort) -> bool
    ensures { IsTrue result ↔ IsOfSort sort (data_of value.now) }
{
    match sort {
        Sort::Any => true,
        Sort::Object => matches!(value, Value::Fields(_)),
        Sort::Texts => holds_texts(value),
        Sort::Flag => matches!(value, Value::Flag(_)),
    }
}

// Whether a value is an object of texts.
fn holds_texts(value: &Value) -> bool
    ensures { IsTrue result ↔ HoldsTexts (data_of value.now) }
{
    match value {
        Value::Fields(fields) => are_texts(fields),
        Value::Null | Value::Flag(_) | Value::Whole(_) | Value::Words(_) | Value::Items(_) => false,
    }
}

// Whether each value is a text.
fn are_texts(fields: &Props) -> bool
    ensures { IsTrue result ↔ AreTexts fields.now }
{
    for member in fields.as_slice() {
        if !is_words(&member.value) {
            return false;
        }
    }
    true
}

// Whether a value is a text.
fn is_words(value: &Value) -> bool
    ensures { IsTrue result ↔ IsText (data_of value.now) }
{
    match value {
        Value::Words(_) => true,
        Value::Null | Value::Flag(_) | Value::Whole(_) | Value::Items(_) | Value::Fields(_) => {
            false
        }
    }
}
