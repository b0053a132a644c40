//! The functions by their keys, and whether an argument has the form that its function wants.
ghost use Rattle.std.specs.Prelude.{◌≡◌, codes, option_map};
ghost use Rattle.heat_value.specs.Meaning.{data_of, members_of};
ghost use Rattle.hot_forms.specs.Shapes.{members_in};
ghost use Rattle.hot_functions.specs.Forms.{stands as the_stands};
ghost use Rattle.eval_words.specs.Names.{function_of as the_function_of, named_in};
ghost use Rattle.eval_words.specs.Names.{text_function_of as the_text_function_of};
ghost use Rattle.eval_words.specs.Names.{collection_function_of as the_collection_function_of};
ghost use Rattle.eval_words.specs.Names.{condition_function_of as the_condition_function_of};
ghost use Rattle.eval_words.specs.Names.{has_form_of as the_has_form_of, is_formed as the_is_formed};
ghost use Rattle.eval_words.specs.Names.{is_condition_formed as the_is_condition_formed};

use crate::Function;
use heat_value::{Member, Value};
use hot_functions::{Form, condition_form_of, form_of, has_form, lone, stands};

// The function of values that a key names; any other key is plain.
fn function_of(key: &str) -> Option<Function>
    ensures { result ≡ the_function_of key.now }
{
    if key == "get_param" {
        return Some(Function::Parameter);
    }
    if key == "get_resource" {
        return Some(Function::Resource);
    }
    if key == "get_attr" {
        return Some(Function::Attribute);
    }
    if key == "get_file" {
        return Some(Function::File);
    }
    text_function_of(key)
}

// The function of texts, else of collections and conditions.
fn text_function_of(key: &str) -> Option<Function>
    ensures { result ≡ the_text_function_of key.now }
{
    if key == "list_join" {
        return Some(Function::Join);
    }
    if key == "str_split" {
        return Some(Function::Split);
    }
    if key == "str_replace" {
        return Some(Function::Replace);
    }
    if key == "str_replace_strict" {
        return Some(Function::ReplaceStrictly);
    }
    if key == "repeat" {
        return Some(Function::Repeat);
    }
    if key == "digest" {
        return Some(Function::Digest);
    }
    collection_function_of(key)
}

// The function of collections and conditions.
fn collection_function_of(key: &str) -> Option<Function>
    ensures { result ≡ the_collection_function_of key.now }
{
    if key == "map_merge" {
        return Some(Function::MergeMaps);
    }
    if key == "map_replace" {
        return Some(Function::ReplaceInMap);
    }
    if key == "list_concat" {
        return Some(Function::Concat);
    }
    if key == "list_concat_unique" {
        return Some(Function::ConcatUnique);
    }
    if key == "filter" {
        return Some(Function::Filter);
    }
    if key == "contains" {
        return Some(Function::Contains);
    }
    if key == "if" {
        return Some(Function::If);
    }
    None
}

// The function of conditions that a key names.
fn condition_function_of(key: &str) -> Option<Function>
    ensures { result ≡ the_condition_function_of key.now }
{
    if key == "equals" {
        return Some(Function::Equals);
    }
    if key == "get_param" {
        return Some(Function::FlagParameter);
    }
    if key == "not" {
        return Some(Function::Not);
    }
    if key == "and" {
        return Some(Function::And);
    }
    if key == "or" {
        return Some(Function::Or);
    }
    if key == "contains" {
        return Some(Function::Contains);
    }
    None
}

/// The only member of an object and the function of values that its key names; none where that is no call.
pub fn function_in(members: &[Member]) -> Option<(&Member, Function)>
    ensures { option_map (λ p. (p.0.now.key, data_of p.0.now.value, p.1)) result
        ≡ named_in the_function_of (members_of members.now) }
{
    let member = lone(members)?;
    let function = function_of(member.key.as_str())?;
    Some((member, function))
}

/// The same for functions of conditions.
pub fn condition_function_in(members: &[Member]) -> Option<(&Member, Function)>
    ensures { option_map (λ p. (p.0.now.key, data_of p.0.now.value, p.1)) result
        ≡ named_in the_condition_function_of (members_of members.now) }
{
    let member = lone(members)?;
    let function = condition_function_of(member.key.as_str())?;
    Some((member, function))
}

/// Whether the argument of a function of values has its form, and no `permutations` stands in it.
pub fn is_formed(member: &Member) -> bool
    ensures { result ≡ the_is_formed member.now.key (data_of member.now.value) }
{
    has_form_of(form_of(member.key.as_str()), &member.value) && !has_permutations(&member.value)
}

/// Whether the argument of a function of conditions has its form.
pub fn is_condition_formed(member: &Member) -> bool
    ensures { result ≡ the_is_condition_formed member.now.key (data_of member.now.value) }
{
    has_form_of(condition_form_of(member.key.as_str()), &member.value)
}

// Whether an argument has the form, where there is one; else it has none.
fn has_form_of(form: Option<Form>, value: &Value) -> bool
    ensures { result ≡ the_has_form_of form (data_of value.now) }
{
    match form {
        Some(form) => has_form(form, value),
        None => false,
    }
}

// Whether an argument is an object with the key `permutations`.
fn has_permutations(value: &Value) -> bool
    ensures { result ≡ the_stands (codes "permutations") (members_in (data_of value.now)) }
{
    match value {
        Value::Fields(fields) => stands("permutations", fields.as_slice()),
        Value::Null | Value::Flag(_) | Value::Whole(_) | Value::Words(_) | Value::Items(_) => false,
    }
}
