//! The functions by their names, and the forms that their arguments have.
ghost use Rattle.std.specs.Prelude.{◌≡◌, option_map};
ghost use Rattle.heat_value.specs.Meaning.{data_of, members_of};
ghost use Rattle.hot_functions.specs.Forms.{lone as the_lone, form_of as the_form_of};
ghost use Rattle.hot_functions.specs.Forms.{text_form_of as the_text_form_of};
ghost use Rattle.hot_functions.specs.Forms.{collection_form_of as the_collection_form_of};
ghost use Rattle.hot_functions.specs.Forms.{condition_form_of as the_condition_form_of};

use heat_value::Member;

/// What a function's argument has to be.
#[derive(Clone, Copy, Debug, PartialEq, Eq)]
pub enum Form {
    /// A literal name, or a list that begins with one.
    Parameter,
    /// A literal name.
    Resource,
    /// A list of a literal name and, if wanted, a literal attribute and a path.
    Attribute,
    /// A literal text.
    File,
    /// A list of a delimiter and one or more parts.
    Joined,
    /// A list of two or three.
    Split,
    /// An object of `template` and `params`.
    Replaced,
    /// An object of `template` and `for_each`, an object, with `permutations` or without.
    Repeated,
    /// A list of two.
    Pair,
    /// A list of any length.
    AnyList,
    /// A list of a condition and one or two parts.
    Branches,
    /// A condition.
    Negated,
    /// A list of two conditions or more.
    Combined,
}

/// The only member of an object that has just one.
pub fn lone(members: &[Member]) -> Option<&Member>
    ensures { option_map (λ m. (m.now.key, data_of m.now.value)) result ≡ the_lone (members_of members.now) }
{
    match members {
        [] => None,
        [member] => Some(member),
        [_, _, ..] => None,
    }
}

/// The form of a function that stands in values.
pub fn form_of(key: &str) -> Option<Form>
    ensures { result ≡ the_form_of key.now }
{
    if key == "get_param" {
        return Some(Form::Parameter);
    }
    if key == "get_resource" {
        return Some(Form::Resource);
    }
    if key == "get_attr" {
        return Some(Form::Attribute);
    }
    if key == "get_file" {
        return Some(Form::File);
    }
    text_form_of(key)
}

// The form of a function of texts, else of collections and conditions.
fn text_form_of(key: &str) -> Option<Form>
    ensures { result ≡ the_text_form_of key.now }
{
    if key == "list_join" {
        return Some(Form::Joined);
    }
    if key == "str_split" {
        return Some(Form::Split);
    }
    if key == "str_replace" {
        return Some(Form::Replaced);
    }
    if key == "str_replace_strict" {
        return Some(Form::Replaced);
    }
    if key == "repeat" {
        return Some(Form::Repeated);
    }
    if key == "digest" {
        return Some(Form::Pair);
    }
    collection_form_of(key)
}

// The form of a function of collections and conditions.
fn collection_form_of(key: &str) -> Option<Form>
    ensures { result ≡ the_collection_form_of key.now }
{
    if key == "map_merge" {
        return Some(Form::AnyList);
    }
    if key == "map_replace" {
        return Some(Form::Pair);
    }
    if key == "list_concat" {
        return Some(Form::AnyList);
    }
    if key == "list_concat_unique" {
        return Some(Form::AnyList);
    }
    if key == "filter" {
        return Some(Form::Pair);
    }
    if key == "contains" {
        return Some(Form::Pair);
    }
    if key == "if" {
        return Some(Form::Branches);
    }
    None
}

/// The form of a function that makes a condition.
pub fn condition_form_of(key: &str) -> Option<Form>
    ensures { result ≡ the_condition_form_of key.now }
{
    if key == "equals" {
        return Some(Form::Pair);
    }
    if key == "get_param" {
        return Some(Form::Parameter);
    }
    if key == "not" {
        return Some(Form::Negated);
    }
    if key == "and" {
        return Some(Form::Combined);
    }
    if key == "or" {
        return Some(Form::Combined);
    }
    if key == "contains" {
        return Some(Form::Pair);
    }
    None
}
