//! Whether an argument has a function's form.
ghost use Rattle.std.specs.Prelude.{◌≡◌, ◌&&◌, map, bytes_eq};
ghost use Rattle.heat_value.specs.Meaning.{data_of, nodes_of, members_of};
ghost use Rattle.hot_forms.specs.Checks.{is_among as the_is_among};
ghost use Rattle.hot_forms.specs.Shapes.{is_text as the_is_text, is_object as the_is_object};
ghost use Rattle.hot_functions.specs.Forms.{count_of as the_count_of, begins_with_text as the_begins_with_text};
ghost use Rattle.hot_functions.specs.Forms.{may_begin_with_text as the_may_begin_with_text};
ghost use Rattle.hot_functions.specs.Forms.{names_attribute as the_names_attribute};
ghost use Rattle.hot_functions.specs.Forms.{begins_with_condition as the_begins_with_condition};
ghost use Rattle.hot_functions.specs.Forms.{lists_form as the_lists_form, names_form as the_names_form};
ghost use Rattle.hot_functions.specs.Forms.{are_among as the_are_among, stands as the_stands};
ghost use Rattle.hot_functions.specs.Forms.{holds_object as the_holds_object, is_replacement as the_is_replacement};
ghost use Rattle.hot_functions.specs.Forms.{is_repetition as the_is_repetition, maps_form as the_maps_form};
ghost use Rattle.hot_functions.specs.Forms.{flags_form as the_flags_form, has_form as the_has_form};

use crate::condition::{are_conditions, is_condition, makes_condition};
use crate::form::Form;
use heat_value::{Member, Value};
use hot_forms::{is_among, is_object, is_text};

/// Whether an argument has this form.
pub fn has_form(form: Form, value: &Value) -> bool
    ensures { result ≡ the_has_form form (data_of value.now) }
{
    match value {
        Value::Null | Value::Whole(_) => false,
        Value::Flag(_) => flags_form(form),
        Value::Words(_) => names_form(form),
        Value::Items(items) => lists_form(form, items.as_slice()),
        Value::Fields(fields) => maps_form(form, fields.as_slice()),
    }
}

// Whether a flag is right.
fn flags_form(form: Form) -> bool
    ensures { result ≡ the_flags_form form }
{
    matches!(form, Form::Negated)
}

// Whether a text is right.
fn names_form(form: Form) -> bool
    ensures { result ≡ the_names_form form }
{
    matches!(
        form,
        Form::Parameter | Form::Resource | Form::File | Form::Negated
    )
}

// Whether the parts of a list are right.
fn lists_form(form: Form, values: &[Value]) -> bool
    ensures { result ≡ the_lists_form form (nodes_of values.now) }
{
    match form {
        Form::Parameter => begins_with_text(values),
        Form::Attribute => names_attribute(values),
        Form::Joined => 2 <= count_of(values),
        Form::Split => 2 <= count_of(values) && count_of(values) <= 3,
        Form::Pair => count_of(values) == 2,
        Form::AnyList => true,
        Form::Branches => {
            2 <= count_of(values) && count_of(values) <= 3 && begins_with_condition(values)
        }
        Form::Combined => 2 <= count_of(values) && are_conditions(values),
        Form::Resource | Form::File | Form::Replaced | Form::Repeated | Form::Negated => false,
    }
}

// How many items there are.
fn count_of(values: &[Value]) -> usize
    ensures { result ≡ the_count_of (nodes_of values.now) }
{
    values.len()
}

// Whether the first item is a text.
fn begins_with_text(values: &[Value]) -> bool
    ensures { result ≡ the_begins_with_text (nodes_of values.now) }
{
    match values {
        [] => false,
        [first, ..] => is_text(first),
    }
}

// A literal name, and behind it an attribute that is literal too, if there is one.
fn names_attribute(values: &[Value]) -> bool
    ensures { result ≡ the_names_attribute (nodes_of values.now) }
{
    match values {
        [] => false,
        [name] => is_text(name),
        [name, attribute, ..] => are_texts(name, attribute),
    }
}

// Whether both are texts: a resource's name and an attribute's.
fn are_texts(name: &Value, attribute: &Value) -> bool
    ensures { result ≡ (the_is_text (data_of name.now) && the_is_text (data_of attribute.now)) }
{
    is_text(name) && is_text(attribute)
}

// Whether the first item may be a condition.
fn begins_with_condition(values: &[Value]) -> bool
    ensures { result ≡ the_begins_with_condition (nodes_of values.now) }
{
    match values {
        [] => false,
        [first, ..] => is_condition(first),
    }
}

// Whether the parts of an object are right.
fn maps_form(form: Form, members: &[Member]) -> bool
    ensures { result ≡ the_maps_form form (members_of members.now) }
{
    match form {
        Form::Replaced => is_replacement(members),
        Form::Repeated => is_repetition(members),
        Form::Negated => makes_condition(members),
        Form::Parameter | Form::Resource | Form::Attribute | Form::File => false,
        Form::Joined | Form::Split | Form::Pair | Form::AnyList => false,
        Form::Branches | Form::Combined => false,
    }
}

// Just `template` and `params`.
fn is_replacement(members: &[Member]) -> bool
    ensures { result ≡ the_is_replacement (members_of members.now) }
{
    are_among(&["params", "template"], members)
        && stands("params", members)
        && stands("template", members)
}

// `template` and `for_each`, an object; `permutations` may stand beside them.
fn is_repetition(members: &[Member]) -> bool
    ensures { result ≡ the_is_repetition (members_of members.now) }
{
    are_among(&["for_each", "permutations", "template"], members)
        && stands("template", members)
        && holds_object("for_each", members)
}

// Whether each key is one of these.
fn are_among(known: &[&str], members: &[Member]) -> bool
    ensures { result ≡ the_are_among (map (λ n. n.now) known.now) (members_of members.now) }
{
    for member in members {
        if !is_known(known, member) {
            return false;
        }
    }
    true
}

// Whether its key is one of these.
fn is_known(known: &[&str], member: &Member) -> bool
    ensures { result ≡ the_is_among (map (λ n. n.now) known.now) member.now.key }
{
    is_among(known, member.key.as_str())
}

/// Whether a key stands.
pub fn stands(key: &str, members: &[Member]) -> bool
    ensures { result ≡ the_stands key.now (members_of members.now) }
{
    for member in members {
        if is_under(key, member) {
            return true;
        }
    }
    false
}

// Whether it stands under this key.
fn is_under(key: &str, member: &Member) -> bool
    ensures { result ≡ bytes_eq member.now.key key.now }
{
    member.key.as_str() == key
}

// Whether a key stands, with an object.
fn holds_object(key: &str, members: &[Member]) -> bool
    ensures { result ≡ the_holds_object key.now (members_of members.now) }
{
    for member in members {
        if is_object_under(key, member) {
            return true;
        }
    }
    false
}

// Whether it is an object under this key.
fn is_object_under(key: &str, member: &Member) -> bool
    ensures { result ≡ (bytes_eq member.now.key key.now && the_is_object (data_of member.now.value)) }
{
    is_under(key, member) && is_object(&member.value)
}
