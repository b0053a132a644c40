//! What a condition expression is, without a look into it.
ghost use Rattle.std.specs.Prelude.{◌≡◌, option_map};
ghost use Rattle.heat_value.specs.Data.{fields as fields_data};
ghost use Rattle.heat_value.specs.Meaning.{data_of, nodes_of, members_of};
ghost use Rattle.hot_functions.specs.Forms.{lone as the_lone, is_condition_key as the_is_condition_key};
ghost use Rattle.hot_functions.specs.Forms.{is_condition as the_is_condition, are_conditions as the_are_conditions};

use crate::form::{condition_form_of, lone};
use heat_value::{Member, Value};

/// Whether a value is a flag, a text, or an object with one key, that of a condition's function.
pub fn is_condition(value: &Value) -> bool
    ensures { result ≡ the_is_condition (data_of value.now) }
{
    match value {
        Value::Flag(_) | Value::Words(_) => true,
        Value::Fields(fields) => makes_condition(fields.as_slice()),
        Value::Null | Value::Whole(_) | Value::Items(_) => false,
    }
}

/// Whether an object with these members is one.
pub(crate) fn makes_condition(members: &[Member]) -> bool
    ensures { result ≡ the_is_condition (fields_data (members_of members.now)) }
{
    match lone(members) {
        Some(member) => condition_form_of(member.key.as_str()).is_some(),
        None => false,
    }
}

/// Whether each is one.
pub(crate) fn are_conditions(values: &[Value]) -> bool
    ensures { result ≡ the_are_conditions (nodes_of values.now) }
{
    for value in values {
        if !is_condition(value) {
            return false;
        }
    }
    true
}
