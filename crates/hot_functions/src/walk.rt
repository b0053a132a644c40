//! The walk through a value for functions whose arguments are off their form, and for names that
//! aren't there.
ghost use Rattle.std.specs.Prelude.{◌≡◌, IfOk, Some, option_map};
ghost use Rattle.heat_value.specs.Data.{fields as fields_data};
ghost use Rattle.heat_value.specs.Meaning.{data_of, nodes_of, members_of};
ghost use Rattle.hot_functions.specs.Walk.{is_parameter as the_is_parameter};
ghost use Rattle.hot_functions.specs.Walk.{unnamed_parameter as the_unnamed_parameter};
ghost use Rattle.hot_functions.specs.Walk.{first_unnamed as the_first_unnamed};
ghost use Rattle.hot_functions.specs.Walk.{names_no_parameter as the_names_no_parameter, unnamed as the_unnamed};
ghost use Rattle.hot_functions.specs.Walk.{argument_flaw as the_argument_flaw, is_barred as the_is_barred};
ghost use Rattle.hot_functions.specs.Walk.{function_flaw as the_function_flaw, text_flaw as the_text_flaw};
ghost use Rattle.hot_functions.specs.Walk.{value_flaw as the_value_flaw, items_flaw as the_items_flaw};
ghost use Rattle.hot_functions.specs.Walk.{members_flaw as the_members_flaw};

use crate::argument::has_form;
use crate::form::{Form, lone};
use crate::place::{Place, form_at, item_place, member_place};
use crate::reference::refers;
use heat_value::{Member, Props, Text, Value};
use hot_forms::{Flaw, HotCode, is_among, under_key, under_place, unless};
use std::alloc::{AllocError, Global};

// The parameters that every template has.
const PSEUDO_PARAMETERS: [&str; 3] = ["OS::stack_name", "OS::project_id", "OS::stack_id"];

/// The first of H22 and H24 in a value that is read so, among these parameters and conditions.
#[cycle(walk)]
pub fn value_flaw(
    alloc: Global,
    params: &Props,
    conds: &Props,
    place: Place,
    value: &Value,
) -> Result<Option<Flaw>, AllocError>
    ensures { IfOk result (λ o. o ≡ the_value_flaw params.now conds.now place (data_of value.now)) }
{
    match value {
        Value::Words(words) => Ok(text_flaw(alloc, conds, place, words)),
        Value::Items(items) => items_flaw(alloc, params, conds, place, items.as_slice()),
        Value::Fields(fields) => fields_flaw(alloc, params, conds, place, fields),
        Value::Null | Value::Flag(_) | Value::Whole(_) => Ok(None),
    }
}

// The first in a list.
#[cycle(walk)]
#[tactic(auto, using(crate::proofs::Weights::for_walks))]
fn items_flaw(
    alloc: Global,
    params: &Props,
    conds: &Props,
    place: Place,
    values: &[Value],
) -> Result<Option<Flaw>, AllocError>
    ensures { IfOk result (λ o. o
        ≡ the_items_flaw params.now conds.now place 0 (nodes_of values.now)) }
{
    for (i, value) in values.iter().enumerate() {
        let found = value_flaw(alloc, params, conds, item_place(place, i), value)?;
        let found = under_place(i, found)?;
        if found.is_some() {
            return Ok(found);
        }
    }
    Ok(None)
}

// The first of an object: its own as a function, or one in it.
#[cycle(walk)]
fn fields_flaw(
    alloc: Global,
    params: &Props,
    conds: &Props,
    place: Place,
    fields: &Props,
) -> Result<Option<Flaw>, AllocError>
    ensures { IfOk result (λ o. o
        ≡ the_value_flaw params.now conds.now place (fields_data fields.now)) }
{
    let members = fields.as_slice();
    let found = function_flaw(alloc, params, place, lone(members))?;
    if found.is_some() {
        return Ok(found);
    }
    members_flaw(
        alloc,
        params,
        conds,
        member_place(place, lone(members)),
        members,
    )
}

/// The first under an object's keys, of which each value is read so; the object itself is no function.
#[cycle(walk)]
#[tactic(auto, using(crate::proofs::Weights::for_walks))]
pub fn members_flaw(
    alloc: Global,
    params: &Props,
    conds: &Props,
    place: Place,
    members: &[Member],
) -> Result<Option<Flaw>, AllocError>
    ensures { IfOk result (λ o. o
        ≡ the_members_flaw params.now conds.now place (members_of members.now)) }
{
    for member in members {
        let found = value_flaw(alloc, params, conds, place, &member.value)?;
        let found = under_key(&member.key, found)?;
        if found.is_some() {
            return Ok(found);
        }
    }
    Ok(None)
}

// What is wrong with an object itself, of which this is the only member, if one is.
fn function_flaw(
    alloc: Global,
    params: &Props,
    place: Place,
    lone: Option<&Member>,
) -> Result<Option<Flaw>, AllocError>
    ensures { IfOk result (λ o. o ≡ the_function_flaw params.now place
        (option_map (λ m. (m.now.key, data_of m.now.value)) lone.entry)) }
{
    match lone {
        Some(member) => member_flaw(alloc, params, place, member),
        None => Ok(None),
    }
}

// What is wrong with an object whose only member is this.
fn member_flaw(
    alloc: Global,
    params: &Props,
    place: Place,
    member: &Member,
) -> Result<Option<Flaw>, AllocError>
    ensures { IfOk result (λ o. o ≡ the_function_flaw params.now place
        (Some (member.now.key, data_of member.now.value))) }
{
    let key = member.key.as_str();
    if is_barred(place, key) {
        return Ok(Some(Flaw::at_root(alloc, HotCode::H22)));
    }
    let found = argument_flaw(alloc, params, form_at(place, key), &member.value)?;
    under_key(&member.key, found)
}

// Whether a reference to a resource may not stand there.
fn is_barred(place: Place, key: &str) -> bool
    ensures { result ≡ the_is_barred place key.now }
{
    match place {
        Place::Barred => refers(key),
        Place::Open | Place::Condition | Place::Conditions => false,
        Place::Branches | Place::BarredBranches => false,
    }
}

// H22 of a form that the argument hasn't, else H24.
fn argument_flaw(
    alloc: Global,
    params: &Props,
    form: Option<Form>,
    value: &Value,
) -> Result<Option<Flaw>, AllocError>
    ensures { IfOk result (λ o. o ≡ the_argument_flaw params.now form (data_of value.now)) }
{
    let Some(form) = form else {
        return Ok(None);
    };
    if !has_form(form, value) {
        return Ok(Some(Flaw::at_root(alloc, HotCode::H22)));
    }
    unnamed(alloc, params, form, value)
}

// H24 of a function by its form.
fn unnamed(
    alloc: Global,
    params: &Props,
    form: Form,
    value: &Value,
) -> Result<Option<Flaw>, AllocError>
    ensures { IfOk result (λ o. o ≡ the_unnamed params.now form (data_of value.now)) }
{
    match form {
        Form::Parameter => names_no_parameter(alloc, params, value),
        Form::Resource | Form::Attribute | Form::File | Form::Joined => Ok(None),
        Form::Split | Form::Replaced | Form::Repeated | Form::Pair => Ok(None),
        Form::AnyList | Form::Branches | Form::Negated | Form::Combined => Ok(None),
    }
}

// H24 of the name in a get_param's argument.
fn names_no_parameter(
    alloc: Global,
    params: &Props,
    value: &Value,
) -> Result<Option<Flaw>, AllocError>
    ensures { IfOk result (λ o. o ≡ the_names_no_parameter params.now (data_of value.now)) }
{
    match value {
        Value::Words(_) => Ok(unnamed_parameter(alloc, params, value)),
        Value::Items(items) => first_unnamed(alloc, params, items.as_slice()),
        Value::Null | Value::Flag(_) | Value::Whole(_) | Value::Fields(_) => Ok(None),
    }
}

// H24 of the first of a list.
fn first_unnamed(
    alloc: Global,
    params: &Props,
    values: &[Value],
) -> Result<Option<Flaw>, AllocError>
    ensures { IfOk result (λ o. o ≡ the_first_unnamed params.now (nodes_of values.now)) }
{
    match values {
        [] => Ok(None),
        [name, ..] => under_place(0, unnamed_parameter(alloc, params, name)),
    }
}

// H24 of a text that names no parameter.
fn unnamed_parameter(alloc: Global, params: &Props, value: &Value) -> Option<Flaw>
    ensures { result ≡ the_unnamed_parameter params.now (data_of value.now) }
{
    match value {
        Value::Words(name) => unless(alloc, is_parameter(params, name), HotCode::H24),
        Value::Null | Value::Flag(_) | Value::Whole(_) | Value::Items(_) | Value::Fields(_) => None,
    }
}

// Whether a text names a parameter of the template, or a pseudo parameter.
fn is_parameter(params: &Props, name: &Text) -> bool
    ensures { result ≡ the_is_parameter params.now name.now }
{
    is_among(&PSEUDO_PARAMETERS, name.as_str()) || params.get(name).is_some()
}

// H24 of a text that stands for a condition and names none.
fn text_flaw(alloc: Global, conds: &Props, place: Place, name: &Text) -> Option<Flaw>
    ensures { result ≡ the_text_flaw conds.now place name.now }
{
    match place {
        Place::Condition => unless(alloc, conds.get(name).is_some(), HotCode::H24),
        Place::Open | Place::Barred | Place::Conditions => None,
        Place::Branches | Place::BarredBranches => None,
    }
}
