//! What functions read: parameters, facts of resources, files, and the values at a path in them.
ghost use Rattle.std.specs.Prelude.{◌≡◌, IfOk, IfErr, MatchOption, Ok, Some, None, option_map};
ghost use Rattle.std.specs.Prelude.{option_and_then, unwrap_or};
ghost use Rattle.heat_value.specs.Data.{lookup, null};
ghost use Rattle.heat_value.specs.Meaning.{data_of, nodes_of};
ghost use Rattle.hot_eval.specs.Answers.{IsAnswer, IsOwnFault};
ghost use Rattle.eval_words.specs.Lookups.{parameter as the_parameter, resource as the_resource};
ghost use Rattle.eval_words.specs.Lookups.{attribute as the_attribute, file as the_file, walked as the_walked};
ghost use Rattle.eval_words.specs.Lookups.{parameter_at as the_parameter_at, attributes_at as the_attributes_at};
ghost use Rattle.eval_words.specs.Lookups.{attribute_of as the_attribute_of, attribute_at as the_attribute_at};
ghost use Rattle.eval_words.specs.Lookups.{step_into as the_step_into, step_into_list as the_step_into_list};
ghost use Rattle.eval_words.specs.Lookups.{place_in as the_place_in};
ghost use Rattle.eval_words.specs.Scenes.{scene_data};
ghost use Rattle.eval_words.specs.Sorts.{text_in as the_text_in};

use crate::sorts::{first_and_rest, parts, text_in, wanted};
use crate::{FaultCode, FunctionFault, Scene};
use heat_plan::Facts;
use heat_value::{Text, TryCopy, Value, text_of};
use std::alloc::{AllocError, Global};

/// get_param: the bound value at the path, empty text where it is missing.
pub fn parameter(alloc: Global, scene: &Scene, argument: &Value) -> Result<Value, FunctionFault>
    ensures answer { IsAnswer result (the_parameter (scene_data scene.now) (data_of argument.now)) }
    ensures fault { IfErr result (λ e.
        IsOwnFault e (the_parameter (scene_data scene.now) (data_of argument.now))) }
{
    match argument {
        Value::Words(_) => parameter_at(alloc, scene, argument, &[]),
        Value::Items(items) => {
            let (name, path) = wanted(first_and_rest(items.as_slice()))?;
            parameter_at(alloc, scene, name, path)
        }
        Value::Null | Value::Flag(_) | Value::Whole(_) | Value::Fields(_) => {
            Err(FunctionFault::Wrong(FaultCode::F01))
        }
    }
}

// What stands in a parameter's value at a path; the empty text where nothing does.
fn parameter_at(
    alloc: Global,
    scene: &Scene,
    name: &Value,
    path: &[Value],
) -> Result<Value, FunctionFault>
    ensures answer { IsAnswer result
        (the_parameter_at (scene_data scene.now) (data_of name.now, nodes_of path.now)) }
    ensures fault { IfErr result (λ e. IsOwnFault e
        (the_parameter_at (scene_data scene.now) (data_of name.now, nodes_of path.now))) }
{
    let name = wanted(text_in(name))?;
    let bound = wanted(scene.params.get(name))?;
    match walked(alloc, bound, path)? {
        Some(value) => Ok(value.copy()?),
        None => Ok(Value::Words(Text::from_str(alloc, "")?)),
    }
}

/// get_resource: the id, or null where the resource is absent.
pub fn resource(scene: &Scene, argument: &Value) -> Result<Value, FunctionFault>
    ensures { IsAnswer result (the_resource (scene_data scene.now) (data_of argument.now)) }
{
    match scene.facts_of(wanted(text_in(argument))?) {
        Some(facts) => Ok(Value::Words(facts.id.copy()?)),
        None => Ok(Value::Null),
    }
}

/// get_attr: what the resource has there; null where it is missing or the resource is absent.
pub fn attribute(alloc: Global, scene: &Scene, argument: &Value) -> Result<Value, FunctionFault>
    ensures { IsAnswer result (the_attribute (scene_data scene.now) (data_of argument.now)) }
{
    let (name, rest) = wanted(first_and_rest(parts(argument)))?;
    attribute_of(alloc, scene, name, rest)
}

// What is read of a resource's attributes; null where the resource has no facts.
fn attribute_of(
    alloc: Global,
    scene: &Scene,
    name: &Value,
    rest: &[Value],
) -> Result<Value, FunctionFault>
    ensures { IsAnswer result
        (the_attribute_of (scene_data scene.now) (data_of name.now, nodes_of rest.now)) }
{
    match scene.facts_of(wanted(text_in(name))?) {
        Some(facts) => attributes_at(alloc, facts, rest),
        None => Ok(Value::Null),
    }
}

// All attributes, or the one at the path; null where it is missing.
fn attributes_at(alloc: Global, facts: &Facts, rest: &[Value]) -> Result<Value, FunctionFault>
    ensures { IsAnswer result
        (Ok (unwrap_or (the_attributes_at (nodes_of rest.now) facts.now) null)) }
{
    match rest {
        [] => Ok(Value::Fields(facts.attrs.as_props().copy()?)),
        [name, path @ ..] => attribute_at(alloc, facts, name, path),
    }
}

// What stands in an attribute at a path; null where there is no such attribute.
fn attribute_at(
    alloc: Global,
    facts: &Facts,
    name: &Value,
    path: &[Value],
) -> Result<Value, FunctionFault>
    ensures { IsAnswer result
        (Ok (unwrap_or (the_attribute_at (data_of name.now, nodes_of path.now) facts.now) null)) }
{
    match attribute_named(facts, name) {
        Some(whole) => value_at(alloc, whole, path),
        None => Ok(Value::Null),
    }
}

// The attribute that a text names.
fn attribute_named<'a>(facts: &'a Facts, name: &Value) -> Option<&'a Value>
    ensures { option_map (λ v. data_of v.now) result
        ≡ option_and_then (λ s. lookup s facts.now.attrs) (the_text_in (data_of name.now)) }
{
    match text_in(name) {
        Some(name) => facts.attrs.as_props().get(name),
        None => None,
    }
}

// The value at a path; null where it is missing.
fn value_at(alloc: Global, whole: &Value, path: &[Value]) -> Result<Value, FunctionFault>
    ensures { IsAnswer result
        (Ok (unwrap_or (the_walked (nodes_of path.now) (data_of whole.now)) null)) }
{
    match walked(alloc, whole, path)? {
        Some(value) => Ok(value.copy()?),
        None => Ok(Value::Null),
    }
}

/// get_file: the file's text.
pub fn file(scene: &Scene, argument: &Value) -> Result<Value, FunctionFault>
    ensures { IsAnswer result (the_file (scene_data scene.now) (data_of argument.now)) }
{
    let name = wanted(text_in(argument))?;
    let content = wanted(scene.file_named(name))?;
    Ok(Value::Words(content.copy()?))
}

// What stands at a path.
fn walked<'a>(
    alloc: Global,
    value: &'a Value,
    path: &[Value],
) -> Result<Option<&'a Value>, AllocError>
    ensures { IfOk result (λ o. option_map (λ v. data_of v.now) o
        ≡ the_walked (nodes_of path.now) (data_of value.now)) }
{
    let mut at = value;
    for step in path {
        match step_into(alloc, at, step)? {
            Some(inner) => at = inner,
            None => return Ok(None),
        }
    }
    Ok(Some(at))
}

// An object is walked by the text of a key, a list by a whole number.
fn step_into<'a>(
    alloc: Global,
    value: &'a Value,
    step: &Value,
) -> Result<Option<&'a Value>, AllocError>
    ensures { IfOk result (λ o. option_map (λ v. data_of v.now) o
        ≡ the_step_into (data_of value.now) (data_of step.now)) }
{
    match value {
        Value::Fields(fields) => Ok(fields.get(&text_of(alloc, step)?)),
        Value::Items(items) => Ok(step_into_list(items.as_slice(), step)),
        Value::Null | Value::Flag(_) | Value::Whole(_) | Value::Words(_) => Ok(None),
    }
}

// The item at the place that a step tells.
fn step_into_list<'a>(values: &'a [Value], step: &Value) -> Option<&'a Value>
    ensures { option_map (λ v. data_of v.now) result
        ≡ the_step_into_list (nodes_of values.now) (data_of step.now) }
{
    match place_in(step) {
        Some(at) => values.get(at),
        None => None,
    }
}

// The place that a step names.
fn place_in(step: &Value) -> Option<usize>
    ensures { MatchOption result (the_place_in (data_of step.now) ≡ None)
        (λ at. the_place_in (data_of step.now) ≡ Some at) }
{
    match step {
        Value::Whole(whole) => usize::try_from(*whole).ok(),
        _ => None,
    }
}
