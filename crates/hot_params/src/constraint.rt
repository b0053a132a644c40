//! The constraints of a parameter, by their keys.
ghost use Rattle.std.specs.Prelude.{◌≡◌, IfOk, map, Some, pos};
ghost use Rattle.std.specs.List.{list_all};
ghost use Rattle.heat_value.specs.Data.{no_nodes};
ghost use Rattle.heat_value.specs.Meaning.{data_of};
ghost use Rattle.hot_forms.specs.Parameters.{nodes_in};
ghost use Rattle.hot_forms.specs.Shapes.{members_in};
ghost use Rattle.hot_tree.specs.Constraints.{asked_in};
ghost use Rattle.hot_params.specs.Codes.{unless as the_unless};
ghost use Rattle.hot_params.specs.declared.code.ParamCode.TheVariants.{P04};
ghost use Rattle.hot_params.specs.Rules.{Gives, GivesFor, IsAllowing, asked_of, texts_in, texts_among};
ghost use Rattle.hot_params.specs.Rules.{text_in as the_text_in};
ghost use Rattle.hot_params.specs.Sizes.{is_within as the_is_within, is_remainder as the_is_remainder};
ghost use Rattle.hot_params.specs.Sizes.{size_of as the_size_of, of_whole};
ghost use Rattle.type_catalog.specs.Names.{is_listed};
ghost use Rattle.type_catalog.specs.Registries.{test_named};

use crate::ParamCode;
use crate::pattern::{pattern_code, text_in};
use crate::size::{is_remainder, is_within, size_of};
use crate::values::is_allowed;
use heat_value::{Items, Props, Text, Value};
use hot_forms::{Rule, Sort, rule_of};
use std::alloc::{AllocError, Global};
use type_catalog::{Custom, Registry};

/// What an entry of `constraints` gives for a value of the type: nothing where it is met, else a code.
pub fn entry_code(
    alloc: Global,
    registry: &Registry,
    sort: Option<Sort>,
    entry: &Value,
    value: &Value,
) -> Result<Option<ParamCode>, AllocError>
    ensures { IfOk result (λ c. GivesFor (map (λ t. t.test) registry.now.customs) sort
        (asked_in (members_in (data_of entry.now))) (data_of value.now) c) }
{
    match entry {
        Value::Fields(fields) => parts_code(alloc, registry, sort, fields, value),
        Value::Null | Value::Flag(_) | Value::Whole(_) | Value::Words(_) | Value::Items(_) => {
            Ok(None)
        }
    }
}

// The same of its members: the first key that names a constraint, with its argument.
fn parts_code(
    alloc: Global,
    registry: &Registry,
    sort: Option<Sort>,
    fields: &Props,
    value: &Value,
) -> Result<Option<ParamCode>, AllocError>
    ensures { IfOk result (λ c. GivesFor (map (λ t. t.test) registry.now.customs) sort
        (asked_in fields.now) (data_of value.now) c) }
{
    for member in fields.as_slice() {
        if let Some(rule) = rule_of(member.key.as_str()) {
            return rule_code(alloc, registry, sort, rule, &member.value, value);
        }
    }
    Ok(None)
}

// What a constraint gives.
fn rule_code(
    alloc: Global,
    registry: &Registry,
    sort: Option<Sort>,
    rule: Rule,
    argument: &Value,
    value: &Value,
) -> Result<Option<ParamCode>, AllocError>
    ensures { IfOk result (λ c. Gives (map (λ t. t.test) registry.now.customs) sort rule
        (data_of argument.now) (data_of value.now) c) }
{
    match rule {
        Rule::Length => length_code(alloc, argument, value),
        Rule::Range => range_code(alloc, argument, value),
        Rule::Modulo => modulo_code(alloc, argument, value),
        Rule::Values => values_code(alloc, sort, argument, value),
        Rule::Pattern => pattern_code(alloc, text_in(argument), value),
        Rule::Custom => custom_code(alloc, registry, text_in(argument), value),
    }
}

// P04, unless this holds.
fn unless(holds: bool) -> Option<ParamCode>
    ensures { result ≡ the_unless holds P04 }
{
    if holds { None } else { Some(ParamCode::P04) }
}

// P04 where the value is shorter or longer than the bounds allow.
fn length_code(
    alloc: Global,
    argument: &Value,
    value: &Value,
) -> Result<Option<ParamCode>, AllocError>
    ensures { IfOk result (λ c. c ≡ the_unless
        (the_is_within (members_in (data_of argument.now)) (pos (the_size_of (data_of value.now)))) P04) }
{
    Ok(unless(bounds_hold(alloc, argument, size_of(value) as i128)?))
}

// P04 where the value isn't a whole number within the bounds.
fn range_code(
    alloc: Global,
    argument: &Value,
    value: &Value,
) -> Result<Option<ParamCode>, AllocError>
    ensures { IfOk result (λ c. c ≡ the_unless
        (of_whole (the_is_within (members_in (data_of argument.now))) (data_of value.now)) P04) }
{
    match value {
        Value::Whole(whole) => Ok(unless(bounds_hold(alloc, argument, i128::from(*whole))?)),
        Value::Null | Value::Flag(_) | Value::Words(_) | Value::Items(_) | Value::Fields(_) => {
            Ok(unless(false))
        }
    }
}

// Whether a number lies within the bounds of an argument.
fn bounds_hold(alloc: Global, argument: &Value, number: i128) -> Result<bool, AllocError>
    ensures { IfOk result (λ b. b ≡ the_is_within (members_in (data_of argument.now)) number) }
{
    match argument {
        Value::Fields(bounds) => is_within(alloc, bounds, number),
        Value::Null | Value::Flag(_) | Value::Whole(_) | Value::Words(_) | Value::Items(_) => {
            Ok(true)
        }
    }
}

// P04 where the value isn't a whole number that leaves the offset.
fn modulo_code(
    alloc: Global,
    argument: &Value,
    value: &Value,
) -> Result<Option<ParamCode>, AllocError>
    ensures { IfOk result (λ c. c ≡ the_unless
        (of_whole (the_is_remainder (members_in (data_of argument.now))) (data_of value.now)) P04) }
{
    match (argument, value) {
        (Value::Fields(parts), Value::Whole(whole)) => {
            Ok(unless(is_remainder(alloc, parts, *whole)?))
        }
        _ => Ok(unless(false)),
    }
}

// P04 where the value isn't one that is allowed.
fn values_code(
    alloc: Global,
    sort: Option<Sort>,
    argument: &Value,
    value: &Value,
) -> Result<Option<ParamCode>, AllocError>
    ensures { IfOk result (λ c.
        IsAllowing sort (nodes_in (Some (data_of argument.now))) (data_of value.now) c) }
{
    let none = Items::new(alloc);
    if is_allowed(alloc, sort, items_of(argument, &none), value)? {
        return Ok(None);
    }
    Ok(Some(ParamCode::P04))
}

// The items of a list; any other value has none, as `none` has.
fn items_of<'a>(value: &'a Value, none: &'a Items) -> &'a Items
    requires { none.now ≡ no_nodes }
    ensures { result.now ≡ nodes_in (Some (data_of value.now)) }
{
    match value {
        Value::Items(items) => items,
        Value::Null | Value::Flag(_) | Value::Whole(_) | Value::Words(_) | Value::Fields(_) => none,
    }
}

// P05 where no test has the name; else P04 where it isn't true of a text of the value.
fn custom_code(
    alloc: Global,
    registry: &Registry,
    name: &str,
    value: &Value,
) -> Result<Option<ParamCode>, AllocError>
    ensures { IfOk result (λ c. c
        ≡ asked_of (test_named name.now (map (λ t. t.test) registry.now.customs)) (texts_in (data_of value.now))) }
{
    match registry.custom(&Text::from_str(alloc, name)?) {
        Some(custom) => Ok(unless(are_true(alloc, custom, value)?)),
        None => Ok(Some(ParamCode::P05)),
    }
}

// Whether a test is true of each text of a value.
fn are_true(alloc: Global, custom: &Custom, value: &Value) -> Result<bool, AllocError>
    ensures { IfOk result (λ b. b
        ≡ list_all (is_listed custom.now.test.allowed) (texts_in (data_of value.now))) }
{
    match value {
        Value::Words(words) => Ok(custom.ask(words)),
        Value::Items(items) => items_are_true(alloc, custom, items),
        Value::Null | Value::Flag(_) | Value::Whole(_) | Value::Fields(_) => Ok(true),
    }
}

// Whether the registered test is true of every item's text.
fn items_are_true(alloc: Global, custom: &Custom, items: &Items) -> Result<bool, AllocError>
    ensures { IfOk result (λ b. b ≡ list_all (is_listed custom.now.test.allowed) (texts_among items.now)) }
{
    for value in items.as_slice() {
        if !custom.ask(&Text::from_str(alloc, text_in(value))?) {
            return Ok(false);
        }
    }
    Ok(true)
}
