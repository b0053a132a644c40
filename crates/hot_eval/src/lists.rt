//! What the functions of lists give, and equality.
ghost use Rattle.std.specs.Prelude.{◌≡◌, ◌++◌, OnOk, IfOk, MatchBool, option_map, map};
ghost use Rattle.heat_value.specs.Data.{no_nodes, node_last};
ghost use Rattle.heat_value.specs.Meaning.{data_of, nodes_of};
ghost use Rattle.hot_eval.specs.Answers.{IsAnswer};
ghost use Rattle.hot_eval.specs.Seen.{HoldsAll};
ghost use Rattle.eval_words.specs.Lists.{list_concat as the_list_concat, list_concat_unique as the_list_concat_unique};
ghost use Rattle.eval_words.specs.Lists.{filter as the_filter, contains as the_contains, equals as the_equals};
ghost use Rattle.eval_words.specs.Lists.{concatenated as the_concatenated, new_ones as the_new_ones, without as the_without};
ghost use Rattle.eval_words.specs.Lists.{contains_in as the_contains_in, contains_text as the_contains_text};
ghost use Rattle.hot_strings.specs.Answers.{is_part};
ghost use Rattle.eval_words.specs.Sameness.{is_same as the_is_same, has as the_has};

use crate::FunctionFault;
use crate::seen::{Ordered, see, seen_of, was_seen};
use crate::sorts::{list_in, list_or_null, parts, text_in, two_of, wanted};
use heat_value::{Equals, Items, Text, TryCopy, Value};
use std::alloc::{AllocError, Global};
use std::collections::BTreeSet;

/// The items of all lists in order; none where one is no list and not null.
pub fn concatenated<'a>(
    alloc: Global,
    lists: &'a [Value],
) -> Result<Option<Vec<&'a Value>>, AllocError>
    ensures { IfOk result (λ o. option_map (λ vs. nodes_of (map (λ v. v.now) vs.items)) o
        ≡ the_concatenated (nodes_of lists.now)) }
{
    let mut all = Vec::new(alloc);
    for list in lists {
        match list_or_null(list) {
            Some(items) => add_all(&mut all, items)?,
            None => return Ok(None),
        }
    }
    Ok(Some(all))
}

// Each item behind the last.
fn add_all<'a>(all: &mut Vec<&'a Value>, items: &'a [Value]) -> Result<(), AllocError>
    ensures { OnOk result (map (λ v. v.now) all.new.items
        ≡ map (λ v. v.now) all.old.items ++ items.now) }
{
    for item in items {
        all.push(item)?;
    }
    Ok(())
}

/// list_concat: all items in order.
pub fn list_concat(alloc: Global, argument: &Value) -> Result<Value, FunctionFault>
    ensures { IsAnswer result (the_list_concat (data_of argument.now)) }
{
    let all = wanted(concatenated(alloc, parts(argument))?)?;
    Ok(Value::Items(copies_of(alloc, all.as_slice())?))
}

// A list of copies.
fn copies_of(alloc: Global, values: &[&Value]) -> Result<Items, AllocError>
    ensures { IfOk result (λ ns. ns ≡ nodes_of (map (λ v. v.now) values.now)) }
{
    let mut items = Items::new(alloc);
    for value in values {
        items.push(value.copy()?)?;
    }
    Ok(items)
}

/// list_concat_unique: each value at its first place only.
pub fn list_concat_unique(alloc: Global, argument: &Value) -> Result<Value, FunctionFault>
    ensures { IsAnswer result (the_list_concat_unique (data_of argument.now)) }
{
    let all = wanted(concatenated(alloc, parts(argument))?)?;
    Ok(Value::Items(new_ones(alloc, all.as_slice())?))
}

// Each value at its first place only.
fn new_ones(alloc: Global, values: &[&Value]) -> Result<Items, AllocError>
    ensures { IfOk result (λ ns. ns ≡ the_new_ones no_nodes (nodes_of (map (λ v. v.now) values.now))) }
{
    let mut items = Items::new(alloc);
    let mut seen = BTreeSet::new(alloc);
    for value in values {
        add_new(value, &mut seen, &mut items)?;
    }
    Ok(items)
}

// A value behind the last, unless it was seen.
fn add_new<'a>(
    value: &'a Value,
    seen: &mut BTreeSet<Ordered<'a>>,
    items: &mut Items,
) -> Result<(), AllocError>
    ensures { HoldsAll seen.old items.old → OnOk result (HoldsAll seen.new items.new
        × MatchBool (the_has (data_of value.now) items.old) (items.new ≡ items.old)
        (items.new ≡ node_last items.old (data_of value.now))) }
{
    if see(value, seen)? {
        items.push(value.copy()?)?;
    }
    Ok(())
}

/// filter: the second list without the members of the first.
pub fn filter(alloc: Global, argument: &Value) -> Result<Value, FunctionFault>
    ensures { IsAnswer result (the_filter (data_of argument.now)) }
{
    let (out, from) = wanted(two_of(parts(argument)))?;
    let out = wanted(list_in(out))?;
    let from = wanted(list_in(from))?;
    Ok(Value::Items(without(alloc, out, from)?))
}

// A list without these.
fn without<'a>(alloc: Global, out: &'a [Value], from: &'a [Value]) -> Result<Items, AllocError>
    ensures { IfOk result (λ ns. ns ≡ the_without (nodes_of out.now) (nodes_of from.now)) }
{
    let mut items = Items::new(alloc);
    let seen = seen_of(alloc, out)?;
    for item in from {
        if !was_seen(item, &seen) {
            items.push(item.copy()?)?;
        }
    }
    Ok(items)
}

/// contains: whether a list has the value, or a text has it as a part.
pub fn contains(argument: &Value) -> Result<Value, FunctionFault>
    ensures { IsAnswer result (the_contains (data_of argument.now)) }
{
    let (value, whole) = wanted(two_of(parts(argument)))?;
    contains_in(value, whole)
}

// Whether a list has the value as an item, or a text has it as a part.
fn contains_in(value: &Value, whole: &Value) -> Result<Value, FunctionFault>
    ensures { IsAnswer result (the_contains_in (data_of value.now) (data_of whole.now)) }
{
    match list_in(whole) {
        Some(items) => Ok(Value::Flag(has(value, items))),
        None => contains_text(wanted(text_in(whole))?, value),
    }
}

// Whether a text has the other as a part.
fn contains_text(text: &Text, value: &Value) -> Result<Value, FunctionFault>
    ensures { IsAnswer result (the_contains_text text.now (data_of value.now)) }
{
    let part = wanted(text_in(value))?;
    Ok(Value::Flag(has_part(text.as_str(), part.as_str())))
}

// Whether one text stands somewhere in another.
fn has_part(text: &str, part: &str) -> bool
    ensures { result ≡ is_part part.now text.now }
{
    text.contains(part)
}

/// equals: whether two values are one.
pub fn equals(argument: &Value) -> Result<Value, FunctionFault>
    ensures { IsAnswer result (the_equals (data_of argument.now)) }
{
    let (one, other) = wanted(two_of(parts(argument)))?;
    Ok(Value::Flag(are_one(one, other)))
}

// Whether a list has the value.
fn has(value: &Value, items: &[Value]) -> bool
    ensures { result ≡ the_has (data_of value.now) (nodes_of items.now) }
{
    for item in items {
        if are_one(value, item) {
            return true;
        }
    }
    false
}

// Whether two values hold the same.
fn are_one(one: &Value, other: &Value) -> bool
    ensures { result ≡ the_is_same (data_of one.now) (data_of other.now) }
{
    one.equals(other)
}
