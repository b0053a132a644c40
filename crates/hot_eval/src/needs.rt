//! The resources that a value, or a map of properties, names.
ghost use Rattle.std.specs.Prelude.{◌≡◌, ◌++◌, ◌∷◌, [], List, ℕ, IfOk, OnOk, map, option_map};
ghost use Rattle.heat_plan.specs.Order.{Rising};
ghost use Rattle.heat_value.specs.Meaning.{data_of, nodes_of, members_of};
ghost use Rattle.eval_words.specs.Needs.{AreNeeds, AreResNamesOf, references_in, references_among};
ghost use Rattle.eval_words.specs.Needs.{references_under as the_references_under};
ghost use Rattle.eval_words.specs.Needs.{own_reference, referred as the_referred, first_text as the_first_text};

use crate::sorts::{list_in, text_in};
use heat_plan::{Needs, ResName};
use heat_value::{Member, Props, Seq, Text, Value};
use hot_functions::lone;
use std::alloc::{AllocError, Global};
use std::collections::BTreeSet;

/// The names in every get_resource and get_attr anywhere in a value that a resource may have, in byte
/// order, each once.
pub fn needs_of(alloc: Global, value: &Value) -> Result<Needs, AllocError>
    ensures { IfOk result (AreNeeds (references_in (data_of value.now))) }
{
    let mut named = Vec::new(alloc);
    add_in(value, &mut named)?;
    needs_among(alloc, named.as_slice())
}

/// The same of a map of properties, which itself is no function.
pub fn needs_of_props(alloc: Global, props: &Props) -> Result<Needs, AllocError>
    ensures { IfOk result (AreNeeds (the_references_under props.now)) }
{
    let named = references_under(alloc, props)?;
    needs_among(alloc, named.as_slice())
}

/// The names in every get_resource and get_attr anywhere in a map of properties, in reading order.
pub fn references_under<'a>(alloc: Global, props: &'a Props) -> Result<Vec<&'a Text>, AllocError>
    ensures { IfOk result (λ ts. map (λ t. t.now) ts.items ≡ the_references_under props.now) }
{
    let mut named = Vec::new(alloc);
    add_under(props.as_slice(), &mut named)?;
    Ok(named)
}

// Puts the names in a value behind the last.
#[cycle(named)]
fn add_in<'a>(value: &'a Value, named: &mut Vec<&'a Text>) -> Result<(), AllocError>
    ensures { OnOk result (map (λ t. t.now) named.new.items
        ≡ map (λ t. t.now) named.old.items ++ references_in (data_of value.now)) }
{
    match value {
        Value::Items(items) => add_among(items.as_slice(), named),
        Value::Fields(fields) => {
            add_own(fields.as_slice(), named)?;
            add_under(fields.as_slice(), named)
        }
        Value::Null | Value::Flag(_) | Value::Whole(_) | Value::Words(_) => Ok(()),
    }
}

// Adds the resources that the items of a list name.
#[cycle(named)]
#[tactic(auto, using(crate::proofs::Weights::for_walks))]
fn add_among<'a>(values: &'a [Value], named: &mut Vec<&'a Text>) -> Result<(), AllocError>
    ensures { OnOk result (map (λ t. t.now) named.new.items
        ≡ map (λ t. t.now) named.old.items ++ references_among (nodes_of values.now)) }
{
    for value in values {
        add_in(value, named)?;
    }
    Ok(())
}

// Adds those that the values of an object name.
#[cycle(named)]
#[tactic(auto, using(crate::proofs::Weights::for_walks))]
fn add_under<'a>(members: &'a [Member], named: &mut Vec<&'a Text>) -> Result<(), AllocError>
    ensures { OnOk result (map (λ t. t.now) named.new.items
        ≡ map (λ t. t.now) named.old.items ++ the_references_under (members_of members.now)) }
{
    for member in members {
        add_in(&member.value, named)?;
    }
    Ok(())
}

// The name that an object refers to, if it is a reference.
fn add_own<'a>(members: &'a [Member], named: &mut Vec<&'a Text>) -> Result<(), AllocError>
    ensures { OnOk result (map (λ t. t.now) named.new.items
        ≡ map (λ t. t.now) named.old.items ++ own_reference (members_of members.now)) }
{
    let Some(member) = lone(members) else {
        return Ok(());
    };
    if let Some(name) = referred(member) {
        named.push(name)?;
    }
    Ok(())
}

/// The name that an object with this one member refers to: the argument of get_resource, or the first
/// part of get_attr's, where it is a text.
pub fn referred(member: &Member) -> Option<&Text>
    ensures { option_map (λ t. t.now) result ≡ the_referred (member.now.key, data_of member.now.value) }
{
    if member.key.as_str() == "get_resource" {
        return text_in(&member.value);
    }
    if member.key.as_str() == "get_attr" {
        return first_text(&member.value);
    }
    None
}

/// The text at the front of a list.
pub fn first_text(argument: &Value) -> Option<&Text>
    ensures { option_map (λ t. t.now) result ≡ the_first_text (data_of argument.now) }
{
    match list_in(argument) {
        Some([first, ..]) => text_in(first),
        Some([]) => None,
        None => None,
    }
}

// Of names those that a resource may have, in byte order, each once.
fn needs_among(alloc: Global, named: &[&Text]) -> Result<Needs, AllocError>
    ensures { IfOk result (AreNeeds (map (λ t. t.now) named.now)) }
{
    let mut names = BTreeSet::new(alloc);
    for name in named {
        add(alloc, name, &mut names)?;
    }
    listed(alloc, names)
}

// Puts a name into a set, where a resource may have it.
fn add(alloc: Global, name: &Text, names: &mut BTreeSet<ResName>) -> Result<(), AllocError>
    ensures { OnOk result ((named : List (List ℕ)) → AreResNamesOf named names.old.keys
        → AreResNamesOf (named ++ name.now ∷ []) names.new.keys) }
{
    if let Some(name) = ResName::read(alloc, name.as_str().as_bytes())? {
        names.insert(name)?;
    }
    Ok(())
}

// The names of a set, in byte order.
fn listed(alloc: Global, names: BTreeSet<ResName>) -> Result<Needs, AllocError>
    ensures names { IfOk result (λ n. n ≡ names.keys) }
    ensures rising { IfOk result (λ n. Rising n) }
{
    let mut all = Seq::new(alloc);
    for name in names {
        all.push(name)?;
    }
    Ok(Needs::from_rising(all))
}
