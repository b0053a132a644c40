//! What stands in place of references to groups.
ghost use Rattle.std.specs.Prelude.{◌≡◌, ◌++◌, ◌∷◌, IfOk, IfSome, IsUtf8, option_map, option_and_then, codes};
ghost use Rattle.heat_value.specs.Data.{fields as fields_data, words as words_data, node, Rises};
ghost use Rattle.heat_value.specs.Meaning.{data_of, nodes_of, members_of};
ghost use Rattle.hot_groups.specs.References.{in_place_of as the_in_place_of, attribute_for as the_attribute_for};
ghost use Rattle.hot_groups.specs.References.{ids_for as the_ids_for, id_of as the_id_of, attr_of as the_attr_of};
ghost use Rattle.hot_groups.specs.References.{each_node, member_for as the_member_for, one_for as the_one_for};
ghost use Rattle.hot_groups.specs.References.{is_named as the_is_named, is_words as the_is_words};
ghost use Rattle.hot_groups.specs.References.{behind_front, before_dot, behind_dot};
ghost use Rattle.hot_groups.specs.References.{group_reference as the_group_reference, rewritten as the_rewritten};
ghost use Rattle.hot_groups.specs.References.{nodes_rewritten as the_nodes_rewritten};
ghost use Rattle.hot_groups.specs.References.{members_rewritten as the_members_rewritten};

use crate::listing::push_all;
use crate::paths::step_into_list;
use crate::reference::{Reference, group_reference};
use heat_value::{Items, Member, Props, Text, TryCopy, Value};
use std::alloc::{AllocError, Global};

/// What stands in place of a reference to a group with these members; none where it has no meaning.
pub(crate) fn in_place_of(
    alloc: Global,
    reference: &Reference,
    roster: &[Value],
) -> Result<Option<Value>, AllocError>
    ensures { IfOk result (λ o. option_map data_of o
        ≡ the_in_place_of (reference.now, nodes_of roster.now)) }
{
    match reference {
        Reference::Whole(_) => Ok(None),
        Reference::Part(group, attribute, path) => {
            attribute_for(alloc, group, attribute, path.as_slice(), roster)
        }
    }
}

// What stands in place of an attribute of a group.
fn attribute_for(
    alloc: Global,
    group: &Text,
    attribute: &Text,
    path: &[Value],
    roster: &[Value],
) -> Result<Option<Value>, AllocError>
    ensures { IfOk result (λ o. option_map data_of o
        ≡ the_attribute_for group.now attribute.now (nodes_of path.now) (nodes_of roster.now)) }
{
    if attribute.as_str() == "refs" {
        return ids_for(alloc, roster, path);
    }
    match behind_resource(attribute.as_str()) {
        Some(text) => member_for(alloc, group, roster, text, path),
        None => Ok(Some(Value::Items(attrs_of(alloc, attribute, path, roster)?))),
    }
}

// What stands behind `resource.` at the front of a text.
fn behind_resource(text: &str) -> Option<&str>
    ensures cases { option_map (λ x. x.now) result ≡ behind_front (codes "resource.") text.now }
    ensures utf8 { IfSome result (λ x. IsUtf8 x.now) }
{
    text.strip_prefix("resource.")
}

// ---- the members' ids

// `refs`: the members' ids, or that of the member with the number behind it.
fn ids_for(alloc: Global, roster: &[Value], path: &[Value]) -> Result<Option<Value>, AllocError>
    ensures { IfOk result (λ o. option_map data_of o
        ≡ the_ids_for (nodes_of roster.now) (nodes_of path.now)) }
{
    match path {
        [] => Ok(Some(Value::Items(ids_of(alloc, roster)?))),
        [number] => match step_into_list(roster, number) {
            Some(name) => Ok(Some(id_of(alloc, name)?)),
            None => Ok(None),
        },
        [_, _, ..] => Ok(None),
    }
}

// get_resource of each name.
fn ids_of(alloc: Global, roster: &[Value]) -> Result<Items, AllocError>
    ensures { IfOk result (λ a. a ≡ each_node the_id_of (nodes_of roster.now)) }
{
    let mut all = Items::new(alloc);
    for name in roster {
        all.push(id_of(alloc, name)?)?;
    }
    Ok(all)
}

// get_resource of a name.
fn id_of(alloc: Global, name: &Value) -> Result<Value, AllocError>
    ensures { IfOk result (λ v. data_of v ≡ the_id_of (data_of name.now)) }
{
    let mut call = Props::new(alloc);
    call.put(Text::from_str(alloc, "get_resource")?, name.copy()?)?;
    Ok(Value::Fields(call))
}

// ---- the members' attributes

// get_attr of each name, with the attribute and the path behind it.
fn attrs_of(
    alloc: Global,
    attribute: &Text,
    path: &[Value],
    roster: &[Value],
) -> Result<Items, AllocError>
    ensures { IfOk result (λ a. a ≡ each_node
        (the_attr_of (node (words_data attribute.now) (nodes_of path.now))) (nodes_of roster.now)) }
{
    let mut all = Items::new(alloc);
    for name in roster {
        all.push(attr_of(alloc, attribute, path, name)?)?;
    }
    Ok(all)
}

// get_attr of a name, with an attribute and a path behind it.
fn attr_of(
    alloc: Global,
    attribute: &Text,
    path: &[Value],
    name: &Value,
) -> Result<Value, AllocError>
    ensures { IfOk result (λ v. data_of v
        ≡ the_attr_of (node (words_data attribute.now) (nodes_of path.now)) (data_of name.now)) }
{
    let mut call = Props::new(alloc);
    call.put(
        Text::from_str(alloc, "get_attr")?,
        Value::Items(parts_of(alloc, attribute, path, name)?),
    )?;
    Ok(Value::Fields(call))
}

// The name, the attribute and the path as one list.
fn parts_of(
    alloc: Global,
    attribute: &Text,
    path: &[Value],
    name: &Value,
) -> Result<Items, AllocError>
    ensures { IfOk result (λ a. a
        ≡ node (data_of name.now) (node (words_data attribute.now) (nodes_of path.now))) }
{
    let mut parts = Items::new(alloc);
    parts.push(name.copy()?)?;
    parts.push(Value::Words(attribute.copy()?))?;
    push_all(&mut parts, path)?;
    Ok(parts)
}

// ---- one member

// `resource.k` and `resource.k.a`, by the text behind `resource.`; none where no member has the number.
fn member_for(
    alloc: Global,
    group: &Text,
    roster: &[Value],
    text: &str,
    path: &[Value],
) -> Result<Option<Value>, AllocError>
    requires { IsUtf8 text.now }
    ensures { IfOk result (λ o. option_map data_of o
        ≡ the_member_for group.now (nodes_of roster.now) text.now (nodes_of path.now)) }
{
    let (number, attribute) = cut_at_dot(text);
    let name = dotted(alloc, group, number)?;
    if !is_named(&name, roster) {
        return Ok(None);
    }
    one_for(alloc, &Value::Words(name), attribute, path)
}

// A text in front of its first dot, and behind it, where it has one.
fn cut_at_dot(text: &str) -> (&str, Option<&str>)
    ensures before { result.0.now ≡ before_dot text.now }
    ensures behind { option_map (λ x. x.now) result.1 ≡ behind_dot text.now }
{
    match text.split_once('.') {
        Some((before, behind)) => (before, Some(behind)),
        None => (text, None),
    }
}

// A group's name, a dot and a text.
fn dotted(alloc: Global, group: &Text, text: &str) -> Result<Text, AllocError>
    ensures { IfOk result (λ t. t ≡ group.now ++ 46 ∷ text.now) }
{
    let mut name = String::from_str(alloc, group.as_str())?;
    name.push_str(".")?;
    name.push_str(text)?;
    Ok(Text::from_string(name))
}

// Whether a text is one of these.
fn is_named(name: &Text, roster: &[Value]) -> bool
    ensures { result ≡ the_is_named name.now (nodes_of roster.now) }
{
    for value in roster {
        if is_words(name, value) {
            return true;
        }
    }
    false
}

// Whether a value is this text.
fn is_words(name: &Text, value: &Value) -> bool
    ensures { result ≡ the_is_words name.now (data_of value.now) }
{
    match value {
        Value::Words(words) => words.as_str() == name.as_str(),
        Value::Null | Value::Flag(_) | Value::Whole(_) | Value::Items(_) | Value::Fields(_) => {
            false
        }
    }
}

// One member's id, or its attribute at the path; an id has no path.
fn one_for(
    alloc: Global,
    name: &Value,
    attribute: Option<&str>,
    path: &[Value],
) -> Result<Option<Value>, AllocError>
    ensures { IfOk result (λ o. option_map data_of o ≡ the_one_for (data_of name.now)
        (option_map (λ x. x.now) attribute.entry) (nodes_of path.now)) }
{
    match attribute {
        Some(attribute) => {
            let attribute = Text::from_str(alloc, attribute)?;
            Ok(Some(attr_of(alloc, &attribute, path, name)?))
        }
        None => match path {
            [] => Ok(Some(id_of(alloc, name)?)),
            [_, ..] => Ok(None),
        },
    }
}

// ---- values

/// A value with each reference to a group rewritten.
#[cycle(rewriting)]
pub(crate) fn rewritten(alloc: Global, groups: &Props, value: &Value) -> Result<Value, AllocError>
    ensures { IfOk result (λ v. data_of v ≡ the_rewritten groups.now (data_of value.now)) }
{
    match value {
        Value::Items(items) => Ok(Value::Items(nodes_rewritten(alloc, groups, items.as_slice())?)),
        Value::Fields(fields) => object_rewritten(alloc, groups, fields),
        Value::Null | Value::Flag(_) | Value::Whole(_) | Value::Words(_) => value.copy(),
    }
}

// An object: what stands in place of it as a reference to a group, or else its values rewritten.
#[cycle(rewriting)]
fn object_rewritten(alloc: Global, groups: &Props, fields: &Props) -> Result<Value, AllocError>
    ensures { IfOk result (λ v. data_of v ≡ the_rewritten groups.now (fields_data fields.now)) }
{
    match replacement(alloc, groups, fields.as_slice())? {
        Some(value) => Ok(value),
        None => Ok(Value::Fields(members_rewritten(alloc, groups, fields.as_slice())?)),
    }
}

// What stands in place of an object, where it is a reference to a group that has a meaning.
fn replacement(
    alloc: Global,
    groups: &Props,
    members: &[Member],
) -> Result<Option<Value>, AllocError>
    ensures { IfOk result (λ o. option_map data_of o
        ≡ option_and_then the_in_place_of (the_group_reference groups.now (members_of members.now))) }
{
    match group_reference(alloc, groups, members)? {
        Some((reference, roster)) => in_place_of(alloc, &reference, roster),
        None => Ok(None),
    }
}

// The values of a list.
#[cycle(rewriting)]
#[tactic(auto, using(crate::proofs::Weights::for_walks))]
fn nodes_rewritten(alloc: Global, groups: &Props, values: &[Value]) -> Result<Items, AllocError>
    ensures { IfOk result (λ a. a ≡ the_nodes_rewritten groups.now (nodes_of values.now)) }
{
    let mut all = Items::new(alloc);
    for value in values {
        all.push(rewritten(alloc, groups, value)?)?;
    }
    Ok(all)
}

/// The values of an object that is itself no function.
#[cycle(rewriting)]
#[tactic(auto, using(crate::proofs::Weights::for_walks))]
pub(crate) fn members_rewritten(
    alloc: Global,
    groups: &Props,
    members: &[Member],
) -> Result<Props, AllocError>
    requires { Rises (members_of members.now) }
    ensures { IfOk result (λ p. p ≡ the_members_rewritten groups.now (members_of members.now)) }
{
    let mut all = Props::new(alloc);
    for member in members {
        all.put(member.key.copy()?, rewritten(alloc, groups, &member.value)?)?;
    }
    Ok(all)
}
