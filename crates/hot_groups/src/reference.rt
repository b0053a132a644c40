//! References to groups.
ghost use Rattle.std.specs.Prelude.{◌≡◌, IfOk, option_map, option_and_then};
ghost use Rattle.heat_value.specs.Meaning.{data_of, nodes_of, members_of};
ghost use Rattle.hot_groups.specs.References.{name_in, roster as the_roster, with_roster as the_with_roster};
ghost use Rattle.hot_groups.specs.References.{group_reference as the_group_reference, referred as the_referred};
ghost use Rattle.hot_groups.specs.References.{referred_by as the_referred_by, referred_behind as the_referred_behind};
ghost use Rattle.hot_groups.specs.References.{whole_in as the_whole_in};
ghost use Rattle.eval_words.specs.Sorts.{listed};

use crate::listing::copied;
use heat_value::{Items, Member, Props, Text, TryCopy, Value};
use hot_functions::lone;
use std::alloc::{AllocError, Global};

/// What a function refers to.
#[derive(Drop)]
pub(crate) enum Reference {
    /// A resource as a whole.
    Whole(Text),
    /// Of a resource, an attribute, with the path behind that.
    Part(Text, Text, Items),
}

impl Reference {
    // The resource's name.
    fn name(&self) -> &Text
        ensures { result.now ≡ name_in self.now }
    {
        match self {
            Reference::Whole(name) => name,
            Reference::Part(name, _, _) => name,
        }
    }
}

/// An object's reference to a group, with the names of the group's members.
pub(crate) fn group_reference<'a>(
    alloc: Global,
    groups: &'a Props,
    members: &[Member],
) -> Result<Option<(Reference, &'a [Value])>, AllocError>
    ensures { IfOk result (λ o. option_map (λ p. (p.0, nodes_of p.1.now)) o
        ≡ the_group_reference groups.now (members_of members.now)) }
{
    match lone(members) {
        Some(member) => Ok(with_roster(groups, referred(alloc, &member.key, &member.value)?)),
        None => Ok(None),
    }
}

// The reference with the group's members; none where it isn't to a group.
fn with_roster<'a>(
    groups: &'a Props,
    reference: Option<Reference>,
) -> Option<(Reference, &'a [Value])>
    ensures { option_map (λ p. (p.0, nodes_of p.1.now)) result
        ≡ option_and_then (the_with_roster groups.now) reference }
{
    let reference = reference?;
    let roster = roster(groups, reference.name())?;
    Some((reference, roster))
}

/// The names of a group's members, where a group has this name.
pub(crate) fn roster<'a>(groups: &'a Props, name: &Text) -> Option<&'a [Value]>
    ensures { option_map (λ vs. nodes_of vs.now) result ≡ the_roster groups.now name.now }
{
    match groups.get(name) {
        Some(Value::Items(names)) => Some(names.as_slice()),
        Some(Value::Null | Value::Flag(_) | Value::Whole(_)) => None,
        Some(Value::Words(_) | Value::Fields(_)) | None => None,
    }
}

// ---- what a function refers to

// What the one member of an object refers to.
fn referred(alloc: Global, key: &Text, value: &Value) -> Result<Option<Reference>, AllocError>
    ensures { IfOk result (λ o. o ≡ the_referred (key.now, data_of value.now)) }
{
    if key.as_str() == "get_resource" {
        return whole_in(value);
    }
    if key.as_str() == "get_attr" {
        return listed_in(alloc, value);
    }
    Ok(None)
}

// get_resource refers to a resource as a whole, by its name.
fn whole_in(value: &Value) -> Result<Option<Reference>, AllocError>
    ensures { IfOk result (λ o. o ≡ the_whole_in (data_of value.now)) }
{
    match value {
        Value::Words(name) => Ok(Some(Reference::Whole(name.copy()?))),
        Value::Null | Value::Flag(_) | Value::Whole(_) | Value::Items(_) | Value::Fields(_) => {
            Ok(None)
        }
    }
}

// get_attr refers by a list.
fn listed_in(alloc: Global, value: &Value) -> Result<Option<Reference>, AllocError>
    ensures { IfOk result (λ o. o ≡ the_referred_by (listed (data_of value.now))) }
{
    match value {
        Value::Items(items) => referred_by(alloc, items.as_slice()),
        Value::Null | Value::Flag(_) | Value::Whole(_) | Value::Words(_) | Value::Fields(_) => {
            Ok(None)
        }
    }
}

// By a name and what stands behind it.
fn referred_by(alloc: Global, values: &[Value]) -> Result<Option<Reference>, AllocError>
    ensures { IfOk result (λ o. o ≡ the_referred_by (nodes_of values.now)) }
{
    match values {
        [] => Ok(None),
        [name, rest @ ..] => match name {
            Value::Words(name) => referred_behind(alloc, name.copy()?, rest),
            Value::Null | Value::Flag(_) | Value::Whole(_) => Ok(None),
            Value::Items(_) | Value::Fields(_) => Ok(None),
        },
    }
}

// By what stands behind the name: nothing, or an attribute and a path.
fn referred_behind(
    alloc: Global,
    name: Text,
    rest: &[Value],
) -> Result<Option<Reference>, AllocError>
    ensures { IfOk result (λ o. o ≡ the_referred_behind name (nodes_of rest.now)) }
{
    match rest {
        [] => Ok(Some(Reference::Whole(name))),
        [attribute, path @ ..] => match attribute {
            Value::Words(attribute) => Ok(Some(Reference::Part(
                name,
                attribute.copy()?,
                copied(alloc, path)?,
            ))),
            Value::Null | Value::Flag(_) | Value::Whole(_) => Ok(None),
            Value::Items(_) | Value::Fields(_) => Ok(None),
        },
    }
}
