//! Values made over text by text, as a member's are, and keys that become one by it.
ghost use Rattle.std.specs.Prelude.{◌≡◌, IfOk, is_some};
ghost use Rattle.heat_value.specs.Data.{fields as fields_data};
ghost use Rattle.heat_value.specs.Meaning.{data_of, nodes_of, members_of};
ghost use Rattle.eval_words.specs.Maps.{map_of};
ghost use Rattle.hot_groups.specs.Numbers.{retold as the_retold, nodes_retold as the_nodes_retold};
ghost use Rattle.hot_groups.specs.Numbers.{members_retold as the_members_retold, map_from, keys_retold};
ghost use Rattle.hot_groups.specs.Numbers.{meeting as the_meeting, meeting_among as the_meeting_among};
ghost use Rattle.hot_groups.specs.Numbers.{meeting_under as the_meeting_under};
ghost use Rattle.hot_strings.specs.Answers.{with_values};

use crate::flaw::{under, under_place};
use crate::numbering::Numbering;
use crate::{GroupCode, GroupFlaw};
use heat_value::{Items, Member, Props, TryCopy, Value};
use std::alloc::{AllocError, Global};

/// A value with each of its texts and keys made over.
#[cycle(retelling)]
pub(crate) fn retold(
    alloc: Global,
    numbering: &Numbering,
    value: &Value,
) -> Result<Value, AllocError>
    ensures { IfOk result (λ v. data_of v ≡ the_retold (with_values numbering.now) (data_of value.now)) }
{
    match value {
        Value::Words(words) => Ok(Value::Words(numbering.text(alloc, words)?)),
        Value::Items(items) => Ok(Value::Items(nodes_retold(alloc, numbering, items.as_slice())?)),
        Value::Fields(fields) => Ok(Value::Fields(members_retold(
            alloc,
            numbering,
            fields.as_slice(),
        )?)),
        Value::Null | Value::Flag(_) | Value::Whole(_) => value.copy(),
    }
}

// The values of a list.
#[cycle(retelling)]
#[tactic(auto, using(crate::proofs::Weights::for_walks))]
fn nodes_retold(alloc: Global, numbering: &Numbering, values: &[Value]) -> Result<Items, AllocError>
    ensures { IfOk result (λ a. a ≡ the_nodes_retold (with_values numbering.now) (nodes_of values.now)) }
{
    let mut all = Items::new(alloc);
    for value in values {
        all.push(retold(alloc, numbering, value)?)?;
    }
    Ok(all)
}

// The members of a map, put together by their new keys.
#[cycle(retelling)]
#[tactic(auto, using(crate::proofs::Weights::for_walks))]
fn members_retold(
    alloc: Global,
    numbering: &Numbering,
    members: &[Member],
) -> Result<Props, AllocError>
    ensures { IfOk result (λ p. p
        ≡ map_from (the_members_retold (with_values numbering.now) (members_of members.now))) }
{
    let mut all = Props::new(alloc);
    for member in members {
        all.put(
            numbering.text(alloc, &member.key)?,
            retold(alloc, numbering, &member.value)?,
        )?;
    }
    Ok(all)
}

// ---- keys that become one

/// The first object in reading order two of whose keys become one: G01.
#[cycle(meetings)]
pub(crate) fn meeting(
    alloc: Global,
    numbering: &Numbering,
    value: &Value,
) -> Result<Option<GroupFlaw>, AllocError>
    ensures { IfOk result (λ o. o ≡ the_meeting (with_values numbering.now) (data_of value.now)) }
{
    match value {
        Value::Items(items) => meeting_among(alloc, numbering, items.as_slice()),
        Value::Fields(fields) => object_meeting(alloc, numbering, fields),
        Value::Null | Value::Flag(_) | Value::Whole(_) | Value::Words(_) => Ok(None),
    }
}

// The first among a list's values.
#[cycle(meetings)]
#[tactic(auto, using(crate::proofs::Weights::for_walks))]
fn meeting_among(
    alloc: Global,
    numbering: &Numbering,
    values: &[Value],
) -> Result<Option<GroupFlaw>, AllocError>
    ensures { IfOk result (λ o. o ≡ the_meeting_among (with_values numbering.now) 0 (nodes_of values.now)) }
{
    for (i, value) in values.iter().enumerate() {
        let found = under_place(i, meeting(alloc, numbering, value)?)?;
        if found.is_some() {
            return Ok(found);
        }
    }
    Ok(None)
}

/// The same of an object: itself, then what stands under its keys.
#[cycle(meetings)]
pub(crate) fn object_meeting(
    alloc: Global,
    numbering: &Numbering,
    fields: &Props,
) -> Result<Option<GroupFlaw>, AllocError>
    ensures { IfOk result (λ o. o ≡ the_meeting (with_values numbering.now) (fields_data fields.now)) }
{
    if !stay_apart(alloc, numbering, fields.as_slice())? {
        return Ok(Some(GroupFlaw::here(alloc, GroupCode::G01)));
    }
    meeting_under(alloc, numbering, fields.as_slice())
}

// The first under an object's keys.
#[cycle(meetings)]
#[tactic(auto, using(crate::proofs::Weights::for_walks))]
fn meeting_under(
    alloc: Global,
    numbering: &Numbering,
    members: &[Member],
) -> Result<Option<GroupFlaw>, AllocError>
    ensures { IfOk result (λ o. o ≡ the_meeting_under (with_values numbering.now) (members_of members.now)) }
{
    for member in members {
        let found = under(&member.key, meeting(alloc, numbering, &member.value)?)?;
        if found.is_some() {
            return Ok(found);
        }
    }
    Ok(None)
}

// Whether no two keys become one.
fn stay_apart(alloc: Global, numbering: &Numbering, members: &[Member]) -> Result<bool, AllocError>
    ensures { IfOk result (λ b. b
        ≡ is_some (map_of (keys_retold (with_values numbering.now) (members_of members.now)))) }
{
    let mut keys = Props::new(alloc);
    for member in members {
        let key = numbering.text(alloc, &member.key)?;
        if keys.get(&key).is_some() {
            return Ok(false);
        }
        keys.put(key, Value::Null)?;
    }
    Ok(true)
}
