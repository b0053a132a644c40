//! References to resources, where none may stand.
ghost use Rattle.std.specs.Prelude.{◌≡◌, IfOk};
ghost use Rattle.heat_value.specs.Meaning.{data_of, nodes_of, members_of};
ghost use Rattle.hot_functions.specs.References.{refers as the_refers, is_reference as the_is_reference};
ghost use Rattle.hot_functions.specs.References.{reference_in as the_reference_in};
ghost use Rattle.hot_functions.specs.References.{reference_among as the_reference_among};
ghost use Rattle.hot_functions.specs.References.{reference_under as the_reference_under};

use crate::form::lone;
use heat_value::{Member, Value};
use hot_forms::{Flaw, HotCode, under_key, under_place};
use std::alloc::{AllocError, Global};

/// The first place, in reading order, of a get_resource or get_attr anywhere in a value: H23.
#[cycle(references)]
pub fn reference_in(alloc: Global, value: &Value) -> Result<Option<Flaw>, AllocError>
    ensures { IfOk result (λ o. o ≡ the_reference_in (data_of value.now)) }
{
    match value {
        Value::Items(items) => reference_among(alloc, items.as_slice()),
        Value::Fields(fields) => {
            let members = fields.as_slice();
            if is_reference(members) {
                return Ok(Some(Flaw::at_root(alloc, HotCode::H23)));
            }
            reference_under(alloc, members)
        }
        Value::Null | Value::Flag(_) | Value::Whole(_) | Value::Words(_) => Ok(None),
    }
}

// The first in a list.
#[cycle(references)]
#[tactic(auto, using(crate::proofs::Weights::for_walks))]
fn reference_among(alloc: Global, values: &[Value]) -> Result<Option<Flaw>, AllocError>
    ensures { IfOk result (λ o. o ≡ the_reference_among 0 (nodes_of values.now)) }
{
    for (i, value) in values.iter().enumerate() {
        let found = under_place(i, reference_in(alloc, value)?)?;
        if found.is_some() {
            return Ok(found);
        }
    }
    Ok(None)
}

// The first under an object's keys.
#[cycle(references)]
#[tactic(auto, using(crate::proofs::Weights::for_walks))]
fn reference_under(alloc: Global, members: &[Member]) -> Result<Option<Flaw>, AllocError>
    ensures { IfOk result (λ o. o ≡ the_reference_under (members_of members.now)) }
{
    for member in members {
        let found = under_key(&member.key, reference_in(alloc, &member.value)?)?;
        if found.is_some() {
            return Ok(found);
        }
    }
    Ok(None)
}

// Whether an object is a get_resource or a get_attr.
fn is_reference(members: &[Member]) -> bool
    ensures { result ≡ the_is_reference (members_of members.now) }
{
    match lone(members) {
        Some(member) => refers(member.key.as_str()),
        None => false,
    }
}

/// Whether a function of this name refers to a resource.
pub fn refers(key: &str) -> bool
    ensures { result ≡ the_refers key.now }
{
    key == "get_resource" || key == "get_attr"
}
