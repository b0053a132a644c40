//! Taking over what `serde_json` read, or finding the first number that isn't whole.
ghost use Rattle.std.specs.Prelude.{◌≡◌, ◌++◌, ◌∷◌, [], OnOk, IfOk, IfErr, List, Option, None, string_bytes};
ghost use Rattle.serde_json.specs.View.{view, items_view, members_view};
ghost use Rattle.heat_value.specs.Compact.{json_of, json_items, json_members};
ghost use Rattle.heat_value.specs.Meaning.{data_of};
ghost use Rattle.heat_value.specs.Reading.{IsOfNumber, first_bad, items_bad, members_bad, under};
ghost use Rattle.heat_value.specs.declared.path.Step.{Step};

use crate::{Items, Member, Props, Step, Text, Value, ValueFault};
use serde_json::{Map, Value as Json};
use std::alloc::{AllocError, Global};

/// The value of a reading.
#[cycle(conversion)]
pub fn converted(alloc: Global, json: &Json) -> Result<Value, ValueFault>
    ensures ok { IfOk result (λ v. json_of (data_of v) ≡ view json.now) }
    ensures whole { OnOk result (first_bad (view json.now) ≡ None) }
    ensures err { IfErr result (λ e. IsOfNumber e (first_bad (view json.now))) }
{
    match json {
        Json::Null => Ok(Value::Null),
        Json::Bool(flag) => Ok(Value::Flag(*flag)),
        Json::Number(number) => match number.as_i64() {
            Some(whole) => Ok(Value::Whole(whole)),
            None => Err(ValueFault::BadNumber(crate::Path::root(alloc))),
        },
        Json::String(text) => Ok(Value::Words(Text::from_str(alloc, text.as_str())?)),
        Json::Array(items) => Ok(Value::Items(converted_items(alloc, items)?)),
        Json::Object(members) => Ok(Value::Fields(converted_members(alloc, members)?)),
    }
}

// The list of a reading.
#[cycle(conversion)]
fn converted_items(alloc: Global, items: &Vec<Json>) -> Result<Items, ValueFault>
    ensures ok { IfOk result (λ ns. json_items ns ≡ items_view items.now.items) }
    ensures whole { OnOk result (items_bad 0 (items_view items.now.items) ≡ None) }
    ensures err { IfErr result (λ e. IsOfNumber e (items_bad 0 (items_view items.now.items))) }
{
    let mut all = Vec::with_capacity(alloc, items.len())?;
    for i in 0..items.len() {
        match converted(alloc, &items[i]) {
            Ok(value) => push(&mut all, value)?,
            Err(fault) => return Err(fault_under(Step::Index(i), fault)),
        }
    }
    Ok(Items { all })
}

// The map of a reading, whose members come by rising keys.
#[cycle(conversion)]
fn converted_members(alloc: Global, members: &Map<String, Json>) -> Result<Props, ValueFault>
    ensures ok { IfOk result (λ ms. json_members ms ≡ members_view members.now.entries) }
    ensures whole { OnOk result (members_bad (members_view members.now.entries) ≡ None) }
    ensures err { IfErr result (λ e. IsOfNumber e (members_bad (members_view members.now.entries))) }
{
    let mut taken = Vec::new(alloc);
    for (key, member) in members.iter() {
        match converted_member(alloc, key, member) {
            Ok(member) => push(&mut taken, member)?,
            Err(fault) => return Err(fault),
        }
    }
    Ok(Props { members: taken })
}

// One member of a reading.
#[cycle(conversion)]
fn converted_member(alloc: Global, key: &String, member: &Json) -> Result<Member, ValueFault>
    ensures key { IfOk result (λ e. e.key ≡ string_bytes key.now) }
    ensures value { IfOk result (λ e. json_of (data_of e.value) ≡ view member.now) }
    ensures whole { OnOk result (first_bad (view member.now) ≡ None) }
    ensures err { IfErr result (λ e.
        IsOfNumber e (under (Step.Key (string_bytes key.now)) (first_bad (view member.now)))) }
{
    let text = Text::from_str(alloc, key.as_str())?;
    match converted(alloc, member) {
        Ok(value) => Ok(Member { key: text, value }),
        Err(fault) => Err(fault_under(Step::Key(text), fault)),
    }
}

// The fault, seen from one step above.
fn fault_under(step: Step, fault: ValueFault) -> ValueFault
    ensures { (found : Option (List Step)) → IsOfNumber fault found → IsOfNumber result (under step found) }
{
    match fault {
        ValueFault::BadNumber(path) => match path.under(step) {
            Ok(path) => ValueFault::BadNumber(path),
            Err(_) => ValueFault::Memory,
        },
        ValueFault::NotJson => ValueFault::NotJson,
        ValueFault::TooDeep => ValueFault::TooDeep,
        ValueFault::Memory => ValueFault::Memory,
    }
}

// Puts an item behind the last.
fn push<T: Drop>(list: &mut Vec<T>, item: T) -> Result<(), AllocError>
    ensures { OnOk result (list.new.items ≡ list.old.items ++ item ∷ []) }
{
    list.push(item)?;
    Ok(())
}
