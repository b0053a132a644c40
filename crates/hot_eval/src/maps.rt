//! What the functions of maps give.
ghost use Rattle.std.specs.Prelude.{◌≡◌, [], ◌∷◌, OnOk, IfOk, MatchBool, true, false, codes, option_map, unwrap_or};
ghost use Rattle.heat_value.specs.Data.{no_members, put};
ghost use Rattle.heat_value.specs.Meaning.{data_of, members_of};
ghost use Rattle.hot_forms.specs.Checks.{is_among as the_is_among};
ghost use Rattle.hot_functions.specs.Forms.{are_among, stands as the_stands};
ghost use Rattle.hot_eval.specs.Answers.{IsAnswer};
ghost use Rattle.eval_words.specs.Maps.{map_merge as the_map_merge, put_all as the_put_all};
ghost use Rattle.eval_words.specs.Maps.{map_replace as the_map_replace, rename_in as the_rename_in};
ghost use Rattle.eval_words.specs.Maps.{renamed as the_renamed, map_of, unless_same};
ghost use Rattle.eval_words.specs.Maps.{renaming_in as the_renaming_in, named_by, is_renaming as the_is_renaming};
ghost use Rattle.eval_words.specs.Maps.{object_under as the_object_under, hold_texts as the_hold_texts};
ghost use Rattle.eval_words.specs.Maps.{name_for as the_name_for, value_for as the_value_for};
ghost use Rattle.eval_words.specs.Sorts.{text_in as the_text_in};

use crate::gathered::Gathered;
use crate::sorts::{object_in, object_or_null, parts, text_in, two_of, wanted};
use crate::{FaultCode, FunctionFault};
use heat_value::{Member, Props, Text, TryCopy, Value, text_of};
use hot_forms::{is_among, is_text};
use hot_functions::stands;
use std::alloc::{AllocError, Global};

/// map_merge: the entries of all objects, of which the later wins.
pub fn map_merge(alloc: Global, argument: &Value) -> Result<Value, FunctionFault>
    ensures { IsAnswer result (the_map_merge (data_of argument.now)) }
{
    let mut merged = Gathered::new(alloc);
    for part in parts(argument) {
        put_all(&mut merged, wanted(object_or_null(part))?)?;
    }
    Ok(Value::Fields(merged.finish(alloc)?))
}

// Each of these entries put into the map.
fn put_all(map: &mut Gathered, members: &[Member]) -> Result<(), AllocError>
    ensures { OnOk result (map.new ≡ the_put_all (members_of members.now) map.old) }
{
    for member in members {
        map.put(member.key.copy()?, member.value.copy()?)?;
    }
    Ok(())
}

/// map_replace: keys renamed and scalar values replaced.
pub fn map_replace(alloc: Global, argument: &Value) -> Result<Value, FunctionFault>
    ensures { IsAnswer result (the_map_replace (data_of argument.now)) }
{
    let (map, by) = wanted(two_of(parts(argument)))?;
    rename_in(alloc, map, by)
}

// A map with the keys and values that another one gives it.
fn rename_in(alloc: Global, map: &Value, by: &Value) -> Result<Value, FunctionFault>
    ensures { IsAnswer result (the_rename_in (data_of map.now, data_of by.now)) }
{
    let map = wanted(object_in(map))?;
    let by = wanted(object_in(by))?;
    let none = Props::new(alloc);
    let (names, values) = wanted(renaming_in(alloc, by, &none)?)?;
    renamed(alloc, names, values, map.as_slice())
}

// The map of the renamed entries; F05 where two keys are the same then.
fn renamed(
    alloc: Global,
    names: &Props,
    values: &Props,
    members: &[Member],
) -> Result<Value, FunctionFault>
    ensures { IsAnswer result
        (unless_same (map_of (the_renamed (names.now, values.now) (members_of members.now)))) }
{
    let mut renamed = Gathered::new(alloc);
    for member in members {
        let key = name_for(names, &member.key)?;
        let value = value_for(alloc, values, &member.value)?;
        if !renamed.put_new(key, value)? {
            return Err(FunctionFault::Wrong(FaultCode::F05));
        }
    }
    Ok(Value::Fields(renamed.finish(alloc)?))
}

// What a map is renamed by: names of keys, each a text, and values.
fn renaming_in<'a>(
    alloc: Global,
    by: &'a Props,
    none: &'a Props,
) -> Result<Option<(&'a Props, &'a Props)>, AllocError>
    requires { none.now ≡ no_members }
    ensures { IfOk result (λ o. option_map (λ p. (p.0.now, p.1.now)) o ≡ the_renaming_in by.now) }
{
    if !is_renaming(by.as_slice()) {
        return Ok(None);
    }
    let names = object_under(alloc, "keys", by, none)?;
    let values = object_under(alloc, "values", by, none)?;
    Ok(both(names, values))
}

// Both, where the names are texts.
fn both<'a>(names: Option<&'a Props>, values: Option<&'a Props>) -> Option<(&'a Props, &'a Props)>
    ensures { option_map (λ p. (p.0.now, p.1.now)) result
        ≡ named_by (option_map (λ m. m.now) names.entry) (option_map (λ m. m.now) values.entry) }
{
    match (names, values) {
        (Some(names), Some(values)) => if hold_texts(names.as_slice()) {
            Some((names, values))
        } else {
            None
        },
        _ => None,
    }
}

// `keys`, `values` or both, and nothing else.
fn is_renaming(members: &[Member]) -> bool
    ensures { result ≡ the_is_renaming (members_of members.now) }
{
    are_known(members) && (stands("keys", members) || stands("values", members))
}

// Nothing but `keys` and `values`.
fn are_known(members: &[Member]) -> bool
    ensures { result ≡ are_among (codes "keys" ∷ codes "values" ∷ []) (members_of members.now) }
{
    for member in members {
        if !is_known(member) {
            return false;
        }
    }
    true
}

// Whether it is one of the two keys that a replacement may have.
fn is_known(member: &Member) -> bool
    ensures { result ≡ the_is_among (codes "keys" ∷ codes "values" ∷ []) member.now.key }
{
    is_among(&["keys", "values"], member.key.as_str())
}

// The object under a key; `none`, which is empty, where the key doesn't stand.
fn object_under<'a>(
    alloc: Global,
    key: &str,
    map: &'a Props,
    none: &'a Props,
) -> Result<Option<&'a Props>, AllocError>
    requires { none.now ≡ no_members }
    ensures { IfOk result (λ o. option_map (λ m. m.now) o ≡ the_object_under key.now map.now) }
{
    match map.get(&Text::from_str(alloc, key)?) {
        Some(value) => Ok(object_in(value)),
        None => Ok(Some(none)),
    }
}

// Whether each value is a text.
fn hold_texts(members: &[Member]) -> bool
    ensures { result ≡ the_hold_texts (members_of members.now) }
{
    for member in members {
        if !is_text(&member.value) {
            return false;
        }
    }
    true
}

// A key that is among the names is renamed.
fn name_for(names: &Props, key: &Text) -> Result<Text, AllocError>
    ensures { IfOk result (λ t. t ≡ the_name_for names.now key.now) }
{
    match names.get(key) {
        Some(name) => text_or(name, key),
        None => key.copy(),
    }
}

// A value that is a text, or else this one.
fn text_or(value: &Value, other: &Text) -> Result<Text, AllocError>
    ensures { IfOk result (λ t. t ≡ unwrap_or (the_text_in (data_of value.now)) other.now) }
{
    match text_in(value) {
        Some(text) => text.copy(),
        None => other.copy(),
    }
}

// A scalar that isn't null and whose text is among the values is replaced.
fn value_for(alloc: Global, values: &Props, value: &Value) -> Result<Value, AllocError>
    ensures { IfOk result (λ v. data_of v ≡ the_value_for values.now (data_of value.now)) }
{
    match value {
        Value::Null | Value::Items(_) | Value::Fields(_) => value.copy(),
        Value::Flag(_) | Value::Whole(_) | Value::Words(_) => {
            match values.get(&text_of(alloc, value)?) {
                Some(other) => other.copy(),
                None => value.copy(),
            }
        }
    }
}
