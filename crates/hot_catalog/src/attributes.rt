//! The attributes that a definition names.
ghost use Rattle.std.specs.Prelude.{◌≡◌, IfOk, OnOk, option_map, length, nat_le};
ghost use Rattle.heat_value.specs.Data.{no_members, keys_of as the_keys_of};
ghost use Rattle.heat_value.specs.Meaning.{data_of};
ghost use Rattle.hot_catalog.specs.Definitions.{with_text as the_with_text, with_texts as the_with_texts};
ghost use Rattle.hot_catalog.specs.Definitions.{names_in as the_names_in, attributes_in as the_attributes_in};

use crate::check::members_in;
use heat_value::{Items, Props, Seq, Text, TryCopy, Value};
use hot_forms::found;
use std::alloc::{AllocError, Global};

// How many attributes a kind has at most.
const MOST_ATTRIBUTES: usize = 64;

/// The attributes, in byte order, each once.
pub fn attributes_in(alloc: Global, definition: &Value) -> Result<Seq<Text>, AllocError>
    ensures { IfOk result (λ s. s ≡ the_attributes_in (data_of definition.now)) }
{
    let none = Props::new(alloc);
    let held = found(alloc, members_in(definition, &none), "attributes")?;
    keys_of(alloc, &names_in(alloc, held)?)
}

/// Whether there are at most 64 attributes; no more are looked at than tell it.
pub fn are_few_attributes(alloc: Global, definition: &Value) -> Result<bool, AllocError>
    ensures { IfOk result (λ b. b ≡ nat_le (length (the_attributes_in (data_of definition.now))) 64) }
{
    let none = Props::new(alloc);
    let held = found(alloc, members_in(definition, &none), "attributes")?;
    are_few_names(alloc, held)
}

// Whether what stands there names at most 64.
fn are_few_names(alloc: Global, held: Option<&Value>) -> Result<bool, AllocError>
    ensures { IfOk result (λ b. b ≡ nat_le
        (length (the_keys_of (the_names_in (option_map (λ v. data_of v.now) held.entry)))) 64) }
{
    match held {
        Some(Value::Items(items)) => are_few_texts(alloc, items),
        Some(Value::Fields(fields)) => Ok(are_few_keys(fields)),
        Some(Value::Null | Value::Flag(_) | Value::Whole(_)) => Ok(true),
        Some(Value::Words(_)) | None => Ok(true),
    }
}

// Whether an object has at most 64 keys.
fn are_few_keys(names: &Props) -> bool
    ensures { result ≡ nat_le (length (the_keys_of names.now)) 64 }
{
    names.as_slice().len() <= MOST_ATTRIBUTES
}

// Whether the texts of a list are at most 64, each counted once.
fn are_few_texts(alloc: Global, items: &Items) -> Result<bool, AllocError>
    ensures { IfOk result (λ b. b ≡ nat_le (length (the_keys_of (the_with_texts items.now no_members))) 64) }
{
    let mut names = Props::new(alloc);
    for value in items.as_slice() {
        put_text(&mut names, value)?;
        if names.as_slice().len() > MOST_ATTRIBUTES {
            return Ok(false);
        }
    }
    Ok(true)
}

// The keys of an object, in their order.
fn keys_of(alloc: Global, names: &Props) -> Result<Seq<Text>, AllocError>
    ensures { IfOk result (λ s. s ≡ the_keys_of names.now) }
{
    let mut keys = Seq::new(alloc);
    for member in names.as_slice() {
        keys.push(member.key.copy()?)?;
    }
    Ok(keys)
}

// The map whose keys are the names: those of a list, or an object's own.
fn names_in(alloc: Global, held: Option<&Value>) -> Result<Props, AllocError>
    ensures { IfOk result (λ p. p ≡ the_names_in (option_map (λ v. data_of v.now) held.entry)) }
{
    match held {
        Some(Value::Items(items)) => with_texts(alloc, items),
        Some(Value::Fields(fields)) => fields.copy(),
        Some(Value::Null | Value::Flag(_) | Value::Whole(_)) => Ok(Props::new(alloc)),
        Some(Value::Words(_)) | None => Ok(Props::new(alloc)),
    }
}

// The texts of a list, as keys: in byte order, each once.
fn with_texts(alloc: Global, items: &Items) -> Result<Props, AllocError>
    ensures { IfOk result (λ p. p ≡ the_with_texts items.now no_members) }
{
    let mut names = Props::new(alloc);
    for value in items.as_slice() {
        put_text(&mut names, value)?;
    }
    Ok(names)
}

// Puts a text as a key of the map.
fn put_text(names: &mut Props, value: &Value) -> Result<(), AllocError>
    ensures { OnOk result (names.new ≡ the_with_text (data_of value.now) names.old) }
{
    match value {
        Value::Words(text) => names.put(text.copy()?, Value::Null),
        Value::Null | Value::Flag(_) | Value::Whole(_) | Value::Items(_) | Value::Fields(_) => {
            Ok(())
        }
    }
}
