//! The literal template of a repeat with a choice's items in place of the keys.
mod literal;

ghost use Rattle.std.specs.Prelude.{◌≡◌, ◌+◌, ◌<◌, ◌≤◌, ◌≢◌, IfOk, OnOk, MatchBool, MatchOption, None};
ghost use Rattle.std.specs.Prelude.{option_map};
ghost use Rattle.heat_value.specs.Data.{words as words_data, items as items_data, fields as fields_data};
ghost use Rattle.heat_value.specs.Meaning.{data_of, nodes_of, members_of};
ghost use Rattle.eval_words.specs.Fillings.{filled as the_filled, filled_size, text_filled as the_text_filled};
ghost use Rattle.eval_words.specs.Fillings.{words_filled as the_words_filled, item_of as the_item_of};
ghost use Rattle.eval_words.specs.Outcomes.{size, cost_limit};
ghost use Rattle.hot_eval.specs.Repeats.{choice_of, IsChoice};
ghost use Rattle.hot_eval.specs.Rooms.{IsFilled, IsMade, IsTextMade, IsItemFilled, IsMemberFilled, member_size};

use crate::choices::Choice;
use crate::gathered::Gathered;
use heat_value::{Items, Member, Text, TryCopy, Value};
use hot_strings::{StringFault, replace_within, value_size};
pub use literal::at_literal_place;
use std::alloc::{AllocError, Global};
use std::marker::Model;

/// A replaced template.
#[derive(Drop)]
pub enum Filled {
    /// The template itself.
    Template(Value),
    /// Two keys of an object became one.
    Same,
    /// Its keys and texts take more than there is room for.
    Large,
}

/// How many bytes of JSON the keys and texts of a template may still take.
#[derive(Drop)]
pub struct Room {
    left: usize,
}

impl Model for Room {
    ghost use Rattle.std.specs.Prelude.{ℕ, ◌≤◌};
    ghost use Rattle.eval_words.specs.Outcomes.{cost_limit};

    ghost Value = { ℕ };

    ghost view = { λ r. r.left };

    ghost invariant = { λ r. r.left ≤ cost_limit };
}

impl Room {
    /// Room for so many bytes.
    pub fn new(bytes: usize) -> Room
        requires { bytes ≤ cost_limit }
        ensures { result ≡ bytes }
    {
        Room { left: bytes }
    }

    // How many bytes are left.
    fn left(&self) -> usize
        ensures { result ≡ self.now }
    {
        self.left
    }

    // Takes what a value takes; false where that isn't left.
    fn take(&mut self, value: &Value) -> bool
        ensures { MatchBool result (self.new + size (data_of value.now) ≡ self.old) (self.old < size (data_of value.now)) }
    {
        let bytes = value_size(value);
        if self.left < bytes {
            return false;
        }
        self.left -= bytes;
        true
    }
}

/// A template with keys replaced in texts and in objects' keys. These take room, so many bytes of JSON;
/// what there is no room for isn't made.
#[cycle(filling)]
pub fn fill(
    alloc: Global,
    choice: &Choice,
    template: &Value,
    room: &mut Room,
) -> Result<Filled, AllocError>
    requires { IsChoice choice.now }
    ensures { IsFilled result room.old room.new (filled_size (choice_of choice.now) (data_of template.now))
        (the_filled (choice_of choice.now) (data_of template.now)) }
{
    match template {
        Value::Words(words) => match words_filled(alloc, choice, words, room)? {
            Some(value) => Ok(Filled::Template(value)),
            None => Ok(Filled::Large),
        },
        Value::Items(items) => items_filled(alloc, choice, items.as_slice(), room),
        Value::Fields(fields) => fields_filled(alloc, choice, fields.as_slice(), room),
        Value::Null => Ok(Filled::Template(Value::Null)),
        Value::Flag(flag) => Ok(Filled::Template(Value::Flag(*flag))),
        Value::Whole(_) => Ok(Filled::Template(template.copy()?)),
    }
}

// A list, each of its parts filled; the parts behind one in which two keys became one take room too.
#[cycle(filling)]
#[tactic(auto, using(crate::proofs::Weights::for_walks))]
fn items_filled(
    alloc: Global,
    choice: &Choice,
    values: &[Value],
    room: &mut Room,
) -> Result<Filled, AllocError>
    requires { IsChoice choice.now }
    ensures { IsFilled result room.old room.new
        (filled_size (choice_of choice.now) (items_data (nodes_of values.now)))
        (the_filled (choice_of choice.now) (items_data (nodes_of values.now))) }
{
    let mut items = Items::new(alloc);
    let mut same = false;
    for value in values {
        match item_filled(alloc, choice, value, room, same, &mut items)? {
            Some(now) => same = now,
            None => return Ok(Filled::Large),
        }
    }
    if same {
        return Ok(Filled::Same);
    }
    Ok(Filled::Template(Value::Items(items)))
}

// The next part of a list, put behind the last; whether two keys became one there or before. None where
// it takes more than is left.
#[cycle(filling)]
fn item_filled(
    alloc: Global,
    choice: &Choice,
    value: &Value,
    room: &mut Room,
    same: bool,
    items: &mut Items,
) -> Result<Option<bool>, AllocError>
    requires { IsChoice choice.now }
    ensures { IfOk result (λ o. IsItemFilled o room.old room.new
        (filled_size (choice_of choice.now) (data_of value.now)) (the_filled (choice_of choice.now) (data_of value.now))
        same items.old items.new) }
{
    match fill(alloc, choice, value, room)? {
        Filled::Template(value) => {
            items.push(value)?;
            Ok(Some(same))
        }
        Filled::Same => Ok(Some(true)),
        Filled::Large => Ok(None),
    }
}

// An object, its keys and its values filled; what stands behind a key that came twice takes room too.
#[cycle(filling)]
#[tactic(auto, using(crate::proofs::Weights::for_walks))]
fn fields_filled(
    alloc: Global,
    choice: &Choice,
    members: &[Member],
    room: &mut Room,
) -> Result<Filled, AllocError>
    requires { IsChoice choice.now }
    ensures { IsFilled result room.old room.new
        (filled_size (choice_of choice.now) (fields_data (members_of members.now)))
        (the_filled (choice_of choice.now) (fields_data (members_of members.now))) }
{
    let mut fields = Gathered::new(alloc);
    let mut same = false;
    for member in members {
        match member_filled(alloc, choice, member, room, same, &mut fields)? {
            Some(now) => same = now,
            None => return Ok(Filled::Large),
        }
    }
    if same {
        return Ok(Filled::Same);
    }
    Ok(Filled::Template(Value::Fields(fields.finish(alloc)?)))
}

// The next member of an object, put under its new key unless one stands there; whether two keys became
// one here or before. None where it takes more than is left.
#[cycle(filling)]
fn member_filled(
    alloc: Global,
    choice: &Choice,
    member: &Member,
    room: &mut Room,
    same: bool,
    fields: &mut Gathered,
) -> Result<Option<bool>, AllocError>
    requires { IsChoice choice.now }
    ensures { IfOk result (λ o. IsMemberFilled o room.old room.new
        (member_size (choice_of choice.now) member.now.key (data_of member.now.value))
        (the_filled (choice_of choice.now) (data_of member.now.value))
        (the_text_filled (choice_of choice.now) member.now.key) same fields.old fields.new) }
{
    let Some(key) = key_taken(alloc, choice, &member.key, room)? else {
        return Ok(None);
    };
    match fill(alloc, choice, &member.value, room)? {
        Filled::Template(value) => if fields.put_new(key, value)? {
            Ok(Some(same))
        } else {
            Ok(Some(true))
        },
        Filled::Same => Ok(Some(true)),
        Filled::Large => Ok(None),
    }
}

// A text that is just one key becomes the item itself; none where there is no room.
fn words_filled(
    alloc: Global,
    choice: &Choice,
    words: &Text,
    room: &mut Room,
) -> Result<Option<Value>, AllocError>
    requires { IsChoice choice.now }
    ensures { IsMade result room.old room.new (size (the_words_filled (choice_of choice.now) words.now))
        (the_words_filled (choice_of choice.now) words.now) }
{
    match item_of(choice, words) {
        Some(item) => item_taken(item, room),
        None => text_taken(alloc, choice, words, room),
    }
}

// An item in place of a text.
fn item_taken(item: &Value, room: &mut Room) -> Result<Option<Value>, AllocError>
    ensures { IsMade result room.old room.new (size (data_of item.now)) (data_of item.now) }
{
    if room.take(item) {
        Ok(Some(item.copy()?))
    } else {
        Ok(None)
    }
}

// A text with keys replaced.
fn text_taken(
    alloc: Global,
    choice: &Choice,
    words: &Text,
    room: &mut Room,
) -> Result<Option<Value>, AllocError>
    requires { IsChoice choice.now }
    ensures { IsMade result room.old room.new
        (size (words_data (the_text_filled (choice_of choice.now) words.now)))
        (words_data (the_text_filled (choice_of choice.now) words.now)) }
{
    let Some(text) = text_filled(alloc, choice, words, room.left())? else {
        return Ok(None);
    };
    let value = Value::Words(text);
    if room.take(&value) {
        Ok(Some(value))
    } else {
        Ok(None)
    }
}

// An object's key with keys replaced.
fn key_taken(
    alloc: Global,
    choice: &Choice,
    key: &Text,
    room: &mut Room,
) -> Result<Option<Text>, AllocError>
    requires { IsChoice choice.now }
    ensures { IsTextMade result room.old room.new
        (size (words_data (the_text_filled (choice_of choice.now) key.now)))
        (the_text_filled (choice_of choice.now) key.now) }
{
    let Some(text) = text_filled(alloc, choice, key, room.left())? else {
        return Ok(None);
    };
    if room.take(&Value::Words(text.copy()?)) {
        Ok(Some(text))
    } else {
        Ok(None)
    }
}

// The item of a key, by binary search.
fn item_of<'a>(choice: &Choice<'a>, words: &Text) -> Option<&'a Value>
    requires { IsChoice choice.now }
    ensures { option_map (λ v. data_of v.now) result ≡ the_item_of (choice_of choice.now) words.now }
{
    match choice
        .texts
        .as_slice()
        .binary_search_by(|text| text.0.cmp(words))
    {
        Ok(at) => Some(choice.items[at]),
        Err(_) => None,
    }
}

/// A text with keys replaced, where that takes no more than so many bytes.
pub fn text_filled(
    alloc: Global,
    choice: &Choice,
    words: &Text,
    limit: usize,
) -> Result<Option<Text>, AllocError>
    requires { IsChoice choice.now }
    ensures { IfOk result (λ o. MatchOption o
        (limit < size (words_data (the_text_filled (choice_of choice.now) words.now)))
        (λ t. t ≡ the_text_filled (choice_of choice.now) words.now)) }
{
    if limit < 2 {
        return Ok(None);
    }
    match replace_within(alloc, words, choice.texts.as_slice(), &choice.index, limit) {
        Ok(text) => Ok(Some(text)),
        Err(fault) => none_for(fault),
    }
}

// No text, where there was memory.
fn none_for(fault: StringFault) -> Result<Option<Text>, AllocError>
    ensures none { IfOk result (λ o. o ≡ None) }
    ensures cause { OnOk result (fault ≢ StringFault.Memory) }
{
    match fault {
        StringFault::F02 | StringFault::F03 | StringFault::F04 | StringFault::F06 => Ok(None),
        StringFault::Memory => Err(AllocError),
    }
}
