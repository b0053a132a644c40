//! What a repeat does, and one of its choices: an item for each key.
ghost use Rattle.std.specs.Prelude.{◌≡◌, ◌<◌, IfOk, Some, length, option_map};
ghost use Rattle.std.specs.List.{list_any};
ghost use Rattle.heat_value.specs.Coercion.{coerced};
ghost use Rattle.heat_value.specs.Meaning.{data_of, nodes_of, members_of};
ghost use Rattle.eval_words.specs.Choices.{repetition, lists_in as the_lists_in};
ghost use Rattle.eval_words.specs.Lookups.{node_at};
ghost use Rattle.hot_eval.specs.Repeats.{lists_of, AreKeys, IsRepetition, choice_of, IsChoice};
ghost use Rattle.hot_eval.specs.Repeats.{ArePlaces, choice_at as the_choice_at};
ghost use Rattle.eval_words.specs.Texts.{is_empty};

use crate::sorts::{list_in, object_in, under, wanted};
use crate::{FaultCode, FunctionFault};
use heat_value::{Member, Text, TryCopy, Value, text_of};
use hot_strings::KeyIndex;
use std::alloc::{AllocError, Global};

/// A key with its list of items.
#[derive(Drop)]
pub struct Listed<'a> {
    pub key: &'a Text,
    pub items: &'a [Value],
}

/// What a repeat does: the lists of its keys, in byte order of these, and its literal template.
#[derive(Drop)]
pub struct Repetition<'a> {
    pub lists: Vec<Listed<'a>>,
    pub template: &'a Value,
}

/// A choice: what each key stands for, as a text and as the item itself, and the index of the keys.
pub struct Choice<'a> {
    pub texts: Vec<(Text, Text)>,
    pub items: Vec<&'a Value>,
    pub index: KeyIndex,
}

impl Drop for Choice<'_> {
    fn drop(self) {
        let Choice {
            texts: _,
            items: _,
            index: _,
        } = self;
    }
}

/// What the argument asks for, once `for_each` is evaluated; F01 for what is no object of lists, F03
/// for an empty key.
pub fn repetition_in(alloc: Global, argument: &Value) -> Result<Repetition, FunctionFault>
    ensures exact { IsRepetition result (repetition (data_of argument.now)) }
    ensures keys { IfOk result (λ r. AreKeys (lists_of r.lists.items)) }
{
    let template = wanted(under(alloc, "template", argument)?)?;
    let for_each = wanted(under(alloc, "for_each", argument)?)?;
    let for_each = wanted(object_in(for_each))?;
    let lists = wanted(lists_in(alloc, for_each.as_slice())?)?;
    if has_empty_key(lists.as_slice()) {
        return Err(FunctionFault::Wrong(FaultCode::F03));
    }
    Ok(Repetition { lists, template })
}

// The lists of an object; none where some value is no list.
fn lists_in<'a>(alloc: Global, members: &'a [Member]) -> Result<Option<Vec<Listed<'a>>>, AllocError>
    ensures { IfOk result (λ o. option_map (λ ls. lists_of ls.items) o
        ≡ the_lists_in (members_of members.now)) }
{
    let mut lists = Vec::new(alloc);
    for member in members {
        match list_in(&member.value) {
            Some(items) => lists.push(Listed {
                key: &member.key,
                items,
            })?,
            None => return Ok(None),
        }
    }
    Ok(Some(lists))
}

// Whether some list stands under the empty text.
fn has_empty_key(lists: &[Listed]) -> bool
    ensures { result ≡ list_any (λ l. is_empty l.0) (lists_of lists.now) }
{
    for list in lists {
        if list.key.as_str().is_empty() {
            return true;
        }
    }
    false
}

/// The choice of these places.
pub fn choice_at<'a>(
    alloc: Global,
    lists: &[Listed<'a>],
    places: &Vec<usize>,
) -> Result<Choice<'a>, AllocError>
    requires places { ArePlaces (lists_of lists.now) places.now.items }
    requires keys { AreKeys (lists_of lists.now) }
    ensures choice { IfOk result (λ c. choice_of c ≡ the_choice_at (lists_of lists.now) places.now.items) }
    ensures kept { IfOk result IsChoice }
{
    let mut texts = Vec::new(alloc);
    let mut items = Vec::new(alloc);
    for at in 0..lists.len() {
        let item = item_at(lists[at].items, places[at]);
        texts.push(with_text(alloc, lists[at].key, item)?)?;
        items.push(item)?;
    }
    let index = KeyIndex::new(alloc, texts.as_slice())?;
    Ok(Choice {
        texts,
        items,
        index,
    })
}

// A key with its item's text.
fn with_text(alloc: Global, key: &Text, item: &Value) -> Result<(Text, Text), AllocError>
    ensures { IfOk result (λ p. p ≡ (key.now, coerced (data_of item.now))) }
{
    Ok((key.copy()?, text_of(alloc, item)?))
}

/// The item at a place.
pub fn item_at<'a>(items: &'a [Value], place: usize) -> &'a Value
    requires { place < length items.now }
    ensures { Some (data_of result.now) ≡ node_at (nodes_of items.now) place }
{
    &items[place]
}
