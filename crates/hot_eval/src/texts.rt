//! What the text functions give.
ghost use Rattle.std.specs.Prelude.{◌≡◌, IfOk, Ok, map};
ghost use Rattle.heat_value.specs.Data.{words};
ghost use Rattle.heat_value.specs.Meaning.{data_of, nodes_of, members_of};
ghost use Rattle.hot_strings.specs.Answers.{digest_of as the_digest_of};
ghost use Rattle.hot_eval.specs.Answers.{IsAnswer};
ghost use Rattle.eval_words.specs.Sorts.{wanted as wanted_of};
ghost use Rattle.eval_words.specs.Texts.{list_join as the_list_join, join_with as the_join_with};
ghost use Rattle.eval_words.specs.Texts.{texts_of as the_texts_of, str_split as the_str_split};
ghost use Rattle.eval_words.specs.Texts.{split_with as the_split_with, split_text as the_split_text};
ghost use Rattle.eval_words.specs.Texts.{split_asked, asked_in};
ghost use Rattle.eval_words.specs.Texts.{str_replace as the_str_replace, put_into as the_put_into};
ghost use Rattle.eval_words.specs.Texts.{params_of as the_params_of, digest as the_digest};
ghost use Rattle.eval_words.specs.Texts.{digest_with as the_digest_with};

use crate::lists::concatenated;
use crate::sorts::{first_and_rest, object_in, parts, text_in, text_taken, two_of, under, wanted};
use crate::{FaultCode, FunctionFault};
use heat_value::{Member, Props, Text, TryCopy, Value, text_of};
use hot_strings::{digest as digest_of, is_digest_name, join, replace, split};
use std::alloc::{AllocError, Global};

/// list_join: the texts of all lists' items in order, parted by the delimiter.
pub fn list_join(alloc: Global, argument: &Value) -> Result<Value, FunctionFault>
    ensures { IsAnswer result (the_list_join (data_of argument.now)) }
{
    let (delimiter, lists) = wanted(first_and_rest(parts(argument)))?;
    join_with(alloc, delimiter, lists)
}

// The items of the lists as one text, with the delimiter between them.
fn join_with(alloc: Global, delimiter: &Value, lists: &[Value]) -> Result<Value, FunctionFault>
    ensures { IsAnswer result (the_join_with (data_of delimiter.now, nodes_of lists.now)) }
{
    let delimiter = wanted(text_taken(alloc, delimiter)?)?;
    let items = wanted(concatenated(alloc, lists)?)?;
    let texts = texts_of(alloc, items.as_slice())?;
    Ok(Value::Words(join(alloc, &delimiter, texts.as_slice())?))
}

// Each value by its text.
fn texts_of(alloc: Global, items: &[&Value]) -> Result<Vec<Text>, AllocError>
    ensures { IfOk result (λ ts. ts.items ≡ the_texts_of (nodes_of (map (λ v. v.now) items.now))) }
{
    let mut texts = Vec::new(alloc);
    for item in items {
        texts.push(text_of(alloc, item)?)?;
    }
    Ok(texts)
}

/// str_split: the pieces between delimiters, or the piece at an index.
pub fn str_split(alloc: Global, argument: &Value) -> Result<Value, FunctionFault>
    ensures { IsAnswer result (the_str_split (data_of argument.now)) }
{
    let (delimiter, rest) = wanted(first_and_rest(parts(argument)))?;
    split_with(alloc, delimiter, rest)
}

// A text cut at the delimiter: its pieces, or the one that an index picks.
fn split_with(alloc: Global, delimiter: &Value, rest: &[Value]) -> Result<Value, FunctionFault>
    ensures { IsAnswer result (the_split_with (data_of delimiter.now, nodes_of rest.now)) }
{
    let delimiter = wanted(text_taken(alloc, delimiter)?)?;
    let (text, index) = wanted(first_and_rest(rest))?;
    split_text(alloc, &delimiter, text, index)
}

// A text, split as the parts behind it ask.
fn split_text(
    alloc: Global,
    delimiter: &Text,
    text: &Value,
    index: &[Value],
) -> Result<Value, FunctionFault>
    ensures { IsAnswer result (the_split_text delimiter.now (data_of text.now, nodes_of index.now)) }
{
    let text = wanted(text_taken(alloc, text)?)?;
    split_by(alloc, delimiter, &text, index)
}

// All pieces of a text, or the one at the given index.
fn split_by(
    alloc: Global,
    delimiter: &Text,
    text: &Text,
    index: &[Value],
) -> Result<Value, FunctionFault>
    ensures { IsAnswer result
        (split_asked (asked_in (nodes_of index.now)) delimiter.now text.now) }
{
    match index {
        [] => Ok(split(alloc, delimiter, text, None)?),
        [index, ..] => Ok(split(alloc, delimiter, text, Some(index))?),
    }
}

/// str_replace and str_replace_strict: each key's value in the key's place.
pub fn str_replace(alloc: Global, strict: bool, argument: &Value) -> Result<Value, FunctionFault>
    ensures { IsAnswer result (the_str_replace strict (data_of argument.now)) }
{
    let params = wanted(under(alloc, "params", argument)?)?;
    let params = wanted(object_in(params))?;
    let template = wanted(under(alloc, "template", argument)?)?;
    let template = wanted(text_taken(alloc, template)?)?;
    put_into(alloc, strict, params, &template)
}

// A template with each key replaced by what its parameter says.
fn put_into(
    alloc: Global,
    strict: bool,
    params: &Props,
    template: &Text,
) -> Result<Value, FunctionFault>
    ensures { IsAnswer result (the_put_into strict (the_params_of params.now) template.now) }
{
    let params = params_of(alloc, params.as_slice())?;
    Ok(Value::Words(replace(alloc, template, params.as_slice(), strict)?))
}

// Each key with its value's text.
fn params_of(alloc: Global, members: &[Member]) -> Result<Vec<(Text, Text)>, AllocError>
    ensures { IfOk result (λ ps. ps.items ≡ the_params_of (members_of members.now)) }
{
    let mut params = Vec::new(alloc);
    for member in members {
        params.push((member.key.copy()?, text_of(alloc, &member.value)?))?;
    }
    Ok(params)
}

/// digest: F01 too where no digest has the name.
pub fn digest(alloc: Global, argument: &Value) -> Result<Value, FunctionFault>
    ensures { IsAnswer result (the_digest (data_of argument.now)) }
{
    let (name, text) = wanted(two_of(parts(argument)))?;
    digest_with(alloc, name, text)
}

// The digest of a text, by the name that a value tells.
fn digest_with(alloc: Global, name: &Value, text: &Value) -> Result<Value, FunctionFault>
    ensures { IsAnswer result (the_digest_with (data_of name.now, data_of text.now)) }
{
    let text = wanted(text_taken(alloc, text)?)?;
    let name = wanted(text_in(name))?;
    digest_named(alloc, name, &text)
}

// The digest of this name; F01 where none has it.
fn digest_named(alloc: Global, name: &Text, text: &Text) -> Result<Value, FunctionFault>
    ensures { IsAnswer result (wanted_of (the_digest_of name.now text.now) (λ hex. Ok (words hex))) }
{
    if !is_digest_name(name) {
        return Err(FunctionFault::Wrong(FaultCode::F01));
    }
    Ok(Value::Words(digest_of(alloc, name, text)?))
}
