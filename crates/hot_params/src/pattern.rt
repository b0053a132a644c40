//! Patterns, and whether they match whole texts.
ghost use Rattle.std.specs.Prelude.{◌≡◌, ◌↔◌, ◌∷◌, [], IfOk, IfErr, IsTrue, Some};
ghost use Rattle.regex.specs.Strings.{regex_pattern, matcher_pattern};
ghost use Rattle.heat_value.specs.Meaning.{data_of};
ghost use Rattle.hot_params.specs.Patterns.{IsReadAsPattern, IsWhole, AreWhole, IsLong, IsRefusedFor};
ghost use Rattle.hot_params.specs.Patterns.{refused_by as the_refused_by};
ghost use Rattle.hot_params.specs.declared.code.ParamCode.TheVariants.{P06};
ghost use Rattle.hot_params.specs.Rules.{IsMatching, text_in as the_text_in, texts_in, texts_among};

use crate::ParamCode;
use heat_value::{Items, Text, Value};
use regex::{Matcher, Regex};
use std::alloc::{AllocError, Global};

// The longest pattern that, without a `{`, is refused for its grammar or nesting alone.
const SHORT: usize = 64;

/// Why a pattern isn't compiled.
#[derive(Clone, Copy, Debug, PartialEq, Eq)]
pub enum Refused {
    /// The grammar reads no pattern, or it nests too deep.
    Pattern,
    /// Another cause, such as its size.
    Other,
    /// There was no memory.
    Memory,
}

/// P04 where a text of the value isn't matched as a whole, P06 where the pattern is none or refused.
pub fn pattern_code(
    alloc: Global,
    pattern: &str,
    value: &Value,
) -> Result<Option<ParamCode>, AllocError>
    ensures { IfOk result (λ c. IsMatching pattern.now (texts_in (data_of value.now)) c) }
{
    match compiled(alloc, pattern) {
        Ok(regex) => {
            if are_whole(alloc, &regex, value)? {
                return Ok(None);
            }
            Ok(Some(ParamCode::P04))
        }
        Err(Refused::Pattern) => Ok(Some(ParamCode::P06)),
        Err(Refused::Other) => refused_for_size(pattern),
        Err(Refused::Memory) => Err(AllocError),
    }
}

// A pattern that is refused for its size counts as refused where it is long, and else as want of memory.
fn refused_for_size(pattern: &str) -> Result<Option<ParamCode>, AllocError>
    ensures { IfOk result (λ c. (c ≡ Some P06) × IsLong pattern.now) }
{
    if is_long(pattern) {
        return Ok(Some(ParamCode::P06));
    }
    Err(AllocError)
}

// Whether a pattern has more than 64 bytes, or a `{`.
fn is_long(pattern: &str) -> bool
    ensures { IsTrue result ↔ IsLong pattern.now }
{
    SHORT < pattern.len() || pattern.as_bytes().contains(&b'{')
}

// The pattern, ready to search with.
fn compiled(alloc: Global, pattern: &str) -> Result<Regex, Refused>
    ensures ok { IfOk result (λ r. IsReadAsPattern pattern.now (regex_pattern r)) }
    ensures err { IfErr result (λ e. IsRefusedFor pattern.now e) }
{
    match Regex::new(alloc, pattern) {
        Ok(regex) => Ok(regex),
        Err(error) => Err(refused_by(error)),
    }
}

// What an error counts as.
fn refused_by(error: regex::Error) -> Refused
    ensures { result ≡ the_refused_by error }
{
    match error {
        regex::Error::Syntax(_) => Refused::Pattern,
        regex::Error::CompiledTooBig => Refused::Other,
        regex::Error::Internal => Refused::Other,
        regex::Error::OutOfMemory => Refused::Memory,
    }
}

// Whether the leftmost match in each text of a value is the whole of it.
fn are_whole(alloc: Global, regex: &Regex, value: &Value) -> Result<bool, AllocError>
    ensures { IfOk result (λ b. IsTrue b
        ↔ AreWhole (regex_pattern regex.now) (texts_in (data_of value.now))) }
{
    let mut matcher = regex.matcher(alloc)?;
    Ok(are_found_whole(&mut matcher, value))
}

// Whether a value's texts, its own or its items', are each a match as a whole.
fn are_found_whole(matcher: &mut Matcher, value: &Value) -> bool
    ensures { IsTrue result
        ↔ AreWhole (matcher_pattern matcher.old) (texts_in (data_of value.now)) }
{
    match value {
        Value::Words(words) => text_is_whole(matcher, words),
        Value::Items(items) => items_are_whole(matcher, items),
        Value::Null | Value::Flag(_) | Value::Whole(_) | Value::Fields(_) => true,
    }
}

// Whether a text is one.
fn text_is_whole(matcher: &mut Matcher, text: &Text) -> bool
    ensures { IsTrue result ↔ AreWhole (matcher_pattern matcher.old) (text.now ∷ []) }
{
    is_whole(matcher, text.as_str())
}

// Whether the text of each item is one.
fn items_are_whole(matcher: &mut Matcher, items: &Items) -> bool
    ensures { IsTrue result ↔ AreWhole (matcher_pattern matcher.old) (texts_among items.now) }
{
    for value in items.as_slice() {
        if !is_whole(matcher, text_in(value)) {
            return false;
        }
    }
    true
}

// Whether the leftmost match in a text is the whole of it.
fn is_whole(matcher: &mut Matcher, text: &str) -> bool
    ensures whole { IsTrue result ↔ IsWhole (matcher_pattern matcher.old) text.now }
    ensures same { matcher_pattern matcher.new ≡ matcher_pattern matcher.old }
{
    match matcher.find(text) {
        Some(found) => found.start() == 0 && found.end() == text.len(),
        None => false,
    }
}

/// The text that a value is; nothing for any other.
pub fn text_in(value: &Value) -> &str
    ensures { result.now ≡ the_text_in (data_of value.now) }
{
    match value {
        Value::Words(words) => words.as_str(),
        Value::Null | Value::Flag(_) | Value::Whole(_) | Value::Items(_) | Value::Fields(_) => "",
    }
}
