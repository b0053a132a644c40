//! Replacing keys in a template, in one pass.
ghost use Rattle.std.specs.Prelude.{◌≤◌, IsTrue, IfOk, IfErr, OnOk, MatchBool};
ghost use Rattle.heat_value.specs.Data.{words};
ghost use Rattle.hot_strings.specs.Answers.{HasAnswer, with_values};
ghost use Rattle.hot_strings.specs.Faults.{IsOfLimit};
ghost use Rattle.hot_strings.specs.Indexes.{keys_in, IsIndexOf};
ghost use Rattle.hot_strings.specs.Only.{HoldsOfOne};
ghost use Rattle.hot_strings.specs.Size.{Fits, FitsWithin};
ghost use Rattle.hot_strings.specs.Pieces.{ArePieces, IsReplaced, AreDistinct, HasNoEmptyKey};
ghost use Rattle.hot_strings.specs.Pieces.{LacksSomeKey, HasEveryKey};
ghost use Rattle.hot_strings.specs.Replacing.{IsReplaceFault, IsWithinFault, IsOfReplaced};

use crate::StringFault;
use crate::draft::Draft;
use crate::index::KeyIndex;
use crate::pieces::first_piece;
use crate::size::MAX_SIZE;
use heat_value::Text;
use std::alloc::{AllocError, Global};

/// The template with each key's value in the key's place: at each place the longest key that stands
/// there counts, and what was put in isn't read again. With `strict` each key has to stand somewhere
/// in the template. The faults come in this order: F03 for an empty key, F04 for a key that stands
/// nowhere, F06 for a result that is too long.
pub fn replace(
    alloc: Global,
    template: &Text,
    params: &[(Text, Text)],
    strict: bool,
) -> Result<Text, StringFault>
    requires { AreDistinct params.now }
    ensures ok { IfOk result (IsReplaced params.now template.now) }
    ensures fits { IfOk result (λ t. Fits (words t)) }
    ensures keys { OnOk result (HasNoEmptyKey params.now) }
    ensures all { OnOk result (IsTrue strict → HasEveryKey params.now template.now) }
    ensures err { IfErr result (λ e. IsReplaceFault e params.now template.now strict) }

    // There is exactly one list of pieces.
    ensures one { HasNoEmptyKey params.now → HoldsOfOne (ArePieces params.now template.now) }

    // What stands in their place is what one pass from left to right makes.
    ensures answer { HasNoEmptyKey params.now → HasAnswer params.now template.now }
{
    // Each key is read here, which shows that it is text, as `one` needs.
    for param in params {
        if param.0.as_str().is_empty() {
            return Err(StringFault::F03);
        }
    }
    filled(alloc, template.as_str(), params, strict)
}

/// The same where the text is no function's result, with a limit of its own in bytes of JSON and an
/// index of the keys, which is made once for many texts: F03 for an empty key, F06 for a text that
/// takes more.
pub fn replace_within(
    alloc: Global,
    template: &Text,
    params: &[(Text, Text)],
    index: &KeyIndex,
    limit: usize,
) -> Result<Text, StringFault>
    requires distinct { AreDistinct params.now }
    requires index { IsIndexOf (keys_in params.now) index.now }
    requires some { 2 ≤ limit }
    ensures ok { IfOk result (IsReplaced params.now template.now) }
    ensures fits { IfOk result (λ t. FitsWithin limit (words t)) }
    ensures keys { OnOk result (HasNoEmptyKey params.now) }
    ensures err { IfErr result (λ e. IsWithinFault e limit params.now template.now) }
    ensures answer { HasNoEmptyKey params.now → HasAnswer params.now template.now }
{
    if index.has_empty_key() {
        return Err(StringFault::F03);
    }
    filled_by(alloc, template.as_str(), params, index, limit)
}

// The template with the values put in, where with `strict` each key stands somewhere in it.
fn filled(
    alloc: Global,
    template: &str,
    params: &[(Text, Text)],
    strict: bool,
) -> Result<Text, StringFault>
    requires distinct { AreDistinct params.now }
    requires keys { HasNoEmptyKey params.now }
    ensures ok { IfOk result (IsReplaced params.now template.now) }
    ensures fits { IfOk result (λ t. Fits (words t)) }
    ensures all { OnOk result (IsTrue strict → HasEveryKey params.now template.now) }
    ensures err { IfErr result (λ e. IsReplaceFault e params.now template.now strict) }
{
    let index = KeyIndex::new(alloc, params)?;
    if strict_fails(alloc, strict, params, &index, template)? {
        return Err(StringFault::F04);
    }
    filled_by(alloc, template, params, &index, MAX_SIZE)
}

// Whether some key stands nowhere in the template, where that counts.
fn strict_fails(
    alloc: Global,
    strict: bool,
    params: &[(Text, Text)],
    index: &KeyIndex,
    template: &str,
) -> Result<bool, AllocError>
    requires keys { HasNoEmptyKey params.now }
    requires index { IsIndexOf (keys_in params.now) index.now }
    ensures { IfOk result (λ b. MatchBool b (IsTrue strict × LacksSomeKey params.now template.now)
        (IsTrue strict → HasEveryKey params.now template.now)) }
{
    if strict {
        index.lacks_some(alloc, template)
    } else {
        Ok(false)
    }
}

// The template with the values put in, the keys found by an index, where that takes no more than it may.
fn filled_by(
    alloc: Global,
    template: &str,
    params: &[(Text, Text)],
    index: &KeyIndex,
    limit: usize,
) -> Result<Text, StringFault>
    requires distinct { AreDistinct params.now }
    requires keys { HasNoEmptyKey params.now }
    requires index { IsIndexOf (keys_in params.now) index.now }
    requires some { 2 ≤ limit }
    ensures ok { IfOk result (IsReplaced params.now template.now) }
    ensures fits { IfOk result (λ t. FitsWithin limit (words t)) }
    ensures err { IfErr result (λ e. IsOfReplaced e limit params.now template.now) }
{
    let passed = pass(alloc, template, params, index, limit);
    if passed.is_ok() {
        return passed;
    }

    // Each key is read here, which shows that it is text: so the template has its pieces.
    for param in params {
        param.0.as_str();
    }
    passed
}

// What one pass makes of the template, where that takes no more than it may.
fn pass(
    alloc: Global,
    template: &str,
    params: &[(Text, Text)],
    index: &KeyIndex,
    limit: usize,
) -> Result<Text, StringFault>
    requires distinct { AreDistinct params.now }
    requires keys { HasNoEmptyKey params.now }
    requires index { IsIndexOf (keys_in params.now) index.now }
    requires some { 2 ≤ limit }
    ensures ok { IfOk result (IsReplaced params.now template.now) }
    ensures fits { IfOk result (λ t. FitsWithin limit (words t)) }
    ensures err { IfErr result (λ e. IsOfLimit e limit (words (with_values params.now template.now))) }
{
    let found = index.found_in(alloc, template)?;
    let mut draft = Draft::new(alloc, limit);
    let mut rest = template;
    while !rest.is_empty() {
        let longest = found[template.len() - rest.len()];
        let (put, tail) = first_piece(params, longest, rest);
        draft.push(put)?;
        rest = tail;
    }
    Ok(draft.finish())
}
