//! Cutting a text at a delimiter.
ghost use Rattle.std.specs.Prelude.{◌≡◌, ◌≢◌, [], List, ℕ, IfOk, IfErr, OnOk, MatchOption};
ghost use Rattle.heat_value.specs.Meaning.{data_of};
ghost use Rattle.hot_strings.specs.Answers.{cuts};
ghost use Rattle.hot_strings.specs.Joined.{joined};
ghost use Rattle.hot_strings.specs.Only.{HoldsOfOne};
ghost use Rattle.hot_strings.specs.Size.{Fits};
ghost use Rattle.hot_strings.specs.Split.{AreSplit, IsSplitValue, IsSplitFault, all, one, unfit, asked_of, asked_by};

use crate::StringFault;
use crate::cutting::{cut, piece_at};
use crate::listing::Listing;
use crate::size::{MAX_SIZE, room_after};
use heat_value::{Text, Value};
use std::alloc::Global;

/// The pieces of a text, or the piece at an index. The faults come in this order: F02 for an index
/// that is no whole number of 0 or more, F03 for an empty delimiter, F02 for an index out of range,
/// F06 for a value that is too long.
#[tactic(auto, using(crate::proofs::AnswerLemmas::for_split))]
pub fn split(
    alloc: Global,
    delimiter: &Text,
    text: &Text,
    index: Option<&Value>,
) -> Result<Value, StringFault>
    ensures ok { IfOk result (λ v.
        IsSplitValue delimiter.now text.now (asked_of index.entry) (data_of v)) }
    ensures fits { IfOk result (λ v. Fits (data_of v)) }
    ensures cuts { OnOk result (delimiter.now ≢ []) }
    ensures err { IfErr result (λ e.
        IsSplitFault e delimiter.now text.now (asked_of index.entry)) }

    // There is exactly one list of pieces, and joined by the delimiter it is the text again.
    ensures one { delimiter.now ≢ [] → HoldsOfOne (AreSplit delimiter.now text.now) }
    ensures again { (ps : List (List ℕ)) → AreSplit delimiter.now text.now ps →
        joined delimiter.now ps ≡ text.now }

    // It is what the text is cut into from left to right.
    ensures answer { delimiter.now ≢ [] → (ps : List (List ℕ)) →
        AreSplit delimiter.now text.now ps → cuts delimiter.now text.now ≡ ps }
{
    let at = match index {
        None => None,
        Some(value) => match place_of(value) {
            Some(at) => Some(at),
            None => return Err(StringFault::F02),
        },
    };
    if delimiter.as_str().is_empty() {
        return Err(StringFault::F03);
    }
    match at {
        None => all_pieces(alloc, delimiter.as_str(), text.as_str()),
        Some(at) => one_piece(alloc, delimiter.as_str(), text.as_str(), at),
    }
}

// The place that an index names.
fn place_of(index: &Value) -> Option<u64>
    ensures { MatchOption result (asked_by (data_of index.now) ≡ unfit)
        (λ at. asked_by (data_of index.now) ≡ one at) }
{
    match index {
        Value::Whole(whole) => u64::try_from(*whole).ok(),
        _ => None,
    }
}

// All pieces as a list.
fn all_pieces(alloc: Global, delimiter: &str, text: &str) -> Result<Value, StringFault>
    requires { delimiter.now ≢ [] }
    ensures ok { IfOk result (λ v. IsSplitValue delimiter.now text.now all (data_of v)) }
    ensures fits { IfOk result (λ v. Fits (data_of v)) }
    ensures err { IfErr result (λ e. IsSplitFault e delimiter.now text.now all) }
{
    let mut pieces = Listing::new(alloc);
    let mut rest = text;
    while let Some((piece, tail)) = cut(delimiter, rest) {
        pieces.push(alloc, piece)?;
        rest = tail;
    }
    pieces.push(alloc, rest)?;
    Ok(Value::Items(pieces.finish()))
}

// The piece at a place.
fn one_piece(alloc: Global, delimiter: &str, text: &str, at: u64) -> Result<Value, StringFault>
    requires { delimiter.now ≢ [] }
    ensures ok { IfOk result (λ v. IsSplitValue delimiter.now text.now (one at) (data_of v)) }
    ensures fits { IfOk result (λ v. Fits (data_of v)) }
    ensures err { IfErr result (λ e. IsSplitFault e delimiter.now text.now (one at)) }
{
    match piece_at(delimiter, text, at) {
        Some(piece) => match room_after(MAX_SIZE - 2, piece) {
            Some(_) => Ok(Value::Words(Text::from_str(alloc, piece)?)),
            None => Err(StringFault::F06),
        },
        None => Err(StringFault::F02),
    }
}
