//! Lists out of texts and values.
ghost use Rattle.std.specs.Prelude.{◌≡◌, ◌≢◌, ◌<◌, ◌==◌, ◌∷◌, [], ◌++◌, ℕ, List, IfOk, OnOk};
ghost use Rattle.std.specs.Prelude.{MatchOption, IfSome, IsUtf8, length, map};
ghost use Rattle.std.specs.List.{before_first, after_first, position_or_len};
ghost use Rattle.heat_value.specs.Data.{words, node_last};
ghost use Rattle.hot_params.specs.Conversions.{texts_of as the_texts_of, nodes_with};
ghost use Rattle.hot_params.specs.Texts.{listed_in as the_listed_in, pieces, trimmed as the_trimmed};
ghost use Rattle.hot_params.specs.Texts.{without_front as the_without_front, without_back as the_without_back};

use heat_value::{Items, Text, Value, text_of};
use std::alloc::{AllocError, Global};

/// Each value by its text.
pub fn texts_of(alloc: Global, items: &Items) -> Result<Items, AllocError>
    ensures { IfOk result (λ ns. ns ≡ the_texts_of items.now) }
{
    let mut texts = Items::new(alloc);
    for value in items.as_slice() {
        texts.push(Value::Words(text_of(alloc, value)?))?;
    }
    Ok(texts)
}

/// The items that a text lists.
pub fn listed_in(alloc: Global, text: &str) -> Result<Items, AllocError>
    ensures { IfOk result (λ ns. ns ≡ nodes_with (the_listed_in text.now)) }
{
    if text.is_empty() {
        return Ok(Items::new(alloc));
    }
    pieces_in(alloc, text)
}

// The pieces between commas, trimmed.
fn pieces_in(alloc: Global, text: &str) -> Result<Items, AllocError>
    ensures { IfOk result (λ ns. ns ≡ nodes_with (map the_trimmed (pieces text.now))) }
{
    let mut items = Items::new(alloc);
    let mut rest = text;
    while let Some((piece, tail)) = parted(rest) {
        push_trimmed(alloc, &mut items, piece)?;
        rest = tail;
    }
    push_trimmed(alloc, &mut items, rest)?;
    Ok(items)
}

// What stands before and behind the first comma.
fn parted(text: &str) -> Option<(&str, &str)>
    ensures parts { MatchOption result (position_or_len (λ b. b == 44) text.now ≡ length text.now)
        (λ x. (x.0.now ≡ before_first (λ b. b == 44) text.now)
        × (x.1.now ≡ after_first (λ b. b == 44) text.now)
        × (position_or_len (λ b. b == 44) text.now < length text.now)) }
    ensures utf8 { IfSome result (λ x. IsUtf8 x.0.now × IsUtf8 x.1.now) }
{
    text.split_once(',')
}

// Puts a piece behind the last, without the spaces at its ends.
fn push_trimmed(alloc: Global, items: &mut Items, piece: &str) -> Result<(), AllocError>
    ensures { OnOk result (items.new ≡ node_last items.old (words (the_trimmed piece.now))) }
{
    items.push(Value::Words(Text::from_str(alloc, trimmed(piece))?))
}

// The text without the spaces at both ends.
fn trimmed(text: &str) -> &str
    ensures { result.now ≡ the_trimmed text.now }
{
    without_front(without_back(text))
}

// A text without the spaces that it begins with.
fn without_front(text: &str) -> &str
    ensures { result.now ≡ the_without_front text.now }
{
    let mut rest = text;
    while let Some(shorter) = behind_space(rest) {
        rest = shorter;
    }
    rest
}

// What stands behind a space at the front.
fn behind_space(text: &str) -> Option<&str>
    ensures cases { MatchOption result ((rest : List ℕ) → text.now ≢ 32 ∷ rest)
        (λ x. text.now ≡ 32 ∷ x.now) }
    ensures utf8 { IfSome result (λ x. IsUtf8 x.now) }
{
    text.strip_prefix(" ")
}

// A text without the spaces that it ends with.
fn without_back(text: &str) -> &str
    ensures { result.now ≡ the_without_back text.now }
{
    let mut rest = text;
    while let Some(shorter) = before_space(rest) {
        rest = shorter;
    }
    rest
}

// What stands before a space at the end.
fn before_space(text: &str) -> Option<&str>
    ensures cases { MatchOption result ((front : List ℕ) → text.now ≢ front ++ 32 ∷ [])
        (λ x. text.now ≡ x.now ++ 32 ∷ []) }
    ensures utf8 { IfSome result (λ x. IsUtf8 x.now) }
{
    text.strip_suffix(" ")
}
