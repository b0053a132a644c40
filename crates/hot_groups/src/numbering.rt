//! A member's number: in its name, and in the texts of its definition in place of the index variable.
ghost use Rattle.std.specs.Prelude.{◌≡◌, ◌++◌, ◌∷◌, [], IfOk, decimal};
ghost use Rattle.hot_strings.specs.Answers.{with_values};
ghost use Rattle.hot_groups.specs.Groups.{member_name as the_member_name};

use heat_value::{Text, TryCopy};
use hot_strings::{KeyIndex, replace_within};
use serde_json::Value as Json;
use std::alloc::{AllocError, Global};
use std::marker::Model;

/// A member's number as text, and what it stands in place of, with the index of that one key.
#[derive(Drop)]
pub struct Numbering {
    pair: Vec<(Text, Text)>,
    index: KeyIndex,
}

impl Model for Numbering {
    ghost use Rattle.hot_strings.specs.Indexes.{keys_in, IsIndexOf};
    ghost use Rattle.hot_strings.specs.Pieces.{Params, AreDistinct};

    ghost Value = { Params };

    ghost view = { λ n. n.pair.items };

    ghost invariant = { λ n. IsIndexOf (keys_in n.pair.items) n.index × AreDistinct n.pair.items };
}

impl Numbering {
    /// This number in place of the index variable.
    pub fn new(alloc: Global, index_var: &Text, number: usize) -> Result<Numbering, AllocError>
        ensures { IfOk result (λ n. n ≡ (index_var.now, decimal number) ∷ []) }
    {
        let mut pair = Vec::with_capacity(alloc, 1)?;
        pair.push((index_var.copy()?, decimal_of(alloc, number)?))?;
        let index = KeyIndex::new(alloc, pair.as_slice())?;
        Ok(Numbering { pair, index })
    }

    /// A text with the number in it. An index variable isn't empty, and no text takes more than all memory.
    pub fn text(&self, alloc: Global, words: &Text) -> Result<Text, AllocError>
        ensures { IfOk result (λ t. t ≡ with_values self.now words.now) }
    {
        match replace_within(alloc, words, self.pair.as_slice(), &self.index, usize::MAX) {
            Ok(text) => Ok(text),
            Err(_) => Err(AllocError),
        }
    }
}

/// The name of the member of a group with this number.
pub(crate) fn member_name(alloc: Global, group: &Text, number: usize) -> Result<Text, AllocError>
    ensures { IfOk result (λ t. t ≡ the_member_name group.now number) }
{
    let mut name = String::from_str(alloc, group.as_str())?;
    name.push_str(".")?;
    name.push_str(decimal_of(alloc, number)?.as_str())?;
    Ok(Text::from_string(name))
}

// A number in decimal.
fn decimal_of(alloc: Global, number: usize) -> Result<Text, AllocError>
    ensures { IfOk result (λ t. t ≡ decimal number) }
{
    Ok(Text::from_string(Json::from(number).to_string(alloc)?))
}
