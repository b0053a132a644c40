//! Indexes of tokens.
ghost use Rattle.std.specs.Prelude.{◌≡◌, [], IfOk, OnOk, find, option_map};
ghost use Rattle.heat_plan.specs.declared.token.Token.{Token as token_type};
ghost use Rattle.provider.specs.Same.{same_token};
ghost use Rattle.opening_check.specs.Places.{IsIndex, or_else, place_in, tokens_of};
ghost use Rattle.opening_check.specs.Rows.{listed_of};

use crate::listed::Listed;
use heat_plan::{Token, TryCopy};
use keyed_table::Table;
use provider::Alive;
use std::alloc::{AllocError, Global};

/// The index of the resources' tokens.
pub(crate) fn index_of_list(alloc: Global, all: &[Alive]) -> Result<Table<Listed>, AllocError>
    ensures { IfOk result (λ index. IsIndex (tokens_of all.now) index.items) }
{
    let mut index = Table::new(alloc);
    for place in 0..all.len() {
        enter(&mut index, &all[place].token, place)?;
    }
    Ok(index)
}

/// The index of these tokens.
pub(crate) fn index_of(alloc: Global, tokens: &[Token]) -> Result<Table<Listed>, AllocError>
    ensures { IfOk result (λ index. IsIndex tokens.now index.items) }
{
    let mut index = Table::new(alloc);
    for place in 0..tokens.len() {
        enter(&mut index, &tokens[place], place)?;
    }
    Ok(index)
}

// Enters a token at a place behind all so far; one that stands before stays.
fn enter(index: &mut Table<Listed>, token: &Token, place: usize) -> Result<(), AllocError>
    ensures { OnOk result ((t : token_type) → place_in index.new.items t
        ≡ or_else (place_in index.old.items t) (same_token token.now t) place) }
{
    if index.get(token).is_some() {
        return Ok(());
    }
    index.reserve(1)?;
    index.push(Listed {
        token: token.copy()?,
        place,
    });
    Ok(())
}

/// The resource that is listed under a token.
pub(crate) fn listed<'a>(
    index: &Table<Listed>,
    all: &'a [Alive],
    token: &Token,
) -> Option<&'a Alive>
    requires { IsIndex (tokens_of all.now) index.now.items }
    ensures { option_map (λ a. a.now) result ≡ listed_of all.now token.now }
{
    match index.get(token) {
        Some(entry) => all.get(entry.place),
        None => None,
    }
}
